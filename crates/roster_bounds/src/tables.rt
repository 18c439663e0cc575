//! Prices over the lines of all persons.

ghost use Rattle.std.specs.Prelude.{◌≡◌, ◌<◌, ◌≤ℤ◌, ℕ, IfErr, IfOk, IsTrue, length, pos, slice_index_or};
ghost use Rattle.std.specs.List.{range_with_len};
ghost use Rattle.std.specs.Arc.{arc_value};
ghost use Rattle.roster_model.specs.Costs.{total};
ghost use Rattle.roster_model.specs.Lines.{IsLine};
ghost use Rattle.roster_model.specs.Settled.{Anywhere, IsNotAfter};
ghost use Rattle.roster_lines_table.specs.Person.{lines_at, IsTableOf};
ghost use Rattle.roster_cost.specs.Amounts.{IsWithin};
ghost use Rattle.roster_bounds.specs.declared.prices.TheConstants.{MOST_PRICE};
ghost use Rattle.roster_bounds.specs.Amounts.{AreReduced, most_prices};
ghost use Rattle.roster_bounds.specs.Chosen.{halves_of, lesser_at, line_set, priced_table, reduced_at};
ghost use Rattle.roster_bounds.specs.Chosen.{ArePriced, AreReducedBounds, IsLeastReduced, IsReducedBound};
ghost use Rattle.roster_bounds.specs.Chosen.{IsRootBound, penalty_at, price_at};

use crate::prices::Prices;
use crate::reduced::{least_of_any, least_reduced, reduced, sum_of};
use roster_cost::comes_before;
use roster_lines_table::Table;
use roster_model::limits::{MOST_PAIRINGS, MOST_PERSONS};
use roster_problem::Problem;
use roster_values::{Roster, Set};
use std::alloc::{AllocError, Global};
use std::marker::Model;
use std::sync::Arc;

/// A problem, the table of its lines, and a price for each pairing, with what bounds need of each
/// person. It may know the best roster, so that a search needn't look for one that comes before it.
#[derive(Drop)]
pub struct Tables<'a> {
    problem: &'a Problem,
    table: &'a Table,
    prices: Prices,
    // Of each person a number that no reduced cost of a line is below.
    bounds: Vec<i128>,
    // A roster that is after no legal one.
    best: Option<Arc<Roster>>,
}

impl<'a> Model for Tables<'a> {
    ghost use Rattle.roster_bounds.specs.Chosen.{PricedTable, priced_table};
    ghost use Rattle.roster_bounds.specs.Chosen.{IsBuilt};
    ghost use Rattle.std.specs.Prelude.{IfSome};
    ghost use Rattle.std.specs.Arc.{arc_value};
    ghost use Rattle.roster_model.specs.Settled.{Anywhere, IsNotAfter};

    ghost Value = { PricedTable };

    ghost view = { λ t. priced_table t.problem.now t.table.now t.prices };

    ghost invariant = { λ t. IsBuilt t.problem.now t.table.now t.prices t.bounds.items
        × IfSome t.best (λ best. IsNotAfter t.problem.now Anywhere (arc_value best)) };
}

impl<'a> Tables<'a> {
    /// The tables of a problem, the table of its lines, and a price for each pairing. The prices are
    /// handed back if memory runs out.
    pub fn build(
        alloc: Global,
        problem: &'a Problem,
        table: &'a Table,
        prices: Prices,
    ) -> Result<Tables<'a>, (Prices, AllocError)>
        requires lines { IsTableOf problem.now table.now }
        requires covers { length prices ≡ length problem.now.pairings }
        ensures ok { IfOk result
            (λ tables. tables ≡ priced_table problem.now table.now prices) }
        ensures back { IfErr result (λ refused. refused.0 ≡ prices) }
    {
        match bounds_of(alloc, problem, table, &prices) {
            Ok(bounds) => Ok(Tables {
                problem,
                table,
                prices,
                bounds,
                best: None,
            }),
            Err(refused) => Err((prices, refused)),
        }
    }

    /// The tables, and their bound of all legal rosters.
    pub(crate) fn build_with_bound(
        alloc: Global,
        problem: &'a Problem,
        table: &'a Table,
        prices: Prices,
    ) -> Result<(Tables<'a>, i128), AllocError>
        requires lines { IsTableOf problem.now table.now }
        requires covers { length prices ≡ length problem.now.pairings }
        ensures tables { IfOk result
            (λ built. built.0 ≡ priced_table problem.now table.now prices) }
        ensures bound { IfOk result (λ built. IsRootBound problem.now prices built.1) }
    {
        prove!(problem.persons().len() <= MOST_PERSONS);
        let bounds = bounds_of(alloc, problem, table, &prices)?;
        let sum = sum_of(&bounds);
        let tables = Tables {
            problem,
            table,
            prices,
            bounds,
            best: None,
        };
        let bound = sum + i128::from(tables.lesser_sum());
        Ok((tables, bound))
    }

    /// The tables for who knows a roster that is after no legal one: each price is 0, and no line is looked
    /// at.
    pub fn of_best(
        alloc: Global,
        problem: &'a Problem,
        table: &'a Table,
        best: Arc<Roster>,
    ) -> Result<Tables<'a>, AllocError>
        requires lines { IsTableOf problem.now table.now }
        requires best { IsNotAfter problem.now Anywhere (arc_value best) }
        ensures { IfOk result (λ tables.
            tables ≡ priced_table problem.now table.now (halves_of problem.now 0)) }
    {
        let prices = Prices::of_penalties(alloc, problem, 0)?;
        let bounds = far_bounds(alloc, problem, &prices)?;
        Ok(Tables {
            problem,
            table,
            prices,
            bounds,
            best: Some(best),
        })
    }

    /// Whether it is known that no legal roster comes before this one. It takes no memory.
    pub fn none_before(&self, roster: &Roster) -> bool
        ensures { IsTrue result → IsNotAfter self.now.problem Anywhere roster.now }
    {
        match &self.best {
            Some(best) => !comes_before(best, roster),
            None => false,
        }
    }

    /// The problem.
    pub fn problem(&self) -> &'a Problem
        ensures { result.now ≡ self.now.problem }
    {
        self.problem
    }

    /// The table of its lines.
    pub fn table(&self) -> &'a Table
        ensures value { result.now ≡ self.now.table }
        ensures priced { ArePriced self.now.problem self.now.table self.now.prices }
    {
        self.table
    }

    /// The prices.
    pub fn prices(&self) -> &Prices
        ensures { result.now ≡ self.now.prices }
    {
        &self.prices
    }

    /// How many lines person `k` has.
    pub(crate) fn width(&self, k: usize) -> usize
        requires { k < length self.now.problem.persons }
        ensures value { result ≡ length (lines_at self.now.table k) }
        ensures lines { IsTableOf self.now.problem self.now.table }
    {
        self.table.width(k)
    }

    /// The set of line `i` of person `k`.
    pub(crate) fn set(&self, k: usize, i: usize) -> Set
        requires person { k < length self.now.problem.persons }
        requires line { i < length (lines_at self.now.table k) }
        ensures value { result ≡ line_set self.now.table k i }
        ensures line { IsLine self.now.problem k result }
    {
        self.table.set(k, i)
    }

    /// The reduced cost of line `i` of person `k`.
    pub(crate) fn reduced(&self, k: usize, i: usize) -> i128
        requires person { k < length self.now.problem.persons }
        requires line { i < length (lines_at self.now.table k) }
        ensures value { result ≡ reduced_at self.now k (line_set self.now.table k i) }
        ensures fits { AreReduced 1 result }
    {
        reduced(self.problem, self.table, &self.prices, k, i)
    }

    /// The price of the pairing at place `p`.
    pub(crate) fn price(&self, p: usize) -> i64
        requires { p < length self.now.problem.pairings }
        ensures value { result ≡ price_at self.now.prices p }
        ensures fits { IsWithin MOST_PRICE result }
    {
        self.prices.at(p)
    }

    /// The penalty of the pairing at place `p`.
    pub(crate) fn penalty(&self, p: usize) -> i64
        requires { p < length self.now.problem.pairings }
        ensures value { result ≡ pos (penalty_at self.now.problem p) }
        ensures fits { IsWithin MOST_PRICE result }
    {
        let pairing = &self.problem.pairings()[p];
        i64::from(pairing.penalty)
    }

    /// The smaller of the two.
    pub(crate) fn penalty_or_price(&self, p: usize) -> i64
        requires { p < length self.now.problem.pairings }
        ensures value { result ≡ lesser_at self.now.problem self.now.prices p }
        ensures price { result ≤ℤ price_at self.now.prices p }
        ensures penalty { result ≤ℤ pos (penalty_at self.now.problem p) }
        ensures fits { IsWithin MOST_PRICE result }
    {
        let price = self.price(p);
        let penalty = self.penalty(p);
        if price < penalty { price } else { penalty }
    }

    /// The smaller of the two of each pairing, in all.
    fn lesser_sum(&self) -> i64
        ensures value { result ≡ total (lesser_at self.now.problem self.now.prices)
            (range_with_len 0 (length self.now.problem.pairings)) }
        ensures fits { IsWithin most_prices result }
    {
        let pairings = self.problem.pairings().len();
        prove!(pairings <= MOST_PAIRINGS);
        let mut sum = 0;
        for p in 0..pairings {
            sum += self.penalty_or_price(p);
        }
        sum
    }

    /// A number that no reduced cost of a line of person `k` is below.
    pub(crate) fn bound_of(&self, k: usize) -> i128
        requires { k < length self.now.problem.persons }
        ensures below { IsReducedBound self.now.problem self.now.prices k result }
        ensures fits { AreReduced 1 result }
    {
        self.bounds[k]
    }
}

/// Of each person the least reduced cost of a line.
fn bounds_of(
    alloc: Global,
    problem: &Problem,
    table: &Table,
    prices: &Prices,
) -> Result<Vec<i128>, AllocError>
    requires { ArePriced problem.now table.now prices.now }
    ensures below { IfOk result (λ bounds. AreReducedBounds problem.now prices.now
        (length problem.now.persons) bounds.items) }
    ensures least { IfOk result (λ bounds. (k : ℕ) → k < length problem.now.persons
        → IsLeastReduced problem.now prices.now k (slice_index_or bounds.items k (pos 0))) }
{
    let mut bounds = Vec::new(alloc);
    for k in 0..problem.persons().len() {
        bounds.push(least_reduced(alloc, problem, table, prices, k)?)?;
    }
    Ok(bounds)
}

/// The same without a look at the lines: for each person a number that is below what any line may have.
fn far_bounds(alloc: Global, problem: &Problem, prices: &Prices) -> Result<Vec<i128>, AllocError>
    ensures { IfOk result (λ bounds. AreReducedBounds problem.now prices.now
        (length problem.now.persons) bounds.items) }
{
    let least = least_of_any(problem, prices);
    let bounds = vec![in alloc; least; problem.persons().len()]?;
    Ok(bounds)
}
