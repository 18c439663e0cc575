//! Lines that a roster of a base may have which costs little more than a bound.
//!
//! What a roster costs above the bound is what its persons' reduced costs are above the least ones, and what
//! its pairings bring beside: nothing of that is below 0. So a line whose reduced cost alone is further above
//! its person's least is in no such roster.

ghost use Rattle.std.specs.Prelude.{◌≡◌, ◌<◌, ◌≤◌, ◌*◌, ◌+ℤ◌, ◌*ℤ◌, ◌≤ℤ◌, ℕ, pos, All, IfOk, List, length};
ghost use Rattle.roster_model.specs.Costs.{cost_of};
ghost use Rattle.roster_cost.specs.Amounts.{IsWithin};
ghost use Rattle.roster_lines_table.specs.Person.{AreListed, IsOfTable};
ghost use Rattle.roster_bases.specs.Bases.{only};
ghost use Rattle.roster_bases.specs.Homes.{EachHomeRoster, IsHome};
ghost use Rattle.roster_plan_bound.specs.Gaps.{AreCheapOf, IsAlong, IsLeastBehind, IsTabled};
ghost use Rattle.roster_plan_bound.specs.Looks.{IsLook};
ghost use Rattle.roster_plan_bound.specs.Networks.{AreRows, IsNetwork};
ghost use Rattle.roster_plan_bound.specs.Reduced.{ArePrices};

use crate::network::Network;
use crate::parts::{MOST_CHAIN_VALUE, MOST_LEAST, PARTS};
use crate::pricing::{Priced, Pricing};
use crate::rows::{ChainRow, Chains, led, next_state, rows_of};
use crate::values::values_of;
use roster_bases::is_person_of;
use roster_cumulative::flight_of_set;
use roster_legal::part_of_legal_is_legal;
use roster_lines::{Between, LinesFault, TableFault, Wanted, lines_of_pairs};
use roster_lines_table::{Lines, Table};
use roster_model::limits::{MOST_LINES, MOST_PAIRINGS};
use roster_problem::Problem;
use roster_values::Set;
use std::alloc::{AllocError, Global};
use std::marker::Model;

/// For the rosters in which only persons of the base fly: the lines that each of them may have in a legal one
/// that costs at most so many units more than the bound that the prices say. Other persons have the empty
/// line.
pub(crate) fn lines_of_gap(
    alloc: Global,
    pricing: &Pricing<'_>,
    base: usize,
    prices: &[i64],
    priced: &Priced,
    gap: u32,
    most: usize,
) -> Result<Table, TableFault>
    requires prices { ArePrices pricing.now prices.now }
    requires look { IsLook pricing.now prices.now base priced.now.bound priced.now.leasts.items }
    requires limit { (0 < most) × (most ≤ MOST_LINES) }
    ensures listed { IfOk result (AreListed pricing.now) }
    ensures all { IfOk result (λ table. EachHomeRoster pricing.now (only base) (λ places.
        cost_of pricing.now places ≤ℤ (priced.now.bound +ℤ pos gap) → IsOfTable table places)) }
    ensures home { IfOk result (λ table. (places : List ℕ)
        → IsOfTable table places → IsHome pricing.now (only base) places) }
{
    let problem = pricing.problem();
    let mut table = Table::empty(alloc);
    for k in 0..problem.persons().len() {
        let limit = limit_of(priced.leasts[k], gap);
        match lines_of_person(alloc, pricing, base, k, prices, limit, most) {
            Ok(lines) => table.push(alloc, lines)?,
            Err(LinesFault::TooMany) => return Err(TableFault::TooMany(k)),
            Err(LinesFault::Memory) => return Err(TableFault::Memory),
        }
    }
    Ok(table)
}

/// The lines of person `k` whose reduced cost is at most so much at the prices; the empty one alone, if the
/// person is of another base.
fn lines_of_person(
    alloc: Global,
    pricing: &Pricing<'_>,
    base: usize,
    k: usize,
    prices: &[i64],
    limit: i64,
    most: usize,
) -> Result<Lines, LinesFault>
    requires person { k < length pricing.now.persons }
    requires prices { ArePrices pricing.now prices.now }
    requires limit { (0 < most) × (most ≤ MOST_LINES) }
    ensures { IfOk result (AreCheapOf pricing.now prices.now base k limit) }
{
    let problem = pricing.problem();
    let pairs = pricing.pairs(k);
    if !is_person_of(problem, k, base) {
        let none = Between {
            must: Set::empty(),
            may: Set::empty(),
        };
        let lines = lines_of_pairs(alloc, problem, k, pairs, &none, 1)?;
        return Ok(lines);
    }
    let cheap = Cheap::new(alloc, problem, k, pricing.network(k), prices, limit)?;
    let lines = lines_of_pairs(alloc, problem, k, pairs, &cheap, most)?;
    Ok(lines)
}

/// What a reduced cost may be at most that is no further above the least one than so many units, rounded up.
fn limit_of(least: i64, gap: u32) -> i64
    requires { IsWithin MOST_LEAST least }
    ensures { result ≡ least +ℤ (pos PARTS *ℤ (pos gap +ℤ pos 1)) }
{
    least + PARTS as i64 * (i64::from(gap) + 1)
}

/// The lines of a person whose reduced cost is at most so much at the prices. Contracts see the problem, the
/// person, the prices and how much that is.
#[derive(Drop)]
struct Cheap<'a> {
    problem: &'a Problem,
    person: usize,
    network: &'a Network,
    prices: &'a [i64],
    values: Vec<i64>,
    rows: Vec<ChainRow>,
    most: i64,
}

impl<'a> Model for Cheap<'a> {
    ghost use Rattle.roster_plan_bound.specs.Gaps as gaps;

    ghost Value = { gaps.Cheap };

    ghost view = { λ c. record {
      problem = c.problem.now;
      person = c.person;
      prices = c.prices.now;
      most = c.most;
    } };

    ghost invariant = { λ c. gaps.IsTabled c.problem.now c.person c.prices.now c.network.now
        c.values.items c.rows.items };
}

impl<'a> Cheap<'a> {
    /// The lines of person `k`, whose network it is.
    fn new(
        alloc: Global,
        problem: &'a Problem,
        k: usize,
        network: &'a Network,
        prices: &'a [i64],
        most: i64,
    ) -> Result<Cheap<'a>, AllocError>
        requires person { k < length problem.now.persons }
        requires network { IsNetwork problem.now k network.now }
        requires prices { ArePrices problem.now prices.now }
        ensures { IfOk result (λ cheap. cheap ≡ record {
          problem = problem.now;
          person = k;
          prices = prices.now;
          most = most;
        }) }
    {
        let values = values_of(alloc, problem, k, prices)?;
        let chains = Chains {
            problem,
            person: k,
            network,
            values: &values,
        };
        let rows = rows_of(alloc, &chains)?;
        Ok(Cheap {
            problem,
            person: k,
            network,
            prices,
            values,
            rows,
            most,
        })
    }
}

impl<'a> Wanted for Cheap<'a> {
    ghost use Rattle.roster_plan_bound.specs.Gaps.{IsCheap};

    ghost wants = { λ cheap problem k set. IsCheap cheap problem k set };

    fn among(&self, alone: &Set) -> Set {
        *alone
    }

    fn goes_on(&self, problem: &Problem, k: usize, set: &Set, p: usize, _: i64, _: u64) -> bool {
        part_of_legal_is_legal();
        flight_of_set();
        self.problem.is_sound();
        if k != self.person || problem.pairings().len() != self.rows.len() {
            return true;
        }
        let chains = Chains {
            problem: self.problem,
            person: k,
            network: self.network,
            values: &self.values,
        };
        let least = least_behind(&chains, &self.rows, set, p);
        if least > self.most {
            return false;
        }
        true
    }
}

/// What a chain brings at least that begins with the set and pairing `p` behind it.
fn least_behind(chains: &Chains<'_>, rows: &[ChainRow], set: &Set, p: usize) -> i64
    requires network { IsNetwork chains.now.problem.now chains.now.person chains.now.network.now }
    requires covers { length chains.now.values.now ≡ length chains.now.problem.now.pairings }
    requires values { All (IsWithin MOST_CHAIN_VALUE) chains.now.values.now }
    requires rows { AreRows chains.now.problem.now chains.now.network.now chains.now.values.now rows.now }
    requires all { length rows.now ≡ length chains.now.problem.now.pairings }
    requires set { All (λ q. q < length chains.now.problem.now.pairings) set.now }
    requires place { p < length chains.now.problem.now.pairings }
    ensures { IsLeastBehind chains.now.network.now chains.now.values.now set.now p result }
{
    let (network, values) = (chains.network, chains.values);
    chains.problem.is_sound();
    let (value, state) = along(network, values, set);
    let next = next_state(network.terms.len(), state, network.steps[p]);
    value + led(rows[rows.len() - 1 - p].all(), values[p], next)
}

/// What a chain has brought that begins with the set, and the state of flight that it has come to.
fn along(network: &Network, values: &[i64], set: &Set) -> (i64, usize)
    requires some { 0 < length network.now.terms.items }
    requires steps { All (λ p. p < length network.now.steps.items) set.now }
    requires covers { All (λ p. p < length values.now) set.now }
    requires values { All (IsWithin MOST_CHAIN_VALUE) values.now }
    ensures along { IsAlong network.now values.now set.now result.0 result.1 }
    ensures within { IsWithin (MOST_PAIRINGS * MOST_CHAIN_VALUE) result.0 }
{
    let mut value = 0;
    let mut state = 0;
    let mut from = 0;
    while let Some(q) = set.first_from(from) {
        value += values[q];
        state = next_state(network.terms.len(), state, network.steps[q]);
        from = q + 1;
    }
    (value, state)
}
