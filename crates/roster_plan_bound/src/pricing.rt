//! Lower bounds by dual prices.

ghost use Rattle.std.specs.Prelude.{◌≡◌, ◌⊎◌, ◌<◌, ◌*◌, ◌≤ℤ◌, ◌+ℤ◌, ◌*ℤ◌, ℤ, pos, IfOk, IfSome, Some, length};
ghost use Rattle.std.specs.Prelude.{slice_get};
ghost use Rattle.roster_lines.specs.Listing.{AreAllPairs, ArePairs};
ghost use Rattle.roster_model.specs.records.Pairing.{Pairing};
ghost use Rattle.roster_cost.specs.Amounts.{IsWithin};
ghost use Rattle.roster_bases.specs.Bases.{only, persons_of};
ghost use Rattle.roster_bases.specs.Homes.{EachHomeRoster};
ghost use Rattle.roster_plan_bound.specs.Networks.{AreRows, AreValues, IsNetwork};
ghost use Rattle.roster_plan_bound.specs.Looks.{AreLeasts, IsLook};
ghost use Rattle.roster_plan_bound.specs.Reduced.{shares_behind, ArePrices, IsLeastOf, IsTermOf};
ghost use Rattle.roster_plan_bound.specs.Timelines.{IsTimeline};

use crate::columns::Columns;
use crate::network::{Network, network_of};
use crate::parts::{MOST_LEAST, MOST_PLAN_PRICE, MOST_SUM, PARTS};
use crate::persons::{Seen, look_at_all};
use crate::rows::{ChainRow, Chains, end_of_all, row_behind, rows_of};
use crate::sets::{least_set, renew_sets};
use crate::team::Team;
use crate::timeline::{Timeline, timeline_of};
use crate::values::values_of;
use roster_bases::{is_pairing_of, is_person_of};
use roster_cost::{cost_without_pairings, priced_shares_add_up, shares_add_up};
use roster_cumulative::flight_of_set;
use roster_legal::part_of_legal_is_legal;
use roster_lines::Pairs;
use roster_model::limits::{MOST_PAIRINGS, MOST_PERSONS};
use roster_problem::Problem;
use std::alloc::{AllocError, Global};
use std::marker::Model;
use std::thread::Threads;

/// What prices say of the rosters of a base: those in which nobody else flies.
#[derive(Drop)]
pub(crate) struct Priced {
    /// No legal roster of the base costs less, in cost units.
    pub(crate) bound: i64,
    /// The same in parts of a cost unit, above what it costs that nobody has a pairing.
    pub(crate) parts: i64,
    /// What the reduced cost of each person is at least in such a roster, in parts of a cost unit.
    pub(crate) leasts: Vec<i64>,
}

/// What the reduced costs of persons are at least, and their sum, in parts of a cost unit.
#[derive(Drop)]
pub(crate) struct Leasts {
    sum: i64,
    each: Vec<i64>,
}

/// The pairs, the network and the timeline of each person, made once for the bounds of all bases. Contracts
/// see the problem.
#[derive(Drop)]
pub struct Pricing<'a> {
    problem: &'a Problem,
    pairs: &'a [Pairs],
    networks: Vec<Network>,
    timelines: Vec<Option<Timeline>>,
}

impl<'a> Model for Pricing<'a> {
    ghost use Rattle.roster_model.specs.Problem.{Problem};
    ghost use Rattle.roster_bases.specs.Bases.{only, persons_of};
    ghost use Rattle.roster_bases.specs.Homes.{EachHomeRoster};
    ghost use Rattle.roster_plan_bound.specs.Networks.{IsPricing};

    ghost Value = { Problem };

    ghost view = { λ p. p.problem.now };

    ghost invariant = { λ p. IsPricing p.problem.now p.pairs.now p.networks.items
        p.timelines.items };
}

impl<'a> Pricing<'a> {
    /// The networks of all persons. Their pairs are known, as `all_pairs` of `roster_lines` has them.
    pub fn new(
        alloc: Global,
        problem: &'a Problem,
        pairs: &'a [Pairs],
    ) -> Result<Pricing<'a>, AllocError>
        requires { AreAllPairs problem.now pairs.now }
        ensures { IfOk result (λ pricing. pricing ≡ problem.now) }
    {
        let mut networks = Vec::new(alloc);
        let mut timelines = Vec::new(alloc);
        for k in 0..problem.persons().len() {
            networks.push(network_of(alloc, problem, k, &pairs[k])?)?;
            timelines.push(timeline_of(alloc, problem, k, &pairs[k])?)?;
        }
        Ok(Pricing {
            problem,
            pairs,
            networks,
            timelines,
        })
    }

    /// The problem.
    pub(crate) fn problem(&self) -> &'a Problem
        ensures { result.now ≡ self.now }
    {
        self.problem
    }

    /// What the prices say of all rosters of the base, whose persons are given. Searches show it, which go on
    /// from so many sets of a person at most, or only tables. The team shares the persons.
    pub(crate) fn look<R: Threads + Sync>(
        &self,
        team: &Team<'_, R>,
        base: usize,
        persons: &[usize],
        prices: &[i64],
        visits: u32,
        seen: &mut [Seen],
    ) -> Result<Priced, AllocError>
        requires threads { 0 < team.now.threads }
        requires persons { persons.now ≡ persons_of self.now base }
        requires prices { ArePrices self.now prices.now }
        requires covers { length seen.old ≡ length persons.now }
        ensures look { IfOk result
            (λ look. IsLook self.now prices.now base look.bound look.leasts.items) }
        ensures covers { length seen.new ≡ length seen.old }
    {
        priced_shares_add_up();
        shares_add_up();
        let leasts = self.leasts(team, base, persons, prices, visits, seen)?;
        let terms = sum_of_terms(self.problem, base, prices);
        let parts = leasts.sum + terms;
        let bound = cost_without_pairings(self.problem) + in_units(parts);
        Ok(Priced {
            bound,
            parts,
            leasts: leasts.each,
        })
    }

    /// The network of person `k`.
    pub(crate) fn network(&self, k: usize) -> &Network
        requires { k < length self.now.persons }
        ensures { IsNetwork self.now k result.now }
    {
        &self.networks[k]
    }

    /// What the known columns claim that the prices say of the rosters of a base, in parts of a cost unit
    /// above what it costs that nobody has a pairing. It is true if the cheapest column of each person is the
    /// cheapest set.
    pub(crate) fn claim(&self, base: usize, prices: &[i64], seen: &[Seen]) -> i64
        requires { ArePrices self.now prices.now }
    {
        let mut sum = sum_of_terms(self.problem, base, prices);
        for one in seen {
            sum = sum.wrapping_add(one.columns.least_value(prices));
        }
        sum
    }

    /// No line of person `k` has a lower reduced cost at the prices. The person's columns get what is found,
    /// by a search that goes on from so many sets at most. If the timeline says nothing, chains do.
    pub(crate) fn least(
        &self,
        alloc: Global,
        k: usize,
        prices: &[i64],
        visits: u32,
        columns: &mut Columns,
    ) -> Result<i64, AllocError>
        requires person { k < length self.now.persons }
        requires prices { ArePrices self.now prices.now }
        ensures { IfOk result (IsLeastOf self.now prices.now k) }
    {
        let timeline = &self.timelines[k];
        let least = least_set(alloc, self.problem, k, timeline, prices, visits, columns)?;
        if let Some(least) = least {
            return Ok(least);
        }
        let least = least_of_chains(alloc, self.problem, k, &self.networks[k], prices)?;
        Ok(least)
    }

    /// The person's columns are renewed at the prices. What the cheapest one brings: nothing is claimed of
    /// it.
    pub(crate) fn renew(
        &self,
        alloc: Global,
        k: usize,
        prices: &[i64],
        columns: &mut Columns,
    ) -> Result<i64, AllocError>
        requires person { k < length self.now.persons }
        requires prices { ArePrices self.now prices.now }
    {
        renew_sets(alloc, self.problem, k, &self.timelines[k], prices, columns)
    }

    /// The timeline of person `k`, if there is such a person, who has one.
    pub(crate) fn timeline(&self, k: usize) -> Option<&Timeline> {
        match self.timelines.get(k) {
            Some(Some(timeline)) => Some(timeline),
            _ => None,
        }
    }

    /// The pairs of person `k`.
    pub(crate) fn pairs(&self, k: usize) -> &Pairs
        requires { k < length self.now.persons }
        ensures { ArePairs self.now k result.now }
    {
        self.problem.is_sound();
        &self.pairs[k]
    }

    /// The minutes of flight of pairing `p` with person `k`; none if one of them isn't there.
    pub(crate) fn flight(&self, k: usize, p: usize) -> u64 {
        match self.pairs.get(k) {
            Some(pairs) => match pairs.flights.get(p) {
                Some(flight) => *flight,
                None => 0,
            },
            None => 0,
        }
    }

    /// What each person's reduced costs are at least in rosters of the base, and the sum. Those of another
    /// base fly nothing.
    fn leasts<R: Threads + Sync>(
        &self,
        team: &Team<'_, R>,
        base: usize,
        persons: &[usize],
        prices: &[i64],
        visits: u32,
        seen: &mut [Seen],
    ) -> Result<Leasts, AllocError>
        requires threads { 0 < team.now.threads }
        requires persons { persons.now ≡ persons_of self.now base }
        requires prices { ArePrices self.now prices.now }
        requires covers { length seen.old ≡ length persons.now }
        ensures are { IfOk result (λ leasts. AreLeasts self.now prices.now base
            (length self.now.persons) leasts.sum leasts.each.items) }
        ensures within { IfOk result (λ leasts. IsWithin (MOST_PERSONS * MOST_LEAST) leasts.sum) }
        ensures covers { length seen.new ≡ length seen.old }
    {
        self.problem.is_sound();
        look_at_all(team, self, persons, prices, visits, seen);
        let mut sum = 0;
        let mut each = Vec::new(team.alloc);
        let mut i = 0;
        for k in 0..self.problem.persons().len() {
            if !is_person_of(self.problem, k, base) {
                each.push(0)?;
                continue;
            }
            let least = seen[i].least?;
            each.push(least)?;
            sum += least;
            i += 1;
        }
        Ok(Leasts { sum, each })
    }
}

/// No line of person `k`, whose network it is, has a lower reduced cost at the prices: no chain has.
fn least_of_chains(
    alloc: Global,
    problem: &Problem,
    k: usize,
    network: &Network,
    prices: &[i64],
) -> Result<i64, AllocError>
    requires person { k < length problem.now.persons }
    requires network { IsNetwork problem.now k network.now }
    requires prices { ArePrices problem.now prices.now }
    ensures { IfOk result (IsLeastOf problem.now prices.now k) }
{
    let values = values_of(alloc, problem, k, prices)?;
    let chains = Chains {
        problem,
        person: k,
        network,
        values: &values,
    };
    let rows = rows_of(alloc, &chains)?;
    let least = least_chain(alloc, &chains, prices, &rows)?;
    Ok(least)
}

/// What a chain of the person brings at least. No line has a lower reduced cost.
fn least_chain(
    alloc: Global,
    chains: &Chains<'_>,
    prices: &[i64],
    rows: &[ChainRow],
) -> Result<i64, AllocError>
    requires person { chains.now.person < length chains.now.problem.now.persons }
    requires network { IsNetwork chains.now.problem.now chains.now.person chains.now.network.now }
    requires prices { ArePrices chains.now.problem.now prices.now }
    requires values { AreValues chains.now.problem.now prices.now chains.now.person chains.now.values.now }
    requires rows { AreRows chains.now.problem.now chains.now.network.now chains.now.values.now rows.now }
    requires all { length rows.now ≡ length chains.now.problem.now.pairings }
    ensures { IfOk result (IsLeastOf chains.now.problem.now prices.now chains.now.person) }
{
    part_of_legal_is_legal();
    flight_of_set();
    let (problem, network) = (chains.problem, chains.network);
    problem.is_sound();
    let count = problem.pairings().len();
    let end = end_of_all(alloc, chains)?;
    let row = row_behind(alloc, chains, rows, &network.first, &end, count)?;
    Ok(row.first())
}

/// What all pairings bring at least to a roster of the base.
fn sum_of_terms(problem: &Problem, base: usize, prices: &[i64]) -> i64
    requires { ArePrices problem.now prices.now }
    ensures least { EachHomeRoster problem.now (only base) (λ places.
        result ≤ℤ shares_behind problem.now prices.now 0 places) }
    ensures within { IsWithin (MOST_PAIRINGS * MOST_PLAN_PRICE) result }
{
    problem.is_sound();
    let count = problem.pairings().len();
    let mut sum = 0;
    for back in 0..count {
        sum += term_of(problem, base, count - 1 - back, prices[count - 1 - back]);
    }
    sum
}

/// The lesser of a pairing's price and penalty. One of another base is open: its penalty.
fn term_of(problem: &Problem, base: usize, p: usize, price: i64) -> i64
    requires pairing { p < length problem.now.pairings }
    requires price { IsWithin MOST_PLAN_PRICE price }
    ensures term { IsTermOf problem.now base p price result }
    ensures one { (pairing : Pairing) → slice_get problem.now.pairings p ≡ Some pairing
        → (result ≡ price) ⊎ (result ≡ pos (PARTS * pairing.penalty)) }
    ensures within { IsWithin MOST_PLAN_PRICE result }
{
    problem.is_sound();
    let pairing = problem.pairing(p);
    let penalty = (PARTS * u64::from(pairing.penalty)) as i64;
    if !is_pairing_of(problem, p, base) {
        return penalty;
    }
    if price < penalty { price } else { penalty }
}

/// The least number of cost units that isn't below so many parts.
fn in_units(parts: i64) -> i64
    requires { IsWithin MOST_SUM parts }
    ensures least { (units : ℤ) → parts ≤ℤ (pos PARTS *ℤ units) → result ≤ℤ units }
    ensures whole { parts ≤ℤ (pos PARTS *ℤ result) }
    ensures near { (pos PARTS *ℤ result) ≤ℤ (parts +ℤ pos PARTS) }
    ensures within { IsWithin MOST_SUM result }
{
    let amount = parts.unsigned_abs();
    if parts < 0 {
        -((amount / PARTS) as i64)
    } else {
        ((amount + (PARTS - 1)) / PARTS) as i64
    }
}
