//! Looks at each person of a base, shared among threads.

ghost use Rattle.std.specs.Prelude.{◌≡◌, ◌<◌, All, IfOk, length, slice_index, vec_len};
ghost use Rattle.roster_plan_bound.specs.Looks.{AreSeen, IsSeen};
ghost use Rattle.roster_plan_bound.specs.Reduced.{ArePrices};

use crate::columns::Columns;
use crate::parts::MOST_LEAST;
use crate::pricing::Pricing;
use crate::team::Team;
use std::alloc::{AllocError, Global};
use std::thread::{Threads, for_each_mut};

/// What looks know of a person.
#[derive(Drop)]
pub(crate) struct Seen {
    /// The legal sets that are known.
    pub(crate) columns: Columns,
    /// What the last look says that reduced costs are at least, in parts of a cost unit.
    pub(crate) least: Result<i64, AllocError>,
}

impl Seen {
    /// Of a person of whom these legal sets are known, before the first look: no reduced cost is below the
    /// least one that there may be.
    pub(crate) fn before(columns: Columns) -> Seen {
        Seen {
            columns,
            least: Ok(-(MOST_LEAST as i64)),
        }
    }
}

/// Of so many persons, before the first look, in a month so dear.
pub(crate) fn unseen(alloc: Global, count: usize, dear: i64) -> Result<Vec<Seen>, AllocError>
    ensures { IfOk result (λ seen. vec_len seen ≡ count) }
{
    let mut seen = Vec::new(alloc);
    seen.resize_with(count, || Seen::before(Columns::of_dear(alloc, dear)))?;
    Ok(seen)
}

/// Each label is judged at the next look.
pub(crate) fn judge_labels(seen: &mut [Seen])
    ensures { length seen.new ≡ length seen.old }
{
    for i in 0..seen.len() {
        seen[i].columns.hints.is_strict = true;
    }
}

/// Looks at each of these persons, whom the team shares, at the prices. It comes to the same for any number
/// of threads, since nobody's look asks what another one's said.
pub(crate) fn look_at_all<R: Threads + Sync>(
    team: &Team<'_, R>,
    pricing: &Pricing<'_>,
    persons: &[usize],
    prices: &[i64],
    visits: u32,
    seen: &mut [Seen],
)
    requires threads { 0 < team.now.threads }
    requires prices { ArePrices pricing.now prices.now }
    requires persons { All (λ k. k < length pricing.now.persons) persons.now }
    requires covers { length seen.old ≡ length persons.now }
    ensures { AreSeen pricing.now prices.now persons.now seen.new }
{
    let alloc = team.alloc;
    let look = |i: usize, one: &mut Seen|
        requires inside { i < length persons.now }
        requires persons { All (λ k. k < length pricing.now.persons) persons.now }
        requires prices { ArePrices pricing.now prices.now }
        ensures { IsSeen pricing.entry.now prices.entry.now (slice_index persons.entry.now i) one.new }
    {
        one.least = pricing.least(alloc, persons[i], prices, visits, &mut one.columns);
    };
    for_each_mut(team.rt, seen, team.threads, &look);
}

/// Renews the columns of each of these persons, whom the team shares, at the prices. What the cheapest one of
/// each costs then: nothing is claimed of it.
pub(crate) fn renew_all<R: Threads + Sync>(
    team: &Team<'_, R>,
    pricing: &Pricing<'_>,
    persons: &[usize],
    prices: &[i64],
    seen: &mut [Seen],
)
    requires threads { 0 < team.now.threads }
    requires prices { ArePrices pricing.now prices.now }
    ensures { length seen.new ≡ length seen.old }
{
    let alloc = team.alloc;
    let renew = |i: usize, one: &mut Seen|
        requires { ArePrices pricing.now prices.now }
    {
        if let Some(k) = persons.get(i) {
            one.least = renewed(alloc, pricing, *k, prices, &mut one.columns);
        }
    };
    for_each_mut(team.rt, seen, team.threads, &renew);
}

/// Renews the columns of person `k`, if there is such a person. What the cheapest of them brings.
fn renewed(
    alloc: Global,
    pricing: &Pricing<'_>,
    k: usize,
    prices: &[i64],
    columns: &mut Columns,
) -> Result<i64, AllocError>
    requires { ArePrices pricing.now prices.now }
{
    if k >= pricing.problem().persons().len() {
        return Ok(0);
    }
    pricing.renew(alloc, k, prices, columns)
}

/// Whether there was memory for all looks.
pub(crate) fn check(seen: &[Seen]) -> Result<(), AllocError> {
    for one in seen {
        if one.least.is_err() {
            return Err(AllocError);
        }
    }
    Ok(())
}
