//! Neighbourhoods of a roster, searched whole.
//!
//! In a neighbourhood each person keeps some pairings and may have some others. Its lines are listed,
//! and the least of its rosters is found. The best roster of a base with few legal sets is found so too: in
//! that neighbourhood nobody keeps anything, persons of the base may have all, and nobody else has anything.

ghost use Rattle.std.specs.Prelude.{◌≡◌, ◌<◌, ◌≤◌, ℕ, false, true, IfOk, IfSome, List};
ghost use Rattle.std.specs.Prelude.{length};
ghost use Rattle.roster_lines_table.specs.Person.{AreListed};
ghost use Rattle.roster_lines.specs.Listing.{AreAllPairs};
ghost use Rattle.roster_model.specs.Rosters.{key_le};
ghost use Rattle.roster_model.specs.Rules.{is_among};
ghost use Rattle.roster_model.specs.Settled.{IsHeld, IsNotAfter};
ghost use Rattle.roster_bases.specs.Bases.{only};
ghost use Rattle.roster_bases.specs.Homes.{EachHomeRoster, IsHome};
ghost use Rattle.roster_plan.specs.Near.{HasAllNear, IsNear};

use crate::known::earlier;
use roster_bases::is_person_of;
use roster_cost::{comes_before, keys_are_in_order};
use roster_lines::{Between, Pairs, TableFault, wanted_table};
use roster_lines_table::Table;
use roster_model::limits::{MOST_LINES, MOST_PAIRINGS};
use roster_plan_moves::penalties;
use roster_problem::Problem;
use roster_search::{Searched, least_within};
use roster_values::{Roster, Set};
use std::alloc::{AllocError, Global};

/// A roster that is at least as good as a known one.
#[derive(Drop)]
pub(crate) struct Nearby {
    /// The roster.
    pub(crate) roster: Roster,
    /// Whether it is another one.
    pub(crate) is_new: bool,
    /// Whether it is known that no roster of the neighbourhood is earlier.
    pub(crate) is_settled: bool,
}

/// The earlier one of the known roster and the least one of the neighbourhood; or the known one, if
/// somebody has more than `most` lines there, or nodes have more lines to look at than `work`.
pub(crate) fn search_nearby(
    alloc: Global,
    problem: &Problem,
    pairs: &[Pairs],
    known: Roster,
    wanted: &[Between],
    most: usize,
    work: u64,
) -> Result<Nearby, AllocError>
    requires pairs { AreAllPairs problem.now pairs.now }
    requires known { IsHeld problem.now known }
    requires covers { length wanted.now ≡ length problem.now.persons }
    requires limit { (0 < most) × (most ≤ MOST_LINES) }
    ensures held { IfOk result (λ nearby. IsHeld problem.now nearby.roster) }
    ensures kept { IfOk result (λ nearby. key_le nearby.roster known ≡ true) }
    ensures settled { IfOk result (λ nearby. nearby.is_settled ≡ true
        → IsNotAfter problem.now (IsNear wanted.now) nearby.roster) }
{
    keys_are_in_order();
    let Some(table) = table_near(alloc, problem, pairs, wanted, most)? else {
        return Ok(given_up(known));
    };
    let prices = penalties(alloc, problem)?;
    // What is as cheap may be earlier.
    let limit = known.cost.saturating_add(1);
    match least_within(alloc, problem, &table, &prices, 1, limit, work)? {
        Searched::Settled(Some(roster)) => {
            let is_new = comes_before(&roster, &known);
            Ok(Nearby {
                roster: earlier(roster, known),
                is_new,
                is_settled: true,
            })
        }
        Searched::Settled(None) if known.cost < limit => Ok(Nearby {
            roster: known,
            is_new: false,
            is_settled: true,
        }),
        _ => Ok(given_up(known)),
    }
}

/// The earlier one of the known roster and the least one in which only persons of the base fly; or the
/// known one, as `search_nearby` has it.
pub(crate) fn search_base(
    alloc: Global,
    problem: &Problem,
    pairs: &[Pairs],
    base: usize,
    known: Roster,
    most: usize,
    work: u64,
) -> Result<Nearby, AllocError>
    requires pairs { AreAllPairs problem.now pairs.now }
    requires known { IsHeld problem.now known }
    requires limit { (0 < most) × (most ≤ MOST_LINES) }
    ensures held { IfOk result (λ nearby. IsHeld problem.now nearby.roster) }
    ensures best { IfOk result (λ nearby. nearby.is_settled ≡ true
        → IsNotAfter problem.now (IsHome problem.now (only base)) nearby.roster) }
{
    let wanted = free_at(alloc, problem, base)?;
    let nearby = search_nearby(alloc, problem, pairs, known, &wanted, most, work)?;
    Ok(nearby)
}

/// The known roster, if the search of a neighbourhood was given up.
fn given_up(known: Roster) -> Nearby
    ensures roster { result.roster ≡ known }
    ensures settled { result.is_settled ≡ false }
{
    Nearby {
        roster: known,
        is_new: false,
        is_settled: false,
    }
}

/// The lines of a neighbourhood, unless somebody has more than `most`.
fn table_near(
    alloc: Global,
    problem: &Problem,
    pairs: &[Pairs],
    wanted: &[Between],
    most: usize,
) -> Result<Option<Table>, AllocError>
    requires pairs { AreAllPairs problem.now pairs.now }
    requires covers { length wanted.now ≡ length problem.now.persons }
    requires limit { (0 < most) × (most ≤ MOST_LINES) }
    ensures listed { IfOk result (λ table. IfSome table (AreListed problem.now)) }
    ensures near { IfOk result (λ table. IfSome table (HasAllNear problem.now wanted.now)) }
{
    match wanted_table(alloc, problem, pairs, wanted, most) {
        Ok(table) => Ok(Some(table)),
        Err(TableFault::TooMany(_)) => Ok(None),
        Err(TableFault::Memory) => Err(AllocError),
    }
}

/// The neighbourhood of just the legal rosters in which only persons of the base fly: they keep nothing and
/// may have all, and nobody else has anything.
fn free_at(alloc: Global, problem: &Problem, base: usize) -> Result<Vec<Between>, AllocError>
    ensures covers { IfOk result (λ wanted. length wanted.items ≡ length problem.now.persons) }
    ensures all { IfOk result
        (λ wanted. EachHomeRoster problem.now (only base) (IsNear wanted.items)) }
    ensures no_more { IfOk result (λ wanted. (places : List ℕ)
        → IsNear wanted.items places → IsHome problem.now (only base) places) }
{
    problem.is_sound();
    let all = all_of(problem.pairings().len());
    let mut wanted = Vec::new(alloc);
    for k in 0..problem.persons().len() {
        wanted.push(Between {
            must: Set::empty(),
            may: if is_person_of(problem, k, base) {
                all
            } else {
                Set::empty()
            },
        })?;
    }
    Ok(wanted)
}

/// The set of the first `count` pairings.
fn all_of(count: usize) -> Set
    requires { count ≤ MOST_PAIRINGS }
    ensures { (p : ℕ) → p < count → is_among result p ≡ true }
{
    let mut all = Set::empty();
    for p in 0..count {
        all.put(p);
    }
    all
}
