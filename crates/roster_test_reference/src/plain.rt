//! The plain search, through all lists of places.

ghost use Rattle.std.specs.Prelude.{◌≡◌, ◌≤◌, ◌↔◌, All, IfOk, IsTrue, OnOk, Some, length, take};
ghost use Rattle.roster_model.specs.Costs.{cost_of};
ghost use Rattle.roster_model.specs.Rosters.{IsLegalRoster};
ghost use Rattle.roster_model.specs.Settled.{Anywhere, IsBest, IsHeld, Settles};

use crate::best::{all_open, take_earlier};
use roster_legal::is_legal;
use roster_problem::{Problem, open_number};
use roster_values::{Roster, Set};
use std::alloc::{AllocError, Global};

/// The legal roster of least cost, and among those the first in roster order.
///
/// It tries every list of places, so it serves only small problems.
pub fn solve_plainly(alloc: Global, problem: &Problem) -> Result<Roster, AllocError>
    ensures { IfOk result (λ roster. IsBest problem.now roster.places
        × (roster.cost ≡ cost_of problem.now roster.places)) }
{
    let mut best = all_open(alloc, problem)?;
    let mut places = vec![in alloc; 0; problem.pairings().len()]?;
    try_all(alloc, problem, 0, &mut places, &mut best)?;
    Ok(best)
}

/// Offers every list of places whose numbers before `depth` are those of `places`.
fn try_all(
    alloc: Global,
    problem: &Problem,
    depth: usize,
    places: &mut [u16],
    best: &mut Roster,
) -> Result<(), AllocError>
    requires covers { length places.old ≡ length problem.now.pairings }
    requires within { depth ≤ length places.old }
    requires numbers { All (λ x. x ≤ length problem.now.persons) places.old }
    requires held { IsHeld problem.now best.old }
    ensures numbers { OnOk result (All (λ x. x ≤ length problem.now.persons) places.new) }
    ensures front { OnOk result (take depth places.new ≡ take depth places.old) }
    ensures settled { OnOk result (Settles problem.now
        (λ others. take depth others ≡ take depth places.old) Anywhere (Some best.old) best.new) }
{
    if depth == places.len() {
        return offer(alloc, problem, places, best);
    }
    for place in 0..open_number(problem) + 1 {
        places[depth] = place;
        try_all(alloc, problem, depth + 1, places, best)?;
    }
    Ok(())
}

/// Takes the places if they are a legal roster whose key is before that of the best one.
fn offer(
    alloc: Global,
    problem: &Problem,
    places: &[u16],
    best: &mut Roster,
) -> Result<(), AllocError>
    requires covers { length places.now ≡ length problem.now.pairings }
    requires numbers { All (λ x. x ≤ length problem.now.persons) places.now }
    requires held { IsHeld problem.now best.old }
    ensures { OnOk result (Settles problem.now
        (λ others. others ≡ places.now) Anywhere (Some best.old) best.new) }
{
    if is_legal_roster(alloc, problem, places)? {
        take_earlier(best, problem, places);
    }
    Ok(())
}

/// Whether the numbers make a legal roster.
fn is_legal_roster(alloc: Global, problem: &Problem, places: &[u16]) -> Result<bool, AllocError>
    requires covers { length places.now ≡ length problem.now.pairings }
    requires numbers { All (λ x. x ≤ length problem.now.persons) places.now }
    ensures { IfOk result (λ legal. IsTrue legal
        ↔ IsLegalRoster problem.now places.now) }
{
    for k in 0..problem.persons().len() {
        let set = Set::of_places(places, k);
        if !is_legal(alloc, problem, k, &set)? {
            return Ok(false);
        }
    }
    Ok(true)
}
