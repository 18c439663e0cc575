//! What is known of a plan while it is made, and in the end.

ghost use Rattle.std.specs.Prelude.{◌≡◌, ◌⊎◌, ◌<ℤ◌, length, true};
ghost use Rattle.roster_model.specs.Rosters.{key_le, key_of};
ghost use Rattle.roster_model.specs.Settled.{Anywhere, IsHeld, IsLowerBound, IsNotAfter};
ghost use Rattle.roster_plan.specs.Planned.{IsKnown};

use roster_cost::{comes_before, keys_are_in_order, roster_cost};
use roster_problem::Problem;
use roster_search_least::costs_fit;
use roster_values::{Places, Roster};

/// A plan. Whoever is given one is promised what stands beside each field.
#[derive(Drop)]
pub struct Planned {
    /// A legal roster with its cost.
    pub roster: Roster,
    /// No legal roster costs less, in cost units.
    pub bound: i64,
    /// Whether the roster is known to be the best one. If it is, no legal roster is before it; if not, it
    /// may be the best one still.
    pub is_best: bool,
}

impl Planned {
    /// Whether it is known that no legal roster costs less.
    pub(crate) fn is_cheapest(&self) -> bool {
        self.roster.cost <= self.bound
    }
}

/// The places of a roster.
pub(crate) fn places_of(roster: &Roster) -> &[u16]
    ensures { result.now ≡ roster.now.places }
{
    roster.places.as_slice()
}

/// The roster with its cost.
pub(crate) fn costed(problem: &Problem, places: Vec<u16>) -> Roster
    requires { length places.items ≡ length problem.now.pairings }
    ensures { result ≡ key_of problem.now places.items }
{
    let cost = roster_cost(problem, &places);
    Roster {
        places: Places::new(places),
        cost,
    }
}

/// The earlier of two rosters by their keys: the second if they are equal.
pub(crate) fn earlier(first: Roster, second: Roster) -> Roster
    ensures from { (result ≡ first) ⊎ (result ≡ second) }
    ensures first { key_le result first ≡ true }
    ensures second { key_le result second ≡ true }
{
    keys_are_in_order();
    if comes_before(&first, &second) {
        first
    } else {
        second
    }
}

/// The first of two rosters if it costs less than the second, and else the second: at one cost what is known
/// stays.
pub(crate) fn cheaper(first: Roster, second: Roster) -> Roster
    ensures from { (result ≡ first) ⊎ (result ≡ second) }
    ensures second { key_le result second ≡ true }
    ensures saves { (result ≡ second) ⊎ (result.cost <ℤ second.cost) }
    ensures taken { first.cost <ℤ second.cost → result ≡ first }
{
    keys_are_in_order();
    if first.cost < second.cost {
        first
    } else {
        second
    }
}

/// The plan of a roster of which nobody knows whether it is the best one.
pub(crate) fn so_far(problem: &Problem, roster: Roster, bound: i64) -> Planned
    requires held { IsHeld problem.now roster }
    requires bound { IsLowerBound problem.now bound }
    ensures known { IsKnown problem.now result }
    ensures roster { result.roster ≡ roster }
    ensures bound { result.bound ≡ bound }
{
    Planned {
        roster,
        bound,
        is_best: false,
    }
}

/// The plan of the best roster: none costs less.
pub(crate) fn best_plan(problem: &Problem, roster: Roster) -> Planned
    requires held { IsHeld problem.now roster }
    requires best { IsNotAfter problem.now Anywhere roster }
    ensures known { IsKnown problem.now result }
    ensures roster { result.roster ≡ roster }
    ensures best { result.is_best ≡ true }
{
    let bound = roster.cost;
    Planned {
        roster,
        bound,
        is_best: true,
    }
}

/// The plan of a roster before anything else is known: none costs less than the least number there is.
pub(crate) fn first_plan(problem: &Problem, roster: Roster) -> Planned
    requires { IsHeld problem.now roster }
    ensures known { IsKnown problem.now result }
    ensures roster { result.roster ≡ roster }
{
    costs_fit(problem);
    so_far(problem, roster, i64::MIN)
}
