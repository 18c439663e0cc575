//! What a list of places costs.

ghost use Rattle.std.specs.Prelude.{◌≡◌, ◌≤◌, ◌≤ℤ◌, ◌*◌, ◌==◌, if◌then◌else◌, length, nat_lt, pos};
ghost use Rattle.roster_model.specs.Costs as costs;
ghost use Rattle.roster_model.specs.Places as model;
ghost use Rattle.roster_model.specs.Problem.{units_of};
ghost use Rattle.roster_cost.specs.Amounts as amounts;
ghost use Rattle.roster_cost.specs.Amounts.{IsWithin, most_missed, most_units};
ghost use Rattle.roster_model.specs.declared.limits.TheConstants.{MOST_UNITS};

use crate::flight::{fixed_flight, set_flight};
use crate::line::missed;
use roster_cumulative::one_list_of_each_duty;
use roster_model::limits::{MOST_PAIRINGS, MOST_PENALTY};
use roster_problem::{Pairing, Problem, open_number};
use roster_values::Set;

/// What a pairing adds if it has the number: its penalty if that is the one for open.
fn penalty_if_open(nobody: u16, pairing: &Pairing, place: u16) -> u64
    ensures value { result ≡ (if place == nobody then pairing.now.penalty else 0) }
    ensures bound { result ≤ pairing.now.penalty }
{
    if place == nobody {
        u64::from(pairing.penalty)
    } else {
        0
    }
}

/// The penalties of the pairings that are left open.
fn open_penalties(problem: &Problem, places: &[u16]) -> u64
    requires { length places.now ≡ length problem.now.pairings }
    ensures value { result ≡ costs.open_penalties (model.open_number problem.now)
        problem.now.pairings places.now }
    ensures bound { result ≤ MOST_PAIRINGS * MOST_PENALTY }
{
    let nobody = open_number(problem);
    let pairings = problem.pairings();
    let mut penalties = 0;
    for (p, place) in places.iter().enumerate() {
        penalties += penalty_if_open(nobody, &pairings[p], *place);
    }
    penalties
}

/// What the pairing at place `p` adds if it has the number: its cost units if that is a person's.
fn units_if_placed(problem: &Problem, place: u16, p: usize) -> i64
    ensures value { result ≡ (if nat_lt place (model.open_number problem.now)
        then units_of problem.now place p else pos 0) }
    ensures bound { IsWithin MOST_UNITS result }
{
    if place < open_number(problem) {
        problem.units(usize::from(place), p)
    } else {
        0
    }
}

/// The cost units of each placed pairing with its person.
fn placed_units(problem: &Problem, places: &[u16]) -> i64
    requires { length places.now ≡ length problem.now.pairings }
    ensures value { result ≡ costs.placed_units problem.now 0 places.now }
    ensures bound { IsWithin most_units result }
{
    prove!(problem.pairings().len() <= MOST_PAIRINGS);
    let mut units = 0;
    for (p, place) in places.iter().enumerate() {
        units += units_if_placed(problem, *place, p);
    }
    units
}

/// What it costs that persons miss their targets.
fn missed_targets(problem: &Problem, places: &[u16]) -> u64
    requires { length places.now ≡ length problem.now.pairings }
    ensures value { pos result ≡ costs.missed_targets problem.now places.now }
    ensures bound { result ≤ most_missed }
{
    one_list_of_each_duty();
    let mut cost = 0;
    for k in 0..problem.persons().len() {
        let set = Set::of_places(places, k);
        cost += missed(problem, k, set_flight(problem, k, &set));
    }
    cost
}

/// What the roster costs, in cost units: penalties of open pairings, units of placed ones, and missed
/// targets. The places needn't be legal.
pub fn roster_cost(problem: &Problem, places: &[u16]) -> i64
    requires { length places.now ≡ length problem.now.pairings }
    ensures { result ≡ costs.cost_of problem.now places.now }
{
    let open = open_penalties(problem, places) as i64;
    let missed = missed_targets(problem, places) as i64;
    open + placed_units(problem, places) + missed
}

/// What all persons cost with no pairing, in cost units: their fixed duties miss their targets.
pub fn cost_without_pairings(problem: &Problem) -> i64
    ensures value { result ≡ amounts.cost_without_pairings problem.now }
    ensures low { pos 0 ≤ℤ result }
    ensures high { result ≤ℤ pos most_missed }
{
    one_list_of_each_duty();
    let mut cost = 0;
    for k in 0..problem.persons().len() {
        cost += missed(problem, k, fixed_flight(problem, k));
    }
    cost as i64
}
