//! What a person's set of pairings costs.

ghost use Rattle.std.specs.Prelude.{◌≡◌, ◌<◌, ◌≤◌, ◌*◌, ◌+◌, ◌+ℤ◌, pos, All, length};
ghost use Rattle.roster_model.specs.Costs as costs;
ghost use Rattle.roster_model.specs.Problem.{target_of, units_of, weight_of};
ghost use Rattle.roster_cost.specs.Amounts.{IsWithin, most_flight, most_line_cost, most_units};

use crate::flight::set_flight;
use roster_model::limits::{MOST_MINUTES, MOST_WEIGHT};
use roster_problem::Problem;
use roster_values::Set;

/// The cost units of the pairings of the set with person `k`.
pub(crate) fn set_units(problem: &Problem, k: usize, set: &Set) -> i64
    requires { All (λ p. p < length problem.now.pairings) set.now }
    ensures value { result ≡ costs.total (units_of problem.now k) set.now }
    ensures bound { IsWithin most_units result }
{
    let mut units = 0;
    let mut from = 0;
    while let Some(p) = set.first_from(from) {
        units += problem.units(k, p);
        from = p + 1;
    }
    units
}

/// What it costs that person `k` misses the target with so many minutes of flight.
pub(crate) fn missed(problem: &Problem, k: usize, flight: u64) -> u64
    requires person { k < length problem.now.persons }
    requires flight { flight ≤ most_flight }
    ensures value { result
        ≡ weight_of problem.now * costs.distance flight (target_of problem.now k) }
    ensures bound { result ≤ MOST_WEIGHT * (flight + MOST_MINUTES) }
{
    let persons = problem.persons();
    let person = &persons[k];
    let minutes = flight.abs_diff(u64::from(person.target));
    u64::from(problem.weight()) * minutes
}

/// What a set of person `k` costs, in cost units, that has these units and so many minutes of flight
/// in the month, fixed duties included.
pub fn cost_at(problem: &Problem, k: usize, units: i64, flight: u64) -> i64
    requires person { k < length problem.now.persons }
    requires units { IsWithin most_units units }
    requires flight { flight ≤ most_flight }
    ensures value { result ≡ units
        +ℤ pos (weight_of problem.now * costs.distance flight (target_of problem.now k)) }
    ensures bound { IsWithin most_line_cost result }
{
    units + missed(problem, k, flight) as i64
}

/// What the set costs with person `k`, in cost units: those of its pairings, and the weight for each
/// minute by which its flight in the month misses the target.
pub fn line_cost(problem: &Problem, k: usize, set: &Set) -> i64
    requires person { k < length problem.now.persons }
    requires places { All (λ p. p < length problem.now.pairings) set.now }
    ensures value { result ≡ costs.line_cost problem.now k set.now }
    ensures bound { IsWithin most_line_cost result }
{
    cost_at(
        problem,
        k,
        set_units(problem, k, set),
        set_flight(problem, k, set),
    )
}
