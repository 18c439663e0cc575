//! What the target of a person costs: at so much flight, and beside the pairings of a table.

ghost use Rattle.std.specs.Prelude.{◌≡◌, ◌<◌, ◌≤◌, ◌+◌, ◌*◌, ◌+ℤ◌, ◌-ℤ◌, ◌*ℤ◌, ◌≤ℤ◌, ◌⊎◌, pos, neg_ℤ};
ghost use Rattle.std.specs.Prelude.{false, IfSome, IsTrue, length, unsigned_abs};
ghost use Rattle.roster_cost.specs.Amounts.{IsWithin};
ghost use Rattle.roster_model.specs.Problem.{weight_of};
ghost use Rattle.roster_plan_bound.specs.Prospects.{short_of, IsFixed};

use crate::parts::{MOST_FIXED, MOST_FLIGHT, MOST_LEAST, MOST_SHORT, MOST_SUM, MOST_WORTH, PARTS};
use roster_cost::fixed_flight;
use roster_model::limits::{MOST_PAIRINGS, MOST_WEIGHT};
use roster_model::profile::MOST_FLIGHT_IN_A_YEAR;
use roster_problem::Problem;

/// By how many minutes the fixed flight is beyond the target; none if that is too many, or too few.
pub(crate) fn beyond_target(problem: &Problem, k: usize) -> Option<i64>
    requires { k < length problem.now.persons }
    ensures value { IfSome result (λ short. short ≡ short_of problem.now k) }
    ensures within { IfSome result (IsWithin MOST_SHORT) }
{
    let short = fixed_flight(problem, k) as i64 - i64::from(problem.person(k).target);
    if short.unsigned_abs() > MOST_SHORT {
        return None;
    }
    Some(short)
}

/// What a minute costs by which the target is missed.
pub(crate) fn minute_weight(problem: &Problem) -> i64
    ensures { result ≡ pos (PARTS * weight_of problem.now) }
{
    (PARTS * u64::from(problem.weight())) as i64
}

/// What so much flight beyond the fixed one costs.
pub(crate) fn missed_more(weight: i64, short: i64, flight: u64) -> i64
    requires weight { (pos 0 ≤ℤ weight) × (weight ≤ℤ pos (PARTS * MOST_WEIGHT)) }
    requires short { IsWithin MOST_SHORT short }
    requires flight { flight ≤ MOST_PAIRINGS * MOST_FLIGHT }
    ensures { result ≡ (weight *ℤ pos (unsigned_abs (short +ℤ pos flight)))
        -ℤ (weight *ℤ pos (unsigned_abs short)) }
{
    missed_by(weight, short + flight as i64) - missed_by(weight, short)
}

/// What it costs to be so many minutes beyond the target, or below it.
fn missed_by(weight: i64, short: i64) -> i64
    requires weight { (pos 0 ≤ℤ weight) × (weight ≤ℤ pos (PARTS * MOST_WEIGHT)) }
    requires short { IsWithin (MOST_SHORT + MOST_PAIRINGS * MOST_FLIGHT) short }
    ensures value { result ≡ weight *ℤ pos (unsigned_abs short) }
    ensures within { IsWithin MOST_SUM result }
{
    weight * short.abs()
}

/// What a table has beside its pairings: by the worth, so much flight beyond the target costs no less, if
/// there is no more than may be spared.
pub(crate) fn fixed_at(worth: i64, weight: i64, short: i64, spare: u64) -> i64
    requires small { IsWithin MOST_WORTH worth }
    requires low { neg_ℤ weight ≤ℤ worth }
    requires weight { (pos 0 ≤ℤ weight) × (weight ≤ℤ pos (PARTS * MOST_WEIGHT)) }
    requires short { IsWithin MOST_SHORT short }
    requires spare { spare ≤ MOST_FLIGHT_IN_A_YEAR }
    ensures value { IsFixed worth weight short spare result }
    ensures within { IsWithin MOST_LEAST result }
{
    if is_spent(worth, weight, short, spare) {
        return less_spare(spent_term(weight, short, spare), worth, spare);
    }
    fixed_within(worth, weight, short)
}

/// Whether, by the worth, it costs least to fly all that may be spared: a minute costs more than the weight,
/// or the person is below the target even then.
fn is_spent(worth: i64, weight: i64, short: i64, spare: u64) -> bool
    requires short { IsWithin MOST_SHORT short }
    requires spare { spare ≤ MOST_FLIGHT_IN_A_YEAR }
    ensures yes { IsTrue result → (weight ≤ℤ worth) ⊎ ((short +ℤ pos spare) ≤ℤ pos 0) }
    ensures no { result ≡ false → worth ≤ℤ weight }
{
    worth > weight || short + (spare as i64) < 0
}

/// What so much flight costs, if it is all that may be spared.
fn spent_term(weight: i64, short: i64, spare: u64) -> i64
    requires weight { (pos 0 ≤ℤ weight) × (weight ≤ℤ pos (PARTS * MOST_WEIGHT)) }
    requires short { IsWithin MOST_SHORT short }
    requires spare { spare ≤ MOST_FLIGHT_IN_A_YEAR }
    ensures value { result ≡ (weight *ℤ pos (unsigned_abs (short +ℤ pos spare)))
        -ℤ (weight *ℤ pos (unsigned_abs short)) }
    ensures within { IsWithin MOST_FIXED result }
{
    missed_more(weight, short, spare)
}

/// The same for a worth within the weight, however much flight there is.
fn fixed_within(worth: i64, weight: i64, short: i64) -> i64
    requires worth { IsWithin MOST_WORTH worth }
    requires weight { (pos 0 ≤ℤ weight) × (weight ≤ℤ pos (PARTS * MOST_WEIGHT)) }
    requires short { IsWithin MOST_SHORT short }
    ensures value { result ≡ (worth *ℤ short) -ℤ (weight *ℤ pos (unsigned_abs short)) }
    ensures within { IsWithin MOST_FIXED result }
{
    worth * short - weight * short.abs()
}

/// What is left without what the flight that may be spared costs by the worth.
fn less_spare(fixed: i64, worth: i64, spare: u64) -> i64
    requires fixed { IsWithin MOST_FIXED fixed }
    requires worth { IsWithin MOST_WORTH worth }
    requires spare { spare ≤ MOST_FLIGHT_IN_A_YEAR }
    ensures value { result ≡ fixed -ℤ (worth *ℤ pos spare) }
    ensures within { IsWithin MOST_LEAST result }
{
    fixed - worth * spare as i64
}
