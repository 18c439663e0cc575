//! The flight that limits leave a person.

ghost use Rattle.std.specs.Prelude.{◌≡◌, ◌<◌, length};
ghost use Rattle.roster_plan_bound.specs.Timelines.{spare_flight};

use crate::lists::flight_at;
use crate::timeline::Timeline;
use roster_cost::fixed_flight;
use roster_model::profile::{
    MOST_FLIGHT_IN_12_MONTHS, MOST_FLIGHT_IN_28_DAYS, MOST_FLIGHT_IN_A_YEAR,
};
use roster_problem::Problem;

/// The minutes of flight that the limits of a calendar year and of twelve months leave person `k` beside the
/// fixed ones.
pub(crate) fn spare_flight(problem: &Problem, k: usize) -> u64
    requires { k < length problem.now.persons }
    ensures value { result ≡ spare_flight problem.now k }
{
    let person = problem.person(k);
    let year = MOST_FLIGHT_IN_A_YEAR.saturating_sub(u64::from(person.year));
    let twelve = MOST_FLIGHT_IN_12_MONTHS.saturating_sub(u64::from(person.eleven));
    year.min(twelve).saturating_sub(fixed_flight(problem, k))
}

/// Whether so much flight is less than pairings have that are legal alone, and than a person may have in any
/// 28 days.
pub(crate) fn is_scarce(timeline: &Timeline, spare: u64) -> bool {
    let mut minutes: u64 = 0;
    for q in &timeline.order {
        minutes = minutes.wrapping_add(flight_at(&timeline.flights, *q));
    }
    spare < minutes.min(MOST_FLIGHT_IN_28_DAYS)
}
