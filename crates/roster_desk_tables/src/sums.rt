//! What a person's pairings cost, and the minutes of a report.

ghost use Rattle.std.specs.Prelude.{◌≡◌, ◌<◌, IfOk, length};
ghost use Rattle.roster_desk_tables.specs.Sums.{AreSums};

use roster_cost::line_cost;
use roster_cumulative::{greatest_duty, greatest_flight, month_flight};
use roster_desk_given::{duties_with, set_with};
use roster_model::profile::{LONG_RUN, MIDDLE_RUN, SHORT_RUN};
use roster_problem::Problem;
use std::alloc::{AllocError, Global};

/// What is counted of a person with a roster: the numbers of the line of a report, in minutes, and a cost.
#[derive(Clone, Copy, PartialEq, Eq)]
pub(crate) struct Sums {
    /// The units of the pairings, and what the missed target costs.
    pub(crate) cost: i64,
    /// The month's flight.
    pub(crate) flight: i64,
    /// The greatest duty of a judged run of 7 days.
    pub(crate) duty7: i64,
    /// Of one of 14 days.
    pub(crate) duty14: i64,
    /// Of one of 28 days.
    pub(crate) duty28: i64,
    /// The greatest flight of a judged run of 28 days.
    pub(crate) flight28: i64,
}

/// What is counted of person `k` with the roster.
pub(crate) fn sums_of(
    alloc: Global,
    problem: &Problem,
    places: &[u16],
    k: usize,
) -> Result<Sums, AllocError>
    requires covers { length places.now ≡ length problem.now.pairings }
    requires person { k < length problem.now.persons }
    ensures { IfOk result (AreSums problem.now places.now k) }
{
    let list = duties_with(alloc, problem, places, k)?;
    let days = problem.days_of(k);
    Ok(Sums {
        cost: line_cost(problem, k, &set_with(problem, places, k)),
        flight: month_flight(days, &list),
        duty7: greatest_duty(days, &list, SHORT_RUN),
        duty14: greatest_duty(days, &list, MIDDLE_RUN),
        duty28: greatest_duty(days, &list, LONG_RUN),
        flight28: greatest_flight(days, &list, LONG_RUN),
    })
}
