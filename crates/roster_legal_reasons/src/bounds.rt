//! What each limit looks at.

ghost use Rattle.std.specs.Prelude.{◌≡◌};
ghost use Rattle.roster_values.specs.View.{limit_of};
ghost use Rattle.roster_legal_reasons.specs.Bounds.{bound_of, IsSmall};

use roster_model::profile::{
    LONG_RUN, MIDDLE_RUN, MOST_DUTY_IN_7_DAYS, MOST_DUTY_IN_14_DAYS, MOST_DUTY_IN_28_DAYS,
    MOST_FLIGHT_IN_12_MONTHS, MOST_FLIGHT_IN_28_DAYS, MOST_FLIGHT_IN_A_YEAR, SHORT_RUN,
};
use roster_problem::Person;
use roster_values::Limit;

/// What is counted.
#[derive(Clone, Copy)]
pub(crate) enum Measure {
    /// Duty.
    Duty,
    /// The flight of the sectors that the person operates.
    Flight,
}

/// What a limit looks at, and the minutes that there may be at most.
#[derive(Clone, Copy)]
pub(crate) enum Bound {
    /// Each judged run of so many days.
    Run(Measure, usize, u64),
    /// The flight of the month, with so many minutes before it.
    Month(u32, u64),
}

/// What the limit looks at for the person.
pub(crate) fn bound_of(limit: Limit, person: &Person) -> Bound
    ensures value { result ≡ bound_of person.now.year person.now.eleven (limit_of limit) }
    ensures small { IsSmall result }
{
    match limit {
        Limit::Duty7 => Bound::Run(Measure::Duty, SHORT_RUN, MOST_DUTY_IN_7_DAYS),
        Limit::Duty14 => Bound::Run(Measure::Duty, MIDDLE_RUN, MOST_DUTY_IN_14_DAYS),
        Limit::Duty28 => Bound::Run(Measure::Duty, LONG_RUN, MOST_DUTY_IN_28_DAYS),
        Limit::Flight28 => Bound::Run(Measure::Flight, LONG_RUN, MOST_FLIGHT_IN_28_DAYS),
        Limit::FlightYear => Bound::Month(person.year, MOST_FLIGHT_IN_A_YEAR),
        Limit::Flight12 => Bound::Month(person.eleven, MOST_FLIGHT_IN_12_MONTHS),
    }
}
