//! What breaks a limit, and how much of it is used.

ghost use Rattle.std.specs.Prelude.{◌≡◌, ◌+◌, ◌<◌, ◌≤◌, MatchOption, length};
ghost use Rattle.roster_model.specs.Problem.{home_of, year_of, eleven_of};
ghost use Rattle.roster_model.specs.Sums as sums;
ghost use Rattle.roster_values.specs.View.{limit_of};
ghost use Rattle.roster_legal_reasons.specs.Amounts.{IsMonthFlight, IsMonthOver, IsOver, IsUse, left_of};
ghost use Rattle.roster_legal_reasons.specs.Bounds.{bound_of, IsSmall, KeepsBound};

use crate::bounds::{Bound, bound_of};
use crate::runs::{RunOfDays, first_run_over, greatest_run};
use roster_cumulative::month_flight;
use roster_instants::BaseDays;
use roster_model::limits::MOST_DUTIES;
use roster_problem::{DutyList, Problem};
use roster_values::Limit;

/// The flight of the month, with what was flown before it.
#[derive(Clone, Copy, PartialEq, Eq)]
pub struct MonthFlight {
    /// The minutes flown before the month.
    pub carried: u64,
    /// The minutes of flight in the month.
    pub flown: u64,
    /// The minutes that there may be at most of both.
    pub most: u64,
}

/// What a limit counts.
#[derive(Clone, Copy, PartialEq, Eq)]
pub enum Amount {
    /// Duty or flight in days in a row.
    Run(RunOfDays),
    /// The month's flight and what was carried into it.
    Month(MonthFlight),
}

impl Amount {
    /// The minutes that are left of the limit, from 0.
    pub fn left(self) -> u64
        ensures { result ≡ left_of self }
    {
        match self {
            Amount::Run(run) => run.most.saturating_sub(run.minutes),
            Amount::Month(month) => month
                .most
                .saturating_sub(month.carried)
                .saturating_sub(month.flown),
        }
    }
}

/// The flight of the month, with so many minutes before it, of which there may be so many.
fn month_of(days: &BaseDays, list: &DutyList, carried: u32, most: u64) -> MonthFlight
    ensures value { IsMonthFlight days.now list.now carried most result }
    ensures bound { result.flown ≤ 1_000_000_000_000 }
{
    prove!(list.len() <= MOST_DUTIES);
    MonthFlight {
        carried: u64::from(carried),
        flown: month_flight(days, list) as u64,
        most,
    }
}

/// The same if there is more than there may be.
fn month_over(days: &BaseDays, list: &DutyList, carried: u32, most: u64) -> Option<MonthFlight>
    ensures { MatchOption result (carried + sums.month_flight days.now list.now ≤ most)
        (IsMonthOver days.now list.now carried most) }
{
    let month = month_of(days, list, carried, most);
    if month.carried + month.flown <= most {
        return None;
    }
    Some(month)
}

/// What first breaks the limit that looks at this.
fn over_bound(days: &BaseDays, list: &DutyList, bound: Bound) -> Option<Amount>
    requires { IsSmall bound }
    ensures { MatchOption result (KeepsBound days.now list.now bound)
        (IsOver days.now list.now bound) }
{
    match bound {
        Bound::Run(measure, n, most) => {
            let run = first_run_over(days, list, measure, n, most)?;
            Some(Amount::Run(run))
        }
        Bound::Month(carried, most) => {
            let month = month_over(days, list, carried, most)?;
            Some(Amount::Month(month))
        }
    }
}

/// How much is used of the limit that looks at this.
fn use_of(days: &BaseDays, list: &DutyList, bound: Bound) -> Amount
    requires { IsSmall bound }
    ensures { IsUse days.now list.now bound result }
{
    match bound {
        Bound::Run(measure, n, most) => Amount::Run(greatest_run(days, list, measure, n, most)),
        Bound::Month(carried, most) => Amount::Month(month_of(days, list, carried, most)),
    }
}

/// What first breaks the limit, if person `k` has the duties of the list.
pub(crate) fn first_over(
    problem: &Problem,
    k: usize,
    list: &DutyList,
    limit: Limit,
) -> Option<Amount>
    requires { k < length problem.now.persons }
    ensures { let days = (home_of problem.now k).days in
        let bound = bound_of (year_of problem.now k) (eleven_of problem.now k) (limit_of limit) in
        MatchOption result (KeepsBound days list.now bound) (IsOver days list.now bound) }
{
    over_bound(problem.days_of(k), list, bound_of(limit, problem.person(k)))
}

/// How much of the limit person `k` uses with the duties of the list: of duty or flight in days in a row the
/// first run with the most minutes, and else the month's flight with what was carried into it. Any list
/// will do.
pub fn standing(problem: &Problem, k: usize, list: &DutyList, limit: Limit) -> Amount
    requires { k < length problem.now.persons }
    ensures { let days = (home_of problem.now k).days in
        IsUse days list.now
        (bound_of (year_of problem.now k) (eleven_of problem.now k) (limit_of limit)) result }
{
    use_of(problem.days_of(k), list, bound_of(limit, problem.person(k)))
}
