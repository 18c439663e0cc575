//! Runs of days with too many minutes, or with the most.

ghost use Rattle.std.specs.Prelude.{◌≡◌, ◌*◌, ◌<◌, ◌≤◌, MatchOption, length};
ghost use Rattle.roster_model.specs.Rules.Limits.{KeepsLimit};
ghost use Rattle.roster_model.specs.Sums as sums;
ghost use Rattle.roster_cumulative.specs.Table.{most_in_run};
ghost use Rattle.roster_legal_reasons.specs.Bounds.{minutes_by};
ghost use Rattle.roster_legal_reasons.specs.Runs.{IsFirstRunOver, IsGreatestRun};

use crate::bounds::Measure;
use roster_cumulative::{duty_on, flight_on};
use roster_instants::BaseDays;
use roster_model::limits::{DAYS_BEFORE, MOST_DAYS};
use roster_problem::DutyList;

/// A run of days in a row, and what a limit counts in it.
#[derive(Clone, Copy, PartialEq, Eq)]
pub struct RunOfDays {
    /// Its last day.
    pub last: usize,
    /// The minutes of duty or flight in it.
    pub minutes: u64,
    /// The minutes that there may be at most.
    pub most: u64,
}

/// The minutes of the list on the day.
fn minutes_on(days: &BaseDays, list: &DutyList, measure: Measure, day: usize) -> u64
    requires { day < length days.now.eight }
    ensures value { result ≡ minutes_by measure days.now list.now day }
    ensures bound { result ≤ most_in_run }
{
    match measure {
        Measure::Duty => duty_on(days, list, day) as u64,
        Measure::Flight => flight_on(days, list, day) as u64,
    }
}

/// The minutes of the `n` days of which `last` is the last.
fn in_run(days: &BaseDays, list: &DutyList, measure: Measure, n: usize, last: usize) -> u64
    requires run { n ≤ DAYS_BEFORE }
    requires from { DAYS_BEFORE ≤ last }
    requires within { last < length days.now.eight }
    ensures value { result ≡ sums.in_run (minutes_by measure days.now list.now) n last }
    ensures bound { result ≤ DAYS_BEFORE * most_in_run }
{
    prove!(days.days() <= MOST_DAYS);
    let mut total = 0;
    for day in last + 1 - n..last + 1 {
        total += minutes_on(days, list, measure, day);
    }
    total
}

/// The first judged run of `n` days that has more than so many minutes.
pub(crate) fn first_run_over(
    days: &BaseDays,
    list: &DutyList,
    measure: Measure,
    n: usize,
    most: u64,
) -> Option<RunOfDays>
    requires { n ≤ DAYS_BEFORE }
    ensures { let minutes = minutes_by measure days.now list.now in
        MatchOption result (KeepsLimit minutes days.now n most)
        (IsFirstRunOver minutes days.now n most) }
{
    for last in DAYS_BEFORE..days.days() {
        let minutes = in_run(days, list, measure, n, last);
        if minutes > most {
            return Some(RunOfDays {
                last,
                minutes,
                most,
            });
        }
    }
    None
}

/// The first of the judged runs of `n` days with the most minutes.
pub(crate) fn greatest_run(
    days: &BaseDays,
    list: &DutyList,
    measure: Measure,
    n: usize,
    most: u64,
) -> RunOfDays
    requires { n ≤ DAYS_BEFORE }
    ensures { IsGreatestRun (minutes_by measure days.now list.now) days.now n most result }
{
    prove!(DAYS_BEFORE < days.days());
    let mut greatest = RunOfDays {
        last: DAYS_BEFORE,
        minutes: in_run(days, list, measure, n, DAYS_BEFORE),
        most,
    };
    for last in DAYS_BEFORE + 1..days.days() {
        let minutes = in_run(days, list, measure, n, last);
        if minutes > greatest.minutes {
            greatest = RunOfDays {
                last,
                minutes,
                most,
            };
        }
    }
    greatest
}
