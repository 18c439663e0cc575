//! On how many days of the month a person has a duty, and how many are free.

ghost use Rattle.std.specs.Prelude.{◌≡◌, ◌==◌, ◌<◌, ◌≤◌, length};
ghost use Rattle.std.specs.Int.{bit_at};
ghost use Rattle.std.specs.List.{count_by, range_with_len};
ghost use Rattle.roster_restrules.specs.Busy as busy;
ghost use Rattle.roster_model.specs.Problem.{home_of};
ghost use Rattle.roster_desk_tables.specs.Days.{AreMonthDays};

use jiff_core::civil::{Date, Weekday};
use roster_instants::BaseDays;
use roster_problem::{DutyList, Problem};
use roster_restrules::busy_days;

/// Days of a month.
#[derive(Clone, Copy, PartialEq, Eq)]
pub(crate) struct MonthDays {
    /// Those that a duty touches.
    pub(crate) work: usize,
    /// The others, leave among them.
    pub(crate) free: usize,
    /// Saturdays that are free and whose Sunday is, both in the month.
    pub(crate) weekends: usize,
}

/// Whether the word of busy days has the day of the month, from 0.
fn is_busy(busy: u32, i: usize) -> bool
    ensures { i < 32 → result ≡ (bit_at busy i == 1) }
{
    i < 32 && busy >> i & 1 == 1
}

/// Whether this day of the problem's month, from 0, is a Saturday.
fn is_saturday(problem: &Problem, i: usize) -> bool {
    let period = problem.period();
    let day = i8::try_from(i.saturating_add(1)).unwrap_or(1);
    match Date::new(period.year(), period.month(), day) {
        Ok(date) => date.weekday() == Weekday::Saturday,
        Err(_) => false,
    }
}

/// How many days of the month a duty of the list touches.
#[tactic(auto, using(crate::proofs::Steps::count_passed, crate::proofs::Steps::count_failed))]
fn work_days(days: &BaseDays, list: &DutyList<'_>) -> usize
    ensures value { result ≡ count_by (busy.is_busy days.now list.now)
        (range_with_len 0 days.now.month_days) }
    ensures few { result ≤ days.now.month_days }
{
    let word = busy_days(days, list);
    let mut work = 0usize;
    for i in 0..days.month_days() {
        if is_busy(word, i) {
            work += 1;
        }
    }
    work
}

/// How many free Saturdays of the problem's month have a free Sunday behind them, by the word of busy days.
fn free_weekends(problem: &Problem, days: &BaseDays, word: u32) -> usize {
    let mut weekends = 0usize;
    for i in 1..days.month_days() {
        if is_saturday(problem, i - 1) && !is_busy(word, i - 1) && !is_busy(word, i) {
            weekends = weekends.saturating_add(1);
        }
    }
    weekends
}

/// The days of the month, by the clocks of the home base of person `k`, with the duties of the list.
pub(crate) fn month_days(problem: &Problem, list: &DutyList<'_>, k: usize) -> MonthDays
    requires { k < length problem.now.persons }
    ensures { AreMonthDays (home_of problem.now k).days list.now result }
{
    let days = problem.days_of(k);
    let work = work_days(days, list);
    MonthDays {
        work,
        free: days.month_days() - work,
        weekends: free_weekends(problem, days, busy_days(days, list)),
    }
}
