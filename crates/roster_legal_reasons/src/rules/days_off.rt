//! The days off in a row that there are.

ghost use Rattle.std.specs.Prelude.{◌≡◌, ◌+◌, ◌<◌, ◌≤◌, ◌↔◌, IsTrue, MatchOption};
ghost use Rattle.roster_model.specs.Calendar as calendar;
ghost use Rattle.roster_model.specs.Rules.DaysOff.{IsFreeFrom, IsPairOff, KeepsDaysOff};
ghost use Rattle.roster_legal_reasons.specs.Reasons.DaysOff.{HasNoPairFrom, IsFewDaysOff, IsFirstPairFrom};

use roster_instants::{BaseDays, Minute, common};
use roster_model::limits::DAYS_BEFORE;
use roster_problem::{Duty, DutyList};

/// Fewer days off in a row than twice two.
#[derive(Clone, Copy, PartialEq, Eq)]
pub enum FewDaysOff {
    /// No two days of the month in a row are off.
    NoPair,
    /// Only this day and the next one are two days off in a row.
    OnePair(usize),
    /// This day and the next two are off, and there are no other two in a row.
    ThreeDays(usize),
}

/// Whether the duty shares no minute with the time from one instant to another.
fn is_off(duty: &Duty, from: Minute, to: Minute) -> bool
    requires { from ≤ to }
    ensures { IsTrue result ↔ (calendar.common duty.now.report duty.now.release from to ≡ 0) }
{
    common(duty.report, duty.release, from, to) == 0
}

/// Whether no duty of the list shares a minute with the time from one instant to another.
fn is_free(list: &DutyList, from: Minute, to: Minute) -> bool
    requires { from ≤ to }
    ensures { IsTrue result ↔ IsFreeFrom from to list.now }
{
    for i in 0..list.len() {
        if !is_off(list.duty(i), from, to) {
            return false;
        }
    }
    true
}

/// Whether this day of the month and the next one are two days off.
fn is_pair_off(days: &BaseDays, list: &DutyList, i: usize) -> bool
    requires begins { DAYS_BEFORE ≤ i }
    requires ends { i + 2 ≤ DAYS_BEFORE + days.now.month_days }
    ensures { IsTrue result ↔ IsPairOff days.now list.now i }
{
    prove!(days.month_days() <= 31);
    is_free(list, days.mid(i), days.mid(i + 2))
}

/// The first day of the month, from this one on, that is off together with the next one.
fn first_pair_from(days: &BaseDays, list: &DutyList, from: usize) -> Option<usize>
    requires { DAYS_BEFORE ≤ from }
    ensures { MatchOption result (HasNoPairFrom days.now list.now from)
        (IsFirstPairFrom days.now list.now from) }
{
    for i in from..DAYS_BEFORE + days.month_days() - 1 {
        if is_pair_off(days, list, i) {
            return Some(i);
        }
    }
    None
}

/// The days off in a row that there are, if there are fewer than twice two.
pub(crate) fn few_days_off(days: &BaseDays, list: &DutyList) -> Option<FewDaysOff>
    ensures { MatchOption result (KeepsDaysOff days.now list.now)
        (IsFewDaysOff days.now list.now) }
{
    let Some(first) = first_pair_from(days, list, DAYS_BEFORE) else {
        return Some(FewDaysOff::NoPair);
    };
    prove!(days.month_days() <= 31);
    if let Some(_) = first_pair_from(days, list, first + 2) {
        return None;
    }
    match first_pair_from(days, list, first + 1) {
        Some(_) => Some(FewDaysOff::ThreeDays(first)),
        None => Some(FewDaysOff::OnePair(first)),
    }
}
