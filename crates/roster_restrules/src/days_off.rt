//! Two local days off in a row, twice in the month.

ghost use Rattle.std.specs.Prelude.{◌≡◌, ◌<◌, ◌==◌, ◌↔◌, ℕ, List, IsTrue};
ghost use Rattle.std.specs.Int.{bit_at};
ghost use Rattle.roster_model.specs.Calendar.{IsTable};
ghost use Rattle.roster_model.specs.records.Duty.{Duty as Entry};
ghost use Rattle.roster_model.specs.Rules.DaysOff.{KeepsDaysOff};
ghost use Rattle.roster_restrules.specs.Busy.{lies_on, AreBusyDays, ArePairsOff};

use roster_instants::BaseDays;
use roster_model::limits::DAYS_BEFORE;
use roster_problem::{Duty, DutyList};

/// The days of the month on which the duty lies. Of those before it at most the last is looked at, and
/// of those after it at most the first.
fn days_of(days: &BaseDays, duty: &Duty) -> u32
    ensures { (i : ℕ) → i < days.now.month_days
        → (bit_at result i == 1) ≡ lies_on days.now i duty.now }
{
    let first = days
        .mornings_by(duty.report)
        .saturating_sub(DAYS_BEFORE + 1);
    let mut word = 0;
    for i in first..days.month_days() {
        if duty.release <= days.mid(DAYS_BEFORE + i) {
            return word;
        }
        if duty.report < days.mid(DAYS_BEFORE + i + 1) {
            word |= 1 << i;
        }
    }
    word
}

/// The days of the month on which the duties of the list lie, by the clocks of a base with these days:
/// bit `i` is day `i` of the month, counted from 0.
pub fn busy_days(days: &BaseDays, list: &DutyList) -> u32
    ensures { AreBusyDays days.now list.now result }
{
    let mut busy = 0;
    for i in 0..list.len() {
        busy |= days_of(days, list.duty(i));
    }
    busy
}

/// The days of the month that a word of busy days leaves off together with the next day. Bits past the
/// month's last day count as busy.
fn pairs_off(days: &BaseDays, busy: u32) -> u32
    ensures bits { ArePairsOff days.now.month_days busy result }
    ensures table { IsTable days.now }
{
    let month = (1 << days.month_days()) - 1;
    let off = !busy & month;
    off & (off >> 1)
}

/// Whether a word of busy days leaves two pairs of days off in the month that share no day.
pub fn has_days_off(days: &BaseDays, busy: u32) -> bool
    ensures { (list : List Entry) → AreBusyDays days.now list busy
        → (IsTrue result ↔ KeepsDaysOff days.now list) }
{
    let pairs = pairs_off(days, busy);
    if pairs == 0 {
        return false;
    }
    let first = pairs.trailing_zeros();
    pairs >> (first + 2) != 0
}

/// Whether the list leaves two local days off in a row, twice in the month, by the clocks of a base
/// with these days.
pub fn days_ok(days: &BaseDays, list: &DutyList) -> bool
    ensures { IsTrue result ↔ KeepsDaysOff days.now list.now }
{
    has_days_off(days, busy_days(days, list))
}
