//! Recurrent rests.

ghost use Rattle.std.specs.Prelude.{◌≡◌, ◌+◌, ◌<◌, ◌≤◌, ◌-◌, ◌↔◌, IsTrue, length};
ghost use Rattle.std.specs.List.{count_by};
ghost use Rattle.roster_model.specs.Calendar.{IsTable};
ghost use Rattle.roster_model.specs.Rules.Recovery as model;
ghost use Rattle.roster_model.specs.Rules.Recovery.{IsRecurrent, KeepsRecovery, nights};
ghost use Rattle.roster_problem.specs.Duties.{IsInOrder};
ghost use Rattle.roster_restrules.specs.Block.{IsBlock};

use roster_instants::{BaseDays, Minute, common};
use roster_model::profile::{
    BETWEEN_RECURRENT_RESTS, NIGHT_REST, RECURRENT_NIGHTS, RECURRENT_REST,
};
use roster_problem::{Duty, DutyList};

/// Whether enough minutes of a night lie between the two instants.
fn holds_night(days: &BaseDays, from: Minute, to: Minute, night: usize) -> bool
    requires order { from ≤ to }
    requires within { night + 1 < length days.now.eight }
    requires table { IsTable days.now }
    ensures { result ≡ model.holds_night days.now from to night }
{
    let rest = common(from, to, days.ten(night), days.eight(night + 1)) as u64;
    rest >= u64::from(NIGHT_REST)
}

/// Whether enough nights lie between the two instants. It looks at none that ends before the first or
/// begins after the second.
fn holds_nights(days: &BaseDays, from: Minute, to: Minute) -> bool
    requires { from ≤ to }
    ensures { IsTrue result
        ↔ (RECURRENT_NIGHTS ≤ count_by (model.holds_night days.now from to) (nights days.now)) }
{
    let first = days.mornings_by(from).saturating_sub(1);
    let mut held = 0;
    for night in first..days.days() - 1 {
        if to <= days.ten(night) {
            return false;
        }
        held += usize::from(holds_night(days, from, to, night));
        if held == RECURRENT_NIGHTS {
            return true;
        }
    }
    false
}

/// Whether the time from one instant to another is a recurrent rest, by the clocks of a base with these
/// days.
pub fn is_recurrent(days: &BaseDays, from: Minute, to: Minute) -> bool
    ensures { IsTrue result ↔ IsRecurrent days.now from to }
{
    from.get() + i64::from(RECURRENT_REST) <= to.get() && holds_nights(days, from, to)
}

/// Whether a recurrent rest lies between the two duties.
fn have_rest_between(days: &BaseDays, prev: &Duty, next: &Duty) -> bool
    ensures { IsTrue result ↔ IsRecurrent days.now prev.now.release next.now.report }
{
    is_recurrent(days, prev.release, next.report)
}

/// The place of the first duty of the block that the duty at `i` belongs to: the duties since the last
/// recurrent rest. `first` is that of the duty before it, or 0 for the first duty of the list.
pub fn first_of_block(days: &BaseDays, list: &DutyList, first: usize, i: usize) -> usize
    requires within { i < length list.now }
    requires block { IsBlock days.now list.now first (i - 1) }
    ensures { IsBlock days.now list.now result i }
{
    if i > 0 && have_rest_between(days, list.duty(i - 1), list.duty(i)) {
        i
    } else {
        first
    }
}

/// Whether a block of duties that begins at one instant ends soon enough at another, if it ends after
/// the month begins.
pub(crate) fn ends_in_time(month_start: Minute, begun: Minute, ended: Minute) -> bool
    ensures { IsTrue result
        ↔ (month_start < ended → ended ≤ begun + BETWEEN_RECURRENT_RESTS) }
{
    ended <= month_start || ended.get() <= begun.get() + i64::from(BETWEEN_RECURRENT_RESTS)
}

/// Whether recurrent rests follow one another soon enough on the list, by the clocks of a base with
/// these days. Of the duties of a block the first reports first, since the list is in order.
pub fn recovery_ok(days: &BaseDays, list: &DutyList) -> bool
    requires { IsInOrder list.now }
    ensures { IsTrue result ↔ KeepsRecovery days.now list.now }
{
    let month_start = days.month_start();
    let mut first = 0;
    for i in 0..list.len() {
        first = first_of_block(days, list, first, i);
        let (begun, ended) = (list.duty(first), list.duty(i));
        if !ends_in_time(month_start, begun.report, ended.release) {
            return false;
        }
    }
    true
}
