//! Too long without a recurrent rest.

ghost use Rattle.std.specs.Prelude.{◌+◌, ◌<◌, ◌≤◌, MatchOption};
ghost use Rattle.roster_model.specs.Rules.Recovery.{KeepsRecovery};
ghost use Rattle.roster_problem.specs.Duties.{IsInOrder};
ghost use Rattle.roster_legal_reasons.specs.Reasons.Recovery.{IsFirstLongBlock, IsLongBetween};

use roster_instants::{BaseDays, Minute};
use roster_model::profile::BETWEEN_RECURRENT_RESTS;
use roster_problem::{Duty, DutyList};
use roster_restrules::first_of_block;

/// Duties with no recurrent rest between them, which take too long.
#[derive(Clone, Copy, PartialEq, Eq)]
pub struct LongBlock {
    /// The first duty of the list, or the first one after a recurrent rest.
    pub first: usize,
    /// The duty with whose release it is too long.
    pub last: usize,
    /// The minutes from the report of the first to the release of the last.
    pub minutes: u64,
}

/// The block from the first duty to the last, which are at these places, if it ends after the month
/// begins and is too long.
fn long_block(
    month_start: Minute,
    begun: &Duty,
    ended: &Duty,
    first: usize,
    last: usize,
) -> Option<LongBlock>
    ensures { MatchOption result (month_start < ended.now.release
        → ended.now.release ≤ begun.now.report + BETWEEN_RECURRENT_RESTS)
        (IsLongBetween month_start begun.now ended.now first last) }
{
    if ended.release <= month_start {
        return None;
    }
    let minutes = ended.release.get() - begun.report.get();
    if minutes <= i64::from(BETWEEN_RECURRENT_RESTS) {
        return None;
    }
    Some(LongBlock {
        first,
        last,
        minutes: minutes as u64,
    })
}

/// The first block of duties of the list that is too long, with the first duty that makes it so.
pub(crate) fn first_long_block(days: &BaseDays, list: &DutyList) -> Option<LongBlock>
    requires { IsInOrder list.now }
    ensures { MatchOption result (KeepsRecovery days.now list.now)
        (IsFirstLongBlock days.now list.now) }
{
    let month_start = days.month_start();
    let mut first = 0;
    for i in 0..list.len() {
        first = first_of_block(days, list, first, i);
        let begun = list.duty(first);
        let ended = list.duty(i);
        if let Some(block) = long_block(month_start, begun, ended, first, i) {
            return Some(block);
        }
    }
    None
}
