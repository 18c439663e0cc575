//! Duties that overlap.

ghost use Rattle.std.specs.Prelude.{◌≡◌, MatchOption};
ghost use Rattle.roster_model.specs.Calendar as calendar;
ghost use Rattle.roster_model.specs.Rules.Overlap.{NoOverlap};
ghost use Rattle.roster_problem.specs.Duties.{AreTimed, IsInOrder};
ghost use Rattle.roster_legal_reasons.specs.Reasons.Overlap.{IsFirstOverlap};

use roster_instants::common;
use roster_problem::{Duty, DutyList};

/// Two duties that follow one another on the list and share minutes.
#[derive(Clone, Copy, PartialEq, Eq)]
pub struct SharedDuties {
    /// The duty that reports first.
    pub first: usize,
    /// The next one.
    pub second: usize,
    /// The minutes that they share, more than 0.
    pub minutes: u64,
}

/// The minutes that the duties share.
fn shared(a: &Duty, b: &Duty) -> u64
    ensures { result ≡ calendar.common a.now.report a.now.release b.now.report b.now.release }
{
    common(a.report, a.release, b.report, b.release) as u64
}

/// The first two duties of the list that share a minute. The list is in order, so they are neighbours.
pub(crate) fn first_overlap(list: &DutyList) -> Option<SharedDuties>
    requires ordered { IsInOrder list.now }
    requires timed { AreTimed list.now }
    ensures { MatchOption result (NoOverlap list.now) (IsFirstOverlap list.now) }
{
    for i in 1..list.len() {
        let minutes = shared(list.duty(i - 1), list.duty(i));
        if minutes > 0 {
            return Some(SharedDuties {
                first: i - 1,
                second: i,
                minutes,
            });
        }
    }
    None
}
