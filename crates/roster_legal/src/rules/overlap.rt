//! The overlap rule.

ghost use Rattle.std.specs.Prelude.{◌≤◌, ◌↔◌, IsTrue};
ghost use Rattle.roster_model.specs.Rules.Overlap.{NoOverlap};
ghost use Rattle.roster_problem.specs.Duties.{AreTimed, IsInOrder};

use roster_problem::{Duty, DutyList};

/// Whether one duty ends no later than another begins.
fn ends_before(a: &Duty, b: &Duty) -> bool
    ensures { IsTrue result ↔ (a.now.release ≤ b.now.report) }
{
    a.release.get() <= b.report.get()
}

/// Whether no two duties of the list share a minute. They are in order, so it looks at neighbours.
pub(crate) fn no_overlap(list: &DutyList) -> bool
    requires ordered { IsInOrder list.now }
    requires timed { AreTimed list.now }
    ensures { IsTrue result ↔ NoOverlap list.now }
{
    for i in 1..list.len() {
        if !ends_before(list.duty(i - 1), list.duty(i)) {
            return false;
        }
    }
    true
}
