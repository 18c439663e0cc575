//! The leave rule.

ghost use Rattle.std.specs.Prelude.{◌≡◌, ◌<◌, ◌↔◌, IsTrue, length};
ghost use Rattle.roster_model.specs.Calendar as calendar;
ghost use Rattle.roster_model.specs.Problem.{leaves_of};
ghost use Rattle.roster_model.specs.Rules.Leave.{IsOffLeave, KeepsLeave};

use roster_instants::common;
use roster_problem::{Duty, DutyList, Leave, Problem};

/// Whether the duty and the leave share no minute.
fn is_apart(duty: &Duty, leave: &Leave) -> bool
    ensures { IsTrue result
        ↔ (calendar.common duty.now.report duty.now.release leave.now.from leave.now.to ≡ 0) }
{
    common(duty.report, duty.release, leave.from, leave.to) == 0
}

/// Whether the duty shares no minute with a leave of person `k`.
fn is_off_leave(problem: &Problem, k: usize, duty: &Duty) -> bool
    requires { k < length problem.now.persons }
    ensures { IsTrue result ↔ IsOffLeave (leaves_of problem.now k) duty.now }
{
    let leaves = problem.leaves();
    for place in problem.leave(k) {
        if !is_apart(duty, &leaves[usize::from(*place)]) {
            return false;
        }
    }
    true
}

/// Whether no duty of the list shares a minute with a leave of person `k`.
pub(crate) fn keeps_leave(problem: &Problem, k: usize, list: &DutyList) -> bool
    requires { k < length problem.now.persons }
    ensures { IsTrue result ↔ KeepsLeave (leaves_of problem.now k) list.now }
{
    for i in 0..list.len() {
        if !is_off_leave(problem, k, list.duty(i)) {
            return false;
        }
    }
    true
}
