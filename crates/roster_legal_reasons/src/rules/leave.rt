//! Duties in a leave.

ghost use Rattle.std.specs.Prelude.{◌≡◌, ◌<◌, true, MatchOption};
ghost use Rattle.roster_model.specs.Calendar as calendar;
ghost use Rattle.roster_model.specs.Problem.{leaves_of};
ghost use Rattle.roster_model.specs.Rules.Leave.{IsOffLeave, KeepsLeave};
ghost use Rattle.roster_model.specs.records.Leave.{is_leave_of};
ghost use Rattle.roster_legal_reasons.specs.Reasons.Leave.{IsFirstDutyInLeave, IsFirstLeaveOf, IsShared};

use roster_instants::common;
use roster_problem::{Duty, DutyList, Leave, Problem};

/// A duty that shares minutes with a leave.
#[derive(Clone, Copy, PartialEq, Eq)]
pub struct DutyInLeave {
    /// The duty.
    pub duty: usize,
    /// The leave, by its place among all leaves of the book.
    pub leave: usize,
    /// The minutes that they share, more than 0.
    pub minutes: u64,
}

/// The minutes that the duty and the leave share.
fn shared(duty: &Duty, leave: &Leave) -> u64
    ensures { result ≡ calendar.common duty.now.report duty.now.release leave.now.from leave.now.to }
{
    common(duty.report, duty.release, leave.from, leave.to) as u64
}

/// The minutes that the duty shares with the leave, if it is one of person `k` and they share any.
fn minutes_in(duty: &Duty, leave: &Leave, k: usize) -> Option<u64>
    ensures { MatchOption result
        (is_leave_of k leave.now ≡ true → calendar.common duty.now.report duty.now.release
        leave.now.from leave.now.to ≡ 0)
        (IsShared k duty.now leave.now) }
{
    if leave.person != k {
        return None;
    }
    let minutes = shared(duty, leave);
    if minutes == 0 {
        return None;
    }
    Some(minutes)
}

/// The first leave of person `k` that the duty at place `i` shares a minute with.
fn first_leave(problem: &Problem, k: usize, duty: &Duty, i: usize) -> Option<DutyInLeave>
    ensures { MatchOption result (IsOffLeave (leaves_of problem.now k) duty.now)
        (IsFirstLeaveOf problem.now.leaves k duty.now i) }
{
    let leaves = problem.leaves();
    for place in 0..leaves.len() {
        if let Some(minutes) = minutes_in(duty, &leaves[place], k) {
            return Some(DutyInLeave {
                duty: i,
                leave: place,
                minutes,
            });
        }
    }
    None
}

/// The first duty of the list that shares a minute with a leave of person `k`.
pub(crate) fn first_duty_in_leave(
    problem: &Problem,
    k: usize,
    list: &DutyList,
) -> Option<DutyInLeave>
    ensures { MatchOption result (KeepsLeave (leaves_of problem.now k) list.now)
        (IsFirstDutyInLeave problem.now k list.now) }
{
    for i in 0..list.len() {
        if let Some(told) = first_leave(problem, k, list.duty(i), i) {
            return Some(told);
        }
    }
    None
}
