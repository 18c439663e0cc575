//! When persons are busy, by the records so far.

ghost use Rattle.std.specs.Prelude.{◌≡◌, ◌&&◌, nat_lt};
ghost use Rattle.std.specs.List.{list_any};
ghost use Rattle.roster_model.specs.Busy as busy;
ghost use Rattle.roster_model.specs.Busy.{time_of_duty, time_of_leave};
ghost use Rattle.roster_model.specs.Calendar.{common};
ghost use Rattle.roster_model.specs.records.Duty.{is_held_by_person};
ghost use Rattle.roster_model.specs.records.Leave.{is_leave_of};
ghost use Rattle.roster_book.specs.Draft.{tables_of_draft};

use crate::draft::Draft;
use roster_instants::Minute;
use roster_problem::{Duty, Holder, Leave};

/// Whether the time from `start` to `end` shares a minute with that from `from` to `to`.
fn share_minute(start: Minute, end: Minute, from: Minute, to: Minute) -> bool
    ensures { result ≡ nat_lt 0 (common start end from to) }
{
    start < end && from < to && start < to && from < end
}

/// Whether it is a fixed duty of the person, and shares a minute with the time.
fn is_duty_at(duty: &Duty, person: usize, from: Minute, to: Minute) -> bool
    ensures { result ≡ (is_held_by_person person duty.now.holder
        && busy.shares_minute from to (time_of_duty duty.now)) }
{
    duty.holder == Holder::Person(person) && share_minute(duty.report, duty.release, from, to)
}

/// Whether it is a leave of the person, and shares a minute with the time.
fn is_leave_at(leave: &Leave, person: usize, from: Minute, to: Minute) -> bool
    ensures { result ≡ (is_leave_of person leave.now
        && busy.shares_minute from to (time_of_leave leave.now)) }
{
    leave.person == person && share_minute(leave.from, leave.to, from, to)
}

impl Draft {
    /// Whether the person has a fixed duty in a minute of the time.
    fn is_on_duty(&self, person: usize, from: Minute, to: Minute) -> bool
        ensures { result ≡ list_any (λ duty. is_held_by_person person duty.holder
            && busy.shares_minute from to (time_of_duty duty)) self.now.duties }
    {
        self.duties
            .as_slice()
            .iter()
            .any(|duty| is_duty_at(duty, person, from, to))
    }

    /// Whether the person has a leave in a minute of the time.
    fn is_on_leave(&self, person: usize, from: Minute, to: Minute) -> bool
        ensures { result ≡ list_any (λ leave. is_leave_of person leave
            && busy.shares_minute from to (time_of_leave leave)) self.now.tables.leaves.items }
    {
        self.tables
            .leaves
            .iter()
            .any(|leave| is_leave_at(leave, person, from, to))
    }

    /// Whether the person at the place is busy in a minute of the time from one instant to another.
    pub(crate) fn is_busy(&self, person: usize, from: Minute, to: Minute) -> bool
        ensures { result ≡ busy.is_busy (tables_of_draft self.now) person from to }
    {
        let is_on_duty = self.is_on_duty(person, from, to);
        let is_on_leave = self.is_on_leave(person, from, to);
        is_on_duty || is_on_leave
    }
}
