//! Recurrent rests between many duties, where each is looked at once.

ghost use Rattle.std.specs.Prelude.{◌≡◌, ◌+◌, ◌-◌, ◌<◌, ◌≤◌, ◌↔◌, IfOk, IsTrue, All, length};
ghost use Rattle.roster_model.specs.Calendar.{IsTable};
ghost use Rattle.roster_model.specs.Rules.Recovery.{KeepsRecovery};
ghost use Rattle.roster_problem.specs.Duties.{picked, IsInOrder};
ghost use Rattle.roster_restrules.specs.Block.{IsBlock};
ghost use Rattle.roster_restrules.specs.Times.{can_hold, held_by, AreTimesOf, IsAt, IsRestedBy};

use crate::recovery::ends_in_time;
use roster_instants::{BaseDays, Minute};
use roster_model::limits::LAST_INSTANT;
use roster_model::profile::{NIGHT_REST, RECURRENT_NIGHTS, RECURRENT_REST};
use roster_problem::Duty;
use std::alloc::{AllocError, Global};
use std::marker::Model;

/// When a duty begins and ends, and the first instant up to which the time from its end is a recurrent
/// rest; it is later than all others if there is none.
#[derive(Clone, Copy)]
pub(crate) struct DutyTimes {
    pub(crate) report: Minute,
    pub(crate) release: Minute,
    pub(crate) rested: u64,
}

/// The first instant up to which the time from another one has enough minutes of the night.
fn held_by(days: &BaseDays, from: Minute, night: usize) -> u64
    requires { night < length days.now.eight }
    ensures value { result ≡ held_by days.now from night }
    ensures bound { result ≤ LAST_INSTANT + NIGHT_REST }
{
    let begins = from.get().max(days.ten(night).get());
    begins as u64 + u64::from(NIGHT_REST)
}

/// Whether that lies in the night.
fn can_hold(days: &BaseDays, from: Minute, night: usize) -> bool
    requires within { night + 1 < length days.now.eight }
    requires table { IsTable days.now }
    ensures { result ≡ can_hold days.now from night }
{
    held_by(days, from, night) <= days.eight(night + 1).get() as u64
}

/// The first instant up to which the time from another one is a recurrent rest. Later instants are such
/// too. It looks at no night that ends before it.
fn rested_by(days: &BaseDays, from: Minute) -> u64
    ensures { IsRestedBy days.now from result }
{
    let least = from.get() as u64 + u64::from(RECURRENT_REST);
    let first = days.mornings_by(from).saturating_sub(1);
    let mut held = 0;
    for night in first..days.days() - 1 {
        held += usize::from(can_hold(days, from, night));
        if held == RECURRENT_NIGHTS {
            return least.max(held_by(days, from, night));
        }
    }
    LAST_INSTANT + 1
}

/// What recovery looks at of a duty.
fn times_of(days: &BaseDays, duty: &Duty) -> DutyTimes
    ensures { AreTimesOf days.now duty.now result }
{
    DutyTimes {
        report: duty.report,
        release: duty.release,
        rested: rested_by(days, duty.release),
    }
}

/// Duties by the clocks of a base, with the instants from which on rests after them are recurrent. Lists
/// of them are judged without another look at any night. Contracts see the duties and the days.
#[derive(Drop)]
pub struct Times<'a> {
    days: &'a BaseDays,
    duties: &'a [Duty],
    month_start: Minute,
    times: Vec<DutyTimes>,
}

impl<'a> Model for Times<'a> {
    ghost use Rattle.roster_restrules.specs.Times.{IsTimed, Timed};

    ghost Value = { Timed };

    ghost view = { λ t. record { days = t.days.now; duties = t.duties.now } };

    ghost invariant = { λ t. IsTimed t.days.now t.duties.now t.month_start t.times.items };
}

impl<'a> Times<'a> {
    /// Looks at each duty once.
    pub fn new(
        alloc: Global,
        days: &'a BaseDays,
        duties: &'a [Duty],
    ) -> Result<Times<'a>, AllocError>
        ensures { IfOk result
            (λ times. times ≡ record { days = days.now; duties = duties.now }) }
    {
        let mut times = Vec::new(alloc);
        for i in 0..duties.len() {
            times.push(times_of(days, &duties[i]))?;
        }
        Ok(Times {
            days,
            duties,
            month_start: days.month_start(),
            times,
        })
    }

    /// What is known of the duty at a place of the list of those at the positions.
    fn at(&self, positions: &[u16], i: usize) -> DutyTimes
        requires within { All (λ p. p < length self.now.duties) positions.now }
        requires inside { i < length positions.now }
        ensures { IsAt self.now positions.now i result }
    {
        self.times[usize::from(positions[i])]
    }

    /// The place of the first duty of the block that the duty at `i` belongs to: the duties since the
    /// last recurrent rest. `first` is that of the duty before it.
    fn first_of_block(&self, positions: &[u16], first: usize, i: usize) -> usize
        requires within { All (λ p. p < length self.now.duties) positions.now }
        requires inside { i < length positions.now }
        requires block { IsBlock self.now.days (picked self.now.duties positions.now) first (i - 1) }
        ensures { IsBlock self.now.days (picked self.now.duties positions.now) result i }
    {
        if i > 0 {
            let rested = self.at(positions, i - 1).rested;
            let report = self.at(positions, i).report.get() as u64;
            if rested <= report {
                return i;
            }
        }
        first
    }

    /// Whether recurrent rests follow one another soon enough on the list of the duties at the
    /// positions, which is in order. It looks at no night, and takes no memory.
    pub fn keep_recovery(&self, positions: &[u16]) -> bool
        requires within { All (λ p. p < length self.now.duties) positions.now }
        requires ordered { IsInOrder (picked self.now.duties positions.now) }
        ensures { IsTrue result
            ↔ KeepsRecovery self.now.days (picked self.now.duties positions.now) }
    {
        let mut first = 0;
        for i in 0..positions.len() {
            first = self.first_of_block(positions, first, i);
            let begun = self.at(positions, first).report;
            let ended = self.at(positions, i).release;
            if !ends_in_time(self.month_start, begun, ended) {
                return false;
            }
        }
        true
    }
}
