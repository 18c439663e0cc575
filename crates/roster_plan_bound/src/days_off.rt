//! By when there may have been two days off in a row, and by when once more.
//!
//! Other pairings make more days busy, so with them the instants are no earlier.

ghost use Rattle.std.specs.Prelude.{◌≡◌, ◌==◌, ◌+◌, ◌-◌, ◌<◌, ◌≤◌, ℕ, List, [], ◌∷◌, All, IfOk, IsTrue};
ghost use Rattle.std.specs.Prelude.{length, slice_index};
ghost use Rattle.std.specs.Int.{bit_at};
ghost use Rattle.roster_model.specs.declared.limits.TheConstants.{LAST_INSTANT};
ghost use Rattle.roster_model.specs.records.Duty.{Duty};
ghost use Rattle.roster_model.specs.Rules.DaysOff.{IsPairOff};
ghost use Rattle.roster_restrules.specs.Busy.{AreBusyDays};
ghost use Rattle.roster_plan_bound.specs.DaysOffs.{pairs_by, IsOffFrom, IsOverBy};
ghost use Rattle.roster_plan_bound.specs.Drafts.{AreOffs, AreSpans};

use crate::span::Span;
use roster_instants::BaseDays;
use roster_legal::merge;
use roster_model::limits::DAYS_BEFORE;
use roster_problem::Problem;
use roster_restrules::busy_days;
use roster_values::Set;
use std::alloc::{AllocError, Global};

/// When a pairing begins, and by when there may have been days off from then on. All instants are minutes.
#[derive(Clone, Copy)]
pub(crate) struct DaysOff {
    /// The report of the pairing's first duty.
    pub(crate) from: u64,
    /// When two days off in a row that begin no earlier are over at the earliest, or later than any instant.
    pub(crate) once: u64,
    /// When two more, that begin no earlier than those end, are over at the earliest, or later than any
    /// instant.
    pub(crate) twice: u64,
}

impl DaysOff {
    /// How many of so many pairs of days off still have to come at that instant, at least.
    pub(crate) fn left(&self, need: usize, instant: u64) -> usize
        ensures { result ≡ need - pairs_by self.now instant }
    {
        need.saturating_sub(self.pairs_by(instant))
    }

    /// How many times there may have been two days off in a row by that instant, as far as twice.
    fn pairs_by(&self, instant: u64) -> usize
        ensures { result ≡ pairs_by self.now instant }
    {
        if self.twice <= instant {
            return 2;
        }
        if self.once <= instant {
            return 1;
        }
        0
    }
}

/// The days off behind each pairing, whose spans these are, with person `k`.
pub(crate) fn offs_of(
    alloc: Global,
    problem: &Problem,
    k: usize,
    spans: &[Span],
) -> Result<Vec<DaysOff>, AllocError>
    requires person { k < length problem.now.persons }
    requires spans { AreSpans problem.now spans.now }
    ensures { IfOk result (λ offs. AreOffs problem.now k spans.now offs.items) }
{
    let mut offs = Vec::new(alloc);
    for p in 0..spans.len() {
        offs.push(off_behind(alloc, problem, k, p, spans[p].report)?)?;
    }
    Ok(offs)
}

/// The days off of person `k` from that instant on behind pairing `p`.
fn off_behind(
    alloc: Global,
    problem: &Problem,
    k: usize,
    p: usize,
    from: u64,
) -> Result<DaysOff, AllocError>
    requires person { k < length problem.now.persons }
    requires place { p < length problem.now.pairings }
    ensures { IfOk result (IsOffFrom problem.now k (p ∷ []) from) }
{
    problem.is_sound();
    let mut set = Set::empty();
    set.put(p);
    let off = off_with(alloc, problem, k, &set, from)?;
    Ok(off)
}

/// The days off of person `k` without any pairing.
pub(crate) fn off_at_start(
    alloc: Global,
    problem: &Problem,
    k: usize,
) -> Result<DaysOff, AllocError>
    requires { k < length problem.now.persons }
    ensures { IfOk result (IsOffFrom problem.now k [] 0) }
{
    let off = off_with(alloc, problem, k, &Set::empty(), 0)?;
    Ok(off)
}

/// By when there may have been days off from an instant on, for person `k` with the set, or with a greater
/// one.
fn off_with(
    alloc: Global,
    problem: &Problem,
    k: usize,
    set: &Set,
    from: u64,
) -> Result<DaysOff, AllocError>
    requires person { k < length problem.now.persons }
    requires places { All (λ p. p < length problem.now.pairings) set.now }
    ensures { IfOk result (IsOffFrom problem.now k set.now from) }
{
    let days = problem.days_of(k);
    let list = merge(alloc, problem, k, set)?;
    let busy = busy_days(days, &list);
    let first = pair_from(days, busy, day_from(days, from));
    let second = pair_from(days, busy, first + 2);
    Ok(DaysOff {
        from,
        once: end_of(days, first),
        twice: end_of(days, second),
    })
}

/// The first day of the month, from 0, that begins no earlier than the instant, or how many days it has.
fn day_from(days: &BaseDays, instant: u64) -> usize
    ensures first { (i : ℕ) → i < days.now.month_days
        → instant ≤ slice_index days.now.mid (DAYS_BEFORE + i) → result ≤ i }
    ensures bound { result ≤ days.now.month_days }
{
    for i in 0..days.month_days() {
        if instant <= day_begin(days, i) {
            return i;
        }
    }
    days.month_days()
}

/// The first day from one on that is off, as the next one is too, or how many days the month has.
fn pair_from(days: &BaseDays, busy: u32, from: usize) -> usize
    ensures first { (list : List Duty) (i : ℕ) → AreBusyDays days.now list busy → from ≤ i
        → IsPairOff days.now list (DAYS_BEFORE + i) → result ≤ i }
    ensures bound { (result ≤ days.now.month_days) × (days.now.month_days ≤ 31) }
{
    for i in from..days.month_days() {
        if is_pair(days, busy, i) {
            return i;
        }
    }
    days.month_days()
}

/// Whether this day of the month and the next one are off.
fn is_pair(days: &BaseDays, busy: u32, i: usize) -> bool
    requires { i < days.now.month_days }
    ensures { (list : List Duty) → AreBusyDays days.now list busy → IsPairOff days.now list (DAYS_BEFORE + i)
        → IsTrue result }
{
    if days.month_days() <= i + 1 {
        return false;
    }
    if is_busy(busy, i) {
        return false;
    }
    !is_busy(busy, i + 1)
}

/// Whether the day's bit is set.
fn is_busy(busy: u32, i: usize) -> bool
    requires { i < 32 }
    ensures { result ≡ (bit_at busy i == 1) }
{
    (busy >> i) & 1 == 1
}

/// When that day of the month and the next one are over, or later than any instant if it isn't one of the
/// month.
fn end_of(days: &BaseDays, i: usize) -> u64
    requires { i ≤ days.now.month_days }
    ensures { (later : ℕ) → i ≤ later → later + 2 ≤ days.now.month_days
        → IsOverBy days.now (DAYS_BEFORE + later) result }
{
    if days.month_days() <= i + 1 {
        return u64::MAX;
    }
    day_begin(days, i + 2)
}

/// When that day of the month begins, or the month ends.
fn day_begin(days: &BaseDays, i: usize) -> u64
    requires { i ≤ days.now.month_days }
    ensures value { result ≡ slice_index days.now.mid (DAYS_BEFORE + i) }
    ensures early { result ≤ LAST_INSTANT }
{
    prove!(DAYS_BEFORE + days.month_days() <= days.days());
    days.mid(DAYS_BEFORE + i).get() as u64
}
