//! A reason in words.

ghost use Rattle.std.specs.Prelude.{◌≡◌, ◌<◌, length};
ghost use Rattle.roster_desk_words.specs.Limits.{counted_text};

use crate::times::{push_times, times_in_leave, times_of_block, times_of_rest, times_shared};
use crate::words::{day, duty_name, pairing_name, push_all, push_time, time};
use roster_desk_given::Zones;
use roster_instants::BaseDays;
use roster_legal_reasons::{
    Amount, DutyInLeave, FewDaysOff, LongBlock, MonthFlight, Reason, RunOfDays, SharedDuties,
    ShortRest,
};
use roster_model::profile::BETWEEN_RECURRENT_RESTS;
use roster_problem::{DutyList, Problem};
use roster_values::Limit;
use std::alloc::{AllocError, Global};

/// Appends which pairing is of another base.
fn push_base(out: &mut Vec<u8>, problem: &Problem, k: usize, p: usize) -> Result<(), AllocError>
    requires { k < length problem.now.persons }
{
    let pairing = pairing_name(problem, p);
    let home = problem.home(k).id.as_bytes();
    push_all(out, &[pairing, b" is of another base than ", home])
}

/// Appends which duties overlap, and when by the clocks of the base at this place.
fn push_overlap(
    alloc: Global,
    out: &mut Vec<u8>,
    zones: &Zones,
    base: usize,
    list: &DutyList,
    shared: SharedDuties,
) -> Result<(), AllocError> {
    let minutes = time(alloc, shared.minutes)?;
    let first = duty_name(list, shared.first);
    let second = duty_name(list, shared.second);
    push_all(
        out,
        &[first, b" and ", second, b" share ", minutes.as_bytes()],
    )?;
    push_times(alloc, out, zones, base, times_shared(list, shared))
}

/// Appends which duty lies in a leave, and when by the clocks of the base at this place.
fn push_leave(
    alloc: Global,
    out: &mut Vec<u8>,
    problem: &Problem,
    zones: &Zones,
    base: usize,
    list: &DutyList,
    told: DutyInLeave,
) -> Result<(), AllocError> {
    let minutes = time(alloc, told.minutes)?;
    let duty = duty_name(list, told.duty);
    push_all(out, &[duty, b" and a leave share ", minutes.as_bytes()])?;
    push_times(alloc, out, zones, base, times_in_leave(problem, list, told))
}

/// Appends which rest is too short, and when it is by the clocks of the base at this place.
fn push_rest(
    alloc: Global,
    out: &mut Vec<u8>,
    zones: &Zones,
    base: usize,
    list: &DutyList,
    short: ShortRest,
) -> Result<(), AllocError> {
    let before = duty_name(list, short.before);
    let after = duty_name(list, short.before.saturating_add(1));
    push_time(alloc, out, short.rest, b" of rest between ")?;
    push_all(out, &[before, b" and ", after])?;
    push_times(alloc, out, zones, base, times_of_rest(list, short))?;
    out.extend_from_slice(b", ")?;
    push_time(alloc, out, short.needed, b" needed, ")?;
    push_time(
        alloc,
        out,
        short.needed.saturating_sub(short.rest),
        b" short",
    )
}

/// Appends which duties take too long without a recurrent rest, and when they are by the clocks of the base
/// at this place.
fn push_recovery(
    alloc: Global,
    out: &mut Vec<u8>,
    zones: &Zones,
    base: usize,
    list: &DutyList,
    block: LongBlock,
) -> Result<(), AllocError> {
    let most = u64::from(BETWEEN_RECURRENT_RESTS);
    let first = duty_name(list, block.first);
    let last = duty_name(list, block.last);
    push_time(alloc, out, block.minutes, b" from ")?;
    push_all(out, &[first, b" to ", last, b" without a recurrent rest"])?;
    push_times(alloc, out, zones, base, times_of_block(list, block))?;
    out.extend_from_slice(b", ")?;
    push_time(alloc, out, most, b" allowed, ")?;
    push_time(alloc, out, block.minutes.saturating_sub(most), b" too long")
}

/// What the limit counts in a run of days.
pub(crate) fn counted(limit: Limit) -> &'static [u8]
    ensures { result.now ≡ counted_text limit }
{
    match limit {
        Limit::Duty7 => b" of duty in the 7 days to ",
        Limit::Duty14 => b" of duty in the 14 days to ",
        Limit::Duty28 => b" of duty in the 28 days to ",
        Limit::Flight28 => b" of flight in the 28 days to ",
        Limit::FlightYear => b" of flight in the year to ",
        Limit::Flight12 => b" of flight in 12 months to ",
    }
}

/// Appends how much there is in a run of days, and how much there may be.
fn push_run(
    alloc: Global,
    out: &mut Vec<u8>,
    to: &[u8],
    limit: Limit,
    run: RunOfDays,
) -> Result<(), AllocError> {
    push_time(alloc, out, run.minutes, counted(limit))?;
    push_all(out, &[to, b", "])?;
    push_time(alloc, out, run.most, b" allowed, ")?;
    push_time(
        alloc,
        out,
        run.minutes.saturating_sub(run.most),
        b" too much",
    )
}

/// Appends how much flight there is in the month and before it, and how much there may be.
fn push_month(alloc: Global, out: &mut Vec<u8>, month: MonthFlight) -> Result<(), AllocError> {
    let both = month.carried.saturating_add(month.flown);
    push_time(alloc, out, month.flown, b" of flight in the month and ")?;
    push_time(alloc, out, month.carried, b" before it, ")?;
    push_time(alloc, out, month.most, b" allowed, ")?;
    push_time(alloc, out, both.saturating_sub(month.most), b" too much")
}

/// Appends which days off in a row there are.
fn push_days_off(
    alloc: Global,
    out: &mut Vec<u8>,
    problem: &Problem,
    days: &BaseDays,
    few: FewDaysOff,
) -> Result<(), AllocError> {
    match few {
        FewDaysOff::NoPair => out.extend_from_slice(
            b"no two days off in a row, two times two needed",
        ),
        FewDaysOff::OnePair(first) => {
            let from = day(alloc, problem.period(), days.month_days(), first)?;
            let rest = b" and no other two in a row, two times two needed";
            push_all(out, &[b"two days off from ", from.as_bytes(), rest])
        }
        FewDaysOff::ThreeDays(first) => {
            let from = day(alloc, problem.period(), days.month_days(), first)?;
            let rest = b" and no other two in a row, two times two needed";
            push_all(out, &[b"three days off from ", from.as_bytes(), rest])
        }
    }
}

/// Appends what breaks a limit.
fn push_limit(
    alloc: Global,
    out: &mut Vec<u8>,
    problem: &Problem,
    days: &BaseDays,
    limit: Limit,
    amount: Amount,
) -> Result<(), AllocError> {
    match amount {
        Amount::Run(run) => {
            let to = day(alloc, problem.period(), days.month_days(), run.last)?;
            push_run(alloc, out, to.as_bytes(), limit, run)
        }
        Amount::Month(month) => push_month(alloc, out, month),
    }
}

/// Appends what the reason tells of person `k` with the duties of the list. The zones are those of the
/// book's bases.
pub fn push_reason(
    alloc: Global,
    out: &mut Vec<u8>,
    problem: &Problem,
    zones: &Zones,
    k: usize,
    list: &DutyList,
    reason: Reason,
) -> Result<(), AllocError>
    requires { k < length problem.now.persons }
{
    let base = problem.person(k).base;
    let days = problem.days_of(k);
    match reason {
        Reason::Base(p) => push_base(out, problem, k, p),
        Reason::Overlap(shared) => push_overlap(alloc, out, zones, base, list, shared),
        Reason::Leave(told) => push_leave(alloc, out, problem, zones, base, list, told),
        Reason::Rest(short) => push_rest(alloc, out, zones, base, list, short),
        Reason::Recovery(block) => push_recovery(alloc, out, zones, base, list, block),
        Reason::Limit(limit, amount) => push_limit(alloc, out, problem, days, limit, amount),
        Reason::DaysOff(few) => push_days_off(alloc, out, problem, days, few),
    }
}
