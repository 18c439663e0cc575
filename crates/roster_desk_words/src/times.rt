//! From when to when what is told of lies, and how much of it is flight.

use crate::words::{duty_at, push_all};
use roster_desk_given::Zones;
use roster_instants::Minute;
use roster_legal_reasons::{DutyInLeave, LongBlock, SharedDuties, ShortRest};
use roster_problem::{Duty, DutyList, Problem};
use std::alloc::{AllocError, Global};

/// The minutes of flight in the duty: those of its operated sectors, in the month or not.
pub fn flight_of(duty: &Duty) -> u64 {
    let mut minutes = 0u64;
    for sector in duty.sectors.as_slice() {
        if sector.operates {
            let flown = sector.on.get().abs_diff(sector.off.get());
            minutes = minutes.saturating_add(flown);
        }
    }
    minutes
}

/// From one instant to another.
#[derive(Clone, Copy)]
pub(crate) struct Times {
    from: Minute,
    to: Minute,
}

/// The minutes that both have.
fn common_times(one: Times, other: Times) -> Times {
    Times {
        from: one.from.max(other.from),
        to: one.to.min(other.to),
    }
}

/// From the report to the release of the duty at a place of the list, if it has one there.
fn times_of(list: &DutyList, i: usize) -> Option<Times> {
    let duty = duty_at(list, i)?;
    Some(Times {
        from: duty.report,
        to: duty.release,
    })
}

/// When both duties are.
pub(crate) fn times_shared(list: &DutyList, shared: SharedDuties) -> Option<Times> {
    let first = times_of(list, shared.first)?;
    let second = times_of(list, shared.second)?;
    Some(common_times(first, second))
}

/// When both the duty and the leave are.
pub(crate) fn times_in_leave(
    problem: &Problem,
    list: &DutyList,
    told: DutyInLeave,
) -> Option<Times> {
    let duty = times_of(list, told.duty)?;
    let leave = problem.leaves().get(told.leave)?;
    let leave = Times {
        from: leave.from,
        to: leave.to,
    };
    Some(common_times(duty, leave))
}

/// From the release to the next report.
pub(crate) fn times_of_rest(list: &DutyList, short: ShortRest) -> Option<Times> {
    let before = times_of(list, short.before)?;
    let after = times_of(list, short.before.saturating_add(1))?;
    Some(Times {
        from: before.to,
        to: after.from,
    })
}

/// From the report of the first duty to the release of the last.
pub(crate) fn times_of_block(list: &DutyList, block: LongBlock) -> Option<Times> {
    let first = times_of(list, block.first)?;
    let last = times_of(list, block.last)?;
    Some(Times {
        from: first.from,
        to: last.to,
    })
}

/// Appends the times in brackets, as the clocks of the base at this place show them.
pub(crate) fn push_times(
    alloc: Global,
    out: &mut Vec<u8>,
    zones: &Zones,
    base: usize,
    times: Option<Times>,
) -> Result<(), AllocError> {
    let Some(times) = times else {
        return Ok(());
    };
    let from = zones.local(alloc, base, times.from)?;
    let to = zones.local(alloc, base, times.to)?;
    push_all(
        out,
        &[b" (", from.as_bytes(), b" to ", to.as_bytes(), b" local)"],
    )
}
