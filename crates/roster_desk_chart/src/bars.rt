//! What is drawn in the row of a person or a pairing: duties, leave, recurrent rests and days off.

ghost use Rattle.std.specs.Prelude.{◌<◌, length};

use crate::axis::{Axis, midnight, minute};
use crate::bands::{before_leave, hue_of, is_first, name_end, push_band, push_label};
use crate::html::{Place, percent, push_open, push_text};
use roster_desk_words::{flight_of, pairing_name, push_all, time};
use roster_instants::Minute;
use roster_legal_reasons::Reason;
use roster_model::limits::DAYS_BEFORE;
use roster_problem::{Duty, DutyList, Holder, Leave, Problem};
use roster_restrules::{busy_days, is_recurrent};
use std::alloc::{AllocError, Global};

/// Whether the reason, if there is one, speaks of the duty at the place of the list.
fn is_told(reason: Option<Reason>, i: usize) -> bool {
    match reason {
        Some(reason) => reason.touches(i),
        None => false,
    }
}

/// What a duty tells: its pairing, its name, its times and minutes, and the rest before it, if there is a
/// duty before it.
fn duty_title(
    alloc: Global,
    axis: &Axis,
    problem: &Problem,
    duty: &Duty,
    before: Option<&Duty>,
) -> Result<Vec<u8>, AllocError> {
    let mut title = Vec::new(alloc);
    match duty.holder {
        Holder::Pairing(p) => {
            push_all(&mut title, &[pairing_name(problem, p), b", duty "])?;
        }
        Holder::Person(_) => title.extend_from_slice(b"fixed duty ")?,
    }
    let from = axis.moment(alloc, duty.report)?;
    let to = axis.moment(alloc, duty.release)?;
    let long = time(
        alloc,
        minute(duty.release).saturating_sub(minute(duty.report)),
    )?;
    let flight = time(alloc, flight_of(duty))?;
    push_all(
        &mut title,
        &[duty.id.as_bytes(), b" at ", duty.station.as_bytes()],
    )?;
    push_all(
        &mut title,
        &[b": ", from.as_bytes(), b" to ", to.as_bytes()],
    )?;
    push_all(
        &mut title,
        &[b"; duty ", long.as_bytes(), b", flight ", flight.as_bytes()],
    )?;
    if let Some(before) = before {
        let rest = time(
            alloc,
            minute(duty.report).saturating_sub(minute(before.release)),
        )?;
        push_all(&mut title, &[b", rest before it ", rest.as_bytes()])?;
    }
    Ok(title)
}

/// Appends what a duty's bar begins with.
fn push_bar(
    alloc: Global,
    out: &mut Vec<u8>,
    place: Place,
    holder: Holder,
    is_told: bool,
) -> Result<(), AllocError> {
    let left = percent(alloc, place.left)?;
    let width = percent(alloc, place.width)?;
    out.extend_from_slice(match holder {
        Holder::Pairing(_) if is_told => b"<i tabindex=\"-1\" class=\"x\" style=\"left:".as_slice(),
        Holder::Pairing(_) => b"<i tabindex=\"-1\" style=\"left:",
        Holder::Person(_) if is_told => b"<i tabindex=\"-1\" class=\"f x\" style=\"left:",
        Holder::Person(_) => b"<i tabindex=\"-1\" class=\"f\" style=\"left:",
    })?;
    push_all(out, &[left.as_bytes(), b";width:", width.as_bytes()])?;
    if let Holder::Pairing(p) = holder {
        let hue = hue_of(p);
        let hue = format!(in alloc; ";--h:{hue}")?;
        out.extend_from_slice(hue.as_bytes())?;
    }
    out.extend_from_slice(b"\"")
}

/// Appends a duty's bar.
pub(crate) fn push_duty(
    alloc: Global,
    out: &mut Vec<u8>,
    axis: &Axis,
    problem: &Problem,
    duty: &Duty,
    before: Option<&Duty>,
    is_told: bool,
) -> Result<(), AllocError> {
    let Some(place) = axis.place(minute(duty.report), minute(duty.release)) else {
        return Ok(());
    };
    let title = duty_title(alloc, axis, problem, duty, before)?;
    push_bar(alloc, out, place, duty.holder, is_told)?;
    out.extend_from_slice(b" title=\"")?;
    push_text(out, title.as_slice())?;
    out.extend_from_slice(b"\"></i>")
}

/// Appends what stands under and over the bar of the duty at place `i` of the list of person `k`: the band of
/// its pairing, if it is the first duty of it, and the name.
fn push_name(
    alloc: Global,
    out: &mut Vec<u8>,
    axis: &Axis,
    problem: &Problem,
    list: &DutyList,
    k: usize,
    i: usize,
) -> Result<(), AllocError>
    requires person { k < length problem.now.persons }
    requires duty { i < length list.now }
{
    let duty = list.duty(i);
    let from = minute(duty.report);
    // What ends before the days that are drawn has no bar.
    if axis.place(from, minute(duty.release)).is_none() {
        return Ok(());
    }
    let end = before_leave(problem, k, from, name_end(axis, list, duty.holder, i));
    match duty.holder {
        Holder::Pairing(p) if p < problem.pairings().len() => {
            if !is_first(list, i) {
                return Ok(());
            }
            push_band(alloc, out, axis, problem, p, end)
        }
        _ => push_label(alloc, out, axis, b"var", from, end, duty.id.as_bytes()),
    }
}

/// Appends the bars of the duties of the list of person `k`, with bands and names of pairings; those that the
/// reason speaks of are marked.
pub(crate) fn push_duties(
    alloc: Global,
    out: &mut Vec<u8>,
    axis: &Axis,
    problem: &Problem,
    k: usize,
    list: &DutyList,
    reason: Option<Reason>,
) -> Result<(), AllocError>
    requires { k < length problem.now.persons }
{
    for i in 0..list.len() {
        push_name(alloc, out, axis, problem, list, k, i)?;
        let before = if i > 0 { Some(list.duty(i - 1)) } else { None };
        push_duty(
            alloc,
            out,
            axis,
            problem,
            list.duty(i),
            before,
            is_told(reason, i),
        )?;
    }
    Ok(())
}

/// Appends the bar of a leave.
fn push_leave(
    alloc: Global,
    out: &mut Vec<u8>,
    axis: &Axis,
    leave: &Leave,
) -> Result<(), AllocError> {
    let Some(place) = axis.place(minute(leave.from), minute(leave.to)) else {
        return Ok(());
    };
    let from = axis.moment(alloc, leave.from)?;
    let to = axis.moment(alloc, leave.to)?;
    let title = format!(in alloc; "leave: {from} to {to}")?;
    push_open(alloc, out, b"b tabindex=\"-1\"", place, title.as_bytes())?;
    out.extend_from_slice(b"leave</b>")
}

/// Appends the bars of the leaves of person `k`.
pub(crate) fn push_leaves(
    alloc: Global,
    out: &mut Vec<u8>,
    axis: &Axis,
    problem: &Problem,
    k: usize,
) -> Result<(), AllocError>
    requires { k < length problem.now.persons }
{
    for position in problem.leave(k) {
        if let Some(leave) = problem.leaves().get(usize::from(*position)) {
            push_leave(alloc, out, axis, leave)?;
        }
    }
    Ok(())
}

/// Appends the mark of a recurrent rest, if the time is one.
fn push_rest(
    alloc: Global,
    out: &mut Vec<u8>,
    axis: &Axis,
    from: Minute,
    to: Minute,
) -> Result<(), AllocError> {
    if !is_recurrent(axis.days, from, to) {
        return Ok(());
    }
    let Some(place) = axis.place(minute(from), minute(to)) else {
        return Ok(());
    };
    let long = time(alloc, minute(to).saturating_sub(minute(from)))?;
    let title = format!(in alloc; "recurrent rest, {long}")?;
    push_open(alloc, out, b"s", place, title.as_bytes())?;
    out.extend_from_slice(b"</s>")
}

/// Appends the marks of the recurrent rests before, between and after the duties of the list.
pub(crate) fn push_rests(
    alloc: Global,
    out: &mut Vec<u8>,
    axis: &Axis,
    list: &DutyList,
) -> Result<(), AllocError> {
    let mut free = axis.days.mid(0);
    for i in 0..list.len() {
        let duty = list.duty(i);
        push_rest(alloc, out, axis, free, duty.report)?;
        free = free.max(duty.release);
    }
    push_rest(alloc, out, axis, free, axis.days.mid(axis.days.days()))
}

/// Whether the word of busy days has the day of the month, from 0.
fn is_busy(busy: u32, i: usize) -> bool {
    i < 32 && busy >> i & 1 == 1
}

/// Appends the ground of days off, from one day of the window up to another.
fn push_off(
    alloc: Global,
    out: &mut Vec<u8>,
    axis: &Axis,
    from: usize,
    to: usize,
) -> Result<(), AllocError> {
    let Some(place) = axis.place(midnight(axis.days, from), midnight(axis.days, to)) else {
        return Ok(());
    };
    let number = to.saturating_sub(from);
    let name = axis.day_name(alloc, from)?;
    let title = if number == 1 {
        format!(in alloc; "a day off, {name}")?
    } else {
        format!(in alloc; "{number} days off from {name}")?
    };
    push_open(alloc, out, b"u", place, title.as_bytes())?;
    out.extend_from_slice(b"</u>")
}

/// Appends the ground of the month's days off.
pub(crate) fn push_days_off(
    alloc: Global,
    out: &mut Vec<u8>,
    axis: &Axis,
    list: &DutyList,
) -> Result<(), AllocError> {
    let busy = busy_days(axis.days, list);
    let mut begun = None;
    for i in 0..axis.days.month_days() {
        let day = DAYS_BEFORE.saturating_add(i);
        match begun {
            None if !is_busy(busy, i) => begun = Some(day),
            Some(from) if is_busy(busy, i) => {
                push_off(alloc, out, axis, from, day)?;
                begun = None;
            }
            _ => {}
        }
    }
    match begun {
        Some(from) => {
            let end = DAYS_BEFORE.saturating_add(axis.days.month_days());
            push_off(alloc, out, axis, from, end)
        }
        None => Ok(()),
    }
}
