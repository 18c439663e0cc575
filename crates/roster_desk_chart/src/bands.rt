//! Pairings as bands, each with its name once, and names that don't run over one another.

ghost use Rattle.std.specs.Prelude.{◌≡◌, ◌<◌, ◌≤◌, ℕ, false, length, slice_get, Some};
ghost use Rattle.roster_model.specs.records.Duty as model;
ghost use Rattle.roster_problem.specs.View.{holder_of};
ghost use Rattle.roster_desk_chart.specs.Bands as spec;

use crate::axis::{Axis, midnight, minute};
use crate::html::{percent, push_text};
use roster_desk_words::push_all;
use roster_problem::{Duty, DutyList, Holder, Problem};
use std::alloc::{AllocError, Global};

/// The colour of the pairing at place `p`, in degrees: neighbours in the book get colours that lie far apart.
pub(crate) fn hue_of(p: usize) -> usize {
    p.saturating_mul(137) % 360
}

/// Whether both are of one pairing.
fn is_one(one: Holder, other: Holder) -> bool
    ensures { result ≡ spec.is_one (holder_of one) (holder_of other) }
{
    match (one, other) {
        (Holder::Pairing(p), Holder::Pairing(q)) => p == q,
        _ => false,
    }
}

/// The minute, or the report of the duty at place `j` of the list if that is earlier, and the duty is of
/// something else and stands behind place `i`.
fn end_at(list: &DutyList, own: Holder, i: usize, j: usize, end: u64) -> u64
    requires { j < length list.now }
    ensures least { result ≤ end }
    ensures report { (duty : model.Duty) → slice_get list.now j ≡ Some duty → i < j
        → spec.is_one (holder_of own) duty.holder ≡ false → result ≤ duty.report }
{
    let duty = list.duty(j);
    if i < j && !is_one(own, duty.holder) {
        end.min(minute(duty.report))
    } else {
        end
    }
}

/// Up to where the name may reach of what the duty at place `i` of the list is of: no later than the report
/// of any later duty of something else, or the end of the days that are drawn.
pub(crate) fn name_end(axis: &Axis, list: &DutyList, own: Holder, i: usize) -> u64
    ensures { (j : ℕ) → j < length list.now → (duty : model.Duty) → slice_get list.now j ≡ Some duty
        → i < j → spec.is_one (holder_of own) duty.holder ≡ false → result ≤ duty.report }
{
    let mut end = midnight(axis.days, axis.to);
    for j in 0..list.len() {
        end = end_at(list, own, i, j, end);
    }
    end
}

/// The same if the person's leave begins before that, behind this minute.
pub(crate) fn before_leave(problem: &Problem, k: usize, from: u64, end: u64) -> u64
    requires { k < length problem.now.persons }
    ensures { result ≤ end }
{
    let mut end = end;
    for position in problem.leave(k) {
        if let Some(leave) = problem.leaves().get(usize::from(*position)) {
            let begin = minute(leave.from);
            if from < begin {
                end = end.min(begin);
            }
        }
    }
    end
}

/// Whether no duty before the one at place `i` of the list is of its pairing.
pub(crate) fn is_first(list: &DutyList, i: usize) -> bool
    requires { i < length list.now }
{
    let own = list.duty(i).holder;
    for j in 0..i {
        if is_one(own, list.duty(j).holder) {
            return false;
        }
    }
    true
}

/// Appends a name from one minute to another, of which what is too long is cut off.
pub(crate) fn push_label(
    alloc: Global,
    out: &mut Vec<u8>,
    axis: &Axis,
    tag: &[u8],
    from: u64,
    to: u64,
    name: &[u8],
) -> Result<(), AllocError> {
    let Some(place) = axis.place(from, to) else {
        return Ok(());
    };
    let left = percent(alloc, place.left)?;
    let width = percent(alloc, place.width)?;
    push_all(out, &[b"<", tag, b" style=\"left:", left.as_bytes()])?;
    push_all(out, &[b";width:", width.as_bytes(), b"\">"])?;
    push_text(out, name)?;
    out.extend_from_slice(b"</var>")
}

/// Appends the station of each layover between duties of the pairing at place `p`.
fn push_layovers(
    alloc: Global,
    out: &mut Vec<u8>,
    axis: &Axis,
    problem: &Problem,
    p: usize,
) -> Result<(), AllocError>
    requires { p < length problem.now.pairings }
{
    let mut before: Option<&Duty> = None;
    for position in problem.duties_of(p) {
        let Some(duty) = problem.duties().get(usize::from(*position)) else {
            continue;
        };
        if let Some(before) = before {
            let (from, to) = (minute(before.release), minute(duty.report));
            let station = duty.station.as_bytes();
            push_label(alloc, out, axis, b"var class=\"l\"", from, to, station)?;
        }
        before = Some(duty);
    }
    Ok(())
}

/// Appends the band from the first duty of a pairing to the last.
fn push_span(
    alloc: Global,
    out: &mut Vec<u8>,
    axis: &Axis,
    problem: &Problem,
    p: usize,
    first: &Duty,
    last: &Duty,
) -> Result<(), AllocError>
    requires { p < length problem.now.pairings }
{
    let Some(place) = axis.place(minute(first.report), minute(last.release)) else {
        return Ok(());
    };
    let from = axis.moment(alloc, first.report)?;
    let to = axis.moment(alloc, last.release)?;
    let duties = problem.duties_of(p).len();
    let mut title = Vec::new(alloc);
    push_all(&mut title, &[problem.pairing(p).id.as_bytes()])?;
    let told = format!(in alloc; ": {from} to {to}, {duties} duties")?;
    title.extend_from_slice(told.as_bytes())?;
    let left = percent(alloc, place.left)?;
    let width = percent(alloc, place.width)?;
    let hue = hue_of(p);
    let head = format!(in alloc;
        "<u class=\"p\" style=\"left:{left};width:{width};--h:{hue}\" title=\""
    )?;
    out.extend_from_slice(head.as_bytes())?;
    push_text(out, title.as_slice())?;
    out.extend_from_slice(b"\"></u>")
}

/// Appends the band of the pairing at place `p`, with the stations of its layovers, and its name, which may
/// reach up to the minute. A pairing of one duty has no band but that.
pub(crate) fn push_band(
    alloc: Global,
    out: &mut Vec<u8>,
    axis: &Axis,
    problem: &Problem,
    p: usize,
    end: u64,
) -> Result<(), AllocError>
    requires { p < length problem.now.pairings }
{
    let positions = problem.duties_of(p);
    let (Some(first), Some(last)) = (positions.first(), positions.last()) else {
        return Ok(());
    };
    let duties = problem.duties();
    let (Some(first), Some(last)) = (
        duties.get(usize::from(*first)),
        duties.get(usize::from(*last)),
    ) else {
        return Ok(());
    };
    if positions.len() > 1 {
        push_span(alloc, out, axis, problem, p, first, last)?;
        push_layovers(alloc, out, axis, problem, p)?;
    }
    let name = problem.pairing(p).id.as_bytes();
    push_label(alloc, out, axis, b"var", minute(first.report), end, name)
}
