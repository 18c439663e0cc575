//! Open pairings: their rows, and why nobody has them.

ghost use Rattle.std.specs.Prelude.{◌≡◌, ◌<◌, length};

use crate::axis::{Axis, midnight};
use crate::bands::push_band;
use crate::bars::push_duty;
use crate::html::push_text;
use roster_desk_given::nearest;
use roster_desk_words::{Teller, push_all};
use roster_problem::{Problem, open_number};
use std::alloc::{AllocError, Global};

/// How many lines of reasons a page has, at most, unless each open pairing has [`FEWEST_LINES`].
const MOST_OPEN_LINES: usize = 3000;

/// How many lines of reasons an open pairing has, if the base has so many persons.
const FEWEST_LINES: usize = 3;

/// Whether the pairing is open.
pub(crate) fn is_open(problem: &Problem, places: &[u16], p: usize) -> bool {
    places.get(p) == Some(&open_number(problem))
}

/// How many pairings are open.
pub(crate) fn open_count(problem: &Problem, places: &[u16]) -> usize {
    let open = open_number(problem);
    places.iter().filter(|place| **place == open).count()
}

/// The row of an open pairing.
pub(crate) fn push_row(
    alloc: Global,
    out: &mut Vec<u8>,
    axis: &Axis,
    problem: &Problem,
    p: usize,
) -> Result<(), AllocError>
    requires { p < length problem.now.pairings }
{
    let pairing = problem.pairing(p);
    let name = pairing.id.as_bytes();
    let penalty = pairing.penalty;
    let cost = format!(in alloc; "open, which costs {penalty}")?;
    push_all(
        out,
        &[
            b"<tr><th scope=\"row\" tabindex=\"0\" title=\"",
            name,
            b": ",
        ],
    )?;
    push_all(
        out,
        &[
            cost.as_bytes(),
            b"\">",
            name,
            b" <span class=\"w k\">open</span></th>",
        ],
    )?;
    let digits = format!(in alloc; "<td class=\"m\">{penalty}</td><td><div class=\"t\">")?;
    out.extend_from_slice(digits.as_bytes())?;
    push_band(alloc, out, axis, problem, p, midnight(axis.days, axis.to))?;
    let mut before = None;
    for position in problem.duties_of(p) {
        if let Some(duty) = problem.duties().get(usize::from(*position)) {
            push_duty(alloc, out, axis, problem, duty, before, false)?;
            before = Some(duty);
        }
    }
    out.extend_from_slice(b"</div></td></tr>\n")
}

/// Appends an item of the list of reasons.
fn push_item(out: &mut Vec<u8>, line: &[u8]) -> Result<(), AllocError> {
    out.extend_from_slice(b"<li>")?;
    push_text(out, line.strip_suffix(b"\n").unwrap_or(line))?;
    out.extend_from_slice(b"</li>")
}

/// Appends why nobody has an open pairing: what is told first of it, and then the persons of its base, the
/// nearest first. The teller tells of these places.
pub(crate) fn push_reasons(
    alloc: Global,
    out: &mut Vec<u8>,
    problem: &Problem,
    places: &[u16],
    teller: &Teller<'_>,
    p: usize,
) -> Result<(), AllocError>
    requires covers { length places.now ≡ length problem.now.pairings }
    requires pairing { p < length problem.now.pairings }
    requires told { teller.now ≡ record { problem = problem.now; places = places.now } }
{
    let open = open_count(problem, places).max(1);
    let most = (MOST_OPEN_LINES / open).max(FEWEST_LINES);
    let name = problem.pairing(p).id.as_bytes();
    let mut summary = Vec::new(alloc);
    teller.push_summary(&mut summary, p)?;
    push_all(out, &[b"<details><summary>", name, b": "])?;
    push_text(out, summary.as_slice())?;
    out.extend_from_slice(b"</summary><ul>")?;
    let all = nearest(alloc, problem, places, p)?;
    for near in all.iter().take(most) {
        let mut line = Vec::new(alloc);
        teller.push_near(&mut line, p, near)?;
        push_item(out, line.as_slice())?;
    }
    let rest = all.len().saturating_sub(most);
    if rest > 0 {
        let more = format!(in alloc; "<li>{rest} other persons: roster-desk why --pairing ")?;
        push_all(out, &[more.as_bytes(), name, b"</li>"])?;
    }
    out.extend_from_slice(b"</ul></details>\n")
}
