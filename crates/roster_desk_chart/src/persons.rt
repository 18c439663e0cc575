//! A person's row.

ghost use Rattle.std.specs.Prelude.{◌≡◌, ◌<◌, length};

use crate::axis::Axis;
use crate::bars::{push_days_off, push_duties, push_leaves, push_rests};
use crate::html::push_text;
use crate::meters::push_meters;
use roster_desk_given::{Zones, broken_with, duties_with};
use roster_desk_sheets::Names;
use roster_desk_words::{push_all, push_reason};
use roster_legal_reasons::Reason;
use roster_problem::{DutyList, Problem};
use std::alloc::{AllocError, Global};

/// What instants and persons are told by.
#[derive(Clone, Copy)]
pub struct Words<'a> {
    /// The zones of the book's bases.
    pub zones: &'a Zones,
    /// What persons are called.
    pub names: &'a Names,
}

/// Appends what the head of the row begins with: the person's code, and the name if there is another one.
fn push_code(out: &mut Vec<u8>, code: &[u8], called: &[u8]) -> Result<(), AllocError> {
    push_all(out, &[b"<th scope=\"row\" tabindex=\"0\" title=\"", code])?;
    if called != code {
        out.extend_from_slice(b", ")?;
        push_text(out, called)?;
    }
    Ok(())
}

/// Appends the head of the row: the name, and the word of the rule that the person breaks.
fn push_name(
    alloc: Global,
    out: &mut Vec<u8>,
    problem: &Problem,
    words: Words<'_>,
    k: usize,
    list: &DutyList,
    told: Option<Reason>,
) -> Result<(), AllocError>
    requires { k < length problem.now.persons }
{
    let code = problem.person(k).id.as_bytes();
    let called = words.names.of(alloc, code)?;
    let called = called.as_slice();
    push_code(out, code, called)?;
    let Some(told) = told else {
        out.extend_from_slice(b": no rule is broken\">")?;
        push_text(out, called)?;
        return out.extend_from_slice(b"</th>");
    };
    let mut sentence = Vec::new(alloc);
    push_reason(alloc, &mut sentence, problem, words.zones, k, list, told)?;
    out.extend_from_slice(b" ")?;
    out.extend_from_slice(told.rule().word().as_bytes())?;
    out.extend_from_slice(b": ")?;
    push_text(out, sentence.as_slice())?;
    out.extend_from_slice(b"\">")?;
    push_text(out, called)?;
    out.extend_from_slice(b" <span class=\"w\">")?;
    out.extend_from_slice(told.rule().word().as_bytes())?;
    out.extend_from_slice(b"</span></th>")
}

/// Appends the row of person `k` with what the roster gives, which needn't be legal.
pub(crate) fn push_person(
    alloc: Global,
    out: &mut Vec<u8>,
    axis: &Axis,
    problem: &Problem,
    words: Words<'_>,
    places: &[u16],
    k: usize,
) -> Result<(), AllocError>
    requires covers { length places.now ≡ length problem.now.pairings }
    requires person { k < length problem.now.persons }
{
    let list = duties_with(alloc, problem, places, k)?;
    let told = broken_with(alloc, problem, places, k)?;
    out.extend_from_slice(b"<tr>")?;
    push_name(alloc, out, problem, words, k, &list, told)?;
    out.extend_from_slice(b"<td class=\"m\">")?;
    push_meters(alloc, out, problem, k, &list)?;
    out.extend_from_slice(b"</td><td><div class=\"t\">")?;
    push_days_off(alloc, out, axis, &list)?;
    push_rests(alloc, out, axis, &list)?;
    push_leaves(alloc, out, axis, problem, k)?;
    push_duties(alloc, out, axis, problem, k, &list, told)?;
    out.extend_from_slice(b"</div></td></tr>\n")
}
