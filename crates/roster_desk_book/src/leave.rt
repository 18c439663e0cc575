//! The records of leave.

use crate::asked::Asked;
use crate::draft::Draft;
use crate::spans::{Span, passed, reached, second_text, window_of};
use crate::taken::Taken;
use jiff::tz::TimeZone;
use roster_desk_fault::Kind;
use roster_desk_folder::{Leave, Person, Tables, When};
use roster_desk_sheets::Place;
use std::alloc::{AllocError, Global};

/// When a person isn't there.
#[derive(Clone, Copy)]
struct Away {
    // The place of the person.
    person: usize,
    span: Span,
    place: Place,
}

/// The second at which a leave begins.
fn from_of(zone: &TimeZone<'static>, when: When) -> i64 {
    match when {
        When::On(date) => reached(zone, date),
        When::At(at) => at.as_second(),
    }
}

/// The second at which a leave ends: with its last date.
fn to_of(zone: &TimeZone<'static>, when: When) -> i64 {
    match when {
        When::On(date) => passed(zone, date),
        When::At(at) => at.as_second(),
    }
}

/// When a leave is.
fn span_of(zone: &TimeZone<'static>, leave: &Leave) -> Span {
    Span {
        from: from_of(zone, leave.from),
        to: to_of(zone, leave.to),
    }
}

/// Puts the span behind the others, as far as the window has it. One that ends no later than it begins is
/// put there as it is, so that it is told.
fn push_span(
    aways: &mut Vec<Away>,
    window: Span,
    person: usize,
    span: Span,
    place: Place,
) -> Result<(), AllocError> {
    let cut = if span.is_empty() {
        span
    } else {
        span.within(window)
    };
    let is_told = span.is_empty() && !span.is_out();
    if is_told || !cut.is_empty() {
        aways.push(Away {
            person,
            span: cut,
            place,
        })?;
    }
    Ok(())
}

/// Puts the time before the person comes, and behind the last date, behind the others.
fn push_absence(
    aways: &mut Vec<Away>,
    zone: &TimeZone<'static>,
    window: Span,
    k: usize,
    person: &Person,
) -> Result<(), AllocError> {
    if let Some(date) = person.from {
        let span = Span {
            from: window.from,
            to: reached(zone, date),
        };
        if !span.is_empty() {
            push_span(aways, window, k, span, person.place)?;
        }
    }
    if let Some(date) = person.to {
        let span = Span {
            from: passed(zone, date),
            to: window.to,
        };
        if !span.is_empty() {
            push_span(aways, window, k, span, person.place)?;
        }
    }
    Ok(())
}

/// Puts all times at which the person at the place isn't there behind the others.
fn push_aways(
    aways: &mut Vec<Away>,
    asked: &Asked<'_>,
    tables: &Tables,
    k: usize,
    person: &Person,
) -> Result<(), AllocError> {
    let Some(zone) = tables.stations.zone(person.base.as_slice()) else {
        return Ok(());
    };
    let Some(window) = window_of(zone, asked.first()) else {
        return Ok(());
    };
    push_absence(aways, zone, window, k, person)?;
    for leave in &tables.leaves {
        if leave.person == k {
            push_span(aways, window, k, span_of(zone, leave), leave.place)?;
        }
    }
    Ok(())
}

/// All times at which persons of the book aren't there, person by person, by their begin.
fn aways_of(
    alloc: Global,
    asked: &Asked<'_>,
    tables: &Tables,
    taken: &Taken,
) -> Result<Vec<Away>, AllocError> {
    let mut aways = Vec::new(alloc);
    for (k, person) in tables.persons.iter().enumerate() {
        if taken.has_person(k) {
            push_aways(&mut aways, asked, tables, k, person)?;
        }
    }
    aways.sort_by_key(|away| (away.person, away.span.from))?;
    Ok(aways)
}

/// Both as one, if they are of one person and share a second or touch.
fn joined(one: Away, other: Away) -> Option<Away> {
    let touch = other.span.from <= one.span.to;
    if one.person != other.person || !touch || one.span.is_empty() || other.span.is_empty() {
        return None;
    }
    let span = Span {
        from: one.span.from,
        to: one.span.to.max(other.span.to),
    };
    Some(Away { span, ..one })
}

/// The record of a leave.
fn push_leave(draft: &mut Draft, tables: &Tables, away: Away) -> Result<(), AllocError> {
    let Some(person) = tables.persons.get(away.person) else {
        return Ok(());
    };
    let from = second_text(draft.alloc, away.span.from)?;
    let to = second_text(draft.alloc, away.span.to)?;
    draft.push(
        Kind::Leave,
        away.place,
        &[
            b"leave",
            person.name.as_slice(),
            from.as_bytes(),
            to.as_bytes(),
        ],
    )
}

/// The records of leave: of what lies in the window, with what shares a minute or touches as one.
pub(crate) fn push_leaves(
    draft: &mut Draft,
    asked: &Asked<'_>,
    tables: &Tables,
    taken: &Taken,
) -> Result<(), AllocError> {
    let aways = aways_of(draft.alloc, asked, tables, taken)?;
    let mut open: Option<Away> = None;
    for away in &aways {
        open = match open {
            None => Some(*away),
            Some(before) => match joined(before, *away) {
                Some(both) => Some(both),
                None => {
                    push_leave(draft, tables, before)?;
                    Some(*away)
                }
            },
        };
    }
    match open {
        Some(last) => push_leave(draft, tables, last),
        None => Ok(()),
    }
}
