//! Rests that are likely too short: in a pairing, between fixed duties, and where somebody is away.

use crate::alike::duties_of;
use crate::kinds::Kind;
use crate::rows::Record;
use crate::seen::Span;
use crate::times::span_of;
use crate::warning::{Warning, warn};
use roster_desk_words::time;
use roster_model::profile::{REST_AT_HOME, REST_AWAY};
use std::alloc::{AllocError, Global};
use std::str;

/// A pause between fixed duties that is as long as this is meant to be a rest.
const PAUSE: i64 = 4 * 60;

/// The minutes from the release of one to the report of the other.
fn rest_between(one: Span, other: Span) -> i64 {
    other.from.get().saturating_sub(one.to.get())
}

/// The rest that is wanted before the duty at this station, behind one of so many minutes.
fn wanted(home: bool, duty: i64) -> i64 {
    let least = if home { REST_AT_HOME } else { REST_AWAY };
    duty.max(i64::from(least))
}

/// Warnings of pairings with a rest that nobody is allowed.
pub(crate) fn short_rests(alloc: Global, rows: &[Record]) -> Result<Vec<Warning>, AllocError> {
    let mut warnings = Vec::new(alloc);
    for row in rows {
        if row.is(Kind::Pairing) {
            let duties = duties_of(alloc, rows, row.field(1))?;
            short_rests_of(alloc, rows, row.field(2), &duties, &mut warnings)?;
        }
    }
    Ok(warnings)
}

/// Puts the warnings of a pairing's rests behind the others.
fn short_rests_of(
    alloc: Global,
    rows: &[Record],
    base: &[u8],
    duties: &[usize],
    warnings: &mut Vec<Warning>,
) -> Result<(), AllocError> {
    let mut before: Option<Span> = None;
    for at in duties {
        let Some(row) = rows.get(*at) else {
            return Ok(());
        };
        let now = span_of(row);
        if let (Some(before), Some(now)) = (before, now) {
            let duty = before.to.get().saturating_sub(before.from.get());
            let least = wanted(row.field(4) == base, duty);
            warn_short(alloc, *at, rest_between(before, now), least, warnings)?;
        }
        before = now;
    }
    Ok(())
}

/// Warns of the duty at the place if the rest before it is shorter than the least one.
fn warn_short(
    alloc: Global,
    at: usize,
    rest: i64,
    least: i64,
    warnings: &mut Vec<Warning>,
) -> Result<(), AllocError> {
    if rest >= least {
        return Ok(());
    }
    let given = time(alloc, rest.max(0).unsigned_abs())?;
    let wanted = time(alloc, least.unsigned_abs())?;
    let why = format!(in alloc;
        "the rest before it in its pairing is {given}, and {wanted} is wanted, so nobody can fly the pairing"
    )?;
    warn(warnings, alloc, at, why.as_str())
}

/// Whether it is a fixed duty.
fn is_fixed(row: &Record) -> bool {
    row.has(Kind::Duty, 2, b"C")
}

/// The rest from the release of a fixed duty to the person's next one; none if there is no next one.
fn rest_behind(rows: &[Record], row: &Record, span: Span) -> Option<i64> {
    let mut least: Option<i64> = None;
    for next in rows {
        if is_fixed(next) && next.field(3) == row.field(3) {
            let rest = rest_between(span, span_of(next)?);
            if rest >= 0 && least.is_none_or(|known| rest < known) {
                least = Some(rest);
            }
        }
    }
    least
}

/// Warnings of fixed duties of one person with too short a rest between them.
pub(crate) fn fixed_rests(alloc: Global, rows: &[Record]) -> Result<Vec<Warning>, AllocError> {
    let mut warnings = Vec::new(alloc);
    for (at, row) in rows.iter().enumerate() {
        if !is_fixed(row) {
            continue;
        }
        let Some(span) = span_of(row) else {
            continue;
        };
        let rest = rest_behind(rows, row, span).unwrap_or(0);
        if rest > PAUSE && rest < i64::from(REST_AWAY) {
            let given = time(alloc, rest.unsigned_abs())?;
            let why = format!(in alloc;
                "the person's next fixed duty reports {given} behind it, which is no rest; fixed duties aren't judged"
            )?;
            warn(&mut warnings, alloc, at, why.as_str())?;
        }
    }
    Ok(warnings)
}

/// From the first report of a pairing to its last release.
fn away(rows: &[Record], duties: &[usize]) -> Option<Span> {
    let first = span_of(rows.get(*duties.first()?)?)?;
    let last = span_of(rows.get(*duties.last()?)?)?;
    Some(Span {
        from: first.from,
        to: last.to,
    })
}

/// Whether the record is the person's leave or fixed duty in this time.
fn is_within(row: &Record, person: &[u8], away: &Span) -> bool {
    if !row.has(Kind::Leave, 1, person) && !(is_fixed(row) && row.field(3) == person) {
        return false;
    }
    match span_of(row) {
        Some(span) => span.shares(*away),
        None => false,
    }
}

/// Puts the warnings of what a person has to do while away with the pairing of an `assign` record.
fn push_layovers(
    alloc: Global,
    rows: &[Record],
    given: &Record,
    time_away: &Span,
    warnings: &mut Vec<Warning>,
) -> Result<(), AllocError> {
    let name = str::from_utf8(given.field(1)).unwrap_or("");
    let person = given.field(2);
    for (at, row) in rows.iter().enumerate() {
        if is_within(row, person, time_away) {
            let why = format!(in alloc; "the person is away then with `{name}`")?;
            warn(warnings, alloc, at, why.as_str())?;
        }
    }
    Ok(())
}

/// Warnings of leave and fixed duties of persons who are away then with a pairing that the book gives them.
pub(crate) fn layovers(alloc: Global, rows: &[Record]) -> Result<Vec<Warning>, AllocError> {
    let mut warnings = Vec::new(alloc);
    for row in rows {
        if row.is(Kind::Assign) {
            let duties = duties_of(alloc, rows, row.field(1))?;
            if let Some(span) = away(rows, &duties) {
                push_layovers(alloc, rows, row, &span, &mut warnings)?;
            }
        }
    }
    Ok(warnings)
}
