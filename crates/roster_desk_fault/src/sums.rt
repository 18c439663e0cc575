//! Amounts of a whole book that are likely wrong: costs that say nothing, and targets that can't be met.

use crate::forms::number;
use crate::kinds::Kind;
use crate::numbers::{has_flown, is_operated};
use crate::rows::Record;
use crate::times::span_of;
use crate::warning::{Warning, warn};
use roster_desk_words::time;
use std::alloc::{AllocError, Global};

/// How many persons or pairings have to agree before it is told, at least.
const MANY: usize = 5;

/// The most minutes flown in eleven months that are likely hours.
const MOST_HOURS: i64 = 1000;

/// So many they are on average, at least.
const FEW_HOURS: i64 = 200;

/// Targets and what there is to fly are told if they differ by more than one part of so many of the
/// greater one.
const PARTS: i64 = 20;

/// The sum of a number in a field over all records of the kind.
fn sum_of(rows: &[Record], kind: Kind, i: usize) -> i64 {
    let mut sum: i64 = 0;
    for row in rows {
        if row.is(kind) {
            sum = sum.saturating_add(number(row.field(i)).unwrap_or(0));
        }
    }
    sum
}

/// How many records of the kind have a number other than 0 in the field.
fn count_of(rows: &[Record], kind: Kind, i: usize) -> usize {
    rows.iter()
        .filter(|row| row.is(kind) && number(row.field(i)).unwrap_or(0) != 0)
        .count()
}

/// The warning of the first record of the kind.
fn warn_first(
    alloc: Global,
    rows: &[Record],
    kind: Kind,
    why: &str,
) -> Result<Vec<Warning>, AllocError> {
    let mut warnings = Vec::new(alloc);
    if let Some(at) = rows.iter().position(|row| row.is(kind)) {
        warn(&mut warnings, alloc, at, why)?;
    }
    Ok(warnings)
}

/// The warning that missed targets cost nothing.
pub(crate) fn weights(alloc: Global, rows: &[Record]) -> Result<Vec<Warning>, AllocError> {
    let targets = count_of(rows, Kind::Crew, 3);
    if targets < MANY || sum_of(rows, Kind::Weight, 1) > 0 {
        return Ok(Vec::new(alloc));
    }
    let why = format!(in alloc;
        "{targets} persons have a TARGET, but the weight is 0, so a missed target costs nothing"
    )?;
    warn_first(alloc, rows, Kind::Crew, why.as_str())
}

/// The warning that open pairings cost nothing.
pub(crate) fn penalties(alloc: Global, rows: &[Record]) -> Result<Vec<Warning>, AllocError> {
    let pairings = rows.iter().filter(|row| row.is(Kind::Pairing)).count();
    if pairings < MANY || sum_of(rows, Kind::Pairing, 3) > 0 {
        return Ok(Vec::new(alloc));
    }
    let why = "every PENALTY is 0, so a pairing may stay open at no cost";
    warn_first(alloc, rows, Kind::Pairing, why)
}

/// The warning that what was flown before the month is likely given in hours.
pub(crate) fn flown_hours(alloc: Global, rows: &[Record]) -> Result<Vec<Warning>, AllocError> {
    let mut warnings = Vec::new(alloc);
    let flown = count_of(rows, Kind::Crew, 5);
    let much = rows.iter().any(|row| row.is(Kind::Crew)
        && number(row.field(5)).unwrap_or(0) > MOST_HOURS);
    let few = sum_of(rows, Kind::Crew, 5) / FEW_HOURS;
    if flown < MANY || much || usize::try_from(few).unwrap_or(0) < flown {
        return Ok(warnings);
    }
    if let Some(at) = rows.iter().position(|row| has_flown(row)) {
        let why = format!(in alloc;
            "ELEVEN of all {flown} persons who have flown is {MOST_HOURS} minutes at most; hours may be meant"
        )?;
        warn(&mut warnings, alloc, at, why.as_str())?;
    }
    Ok(warnings)
}

/// Whether the record says what a person did before the month.
fn is_history(row: &Record, month: &[u8]) -> bool {
    let flown = row.is(Kind::Crew) && number(row.field(5)).unwrap_or(0) > 0;
    let report = row.field(5);
    flown || row.has(Kind::Duty, 2, b"C") && !report.starts_with(month) && report < month
}

/// The warning that nobody has a past.
pub(crate) fn histories(alloc: Global, rows: &[Record]) -> Result<Vec<Warning>, AllocError> {
    let month = rows.first().map_or(b"".as_slice(), |row| row.field(1));
    let persons = rows.iter().filter(|row| row.is(Kind::Crew)).count();
    let busy = rows
        .iter()
        .any(|row| row.is(Kind::Leave) || row.has(Kind::Duty, 2, b"C"));
    if persons < MANY || !busy || rows.iter().any(|row| is_history(row, month)) {
        return Ok(Vec::new(alloc));
    }
    let why =
        "nobody has ELEVEN or a fixed duty before the month, so rests and sums begin at nothing";
    warn_first(alloc, rows, Kind::Crew, why)
}

/// The minutes of the operated sectors that begin in the month.
fn flight_of(rows: &[Record]) -> i64 {
    let month = rows.first().map_or(b"".as_slice(), |row| row.field(1));
    let mut sum: i64 = 0;
    for row in rows {
        if is_operated(row) && row.field(3).starts_with(month) {
            let minutes = span_of(row).map_or(0, |span| span.to.get() - span.from.get());
            sum = sum.saturating_add(minutes);
        }
    }
    sum
}

/// The warning that all targets together are another flight than there is in the month. A book without
/// pairings is one that waits for them.
pub(crate) fn shares(alloc: Global, rows: &[Record]) -> Result<Vec<Warning>, AllocError> {
    if !rows.iter().any(|row| row.is(Kind::Pairing)) {
        return Ok(Vec::new(alloc));
    }
    let persons = rows.iter().filter(|row| row.is(Kind::Crew)).count();
    let targets = sum_of(rows, Kind::Crew, 3);
    let flight = flight_of(rows);
    let far = targets.saturating_sub(flight).saturating_abs() > targets.max(flight) / PARTS;
    let all = count_of(rows, Kind::Crew, 3) == persons;
    if persons < MANY || !all || !far || sum_of(rows, Kind::Weight, 1) == 0 {
        return Ok(Vec::new(alloc));
    }
    let wanted = time(alloc, targets.unsigned_abs())?;
    let there = time(alloc, flight.unsigned_abs())?;
    let why = format!(in alloc;
        "all targets come to {wanted} of flight, and the sectors of the month to {there}: \
         some persons miss theirs whatever the roster is"
    )?;
    warn_first(alloc, rows, Kind::Crew, why.as_str())
}
