//! Minutes that are likely wrong: of flight before the month, of targets, and in whole hours.

use crate::alike::duties_of;
use crate::forms::number;
use crate::kinds::Kind;
use crate::rows::Record;
use crate::times::span_of;
use crate::warning::{Warning, warn};
use std::alloc::{AllocError, Global};

/// The minutes of flight that are a likely target of a month, at least.
const LEAST_TARGET: i64 = 300;

/// How many sectors, or persons, have to agree before it is told, at least.
const MANY: usize = 5;

/// How many sectors a pairing has before it is told that all are positioning, at least.
const MANY_SECTORS: usize = 3;

/// The number in the field; 0 if there is none.
fn number_in(row: &Record, i: usize) -> i64 {
    number(row.field(i)).unwrap_or(0)
}

/// Whether the book's month is a January.
fn is_january(rows: &[Record]) -> bool {
    rows.first()
        .is_some_and(|row| row.field(1).ends_with(b"-01"))
}

/// Warnings of minutes flown before the month.
pub(crate) fn years(alloc: Global, rows: &[Record]) -> Result<Vec<Warning>, AllocError> {
    let mut warnings = Vec::new(alloc);
    for (at, row) in rows.iter().enumerate() {
        if row.is(Kind::Crew) {
            if number_in(row, 4) > number_in(row, 5) {
                let why = "YEAR is more than ELEVEN, though its months are some of those eleven";
                warn(&mut warnings, alloc, at, why)?;
            } else if number_in(row, 4) > 0 && is_january(rows) {
                let why =
                    "YEAR is what was flown in the calendar year before the month, which is nothing in \
                     January";
                warn(&mut warnings, alloc, at, why)?;
            }
        }
    }
    Ok(warnings)
}

/// Warnings of targets.
pub(crate) fn targets(alloc: Global, rows: &[Record]) -> Result<Vec<Warning>, AllocError> {
    let mut warnings = Vec::new(alloc);
    for (at, row) in rows.iter().enumerate() {
        if row.is(Kind::Crew) {
            let target = number_in(row, 3);
            if target > 0 && target < LEAST_TARGET {
                let why = format!(in alloc;
                    "TARGET is {target} minutes of flight in the month; hours may be meant"
                )?;
                warn(&mut warnings, alloc, at, why.as_str())?;
            }
        }
    }
    Ok(warnings)
}

/// Whether the person has minutes before the month, all of them in whole hours.
fn is_in_hours(row: &Record) -> bool {
    number_in(row, 4) % 60 == 0 && number_in(row, 5) % 60 == 0
}

/// Whether the sector takes whole hours.
fn takes_hours(row: &Record) -> bool {
    span_of(row).is_some_and(|span| (span.to.get() - span.from.get()) % 60 == 0)
}

/// Whether the person has minutes before the month.
pub(crate) fn has_flown(row: &Record) -> bool {
    row.is(Kind::Crew) && number_in(row, 5) > 0
}

/// Whether the sector is operated.
pub(crate) fn is_operated(row: &Record) -> bool {
    row.has(Kind::Sector, 2, b"O")
}

/// Warnings of minutes that are whole hours in all records.
pub(crate) fn hours(alloc: Global, rows: &[Record]) -> Result<Vec<Warning>, AllocError> {
    let mut warnings = Vec::new(alloc);
    let flown = rows.iter().filter(|row| has_flown(row)).count();
    let flown_hours = rows
        .iter()
        .filter(|row| has_flown(row) && is_in_hours(row))
        .count();
    if flown >= MANY && flown_hours == flown {
        if let Some(at) = rows.iter().position(|row| has_flown(row)) {
            let why = format!(in alloc;
                "YEAR and ELEVEN of all {flown} persons who have flown are whole hours, so they may be \
                 rounded"
            )?;
            warn(&mut warnings, alloc, at, why.as_str())?;
        }
    }
    let sectors = rows.iter().filter(|row| is_operated(row)).count();
    let sector_hours = rows
        .iter()
        .filter(|row| is_operated(row) && takes_hours(row))
        .count();
    if sectors >= MANY && sector_hours == sectors {
        if let Some(at) = rows.iter().position(|row| is_operated(row)) {
            let why = format!(in alloc;
                "all {sectors} operated sectors take whole hours, so their times may be rounded"
            )?;
            warn(&mut warnings, alloc, at, why.as_str())?;
        }
    }
    Ok(warnings)
}

/// The warning that no sector is operated, or of pairings whose sectors are all positioning.
pub(crate) fn positioning(alloc: Global, rows: &[Record]) -> Result<Vec<Warning>, AllocError> {
    let mut warnings = Vec::new(alloc);
    if rows.iter().any(|row| is_operated(row)) {
        idle_pairings(alloc, rows, &mut warnings)?;
    } else if let Some(at) = rows.iter().position(|row| row.is(Kind::Sector)) {
        let why =
            "all sectors of the book are positioning, so nobody has flight; O is an operated one";
        warn(&mut warnings, alloc, at, why)?;
    }
    Ok(warnings)
}

/// Warnings of pairings that have some sectors, none of which is operated.
fn idle_pairings(
    alloc: Global,
    rows: &[Record],
    warnings: &mut Vec<Warning>,
) -> Result<(), AllocError> {
    for (at, row) in rows.iter().enumerate() {
        if !row.is(Kind::Pairing) {
            continue;
        }
        let duties = duties_of(alloc, rows, row.field(1))?;
        let (all, operated) = sectors_of(rows, &duties);
        if all >= MANY_SECTORS && operated == 0 {
            let why = "all sectors of the pairing are positioning; O is an operated one";
            warn(warnings, alloc, at, why)?;
        }
    }
    Ok(())
}

/// How many sectors the duties at these places have, and how many of them are operated.
fn sectors_of(rows: &[Record], duties: &[usize]) -> (usize, usize) {
    let (mut all, mut operated) = (0usize, 0usize);
    for row in rows {
        let its = duties.iter().any(|at| rows
            .get(*at)
            .is_some_and(|duty| duty.field(1) == row.field(1)));
        if its && row.is(Kind::Sector) {
            all = all.saturating_add(1);
            if is_operated(row) {
                operated = operated.saturating_add(1);
            }
        }
    }
    (all, operated)
}
