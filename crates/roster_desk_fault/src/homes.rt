//! Pairings that likely don't end at their base, by their last sector.

use crate::alike::duties_of;
use crate::kinds::Kind;
use crate::rows::Record;
use crate::times::span_of;
use crate::warning::{Warning, warn};
use roster_desk_words::time;
use std::alloc::{AllocError, Global};
use std::str;

/// How many other pairings have to end with a duty from the same station, at least.
const OTHERS: usize = 4;

/// The last sector of a pairing.
#[derive(Clone, Copy)]
struct Last<'a> {
    /// The place of its record.
    at: usize,
    /// The pairing's base.
    base: &'a [u8],
    /// The station of the pairing's last duty.
    station: &'a [u8],
    /// How many minutes it takes.
    minutes: i64,
}

/// Whether the record is a sector of the duty at the place.
fn is_of(rows: &[Record], row: &Record, duty: usize) -> bool {
    match rows.get(duty) {
        Some(duty) => row.has(Kind::Sector, 1, duty.field(1)),
        None => false,
    }
}

/// The last sector of the pairing, if its last duty has one.
fn last_of<'a>(
    alloc: Global,
    rows: &'a [Record],
    pairing: &'a Record,
) -> Result<Option<Last<'a>>, AllocError> {
    let duties = duties_of(alloc, rows, pairing.field(1))?;
    let Some(duty) = duties.last().copied() else {
        return Ok(None);
    };
    let (Some(row), Some(at)) = (
        rows.get(duty),
        rows.iter().rposition(|row| is_of(rows, row, duty)),
    ) else {
        return Ok(None);
    };
    let Some(span) = rows.get(at).and_then(span_of) else {
        return Ok(None);
    };
    Ok(Some(Last {
        at,
        base: pairing.field(2),
        station: row.field(4),
        minutes: span.to.get().saturating_sub(span.from.get()),
    }))
}

/// The last sector of each pairing whose last duty has one.
fn last_sectors(alloc: Global, rows: &[Record]) -> Result<Vec<Last<'_>>, AllocError> {
    let mut all = Vec::new(alloc);
    for row in rows {
        if row.is(Kind::Pairing) {
            if let Some(last) = last_of(alloc, rows, row)? {
                all.push(last)?;
            }
        }
    }
    Ok(all)
}

/// The last sectors of the other pairings that end from the same station.
#[derive(Clone, Copy)]
struct Others {
    /// How many there are.
    count: usize,
    /// The minutes of the shortest and the longest.
    least: i64,
    most: i64,
}

/// Those of the others.
fn others_of(all: &[Last<'_>], last: Last<'_>) -> Others {
    let mut others = Others {
        count: 0,
        least: i64::MAX,
        most: 0,
    };
    for other in all {
        if other.at != last.at && other.base == last.base && other.station == last.station {
            others.count = others.count.saturating_add(1);
            others.least = others.least.min(other.minutes);
            others.most = others.most.max(other.minutes);
        }
    }
    others
}

/// Whether all of them fly one way, and this one can't be it: it takes less than half as long.
fn is_short(last: Last<'_>, others: Others) -> bool {
    let Others { count, least, most } = others;
    let is_one_way = count >= OTHERS && most.saturating_sub(least) <= least / 4;
    last.station != last.base && is_one_way && last.minutes < least / 2
}

/// Warnings of last sectors that are much shorter than all others from the same station to the base.
pub(crate) fn homes(alloc: Global, rows: &[Record]) -> Result<Vec<Warning>, AllocError> {
    let all = last_sectors(alloc, rows)?;
    let mut warnings = Vec::new(alloc);
    for last in &all {
        let others = others_of(&all, *last);
        if is_short(*last, others) {
            let own = time(alloc, last.minutes.unsigned_abs())?;
            let least = time(alloc, others.least.unsigned_abs())?;
            let station = str::from_utf8(last.station).unwrap_or("");
            let count = others.count;
            let why = format!(in alloc;
                "it takes {own}, and the last sectors of {count} other pairings from {station} take {least} at \
                 least; the pairing may not end at its base"
            )?;
            warn(&mut warnings, alloc, last.at, why.as_str())?;
        }
    }
    Ok(warnings)
}
