//! Duties that are likely wrong, and persons of whom nothing is given.

use crate::kinds::Kind;
use crate::rows::Record;
use crate::seen::{Seen, Span};
use crate::times::span_of;
use crate::warning::{Warning, warn};
use roster_desk_words::time;
use roster_instants::{BaseDays, Minute};
use std::alloc::{AllocError, Global};

/// The minutes that a likely duty takes, at most.
const LONGEST_DUTY: i64 = 16 * 60;

/// How many reports or duties have to be at night before it is told, at least.
const MANY_REPORTS: usize = 8;

/// Duties are told of if more than so many times as many touch the night as would if their times were local.
const TIMES_MORE: usize = 3;

/// How many leaves of a base have to be of whole days in UTC and not by its clocks before it is told, at
/// least.
const MANY_LEAVES: usize = 5;

/// The minutes of a day, and those of it before its night's end and begin.
const DAY: i64 = 1440;

const NIGHT_ENDS: i64 = 5 * 60;

const NIGHT_BEGINS: i64 = 23 * 60;

/// How many persons of a base there have to be before one of whom nothing is given is told, at least.
const MANY_PERSONS: usize = 4;

/// The minutes of a duty or leave.
fn minutes_of(row: &Record) -> i64 {
    span_of(row).map_or(0, |span| span.to.get() - span.from.get())
}

/// Warnings of duties that are longer than a likely one.
pub(crate) fn long_duties(alloc: Global, rows: &[Record]) -> Result<Vec<Warning>, AllocError> {
    let mut warnings = Vec::new(alloc);
    for (at, row) in rows.iter().enumerate() {
        if row.is(Kind::Duty) && minutes_of(row) > LONGEST_DUTY {
            let minutes = time(alloc, minutes_of(row).unsigned_abs())?;
            let why = format!(in alloc;
                "the duty takes {minutes}, which is more than 16 hours; each night of a pairing ends a duty"
            )?;
            warn(&mut warnings, alloc, at, why.as_str())?;
        }
    }
    Ok(warnings)
}

/// Whether the clocks of the base show UTC at the begin and the end of the window.
fn shows_utc(days: &BaseDays) -> bool {
    days.mid(0).get() % DAY == 0 && days.mid(days.days()).get() % DAY == 0
}

/// When the night of a day of the window begins, at 23:00 by the clocks of the base, and when the one before
/// it ends, at 05:00.
fn night_of(days: &BaseDays, minute: Minute) -> Option<(i64, i64)> {
    let day = days.day_of(minute)?;
    if day >= days.days() {
        return None;
    }
    let late = days.ten(day).get().saturating_add(60);
    Some((late, days.eight(day).get().saturating_sub(180)))
}

/// Whether a duty reports from 23:00 to 05:00 by the clocks of the base.
fn reports_at_night(days: &BaseDays, span: &Span) -> bool {
    night_of(days, span.from).is_some_and(|(late, early)| {
        span.from.get() >= late || span.from.get() < early
    })
}

/// Whether a minute of a duty lies there.
fn touches_night(days: &BaseDays, span: &Span) -> bool {
    night_of(days, span.from).is_some_and(|(late, early)| {
        span.to.get() > late || span.from.get() < early
    })
}

/// Whether a minute of a duty would lie there if its times were those of the clocks.
fn is_written_at_night(span: &Span) -> bool {
    let from = span.from.get() % DAY;
    let minutes = span.to.get() - span.from.get();
    from < NIGHT_ENDS || from.saturating_add(minutes) > NIGHT_BEGINS
}

/// The names of the base's pairings.
fn pairings_of<'a>(
    alloc: Global,
    rows: &'a [Record],
    base: &[u8],
) -> Result<Vec<&'a [u8]>, AllocError> {
    let mut names = Vec::new(alloc);
    for row in rows {
        if row.has(Kind::Pairing, 2, base) {
            names.push(row.field(1))?;
        }
    }
    Ok(names)
}

/// How many duties the pairings of a base have, and how many of these lie at night in which sense.
#[derive(Clone, Copy)]
struct Counts {
    /// All.
    all: usize,
    /// Those that report at night.
    reports: usize,
    /// Those with a minute at night.
    touching: usize,
    /// Those that would have one if their times were local.
    written: usize,
}

impl Counts {
    /// No duties.
    const NONE: Counts = Counts {
        all: 0,
        reports: 0,
        touching: 0,
        written: 0,
    };

    /// Counts one duty more.
    fn add(&mut self, days: &BaseDays, span: &Span) {
        self.all = self.all.saturating_add(1);
        if reports_at_night(days, span) {
            self.reports = self.reports.saturating_add(1);
        }
        if touches_night(days, span) {
            self.touching = self.touching.saturating_add(1);
        }
        if is_written_at_night(span) {
            self.written = self.written.saturating_add(1);
        }
    }
}

/// The duties of the pairings.
fn counts_of(rows: &[Record], pairings: &[&[u8]], days: &BaseDays) -> Counts {
    let mut counts = Counts::NONE;
    for row in rows {
        if row.has(Kind::Duty, 2, b"P") && pairings.iter().any(|name| *name == row.field(3)) {
            if let Some(span) = span_of(row) {
                counts.add(days, &span);
            }
        }
    }
    counts
}

/// Whether the clocks of the base show midnight.
fn is_midnight(days: &BaseDays, minute: Minute) -> bool {
    match days.day_of(minute) {
        Some(day) if day < days.days() => days.mid(day) == minute,
        _ => false,
    }
}

/// Whether the record is leave of a person of the base.
fn is_leave_at(rows: &[Record], row: &Record, base: &[u8]) -> bool {
    row.is(Kind::Leave)
        && rows.iter().any(|person| person.has(Kind::Crew, 1, row.field(1))
            && person.field(2) == base)
}

/// How many leaves the base's persons have that aren't whole days by its clocks, if all are whole days in
/// UTC; else none.
fn days_in_utc(rows: &[Record], base: &[u8], days: &BaseDays) -> usize {
    let mut others = 0usize;
    for row in rows {
        if !is_leave_at(rows, row, base) {
            continue;
        }
        let Some(span) = span_of(row) else {
            return 0;
        };
        if span.from.get() % DAY != 0 || span.to.get() % DAY != 0 {
            return 0;
        }
        if !is_midnight(days, span.from) {
            others = others.saturating_add(1);
        }
    }
    others
}

/// The days of the base's clocks, if they are known, and don't show UTC.
fn days_off_utc(
    alloc: Global,
    rows: &[Record],
    row: &Record,
) -> Result<Option<BaseDays>, AllocError> {
    let seen = Seen {
        rows,
        at: rows.len(),
        row,
    };
    match seen.days_at(alloc, row.field(1))? {
        Some(days) if !shows_utc(&days) => Ok(Some(days)),
        _ => Ok(None),
    }
}

/// Why the times of the duties are likely local ones: most report at night, or far more touch the night than
/// would if they were.
fn local_times(alloc: Global, counts: Counts) -> Result<Option<String>, AllocError> {
    let Counts {
        all,
        reports,
        touching,
        written,
    } = counts;
    if all >= MANY_REPORTS && reports > all / 2 {
        let why = format!(in alloc;
            "{reports} of {all} duties of its pairings report from 23:00 to 05:00 by its clocks; \
             local times may stand for UTC"
        )?;
        return Ok(Some(why));
    }
    if touching >= MANY_REPORTS && touching > written.saturating_mul(TIMES_MORE) {
        let why = format!(in alloc;
            "{touching} of {all} duties of its pairings touch 23:00 to 05:00 by its clocks, and {written} \
             would if their times were local; local times may stand for UTC"
        )?;
        return Ok(Some(why));
    }
    Ok(None)
}

/// Why the times of the leaves are likely local ones: they are whole days only if they are.
fn local_days(alloc: Global, others: usize) -> Result<Option<String>, AllocError> {
    if others < MANY_LEAVES {
        return Ok(None);
    }
    let why = format!(in alloc;
        "all leaves of its persons are whole days in UTC, and {others} are none by its clocks; local times may \
         stand for UTC"
    )?;
    Ok(Some(why))
}

/// Warnings of bases whose duties lie at night, or whose leaves are days in UTC, as if their times were
/// local.
pub(crate) fn nights(alloc: Global, rows: &[Record]) -> Result<Vec<Warning>, AllocError> {
    let mut warnings = Vec::new(alloc);
    for (at, row) in rows.iter().enumerate() {
        if !row.is(Kind::Base) {
            continue;
        }
        let Some(days) = days_off_utc(alloc, rows, row)? else {
            continue;
        };
        let pairings = pairings_of(alloc, rows, row.field(1))?;
        let counts = counts_of(rows, pairings.as_slice(), &days);
        let why = match local_times(alloc, counts)? {
            Some(why) => Some(why),
            None => local_days(alloc, days_in_utc(rows, row.field(1), &days))?,
        };
        if let Some(why) = why {
            warn(&mut warnings, alloc, at, why.as_str())?;
        }
    }
    Ok(warnings)
}

/// Whether the book gives the person a fixed duty, leave or a pairing.
fn has_something(rows: &[Record], person: &[u8]) -> bool {
    rows.iter().any(|row| {
        row.has(Kind::Leave, 1, person)
            || row.has(Kind::Assign, 2, person)
            || row.has(Kind::Duty, 3, person) && row.field(2) == b"C".as_slice()
    })
}

/// How many persons the base has, and to how many of them the book gives something.
fn persons_at(rows: &[Record], base: &[u8]) -> (usize, usize) {
    let (mut all, mut busy) = (0usize, 0usize);
    for row in rows {
        if row.has(Kind::Crew, 2, base) {
            all = all.saturating_add(1);
            if has_something(rows, row.field(1)) {
                busy = busy.saturating_add(1);
            }
        }
    }
    (all, busy)
}

/// Warnings of persons of whom the book gives nothing, though it does so of most others of their base.
fn free_at(
    alloc: Global,
    rows: &[Record],
    base: &[u8],
    warnings: &mut Vec<Warning>,
) -> Result<(), AllocError> {
    let (all, busy) = persons_at(rows, base);
    if all < MANY_PERSONS || busy / 3 < all.saturating_sub(busy) {
        return Ok(());
    }
    for (at, row) in rows.iter().enumerate() {
        if row.has(Kind::Crew, 2, base) && !has_something(rows, row.field(1)) {
            let why = format!(in alloc;
                "no leave, fixed duty or pairing of the person is given, but of {busy} others of the base"
            )?;
            warn(warnings, alloc, at, why.as_str())?;
        }
    }
    Ok(())
}

/// Warnings of persons with a whole month free.
pub(crate) fn free_months(alloc: Global, rows: &[Record]) -> Result<Vec<Warning>, AllocError> {
    let mut warnings = Vec::new(alloc);
    for row in rows {
        if row.is(Kind::Base) {
            free_at(alloc, rows, row.field(1), &mut warnings)?;
        }
    }
    Ok(warnings)
}
