//! Instants, by their offsets or by the clocks of a place, and dates.

use jiff::Timestamp;
use jiff::civil::{Date, DateTime, Time};
use jiff::tz::{AmbiguousOffset, TimeZone};
use std::alloc::{AllocError, Global};
use std::str;

/// The first second that no instant of a book reaches: the year 9999 begins.
const END: i64 = 253_370_764_800;

/// The bytes of a date, and of a date with hours and minutes, at least.
const DATE_BYTES: usize = 10;

const TIME_BYTES: usize = 16;

/// How a book writes an instant.
const FORMAT: &str = "%Y-%m-%dT%H:%MZ";

/// Why a text is no instant.
#[derive(Clone, Copy, PartialEq, Eq)]
pub enum TimeFault {
    /// It isn't of the form.
    Form,
    /// It is a local time, of a place whose clocks aren't known.
    NoClocks,
    /// The clocks skip it.
    Skipped,
    /// The clocks show it twice.
    Twice,
    /// It is no whole minute.
    Seconds,
    /// It is of no year from 1970 to 9998.
    Year,
}

impl TimeFault {
    /// What is wanted in its place.
    pub fn wanted(self) -> &'static str {
        match self {
            TimeFault::Form => {
                "an instant as 2024-06-11T08:00Z, or a local time as 2024-06-11 10:00"
            }
            TimeFault::NoClocks => {
                "a time with Z or an offset, as 2024-06-11T10:00+02:00: neither bases.csv nor stations.csv \
                 has clocks for it"
            }
            TimeFault::Skipped => {
                "another time, or an offset as in 2024-06-11T10:00+02:00: the clocks skip this one"
            }
            TimeFault::Twice => {
                "an offset, as in 2024-06-11T10:00+02:00: the clocks show this time twice"
            }
            TimeFault::Seconds => "a time of whole minutes",
            TimeFault::Year => "a time of the years 1970 to 9998",
        }
    }
}

/// Whether the byte stands in dates and times.
fn is_of_times(byte: u8) -> bool {
    byte.is_ascii_digit() || b"-:T Z+".contains(&byte)
}

/// The text, if it is as long, and has only what dates and times have.
fn formed(text: &[u8], least: usize) -> Option<&str> {
    if text.len() < least || !text.iter().all(|byte| is_of_times(*byte)) {
        return None;
    }
    str::from_utf8(text).ok()
}

/// The instant, if a book may have it.
fn checked(at: Timestamp) -> Result<Timestamp, TimeFault> {
    let second = at.as_second();
    if !(0..END).contains(&second) {
        Err(TimeFault::Year)
    } else if second % 60 != 0 {
        Err(TimeFault::Seconds)
    } else {
        Ok(at)
    }
}

/// The instant at which the clocks show the time, if they do so once.
fn shown_by(zone: &TimeZone<'static>, local: DateTime) -> Result<Timestamp, TimeFault> {
    let found = zone.to_ambiguous_timestamp(local);
    match found.offset() {
        AmbiguousOffset::Gap { .. } => Err(TimeFault::Skipped),
        AmbiguousOffset::Fold { .. } => Err(TimeFault::Twice),
        AmbiguousOffset::Unambiguous { .. } => match found.unambiguous() {
            Ok(at) => checked(at),
            Err(_) => Err(TimeFault::Year),
        },
    }
}

/// The instant that a text spells: by its own offset, or else by the clocks of the place, if these are
/// known.
pub fn read_instant(text: &[u8], zone: Option<&TimeZone<'static>>) -> Result<Timestamp, TimeFault> {
    let Some(text) = formed(text, TIME_BYTES) else {
        return Err(TimeFault::Form);
    };
    if let Ok(at) = text.parse::<Timestamp>() {
        return checked(at);
    }
    match (text.parse::<DateTime>(), zone) {
        (Err(_), _) => Err(TimeFault::Form),
        (Ok(_), None) => Err(TimeFault::NoClocks),
        (Ok(local), Some(zone)) => shown_by(zone, local),
    }
}

/// The date that a text spells, as `2024-06-11`.
pub fn read_date(text: &[u8]) -> Option<Date> {
    if text.len() != DATE_BYTES {
        return None;
    }
    formed(text, DATE_BYTES)?.parse::<Date>().ok()
}

/// The instant at which the date begins on the clocks: if they skip its midnight, that much later, and if
/// they show it twice, the first time.
pub fn midnight(zone: &TimeZone<'static>, date: Date) -> Option<Timestamp> {
    let at = zone.to_timestamp(date.to_datetime(Time::midnight())).ok()?;
    checked(at).ok()
}

/// The first date of the month that the clocks show at the instant.
pub fn month_at(zone: &TimeZone<'static>, at: Timestamp) -> Date {
    zone.to_datetime(at).date().first_of_month()
}

/// The instant as a book writes it.
pub fn instant_text(alloc: Global, at: Timestamp) -> Result<String, AllocError> {
    // What a directive can't write is written as text: so nothing but want of memory is left.
    match at.strftime(alloc, FORMAT) {
        Ok(text) => Ok(text),
        Err(_) => Err(AllocError),
    }
}
