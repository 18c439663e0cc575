//! Days and times round the month.

use jiff::Timestamp;
use jiff::civil::Date;
use jiff::tz::TimeZone;
use roster_desk_times::{instant_text, midnight};
use roster_model::limits::{DAYS_AFTER, DAYS_BEFORE, FIRST_YEAR};
use std::alloc::{AllocError, Global};

/// From one second to another, which count from 1970-01-01T00:00Z.
#[derive(Clone, Copy)]
pub(crate) struct Span {
    pub(crate) from: i64,
    pub(crate) to: i64,
}

impl Span {
    /// The seconds that both have; none if it ends no later than it begins.
    pub(crate) fn within(self, other: Span) -> Span {
        Span {
            from: self.from.max(other.from),
            to: self.to.min(other.to),
        }
    }

    /// Whether it has no second.
    pub(crate) fn is_empty(self) -> bool {
        self.from >= self.to
    }

    /// Whether it lies where no book reaches.
    pub(crate) fn is_out(self) -> bool {
        self.from == self.to && (self.from == i64::MIN || self.from == i64::MAX)
    }

    /// Whether it has each second of the other.
    pub(crate) fn holds(self, other: Span) -> bool {
        self.from <= other.from && other.to <= self.to
    }
}

/// The second at which the date begins on the clocks.
pub(crate) fn begin_of(zone: &TimeZone<'static>, date: Date) -> Option<i64> {
    Some(midnight(zone, date)?.as_second())
}

/// The second at which the date begins on the clocks. No book reaches the dates before 1970 and behind 9998,
/// as 9999-12-31, by which some mean that there is no end: they are before all seconds or behind them.
pub(crate) fn reached(zone: &TimeZone<'static>, date: Date) -> i64 {
    match begin_of(zone, date) {
        Some(second) => second,
        None if date.year() <= FIRST_YEAR as i16 => i64::MIN,
        None => i64::MAX,
    }
}

/// The second at which the date ends on the clocks, in the same way.
pub(crate) fn passed(zone: &TimeZone<'static>, date: Date) -> i64 {
    match date.tomorrow() {
        Ok(next) => reached(zone, next),
        Err(_) => i64::MAX,
    }
}

/// The date and the one behind it, on the clocks.
pub(crate) fn day_of(zone: &TimeZone<'static>, date: Date) -> Option<Span> {
    Some(Span {
        from: begin_of(zone, date)?,
        to: begin_of(zone, date.tomorrow().ok()?)?,
    })
}

/// The date so many days before.
fn days_before(date: Date, days: usize) -> Option<Date> {
    let mut date = date;
    for _ in 0..days {
        date = date.yesterday().ok()?;
    }
    Some(date)
}

/// The date so many days behind.
fn days_behind(date: Date, days: usize) -> Option<Date> {
    let mut date = date;
    for _ in 0..days {
        date = date.tomorrow().ok()?;
    }
    Some(date)
}

/// The window of the month that begins with the date, on the clocks.
pub(crate) fn window_of(zone: &TimeZone<'static>, first: Date) -> Option<Span> {
    let begin = days_before(first, DAYS_BEFORE)?;
    let last = days_behind(first.last_of_month(), DAYS_AFTER)?;
    Some(Span {
        from: begin_of(zone, begin)?,
        to: day_of(zone, last)?.to,
    })
}

/// The second as a book writes it; `-` if no instant is it.
pub(crate) fn second_text(alloc: Global, second: i64) -> Result<String, AllocError> {
    match Timestamp::from_second(second) {
        Ok(at) => instant_text(alloc, at),
        Err(_) => String::from_str(alloc, "-"),
    }
}
