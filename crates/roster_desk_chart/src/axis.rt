//! The days across, by the clocks of a base.

ghost use Rattle.std.specs.Prelude.{◌≡◌, ◌≤◌};

use crate::html::{Place, percent};
use jiff_core::civil::Date;
use roster_desk_words::{instant, push_all, time};
use roster_instants::{BaseDays, Minute, Period};
use roster_model::limits::DAYS_BEFORE;
use roster_problem::{Holder, Problem};
use std::alloc::{AllocError, Global};

/// The days before the month that are drawn.
const DAYS_EARLIER: usize = 2;

/// The number of the first day of the month, among those of the window.
const BEFORE: i64 = DAYS_BEFORE as i64;

/// The whole width, in hundredths of a percent.
pub(crate) const WHOLE: u64 = 10000;

/// The short names of weekdays, from Monday on.
const WEEKDAYS: [&str; 7] = ["Mo", "Tu", "We", "Th", "Fr", "Sa", "Su"];

/// Days of the window that are drawn, by the clocks of a base.
#[derive(Drop)]
pub(crate) struct Axis<'a> {
    /// The days of the window.
    pub(crate) days: &'a BaseDays,
    /// The month.
    pub(crate) period: Period,
    /// The first day that is drawn.
    pub(crate) from: usize,
    /// The first day after those that are drawn.
    pub(crate) to: usize,
}

/// The minute of the instant at which a day of the window begins, or at which the window ends.
pub(crate) fn midnight(days: &BaseDays, day: usize) -> u64 {
    let day = day.min(days.days());
    days.mid(day).get().unsigned_abs()
}

/// The minute of the instant.
pub(crate) fn minute(instant: Minute) -> u64
    ensures { result ≡ instant }
{
    instant.get().unsigned_abs()
}

/// The first day after all those in which the duties of the base's pairings lie.
fn day_after(problem: &Problem, base: usize, days: &BaseDays) -> usize {
    let mut last = DAYS_BEFORE.saturating_add(days.month_days());
    for duty in problem.duties() {
        let Holder::Pairing(p) = duty.holder else {
            continue;
        };
        let is_here = problem
            .pairings()
            .get(p)
            .is_some_and(|pairing| pairing.base == base);
        if is_here {
            let day = days.day_of(duty.release).unwrap_or(0);
            last = last.max(day.saturating_add(1));
        }
    }
    last
}

impl<'a> Axis<'a> {
    /// The days that are drawn for a base: the month, two days before it, and those behind it in which a
    /// pairing of the base ends.
    pub(crate) fn of_base(problem: &Problem, base: usize, days: &'a BaseDays) -> Axis<'a> {
        Axis {
            days,
            period: problem.period(),
            from: DAYS_BEFORE.saturating_sub(DAYS_EARLIER),
            to: day_after(problem, base, days),
        }
    }

    /// How far from the left the minute is, in hundredths of a percent, from 0 to 10000.
    pub(crate) fn share(&self, minute: u64) -> u64
        ensures { result ≤ 10000 }
    {
        let first = midnight(self.days, self.from);
        let width = midnight(self.days, self.to).saturating_sub(first).max(1);
        let past = minute.saturating_sub(first).min(width);
        share_of(past, width)
    }

    /// Where the time from one minute to another is drawn, if any of it is.
    pub(crate) fn place(&self, from: u64, to: u64) -> Option<Place> {
        let left = self.share(from);
        let right = self.share(to);
        if from >= to || left >= right {
            return None;
        }
        let width = right.saturating_sub(left);
        Some(Place { left, width })
    }

    /// The date of a day of the window, as the number of days since 1970-01-01.
    fn number(&self, day: usize) -> i64 {
        let first = match Date::new(self.period.year(), self.period.month(), 1) {
            Ok(date) => i64::from(date.to_unix_epoch_day()),
            Err(_) => 0,
        };
        let day = i64::try_from(day).unwrap_or(0);
        first.saturating_add(day).saturating_sub(BEFORE)
    }

    /// The weekday of a day of the window, from 0 for Monday.
    fn weekday(&self, day: usize) -> usize
        ensures { result ≤ 6 }
    {
        // 1970-01-01 was a Thursday.
        let past = self.number(day).saturating_add(3).unsigned_abs() % 7;
        past as usize
    }

    /// The weekday and the day of the month, as in `Mo 4`.
    pub(crate) fn day_name(&self, alloc: Global, day: usize) -> Result<String, AllocError> {
        let weekday = WEEKDAYS[self.weekday(day)];
        let number = match Date::from_unix_epoch_day(self.number(day)) {
            Ok(date) => date.day,
            Err(_) => 0,
        };
        format!(in alloc; "{weekday} {number}")
    }

    /// Whether it is a Saturday or Sunday.
    fn is_weekend(&self, day: usize) -> bool {
        self.weekday(day) >= 5
    }

    /// How many minutes a day has more than 24 hours, and how many less.
    fn change(&self, day: usize) -> (u64, u64) {
        let length = midnight(self.days, day.saturating_add(1)).saturating_sub(midnight(
            self.days, day,
        ));
        (length.saturating_sub(1440), 1440u64.saturating_sub(length))
    }

    /// The instant in UTC, and where it can be told what the clocks of the base show.
    pub(crate) fn moment(&self, alloc: Global, at: Minute) -> Result<String, AllocError> {
        let utc = instant(alloc, at)?;
        let Some(day) = self.days.day_of(at) else {
            return Ok(utc);
        };
        let Some(shown) = clock(self.days, day, minute(at)) else {
            return Ok(utc);
        };
        let name = self.day_name(alloc, day)?;
        let shown = time(alloc, shown)?;
        format!(in alloc; "{utc} ({name}, {shown} local)")
    }

    /// Appends the head's cell of a day.
    fn push_day(&self, alloc: Global, out: &mut Vec<u8>, day: usize) -> Result<(), AllocError> {
        let from = midnight(self.days, day);
        let Some(place) = self.place(from, midnight(self.days, day.saturating_add(1))) else {
            return Ok(());
        };
        let left = percent(alloc, place.left)?;
        let width = percent(alloc, place.width)?;
        let name = self.day_name(alloc, day)?;
        let (longer, shorter) = self.change(day);
        if longer > 0 || shorter > 0 {
            out.extend_from_slice(b"<span class=\"c\" style=\"left:")?;
        } else {
            out.extend_from_slice(b"<span style=\"left:")?;
        }
        push_all(out, &[left.as_bytes(), b";width:", width.as_bytes()])?;
        push_all(out, &[b"\" title=\"", name.as_bytes()])?;
        let more = time(alloc, longer.max(shorter))?;
        if longer > 0 {
            push_all(
                out,
                &[
                    b": clocks go back, the day is ",
                    more.as_bytes(),
                    b" longer",
                ],
            )?;
        }
        if shorter > 0 {
            push_all(
                out,
                &[
                    b": clocks go forward, the day is ",
                    more.as_bytes(),
                    b" shorter",
                ],
            )?;
        }
        let weekday = WEEKDAYS[self.weekday(day)];
        push_all(out, &[b"\">", weekday.as_bytes(), b"<br>"])?;
        out.extend_from_slice(name.as_bytes().get(3..).unwrap_or(b""))?;
        out.extend_from_slice(b"</span>")
    }

    /// Appends the days across.
    pub(crate) fn push_days(&self, alloc: Global, out: &mut Vec<u8>) -> Result<(), AllocError> {
        out.extend_from_slice(b"<div class=\"t\">")?;
        for day in self.from..self.to {
            self.push_day(alloc, out, day)?;
        }
        out.extend_from_slice(b"</div>")
    }

    /// Appends the ground of the rows: a line at each local midnight, and grey weekends.
    pub(crate) fn push_ground(&self, alloc: Global, out: &mut Vec<u8>) -> Result<(), AllocError> {
        out.extend_from_slice(b"background:linear-gradient(90deg")?;
        for day in self.from..self.to {
            let left = self.share(midnight(self.days, day));
            let right = self.share(midnight(self.days, day.saturating_add(1)));
            let begin = percent(alloc, left)?;
            let line = percent(alloc, left.saturating_add(5))?;
            let end = percent(alloc, right)?;
            push_all(out, &[b",#999 ", begin.as_bytes(), b" ", line.as_bytes()])?;
            if self.is_weekend(day) {
                out.extend_from_slice(b",#ececec ")?;
            } else {
                out.extend_from_slice(b",#fff ")?;
            }
            push_all(out, &[line.as_bytes(), b" ", end.as_bytes()])?;
        }
        out.extend_from_slice(b")")
    }
}

/// The share of a part in the whole, in hundredths of a percent.
fn share_of(part: u64, whole: u64) -> u64
    ensures { result ≤ 10000 }
{
    if whole == 0 {
        return 0;
    }
    (part.saturating_mul(WHOLE) / whole).min(WHOLE)
}

/// What the clocks show at a minute from one instant to the next, of which the first shows so many minutes
/// since midnight and the second so many; nothing if they change between the two.
fn clock_from(at: u64, begin: u64, end: u64, shown: (u64, u64)) -> Option<u64> {
    let (first, last) = shown;
    if end.saturating_sub(begin) != last.saturating_sub(first) {
        return None;
    }
    Some(at.saturating_sub(begin).saturating_add(first))
}

/// The minutes since midnight that the clocks show at a minute of the day, where the tables of the days tell
/// it: they have midnight, 08:00 and 22:00.
fn clock(days: &BaseDays, day: usize, at: u64) -> Option<u64> {
    if day >= days.days() {
        return None;
    }
    let (begin, eight) = (midnight(days, day), minute(days.eight(day)));
    let (ten, end) = (minute(days.ten(day)), midnight(days, day.saturating_add(1)));
    if at >= ten {
        clock_from(at, ten, end, (22 * 60, 24 * 60))
    } else if at >= eight {
        clock_from(at, eight, ten, (8 * 60, 22 * 60))
    } else {
        clock_from(at, begin, eight, (0, 8 * 60))
    }
}
