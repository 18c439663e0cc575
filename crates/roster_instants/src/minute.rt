//! Instants to the minute.

ghost use Rattle.std.specs.Prelude.{◌≡◌, ◌+◌, ◌*◌, ◌/◌, ◌≤◌, ◌<◌, ◌≤ℤ◌, pos, ℕ, true, false, MatchOption};
ghost use Rattle.std.specs.Int.{is_in_range};
ghost use Rattle.jiff_core.specs.Date.{epoch_day};
ghost use Rattle.roster_model.specs.Calendar as calendar;
ghost use Rattle.roster_model.specs.Calendar.{day_number, is_real_date, instant_of};

use crate::text::{has_shape, is_in_range, number_at};
use jiff::civil::Date;
use roster_model::limits::{FIRST_YEAR, LAST_INSTANT, LAST_YEAR};
use std::marker::Model;

/// The number of 31 December 9999, the last date that `jiff` has.
const LAST_DATE: u32 = 2_932_896;

/// An instant: whole minutes since 1970-01-01T00:00Z, from 0 to [`LAST_INSTANT`], which the type keeps.
#[derive(Clone, Copy, Drop, PartialEq, Eq, PartialOrd, Ord)]
pub struct Minute {
    minutes: i64,
}

impl Model for Minute {
    ghost use Rattle.std.specs.Prelude.{ℕ, ◌≤◌, ◌≤ℤ◌, pos, unsigned_abs};
    ghost use Rattle.roster_model.specs.declared.limits.TheConstants.{LAST_INSTANT};

    ghost Value = { ℕ };

    ghost view = { λ m. unsigned_abs m.minutes };

    ghost invariant = { λ m. (pos 0 ≤ℤ m.minutes) × (m.minutes ≤ℤ pos LAST_INSTANT) };

    ghost inverse = { λ n. record { minutes = pos n } };
}

impl Minute {
    /// The instant of a minute of the day, from 0 to 1439, on the day with this number at UTC.
    fn on_day(day: u32, minute: u32) -> Minute
        requires last { day ≤ LAST_DATE }
        requires within { minute < 1440 }
        ensures { result ≡ day * 1440 + minute }
    {
        Minute {
            minutes: (u64::from(day) * 1440 + u64::from(minute)) as i64,
        }
    }

    /// The minute that a second lies in, which counts from 1970-01-01T00:00:00Z.
    pub(crate) fn from_seconds(second: u64) -> Minute
        requires { second ≤ 299_999_999_999 }
        ensures { result ≡ second / 60 }
    {
        Minute {
            minutes: (second / 60) as i64,
        }
    }

    /// The minutes since 1970-01-01T00:00Z.
    pub fn get(self) -> i64
        ensures value { result ≡ pos self }
        ensures bound { self ≤ LAST_INSTANT }
    {
        self.minutes
    }
}

/// The minutes, from 0, that the interval from `a` to `b` shares with the one from `c` to `d`.
pub fn common(a: Minute, b: Minute, c: Minute, d: Minute) -> i64
    requires first { a ≤ b }
    requires second { c ≤ d }
    ensures value { result ≡ pos (calendar.common a b c d) }
    ensures bound { calendar.common a b c d ≤ LAST_INSTANT }
{
    let from = a.get().max(c.get());
    let to = b.get().min(d.get());
    (to - from).max(0)
}

/// The day number of a date that isn't before 1970-01-01, which is day 0.
pub(crate) fn number_of(date: Date) -> u32
    requires { pos 0 ≤ℤ epoch_day date }
    ensures value { pos result ≡ epoch_day date }
    ensures bound { result ≤ LAST_DATE }
{
    date.to_plain().to_unix_epoch_day() as u32
}

/// The day number of a date of the years 1970 to 9998, from 0 for 1970-01-01, if the calendar has
/// the date.
fn day_number(year: u16, month: u16, day: u16) -> Option<u32>
    requires from { FIRST_YEAR ≤ year }
    requires to { year ≤ LAST_YEAR }
    requires month_fits { month < 100 }
    requires day_fits { day < 100 }
    ensures { MatchOption result (is_real_date year month day ≡ false)
        (λ n. (is_real_date year month day ≡ true) × (n ≡ day_number year month day)
        × (n ≤ LAST_DATE)) }
{
    let date = Date::new(year as i16, month as i8, day as i8).ok()?;
    Some(number_of(date))
}

/// The instant that a text `YYYY-MM-DDTHH:MMZ` spells, of the years 1970 to 9998.
pub fn read_minute(text: &[u8]) -> Option<Minute>
    ensures { result ≡ instant_of text.now }
{
    if !has_shape(b"0000-00-00T00:00Z", text) {
        return None;
    }
    let year = number_at(text, 0, 4);
    let hour = number_at(text, 11, 13);
    let minute = number_at(text, 14, 16);
    if !is_in_range(FIRST_YEAR, LAST_YEAR, year) || hour > 23 || minute > 59 {
        return None;
    }
    let day = day_number(year, number_at(text, 5, 7), number_at(text, 8, 10))?;
    Some(Minute::on_day(day, u32::from(hour * 60 + minute)))
}
