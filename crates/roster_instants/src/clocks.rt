//! The clocks of a base, by the rule of its zone text.

ghost use Rattle.std.specs.Prelude.{◌≡◌, ◌<◌, ◌≤◌, ◌+◌, ◌*◌, pos, IfOk};
ghost use Rattle.std.specs.List.{list_all, range_with_len};
ghost use Rattle.jiff_core.specs.Date.{epoch_day};
ghost use Rattle.jiff_core.specs.Time.{time_nanos};
ghost use Rattle.jiff_tz.specs.PosixReader.{read_whole};
ghost use Rattle.roster_model.specs.Clocks.{second_at, is_minute_at, minute_at};
ghost use Rattle.roster_model.specs.Zone.{are_minutes, rises_on, instants_at};

use crate::minute::Minute;
use jiff::civil::DateTime;
use jiff::tz::TimeZone;
use jiff_core::civil::{self, Date, Time};
use roster_model::limits::{DAYS_BEFORE, MOST_DAYS};
use std::alloc::{AllocError, Global};
use std::marker::Model;

/// The hours, on the clocks, at which a day begins, and between which no night lies.
pub(crate) const MIDNIGHT: u8 = 0;

pub(crate) const EIGHT: u8 = 8;

pub(crate) const TEN: u8 = 22;

/// The number of 1 January 1971, before which no month begins. Days are told by their numbers, from 0
/// for 1970-01-01.
pub(crate) const EARLIEST_MONTH: usize = 365;

/// The number of 1 January 9998, before which each month begins.
pub(crate) const LATEST_MONTH: usize = 2_932_167;

/// The first day that a window may hold.
pub(crate) const FIRST_DAY: usize = EARLIEST_MONTH - DAYS_BEFORE;

/// No window reaches this day.
pub(crate) const LAST_DAY: usize = LATEST_MONTH + MOST_DAYS;

/// The clocks of a base, whose zone follows a rule. They are asked for days from [`FIRST_DAY`] to
/// [`LAST_DAY`].
#[derive(Drop)]
pub(crate) struct Clocks {
    zone: TimeZone<'static>,
}

impl Model for Clocks {
    ghost use Rattle.jiff_tz.specs.PosixText.{TzText};
    ghost use Rattle.jiff.specs.ZoneView.{plain_zone};
    ghost use Rattle.roster_instants.specs.Rule.{IsRule, rule_of};

    ghost Value = { TzText };

    ghost view = { λ c. rule_of (plain_zone c.zone) };

    ghost invariant = { λ c. IsRule (plain_zone c.zone) };
}

impl Clocks {
    /// The clocks that a zone text stands for, if `jiff` reads a zone from it.
    pub(crate) fn read(text: &str) -> Option<Clocks>
        ensures { result ≡ read_whole text.now }
    {
        let zone = TimeZone::posix(text).ok()?;
        Some(Clocks { zone })
    }

    /// The instant for which an hour of a day stands, in seconds since 1970-01-01T00:00Z.
    fn second_at(&self, day: u32, hour: u8) -> u64
        requires from { FIRST_DAY ≤ day }
        requires to { day ≤ LAST_DAY }
        requires hour { hour < 24 }
        ensures value { pos result ≡ second_at self.now day hour }
        ensures bound { result ≤ 299_999_999_999 }
    {
        let instant = self.zone.to_timestamp(moment(day, hour)).unwrap();
        instant.as_second() as u64
    }

    /// Whether this instant is a whole minute.
    fn is_minute_at(&self, day: u32, hour: u8) -> bool
        requires from { FIRST_DAY ≤ day }
        requires to { day ≤ LAST_DAY }
        requires hour { hour < 24 }
        ensures { result ≡ is_minute_at self.now day hour }
    {
        self.second_at(day, hour) % 60 == 0
    }

    /// The minute that this instant lies in.
    fn minute_at(&self, day: u32, hour: u8) -> Minute
        requires from { FIRST_DAY ≤ day }
        requires to { day ≤ LAST_DAY }
        requires hour { hour < 24 }
        ensures { result ≡ minute_at self.now day hour }
    {
        Minute::from_seconds(self.second_at(day, hour))
    }

    /// Whether an hour is a whole minute on each of `count` days.
    pub(crate) fn are_minutes(&self, hour: u8, first: u32, count: u32) -> bool
        requires from { FIRST_DAY ≤ first }
        requires to { first + count ≤ LAST_DAY }
        requires hour { hour < 24 }
        ensures { result ≡ are_minutes self.now hour first count }
    {
        (first..first + count).all(|day| self.is_minute_at(day, hour))
    }

    /// Whether 00:00, 08:00, 22:00 and the next day's 00:00 follow one another.
    fn rises_on(&self, day: u32) -> bool
        requires from { FIRST_DAY ≤ day }
        requires to { day < LAST_DAY }
        ensures { result ≡ rises_on self.now day }
    {
        let eight = self.minute_at(day, EIGHT);
        let ten = self.minute_at(day, TEN);
        self.minute_at(day, MIDNIGHT) < eight
            && eight < ten
            && ten < self.minute_at(day + 1, MIDNIGHT)
    }

    /// Whether they do so on each of `count` days.
    pub(crate) fn rise(&self, first: u32, count: u32) -> bool
        requires from { FIRST_DAY ≤ first }
        requires to { first + count ≤ LAST_DAY }
        ensures { result ≡ list_all (λ day. rises_on self.now day) (range_with_len first count) }
    {
        (first..first + count).all(|day| self.rises_on(day))
    }

    /// The instants of an hour on each of `count` days.
    pub(crate) fn instants_at(
        &self,
        alloc: Global,
        hour: u8,
        first: u32,
        count: u32,
    ) -> Result<Vec<Minute>, AllocError>
        requires from { FIRST_DAY ≤ first }
        requires to { first + count ≤ LAST_DAY }
        requires hour { hour < 24 }
        ensures { IfOk result (λ instants.
            instants.items ≡ instants_at self.now hour first count) }
    {
        (first..first + count)
            .map(|day| self.minute_at(day, hour))
            .collect(alloc)
    }
}

/// What clocks show at an hour of a day.
fn moment(day: u32, hour: u8) -> DateTime
    requires to { day ≤ LAST_DAY }
    requires hour { hour < 24 }
    ensures date { epoch_day result.date ≡ pos day }
    ensures time { time_nanos result.time ≡ hour * 3_600_000_000_000 }
{
    let date = Date::from_unix_epoch_day(i64::from(day)).unwrap();
    let time = Time {
        hour,
        minute: 0,
        second: 0,
        subsec_nanosecond: 0,
    };
    DateTime::from_plain(civil::DateTime { date, time })
}
