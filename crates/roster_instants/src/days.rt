//! The local days of a base round a month.

ghost use Rattle.std.specs.Prelude.{◌≡◌, ◌+◌, ◌<◌, ◌≤◌, ℕ, pos, Some, Ok, IfOk, IfErr, MatchOption, length};
ghost use Rattle.std.specs.Prelude.{slice_get};
ghost use Rattle.std.specs.List.Sorted.{IsNonDecreasing, IsPartitionPoint, IsStrictlyIncreasing};
ghost use Rattle.jiff_core.specs.Date.{IsYmd, epoch_day};
ghost use Rattle.roster_model.specs.Calendar.{IsTable, IsDayOf, day_number, days_of_month, days_of_window};
ghost use Rattle.roster_model.specs.Calendar.{first_day, month_end, month_start};
ghost use Rattle.roster_model.specs.Zone.{days_of_zone, has_minutes, rises, days_shown};
ghost use Rattle.roster_instants.specs.Refusals.{IsFaultOf};

use crate::clocks::{
    Clocks, EARLIEST_MONTH, EIGHT, FIRST_DAY, LAST_DAY, LATEST_MONTH, MIDNIGHT, TEN,
};
use crate::minute::{Minute, number_of};
use crate::period::Period;
use jiff::civil::{self, Date};
use roster_model::limits::{DAYS_AFTER, DAYS_BEFORE, MOST_DAYS};
use std::alloc::{AllocError, Global};
use std::marker::Model;
use thiserror::Error;

/// Why a zone text has given no days, in the order in which that is judged.
#[derive(Debug, Drop, Error)]
pub enum ZoneFault {
    /// The text is no zone.
    #[error("the text is no zone that is read here")]
    Refused,
    /// A day of the window begins, or has its 08:00 or 22:00, or the window ends, at no whole minute.
    #[error("the zone's clocks are not ahead of UTC by whole minutes")]
    NotMinutes,
    /// These instants do not follow one another on some day of the window.
    #[error("the zone's clocks are shifted too far within a day")]
    NotRising,
    /// There was no memory for the tables.
    #[error("out of memory")]
    Memory,
}

impl From<AllocError> for ZoneFault {
    ghost use Rattle.std.specs.Prelude.{◌≡◌};
    ghost use Rattle.roster_instants.specs.declared.days.ZoneFault.TheVariants.{Memory};

    ghost from_gives = { λ _ fault. fault ≡ Memory };

    fn from(_error: AllocError) -> ZoneFault {
        ZoneFault::Memory
    }
}

/// The days of a book's window at one base, as its clocks show them.
///
/// The window reaches from [`DAYS_BEFORE`] days before the month's first day to [`DAYS_AFTER`] days
/// after its last. Its days are numbered from 0, so the month's first day is day `DAYS_BEFORE`. Each
/// day's 00:00, 08:00 and 22:00 and the next day's 00:00 follow one another, and the month is no longer
/// than `MOST_MONTH_MINUTES`. The type keeps both.
#[derive(Drop)]
pub struct BaseDays {
    month_days: usize,
    mid: Vec<Minute>,
    eight: Vec<Minute>,
    ten: Vec<Minute>,
}

impl Model for BaseDays {
    ghost use Rattle.roster_model.specs.Calendar.{Days, IsTable};

    ghost Value = { Days };

    ghost view = { λ d. record {
      month_days = d.month_days;
      mid = d.mid.items;
      eight = d.eight.items;
      ten = d.ten.items;
    } };

    ghost invariant = { λ d. IsTable (record {
      month_days = d.month_days;
      mid = d.mid.items;
      eight = d.eight.items;
      ten = d.ten.items;
    }) };
}

impl BaseDays {
    /// The days of a period's window at a base with this zone text, or why it has none. The text is
    /// judged before memory is asked for.
    pub fn build(alloc: Global, text: &str, period: Period) -> Result<BaseDays, ZoneFault>
        ensures days { IfOk result (λ days. days_of_zone period text.now ≡ Ok days) }
        ensures fault { IfErr result (λ fault. IsFaultOf (days_of_zone period text.now) fault) }
    {
        let Some(clocks) = Clocks::read(text) else {
            return Err(ZoneFault::Refused);
        };
        if !has_minutes(&clocks, period) {
            return Err(ZoneFault::NotMinutes);
        }
        if !rises(&clocks, period) {
            return Err(ZoneFault::NotRising);
        }
        let days = table(alloc, &clocks, period)?;
        Ok(days)
    }

    /// How many days the window has.
    pub fn days(&self) -> usize
        ensures value { result ≡ length self.now.eight }
        ensures window { result ≡ DAYS_BEFORE + self.now.month_days + DAYS_AFTER }
        ensures bound { result ≤ MOST_DAYS }
        ensures table { IsTable self.now }
    {
        self.eight.len()
    }

    /// How many days the month has, from 28 to 31.
    pub fn month_days(&self) -> usize
        ensures value { result ≡ self.now.month_days }
        ensures least { 28 ≤ result }
        ensures most { result ≤ 31 }
        ensures table { IsTable self.now }
    {
        self.month_days
    }

    /// The instant of 00:00 on day `i`; that of day `days()` is the end of the window.
    pub fn mid(&self, i: usize) -> Minute
        requires { i ≤ length self.now.eight }
        ensures value { slice_get self.now.mid i ≡ Some result }
        ensures rising { IsStrictlyIncreasing self.now.mid }
        ensures table { IsTable self.now }
    {
        self.mid[i]
    }

    /// The instant at which the month begins.
    pub fn month_start(&self) -> Minute
        ensures { result ≡ month_start self.now }
    {
        self.mid[DAYS_BEFORE]
    }

    /// The instant at which the month ends.
    pub fn month_end(&self) -> Minute
        ensures value { result ≡ month_end self.now }
        ensures table { IsTable self.now }
    {
        self.mid[DAYS_BEFORE + self.month_days]
    }

    /// The instant of 08:00 on day `i`.
    pub fn eight(&self, i: usize) -> Minute
        requires { i < length self.now.eight }
        ensures value { slice_get self.now.eight i ≡ Some result }
        ensures table { IsTable self.now }
    {
        self.eight[i]
    }

    /// The instant of 22:00 on day `i`.
    pub fn ten(&self, i: usize) -> Minute
        requires { i < length self.now.eight }
        ensures value { slice_get self.now.ten i ≡ Some result }
        ensures table { IsTable self.now }
    {
        self.ten[i]
    }

    /// How many of the window's days have their 08:00 by the instant; they are its first ones.
    pub fn mornings_by(&self, instant: Minute) -> usize
        ensures value { IsPartitionPoint (λ eight. eight ≤ instant) (λ eight. instant < eight)
            self.now.eight result }
        ensures bound { result ≤ length self.now.eight }
        ensures table { IsTable self.now }
    {
        come_by(&self.eight, instant)
    }

    /// The day, from 0, that holds the instant, if one of the window does.
    pub fn day_of(&self, instant: Minute) -> Option<usize>
        ensures { MatchOption result ((i : ℕ) → ¬ (IsDayOf self.now instant i))
            (λ i. IsDayOf self.now instant i) }
    {
        let begun = come_by(&self.mid, instant);
        if begun > self.days() {
            return None;
        }
        begun.checked_sub(1)
    }
}

/// How many of the instants, none of which is before an earlier one, have come by the one given; they
/// are the first ones.
fn come_by(instants: &[Minute], instant: Minute) -> usize
    requires { IsNonDecreasing instants.now }
    ensures value { IsPartitionPoint (λ at. at ≤ instant) (λ at. instant < at) instants.now result }
    ensures bound { result ≤ length instants.now }
{
    instants.partition_point(|at| *at <= instant)
}

/// The number of a window's first day, from 0 for 1970-01-01, and how many days it has.
struct Window {
    first: u32,
    days: u32,
}

/// The window round a month.
fn window_of(period: Period) -> Window
    ensures first { result.first ≡ first_day period }
    ensures days { result.days ≡ days_of_window period }
    ensures from { FIRST_DAY ≤ result.first }
    ensures to { result.first + result.days < LAST_DAY }
{
    Window {
        first: first_day(period),
        days: DAYS_BEFORE as u32 + days_of_month(period) + DAYS_AFTER as u32,
    }
}

/// Whether each instant of the window's days is a whole minute.
fn has_minutes(clocks: &Clocks, period: Period) -> bool
    ensures { result ≡ has_minutes period clocks.now }
{
    let Window { first, days } = window_of(period);
    clocks.are_minutes(MIDNIGHT, first, days + 1)
        && clocks.are_minutes(EIGHT, first, days)
        && clocks.are_minutes(TEN, first, days)
}

/// Whether they follow one another on each day.
fn rises(clocks: &Clocks, period: Period) -> bool
    ensures { result ≡ rises period clocks.now }
{
    let Window { first, days } = window_of(period);
    clocks.rise(first, days)
}

/// The tables of the window's days.
fn table(alloc: Global, clocks: &Clocks, period: Period) -> Result<BaseDays, AllocError>
    requires { IsTable (days_shown period clocks.now) }
    ensures { IfOk result (λ days. days ≡ days_shown period clocks.now) }
{
    let Window { first, days } = window_of(period);
    Ok(BaseDays {
        month_days: days_of_month(period) as usize,
        mid: clocks.instants_at(alloc, MIDNIGHT, first, days + 1)?,
        eight: clocks.instants_at(alloc, EIGHT, first, days)?,
        ten: clocks.instants_at(alloc, TEN, first, days)?,
    })
}

/// The first day of the month.
fn first_of_month(period: Period) -> Date
    ensures value { IsYmd (pos period.year) (pos period.month) (pos 1) result }
    ensures number { epoch_day result ≡ pos (day_number period.year period.month 1) }
    ensures from { EARLIEST_MONTH ≤ day_number period.year period.month 1 }
    ensures to { day_number period.year period.month 1 ≤ LATEST_MONTH }
{
    civil::date(period.year(), period.month(), 1)
}

/// How many days the month has.
fn days_of_month(period: Period) -> u32
    ensures value { result ≡ days_of_month period }
    ensures least { 28 ≤ result }
    ensures most { result ≤ 31 }
{
    first_of_month(period).days_in_month() as u32
}

/// The number of the window's first day.
fn first_day(period: Period) -> u32
    ensures value { result ≡ first_day period }
    ensures from { FIRST_DAY ≤ result }
    ensures to { result + DAYS_BEFORE ≤ LATEST_MONTH }
{
    number_of(first_of_month(period)) - DAYS_BEFORE as u32
}
