//! The minutes of each day of a window.

ghost use Rattle.std.specs.Prelude.{◌≡◌, ◌+◌, ◌-◌, ◌≤◌, ℕ, slice_index};
ghost use Rattle.roster_model.specs.Calendar as calendar;
ghost use Rattle.roster_model.specs.Sums as sums;
ghost use Rattle.roster_cumulative.specs.Table.{IsLight, AreMinutesByDay, minutes_of};

use roster_instants::{BaseDays, Minute, common};
use roster_model::limits::{LAST_INSTANT, MOST_DAYS, MOST_DUTIES};
use roster_problem::{Duty, DutyList, Sector};

/// What is counted.
#[derive(Clone, Copy)]
pub(crate) enum Measure {
    /// Duty.
    Duty,
    /// The flight of the sectors that the person operates.
    Flight,
}

/// The minutes that the time from one instant to another shares with that from `start` to `end`.
pub(crate) fn shared(from: Minute, to: Minute, start: Minute, end: Minute) -> u64
    requires first { from ≤ to }
    requires second { start ≤ end }
    ensures value { result ≡ calendar.common from to start end }
    ensures bound { result ≤ LAST_INSTANT }
{
    common(from, to, start, end) as u64
}

/// Adds to each day the minutes that it shares with the time from one instant to another. It goes
/// over these days only.
fn add_time(table: &mut [u64; MOST_DAYS], days: &BaseDays, from: Minute, to: Minute)
    requires order { from ≤ to }
    requires light { IsLight MOST_DUTIES table.old }
    ensures added { (i : ℕ) → slice_index table.new i ≡ slice_index table.old i
        + calendar.common from to (slice_index days.now.mid i) (slice_index days.now.mid (i + 1)) }
    ensures bound { to ≤ LAST_INSTANT }
{
    let first = days.day_of(from).unwrap_or(0);
    for i in first..days.days() {
        let (start, end) = (days.mid(i), days.mid(i + 1));
        if to <= start {
            return;
        }
        table[i] += shared(from, to, start, end);
    }
}

/// Adds to each day the flight of the sector.
fn add_sector(table: &mut [u64; MOST_DAYS], days: &BaseDays, sector: Sector)
    requires order { sector.off ≤ sector.on }
    requires light { IsLight MOST_DUTIES table.old }
    ensures { (i : ℕ) → slice_index table.new i ≡ slice_index table.old i
        + sums.flown_between sector (slice_index days.now.mid i)
        (slice_index days.now.mid (i + 1)) }
{
    if sector.operates {
        add_time(table, days, sector.off, sector.on);
    }
}

/// Adds to each day the flight of the duty.
fn add_flight(table: &mut [u64; MOST_DAYS], days: &BaseDays, duty: &Duty)
    requires light { IsLight (MOST_DUTIES - 1) table.old }
    ensures added { (i : ℕ) → slice_index table.new i ≡ slice_index table.old i
        + sums.flight_between duty.now (slice_index days.now.mid i)
        (slice_index days.now.mid (i + 1)) }
    ensures bound { (from to : ℕ) → sums.flight_between duty.now from to ≤ LAST_INSTANT }
{
    prove!(duty.release.get() <= LAST_INSTANT as i64);
    for sector in &duty.sectors {
        add_sector(table, days, *sector);
    }
}

/// Adds to each day what the duty has of the measure.
fn add_duty(table: &mut [u64; MOST_DAYS], days: &BaseDays, duty: &Duty, measure: Measure)
    requires light { IsLight (MOST_DUTIES - 1) table.old }
    ensures added { (i : ℕ) → slice_index table.new i ≡ slice_index table.old i
        + minutes_of measure duty.now (slice_index days.now.mid i)
        (slice_index days.now.mid (i + 1)) }
    ensures bound { (from to : ℕ) → minutes_of measure duty.now from to ≤ LAST_INSTANT }
{
    match measure {
        Measure::Duty => add_time(table, days, duty.report, duty.release),
        Measure::Flight => add_flight(table, days, duty),
    }
}

/// What the list has of the measure on each day of the window.
pub(crate) fn minutes_by_day(days: &BaseDays, list: &DutyList, measure: Measure) -> [u64; MOST_DAYS]
    ensures { AreMinutesByDay measure days.now list.now result }
{
    let mut table = [0; MOST_DAYS];
    for k in 0..list.len() {
        add_duty(&mut table, days, list.duty(k), measure);
    }
    table
}
