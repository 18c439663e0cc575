//! Duty and flight by local day, in runs of days, and in the month, in minutes.

ghost use Rattle.std.specs.Prelude.{◌≡◌, ◌≤◌, ◌<◌, ◌*◌, ◌-◌, length, pos};
ghost use Rattle.roster_model.specs.Sums as sums;
ghost use Rattle.roster_cumulative.specs.Table.{minutes_of, most_in_run};

use crate::runs::greatest_run;
use crate::table::{Measure, minutes_by_day};
use roster_instants::{BaseDays, Minute, common};
use roster_model::limits::{DAYS_BEFORE, LAST_INSTANT, MOST_MONTH_MINUTES};
use roster_problem::{Duty, DutyList, Sector};

/// What the list has of the measure on day `i`.
fn minutes_on(days: &BaseDays, list: &DutyList, i: usize, measure: Measure) -> i64
    requires { i < length days.now.eight }
    ensures value { result ≡ pos (sums.on_day (minutes_of measure) days.now list.now i) }
    ensures bound { sums.on_day (minutes_of measure) days.now list.now i ≤ most_in_run }
{
    prove!(i < days.days());
    minutes_by_day(days, list, measure)[i] as i64
}

/// The most that the list has of the measure in a judged run of `n` days.
fn most_minutes(days: &BaseDays, list: &DutyList, n: usize, measure: Measure) -> i64
    requires { n ≤ DAYS_BEFORE }
    ensures value { let minutes = sums.on_day (minutes_of measure) days.now list.now in
        result ≡ pos (sums.greatest_run minutes days.now n) }
    ensures bound { let minutes = sums.on_day (minutes_of measure) days.now list.now in
        sums.greatest_run minutes days.now n ≤ most_in_run }
{
    greatest_run(days, &minutes_by_day(days, list, measure), n) as i64
}

/// The minutes of duty of the list on day `i`.
pub fn duty_on(days: &BaseDays, list: &DutyList, i: usize) -> i64
    requires { i < length days.now.eight }
    ensures value { result ≡ pos (sums.duty_on days.now list.now i) }
    ensures bound { sums.duty_on days.now list.now i ≤ most_in_run }
{
    minutes_on(days, list, i, Measure::Duty)
}

/// The minutes of flight of the list on day `i`.
pub fn flight_on(days: &BaseDays, list: &DutyList, i: usize) -> i64
    requires { i < length days.now.eight }
    ensures value { result ≡ pos (sums.flight_on days.now list.now i) }
    ensures bound { sums.flight_on days.now list.now i ≤ most_in_run }
{
    minutes_on(days, list, i, Measure::Flight)
}

/// The greatest duty, in minutes, of a judged run of `n` days; `n` is at most the days before the month.
/// A run is judged if its last day is of the month or after it.
pub fn greatest_duty(days: &BaseDays, list: &DutyList, n: usize) -> i64
    requires { n ≤ DAYS_BEFORE }
    ensures value { result ≡ pos (sums.greatest_duty days.now list.now n) }
    ensures bound { sums.greatest_duty days.now list.now n ≤ most_in_run }
{
    most_minutes(days, list, n, Measure::Duty)
}

/// The greatest flight, in minutes, of a judged run of `n` days; `n` is at most the days before the
/// month.
pub fn greatest_flight(days: &BaseDays, list: &DutyList, n: usize) -> i64
    requires { n ≤ DAYS_BEFORE }
    ensures value { result ≡ pos (sums.greatest_flight days.now list.now n) }
    ensures bound { sums.greatest_flight days.now list.now n ≤ most_in_run }
{
    most_minutes(days, list, n, Measure::Flight)
}

/// The minutes of the sector from one instant to another that its person flies.
fn flown_between(sector: Sector, from: Minute, to: Minute) -> u64
    requires sector { sector.off ≤ sector.on }
    requires order { from ≤ to }
    ensures { result ≡ sums.flown_between sector from to }
{
    if sector.operates {
        common(sector.off, sector.on, from, to) as u64
    } else {
        0
    }
}

/// The flight of the duty from one instant to another.
pub(crate) fn flight_between(duty: &Duty, from: Minute, to: Minute) -> u64
    requires { from ≤ to }
    ensures value { result ≡ sums.flight_between duty.now from to }
    ensures bound { result ≤ to - from }
{
    prove!(to.get() <= LAST_INSTANT as i64);
    let mut total = 0;
    for sector in &duty.sectors {
        total += flown_between(*sector, from, to);
    }
    total
}

/// The minutes of flight of the duty in the month. It looks at no day of the month.
pub fn duty_flight(days: &BaseDays, duty: &Duty) -> i64
    ensures value { result ≡ pos (sums.duty_flight days.now duty.now) }
    ensures bound { sums.duty_flight days.now duty.now ≤ MOST_MONTH_MINUTES }
{
    flight_between(duty, days.month_start(), days.month_end()) as i64
}

/// The minutes of flight of the list in the month, which are those of its duties.
pub fn month_flight(days: &BaseDays, list: &DutyList) -> i64
    ensures value { result ≡ pos (sums.month_flight days.now list.now) }
    ensures bound { sums.month_flight days.now list.now ≤ length list.now * MOST_MONTH_MINUTES }
{
    let mut total = 0;
    for k in 0..list.len() {
        total += duty_flight(days, list.duty(k));
    }
    total
}
