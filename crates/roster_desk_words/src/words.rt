//! Times, days and names.

ghost use Rattle.std.specs.Prelude.{◌≡◌, ◌++◌, ◌<◌, IfOk, OnOk, length, string_bytes};
ghost use Rattle.std.specs.List.{flat_map};
ghost use Rattle.roster_desk_words.specs.Words as words;
ghost use Rattle.roster_desk_words.specs.Words.{date_text, day_text, name_at, person_at, time_text};

use jiff_core::civil::Date;
use roster_instants::{Minute, Period};
use roster_model::limits::DAYS_BEFORE;
use roster_problem::{Duty, DutyList, Problem};
use std::alloc::{AllocError, Global};

/// Appends the parts one behind another.
pub fn push_all(out: &mut Vec<u8>, parts: &[&[u8]]) -> Result<(), AllocError>
    ensures { OnOk result (out.new.items ≡ out.old.items ++ flat_map (λ part. part.now) parts.now) }
{
    for part in parts {
        out.extend_from_slice(part)?;
    }
    Ok(())
}

/// Minutes as hours and minutes, as in `12:59`.
pub fn time(alloc: Global, minutes: u64) -> Result<String, AllocError>
    ensures { IfOk result (λ text. string_bytes text ≡ time_text minutes) }
{
    let hours = minutes / 60;
    let (tens, ones) = (minutes % 60 / 10, minutes % 10);
    format!(in alloc; "{hours}:{tens}{ones}")
}

/// Appends minutes as hours and minutes, and the words behind them.
pub(crate) fn push_time(
    alloc: Global,
    out: &mut Vec<u8>,
    minutes: u64,
    behind: &[u8],
) -> Result<(), AllocError>
    ensures { OnOk result (out.new.items ≡ out.old.items ++ time_text minutes ++ behind.now) }
{
    let text = time(alloc, minutes)?;
    push_all(out, &[text.as_bytes(), behind])
}

/// A date as in `2024-03-09`.
pub fn date(alloc: Global, year: i16, month: u8, day: usize) -> Result<String, AllocError>
    ensures { IfOk result (λ text. string_bytes text ≡ date_text year month day) }
{
    let (month_tens, month_ones) = (month / 10, month % 10);
    let (tens, ones) = (day / 10, day % 10);
    format!(in alloc; "{year}-{month_tens}{month_ones}-{tens}{ones}")
}

/// The date of the `n`-th day of the month, which has so many days, or of the next month.
fn date_in(alloc: Global, period: Period, month_days: usize, n: usize) -> Result<String, AllocError>
    ensures { IfOk result (λ text. string_bytes text ≡ words.date_in period month_days n) }
{
    let (year, month) = (period.year(), period.month() as u8);
    if n <= month_days {
        return date(alloc, year, month, n);
    }
    if month < 12 {
        return date(alloc, year, month + 1, n - month_days);
    }
    date(alloc, year + 1, 1, n - month_days)
}

/// The date of a day of the window that is of the month, which has so many days, or of the next one.
pub(crate) fn day(
    alloc: Global,
    period: Period,
    month_days: usize,
    day: usize,
) -> Result<String, AllocError>
    ensures { IfOk result (λ text. string_bytes text ≡ day_text period month_days day) }
{
    date_in(
        alloc,
        period,
        month_days,
        day.saturating_sub(DAYS_BEFORE) + 1,
    )
}

/// An instant as in `2024-06-11T08:00Z`.
pub fn instant(alloc: Global, minute: Minute) -> Result<String, AllocError> {
    let minutes = minute.get();
    let Ok(date) = Date::from_unix_epoch_day(minutes / 1440) else {
        return String::from_str(alloc, "-");
    };
    let (year, month, day) = (date.year, date.month, date.day);
    let (hour, rest) = (minutes % 1440 / 60, minutes % 60);
    format!(in alloc; "{year}-{month:02}-{day:02}T{hour:02}:{rest:02}Z")
}

/// The duty at a place of the list, if it has one there.
pub(crate) fn duty_at<'a>(list: &'a DutyList<'a>, i: usize) -> Option<&'a Duty> {
    if i >= list.len() {
        return None;
    }
    Some(list.duty(i))
}

/// The name of the duty at a place of the list; `-` if it has none there.
pub(crate) fn duty_name<'a>(list: &'a DutyList<'a>, i: usize) -> &'a [u8] {
    match duty_at(list, i) {
        Some(duty) => duty.id.as_bytes(),
        None => b"-",
    }
}

/// The name of the pairing at a place of the book; `-` if it has none there.
pub fn pairing_name(problem: &Problem, p: usize) -> &[u8]
    ensures { result.now ≡ name_at problem.now p }
{
    match problem.pairings().get(p) {
        Some(pairing) => pairing.id.as_bytes(),
        None => b"-",
    }
}

/// The name of person `k` of the book.
pub(crate) fn person_name(problem: &Problem, k: usize) -> &[u8]
    requires { k < length problem.now.persons }
    ensures { result.now ≡ person_at problem.now k }
{
    problem.person(k).id.as_bytes()
}
