//! Durations and months.

ghost use Rattle.std.specs.Prelude.{◌≤◌, IfSome};

use jiff::civil::Date;
use roster_model::limits::MOST_MINUTES;
use std::str;

/// The digits of a year, and of a month in it.
const YEAR_DIGITS: usize = 4;

const MONTH_DIGITS: usize = 2;

/// The number that digits alone spell.
fn number(text: &str) -> Option<u32> {
    if !text.bytes().all(|byte| byte.is_ascii_digit()) {
        return None;
    }
    text.parse::<u32>().ok()
}

/// The minutes of an hour that two digits spell.
fn minutes_past(text: &str) -> Option<u32> {
    let minutes = number(text)?;
    if text.len() != 2 || minutes > 59 {
        return None;
    }
    Some(minutes)
}

/// The minutes that a text spells as hours and minutes, or as minutes.
fn spelled(text: &str) -> Option<u32> {
    match text.split_once(':') {
        Some((hours, minutes)) => number(hours)?
            .checked_mul(60)?
            .checked_add(minutes_past(minutes)?),
        None => number(text),
    }
}

/// The minutes that a text spells, as `75:30` or as `4530`, if a book may have as many.
pub fn read_minutes(text: &[u8]) -> Option<u32>
    ensures { IfSome result (λ minutes. minutes ≤ MOST_MINUTES) }
{
    let minutes = spelled(str::from_utf8(text).ok()?)?;
    if minutes > MOST_MINUTES {
        return None;
    }
    Some(minutes)
}

/// The first date of the month that a text spells, as `2024-06`.
pub fn read_month(text: &[u8]) -> Option<Date> {
    let text = str::from_utf8(text).ok()?;
    let (year, month) = text.split_once('-')?;
    if year.len() != YEAR_DIGITS || month.len() != MONTH_DIGITS {
        return None;
    }
    let year = i16::try_from(number(year)?).ok()?;
    let month = i8::try_from(number(month)?).ok()?;
    Date::new(year, month, 1).ok()
}
