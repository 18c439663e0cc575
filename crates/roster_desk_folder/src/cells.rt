//! What stands in cells.

use jiff::Timestamp;
use jiff::civil::Date;
use jiff::tz::TimeZone;
use roster_desk_sheets::{Column, Entry, Mistakes};
use roster_desk_times::{read_date, read_instant, read_minutes, read_month};
use roster_model::limits::{MOST_DIGITS, MOST_MINUTES, MOST_NAME_BYTES};
use roster_values::is_identifier;
use std::alloc::{AllocError, Global};
use std::str;

/// Reads cells, and keeps what is wrong with them.
#[derive(Drop)]
pub struct Cells {
    /// Where memory comes from.
    pub alloc: Global,
    /// What is wrong so far.
    pub mistakes: Mistakes,
}

/// The byte of a name in place of this one, if one stands for it.
fn byte_of_name(byte: u8) -> Option<u8> {
    if byte.is_ascii_alphanumeric() || byte == b'_' || byte == b'-' {
        Some(byte)
    } else if byte.is_ascii() {
        Some(b'-')
    } else {
        None
    }
}

/// A name that is like the text, as far as there is one.
fn name_like(alloc: Global, text: &[u8]) -> Result<Vec<u8>, AllocError> {
    let mut name = Vec::new(alloc);
    for byte in text {
        let Some(byte) = byte_of_name(*byte) else {
            continue;
        };
        let begins = byte.is_ascii_alphanumeric() || !name.is_empty();
        if begins && name.len() < MOST_NAME_BYTES {
            name.push(byte)?;
        }
    }
    Ok(name)
}

/// What is wanted in place of a text that is no name.
fn wanted_name(alloc: Global, text: &[u8]) -> Result<String, AllocError> {
    let wanted = format!(in alloc;
        "a name of 1 to {MOST_NAME_BYTES} ASCII letters, digits, _ and -"
    )?;
    let like = name_like(alloc, text)?;
    match str::from_utf8(like.as_slice()) {
        Ok(like) if !like.is_empty() => format!(in alloc; "{wanted}, as {like}"),
        _ => Ok(wanted),
    }
}

/// The whole number that the text spells, of as many digits as a book may have.
fn number(text: &[u8]) -> Option<i64> {
    let digits = text.strip_prefix(b"-").unwrap_or(text);
    if digits.len() > MOST_DIGITS || !digits.iter().all(|byte| byte.is_ascii_digit()) {
        return None;
    }
    str::from_utf8(text).ok()?.parse::<i64>().ok()
}

impl Cells {
    /// Tells that something else is wanted in the column.
    pub fn tell(
        &mut self,
        entry: Entry<'_>,
        column: Column,
        wanted: &str,
    ) -> Result<(), AllocError> {
        entry.tell(self.alloc, &mut self.mistakes, column, wanted)
    }

    /// The name in the column. What can't be one is told, and given as it is.
    pub fn name(&mut self, entry: Entry<'_>, column: Column) -> Result<Vec<u8>, AllocError> {
        let text = entry.get(column);
        if !is_identifier(text) {
            let wanted = wanted_name(self.alloc, text)?;
            self.tell(entry, column, wanted.as_str())?;
        }
        Vec::from_slice(self.alloc, text)
    }

    /// The text in the column.
    pub fn text(&mut self, entry: Entry<'_>, column: Column) -> Result<Vec<u8>, AllocError> {
        Vec::from_slice(self.alloc, entry.get(column))
    }

    /// The number in the column, or the usual one if there is none.
    pub fn number(
        &mut self,
        entry: Entry<'_>,
        column: Column,
        usual: i64,
    ) -> Result<i64, AllocError> {
        let text = entry.get(column);
        if text.is_empty() {
            return Ok(usual);
        }
        match number(text) {
            Some(number) => Ok(number),
            None => {
                self.tell(entry, column, "a whole number")?;
                Ok(usual)
            }
        }
    }

    /// The minutes in the column, or 0 if nothing stands there.
    pub fn minutes(&mut self, entry: Entry<'_>, column: Column) -> Result<u32, AllocError> {
        let text = entry.get(column);
        if text.is_empty() {
            return Ok(0);
        }
        match read_minutes(text) {
            Some(minutes) => Ok(minutes),
            None => {
                let wanted = format!(in self.alloc;
                    "hours and minutes as 75:30, or minutes, {MOST_MINUTES} at most"
                )?;
                self.tell(entry, column, wanted.as_str())?;
                Ok(0)
            }
        }
    }

    /// The instant in the column: by its own offset, or by the clocks of the place if these are known.
    pub fn instant(
        &mut self,
        entry: Entry<'_>,
        column: Column,
        zone: Option<&TimeZone<'static>>,
    ) -> Result<Option<Timestamp>, AllocError> {
        match read_instant(entry.get(column), zone) {
            Ok(at) => Ok(Some(at)),
            Err(fault) => {
                self.tell(entry, column, fault.wanted())?;
                Ok(None)
            }
        }
    }

    /// The date in the column, if something stands there.
    pub fn date(&mut self, entry: Entry<'_>, column: Column) -> Result<Option<Date>, AllocError> {
        let text = entry.get(column);
        if text.is_empty() {
            return Ok(None);
        }
        let date = read_date(text);
        if date.is_none() {
            self.tell(entry, column, "a date as 2024-06-11")?;
        }
        Ok(date)
    }

    /// The first date of the month in the column.
    pub fn month(&mut self, entry: Entry<'_>, column: Column) -> Result<Option<Date>, AllocError> {
        let month = read_month(entry.get(column));
        if month.is_none() {
            self.tell(entry, column, "a month as 2024-06")?;
        }
        Ok(month)
    }
}
