//! Whether fields are of their forms and within their limits, and what is wanted of those that aren't.

use crate::kinds::Form;
use roster_instants::{Period, read_minute};
use roster_model::limits::{
    FIRST_MONTH_YEAR, FIRST_YEAR, LAST_MONTH_YEAR, LAST_YEAR, MOST_DIGITS, MOST_NAME_BYTES,
    MOST_ZONE_BYTES,
};
use roster_values::is_identifier;
use std::alloc::{AllocError, Global};
use std::str;

/// The bytes of an instant.
const INSTANT_BYTES: usize = 17;

/// What follows a minus, or the whole text.
fn unsigned_part(text: &[u8]) -> &[u8] {
    text.strip_prefix(b"-").unwrap_or(text)
}

/// Whether the text is a minus, which may be left out, and 1 to [`MOST_DIGITS`] digits.
fn is_number(text: &[u8]) -> bool {
    let digits = unsigned_part(text);
    (1..=MOST_DIGITS).contains(&digits.len()) && digits.iter().all(|c| c.is_ascii_digit())
}

/// Whether the text is a zone text by its length and its characters.
fn is_zone(text: &[u8]) -> bool {
    (1..=MOST_ZONE_BYTES).contains(&text.len()) && text.iter().all(|c| c.is_ascii_graphic())
}

/// Whether the text is of the form.
pub(crate) fn is_formed(form: Form, text: &[u8]) -> bool {
    match form {
        Form::Month => Period::read(text).is_some(),
        Form::Identifier => is_identifier(text),
        Form::OrNobody => is_identifier(text) || text == b"-".as_slice(),
        Form::DutyLetter => text == b"P".as_slice() || text == b"C".as_slice(),
        Form::SectorLetter => text == b"O".as_slice() || text == b"P".as_slice(),
        Form::Instant => read_minute(text).is_some(),
        Form::Zone => is_zone(text),
        Form::Amount(_) | Form::Units(_) => is_number(text),
    }
}

/// The number that a text of the form spells.
pub(crate) fn number(text: &[u8]) -> Option<i64> {
    str::from_utf8(text).ok()?.parse::<i64>().ok()
}

/// Whether the number is within the limits of the form; other fields have none.
pub(crate) fn is_within(form: Form, text: &[u8]) -> bool {
    let Some(number) = number(text) else {
        return true;
    };
    match form {
        Form::Amount(most) => (0..=i64::from(most)).contains(&number),
        Form::Units(most) => number.unsigned_abs() <= u64::from(most),
        _ => true,
    }
}

/// What is wanted of a name, with what is wrong with the text.
fn wanted_name(alloc: Global, text: &[u8]) -> Result<String, AllocError> {
    let wanted = if text.is_empty() {
        "a name; the field is empty"
    } else if text.contains(&b' ') {
        "a name without a space"
    } else if !text.is_ascii() {
        "a name of ASCII letters, without accents"
    } else if text.len() > MOST_NAME_BYTES {
        return format!(in alloc; "a name of {MOST_NAME_BYTES} characters at most");
    } else if text.starts_with(b"-") || text.starts_with(b"_") {
        "a name that begins with a letter or a digit"
    } else {
        "a name of ASCII letters, digits, _ and -"
    };
    String::from_str(alloc, wanted)
}

/// Whether the text begins as an instant does, and goes on otherwise.
fn has_seconds(text: &[u8]) -> bool {
    text.len() >= 19 && text.get(16) == Some(&b':')
}

/// What is wanted of an instant, with what is wrong with the text.
fn wanted_instant(alloc: Global, text: &[u8]) -> Result<String, AllocError> {
    let hint = if text.is_empty() {
        "; the field is empty"
    } else if has_seconds(text) {
        return String::from_str(
            alloc,
            "an instant in UTC to the minute, as 2024-06-11T08:00Z, without seconds",
        );
    } else if text.len() > INSTANT_BYTES {
        ", with Z in place of an offset and nothing behind it"
    } else if text.get(10) == Some(&b't') || text.ends_with(b"z") {
        ", with a large T and Z"
    } else if text.get(10) == Some(&b' ') {
        ", with a T in place of the space"
    } else if text.get(11..13) == Some(b"24".as_slice()) {
        ": midnight is 00:00 of the next day"
    } else if text.len() == 16 && text.ends_with(b"Z") {
        ": hours, minutes, months and days have two digits"
    } else if text.len() == INSTANT_BYTES {
        return format!(in alloc;
            "an instant in UTC, as 2024-06-11T08:00Z, of a real date of the years {FIRST_YEAR} to {LAST_YEAR}"
        );
    } else {
        ""
    };
    format!(in alloc; "an instant in UTC, as 2024-06-11T08:00Z{hint}")
}

/// What is wanted of a number, with what is wrong with the text.
fn wanted_number(alloc: Global, text: &[u8]) -> Result<String, AllocError> {
    let wanted = if text.is_empty() {
        "a number; 0 if there is nothing to say"
    } else if text.starts_with(b"+") {
        "a number without a plus"
    } else if text.contains(&b'.') {
        "a whole number, as 90 minutes for 1.5 hours"
    } else if text.contains(&b' ') || text.contains(&b'\'') {
        "a number of digits alone, without spaces or marks between them"
    } else {
        return format!(in alloc; "a number of 1 to {MOST_DIGITS} digits");
    };
    String::from_str(alloc, wanted)
}

/// What is wanted of a zone text, with what is wrong with the text.
fn wanted_zone(alloc: Global, text: &[u8]) -> Result<String, AllocError> {
    if text.len() > MOST_ZONE_BYTES {
        format!(in alloc; "a zone text of {MOST_ZONE_BYTES} characters at most")
    } else {
        String::from_str(alloc, "a zone text without a space, as UTC0")
    }
}

/// What is wanted of a field that isn't of its form.
pub(crate) fn wanted_form(alloc: Global, form: Form, text: &[u8]) -> Result<String, AllocError> {
    let wanted = match form {
        Form::Month => {
            return format!(in alloc;
                "a month as 2024-06, of the years {FIRST_MONTH_YEAR} to {LAST_MONTH_YEAR}"
            );
        }
        Form::Identifier => return wanted_name(alloc, text),
        Form::OrNobody => "a person's name, or - for nobody",
        Form::DutyLetter => "P for a duty of a pairing, or C for a fixed duty of a person",
        Form::SectorLetter => "O for an operated sector, or P for a positioning one",
        Form::Instant => return wanted_instant(alloc, text),
        Form::Zone => return wanted_zone(alloc, text),
        Form::Amount(_) | Form::Units(_) => return wanted_number(alloc, text),
    };
    String::from_str(alloc, wanted)
}

/// What is wanted of a field that is outside its limits.
pub(crate) fn wanted_limits(alloc: Global, form: Form) -> Result<String, AllocError> {
    match form {
        Form::Amount(most) => format!(in alloc; "a number from 0 to {most}"),
        Form::Units(most) => format!(in alloc; "a number from -{most} to {most}"),
        _ => String::from_str(alloc, "another text"),
    }
}
