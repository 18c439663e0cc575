//! The forms of a record's fields.

ghost use Rattle.std.specs.Prelude.{◌≡◌, ◌&&◌, unsigned_abs, option_map, if◌then◌else◌, Some, None};
ghost use Rattle.std.specs.Char.{is_ascii_digit, is_ascii_graphic};
ghost use Rattle.std.specs.List.{list_all};
ghost use Rattle.std.specs.Str.{IsAscii};
ghost use Rattle.csv.specs.Records.{fields_of};
ghost use Rattle.roster_model.specs.Form as form;
ghost use Rattle.roster_model.specs.Form.{is_amount};
ghost use Rattle.roster_model.specs.Record as model;
ghost use Rattle.roster_model.specs.records.Cost.{is_limited};

use csv::ByteRecord;
use roster_model::limits::{MOST_DIGITS, MOST_UNITS, MOST_ZONE_BYTES};
use std::str;

/// The field at a place from 0, or no bytes if there is none.
#[tactic(auto, using(crate::proofs::Fields::field_at_is))]
pub(crate) fn field(fields: &ByteRecord, i: usize) -> &[u8]
    ensures { result.now ≡ model.field (fields_of fields.now) i }
{
    fields.get(i).unwrap_or(&[])
}

fn has_digits(text: &[u8]) -> bool
    ensures { result ≡ list_all is_ascii_digit text.now }
{
    text.iter().all(|c| c.is_ascii_digit())
}

/// What follows a minus, or the whole text.
fn unsigned_part(text: &[u8]) -> &[u8]
    ensures { result.now ≡ form.unsigned_part text.now }
{
    if text.starts_with(b"-") {
        &text[1..]
    } else {
        text
    }
}

/// Whether the text is a minus, which may be left out, and 1 to [`MOST_DIGITS`] digits.
#[tactic(auto, unfolding(roster_model::specs::Form::is_number))]
pub(crate) fn is_number(text: &[u8]) -> bool
    ensures { result ≡ form.is_number text.now }
{
    let digits = unsigned_part(text);
    (1..=MOST_DIGITS).contains(&digits.len()) && has_digits(digits)
}

/// The bytes as text, which ASCII is.
fn ascii(bytes: &[u8]) -> &str
    requires { IsAscii bytes.now }
    ensures { result.now ≡ bytes.now }
{
    str::from_utf8(bytes).unwrap()
}

/// The number that the text spells, if it is of the form.
fn number(text: &[u8]) -> Option<i64>
    ensures { result ≡ (if form.is_number text.now then Some (form.number_of text.now) else None) }
{
    if !is_number(text) {
        return None;
    }
    ascii(text).parse().ok()
}

/// The number that the text spells, if it is of the form and from 0 to `most`.
pub(crate) fn amount(text: &[u8], most: u32) -> Option<u32>
    ensures { result ≡ (if form.is_number text.now && is_amount most (form.number_of text.now)
        then Some (unsigned_abs (form.number_of text.now)) else None) }
{
    let number = u32::try_from(number(text)?).ok()?;
    (number <= most).then_some(number)
}

/// The number that the text spells, if it is of the form and no further than [`MOST_UNITS`] from 0.
pub(crate) fn units(text: &[u8]) -> Option<i32>
    ensures { result ≡ (if form.is_number text.now && is_limited (form.number_of text.now)
        then Some (form.number_of text.now) else None) }
{
    let number = i32::try_from(number(text)?).ok()?;
    (number.unsigned_abs() <= MOST_UNITS).then_some(number)
}

fn has_graphic_bytes(text: &[u8]) -> bool
    ensures { result ≡ list_all is_ascii_graphic text.now }
{
    text.iter().all(|c| c.is_ascii_graphic())
}

/// The text, if it is of visible ASCII bytes, one at least and as many as a zone text may have.
#[tactic(auto, unfolding(roster_model::specs::Form::is_zone_text))]
pub(crate) fn zone_text(text: &[u8]) -> Option<&str>
    ensures { option_map (λ s. s.now) result
        ≡ (if form.is_zone_text text.now then Some text.now else None) }
{
    if (1..=MOST_ZONE_BYTES).contains(&text.len()) && has_graphic_bytes(text) {
        Some(ascii(text))
    } else {
        None
    }
}
