//! Shapes of texts, and the digits in them.

ghost use Rattle.std.specs.Prelude.{◌≡◌, ◌<◌, ◌≤◌, ◌+◌, ◌-◌, ◌^◌, IsTrue, length, slice_range};
ghost use Rattle.std.specs.Int.{is_in_range};
ghost use Rattle.std.specs.Str.{all_ascii_digits};
ghost use Rattle.std.specs.Str.Parse.{digits_value};
ghost use Rattle.roster_model.specs.Form.{fits_shape, has_shape, number_at};

/// Whether the byte is a digit where the shape has `0`, and else the shape's own byte.
fn fits_shape(shape: u8, byte: u8) -> bool
    ensures { result ≡ fits_shape shape byte }
{
    if shape == b'0' {
        byte.is_ascii_digit()
    } else {
        byte == shape
    }
}

/// Whether the text has the shape, byte by byte.
pub(crate) fn has_shape(shape: &[u8], text: &[u8]) -> bool
    ensures value { result ≡ has_shape shape.now text.now }
    ensures long { IsTrue result → length text.now ≡ length shape.now }
{
    shape.len() == text.len()
        && shape
            .iter()
            .zip(text)
            .all(|(s, byte)| fits_shape(*s, *byte))
}

/// The number that one to four digits spell.
fn number(digits: &[u8]) -> u16
    requires digits { IsTrue (all_ascii_digits digits.now) }
    requires some { 1 ≤ length digits.now }
    requires few { length digits.now ≤ 4 }
    ensures value { result ≡ digits_value 10 digits.now }
    ensures bound { result < 10 ^ length digits.now }
{
    str::from_utf8(digits).unwrap().parse().unwrap()
}

/// The number that the one to four digits from place `from` up to `to` spell.
pub(crate) fn number_at(text: &[u8], from: usize, to: usize) -> u16
    requires within { to ≤ length text.now }
    requires some { from < to }
    requires few { to ≤ from + 4 }
    requires digits { IsTrue (all_ascii_digits (slice_range text.now from to)) }
    ensures value { result ≡ number_at text.now from to }
    ensures bound { result < 10 ^ (to - from) }
{
    number(&text[from..to])
}

/// Whether the number lies from `low` to `high`, both included.
pub(crate) fn is_in_range(low: u16, high: u16, number: u16) -> bool
    ensures { result ≡ is_in_range low high number }
{
    (low..=high).contains(&number)
}
