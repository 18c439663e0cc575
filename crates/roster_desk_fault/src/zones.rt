//! Zone texts whose sign disagrees with their name.

use crate::kinds::Kind;
use crate::rows::Record;
use crate::warning::{Warning, warn};
use std::alloc::{AllocError, Global};

/// Where a zone lies.
#[derive(Clone, Copy, PartialEq, Eq)]
enum Side {
    /// Its clocks are ahead of UTC.
    East,
    /// They are behind UTC.
    West,
    /// They show UTC.
    Middle,
}

/// Well-known names of zones, and where they lie. Names that several zones have aren't among them.
const NAMES: [(&str, Side); 29] = [
    ("UTC", Side::Middle),
    ("GMT", Side::Middle),
    ("WET", Side::Middle),
    ("CET", Side::East),
    ("MET", Side::East),
    ("EET", Side::East),
    ("MSK", Side::East),
    ("TRT", Side::East),
    ("SAST", Side::East),
    ("CAT", Side::East),
    ("EAT", Side::East),
    ("WAT", Side::East),
    ("PKT", Side::East),
    ("WIB", Side::East),
    ("SGT", Side::East),
    ("HKT", Side::East),
    ("JST", Side::East),
    ("KST", Side::East),
    ("AWST", Side::East),
    ("ACST", Side::East),
    ("AEST", Side::East),
    ("NZST", Side::East),
    ("AST", Side::West),
    ("EST", Side::West),
    ("MST", Side::West),
    ("PST", Side::West),
    ("AKST", Side::West),
    ("HST", Side::West),
    ("NST", Side::West),
];

/// Where the zone of a well-known name lies.
fn side_of_name(name: &[u8]) -> Option<Side> {
    for (known, side) in &NAMES {
        if known.as_bytes() == name {
            return Some(*side);
        }
    }
    if name.starts_with(b"<+00") || name.starts_with(b"<-00") {
        Some(Side::Middle)
    } else if name.starts_with(b"<+") {
        Some(Side::East)
    } else if name.starts_with(b"<-") {
        Some(Side::West)
    } else {
        None
    }
}

/// Whether the byte belongs to the name of a zone that doesn't stand in brackets.
fn is_letter(byte: u8) -> bool {
    byte.is_ascii_alphabetic()
}

/// How many bytes the name has with which the text begins.
fn name_length(text: &[u8]) -> usize {
    for (i, byte) in text.iter().enumerate() {
        if text.starts_with(b"<") {
            if *byte == b'>' {
                return i.saturating_add(1);
            }
        } else if !is_letter(*byte) {
            return i;
        }
    }
    text.len()
}

/// Whether a digit other than 0 stands in the offset with which the text begins.
fn is_nonzero(text: &[u8]) -> bool {
    for byte in text {
        if (b'1'..=b'9').contains(byte) {
            return true;
        }
        if !matches!(*byte, b'0' | b':' | b'+' | b'-') {
            return false;
        }
    }
    false
}

/// Where the zone lies by its offset, which counts west.
fn side_of_offset(text: &[u8]) -> Side {
    if !is_nonzero(text) {
        Side::Middle
    } else if text.starts_with(b"-") {
        Side::East
    } else {
        Side::West
    }
}

/// Why a zone text is likely wrong, if it is.
fn zone_reason(text: &[u8]) -> Option<&'static str> {
    let (name, offset) = text.split_at(name_length(text).min(text.len()));
    let known = side_of_name(name)?;
    let told = side_of_offset(offset);
    if known == told {
        return None;
    }
    Some(match (known, told) {
        (Side::Middle, Side::West) => {
            "the name is that of UTC, but by the offset, which counts west, clocks are behind UTC"
        }
        (Side::Middle, _) => {
            "the name is that of UTC, but by the offset, which counts west, clocks are ahead of UTC"
        }
        (Side::East, Side::West) => {
            "clocks of this name are ahead of UTC; the offset counts west, so it wants a minus"
        }
        (Side::West, Side::East) => {
            "clocks of this name are behind UTC; the offset counts west, so it wants no minus"
        }
        _ => "clocks of this name don't show UTC, but by the offset they do",
    })
}

/// Warnings of zone texts.
pub(crate) fn zones(alloc: Global, rows: &[Record]) -> Result<Vec<Warning>, AllocError> {
    let mut warnings = Vec::new(alloc);
    for (at, row) in rows.iter().enumerate() {
        if row.is(Kind::Base) {
            if let Some(why) = zone_reason(row.field(2)) {
                warn(&mut warnings, alloc, at, why)?;
            }
        }
    }
    Ok(warnings)
}
