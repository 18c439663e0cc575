//! What a field holds, as text that can be shown: valid UTF-8 without control characters, cut short.

use std::alloc::{AllocError, Global};
use std::str;

/// The bytes of a field that are shown, at most.
const MOST_SHOWN: usize = 80;

/// What stands for the rest of what is cut short.
const REST: &[u8] = b"...";

/// Whether the byte continues a character of UTF-8.
fn continues(byte: u8) -> bool {
    (0x80..0xc0).contains(&byte)
}

/// The first `most` bytes, or up to three fewer if a character would be cut.
fn cut(bytes: &[u8], most: usize) -> &[u8] {
    for back in 0..4 {
        let to = most.saturating_sub(back);
        if to >= bytes.len() {
            return bytes;
        }
        if !continues(bytes[to]) {
            return &bytes[..to];
        }
    }
    &bytes[..most.min(bytes.len())]
}

/// Whether the character shows nothing, or changes how others are shown.
fn is_hidden(c: char) -> bool {
    match c {
        '\0'..='\u{1f}' | '\u{7f}'..='\u{a0}' | '\u{ad}' => true,
        '\u{61c}' | '\u{180e}' | '\u{200b}'..='\u{200f}' | '\u{2028}'..='\u{202f}' => true,
        '\u{2060}'..='\u{206f}' | '\u{feff}' | '\u{fff9}'..='\u{fffb}' => true,
        _ => false,
    }
}

/// Appends a byte that is no part of a text, as in `\xff`.
fn push_byte(alloc: Global, out: &mut Vec<u8>, byte: u8) -> Result<(), AllocError> {
    let code = format!(in alloc; "\\x{byte:02x}")?;
    out.extend_from_slice(code.as_bytes())
}

/// Appends a character, or its number if it can't be shown.
fn push_char(alloc: Global, out: &mut Vec<u8>, c: char) -> Result<(), AllocError> {
    match c {
        '\n' => out.extend_from_slice(b"\\n"),
        '\r' => out.extend_from_slice(b"\\r"),
        '\t' => out.extend_from_slice(b"\\t"),
        '\\' => out.extend_from_slice(b"\\\\"),
        _ => {
            let text = if is_hidden(c) {
                let code = u32::from(c);
                format!(in alloc; "\\u{{{code:x}}}")?
            } else {
                format!(in alloc; "{c}")?
            };
            out.extend_from_slice(text.as_bytes())
        }
    }
}

/// Appends bytes that are no text: ASCII as it is, and others by their numbers.
fn push_bytes(alloc: Global, out: &mut Vec<u8>, bytes: &[u8]) -> Result<(), AllocError> {
    for byte in bytes {
        if byte.is_ascii() {
            push_char(alloc, out, char::from(*byte))?;
        } else {
            push_byte(alloc, out, *byte)?;
        }
    }
    Ok(())
}

/// Appends at most `most` bytes of the field so that they can be shown, and `...` if there are more.
fn push_cut(alloc: Global, out: &mut Vec<u8>, field: &[u8], most: usize) -> Result<(), AllocError> {
    let shown = cut(field, most);
    match str::from_utf8(shown) {
        Ok(text) => {
            for c in text.chars() {
                push_char(alloc, out, c)?;
            }
        }
        Err(_) => push_bytes(alloc, out, shown)?,
    }
    if shown.len() < field.len() {
        out.extend_from_slice(REST)?;
    }
    Ok(())
}

/// Whether the bytes are text of which each character can be shown.
pub(crate) fn is_shown(bytes: &[u8]) -> bool {
    match str::from_utf8(bytes) {
        Ok(text) => !text.chars().any(is_hidden),
        Err(_) => false,
    }
}

/// Appends a field so that it can be shown.
pub fn push_field(alloc: Global, out: &mut Vec<u8>, field: &[u8]) -> Result<(), AllocError> {
    push_cut(alloc, out, field, MOST_SHOWN)
}
