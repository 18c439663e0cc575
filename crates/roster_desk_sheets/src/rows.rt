//! The records of a text, each with its line.

use csv::{ByteRecord, Reader, ReaderBuilder};
use std::alloc::{AllocError, Global};

/// A record.
#[derive(Drop)]
pub struct Row {
    fields: ByteRecord,
    line: usize,
}

impl Row {
    /// The field at a place from 0, or no bytes if there is none.
    pub fn field(&self, i: usize) -> &[u8] {
        self.fields.get(i).unwrap_or(&[])
    }

    /// How many fields it has.
    pub fn len(&self) -> usize {
        self.fields.len()
    }

    /// The line of the text on which it begins, from 1.
    pub fn line(&self) -> usize {
        self.line
    }
}

/// Where a reader of lines is: how many bytes it has passed, and its line, from 1.
#[derive(Clone, Copy)]
struct Line {
    at: usize,
    line: usize,
}

/// Whether a line ends with the byte, of which the next one follows.
fn ends_line(byte: u8, next: Option<u8>) -> bool {
    byte == b'\n' || byte == b'\r' && next != Some(b'\n')
}

/// Where the reader is when it has passed as many bytes, or else so far as before.
fn passed(bytes: &[u8], from: Line, to: usize) -> Line {
    let mut line = from.line;
    for i in from.at..to.min(bytes.len()) {
        if ends_line(bytes[i], bytes.get(i.saturating_add(1)).copied()) {
            line = line.saturating_add(1);
        }
    }
    let at = from.at.max(to);
    Line { at, line }
}

/// The first place, from this one on, at which no line end stands.
fn past_line_ends(bytes: &[u8], from: usize) -> usize {
    for i in from..bytes.len() {
        if bytes[i] != b'\n' && bytes[i] != b'\r' {
            return i;
        }
    }
    bytes.len()
}

/// Where the record begins, as the reader tells it: line ends may stand before it.
fn begin_of(fields: &ByteRecord, bytes: &[u8]) -> usize {
    let from = fields.position().map_or(0, |position| position.byte());
    usize::try_from(from).unwrap_or(bytes.len())
}

/// The next record, if there is one.
fn next_of(alloc: Global, reader: &mut Reader<&[u8]>) -> Result<Option<ByteRecord>, AllocError> {
    let mut fields = ByteRecord::new(alloc);
    match reader.read_byte_record(&mut fields) {
        Ok(true) => Ok(Some(fields)),
        Ok(false) => Ok(None),
        Err(_) => Err(AllocError),
    }
}

/// Puts all records that the reader has behind the others.
fn push_rows(
    alloc: Global,
    rows: &mut Vec<Row>,
    reader: &mut Reader<&[u8]>,
    bytes: &[u8],
) -> Result<(), AllocError> {
    let mut reached = Line { at: 0, line: 1 };
    // Each record takes a byte at least.
    for _ in 0..bytes.len() {
        let Some(fields) = next_of(alloc, reader)? else {
            break;
        };
        reached = passed(
            bytes,
            reached,
            past_line_ends(bytes, begin_of(&fields, bytes)),
        );
        rows.push(Row {
            fields,
            line: reached.line,
        })?;
    }
    Ok(())
}

/// What a byte order mark is in UTF-8.
const MARK: &[u8] = b"\xef\xbb\xbf";

/// Where in a field a reader is.
#[derive(Clone, Copy, PartialEq, Eq)]
enum Within {
    /// At its first byte.
    Begin,
    /// In one that has no quotes, or behind the closing one.
    Plain,
    /// Behind its opening quote.
    Quoted,
    /// Behind a quote that closes it, unless another quote follows.
    Closed,
}

/// Where the reader is behind the next byte.
fn behind(within: Within, byte: u8, separator: u8) -> Within {
    let is_quote = byte == b'"';
    match within {
        Within::Quoted if is_quote => Within::Closed,
        Within::Quoted => Within::Quoted,
        Within::Closed if is_quote => Within::Quoted,
        _ if byte == separator || byte == b'\n' || byte == b'\r' => Within::Begin,
        Within::Begin if is_quote => Within::Quoted,
        _ => Within::Plain,
    }
}

/// Whether the last field of the text is in quotes of which the closing one is missing: it then has all that
/// stands below.
pub(crate) fn is_unclosed(bytes: &[u8], separator: u8) -> bool {
    let mut within = Within::Begin;
    for byte in bytes.strip_prefix(MARK).unwrap_or(bytes) {
        within = behind(within, *byte, separator);
    }
    within == Within::Quoted
}

/// The records of the text, whose fields are parted by the separator.
pub fn read_rows(alloc: Global, bytes: &[u8], separator: u8) -> Result<Vec<Row>, AllocError> {
    let mut reader = ReaderBuilder::new()
        .has_headers(false)
        .flexible(true)
        .delimiter(separator)
        .from_reader(alloc, bytes);
    let mut rows = Vec::new(alloc);
    push_rows(alloc, &mut rows, &mut reader, bytes)?;
    Ok(rows)
}
