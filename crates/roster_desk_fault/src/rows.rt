//! The records of a book, each with its line in the file.

ghost use Rattle.std.specs.Prelude.{◌≡◌, ◌+◌, ◌<◌, All, IfOk, IfSome};
ghost use Rattle.roster_desk_fault.specs.Firsts.{AreKept, IsKeptAt};

use crate::kinds::Kind;
use roster_desk_sheets::{Row, push_field, read_rows as read_lines};
use std::alloc::{AllocError, Global};

/// The fields of a record that are shown, at most.
const MOST_FIELDS: usize = 12;

/// What stands for the fields that aren't shown.
const REST: &[u8] = b",...";

/// A record.
#[derive(Drop)]
pub(crate) struct Record {
    row: Row,
    /// Whether the book is judged without it.
    pub(crate) left_out: bool,
}

impl Record {
    /// The field at a place from 0, or no bytes if there is none.
    pub(crate) fn field(&self, i: usize) -> &[u8] {
        self.row.field(i)
    }

    /// How many fields it has.
    pub(crate) fn len(&self) -> usize {
        self.row.len()
    }

    /// The line of the file on which it begins, from 1.
    pub(crate) fn line(&self) -> usize {
        self.row.line()
    }

    /// Its kind, if a book for a check may have it.
    pub(crate) fn kind(&self) -> Option<Kind> {
        Kind::read(self.field(0))
    }

    /// Whether it is of the kind.
    pub(crate) fn is(&self, kind: Kind) -> bool {
        self.field(0) == kind.word().as_bytes()
    }

    /// Whether it is of the kind, and the field at the place is the text.
    pub(crate) fn has(&self, kind: Kind, i: usize, text: &[u8]) -> bool {
        self.is(kind) && self.field(i) == text
    }

    /// Appends the record with each field in quotes, so that it reads as the same record again.
    fn push_quoted(&self, out: &mut Vec<u8>) -> Result<(), AllocError> {
        for i in 0..self.len() {
            if i > 0 {
                out.push(b',')?;
            }
            push_quoted(out, self.field(i))?;
        }
        out.push(b'\n')?;
        Ok(())
    }
}

/// Appends a field in quotes.
fn push_quoted(out: &mut Vec<u8>, field: &[u8]) -> Result<(), AllocError> {
    out.push(b'"')?;
    for byte in field {
        if *byte == b'"' {
            out.push(b'"')?;
        }
        out.push(*byte)?;
    }
    out.push(b'"')?;
    Ok(())
}

/// Appends a record so that it can be shown, as it stands in a book.
pub(crate) fn push_record(
    alloc: Global,
    out: &mut Vec<u8>,
    record: &Record,
) -> Result<(), AllocError> {
    for i in 0..record.len().min(MOST_FIELDS) {
        if i > 0 {
            out.push(b',')?;
        }
        push_field(alloc, out, record.field(i))?;
    }
    if record.len() > MOST_FIELDS {
        out.extend_from_slice(REST)?;
    }
    Ok(())
}

/// The records of the book in the bytes, as a check reads them. The n-th is that of row n + 1.
pub(crate) fn read_rows(alloc: Global, bytes: &[u8]) -> Result<Vec<Record>, AllocError>
    ensures { IfOk result (λ rows. AreKept rows.items) }
{
    let mut records = Vec::new(alloc);
    for row in read_lines(alloc, bytes, b',')? {
        records.push(Record {
            row,
            left_out: false,
        })?;
    }
    Ok(records)
}

/// A book of the records that aren't left out.
pub(crate) fn kept_text(alloc: Global, rows: &[Record]) -> Result<Vec<u8>, AllocError> {
    let mut out = Vec::new(alloc);
    for row in rows {
        if !row.left_out {
            row.push_quoted(&mut out)?;
        }
    }
    Ok(out)
}

/// The place of the n-th of the records that aren't left out, from 1, if there are so many.
#[tactic(auto, using(crate::proofs::Counting::counting))]
pub(crate) fn kept_at(rows: &[Record], n: usize) -> Option<usize>
    ensures { IfSome result (IsKeptAt rows.now n) }
{
    let mut kept = 0usize;
    for i in 0..rows.len() {
        if !rows[i].left_out {
            kept += 1;
            if kept == n {
                return Some(i);
            }
        }
    }
    None
}
