//! The records of a text that is written, on `csv`.

ghost use Rattle.std.specs.Prelude.{◌≡◌, [], false, true, IfOk, map, OnOk};
ghost use Rattle.csv.specs.Records.{fields_of};
ghost use Rattle.csv.specs.Writing.{default_writer, with_delimiter, with_flexible};
ghost use Rattle.roster_desk_sheets.specs.Written.{HasRow, IsWhole, mark_of, parted, setup_of, text_of};

use csv::{ByteRecord, Writer, WriterBuilder};
use std::alloc::{AllocError, Global};

/// What tells a spreadsheet that a text is UTF-8.
const MARK: [u8; 3] = [0xef, 0xbb, 0xbf];

/// How a table is written.
#[derive(Clone, Copy, PartialEq, Eq)]
pub struct Look {
    /// Whether semicolons part the cells, in place of commas.
    pub semicolon: bool,
    /// Whether a byte order mark stands before the first row.
    pub mark: bool,
}

/// The text of a table, record by record. Nothing but want of memory can fail.
#[derive(Drop)]
pub struct Records {
    writer: Writer<Vec<u8>>,
}

impl Records {
    /// No record, with commas.
    pub fn new(alloc: Global) -> Records
        ensures whole { IsWhole result }
        ensures setup { setup_of result ≡ parted false }
        ensures text { text_of result ≡ [] }
    {
        Records::behind(Vec::new(alloc), b',')
    }

    /// No record, in this look.
    pub fn in_look(alloc: Global, look: Look) -> Result<Records, AllocError>
        ensures whole { IfOk result IsWhole }
        ensures setup { IfOk result (λ records. setup_of records ≡ parted look.semicolon) }
        ensures text { IfOk result (λ records. text_of records ≡ mark_of look.mark) }
    {
        let mut text = Vec::new(alloc);
        if look.mark {
            text.extend_from_slice(&MARK)?;
        }
        let separator = if look.semicolon { b';' } else { b',' };
        Ok(Records::behind(text, separator))
    }

    /// No record behind the text.
    fn behind(text: Vec<u8>, separator: u8) -> Records
        ensures whole { IsWhole result }
        ensures setup { setup_of result ≡ with_delimiter (with_flexible default_writer true) separator }
        ensures text { text_of result ≡ text.items }
    {
        let writer = WriterBuilder::new()
            .flexible(true)
            .delimiter(separator)
            .from_writer(text);
        Records { writer }
    }

    /// Puts a record behind the others.
    pub fn push(&mut self, fields: &[&[u8]]) -> Result<(), AllocError>
        ensures { OnOk result (IsWhole self.old
            → HasRow self.old self.new (map (λ field. field.now) fields.now)) }
    {
        match self.writer.write_fields(fields) {
            Ok(()) => Ok(()),
            Err(_) => Err(AllocError),
        }
    }

    /// Puts a record that is whole already behind the others.
    pub fn copy(&mut self, fields: &ByteRecord) -> Result<(), AllocError>
        ensures { OnOk result (IsWhole self.old → HasRow self.old self.new (fields_of fields.now)) }
    {
        match self.writer.write_byte_record(fields) {
            Ok(()) => Ok(()),
            Err(_) => Err(AllocError),
        }
    }

    /// The text.
    pub fn finish(self) -> Result<Vec<u8>, AllocError>
        ensures { IfOk result (λ text. text.items ≡ text_of self) }
    {
        match self.writer.into_inner() {
            Ok(text) => Ok(text),
            Err(_) => Err(AllocError),
        }
    }
}
