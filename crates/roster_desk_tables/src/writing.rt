//! A table that is written: how it looks, and whether it tells what persons are called.

ghost use Rattle.std.specs.Prelude.{◌≡◌, ◌++◌, ◌∷◌, [], IfOk, map, OnOk, option_map};
ghost use Rattle.csv.specs.Records.{fields_of};
ghost use Rattle.csv.specs.Writing.{row_text};
ghost use Rattle.roster_desk_sheets.specs.Written.{HasRow, IsWhole, mark_of, parted, setup_of, text_of};
ghost use Rattle.roster_desk_tables.specs.Cells.{cells_with, code_in, columns_with};

use csv::ByteRecord;
use roster_desk_sheets::{Look, Names, Records};
use std::alloc::{AllocError, Global};

/// The name of the column that tells what persons are called.
const CALLED: &[u8] = b"CALLED";

/// How a table is written, and what persons are called.
#[derive(Clone, Copy)]
pub struct Sheet<'a> {
    /// How it looks.
    pub look: Look,
    /// What persons are called, if a column is to tell it.
    pub names: Option<&'a Names>,
}

/// The rows of a table that is written. The first cell of each is a person's code.
#[derive(Drop)]
pub(crate) struct TableRows<'a> {
    alloc: Global,
    records: Records,
    names: Option<&'a Names>,
}

/// The first cell; nothing if there is none.
fn code_of<'a>(cells: &[&'a [u8]]) -> &'a [u8]
    ensures { result.now ≡ code_in (map (λ cell. cell.now) cells.now) }
{
    match cells.first() {
        Some(code) => code,
        None => b"",
    }
}

/// A record of the cells, and of one more behind them.
fn row_with(alloc: Global, cells: &[&[u8]], last: &[u8]) -> Result<ByteRecord, AllocError>
    ensures { IfOk result (λ row. fields_of row ≡ map (λ cell. cell.now) cells.now ++ last.now ∷ []) }
{
    let mut row = ByteRecord::new(alloc);
    for i in 0..cells.len() {
        row.push_field(cells[i])?;
    }
    row.push_field(last)?;
    Ok(row)
}

/// Puts the row of the names of columns behind the others.
fn push_columns(
    alloc: Global,
    records: &mut Records,
    names: Option<&Names>,
    columns: &[&[u8]],
) -> Result<(), AllocError>
    ensures { OnOk result (IsWhole records.old
        → HasRow records.old records.new
        (columns_with names.entry (map (λ column. column.now) columns.now))) }
{
    match names {
        Some(_) => records.copy(&row_with(alloc, columns, CALLED)?),
        None => records.push(columns),
    }
}

impl<'a> TableRows<'a> {
    /// No row but that of the names of columns.
    pub(crate) fn under(
        alloc: Global,
        sheet: Sheet<'a>,
        columns: &[&[u8]],
    ) -> Result<TableRows<'a>, AllocError>
        ensures whole { IfOk result (λ rows. IsWhole rows.records) }
        ensures setup { IfOk result (λ rows. setup_of rows.records ≡ parted sheet.entry.look.semicolon) }
        ensures text { IfOk result (λ rows. text_of rows.records ≡ mark_of sheet.entry.look.mark
            ++ row_text (parted sheet.entry.look.semicolon)
            (columns_with sheet.entry.names (map (λ column. column.now) columns.now))) }
        ensures names { IfOk result (λ rows. rows.names ≡ sheet.entry.names) }
    {
        let mut records = Records::in_look(alloc, sheet.look)?;
        push_columns(alloc, &mut records, sheet.names, columns)?;
        Ok(TableRows {
            alloc,
            records,
            names: sheet.names,
        })
    }

    /// Puts a row behind the others, with what the person is called if names are given.
    pub(crate) fn push(&mut self, cells: &[&[u8]]) -> Result<(), AllocError>
        ensures row { OnOk result (IsWhole self.old.records → HasRow self.old.records self.new.records
            (cells_with (option_map (λ names. names.now.called.items) self.old.names)
            (map (λ cell. cell.now) cells.now))) }
        ensures names { self.new.names ≡ self.old.names }
    {
        let Some(names) = self.names else {
            return self.records.push(cells);
        };
        let called = names.of(self.alloc, code_of(cells))?;
        let row = row_with(self.alloc, cells, called.as_slice())?;
        self.records.copy(&row)
    }

    /// The text of the table.
    pub(crate) fn finish(self) -> Result<Vec<u8>, AllocError>
        ensures { IfOk result (λ text. text.items ≡ text_of self.entry.records) }
    {
        self.records.finish()
    }
}
