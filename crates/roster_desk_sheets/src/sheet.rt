//! The rows of a table.

ghost use Rattle.std.specs.Prelude.{◌<◌, ◌≤◌, OnOk};

use crate::mistakes::{Mistakes, Place};
use crate::rows::{Row, is_unclosed, read_rows};
use crate::shown::push_field;
use crate::tables::{Column, Table};
use std::alloc::{AllocError, Global};

/// Where a column stands in each row.
#[derive(Clone, Copy)]
struct Found {
    column: Column,
    // From 0.
    place: usize,
}

/// A table, as a file of the folder has it.
#[derive(Drop)]
pub struct Sheet {
    table: Table,
    columns: Vec<Found>,
    // The first one is the header row.
    rows: Vec<Row>,
}

/// A row below the header row.
#[derive(Clone, Copy)]
pub struct Entry<'a> {
    sheet: &'a Sheet,
    row: &'a Row,
}

/// The first line of the text that isn't empty, without its end.
fn first_line(bytes: &[u8]) -> &[u8] {
    for line in bytes.split(|byte| *byte == b'\n' || *byte == b'\r') {
        if !line.is_empty() {
            return line;
        }
    }
    &[]
}

/// How often the byte stands in the line.
fn count(line: &[u8], byte: u8) -> usize {
    line.iter().filter(|other| **other == byte).count()
}

/// What parts the cells: of comma, semicolon and tab the one that stands most often in the header row.
fn separator_of(bytes: &[u8]) -> u8 {
    let line = first_line(bytes);
    let (commas, semicolons, tabs) = (count(line, b','), count(line, b';'), count(line, b'\t'));
    if commas >= semicolons && commas >= tabs {
        b','
    } else if semicolons >= tabs {
        b';'
    } else {
        b'\t'
    }
}

/// The column of the list that a cell of the header row names, in large or small letters.
fn named_in(columns: &'static [Column], cell: &[u8]) -> Option<Column> {
    for column in columns {
        if cell.eq_ignore_ascii_case(column.name().as_bytes()) {
            return Some(*column);
        }
    }
    None
}

/// The column of the table that a cell of the header row names.
fn column_of(table: Table, cell: &[u8]) -> Option<Column> {
    named_in(table.needed(), cell).or(named_in(table.others(), cell))
}

/// Where the column stands, if it is found.
fn place_of(columns: &[Found], column: Column) -> Option<usize> {
    for found in columns {
        if found.column == column {
            return Some(found.place);
        }
    }
    None
}

/// Whether no cell of the row holds anything.
fn is_blank(row: &Row) -> bool {
    (0..row.len()).all(|i| row.field(i).trim_ascii().is_empty())
}

/// The columns that the header row names; one that it names twice is told.
fn found_in(
    alloc: Global,
    table: Table,
    header: &Row,
    mistakes: &mut Mistakes,
) -> Result<Vec<Found>, AllocError> {
    let mut columns: Vec<Found> = Vec::new(alloc);
    for place in 0..header.len() {
        let cell = header.field(place).trim_ascii();
        let Some(column) = column_of(table, cell) else {
            continue;
        };
        if place_of(columns.as_slice(), column).is_some() {
            let at = Place {
                table,
                line: header.line(),
                column,
            };
            mistakes.push(alloc, at, cell, "each column once")?;
        } else {
            columns.push(Found { column, place })?;
        }
    }
    Ok(columns)
}

/// What is wanted of a table that lacks a column.
const COLUMN: &str = "a column of this name in the header row";

/// What is wanted of a table that is no text.
const TEXT: &str = "a column of this name in the header row, as UTF-8 text: the file is UTF-16";

/// Whether the bytes begin as UTF-16 does, which some spreadsheets write.
fn is_wide(bytes: &[u8]) -> bool {
    bytes.starts_with(b"\xff\xfe") || bytes.starts_with(b"\xfe\xff")
}

/// Tells each column that the table lacks, and what is wanted.
fn tell_lacking(
    alloc: Global,
    table: Table,
    columns: &[Found],
    wanted: &str,
    mistakes: &mut Mistakes,
) -> Result<(), AllocError> {
    for column in table.needed() {
        if place_of(columns, *column).is_none() {
            let at = Place {
                table,
                line: 1,
                column: *column,
            };
            mistakes.push(alloc, at, b"", wanted)?;
        }
    }
    Ok(())
}

/// Tells that the last cell of the last row has no quote at its end.
fn tell_unclosed(
    alloc: Global,
    table: Table,
    rows: &[Row],
    mistakes: &mut Mistakes,
) -> Result<(), AllocError> {
    let Some(row) = rows.last() else {
        return Ok(());
    };
    let at = Place {
        table,
        line: row.line(),
        column: Column::Quoted,
    };
    let cell = row.field(row.len().saturating_sub(1));
    mistakes.push(alloc, at, cell, "a double quote at its end")
}

/// Tells each cell that stands under no column.
fn tell_outside(
    alloc: Global,
    table: Table,
    width: usize,
    row: &Row,
    mistakes: &mut Mistakes,
) -> Result<(), AllocError> {
    for place in width..row.len() {
        let cell = row.field(place).trim_ascii();
        if !cell.is_empty() {
            let at = Place {
                table,
                line: row.line(),
                column: Column::Outside,
            };
            mistakes.push(
                alloc,
                at,
                cell,
                "no such cell; one with the separator in it stands in double quotes",
            )?;
        }
    }
    Ok(())
}

/// The table in the bytes of its file. What is wrong with its header row is told, and each cell outside of
/// its columns.
pub fn read_sheet(
    alloc: Global,
    table: Table,
    bytes: &[u8],
    mistakes: &mut Mistakes,
) -> Result<Sheet, AllocError> {
    if is_wide(bytes) {
        tell_lacking(alloc, table, &[], TEXT, mistakes)?;
        return Ok(Sheet::none(alloc, table));
    }
    let separator = separator_of(bytes);
    let rows = read_rows(alloc, bytes, separator)?;
    let Some(header) = rows.first() else {
        tell_lacking(alloc, table, &[], COLUMN, mistakes)?;
        return Ok(Sheet::none(alloc, table));
    };
    let columns = found_in(alloc, table, header, mistakes)?;
    tell_lacking(alloc, table, columns.as_slice(), COLUMN, mistakes)?;
    for row in &rows {
        tell_outside(alloc, table, header.len(), row, mistakes)?;
    }
    if is_unclosed(bytes, separator) {
        tell_unclosed(alloc, table, rows.as_slice(), mistakes)?;
    }
    Ok(Sheet {
        table,
        columns,
        rows,
    })
}

impl Sheet {
    /// A table that a folder doesn't have.
    pub fn none(alloc: Global, table: Table) -> Sheet {
        Sheet {
            table,
            columns: Vec::new(alloc),
            rows: Vec::new(alloc),
        }
    }

    /// How many rows it has, the header row and blank ones too.
    pub fn len(&self) -> usize {
        self.rows.len()
    }

    /// The row at a place from 0, if it is below the header row and not blank.
    pub fn entry(&self, i: usize) -> Option<Entry<'_>> {
        let row = self.rows.get(i)?;
        if i == 0 || is_blank(row) {
            return None;
        }
        Some(Entry { sheet: self, row })
    }

    /// Whether it has the column.
    pub fn has(&self, column: Column) -> bool {
        place_of(self.columns.as_slice(), column).is_some()
    }

    /// What stands in the column of the row that begins on the line; nothing if there is no such cell.
    pub fn cell_at(&self, line: usize, column: Column) -> &[u8] {
        let row = self.rows.iter().find(|row| row.line() == line);
        match row {
            Some(row) => Entry { sheet: self, row }.get(column),
            None => &[],
        }
    }

    /// The names of the columns that are passed over, parted by commas.
    pub fn passed_over(&self, alloc: Global) -> Result<Vec<u8>, AllocError> {
        let mut out = Vec::new(alloc);
        let Some(header) = self.rows.first() else {
            return Ok(out);
        };
        for place in 0..header.len() {
            let cell = header.field(place).trim_ascii();
            if !cell.is_empty() && column_of(self.table, cell).is_none() {
                if !out.is_empty() {
                    out.extend_from_slice(b", ")?;
                }
                push_field(alloc, &mut out, cell)?;
            }
        }
        Ok(out)
    }
}

impl<'a> Entry<'a> {
    /// What stands in the column, without blanks round it; nothing if the table doesn't have it.
    pub fn get(self, column: Column) -> &'a [u8] {
        match place_of(self.sheet.columns.as_slice(), column) {
            Some(place) => self.row.field(place).trim_ascii(),
            None => &[],
        }
    }

    /// Where the cell of the column is.
    pub fn place(self, column: Column) -> Place {
        Place {
            table: self.sheet.table,
            line: self.row.line(),
            column,
        }
    }

    /// Tells that something else is wanted in the column.
    pub fn tell(
        self,
        alloc: Global,
        mistakes: &mut Mistakes,
        column: Column,
        wanted: &str,
    ) -> Result<(), AllocError>
        ensures told { OnOk result (0 < mistakes.new) }
        ensures keeps { mistakes.old ≤ mistakes.new }
    {
        mistakes.push(alloc, self.place(column), self.get(column), wanted)
    }
}
