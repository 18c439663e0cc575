//! What is carried as tables of a folder, of which `book` reads it.

ghost use Rattle.std.specs.Prelude.{◌≡◌, IfOk, length, map};
ghost use Rattle.roster_desk_carry.specs.Tables.{carried};

use crate::writing::{kind_text, minute_text, month_text};
use roster_desk_carry_judged::flight_in;
use roster_desk_folder::TableFile;
use roster_desk_reports::person_named;
use roster_desk_sheets::{Column, Entry, Mistakes, Records, Table, read_sheet};
use roster_problem::{Duty, Problem};
use std::alloc::{AllocError, Global};

/// The tables that are written, in the order in which they are.
const WRITTEN: [Table; 4] = [
    Table::CarriedActivities,
    Table::CarriedSectors,
    Table::CarriedLeave,
    Table::CarriedFlown,
];

/// The columns of a table.
fn header_of(table: Table) -> &'static [Column] {
    match table {
        Table::CarriedSectors => &[Column::Person, Column::Off, Column::On, Column::Kind],
        _ => table.needed(),
    }
}

/// The header row.
fn push_header(alloc: Global, records: &mut Records, table: Table) -> Result<(), AllocError> {
    let mut names: Vec<&[u8]> = Vec::new(alloc);
    for column in header_of(table) {
        names.push(column.name().as_bytes())?;
    }
    records.push(names.as_slice())
}

/// A duty, and the name of its person.
#[derive(Clone, Copy)]
struct Held<'a> {
    person: &'a [u8],
    duty: &'a Duty,
}

/// The person's name.
fn name_of(problem: &Problem, k: usize) -> &[u8] {
    match problem.persons().get(k) {
        Some(person) => person.id.as_bytes(),
        None => &[],
    }
}

/// The duties of the next month's book, each with the name of its person.
fn held_duties(alloc: Global, next: &Problem) -> Result<Vec<Held<'_>>, AllocError> {
    let mut duties = Vec::new(alloc);
    for k in 0..next.persons().len() {
        for position in next.fixed(k) {
            if let Some(duty) = next.duties().get(usize::from(*position)) {
                let person = name_of(next, k);
                duties.push(Held { person, duty })?;
            }
        }
    }
    Ok(duties)
}

/// A row for each duty. What it is called tells the month that it comes from.
fn push_activities<'a>(
    alloc: Global,
    records: &mut Records,
    duties: &'a [Held<'a>],
    month: &'a str,
) -> Result<(), AllocError> {
    for Held { person, duty } in duties {
        let from = minute_text(alloc, duty.report)?;
        let to = minute_text(alloc, duty.release)?;
        records.push(&[
            *person,
            month.as_bytes(),
            duty.station.as_bytes(),
            from.as_bytes(),
            to.as_bytes(),
        ])?;
    }
    Ok(())
}

/// A row for each sector of the duties.
fn push_sectors<'a>(
    alloc: Global,
    records: &mut Records,
    duties: &'a [Held<'a>],
) -> Result<(), AllocError> {
    for Held { person, duty } in duties {
        for sector in &duty.sectors {
            let off = minute_text(alloc, sector.off)?;
            let on = minute_text(alloc, sector.on)?;
            let kind = kind_text(*sector);
            records.push(&[*person, off.as_bytes(), on.as_bytes(), &kind])?;
        }
    }
    Ok(())
}

/// A row for each leave of the next month's book.
fn push_leaves(alloc: Global, records: &mut Records, next: &Problem) -> Result<(), AllocError> {
    for leave in next.leaves() {
        let from = minute_text(alloc, leave.from)?;
        let to = minute_text(alloc, leave.to)?;
        let person = name_of(next, leave.person);
        records.push(&[person, from.as_bytes(), to.as_bytes()])?;
    }
    Ok(())
}

/// A row for each person, with this month's flight.
fn push_flown<'a>(
    alloc: Global,
    records: &mut Records,
    book: &'a Problem,
    places: &[u16],
    month: &'a str,
) -> Result<(), AllocError>
    requires { length places.now ≡ length book.now.pairings }
{
    for k in 0..book.persons().len() {
        let flight = flight_in(alloc, book, places, k)?.to_string(alloc)?;
        records.push(&[name_of(book, k), month.as_bytes(), flight.as_bytes()])?;
    }
    Ok(())
}

/// Whether the row stays: it is of somebody who isn't in the book, or has another month's flight.
fn stays(book: &Problem, table: Table, entry: Entry<'_>, month: &str) -> bool {
    let is_known = person_named(book, entry.get(Column::Person)).is_some();
    let is_other = table == Table::CarriedFlown && entry.get(Column::Month) != month.as_bytes();
    !is_known || is_other
}

/// The rows of the table that stay, as the file has them.
fn push_staying(
    alloc: Global,
    records: &mut Records,
    book: &Problem,
    old: &TableFile,
    month: &str,
    mistakes: &mut Mistakes,
) -> Result<(), AllocError> {
    let sheet = read_sheet(alloc, old.table, old.bytes.as_slice(), mistakes)?;
    for i in 0..sheet.len() {
        if let Some(entry) = sheet.entry(i) {
            if stays(book, old.table, entry, month) {
                let mut cells: Vec<&[u8]> = Vec::new(alloc);
                for column in header_of(old.table) {
                    cells.push(entry.get(*column))?;
                }
                records.push(cells.as_slice())?;
            }
        }
    }
    Ok(())
}

/// The table's file with what is carried, and of the file as it was the rows of others.
fn written(
    alloc: Global,
    table: Table,
    book: &Problem,
    places: &[u16],
    next: &Problem,
    old: &[TableFile],
    mistakes: &mut Mistakes,
) -> Result<TableFile, AllocError>
    requires { length places.now ≡ length book.now.pairings }
    ensures { IfOk result (λ file. file.table ≡ table) }
{
    let month = month_text(alloc, book.period())?;
    let duties = held_duties(alloc, next)?;
    let mut records = Records::new(alloc);
    push_header(alloc, &mut records, table)?;
    for file in old {
        if file.table == table {
            push_staying(alloc, &mut records, book, file, month.as_str(), mistakes)?;
        }
    }
    match table {
        Table::CarriedActivities => {
            push_activities(alloc, &mut records, duties.as_slice(), month.as_str())?;
        }
        Table::CarriedSectors => push_sectors(alloc, &mut records, duties.as_slice())?,
        Table::CarriedLeave => push_leaves(alloc, &mut records, next)?,
        _ => push_flown(alloc, &mut records, book, places, month.as_str())?,
    }
    let bytes = records.finish()?;
    Ok(TableFile { table, bytes })
}

/// The files of the tables by which `book` gets what is carried of a book and its roster, where the next
/// month's book has it. Of the files as they were, the rows of persons who aren't in the book stay, and what
/// was flown in other months. What is wrong with these files is told.
pub fn carried_tables(
    alloc: Global,
    book: &Problem,
    places: &[u16],
    next: &Problem,
    old: &[TableFile],
    mistakes: &mut Mistakes,
) -> Result<Vec<TableFile>, AllocError>
    requires { length places.now ≡ length book.now.pairings }
    ensures { IfOk result (λ files. map (λ file. file.table) files.items ≡ carried) }
{
    let mut files = Vec::new(alloc);
    for &table in &WRITTEN {
        files.push(written(alloc, table, book, places, next, old, mistakes)?)?;
    }
    Ok(files)
}
