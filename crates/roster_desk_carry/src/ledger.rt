//! The rows of a ledger, and what is wrong with them.

use crate::writing::month_text;
use roster_desk_carry_judged::Flown;
use roster_desk_folder::Cells;
use roster_desk_reports::person_named;
use roster_desk_sheets::{Column, Entry, Mistakes, Table, read_sheet};
use roster_instants::Period;
use roster_problem::Problem;
use roster_values::Name;
use std::alloc::{AllocError, Global};

/// How many months the first one is before the second.
fn months_before(month: Period, this: Period) -> i32 {
    let years = i32::from(this.year()).saturating_sub(i32::from(month.year()));
    let months = i32::from(this.month()).saturating_sub(i32::from(month.month()));
    years.saturating_mul(12).saturating_add(months)
}

/// Whether both rows are of one person and month.
fn is_same(one: &Flown, other: &Flown) -> bool {
    one.person.as_bytes() == other.person.as_bytes() && months_before(one.month, other.month) == 0
}

/// Whether the rows have the person and the month.
fn has(rows: &[Flown], row: &Flown) -> bool {
    rows.iter().any(|other| is_same(other, row))
}

/// What a row has, if it is one of a person of the book. A cell that can't be read is told.
fn flown_in(
    cells: &mut Cells,
    book: &Problem,
    entry: Entry<'_>,
) -> Result<Option<Flown>, AllocError> {
    let month = Period::read(entry.get(Column::Month));
    if month.is_none() {
        cells.tell(entry, Column::Month, "a month as 2024-06")?;
    }
    let minutes = cells.minutes(entry, Column::Flight)?;
    let name = entry.get(Column::Person);
    let is_known = person_named(book, name).is_some();
    match (month, Name::new(name)) {
        (Some(month), Some(person)) if is_known => Ok(Some(Flown {
            person,
            month,
            minutes,
        })),
        _ => Ok(None),
    }
}

/// Puts the row of a ledger behind the others. A month that a row before has, or that is the book's, is told.
fn push_row(
    cells: &mut Cells,
    rows: &mut Vec<Flown>,
    book: &Problem,
    entry: Entry<'_>,
) -> Result<(), AllocError> {
    let Some(row) = flown_in(cells, book, entry)? else {
        return Ok(());
    };
    if months_before(row.month, book.period()) == 0 {
        let wanted = "no row of the book's month, whose flight is added";
        return cells.tell(entry, Column::Month, wanted);
    }
    if has(rows.as_slice(), &row) {
        return cells.tell(entry, Column::Month, "each month of a person once");
    }
    rows.push(row)?;
    Ok(())
}

/// Puts the row of what was carried before behind the others, unless the ledger has it by now.
fn push_carried(
    cells: &mut Cells,
    rows: &mut Vec<Flown>,
    book: &Problem,
    entry: Entry<'_>,
) -> Result<(), AllocError> {
    let Some(row) = flown_in(cells, book, entry)? else {
        return Ok(());
    };
    let is_earlier = months_before(row.month, book.period()) > 0;
    if is_earlier && !has(rows.as_slice(), &row) {
        rows.push(row)?;
    }
    Ok(())
}

/// The rows of a ledger that are of persons of the book, and those that only the table of what was carried
/// before has. What is wrong is told.
pub fn read_ledger(
    cells: &mut Cells,
    book: &Problem,
    ledger: &[u8],
    carried: Option<&[u8]>,
) -> Result<Vec<Flown>, AllocError> {
    let alloc = cells.alloc;
    let mut rows = Vec::new(alloc);
    let sheet = read_sheet(alloc, Table::Flown, ledger, &mut cells.mistakes)?;
    for i in 0..sheet.len() {
        if let Some(entry) = sheet.entry(i) {
            push_row(cells, &mut rows, book, entry)?;
        }
    }
    let Some(carried) = carried else {
        return Ok(rows);
    };
    let sheet = read_sheet(alloc, Table::CarriedFlown, carried, &mut cells.mistakes)?;
    for i in 0..sheet.len() {
        if let Some(entry) = sheet.entry(i) {
            push_carried(cells, &mut rows, book, entry)?;
        }
    }
    Ok(rows)
}

/// What the rows have of a person before a month: in its calendar year, and in the eleven months before it.
fn sums_of(rows: &[Flown], person: &[u8], this: Period) -> (u64, u64) {
    let (mut year, mut eleven) = (0u64, 0u64);
    for row in rows {
        let before = months_before(row.month, this);
        if row.person.as_bytes() != person || before <= 0 {
            continue;
        }
        if row.month.year() == this.year() {
            year = year.saturating_add(u64::from(row.minutes));
        }
        if before <= 11 {
            eleven = eleven.saturating_add(u64::from(row.minutes));
        }
    }
    (year, eleven)
}

/// A line for each person of whom the ledger has other minutes before the book's month than the book.
pub fn unlike_text(alloc: Global, book: &Problem, rows: &[Flown]) -> Result<Vec<u8>, AllocError> {
    let mut out = Vec::new(alloc);
    let month = month_text(alloc, book.period())?;
    for person in book.persons() {
        let (year, eleven) = sums_of(rows, person.id.as_bytes(), book.period());
        if year == u64::from(person.year) && eleven == u64::from(person.eleven) {
            continue;
        }
        out.extend_from_slice(b"note: ")?;
        out.extend_from_slice(person.id.as_bytes())?;
        let (own_year, own_eleven) = (person.year, person.eleven);
        let line = format!(in alloc;
            ": YEAR and ELEVEN before {month} are {own_year} and {own_eleven} by the book, \
             {year} and {eleven} by the ledger, which counts\n"
        )?;
        out.extend_from_slice(line.as_bytes())?;
    }
    Ok(out)
}
