//! What is wrong with the records, told of the tables.

ghost use Rattle.std.specs.Prelude.{◌≡◌, ◌<◌, ◌≤◌, IfOk, IfSome, None, OnOk};
ghost use Rattle.roster_model.specs.Answer.{records_of};
ghost use Rattle.roster_model.specs.Faults.{first_fault};
ghost use Rattle.roster_model.specs.Record.{Check};

use crate::draft::{Drafted, Origin};
use roster_desk_fault::{Fault, Judged, MOST_TOLD, judge};
use roster_desk_folder::Sheets;
use roster_desk_sheets::{Column, Mistakes, Place, Table};
use std::alloc::{AllocError, Global};

/// The codes that a record may have for want of another one, whose row has a mistake, or since there are
/// too many.
const OF_OTHERS: [u8; 4] = [7, 11, 12, 14];

/// The columns whose names fields of records have.
const OF_FIELDS: [Column; 17] = [
    Column::Base,
    Column::Zone,
    Column::Person,
    Column::Target,
    Column::Year,
    Column::Eleven,
    Column::Pairing,
    Column::Penalty,
    Column::Duty,
    Column::Station,
    Column::Report,
    Column::Release,
    Column::Off,
    Column::On,
    Column::From,
    Column::To,
    Column::Units,
];

/// The column of the table that the names of its records come from.
fn name_column(table: Table) -> Column {
    match table {
        Table::Bases => Column::Base,
        Table::Crew => Column::Person,
        Table::Pairings => Column::Pairing,
        Table::Activities | Table::CarriedActivities => Column::Code,
        _ => Column::Duty,
    }
}

/// The column that has the name of the field.
fn column_named(field: &str) -> Column {
    for column in OF_FIELDS {
        if column.name() == field {
            return column;
        }
    }
    Column::Rows
}

/// The column of the table that the field of a record comes from.
fn column_of(table: Table, field: &str) -> Column {
    if field == "ID" {
        return name_column(table);
    }
    if field == "O or P" {
        return Column::Kind;
    }
    match (table, column_named(field)) {
        (Table::Activities | Table::CarriedActivities, Column::Report) => Column::From,
        (Table::Activities | Table::CarriedActivities, Column::Release) => Column::To,
        (_, column) => column,
    }
}

/// What is wanted, with the other row that the fault is about.
fn wanted_of(alloc: Global, origins: &[Origin], fault: &Fault) -> Result<String, AllocError> {
    let wanted = fault.wanted.as_str();
    let Some((row, relation)) = fault.other else {
        return String::from_str(alloc, wanted);
    };
    let Some(origin) = origins.get(row.saturating_sub(1)) else {
        return String::from_str(alloc, wanted);
    };
    let (file, line) = (origin.place.table.file(), origin.place.line);
    format!(in alloc; "{wanted}; {file}, line {line}, {relation}")
}

/// What stands in the cell; the field of the record if that is made from it.
fn has_of<'a>(cell: &'a [u8], place: Place, fault: &'a Fault) -> &'a [u8] {
    // Units of several wishes are added.
    if cell.is_empty() || place.column == Column::Units {
        fault.has.as_slice()
    } else {
        cell
    }
}

/// Tells a fault of a record, of the row that it comes from, unless something is told of the cell already.
fn tell_fault(
    alloc: Global,
    sheets: &Sheets,
    origins: &[Origin],
    fault: &Fault,
    mistakes: &mut Mistakes,
) -> Result<(), AllocError>
    ensures { mistakes.old ≤ mistakes.new }
{
    let Some(origin) = origins.get(fault.row.saturating_sub(1)) else {
        return Ok(());
    };
    let Place { table, line, .. } = origin.place;
    let column = column_of(table, fault.field);
    let wanted = wanted_of(alloc, origins, fault)?;
    let place = Place {
        table,
        line,
        column,
    };
    if mistakes.has(place) {
        return Ok(());
    }
    let has = has_of(sheets.cell_at(place), place, fault);
    mistakes.push(alloc, place, has, wanted.as_str())
}

/// Whether both faults are about one cell: records of one row that stands for several have the same.
fn is_same(origins: &[Origin], one: &Fault, other: &Fault) -> bool {
    let places = (
        origins.get(one.row.saturating_sub(1)),
        origins.get(other.row.saturating_sub(1)),
    );
    match places {
        (Some(first), Some(second)) => {
            first.place.table == second.place.table
                && first.place.line == second.place.line
                && one.field == other.field
        }
        _ => false,
    }
}

/// Whether a fault of the list is about the same cell.
fn is_among(origins: &[Origin], faults: &[Fault], fault: &Fault) -> bool {
    for other in faults {
        if is_same(origins, other, fault) {
            return true;
        }
    }
    false
}

/// Tells the faults of records, each cell once, but not those that may come of a mistake that is told
/// already.
fn tell_faults(
    alloc: Global,
    sheets: &Sheets,
    origins: &[Origin],
    faults: &[Fault],
    mistakes: &mut Mistakes,
) -> Result<(), AllocError> {
    let is_told = !mistakes.is_empty();
    for (i, fault) in faults.iter().enumerate() {
        let comes_of_others = is_told && OF_OTHERS.contains(&fault.code);
        if !comes_of_others && !is_among(origins, &faults[..i], fault) {
            tell_fault(alloc, sheets, origins, fault, mistakes)?;
        }
    }
    Ok(())
}

/// Tells that the book has a fault, if nothing else is told.
fn tell_any(alloc: Global, mistakes: &mut Mistakes) -> Result<(), AllocError>
    ensures { OnOk result (0 < mistakes.new) }
{
    if !mistakes.is_empty() {
        return Ok(());
    }
    let place = Place {
        table: Table::Bases,
        line: 1,
        column: Column::Rows,
    };
    mistakes.push(alloc, place, b"", "tables of which a book can be made")
}

/// The book, if nothing is wrong with the tables, and no record has a fault; else the faults are told.
pub(crate) fn judged(
    alloc: Global,
    sheets: &Sheets,
    drafted: Drafted,
    mistakes: &mut Mistakes,
) -> Result<Option<Vec<u8>>, AllocError>
    ensures good { IfOk result (λ book. IfSome book
        (λ text. first_fault Check (records_of text.items) ≡ None)) }
    ensures told { IfOk result (λ book. book ≡ None → 0 < mistakes.new) }
{
    match judge(alloc, drafted.text.as_slice(), MOST_TOLD)? {
        Judged::Good => {
            if mistakes.is_empty() {
                Ok(Some(drafted.text))
            } else {
                Ok(None)
            }
        }
        Judged::Faulty(faults) => {
            let origins = drafted.origins.as_slice();
            tell_faults(alloc, sheets, origins, faults.as_slice(), mistakes)?;
            tell_any(alloc, mistakes)?;
            Ok(None)
        }
    }
}
