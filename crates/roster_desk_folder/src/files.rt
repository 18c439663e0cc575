//! The files of a folder, and the zone files that its tables name.

ghost use Rattle.std.specs.Prelude.{◌≡◌, All, IfOk, IfSome, OnOk, string_bytes, true};
ghost use Rattle.roster_desk_times.specs.Zones as zones;

use roster_desk_sheets::{Column, Mistakes, Place, Sheet, Table, read_sheet};
use roster_desk_times::{is_zone_name, read_zone};
use std::alloc::{AllocError, Global};
use std::str;

/// The file of a table.
#[derive(Drop)]
pub struct TableFile {
    /// The table.
    pub table: Table,
    /// What the file holds.
    pub bytes: Vec<u8>,
}

/// A zone file of the machine.
#[derive(Drop)]
pub struct ZoneFile {
    /// The name of the zone.
    pub name: String,
    /// What the file holds.
    pub bytes: Vec<u8>,
}

/// The files of a folder, and the zone files that its tables name.
#[derive(Drop)]
pub struct Files {
    /// Those of its tables, each once.
    pub tables: Vec<TableFile>,
    /// The zone files.
    pub zones: Vec<ZoneFile>,
}

/// The tables of a folder, row by row.
#[derive(Drop)]
pub struct Sheets {
    pub(crate) bases: Sheet,
    pub(crate) stations: Sheet,
    pub(crate) crew: Sheet,
    pub(crate) pairings: Sheet,
    pub(crate) duties: Sheet,
    pub(crate) sectors: Sheet,
    pub(crate) activities: Sheet,
    pub(crate) leave: Sheet,
    pub(crate) wishes: Sheet,
    pub(crate) flown: Sheet,
    pub(crate) carried_activities: Sheet,
    pub(crate) carried_sectors: Sheet,
    pub(crate) carried_leave: Sheet,
    pub(crate) carried_flown: Sheet,
}

/// The table among the files; one that isn't there has no row.
fn sheet_in(
    alloc: Global,
    files: &[TableFile],
    table: Table,
    mistakes: &mut Mistakes,
) -> Result<Sheet, AllocError> {
    for file in files {
        if file.table == table {
            return read_sheet(alloc, table, file.bytes.as_slice(), mistakes);
        }
    }
    Ok(Sheet::none(alloc, table))
}

/// The tables in the files. What is wrong with header rows is told.
pub fn read_sheets(
    alloc: Global,
    files: &[TableFile],
    mistakes: &mut Mistakes,
) -> Result<Sheets, AllocError> {
    Ok(Sheets {
        bases: sheet_in(alloc, files, Table::Bases, mistakes)?,
        stations: sheet_in(alloc, files, Table::Stations, mistakes)?,
        crew: sheet_in(alloc, files, Table::Crew, mistakes)?,
        pairings: sheet_in(alloc, files, Table::Pairings, mistakes)?,
        duties: sheet_in(alloc, files, Table::Duties, mistakes)?,
        sectors: sheet_in(alloc, files, Table::Sectors, mistakes)?,
        activities: sheet_in(alloc, files, Table::Activities, mistakes)?,
        leave: sheet_in(alloc, files, Table::Leave, mistakes)?,
        wishes: sheet_in(alloc, files, Table::Wishes, mistakes)?,
        flown: sheet_in(alloc, files, Table::Flown, mistakes)?,
        carried_activities: sheet_in(alloc, files, Table::CarriedActivities, mistakes)?,
        carried_sectors: sheet_in(alloc, files, Table::CarriedSectors, mistakes)?,
        carried_leave: sheet_in(alloc, files, Table::CarriedLeave, mistakes)?,
        carried_flown: sheet_in(alloc, files, Table::CarriedFlown, mistakes)?,
    })
}

impl Sheets {
    /// The rows of the table, if it is one of a folder.
    pub fn of(&self, table: Table) -> Option<&Sheet> {
        let sheet = match table {
            Table::Bases => &self.bases,
            Table::Stations => &self.stations,
            Table::Crew => &self.crew,
            Table::Pairings => &self.pairings,
            Table::Duties => &self.duties,
            Table::Sectors => &self.sectors,
            Table::Activities => &self.activities,
            Table::Leave => &self.leave,
            Table::Wishes => &self.wishes,
            Table::Flown => &self.flown,
            Table::CarriedActivities => &self.carried_activities,
            Table::CarriedSectors => &self.carried_sectors,
            Table::CarriedLeave => &self.carried_leave,
            Table::CarriedFlown => &self.carried_flown,
            Table::Names => return None,
        };
        Some(sheet)
    }

    /// What stands at the place; nothing if there is no such cell.
    pub fn cell_at(&self, place: Place) -> &[u8] {
        match self.of(place.table) {
            Some(sheet) => sheet.cell_at(place.line, place.column),
            None => &[],
        }
    }
}

/// The name of a zone in the cell, if it has one in place of a rule.
fn named_zone(cell: &[u8]) -> Option<&str>
    ensures { IfSome result (λ name. (name.now ≡ cell.now) × (zones.is_zone_name name.now ≡ true)) }
{
    if read_zone(cell).is_some() || !is_zone_name(cell) {
        return None;
    }
    str::from_utf8(cell).ok()
}

/// Puts the names of zones in the table behind the others.
fn push_zone_names(alloc: Global, names: &mut Vec<String>, sheet: &Sheet) -> Result<(), AllocError>
    requires { All (λ name. zones.is_zone_name (string_bytes name) ≡ true) names.old.items }
    ensures { OnOk result
        (All (λ name. zones.is_zone_name (string_bytes name) ≡ true) names.new.items) }
{
    for i in 0..sheet.len() {
        let Some(entry) = sheet.entry(i) else {
            continue;
        };
        if let Some(name) = named_zone(entry.get(Column::Zone)) {
            names.push(String::from_str(alloc, name)?)?;
        }
    }
    Ok(())
}

/// The names of the zones whose files the tables want. None of them leads out of a folder of zone files.
pub fn zone_names(alloc: Global, files: &[TableFile]) -> Result<Vec<String>, AllocError>
    ensures { IfOk result (λ names.
        All (λ name. zones.is_zone_name (string_bytes name) ≡ true) names.items) }
{
    let mut untold = Mistakes::none(alloc);
    let mut names = Vec::new(alloc);
    let bases = sheet_in(alloc, files, Table::Bases, &mut untold)?;
    push_zone_names(alloc, &mut names, &bases)?;
    let stations = sheet_in(alloc, files, Table::Stations, &mut untold)?;
    push_zone_names(alloc, &mut names, &stations)?;
    Ok(names)
}
