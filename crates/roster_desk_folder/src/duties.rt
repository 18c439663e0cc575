//! The duties of pairings, and their sectors.

use crate::cells::Cells;
use crate::files::Sheets;
use crate::pairings::{Pairing, find_pairing};
use crate::stations::Stations;
use jiff::Timestamp;
use roster_desk_sheets::{Column, Entry, Place};
use std::alloc::{AllocError, Global};

/// A duty of a pairing.
#[derive(Drop)]
pub struct Duty {
    /// The place of the pairing.
    pub pairing: usize,
    /// Its name; empty if the table has none.
    pub name: Vec<u8>,
    /// Where it reports.
    pub station: Vec<u8>,
    /// When it reports, and when it is released.
    pub report: Timestamp,
    pub release: Timestamp,
    /// Where the table has it.
    pub place: Place,
}

/// A sector of a duty.
#[derive(Clone, Copy)]
pub struct Sector {
    /// The place of the duty.
    pub duty: usize,
    /// When it begins, and when it ends.
    pub off: Timestamp,
    pub on: Timestamp,
    /// Whether the person operates it.
    pub operates: bool,
    /// Where the table has it.
    pub place: Place,
}

/// The column that says where a duty is released: by its clocks the release is told.
fn end_column(entry: Entry<'_>) -> Column {
    if entry.get(Column::End).is_empty() {
        Column::Station
    } else {
        Column::End
    }
}

/// What a row has of a duty, of the pairing at place 0, if its times are known.
fn duty_in(
    cells: &mut Cells,
    stations: &Stations,
    entry: Entry<'_>,
) -> Result<Option<Duty>, AllocError> {
    let station = cells.name(entry, Column::Station)?;
    let name = cells.text(entry, Column::Duty)?;
    let begins = stations.zone(station.as_slice());
    let report = cells.instant(entry, Column::Report, begins)?;
    let ends = stations.zone(entry.get(end_column(entry)));
    let release = cells.instant(entry, Column::Release, ends)?;
    let (Some(report), Some(release)) = (report, release) else {
        return Ok(None);
    };
    Ok(Some(Duty {
        pairing: 0,
        name,
        station,
        report,
        release,
        place: entry.place(Column::Report),
    }))
}

/// The same duty of the pairing at the place.
fn copy_for(alloc: Global, duty: &Duty, pairing: usize) -> Result<Duty, AllocError> {
    let name = Vec::from_slice(alloc, duty.name.as_slice())?;
    let station = Vec::from_slice(alloc, duty.station.as_slice())?;
    Ok(Duty {
        pairing,
        name,
        station,
        report: duty.report,
        release: duty.release,
        place: duty.place,
    })
}

/// Puts the duty of a row behind the others, for each pairing of its name, if there is one and the times are
/// known.
fn push_duty(
    cells: &mut Cells,
    duties: &mut Vec<Duty>,
    stations: &Stations,
    pairings: &[Pairing],
    entry: Entry<'_>,
) -> Result<(), AllocError> {
    let wanted = entry.get(Column::Pairing);
    let duty = duty_in(cells, stations, entry)?;
    if find_pairing(pairings, wanted).is_none() {
        return cells.tell(entry, Column::Pairing, "a pairing of pairings.csv");
    }
    let Some(duty) = duty else {
        return Ok(());
    };
    for p in 0..pairings.len() {
        if pairings[p].name.as_slice() == wanted {
            duties.push(copy_for(cells.alloc, &duty, p)?)?;
        }
    }
    Ok(())
}

/// The duties of the table, pairing by pairing, by their report.
pub(crate) fn read_duties(
    cells: &mut Cells,
    sheets: &Sheets,
    stations: &Stations,
    pairings: &[Pairing],
) -> Result<Vec<Duty>, AllocError> {
    let mut duties = Vec::new(cells.alloc);
    for i in 0..sheets.duties.len() {
        if let Some(entry) = sheets.duties.entry(i) {
            push_duty(cells, &mut duties, stations, pairings, entry)?;
        }
    }
    duties.sort_by_key(|duty| (duty.pairing, duty.report.as_second()))?;
    Ok(duties)
}

/// Whether the row names the duty: by the duty's own name, or by the pairing's and the time.
fn is_named(duty: &Duty, pairings: &[Pairing], entry: Entry<'_>, off: Timestamp) -> bool {
    let name = entry.get(Column::Duty);
    if !name.is_empty() {
        return duty.name.as_slice() == name;
    }
    let off = off.as_second();
    let is_in = duty.report.as_second() <= off && off < duty.release.as_second();
    let pairing = pairings.get(duty.pairing);
    is_in && pairing.is_some_and(|pairing| pairing.name.as_slice() == entry.get(Column::Pairing))
}

/// Whether the sector of a row is operated: yes, if nothing is said.
fn operates(cells: &mut Cells, entry: Entry<'_>) -> Result<bool, AllocError> {
    match entry.get(Column::Kind) {
        b"" | b"O" => Ok(true),
        b"P" => Ok(false),
        _ => {
            cells.tell(
                entry,
                Column::Kind,
                "O for an operated sector, or P for a positioning one",
            )?;
            Ok(true)
        }
    }
}

/// Tells that the duty of a row isn't known.
fn tell_no_duty(cells: &mut Cells, entry: Entry<'_>) -> Result<(), AllocError> {
    if entry.get(Column::Duty).is_empty() {
        let wanted = "a pairing of pairings.csv, in one of whose duties the sector begins";
        cells.tell(entry, Column::Pairing, wanted)
    } else {
        cells.tell(entry, Column::Duty, "a duty of duties.csv")
    }
}

/// The sector of a row, of the duty at place 0, if its times are known.
pub(crate) fn sector_in(
    cells: &mut Cells,
    stations: &Stations,
    entry: Entry<'_>,
) -> Result<Option<Sector>, AllocError> {
    let from = stations.zone(entry.get(Column::From));
    let off = cells.instant(entry, Column::Off, from)?;
    let to = stations.zone(entry.get(Column::To));
    let on = cells.instant(entry, Column::On, to)?;
    let operates = operates(cells, entry)?;
    let (Some(off), Some(on)) = (off, on) else {
        return Ok(None);
    };
    Ok(Some(Sector {
        duty: 0,
        off,
        on,
        operates,
        place: entry.place(Column::Off),
    }))
}

/// Whether the row is one of an activity: it names a person, and neither a pairing nor a duty.
pub(crate) fn is_of_activity(entry: Entry<'_>) -> bool {
    entry.get(Column::Pairing).is_empty()
        && entry.get(Column::Duty).is_empty()
        && !entry.get(Column::Person).is_empty()
}

/// Puts the sector of a row behind the others, if its duty and its times are known.
fn push_sector(
    cells: &mut Cells,
    sectors: &mut Vec<Sector>,
    stations: &Stations,
    pairings: &[Pairing],
    duties: &[Duty],
    entry: Entry<'_>,
) -> Result<(), AllocError> {
    if is_of_activity(entry) {
        return Ok(());
    }
    let Some(sector) = sector_in(cells, stations, entry)? else {
        return Ok(());
    };
    // The first duty of each pairing: duties stand pairing by pairing.
    let mut last = None;
    for (place, duty) in duties.iter().enumerate() {
        let is_other = last != Some(duty.pairing);
        if is_other && is_named(duty, pairings, entry, sector.off) {
            sectors.push(Sector {
                duty: place,
                ..sector
            })?;
            last = Some(duty.pairing);
        }
    }
    if last.is_none() {
        return tell_no_duty(cells, entry);
    }
    Ok(())
}

/// The sectors of the table, duty by duty, by their begin.
pub(crate) fn read_sectors(
    cells: &mut Cells,
    sheets: &Sheets,
    stations: &Stations,
    pairings: &[Pairing],
    duties: &[Duty],
) -> Result<Vec<Sector>, AllocError> {
    let mut sectors = Vec::new(cells.alloc);
    for i in 0..sheets.sectors.len() {
        if let Some(entry) = sheets.sectors.entry(i) {
            push_sector(cells, &mut sectors, stations, pairings, duties, entry)?;
        }
    }
    sectors.sort_by_key(|sector| (sector.duty, sector.off.as_second()))?;
    Ok(sectors)
}
