//! Bases and other stations, with their clocks.

use crate::cells::Cells;
use crate::files::{Sheets, ZoneFile};
use jiff::tz::TimeZone;
use roster_desk_sheets::{Column, Entry, Place};
use roster_desk_times::{read_zone, rule_in};
use std::alloc::AllocError;

/// A station whose clocks are known.
#[derive(Drop)]
pub struct Station {
    /// Its name.
    pub name: Vec<u8>,
    /// The rule of its clocks, as a book writes it.
    pub rule: Vec<u8>,
    /// Its clocks.
    pub zone: TimeZone<'static>,
    /// Where the table has it.
    pub place: Place,
}

/// The bases, and the other stations.
#[derive(Drop)]
pub struct Stations {
    /// The bases, in the order of their table.
    pub bases: Vec<Station>,
    others: Vec<Station>,
}

/// The station of the list with the name.
fn named<'a>(stations: &'a [Station], name: &[u8]) -> Option<&'a Station> {
    for station in stations {
        if station.name.as_slice() == name {
            return Some(station);
        }
    }
    None
}

/// The rule that the text is or names.
fn rule_of<'a>(zones: &'a [ZoneFile], text: &'a [u8]) -> Option<&'a [u8]> {
    if read_zone(text).is_some() {
        return Some(text);
    }
    for file in zones {
        if file.name.as_bytes() == text {
            return rule_in(file.bytes.as_slice());
        }
    }
    None
}

/// Puts the station of a row behind the others. One without clocks is told, and left out.
fn push_station(
    cells: &mut Cells,
    stations: &mut Vec<Station>,
    zones: &[ZoneFile],
    entry: Entry<'_>,
    column: Column,
) -> Result<(), AllocError> {
    let name = cells.name(entry, column)?;
    if named(stations.as_slice(), name.as_slice()).is_some() {
        return cells.tell(entry, column, "each name once");
    }
    let Some(rule) = rule_of(zones, entry.get(Column::Zone)) else {
        let wanted = "the name of a zone as Europe/Zurich, or a rule as CET-1CEST,M3.5.0,M10.5.0/3";
        return cells.tell(entry, Column::Zone, wanted);
    };
    let Some(zone) = read_zone(rule) else {
        return cells.tell(entry, Column::Zone, "a zone whose file ends with a rule");
    };
    let rule = Vec::from_slice(cells.alloc, rule)?;
    stations.push(Station {
        name,
        rule,
        zone,
        place: entry.place(Column::Zone),
    })?;
    Ok(())
}

/// The bases and stations of the tables.
pub(crate) fn read_stations(
    cells: &mut Cells,
    sheets: &Sheets,
    zones: &[ZoneFile],
) -> Result<Stations, AllocError> {
    let mut bases = Vec::new(cells.alloc);
    for i in 0..sheets.bases.len() {
        if let Some(entry) = sheets.bases.entry(i) {
            push_station(cells, &mut bases, zones, entry, Column::Base)?;
        }
    }
    let mut others = Vec::new(cells.alloc);
    for i in 0..sheets.stations.len() {
        if let Some(entry) = sheets.stations.entry(i) {
            push_station(cells, &mut others, zones, entry, Column::Station)?;
        }
    }
    Ok(Stations { bases, others })
}

impl Stations {
    /// The base of the name.
    pub fn base(&self, name: &[u8]) -> Option<&Station> {
        named(self.bases.as_slice(), name)
    }

    /// The clocks of the base or station of the name, if they are known.
    pub fn zone(&self, name: &[u8]) -> Option<&TimeZone<'static>> {
        let station = self.base(name).or(named(self.others.as_slice(), name))?;
        Some(&station.zone)
    }
}
