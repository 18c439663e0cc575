//! All tables of a folder.

use crate::activities::{Activity, Leave, read_activities, read_leave};
use crate::cells::Cells;
use crate::crew::{Person, read_crew};
use crate::duties::{Duty, Sector, read_duties, read_sectors};
use crate::files::{Sheets, ZoneFile};
use crate::flights::read_flights;
use crate::pairings::{Pairing, read_pairings};
use crate::stations::{Stations, read_stations};
use crate::wishes::{Flown, Wish, read_flown, read_wishes};
use std::alloc::AllocError;

/// What the tables of a folder say. A place of a value is its place in these lists.
#[derive(Drop)]
pub struct Tables {
    /// The bases and other stations.
    pub stations: Stations,
    /// The persons, in the order of their table.
    pub persons: Vec<Person>,
    /// The pairings, in the order of their table.
    pub pairings: Vec<Pairing>,
    /// The duties, pairing by pairing, by their report.
    pub duties: Vec<Duty>,
    /// The sectors, duty by duty, by their begin.
    pub sectors: Vec<Sector>,
    /// What persons do besides pairings.
    pub activities: Vec<Activity>,
    /// The sectors of that, activity by activity, by their begin.
    pub flights: Vec<Sector>,
    /// Their leave.
    pub leaves: Vec<Leave>,
    /// Their wishes.
    pub wishes: Vec<Wish>,
    /// What they have flown.
    pub flown: Vec<Flown>,
}

/// What the tables say. What is wrong with a cell is told, and the value left out or given its usual
/// one.
pub fn read_tables(
    cells: &mut Cells,
    sheets: &Sheets,
    zones: &[ZoneFile],
) -> Result<Tables, AllocError> {
    let stations = read_stations(cells, sheets, zones)?;
    let persons = read_crew(cells, sheets, &stations)?;
    let pairings = read_pairings(cells, sheets, &stations)?;
    let duties = read_duties(cells, sheets, &stations, pairings.as_slice())?;
    let sectors = read_sectors(
        cells,
        sheets,
        &stations,
        pairings.as_slice(),
        duties.as_slice(),
    )?;
    let activities = read_activities(cells, sheets, &stations, persons.as_slice())?;
    let flights = read_flights(
        cells,
        sheets,
        &stations,
        persons.as_slice(),
        activities.as_slice(),
    )?;
    let leaves = read_leave(cells, sheets, &stations, persons.as_slice())?;
    let wishes = read_wishes(cells, sheets, persons.as_slice(), pairings.as_slice())?;
    let flown = read_flown(cells, sheets, persons.as_slice())?;
    Ok(Tables {
        stations,
        persons,
        pairings,
        duties,
        sectors,
        activities,
        flights,
        leaves,
        wishes,
        flown,
    })
}
