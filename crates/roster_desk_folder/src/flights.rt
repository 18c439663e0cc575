//! The sectors of what persons do besides pairings.

use crate::activities::{Activity, activity_at, is_of_crew, person_in};
use crate::cells::Cells;
use crate::crew::Person;
use crate::duties::{Sector, is_of_activity, sector_in};
use crate::files::Sheets;
use crate::stations::Stations;
use roster_desk_sheets::{Column, Entry};
use std::alloc::AllocError;

/// The sector of a row, of the activity of its person in which it begins. What isn't known is told.
fn flight_in(
    cells: &mut Cells,
    stations: &Stations,
    persons: &[Person],
    activities: &[Activity],
    entry: Entry<'_>,
) -> Result<Option<Sector>, AllocError> {
    let person = person_in(cells, persons, entry)?;
    let Some(sector) = sector_in(cells, stations, entry)? else {
        return Ok(None);
    };
    let activity = activity_at(activities, person, sector.off);
    if person.is_some() && activity.is_none() {
        let wanted = "a person of the activities, in one of which the sector begins";
        cells.tell(entry, Column::Person, wanted)?;
    }
    Ok(activity.map(|duty| Sector { duty, ..sector }))
}

/// Whether the list has a sector of the same activity and times.
fn is_given(flights: &[Sector], flight: &Sector) -> bool {
    for other in flights {
        if other.duty == flight.duty && other.off == flight.off && other.on == flight.on {
            return true;
        }
    }
    false
}

/// The sectors of activities, activity by activity, by their begin: those of the table, and those of the
/// month before that it doesn't have. The place of a duty is that of the activity.
pub(crate) fn read_flights(
    cells: &mut Cells,
    sheets: &Sheets,
    stations: &Stations,
    persons: &[Person],
    activities: &[Activity],
) -> Result<Vec<Sector>, AllocError> {
    let mut flights = Vec::new(cells.alloc);
    for i in 0..sheets.sectors.len() {
        if let Some(entry) = sheets.sectors.entry(i) {
            if is_of_activity(entry) {
                if let Some(flight) = flight_in(cells, stations, persons, activities, entry)? {
                    flights.push(flight)?;
                }
            }
        }
    }
    for i in 0..sheets.carried_sectors.len() {
        if let Some(entry) = sheets.carried_sectors.entry(i) {
            if !is_of_crew(persons, entry) {
                continue;
            }
            if let Some(flight) = flight_in(cells, stations, persons, activities, entry)? {
                if !is_given(flights.as_slice(), &flight) {
                    flights.push(flight)?;
                }
            }
        }
    }
    flights.sort_by_key(|flight| (flight.duty, flight.off.as_second()))?;
    Ok(flights)
}
