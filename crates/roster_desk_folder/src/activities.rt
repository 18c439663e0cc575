//! What persons do besides pairings, and their leave.

use crate::cells::Cells;
use crate::crew::{Person, find_person};
use crate::files::Sheets;
use crate::stations::Stations;
use jiff::Timestamp;
use jiff::civil::Date;
use roster_desk_sheets::{Column, Entry, Place};
use roster_desk_times::{TimeFault, read_date, read_instant};
use std::alloc::AllocError;

/// What is wanted in place of a text that is no end of a leave.
const NO_WHEN: &str =
    "a date as 2024-06-11, an instant as 2024-06-11T08:00Z, or a local time as 2024-06-11 10:00";

/// What a person does besides pairings.
#[derive(Drop)]
pub struct Activity {
    /// The place of the person.
    pub person: usize,
    /// What it is: training, standby.
    pub code: Vec<u8>,
    /// Where it begins.
    pub station: Vec<u8>,
    /// When it begins, and when it ends.
    pub from: Timestamp,
    pub to: Timestamp,
    /// Where the table has it.
    pub place: Place,
}

/// An end of a leave.
#[derive(Clone, Copy)]
pub enum When {
    /// A date, by the clocks of the person's base.
    On(Date),
    /// An instant.
    At(Timestamp),
}

/// A leave.
#[derive(Clone, Copy)]
pub struct Leave {
    /// The place of the person.
    pub person: usize,
    /// Its begin, and its end: dates are of the leave.
    pub from: When,
    pub to: When,
    /// Where the table has it.
    pub place: Place,
}

/// The place of the person of a row; one that isn't known is told.
pub(crate) fn person_in(
    cells: &mut Cells,
    persons: &[Person],
    entry: Entry<'_>,
) -> Result<Option<usize>, AllocError> {
    let person = find_person(persons, entry.get(Column::Person));
    if person.is_none() {
        cells.tell(entry, Column::Person, "a person of crew.csv")?;
    }
    Ok(person)
}

/// Whether a row that was carried is of a person of `crew.csv`: others may have left since.
pub(crate) fn is_of_crew(persons: &[Person], entry: Entry<'_>) -> bool {
    find_person(persons, entry.get(Column::Person)).is_some()
}

/// The activity of a row, if its person and its times are known.
fn activity_in(
    cells: &mut Cells,
    stations: &Stations,
    persons: &[Person],
    entry: Entry<'_>,
) -> Result<Option<Activity>, AllocError> {
    let person = person_in(cells, persons, entry)?;
    let code = cells.name(entry, Column::Code)?;
    let station = cells.name(entry, Column::Station)?;
    let zone = stations.zone(station.as_slice());
    let from = cells.instant(entry, Column::From, zone)?;
    let to = cells.instant(entry, Column::To, zone)?;
    if let (Some(person), Some(from), Some(to)) = (person, from, to) {
        return Ok(Some(Activity {
            person,
            code,
            station,
            from,
            to,
            place: entry.place(Column::From),
        }));
    }
    Ok(None)
}

/// Whether the list has an activity of the same person and times.
fn is_given(activities: &[Activity], activity: &Activity) -> bool {
    for other in activities {
        if other.person == activity.person
            && other.from == activity.from
            && other.to == activity.to
        {
            return true;
        }
    }
    false
}

/// The activities of the table, and those of the month before that it doesn't have.
pub(crate) fn read_activities(
    cells: &mut Cells,
    sheets: &Sheets,
    stations: &Stations,
    persons: &[Person],
) -> Result<Vec<Activity>, AllocError> {
    let mut activities = Vec::new(cells.alloc);
    for i in 0..sheets.activities.len() {
        if let Some(entry) = sheets.activities.entry(i) {
            if let Some(activity) = activity_in(cells, stations, persons, entry)? {
                activities.push(activity)?;
            }
        }
    }
    for i in 0..sheets.carried_activities.len() {
        if let Some(entry) = sheets.carried_activities.entry(i) {
            if !is_of_crew(persons, entry) {
                continue;
            }
            if let Some(activity) = activity_in(cells, stations, persons, entry)? {
                if !is_given(activities.as_slice(), &activity) {
                    activities.push(activity)?;
                }
            }
        }
    }
    Ok(activities)
}

/// The place of the first activity of the person in which the instant lies.
pub(crate) fn activity_at(
    activities: &[Activity],
    person: Option<usize>,
    at: Timestamp,
) -> Option<usize> {
    let at = at.as_second();
    activities.iter().position(|activity| {
        person == Some(activity.person)
            && activity.from.as_second() <= at
            && at < activity.to.as_second()
    })
}

/// The date or the instant in the column, by the clocks of the base.
fn when_in(
    cells: &mut Cells,
    stations: &Stations,
    base: &[u8],
    entry: Entry<'_>,
    column: Column,
) -> Result<Option<When>, AllocError> {
    if let Some(date) = read_date(entry.get(column)) {
        return Ok(Some(When::On(date)));
    }
    let wanted = match read_instant(entry.get(column), stations.zone(base)) {
        Ok(at) => return Ok(Some(When::At(at))),
        Err(TimeFault::Form) => NO_WHEN,
        Err(fault) => fault.wanted(),
    };
    cells.tell(entry, column, wanted)?;
    Ok(None)
}

/// Puts the leave of a row behind the others, if its person and its ends are known.
fn push_leave(
    cells: &mut Cells,
    leaves: &mut Vec<Leave>,
    stations: &Stations,
    persons: &[Person],
    entry: Entry<'_>,
) -> Result<(), AllocError> {
    let Some(person) = person_in(cells, persons, entry)? else {
        return Ok(());
    };
    let base = persons
        .get(person)
        .map_or(b"".as_slice(), |person| person.base.as_slice());
    let from = when_in(cells, stations, base, entry, Column::From)?;
    let to = when_in(cells, stations, base, entry, Column::To)?;
    if let (Some(from), Some(to)) = (from, to) {
        leaves.push(Leave {
            person,
            from,
            to,
            place: entry.place(Column::From),
        })?;
    }
    Ok(())
}

/// The leave of the table, and that of the month before.
pub(crate) fn read_leave(
    cells: &mut Cells,
    sheets: &Sheets,
    stations: &Stations,
    persons: &[Person],
) -> Result<Vec<Leave>, AllocError> {
    let mut leaves = Vec::new(cells.alloc);
    for i in 0..sheets.leave.len() {
        if let Some(entry) = sheets.leave.entry(i) {
            push_leave(cells, &mut leaves, stations, persons, entry)?;
        }
    }
    for i in 0..sheets.carried_leave.len() {
        if let Some(entry) = sheets.carried_leave.entry(i) {
            if is_of_crew(persons, entry) {
                push_leave(cells, &mut leaves, stations, persons, entry)?;
            }
        }
    }
    Ok(leaves)
}
