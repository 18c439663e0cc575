//! Persons.

use crate::cells::Cells;
use crate::files::Sheets;
use crate::stations::Stations;
use jiff::civil::Date;
use roster_desk_sheets::{Column, Entry, Place};
use std::alloc::AllocError;

/// A person.
#[derive(Drop)]
pub struct Person {
    /// The person's name.
    pub name: Vec<u8>,
    /// The name of the home base.
    pub base: Vec<u8>,
    /// The person's rank; empty if the table has none.
    pub rank: Vec<u8>,
    /// The minutes of flight that are wanted in the month.
    pub target: u32,
    /// The first and the last date on which the person is there, if they are given.
    pub from: Option<Date>,
    pub to: Option<Date>,
    /// Where the table has the person.
    pub place: Place,
}

/// The place of the person of the name.
pub(crate) fn find_person(persons: &[Person], name: &[u8]) -> Option<usize> {
    persons
        .iter()
        .position(|person| person.name.as_slice() == name)
}

/// Tells a base that `bases.csv` doesn't have.
pub(crate) fn tell_unknown_base(
    cells: &mut Cells,
    stations: &Stations,
    entry: Entry<'_>,
) -> Result<(), AllocError> {
    if stations.base(entry.get(Column::Base)).is_some() {
        return Ok(());
    }
    cells.tell(entry, Column::Base, "a base of bases.csv with its clocks")
}

/// Puts the person of a row behind the others.
fn push_person(
    cells: &mut Cells,
    persons: &mut Vec<Person>,
    stations: &Stations,
    entry: Entry<'_>,
) -> Result<(), AllocError> {
    let name = cells.name(entry, Column::Person)?;
    if find_person(persons.as_slice(), name.as_slice()).is_some() {
        return cells.tell(entry, Column::Person, "each name once");
    }
    tell_unknown_base(cells, stations, entry)?;
    let base = cells.text(entry, Column::Base)?;
    let rank = cells.text(entry, Column::Rank)?;
    let target = cells.minutes(entry, Column::Target)?;
    let from = cells.date(entry, Column::From)?;
    let to = cells.date(entry, Column::To)?;
    if let (Some(first), Some(last)) = (from, to) {
        if last < first {
            cells.tell(entry, Column::To, "a date that isn't before FROM")?;
        }
    }
    persons.push(Person {
        name,
        base,
        rank,
        target,
        from,
        to,
        place: entry.place(Column::Person),
    })?;
    Ok(())
}

/// The persons of the table.
pub(crate) fn read_crew(
    cells: &mut Cells,
    sheets: &Sheets,
    stations: &Stations,
) -> Result<Vec<Person>, AllocError> {
    let mut persons = Vec::new(cells.alloc);
    for i in 0..sheets.crew.len() {
        if let Some(entry) = sheets.crew.entry(i) {
            push_person(cells, &mut persons, stations, entry)?;
        }
    }
    Ok(persons)
}
