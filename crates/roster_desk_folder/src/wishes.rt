//! What persons wish, and what they have flown.

use crate::activities::{is_of_crew, person_in};
use crate::cells::Cells;
use crate::crew::Person;
use crate::files::Sheets;
use crate::pairings::{Pairing, find_pairing};
use jiff::civil::Date;
use roster_desk_sheets::{Column, Entry, Place};
use std::alloc::AllocError;

/// What a wish is about.
#[derive(Clone, Copy)]
pub enum Wanted {
    /// The pairing at a place.
    Pairing(usize),
    /// Each pairing that touches the date, by the clocks of the person's base.
    On(Date),
}

/// A wish.
#[derive(Clone, Copy)]
pub struct Wish {
    /// The place of the person.
    pub person: usize,
    /// What it is about.
    pub wanted: Wanted,
    /// What it costs that the person flies it; it saves if it is less than 0.
    pub units: i64,
    /// Where the table has it.
    pub place: Place,
}

/// What a person has flown in a month.
#[derive(Drop)]
pub struct Flown {
    /// The place of the person.
    pub person: usize,
    /// The first date of the month.
    pub month: Date,
    /// Minutes of flight.
    pub minutes: u32,
}

/// What the wish of a row is about.
fn wanted_in(
    cells: &mut Cells,
    pairings: &[Pairing],
    entry: Entry<'_>,
) -> Result<Option<Wanted>, AllocError> {
    let name = entry.get(Column::Pairing);
    if name.is_empty() == entry.get(Column::Date).is_empty() {
        cells.tell(entry, Column::Pairing, "either a pairing or a DATE")?;
        return Ok(None);
    }
    if name.is_empty() {
        return match cells.date(entry, Column::Date)? {
            Some(date) => Ok(Some(Wanted::On(date))),
            None => Ok(None),
        };
    }
    match find_pairing(pairings, name) {
        Some(pairing) => Ok(Some(Wanted::Pairing(pairing))),
        None => {
            cells.tell(entry, Column::Pairing, "a pairing of pairings.csv")?;
            Ok(None)
        }
    }
}

/// Puts the wish of a row behind the others, if its person and what it is about are known.
fn push_wish(
    cells: &mut Cells,
    wishes: &mut Vec<Wish>,
    persons: &[Person],
    pairings: &[Pairing],
    entry: Entry<'_>,
) -> Result<(), AllocError> {
    let person = person_in(cells, persons, entry)?;
    let wanted = wanted_in(cells, pairings, entry)?;
    if entry.get(Column::Units).is_empty() {
        cells.tell(entry, Column::Units, "a whole number")?;
    }
    let units = cells.number(entry, Column::Units, 0)?;
    if let (Some(person), Some(wanted)) = (person, wanted) {
        wishes.push(Wish {
            person,
            wanted,
            units,
            place: entry.place(Column::Units),
        })?;
    }
    Ok(())
}

/// The wishes of the table.
pub(crate) fn read_wishes(
    cells: &mut Cells,
    sheets: &Sheets,
    persons: &[Person],
    pairings: &[Pairing],
) -> Result<Vec<Wish>, AllocError> {
    let mut wishes = Vec::new(cells.alloc);
    for i in 0..sheets.wishes.len() {
        if let Some(entry) = sheets.wishes.entry(i) {
            push_wish(cells, &mut wishes, persons, pairings, entry)?;
        }
    }
    Ok(wishes)
}

/// Whether the list has the month of the person.
fn is_given(flown: &[Flown], person: usize, month: Date) -> bool {
    for other in flown {
        if other.person == person && other.month == month {
            return true;
        }
    }
    false
}

/// What a row of a ledger has, if its person and its month are known.
fn flown_in(
    cells: &mut Cells,
    persons: &[Person],
    entry: Entry<'_>,
) -> Result<Option<Flown>, AllocError> {
    let person = person_in(cells, persons, entry)?;
    let month = cells.month(entry, Column::Month)?;
    let minutes = cells.minutes(entry, Column::Flight)?;
    let (Some(person), Some(month)) = (person, month) else {
        return Ok(None);
    };
    Ok(Some(Flown {
        person,
        month,
        minutes,
    }))
}

/// Puts the month of a row behind the others. One that a row before has is told.
fn push_flown(
    cells: &mut Cells,
    flown: &mut Vec<Flown>,
    persons: &[Person],
    entry: Entry<'_>,
) -> Result<(), AllocError> {
    let Some(row) = flown_in(cells, persons, entry)? else {
        return Ok(());
    };
    if is_given(flown.as_slice(), row.person, row.month) {
        return cells.tell(entry, Column::Month, "each month of a person once");
    }
    flown.push(row)?;
    Ok(())
}

/// Puts the month of a row of carry behind the others, unless the ledger has it by now.
fn push_carried(
    cells: &mut Cells,
    flown: &mut Vec<Flown>,
    ledger: usize,
    persons: &[Person],
    entry: Entry<'_>,
) -> Result<(), AllocError> {
    let Some(row) = flown_in(cells, persons, entry)? else {
        return Ok(());
    };
    let of_ledger = flown.get(..ledger).unwrap_or(&[]);
    if is_given(of_ledger, row.person, row.month) {
        return Ok(());
    }
    if is_given(flown.as_slice(), row.person, row.month) {
        return cells.tell(entry, Column::Month, "each month of a person once");
    }
    flown.push(row)?;
    Ok(())
}

/// What the ledger of the table has, and the months that only the one of the months before has.
pub(crate) fn read_flown(
    cells: &mut Cells,
    sheets: &Sheets,
    persons: &[Person],
) -> Result<Vec<Flown>, AllocError> {
    let mut flown = Vec::new(cells.alloc);
    for i in 0..sheets.flown.len() {
        if let Some(entry) = sheets.flown.entry(i) {
            push_flown(cells, &mut flown, persons, entry)?;
        }
    }
    let ledger = flown.len();
    for i in 0..sheets.carried_flown.len() {
        if let Some(entry) = sheets.carried_flown.entry(i) {
            if is_of_crew(persons, entry) {
                push_carried(cells, &mut flown, ledger, persons, entry)?;
            }
        }
    }
    Ok(flown)
}
