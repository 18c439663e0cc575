//! Pairings.

use crate::cells::Cells;
use crate::crew::tell_unknown_base;
use crate::files::Sheets;
use crate::stations::Stations;
use roster_desk_sheets::{Column, Entry, Place};
use std::alloc::AllocError;

/// What it costs to leave a pairing open if the table doesn't say it.
const USUAL_PENALTY: i64 = 1000;

/// How many persons of a rank fly one pairing, at most.
const MOST_COUNT: i64 = 9;

/// A pairing.
#[derive(Drop)]
pub struct Pairing {
    /// Its name.
    pub name: Vec<u8>,
    /// The name of its base.
    pub base: Vec<u8>,
    /// The rank of who flies it; empty if the table has none.
    pub rank: Vec<u8>,
    /// What it costs to leave it open.
    pub penalty: i64,
    /// How many persons of the rank fly it.
    pub count: i64,
    /// Where the table has it.
    pub place: Place,
}

/// The place of the first pairing of the name: there may be one for each rank.
pub(crate) fn find_pairing(pairings: &[Pairing], name: &[u8]) -> Option<usize> {
    pairings
        .iter()
        .position(|pairing| pairing.name.as_slice() == name)
}

/// Whether a pairing has the name and the rank.
fn is_given(pairings: &[Pairing], name: &[u8], rank: &[u8]) -> bool {
    pairings.iter().any(|pairing| pairing.name.as_slice() == name
        && pairing.rank.as_slice() == rank)
}

/// How many persons fly the pairing of a row: one if nothing is said.
fn count_in(cells: &mut Cells, entry: Entry<'_>) -> Result<i64, AllocError> {
    let count = cells.number(entry, Column::Count, 1)?;
    if !(0..=MOST_COUNT).contains(&count) {
        cells.tell(entry, Column::Count, "a number from 0 to 9")?;
    }
    Ok(count.clamp(0, MOST_COUNT))
}

/// Puts the pairing of a row behind the others.
fn push_pairing(
    cells: &mut Cells,
    pairings: &mut Vec<Pairing>,
    stations: &Stations,
    entry: Entry<'_>,
) -> Result<(), AllocError> {
    let name = cells.name(entry, Column::Pairing)?;
    let rank = cells.text(entry, Column::Rank)?;
    if is_given(pairings.as_slice(), name.as_slice(), rank.as_slice()) {
        return cells.tell(entry, Column::Pairing, "each name once for each rank");
    }
    tell_unknown_base(cells, stations, entry)?;
    let base = cells.text(entry, Column::Base)?;
    let penalty = cells.number(entry, Column::Penalty, USUAL_PENALTY)?;
    let count = count_in(cells, entry)?;
    pairings.push(Pairing {
        name,
        base,
        rank,
        penalty,
        count,
        place: entry.place(Column::Pairing),
    })?;
    Ok(())
}

/// The pairings of the table.
pub(crate) fn read_pairings(
    cells: &mut Cells,
    sheets: &Sheets,
    stations: &Stations,
) -> Result<Vec<Pairing>, AllocError> {
    let mut pairings = Vec::new(cells.alloc);
    for i in 0..sheets.pairings.len() {
        if let Some(entry) = sheets.pairings.entry(i) {
            push_pairing(cells, &mut pairings, stations, entry)?;
        }
    }
    Ok(pairings)
}
