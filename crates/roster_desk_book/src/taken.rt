//! Which persons and pairings a book has.

use crate::asked::Asked;
use roster_desk_folder::{Cells, Duty, Pairing, Person, Tables};
use roster_desk_sheets::{Column, Mistakes, Place, Table};
use roster_desk_times::month_at;
use std::alloc::{AllocError, Global};

/// Which persons and pairings of the tables a book has, place by place.
#[derive(Drop)]
pub(crate) struct Taken {
    persons: Vec<bool>,
    pairings: Vec<bool>,
}

impl Taken {
    /// Whether the book has the person at the place.
    pub(crate) fn has_person(&self, k: usize) -> bool {
        self.persons.get(k).copied().unwrap_or(false)
    }

    /// Whether the book has the pairing at the place.
    pub(crate) fn has_pairing(&self, p: usize) -> bool {
        self.pairings.get(p).copied().unwrap_or(false)
    }
}

/// The duties of the pairing at the place, by their report.
pub(crate) fn duties_of(tables: &Tables, p: usize) -> &[Duty] {
    let from = tables.duties.partition_point(|duty| duty.pairing < p);
    let to = tables.duties.partition_point(|duty| duty.pairing <= p);
    tables.duties.get(from..to).unwrap_or(&[])
}

/// Whether the pairing, whose first duty this is, begins in the month at its base.
fn begins_in(asked: &Asked<'_>, tables: &Tables, pairing: &Pairing, first: &Duty) -> bool {
    match tables.stations.zone(pairing.base.as_slice()) {
        Some(zone) => month_at(zone, first.report) == asked.first(),
        None => false,
    }
}

/// Whether the book has the pairing at the place; one without a duty is told.
fn is_taken(
    asked: &Asked<'_>,
    tables: &Tables,
    p: usize,
    pairing: &Pairing,
    cells: &mut Cells,
) -> Result<bool, AllocError> {
    let is_asked = asked.has_base(pairing.base.as_slice())
        && asked.has_rank(pairing.rank.as_slice());
    if !is_asked || pairing.count == 0 {
        return Ok(false);
    }
    let Some(first) = duties_of(tables, p).first() else {
        let wanted = "a pairing with a duty in duties.csv";
        let name = pairing.name.as_slice();
        cells
            .mistakes
            .push(cells.alloc, pairing.place, name, wanted)?;
        return Ok(false);
    };
    Ok(begins_in(asked, tables, pairing, first))
}

/// Whether the book has the person.
fn is_of_book(asked: &Asked<'_>, person: &Person) -> bool {
    asked.has_base(person.base.as_slice()) && asked.has_rank(person.rank.as_slice())
}

/// Which persons and pairings the book has.
pub(crate) fn find_taken(
    asked: &Asked<'_>,
    tables: &Tables,
    cells: &mut Cells,
) -> Result<Taken, AllocError> {
    let mut persons = Vec::new(cells.alloc);
    for person in &tables.persons {
        persons.push(is_of_book(asked, person))?;
    }
    let mut pairings = Vec::new(cells.alloc);
    for (p, pairing) in tables.pairings.iter().enumerate() {
        pairings.push(is_taken(asked, tables, p, pairing, cells)?)?;
    }
    Ok(Taken { persons, pairings })
}

/// Where a table is told that it has nothing of what is asked.
fn nowhere(table: Table, column: Column) -> Place {
    Place {
        table,
        line: 1,
        column,
    }
}

/// Tells each base that is asked for and isn't there.
fn tell_bases(
    alloc: Global,
    asked: &Asked<'_>,
    tables: &Tables,
    mistakes: &mut Mistakes,
) -> Result<(), AllocError> {
    for base in asked.bases() {
        if tables.stations.base(base.as_bytes()).is_none() {
            let place = nowhere(Table::Bases, Column::Base);
            let wanted = format!(in alloc; "the base {base}, which is asked for")?;
            mistakes.push(alloc, place, b"", wanted.as_str())?;
        }
    }
    Ok(())
}

/// The first person whose rank isn't that of the first person whom the book has.
fn of_other_rank<'a>(tables: &'a Tables, taken: &Taken) -> Option<&'a Person> {
    let mut rank: Option<&[u8]> = None;
    for (k, person) in tables.persons.iter().enumerate() {
        if taken.has_person(k) {
            match rank {
                None => rank = Some(person.rank.as_slice()),
                Some(rank) if rank == person.rank.as_slice() => {}
                Some(_) => return Some(person),
            }
        }
    }
    None
}

/// The rank of the first person whom the book has; empty if there is none.
fn rank_of_persons<'a>(tables: &'a Tables, taken: &Taken) -> &'a [u8] {
    for (k, person) in tables.persons.iter().enumerate() {
        if taken.has_person(k) {
            return person.rank.as_slice();
        }
    }
    &[]
}

/// The first pairing whose rank isn't that of the persons, or of the pairings before it. An empty one agrees
/// with each.
fn pairing_of_other_rank<'a>(tables: &'a Tables, taken: &Taken) -> Option<&'a Pairing> {
    let mut rank = rank_of_persons(tables, taken);
    for (p, pairing) in tables.pairings.iter().enumerate() {
        if !taken.has_pairing(p) || pairing.rank.is_empty() {
            continue;
        }
        if rank.is_empty() {
            rank = pairing.rank.as_slice();
        }
        if pairing.rank.as_slice() != rank {
            return Some(pairing);
        }
    }
    None
}

/// Tells the rank at the place, of which the book isn't.
fn tell_rank(
    alloc: Global,
    place: Place,
    rank: &[u8],
    wanted: &str,
    mistakes: &mut Mistakes,
) -> Result<(), AllocError> {
    let place = Place {
        column: Column::Rank,
        ..place
    };
    mistakes.push(alloc, place, rank, wanted)
}

/// Tells persons and pairings of more than one rank, and pairings without one if a rank is asked for.
fn tell_ranks(
    alloc: Global,
    asked: &Asked<'_>,
    tables: &Tables,
    taken: &Taken,
    mistakes: &mut Mistakes,
) -> Result<(), AllocError> {
    if let Some(person) = of_other_rank(tables, taken) {
        let wanted = "persons of one rank, as --rank takes them: a book is of one rank";
        return tell_rank(alloc, person.place, &person.rank, wanted, mistakes);
    }
    if let Some(pairing) = pairing_of_other_rank(tables, taken) {
        let wanted = "pairings of the persons' rank, as --rank takes them: a book is of one rank";
        return tell_rank(alloc, pairing.place, &pairing.rank, wanted, mistakes);
    }
    let has_none = tables
        .pairings
        .iter()
        .all(|pairing| pairing.rank.is_empty());
    match tables.pairings.first() {
        Some(pairing) if has_none && asked.rank().is_some_and(|rank| !rank.is_empty()) => {
            let wanted = "the ranks of pairings, by which --rank takes them";
            tell_rank(alloc, pairing.place, b"", wanted, mistakes)
        }
        _ => Ok(()),
    }
}

/// Tells what is asked for and isn't there, and ranks that don't agree.
pub(crate) fn tell_asked(
    alloc: Global,
    asked: &Asked<'_>,
    tables: &Tables,
    taken: &Taken,
    mistakes: &mut Mistakes,
) -> Result<(), AllocError> {
    tell_bases(alloc, asked, tables, mistakes)?;
    tell_ranks(alloc, asked, tables, taken, mistakes)?;
    let has_person = (0..tables.persons.len()).any(|k| taken.has_person(k));
    if let (Some(rank), false) = (asked.rank(), has_person) {
        let place = nowhere(Table::Crew, Column::Rank);
        let wanted = format!(in alloc; "a person of the rank {rank}, which is asked for")?;
        mistakes.push(alloc, place, b"", wanted.as_str())?;
    }
    Ok(())
}
