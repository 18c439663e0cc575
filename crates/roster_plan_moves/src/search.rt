//! Changes tried one after another. Nothing rests on what a search thinks that its roster is and costs.

use crate::changes::Changes;
use crate::random::Random;
use crate::sets::{add, amount_at, is_sought, set_at, without};
use crate::tables::Tables;
use roster_bases::base_of_pairing;
use roster_problem::{Problem, open_number};
use roster_values::Set;
use std::alloc::{AllocError, Global};

/// What a search thinks that its roster is, what it costs, and the changes that it tries next.
#[derive(Drop)]
pub(crate) struct Search<'a> {
    pub(crate) tables: Tables<'a>,
    pub(crate) random: Random,
    pub(crate) changes: Changes,
    // By person: the set, what it costs, and the flight with it.
    sets: Vec<Set>,
    lines: Vec<i64>,
    flights: Vec<i64>,
    // The pairings of bases that are sought, and which of them are open.
    pairings: Vec<usize>,
    open: Set,
    // What has been saved since the start, and at most.
    saved: i64,
    most_saved: i64,
}

impl<'a> Search<'a> {
    /// A search that begins with this roster, in bases that are sought, with the chances of a seed.
    pub(crate) fn new(
        alloc: Global,
        problem: &'a Problem,
        places: &[u16],
        sought: &[bool],
        seed: u64,
    ) -> Result<Search<'a>, AllocError> {
        let pairings = pairings_of(alloc, problem, sought)?;
        let tables = Tables::new(alloc, problem)?;
        let sets = sets_of(alloc, places, tables.persons())?;
        let lines = lines_of(alloc, &tables, &sets)?;
        let flights = flights_of(alloc, &tables, &sets)?;
        let open = open_of(problem, places, &pairings);
        Ok(Search {
            tables,
            random: Random::new(seed),
            changes: Changes::new(alloc),
            sets,
            lines,
            flights,
            pairings,
            open,
            saved: 0,
            most_saved: 0,
        })
    }

    /// One of the pairings of bases that are sought, by chance.
    pub(crate) fn some_pairing(&mut self) -> usize {
        let i = self.random.below(self.pairings.len());
        self.pairings.get(i).copied().unwrap_or(0)
    }

    /// Those pairings of the same bases that are open.
    pub(crate) fn open(&self) -> &Set {
        &self.open
    }

    /// Who has the pairing at place `p`.
    pub(crate) fn holder(&self, p: usize) -> Option<usize> {
        for (k, set) in self.sets.iter().enumerate() {
            if set.has(p) {
                return Some(k);
            }
        }
        None
    }

    /// The set that person `k` has after the changes.
    pub(crate) fn set(&self, k: usize) -> Set {
        match self.changes.of(k) {
            Some(set) => set,
            None => set_at(&self.sets, k),
        }
    }

    /// The minutes of flight of person `k` after the changes.
    pub(crate) fn flight(&self, k: usize) -> i64 {
        match self.changes.of(k) {
            Some(set) => self.tables.flight(k, &set),
            None => amount_at(&self.flights, k),
        }
    }

    /// What the changed persons lose, and what they gain.
    fn traded(&self) -> (Set, Set) {
        let mut old = Set::empty();
        let mut new = Set::empty();
        for change in self.changes.as_slice() {
            old = old.or(&set_at(&self.sets, change.person));
            new = new.or(&change.set);
        }
        (without(&old, &new), without(&new, &old))
    }

    /// What the changes cost more.
    pub(crate) fn extra(&self) -> i64 {
        let (lost, gained) = self.traded();
        let mut extra = self.tables.penalties(&lost);
        extra = extra.wrapping_sub(self.tables.penalties(&gained));
        for change in self.changes.as_slice() {
            let k = change.person;
            extra = extra.wrapping_add(self.tables.line(k, &change.set));
            extra = extra.wrapping_sub(amount_at(&self.lines, k));
        }
        extra
    }

    /// Takes the changes, which cost so much more. Whether nothing was as cheap so far.
    pub(crate) fn take(&mut self, extra: i64) -> bool {
        let (lost, gained) = self.traded();
        self.open = without(&self.open.or(&lost), &gained);
        for change in self.changes.as_slice() {
            let k = change.person;
            if k < self.sets.len() && k < self.lines.len() && k < self.flights.len() {
                self.sets[k] = change.set;
                self.lines[k] = self.tables.line(k, &change.set);
                self.flights[k] = self.tables.flight(k, &change.set);
            }
        }
        self.saved = self.saved.wrapping_sub(extra);
        if self.saved <= self.most_saved {
            return false;
        }
        self.most_saved = self.saved;
        true
    }
}

/// The set of a number in the places, which may be any list.
pub(crate) fn set_of(places: &[u16], number: usize) -> Set {
    let mut set = Set::empty();
    for (p, place) in places.iter().enumerate() {
        if usize::from(*place) == number {
            add(&mut set, p);
        }
    }
    set
}

/// The sets of so many persons.
fn sets_of(alloc: Global, places: &[u16], persons: usize) -> Result<Vec<Set>, AllocError> {
    let mut sets = Vec::new(alloc);
    for k in 0..persons {
        sets.push(set_of(places, k))?;
    }
    Ok(sets)
}

/// What each person's set costs.
fn lines_of(alloc: Global, tables: &Tables<'_>, sets: &[Set]) -> Result<Vec<i64>, AllocError> {
    let mut lines = Vec::new(alloc);
    for (k, set) in sets.iter().enumerate() {
        lines.push(tables.line(k, set))?;
    }
    Ok(lines)
}

/// The flight of each person with the set.
fn flights_of(alloc: Global, tables: &Tables<'_>, sets: &[Set]) -> Result<Vec<i64>, AllocError> {
    let mut flights = Vec::new(alloc);
    for (k, set) in sets.iter().enumerate() {
        flights.push(tables.flight(k, set))?;
    }
    Ok(flights)
}

/// The pairings of bases that are sought.
fn pairings_of(
    alloc: Global,
    problem: &Problem,
    sought: &[bool],
) -> Result<Vec<usize>, AllocError> {
    let mut pairings = Vec::new(alloc);
    for p in 0..problem.pairings().len() {
        if is_sought(sought, base_of_pairing(problem, p)) {
            pairings.push(p)?;
        }
    }
    Ok(pairings)
}

/// Which of the pairings are open.
fn open_of(problem: &Problem, places: &[u16], pairings: &[usize]) -> Set {
    let mut theirs = Set::empty();
    for p in pairings {
        add(&mut theirs, *p);
    }
    set_of(places, usize::from(open_number(problem))).and(&theirs)
}
