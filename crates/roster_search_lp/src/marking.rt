//! Which columns may be used in a part of all rosters.

ghost use Rattle.std.specs.Prelude.{◌≡◌};

use crate::column::{Column, Kind};
use crate::master::Master;
use roster_model::limits::MOST_PAIRINGS;
use roster_values::Set;
use std::alloc::{AllocError, Global};

/// Which lines of a person may be used: those that have no other pairings than the possible ones, and all of
/// the certain ones.
#[derive(Clone, Copy)]
pub struct Allowed {
    /// Pairings that a line may have.
    pub possible: Set,
    /// Pairings that a line must have.
    pub certain: Set,
}

impl Master {
    /// Allows the lines that these sets allow, person by person, and forbids all others: also those that have
    /// a pairing that must be left open, and to leave open one that must be flown. Persons who aren't in the
    /// list may have any line. It takes effect with the next solution, and forgets how dear forbidden columns
    /// had become.
    pub fn mark(
        &mut self,
        allowed: &[Allowed],
        flown: &Set,
        left_open: &Set,
    ) -> Result<(), AllocError>
        ensures { self.new ≡ self.old }
    {
        self.simplex.mark(allowed, flown, left_open)
    }

    /// Whether the last solution uses a forbidden column, by more than a thousandth. It may do so if there is
    /// no other solution, or if what is forbidden is too cheap.
    pub fn uses_forbidden(&self) -> bool {
        self.simplex.uses_forbidden()
    }

    /// Makes forbidden columns dearer for the next solution. False if they have become so often enough.
    pub fn raise(&mut self) -> bool
        ensures { self.new ≡ self.old }
    {
        self.simplex.raise()
    }
}

/// What sets say of the columns.
#[derive(Drop)]
pub(crate) struct Marks {
    persons: Vec<PersonMarks>,
    left_open: Set,
}

/// What sets say of the lines of one person.
#[derive(Clone, Copy)]
struct PersonMarks {
    allowed: Allowed,
    // Pairings that a line may not have.
    barred: Set,
    // Whether it must have some.
    has_certain: bool,
    // Whether the sets are others than the time before. Those of most persons aren't, and then what is forbidden of
    // their lines is so already.
    are_new: bool,
}

impl Marks {
    /// Nothing is forbidden.
    pub(crate) fn new(alloc: Global) -> Marks {
        Marks {
            persons: Vec::new(alloc),
            left_open: Set::empty(),
        }
    }

    /// The same.
    pub(crate) fn copy(&self) -> Result<Marks, AllocError> {
        Ok(Marks {
            persons: self.persons.clone()?,
            left_open: self.left_open,
        })
    }

    /// Takes over these sets, in a program of so many pairings.
    pub(crate) fn put(
        &mut self,
        allowed: &[Allowed],
        left_open: &Set,
        pairings: usize,
    ) -> Result<(), AllocError> {
        let is_other = self.left_open != *left_open;
        self.left_open = *left_open;
        self.persons.truncate(allowed.len());
        for (k, now) in allowed.iter().enumerate() {
            if k >= self.persons.len() {
                let marks = PersonMarks::new(now, left_open, pairings);
                self.persons.push(marks)?;
            } else if is_other || !self.persons[k].are_of(now) {
                self.persons[k] = PersonMarks::new(now, left_open, pairings);
            } else {
                self.persons[k].are_new = false;
            }
        }
        Ok(())
    }

    /// Whether person `k` may have the line of these pairings.
    pub(crate) fn allow(&self, k: usize, set: &Set) -> bool {
        match self.persons.get(k) {
            Some(marks) => marks.allow(set),
            None => !set.meets(&self.left_open),
        }
    }

    /// Whether a column of these pairings may be used, if that is for sets to say and may be other than before.
    pub(crate) fn is_allowed(&self, column: &Column, set: &Set, flown: &Set) -> Option<bool> {
        match column.kind {
            Kind::Open(p) => Some(!flown.has(p)),
            Kind::Line(k) => match self.persons.get(k) {
                Some(marks) if !marks.are_new => None,
                _ => Some(self.allow(k, set)),
            },
            Kind::Fewer(_) | Kind::More(_) => None,
        }
    }
}

impl PersonMarks {
    /// What these sets say, in a program of so many pairings.
    fn new(allowed: &Allowed, left_open: &Set, pairings: usize) -> PersonMarks {
        let mut barred = *left_open;
        for p in 0..pairings.min(MOST_PAIRINGS) {
            if !allowed.possible.has(p) {
                barred.put(p);
            }
        }
        PersonMarks {
            allowed: *allowed,
            barred,
            has_certain: !allowed.certain.is_empty(),
            are_new: true,
        }
    }

    /// Whether they are what these sets say.
    fn are_of(&self, allowed: &Allowed) -> bool {
        self.allowed.possible == allowed.possible && self.allowed.certain == allowed.certain
    }

    /// Whether the person may have the line of these pairings.
    fn allow(&self, set: &Set) -> bool {
        let certain = &self.allowed.certain;
        !set.meets(&self.barred) && (!self.has_certain || set.and(certain) == *certain)
    }
}
