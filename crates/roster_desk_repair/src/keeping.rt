//! Which records of a book stay in a repair, which ones are left of a pairing that breaks off, and what they
//! say.

use roster_desk_repair_judged::{Break, Rest, Terms, is_left};
use roster_desk_reports::{pairing_named, person_named};
use roster_problem::{Holder, Problem};

/// A book, and what is fixed of a published roster of it.
#[derive(Clone, Copy)]
pub(crate) struct Kept<'a> {
    /// The book.
    pub(crate) book: &'a Problem,
    /// The published roster.
    pub(crate) published: &'a [u16],
    /// What is fixed of it.
    pub(crate) fixed: &'a [Option<u16>],
    /// What moves cost.
    pub(crate) terms: &'a Terms,
}

/// What becomes of a duty.
#[derive(Clone, Copy)]
pub(crate) enum Fate<'a> {
    /// It stays as it is.
    Stays,
    /// It is fixed for the person of this name.
    Fixed(&'a [u8]),
    /// Nobody has it any more.
    Leaves,
}

impl<'a> Kept<'a> {
    /// Whether the pairing of the name is fixed.
    pub(crate) fn is_fixed(&self, pairing: &[u8]) -> bool {
        match pairing_named(self.book, pairing) {
            Some(p) => matches!(self.fixed.get(p), Some(Some(_))),
            None => false,
        }
    }

    /// What becomes of the duties of the pairing at place `p`.
    pub(crate) fn fate(&self, p: usize) -> Fate<'a> {
        match self.fixed.get(p) {
            Some(Some(number)) => match self.book.persons().get(usize::from(*number)) {
                Some(person) => Fate::Fixed(person.id.as_bytes()),
                None => Fate::Leaves,
            },
            _ => Fate::Stays,
        }
    }

    /// Whether somebody has the duty of the name.
    pub(crate) fn has_duty(&self, name: &[u8]) -> bool {
        let duties = self.book.duties();
        match duties.iter().find(|duty| duty.id.as_bytes() == name) {
            Some(duty) => match duty.holder {
                Holder::Pairing(p) => !matches!(self.fate(p), Fate::Leaves),
                Holder::Person(_) => true,
            },
            None => true,
        }
    }

    /// Whether the units of the person with the pairing stay as they are: those of an owner don't.
    pub(crate) fn keeps_units(&self, person: &[u8], pairing: &[u8]) -> bool {
        match (
            pairing_named(self.book, pairing),
            person_named(self.book, person),
        ) {
            (Some(p), Some(k)) => {
                let owner = self.published.get(p).map(|number| usize::from(*number));
                self.fixed.get(p) == Some(&None) && owner != Some(k)
            }
            _ => true,
        }
    }
}

/// A book, a pairing of it that breaks off, and what is called so that is left of it.
#[derive(Clone, Copy)]
pub(crate) struct Off<'a> {
    /// The book.
    pub(crate) book: &'a Problem,
    /// The pairing.
    pub(crate) broken: &'a Break,
    /// The name of what is left, if it is a pairing, and of the duty that brings somebody there.
    pub(crate) name: &'a [u8],
}

impl<'a> Off<'a> {
    /// Whether the duty of the name is left of the pairing.
    pub(crate) fn has_left(&self, name: &[u8]) -> bool {
        let duties = self.book.duties();
        match duties.iter().find(|duty| duty.id.as_bytes() == name) {
            Some(duty) => is_left(self.broken, duty),
            None => false,
        }
    }

    /// The name of the person with whom the rest stays, if it does.
    pub(crate) fn person(&self) -> Option<&'a [u8]> {
        let Rest::Stays { person } = self.broken.rest else {
            return None;
        };
        match self.book.persons().get(person) {
            Some(person) => Some(person.id.as_bytes()),
            None => None,
        }
    }
}
