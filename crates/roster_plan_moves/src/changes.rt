//! Persons who are to have other sets.

use roster_values::Set;
use std::alloc::{AllocError, Global};

/// A person's place, and the set that they are to have.
#[derive(Drop)]
pub(crate) struct Change {
    pub(crate) person: usize,
    pub(crate) set: Set,
}

/// Changes that are made together, at most one for each person.
#[derive(Drop)]
pub(crate) struct Changes {
    list: Vec<Change>,
}

impl Changes {
    /// No changes.
    pub(crate) fn new(alloc: Global) -> Changes {
        Changes {
            list: Vec::new(alloc),
        }
    }

    /// The changes.
    pub(crate) fn as_slice(&self) -> &[Change] {
        &self.list
    }

    /// Forgets them.
    pub(crate) fn clear(&mut self) {
        self.list.clear();
    }

    /// The set that person `k` is to have, if it is to change.
    pub(crate) fn of(&self, k: usize) -> Option<Set> {
        for change in &self.list {
            if change.person == k {
                return Some(change.set);
            }
        }
        None
    }

    /// Person `k` is to have the set.
    pub(crate) fn put(&mut self, k: usize, set: Set) -> Result<(), AllocError> {
        for i in 0..self.list.len() {
            if self.list[i].person == k {
                self.list[i].set = set;
                return Ok(());
            }
        }
        self.list.push(Change { person: k, set })?;
        Ok(())
    }
}
