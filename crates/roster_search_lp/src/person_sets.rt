//! The sets of pairings that a person has columns of.

ghost use Rattle.std.specs.Prelude.{◌≡◌, ◌∷◌, [], IfOk, OnOk, not};
ghost use Rattle.roster_search_lp.specs.Programs.{has_set, with_set};

use roster_values::Set;
use std::alloc::{AllocError, Global};
use std::marker::Model;

/// The sets of pairings that a person has columns of, each once: contracts see their list.
#[derive(Drop)]
pub(crate) struct PersonSets {
    sets: Vec<Set>,
}

impl Model for PersonSets {
    ghost use Rattle.std.specs.Prelude.{List, ℕ};

    ghost Value = { List (List ℕ) };

    ghost view = { λ s. s.sets.items };
}

impl PersonSets {
    /// The set without pairings alone.
    pub(crate) fn new(alloc: Global) -> Result<PersonSets, AllocError>
        ensures { IfOk result (λ sets. sets ≡ [] ∷ []) }
    {
        let mut sets = Vec::new(alloc);
        sets.push(Set::empty())?;
        Ok(PersonSets { sets })
    }

    /// The same sets.
    pub(crate) fn copy(&self) -> Result<PersonSets, AllocError>
        ensures { IfOk result (λ sets. sets ≡ self.now) }
    {
        Ok(PersonSets {
            sets: self.sets.clone()?,
        })
    }

    /// Whether the set is among them.
    pub(crate) fn has(&self, set: &Set) -> bool
        ensures { result ≡ has_set set.now self.now }
    {
        self.sets.iter().any(|other| *other == *set)
    }

    /// Puts the set behind them, if it isn't among them. Whether it wasn't.
    pub(crate) fn put(&mut self, set: &Set) -> Result<bool, AllocError>
        ensures sets { OnOk result (self.new ≡ with_set set.now self.old) }
        ensures is_new { IfOk result (λ is_new. is_new ≡ not (has_set set.now self.old)) }
    {
        if self.has(set) {
            return Ok(false);
        }
        self.sets.push(*set)?;
        Ok(true)
    }
}
