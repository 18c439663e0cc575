//! The pairings that a walk through a tree of choices has come to.

ghost use Rattle.std.specs.Prelude.{◌≡◌, ◌<◌, ◌≤◌, ◌-◌, ◌↔◌, [], ℕ, IsTrue, OnOk, length, slice_index};
ghost use Rattle.roster_model.specs.declared.limits.TheConstants.{MOST_PAIRINGS};
ghost use Rattle.roster_model.specs.Rules.{is_among};
ghost use Rattle.roster_search_regions.specs.Trees.{lacks, next_path, IsLimited};

use crate::choice::Choice;
use crate::writer::is_same;
use roster_values::Set;
use std::alloc::{AllocError, Global};
use std::marker::Model;

/// The pairings on the way to a choice, from the first on. Contracts see it as their list.
#[derive(Drop)]
pub(crate) struct Path {
    lasts: Vec<u16>,
}

impl Model for Path {
    ghost use Rattle.std.specs.Prelude.{List, ℕ, All, length, ◌≤◌, ◌<◌};
    ghost use Rattle.roster_model.specs.declared.limits.TheConstants.{MOST_PAIRINGS};

    ghost Value = { List ℕ };

    ghost view = { λ p. p.lasts.items };

    ghost invariant = { λ p. (length p.lasts.items ≤ MOST_PAIRINGS)
        × All (λ last. last < MOST_PAIRINGS) p.lasts.items };
}

impl Path {
    /// The way to the empty line.
    pub(crate) fn new(alloc: Global) -> Path
        ensures { result ≡ [] }
    {
        Path {
            lasts: Vec::new(alloc),
        }
    }

    /// How many pairings are on it.
    pub(crate) fn length(&self) -> usize
        ensures value { result ≡ length self.now }
        ensures bound { result ≤ MOST_PAIRINGS }
    {
        self.lasts.len()
    }

    /// The pairing at position `j`.
    pub(crate) fn last(&self, j: usize) -> u16
        requires { j < length self.now }
        ensures value { result ≡ slice_index self.now j }
        ensures bound { result < MOST_PAIRINGS }
    {
        self.lasts[j]
    }

    /// The last pairing, if there is one, and else 0.
    pub(crate) fn last_or_none(&self) -> u16
        ensures value { result ≡ slice_index self.now (length self.now - 1) }
        ensures bound { result < MOST_PAIRINGS }
    {
        match self.lasts.last() {
            Some(last) => *last,
            None => 0,
        }
    }

    /// The pairings on it, as a set. It goes over them all.
    pub(crate) fn set(&self) -> Set
        ensures { (p : ℕ) → is_among result p ≡ is_among self.now p }
    {
        let mut set = Set::empty();
        for i in 0..self.lasts.len() {
            set.put(usize::from(self.lasts[i]));
        }
        set
    }

    /// Whether the pairing at place `p` is on it.
    pub(crate) fn has(&self, p: usize) -> bool
        ensures { result ≡ is_among self.now p }
    {
        self.lasts.iter().any(|last| usize::from(*last) == p)
    }

    /// Whether it has none of the pairings of the set.
    pub(crate) fn lacks(&self, taken: &Set) -> bool
        ensures { result ≡ lacks taken.now self.now }
    {
        self.lasts.iter().all(|last| !taken.has(usize::from(*last)))
    }

    /// Whether it has just the pairings of the set. Mostly its last one tells that it hasn't.
    pub(crate) fn is_same(&self, set: &Set) -> bool
        ensures { IsTrue result ↔ ((p : ℕ) → is_among self.now p ≡ is_among set.now p) }
    {
        let length = self.length();
        if length > 0 && !set.has(usize::from(self.last(length - 1))) {
            return false;
        }
        is_same(&self.set(), set)
    }

    /// Goes on to the next choice.
    pub(crate) fn step(&mut self, choice: &Choice) -> Result<(), AllocError>
        requires { IsLimited choice.now }
        ensures { OnOk result (self.new ≡ next_path self.old choice.now) }
    {
        if choice.depth == 0 {
            self.lasts.clear();
            return Ok(());
        }
        self.lasts.truncate(usize::from(choice.depth) - 1);
        self.lasts.push(choice.last)?;
        Ok(())
    }
}
