//! The lines of all persons.

ghost use Rattle.std.specs.Prelude.{◌≡◌, ◌<◌, ◌≤◌, ◌↔◌, ◌++◌, ◌∷◌, ℕ, [], IfOk, List, OnOk, Some};
ghost use Rattle.std.specs.Prelude.{length, slice_get};
ghost use Rattle.roster_lines_table.specs.Entries.{costs_of, sets_of};
ghost use Rattle.roster_lines_table.specs.Person.{lines_at};

use crate::lines::Lines;
use crate::shared_lines::SharedLines;
use roster_model::limits::MOST_PAIRINGS;
use roster_values::Set;
use std::alloc::{AllocError, Global};
use std::marker::Model;

/// The lines of each person with what they cost, in book order.
#[derive(Drop)]
pub struct Table {
    persons: Vec<SharedLines>,
}

impl Model for Table {
    ghost use Rattle.std.specs.Prelude.{List};
    ghost use Rattle.roster_lines_table.specs.Entries.{Entry};

    ghost Value = { List (List Entry) };

    ghost view = { λ t. t.persons.items };
}

impl Table {
    /// No person's lines yet.
    pub fn empty(alloc: Global) -> Table
        ensures { result ≡ [] }
    {
        Table {
            persons: Vec::new(alloc),
        }
    }

    /// Of how many persons it has lines.
    pub fn persons(&self) -> usize
        ensures { result ≡ length self.now }
    {
        self.persons.len()
    }

    /// Adds lines of the next person.
    pub fn push(&mut self, alloc: Global, lines: Lines) -> Result<(), AllocError>
        ensures { OnOk result (self.new ≡ self.old ++ lines ∷ []) }
    {
        let lines = SharedLines::new(alloc, lines)?;
        self.persons.push(lines)?;
        Ok(())
    }

    /// The lines of person `k`.
    pub fn lines(&self, k: usize) -> &Lines
        requires { k < length self.now }
        ensures { result.now ≡ lines_at self.now k }
    {
        self.persons[k].lines()
    }

    /// The lines of person `k`, to be had beside the table.
    pub fn shared(&self, k: usize) -> Result<SharedLines, AllocError>
        requires { k < length self.now }
        ensures { IfOk result (λ lines. lines ≡ lines_at self.now k) }
    {
        let lines = self.persons[k].copy()?;
        Ok(lines)
    }

    /// How many lines person `k` has.
    pub fn width(&self, k: usize) -> usize
        requires { k < length self.now }
        ensures { result ≡ length (lines_at self.now k) }
    {
        self.lines(k).width()
    }

    /// The set of line `i` of person `k`.
    pub fn set(&self, k: usize, i: usize) -> Set
        requires person { k < length self.now }
        requires line { i < length (lines_at self.now k) }
        ensures { slice_get (sets_of (lines_at self.now k)) i ≡ Some result }
    {
        self.lines(k).set(i)
    }

    /// What line `i` of person `k` costs.
    pub fn cost(&self, k: usize, i: usize) -> i64
        requires person { k < length self.now }
        requires line { i < length (lines_at self.now k) }
        ensures { slice_get (costs_of (lines_at self.now k)) i ≡ Some result }
    {
        self.lines(k).cost(i)
    }

    /// The number of the line of person `k` with this set, if there is one.
    pub fn find(&self, k: usize, set: &Set) -> Option<usize>
        requires { k < length self.now }
        ensures { (i : ℕ)
            → (result ≡ Some i) ↔ (slice_get (sets_of (lines_at self.now k)) i ≡ Some set.now) }
    {
        self.lines(k).find(set)
    }

    /// Where the lines of person `k` stand whose least pairing is `p`, as `Lines::run_of` says.
    pub fn run_of(&self, k: usize, p: usize) -> (usize, usize)
        requires person { k < length self.now }
        requires place { p < MOST_PAIRINGS }
        ensures bounds { (result.0 ≤ result.1) × (result.1 ≤ length (lines_at self.now k)) }
        ensures run { (i : ℕ) (set : List ℕ)
            → slice_get (sets_of (lines_at self.now k)) i ≡ Some set
            → (slice_get set 0 ≡ Some p) ↔ ((result.0 ≤ i) × (i < result.1)) }
    {
        self.lines(k).run_of(p)
    }
}
