//! The lines of a person.

ghost use Rattle.std.specs.Prelude.{◌≡◌, ◌<◌, ◌≤◌, ◌↔◌, ◌++◌, ◌∷◌, ℕ, false, [], List, All, IfOk};
ghost use Rattle.std.specs.Prelude.{OnOk, Some, length, slice_get};
ghost use Rattle.roster_model.specs.Lines.{AreOrdered};
ghost use Rattle.roster_model.specs.Places.{places_le};
ghost use Rattle.roster_lines_table.specs.Entries.{costs_of, entry_of, longer, set_at, sets_of, IsCut};
ghost use Rattle.roster_lines_table.specs.Rows.{entries_after, IsWithinLimits};

use crate::order::is_at_most;
use roster_model::limits::{MOST_LINES, MOST_PAIRINGS};
use roster_values::Set;
use std::alloc::{AllocError, Global};
use std::marker::Model;

/// A line: the set of an earlier one, its parent, with one more pairing behind, and what that costs. Of
/// two lines in a row the later one has all pairings but its last from the front of the earlier one.
#[derive(Clone, Copy)]
pub struct Row {
    /// What the line costs, in cost units.
    pub cost: i64,
    /// The number of the line that it goes on from; nothing at the empty line.
    pub parent: u32,
    /// Its last pairing; nothing at the empty line.
    pub last: u16,
    /// How many pairings it has.
    pub depth: u16,
}

// There may be millions of lines.
const _: () = prove!(size_of::<Row>() <= 16);

/// The lines of a person in their order, each once, from the empty one on. Contracts see them as a list
/// of entries, each with a line's set and cost.
#[derive(Drop)]
pub struct Lines {
    lines: Vec<Row>,
}

impl Model for Lines {
    ghost use Rattle.std.specs.Prelude.{List};
    ghost use Rattle.roster_lines_table.specs.Entries.{Entry};

    ghost Value = { List Entry };

    ghost use Rattle.roster_lines_table.specs.Tree.{entries_in, IsTree};

    ghost view = { λ l. entries_in l.lines.items };

    ghost invariant = { λ l. IsTree l.lines.items };
}

impl Lines {
    /// Only the empty line, with its cost.
    pub fn empty(alloc: Global, cost: i64) -> Result<Lines, AllocError>
        ensures { IfOk result (λ lines. lines ≡ entry_of [] cost ∷ []) }
    {
        let first = Row {
            cost,
            parent: 0,
            last: 0,
            depth: 0,
        };
        let lines = vec![in alloc; first]?;
        Ok(Lines { lines })
    }

    /// How many there are: at least the empty one.
    pub fn width(&self) -> usize
        ensures value { result ≡ length self.now }
        ensures some { 0 < result }
        ensures bound { result ≤ MOST_LINES }
        ensures ordered { AreOrdered (sets_of self.now) }
    {
        self.lines.len()
    }

    /// The set of line `i`.
    pub fn set(&self, i: usize) -> Set
        requires { i < length self.now }
        ensures { slice_get (sets_of self.now) i ≡ Some result }
    {
        let mut set = Set::empty();
        let mut at = i;
        while at > 0 {
            let line = self.lines[at];
            set = set.with(usize::from(line.last)).unwrap();
            at = line.parent as usize;
        }
        set
    }

    /// What line `i` costs.
    pub fn cost(&self, i: usize) -> i64
        requires { i < length self.now }
        ensures { slice_get (costs_of self.now) i ≡ Some result }
    {
        self.lines[i].cost
    }

    /// Of line `i`, which isn't the empty one, the number of the line that it goes on from, and its last
    /// pairing.
    pub fn parent_and_last(&self, i: usize) -> (usize, usize)
        requires inside { i < length self.now }
        requires later { 0 < i }
        ensures earlier { result.0 < i }
        ensures set { set_at self.now i ≡ longer self.now result.0 result.1 }
    {
        let line = self.lines[i];
        (line.parent as usize, usize::from(line.last))
    }

    /// The lines row by row, each to be read from the one before.
    pub fn rows(&self) -> &[Row]
        ensures entries { entries_after [] result.now ≡ self.now }
        ensures limits { All IsWithinLimits result.now }
    {
        &self.lines
    }

    /// The number of the line with this set, if there is one.
    pub fn find(&self, set: &Set) -> Option<usize>
        ensures { (i : ℕ) → (result ≡ Some i) ↔ (slice_get (sets_of self.now) i ≡ Some set.now) }
    {
        let i = self.count_before(set);
        if i == self.width() || self.set(i) != *set {
            return None;
        }
        Some(i)
    }

    /// Where the lines stand whose least pairing is `p`: from the first number up to the second, which
    /// isn't one of them. The two are equal if there is no such line.
    pub fn run_of(&self, p: usize) -> (usize, usize)
        requires { p < MOST_PAIRINGS }
        ensures bounds { (result.0 ≤ result.1) × (result.1 ≤ length self.now) }
        ensures run { (i : ℕ) (set : List ℕ) → slice_get (sets_of self.now) i ≡ Some set
            → (slice_get set 0 ≡ Some p) ↔ ((result.0 ≤ i) × (i < result.1)) }
    {
        (self.start_of(p), self.start_of(p + 1))
    }

    /// How many lines stand before those whose least pairing is `p` or later.
    fn start_of(&self, p: usize) -> usize
        requires { p ≤ MOST_PAIRINGS }
        ensures { IsCut (sets_of self.now) (p ∷ []) result }
    {
        if p == MOST_PAIRINGS {
            return self.lines.len();
        }
        self.count_before(&Set::empty().with(p).unwrap())
    }

    /// How many lines stand before the set.
    fn count_before(&self, set: &Set) -> usize
        ensures { IsCut (sets_of self.now) set.now result }
    {
        let mut low = 0;
        let mut high = self.width();
        while low < high {
            let middle = low + (high - low) / 2;
            if is_at_most(set, &self.set(middle)) {
                high = middle;
            } else {
                low = middle + 1;
            }
        }
        low
    }

    /// Appends the line whose set is that of line `parent` with the pairing at place `last` behind, with
    /// its cost.
    pub fn push(&mut self, parent: usize, last: usize, cost: i64) -> Result<(), AllocError>
        requires room { length self.old < MOST_LINES }
        requires parent { parent < length self.old }
        requires last { last < MOST_PAIRINGS }
        requires later { All (λ p. p < last) (set_at self.old parent) }
        requires ordered { All (λ set. places_le (longer self.old parent last) set ≡ false)
            (sets_of self.old) }
        ensures { OnOk result
            (self.new ≡ self.old ++ entry_of (longer self.old parent last) cost ∷ []) }
    {
        let depth = self.lines[parent].depth + 1;
        self.lines.push(Row {
            cost,
            parent: parent as u32,
            last: last as u16,
            depth,
        })?;
        Ok(())
    }
}
