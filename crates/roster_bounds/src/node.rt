//! Lines that are chosen for the first persons.

ghost use Rattle.std.specs.Prelude.{◌≡◌, ◌<◌, ◌↔◌, ◌||◌, ◌++◌, ◌∷◌, [], ℕ, IfOk, IsTrue, MatchOption, Some};
ghost use Rattle.std.specs.Prelude.{length, slice_get, List, ◌≤◌};
ghost use Rattle.roster_model.specs.Rules.{is_among};
ghost use Rattle.roster_lines_table.specs.Person.{lines_at};
ghost use Rattle.roster_bounds.specs.Chosen.{line_set, one_line_more, placing_person, IsOfNode, Meets};

use crate::tables::Tables;
use roster_lines_table::Table;
use roster_model::limits::MOST_PERSONS;
use roster_values::Set;
use std::alloc::{AllocError, Global};
use std::marker::Model;

/// A line for each of the first persons, no two of which share a pairing. Its rosters are the legal ones
/// that give these persons these lines.
#[derive(Drop)]
pub struct Node<'a> {
    alloc: Global,
    pub(crate) tables: &'a Tables<'a>,
    // For each of the persons the number of a line.
    pub(crate) lines: Vec<usize>,
    // The pairings of the lines, and the sum of their reduced costs.
    pub(crate) placed: Set,
    pub(crate) reduced: i128,
}

impl<'a> Model for Node<'a> {
    ghost use Rattle.roster_bounds.specs.Chosen.{ChosenLines, IsNode};

    ghost Value = { ChosenLines };

    ghost view = { λ n. record { tables = n.tables.now; lines = n.lines.items } };

    ghost invariant = { λ n. IsNode n.tables.now n.lines.items n.placed n.reduced };
}

impl<'a> Node<'a> {
    /// The node of all legal rosters: no line is chosen. It takes no memory.
    pub fn root(alloc: Global, tables: &'a Tables<'a>) -> Node<'a>
        ensures { result ≡ record { tables = tables.now; lines = [] } }
    {
        Node {
            alloc,
            tables,
            lines: Vec::new(alloc),
            placed: Set::empty(),
            reduced: 0,
        }
    }

    /// The node with line `i` of the next person as well; none exactly if that line shares a pairing
    /// with one of the lines.
    pub fn then(&self, i: usize) -> Result<Option<Node<'a>>, AllocError>
        requires person { length self.now.lines < length self.now.tables.problem.persons }
        requires line { i < length (lines_at self.now.tables.table (length self.now.lines)) }
        ensures { IfOk result (λ next. let table = self.now.tables.table in
            let set = line_set table (length self.now.lines) i in
            MatchOption next (Meets table self.now.lines set)
            (λ node. (node ≡ one_line_more self.now i) × ¬ Meets table self.now.lines set)) }
    {
        if self.meets(i) {
            return Ok(None);
        }
        Ok(Some(self.one_line_more(i)?))
    }

    /// Whether line `i` of the next person shares a pairing with one of the lines.
    pub(crate) fn meets(&self, i: usize) -> bool
        requires person { length self.now.lines < length self.now.tables.problem.persons }
        requires line { i < length (lines_at self.now.tables.table (length self.now.lines)) }
        ensures { IsTrue result ↔ Meets self.now.tables.table self.now.lines
            (line_set self.now.tables.table (length self.now.lines) i) }
    {
        self.tables.set(self.lines.len(), i).meets(&self.placed)
    }

    /// The node with line `i` of the next person as well, which shares no pairing with the lines.
    fn one_line_more(&self, i: usize) -> Result<Node<'a>, AllocError>
        requires person { length self.now.lines < length self.now.tables.problem.persons }
        requires line { i < length (lines_at self.now.tables.table (length self.now.lines)) }
        requires apart { ¬ Meets self.now.tables.table self.now.lines
            (line_set self.now.tables.table (length self.now.lines) i) }
        ensures { IfOk result (λ node. node ≡ one_line_more self.now i) }
    {
        prove!(self.tables.problem().persons().len() <= MOST_PERSONS);
        let k = self.lines.len();
        let lines = with_behind(self.alloc, &self.lines, i)?;
        Ok(Node {
            alloc: self.alloc,
            tables: self.tables,
            lines,
            placed: both(&self.placed, &self.tables.set(k, i)),
            reduced: self.reduced + self.tables.reduced(k, i),
        })
    }

    /// The person whose line has the pairing at place `p`, and the next person if no line has it. No
    /// roster of the node has an earlier person there.
    pub fn least_place(&self, p: usize) -> u16
        requires { p < length self.now.tables.problem.pairings }
        ensures value { result ≡ placing_person self.now.tables.table 0 self.now.lines p }
        ensures least { (places : List ℕ) (x : ℕ) → IsOfNode self.now places
            → slice_get places p ≡ Some x → result ≤ x }
    {
        prove!(self.tables.problem().persons().len() <= MOST_PERSONS);
        placing(self.tables.table(), &self.lines, p) as u16
    }
}

/// The first person whose line has the pairing at place `p`, and the next person if no line has it.
fn placing(table: &Table, lines: &[usize], p: usize) -> usize
    requires persons { length lines.now ≤ length table.now }
    requires numbers { (k i : ℕ) → slice_get lines.now k ≡ Some i
        → i < length (lines_at table.now k) }
    ensures { result ≡ placing_person table.now 0 lines.now p }
{
    for (k, i) in lines.iter().enumerate() {
        if table.set(k, *i).has(p) {
            return k;
        }
    }
    lines.len()
}

/// The numbers with one more behind.
fn with_behind(alloc: Global, numbers: &[usize], last: usize) -> Result<Vec<usize>, AllocError>
    ensures { IfOk result (λ more. more.items ≡ numbers.now ++ last ∷ []) }
{
    let mut more = numbers.to_vec(alloc)?;
    more.push(last)?;
    Ok(more)
}

/// The pairings that are in one of the sets.
fn both(set: &Set, other: &Set) -> Set
    ensures { (p : ℕ) → is_among result p ≡ (is_among set.now p || is_among other.now p) }
{
    let mut all = *set;
    let mut from = 0;
    while let Some(p) = other.first_from(from) {
        all = all.with(p).unwrap();
        from = p + 1;
    }
    all
}
