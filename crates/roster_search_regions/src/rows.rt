//! The rows of a person's lines in the table, read as choices.

ghost use Rattle.std.specs.Prelude.{◌≡◌, ◌<◌, ◌||◌, ℕ, [], true, All, Bool, List, Some, length, map};
ghost use Rattle.std.specs.Prelude.{slice_get, slice_index_or};
ghost use Rattle.roster_model.specs.Rules.{is_among};
ghost use Rattle.roster_cost.specs.Amounts.{IsWithin, most_extra};
ghost use Rattle.roster_search_regions.specs.Building.{allowed_in, extra_in, AreCounted};
ghost use Rattle.roster_search_regions.specs.Marks.{picked, remarked, AreAllLive};
ghost use Rattle.roster_search_regions.specs.Trees.{has_last, lines_in, ArePossible, IsLimited};

use crate::choice::Choice;
use crate::parts::{above, times};
use roster_lines_table::{Lines, Row};
use roster_values::Set;
use std::marker::Model;

/// The rows of all lines of a person, and for each whether it is live, or no marks if all are. Contracts see
/// them as choices: each costs so much more than the empty line, at so many parts a cost unit.
#[derive(Drop)]
pub struct Rows<'a> {
    rows: &'a [Row],
    marks: &'a [bool],
    empty: i64,
    scale: u32,
}

impl<'a> Model for Rows<'a> {
    ghost use Rattle.std.specs.Prelude.{List};
    ghost use Rattle.roster_search_regions.specs.declared.choice.Choice.{Choice};
    ghost use Rattle.roster_search_regions.specs.Marks.{remarked};
    ghost use Rattle.roster_search_regions.specs.Rows.{choices_of, AreReadable};

    ghost Value = { List Choice };

    ghost view = { λ r. remarked r.marks.now (choices_of r.scale r.empty r.rows.now) };

    ghost invariant = { λ r. AreReadable r.scale r.empty r.marks.now r.rows.now };
}

impl<'a> Rows<'a> {
    /// Those of the list that are marked, or all if there are no marks.
    pub(crate) fn of(lines: &'a Lines, marks: &'a [bool], scale: u32) -> Rows<'a>
        requires counted { AreCounted scale lines.now }
        requires near { All (λ entry. IsWithin most_extra (extra_in lines.now entry)) lines.now }
        ensures lines { lines_in result ≡ picked marks.now (map (allowed_in scale lines.now) lines.now) }
        ensures others { (others : List Bool) → length others ≡ length result
            → lines_in (remarked others result)
            ≡ picked others (map (allowed_in scale lines.now) lines.now) }
        ensures live { marks.now ≡ [] → AreAllLive result }
    {
        let _some = lines.width();
        Rows {
            rows: lines.rows(),
            marks,
            empty: lines.cost(0),
            scale,
        }
    }

    /// The same rows. Loops over many of them are faster if their bounds stand in variables of their own.
    #[inline]
    pub fn copy(&self) -> Rows<'a>
        ensures { result ≡ self.now }
    {
        Rows {
            rows: self.rows,
            marks: self.marks,
            empty: self.empty,
            scale: self.scale,
        }
    }

    /// How many there are.
    pub fn len(&self) -> usize
        ensures { result ≡ length self.now }
    {
        self.rows.len()
    }

    /// The choice at a place.
    #[inline]
    pub fn at(&self, i: usize) -> Choice
        requires { i < length self.now }
        ensures value { slice_get self.now i ≡ Some result }
        ensures limited { IsLimited result }
    {
        let row = row_at(self.rows, i);
        Choice {
            extra: times(self.scale, above(row.cost, self.empty)),
            depth: row.depth,
            last: row.last,
            live: is_marked(self.marks, i),
        }
    }

    /// The pairings that some of the lines have: each is the last one of some line, as all are live.
    pub(crate) fn possible(&self) -> Set
        requires { AreAllLive self.now }
        ensures { ArePossible (lines_in self.now) result }
    {
        let mut possible = Set::empty();
        for i in 0..self.len() {
            let choice = self.at(i);
            put_last(&mut possible, &choice);
        }
        possible
    }
}

/// The row at a place.
#[inline]
fn row_at(rows: &[Row], i: usize) -> Row
    requires { i < length rows.now }
    ensures { slice_get rows.now i ≡ Some result }
{
    rows[i]
}

/// Whether the place is marked, or there are no marks.
#[inline]
fn is_marked(marks: &[bool], i: usize) -> bool
    ensures { result ≡ slice_index_or marks.now i true }
{
    if i < marks.len() { marks[i] } else { true }
}

/// Puts the last pairing of the choice into the set, if it has one.
#[inline]
fn put_last(set: &mut Set, choice: &Choice)
    requires { IsLimited choice.now }
    ensures { (p : ℕ) → is_among set.new p ≡ (is_among set.old p || has_last choice.now p) }
{
    if choice.depth > 0 {
        set.put(usize::from(choice.last));
    }
}
