//! Lines of a person that the table has too.

ghost use Rattle.std.specs.Prelude.{◌≡◌, [], All, Bool, IfOk, List, length, map};
ghost use Rattle.roster_cost.specs.Amounts.{IsWithin, most_extra};
ghost use Rattle.roster_search_regions.specs.Building.{allowed_in, extra_in, AreCounted};
ghost use Rattle.roster_search_regions.specs.Marks.{picked, remarked, AreAllLive};
ghost use Rattle.roster_search_regions.specs.Trees.{lines_in};

use crate::rows::Rows;
use roster_lines_table::SharedLines;
use std::alloc::{AllocError, Global};
use std::marker::Model;

/// All lines of a person, which the table has too, and a mark for each that tells whether it is left, or no
/// marks if all are. So a line takes a byte at most besides its row. Contracts see them as lines of a
/// region, whose costs are counted in so many parts a cost unit, and the marks.
#[derive(Drop)]
pub(crate) struct AllLines {
    lines: SharedLines,
    scale: u32,
    marks: Vec<bool>,
}

impl Model for AllLines {
    ghost use Rattle.std.specs.Prelude.{All, map};
    ghost use Rattle.roster_cost.specs.Amounts.{IsWithin, most_extra};
    ghost use Rattle.roster_search_regions.specs.Building.{allowed_in, extra_in, AreCounted};
    ghost use Rattle.roster_search_regions.specs.Marks.{MarkedLines};

    ghost Value = { MarkedLines };

    ghost view = { λ a. record { all = map (allowed_in a.scale a.lines) a.lines; marks = a.marks.items } };

    ghost invariant = { λ a. AreCounted a.scale a.lines
        × All (λ entry. IsWithin most_extra (extra_in a.lines entry)) a.lines };
}

impl AllLines {
    /// All of the list.
    pub(crate) fn new(alloc: Global, lines: SharedLines, scale: u32) -> AllLines
        requires counted { AreCounted scale lines }
        requires near { All (λ entry. IsWithin most_extra (extra_in lines entry)) lines }
        ensures all { result.all ≡ map (allowed_in scale lines) lines }
        ensures marks { result.marks ≡ [] }
    {
        AllLines {
            lines,
            scale,
            marks: Vec::new(alloc),
        }
    }

    /// The same lines with these marks.
    pub(crate) fn with_marks(&self, marks: Vec<bool>) -> Result<AllLines, AllocError>
        ensures all { IfOk result (λ lines. lines.all ≡ self.now.all) }
        ensures marks { IfOk result (λ lines. lines.marks ≡ marks.items) }
    {
        Ok(AllLines {
            lines: self.lines.copy()?,
            scale: self.scale,
            marks,
        })
    }

    /// How many rows they have.
    pub(crate) fn len(&self) -> usize
        ensures { result ≡ length self.now.all }
    {
        self.lines.lines().width()
    }

    /// Their rows.
    pub(crate) fn rows(&self) -> Rows<'_>
        ensures lines { lines_in result ≡ picked self.now.marks self.now.all }
        ensures others { (others : List Bool) → length others ≡ length result
            → lines_in (remarked others result) ≡ picked others self.now.all }
        ensures live { self.now.marks ≡ [] → AreAllLive result }
    {
        Rows::of(self.lines.lines(), &self.marks, self.scale)
    }
}
