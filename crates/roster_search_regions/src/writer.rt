//! Writes a tree of choices, line after line.

ghost use Rattle.std.specs.Prelude.{◌≡◌, ◌↔◌, ◌+◌, ◌≤◌, ◌++◌, ◌∷◌, if◌then◌else◌, ℕ, [], IsTrue, List};
ghost use Rattle.std.specs.Prelude.{OnOk, length};
ghost use Rattle.roster_model.specs.Rules.{is_among};
ghost use Rattle.roster_cost.specs.Amounts.{IsWithin};
ghost use Rattle.roster_search_regions.specs.Regions.{AllowedLine, allowed};
ghost use Rattle.roster_search_regions.specs.Trees.{line_here, next_path, AreCertain, HasJust, IsLimited};
ghost use Rattle.roster_search_regions.specs.Writing.{IsWriting};

use crate::choice::{Choice, MOST_EXTRA};
use crate::path::Path;
use roster_values::Set;
use std::alloc::{AllocError, Global};

/// The choices that are written, how many are live, and what some and what all of their lines have. The
/// last of them has so many of its first pairings in common with the reader's path.
#[derive(Drop)]
pub(crate) struct Writer {
    pub(crate) choices: Vec<Choice>,
    pub(crate) possible: Set,
    pub(crate) certain: Set,
    pub(crate) count: usize,
    pub(crate) shared: usize,
}

impl Writer {
    ghost use Rattle.roster_search_regions.specs.Writing.{IsWriting};

    /// Nothing is written.
    pub(crate) fn new(alloc: Global) -> Writer
        ensures { IsWriting result [] [] }
    {
        Writer {
            choices: Vec::new(alloc),
            possible: Set::empty(),
            certain: Set::empty(),
            count: 0,
            shared: 0,
        }
    }

    /// The reader goes on to the next choice.
    pub(crate) fn pass(&mut self, choice: &Choice)
        ensures { (path : List ℕ) (lines : List AllowedLine)
            → IsWriting self.old path lines → IsWriting self.new (next_path path choice.now) lines }
    {
        let above = usize::from(choice.depth.saturating_sub(1));
        if above < self.shared {
            self.shared = above;
        }
    }

    /// Writes the line of the path.
    fn write(&mut self, path: &Path, extra: i64) -> Result<(), AllocError>
        requires extra { IsWithin MOST_EXTRA extra }
        requires known { (lines : List AllowedLine) × IsWriting self.old path.now lines }
        ensures { OnOk result ((lines : List AllowedLine) → IsWriting self.old path.now lines
            → IsWriting self.new path.now (lines ++ allowed path.now extra ∷ [])) }
    {
        self.reach(path)?;
        let depth = path.length();
        let last = path.last_or_none();
        let set = path.set();
        let certain = self.certain_with(&set);
        self.choices.push(Choice {
            extra,
            depth: depth as u16,
            last,
            live: true,
        })?;
        self.certain = certain;
        self.possible = self.possible.or(&set);
        self.count += 1;
        self.shared = depth;
        Ok(())
    }

    /// Writes the line of the choice to which the path has come, if it is live and passes.
    pub(crate) fn keep(
        &mut self,
        path: &Path,
        choice: &Choice,
        passes: bool,
    ) -> Result<(), AllocError>
        requires limited { IsLimited choice.now }
        requires known { (lines : List AllowedLine) × IsWriting self.old path.now lines }
        ensures { OnOk result ((lines : List AllowedLine) → IsWriting self.old path.now lines
            → IsWriting self.new path.now
            (lines ++ (if passes then line_here path.now choice.now else []))) }
    {
        if passes && choice.live {
            self.write(path, choice.extra)?;
        }
        Ok(())
    }

    /// What all lines have, with one more that has the set.
    fn certain_with(&self, set: &Set) -> Set
        ensures { (path : List ℕ) (lines : List AllowedLine) (line : AllowedLine)
            → IsWriting self.now path lines → HasJust set.now line
            → AreCertain (lines ++ line ∷ []) result }
    {
        if self.count == 0 {
            *set
        } else {
            self.certain.and(set)
        }
    }

    /// Writes what is missing of the way to the line of the path.
    fn reach(&mut self, path: &Path) -> Result<(), AllocError>
        ensures same { OnOk result ((lines : List AllowedLine)
            → IsWriting self.old path.now lines → IsWriting self.new path.now lines) }
        ensures there { OnOk result (length path.now ≤ self.new.shared + 1) }
    {
        let end = path.length().saturating_sub(1);
        while self.shared < end {
            self.choices.push(Choice {
                extra: 0,
                depth: self.shared as u16 + 1,
                last: path.last(self.shared),
                live: false,
            })?;
            self.shared += 1;
        }
        Ok(())
    }
}

/// Whether both have the same pairings.
pub fn is_same(set: &Set, other: &Set) -> bool
    ensures { IsTrue result ↔ ((p : ℕ) → is_among set.now p ≡ is_among other.now p) }
{
    let _ascending = (set.has(0), other.has(0));
    *set == *other
}
