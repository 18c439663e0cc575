//! Marks of the choices of a tree that are left.

ghost use Rattle.std.specs.Prelude.{◌≡◌, ◌∷◌, ◌++◌, if◌then◌else◌, [], IfOk, List, OnOk};
ghost use Rattle.roster_search_regions.specs.declared.choice.Choice.{Choice as PlainChoice};
ghost use Rattle.roster_search_regions.specs.Marks.{IsMarking};
ghost use Rattle.roster_search_regions.specs.Regions.{AllowedLine, allowed};
ghost use Rattle.roster_search_regions.specs.Trees.{line_here, next_path, path_after, AreCertain, HasJust};

use crate::choice::Choice;
use crate::path::Path;
use roster_values::Set;
use std::alloc::{AllocError, Global};

/// Which of the choices so far are live, how many, and what some and what all of their lines have.
#[derive(Drop)]
pub(crate) struct Marker {
    pub(crate) marks: Vec<bool>,
    pub(crate) possible: Set,
    pub(crate) certain: Set,
    pub(crate) count: usize,
}

impl Marker {
    /// Nothing is marked, and there is room for so many marks.
    pub(crate) fn new(alloc: Global, choices: usize) -> Result<Marker, AllocError>
        ensures { IfOk result (λ marker. IsMarking marker [] []) }
    {
        Ok(Marker {
            marks: Vec::with_capacity(alloc, choices)?,
            possible: Set::empty(),
            certain: Set::empty(),
            count: 0,
        })
    }

    /// Marks the choice to which the path has come: it is live if it was and passes.
    pub(crate) fn mark(
        &mut self,
        path: &Path,
        choice: &Choice,
        passes: bool,
    ) -> Result<(), AllocError>
        requires known { (choices : List PlainChoice) × (lines : List AllowedLine)
            × IsMarking self.old choices lines }
        ensures { OnOk result ((choices : List PlainChoice) (lines : List AllowedLine)
            → IsMarking self.old choices lines
            → path.now ≡ next_path (path_after [] choices) choice.now
            → IsMarking self.new (choices ++ choice.now ∷ [])
            (lines ++ (if passes then line_here path.now choice.now else []))) }
    {
        if passes && choice.live {
            return self.mark_live(path);
        }
        self.mark_dead()
    }

    /// Marks the choice to which the path has come as one that isn't live.
    fn mark_dead(&mut self) -> Result<(), AllocError>
        ensures { OnOk result ((choices : List PlainChoice) (lines : List AllowedLine)
            (choice : PlainChoice) → IsMarking self.old choices lines
            → IsMarking self.new (choices ++ choice ∷ []) lines) }
    {
        self.marks.push(false)?;
        Ok(())
    }

    /// Marks the choice to which the path has come as live.
    fn mark_live(&mut self, path: &Path) -> Result<(), AllocError>
        requires known { (choices : List PlainChoice) × (lines : List AllowedLine)
            × IsMarking self.old choices lines }
        ensures { OnOk result ((choices : List PlainChoice) (lines : List AllowedLine)
            (choice : PlainChoice) → IsMarking self.old choices lines
            → path.now ≡ next_path (path_after [] choices) choice
            → IsMarking self.new (choices ++ choice ∷ [])
            (lines ++ allowed path.now choice.extra ∷ [])) }
    {
        let set = path.set();
        let certain = self.certain_with(&set);
        self.marks.push(true)?;
        self.certain = certain;
        self.possible = self.possible.or(&set);
        self.count += 1;
        Ok(())
    }

    /// What all lines have, with one more that has the set.
    fn certain_with(&self, set: &Set) -> Set
        ensures { (choices : List PlainChoice) (lines : List AllowedLine) (line : AllowedLine)
            → IsMarking self.now choices lines → HasJust set.now line
            → AreCertain (lines ++ line ∷ []) result }
    {
        if self.count == 0 {
            *set
        } else {
            self.certain.and(set)
        }
    }
}
