//! The duties of one person.

ghost use Rattle.std.specs.Prelude.{◌≡◌, ◌<◌, ◌≤◌, ◌↔◌, ◌==◌, ℕ, Bool, [], Some, All, IsTrue, filter, length};
ghost use Rattle.std.specs.Prelude.{slice_get};
ghost use Rattle.std.specs.List.Sorted.{IsStrictlyIncreasing};
ghost use Rattle.roster_model.specs.Rules.{is_among};
ghost use Rattle.roster_model.specs.records.Duty as model;
ghost use Rattle.roster_problem.specs.Duties.{passes_at, picked};

use crate::duty::Duty;
use roster_model::limits::MOST_DUTIES;
use std::marker::Model;

/// A person's duties, at most `MOST_DUTIES`. Contracts see them as a list.
///
/// It holds their positions in the duties of the problem, and no duty itself.
#[derive(Drop)]
pub struct DutyList<'a> {
    duties: &'a [Duty],
    positions: Vec<u16>,
}

impl<'a> Model for DutyList<'a> {
    ghost use Rattle.std.specs.Prelude.{List};
    ghost use Rattle.roster_model.specs.records.Duty.{Duty as Entry};

    ghost Value = { List Entry };

    ghost use Rattle.roster_problem.specs.Duties.{picked, ArePositions};

    ghost view = { λ l. picked l.duties.now l.positions.items };

    ghost invariant = { λ l. ArePositions l.duties.now l.positions.items };
}

impl<'a> DutyList<'a> {
    /// The duties at the positions, in the order of the positions.
    pub fn new(duties: &'a [Duty], positions: Vec<u16>) -> DutyList<'a>
        requires within { All (λ i. i < length duties.now) positions.items }
        requires bound { length positions.items ≤ MOST_DUTIES }
        ensures value { result ≡ picked duties.now positions.items }

        // Ascending positions of just the duties that pass a test: they are what a filter keeps.
        ensures filtered { (test : model.Duty → Bool) → IsStrictlyIncreasing positions.items
            → ((i : ℕ) → is_among positions.items i ≡ passes_at test duties.now i)
            → result ≡ filter test duties.now }
    {
        DutyList { duties, positions }
    }

    /// How many there are.
    pub fn len(&self) -> usize
        ensures value { result ≡ length self.now }
        ensures bound { result ≤ MOST_DUTIES }
    {
        self.positions.len()
    }

    /// Whether there is none.
    pub fn is_empty(&self) -> bool
        ensures { IsTrue result ↔ (self.now ≡ []) }
    {
        self.len() == 0
    }

    /// The duty at place `i` of the list.
    pub fn duty(&self, i: usize) -> &Duty
        requires { i < length self.now }
        ensures { slice_get self.now i ≡ Some result.now }
    {
        &self.duties[usize::from(self.positions[i])]
    }

    /// Its memory, for the positions of another list.
    pub fn into_memory(self) -> Vec<u16>
        ensures { result.items ≡ [] }
    {
        let mut positions = self.positions;
        positions.clear();
        positions
    }
}
