//! Leaves.

ghost use Rattle.std.specs.Prelude.{◌≡◌, ◌<◌, ℕ, length};
ghost use Rattle.roster_model.specs.records.Leave.{is_leave_of};
ghost use Rattle.roster_problem.specs.Duties.{is_at, ArePositionsOf};
ghost use Rattle.roster_problem.specs.Sound.{IsSound};

use crate::problem::Problem;
use roster_instants::Minute;
use std::marker::Model;

/// Time in which a person has no duty, from one instant to a later one, which the type keeps.
#[derive(Drop)]
pub struct Leave {
    /// The place of the person.
    pub person: usize,
    /// When it begins.
    pub from: Minute,
    /// When it ends.
    pub to: Minute,
}

impl Model for Leave {
    ghost use Rattle.std.specs.Prelude.{◌<◌};
    ghost use Rattle.roster_model.specs.records.Leave.{Leave as Entry};

    ghost Value = { Entry };

    ghost view = { λ l. record { person = l.person; from = l.from; to = l.to } };

    ghost invariant = { λ l. l.from < l.to };
}

impl Leave {
    /// The place of the person, which each leave has.
    pub(crate) fn place(&self) -> Option<usize>
        ensures { (k : ℕ) → is_leave_of k self.now ≡ is_at k result }
    {
        Some(self.person)
    }
}

impl Problem {
    /// All leaves, in book order.
    pub fn leaves(&self) -> &[Leave]
        ensures value { result.now ≡ self.now.leaves }
        ensures sound { IsSound self.now }
    {
        self.tables.leaves.as_slice()
    }

    /// The positions in `leaves` of the leaves of the person at place `k`, in ascending order. It
    /// looks at no other leave.
    pub fn leave(&self, k: usize) -> &[u16]
        requires { k < length self.now.persons }
        ensures { ArePositionsOf (is_leave_of k) self.now.leaves result.now }
    {
        self.on_leave.list(k)
    }
}
