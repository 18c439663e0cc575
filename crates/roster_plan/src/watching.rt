//! Who is told what is known of a plan while it is made.

ghost use Rattle.std.specs.Prelude.{◌<◌, length};
ghost use Rattle.roster_plan.specs.Planned.{IsKnown};

use crate::known::Planned;
use roster_problem::Problem;
use std::fmt;
use std::fmt::{Display, Formatter};

/// A step of a plan.
#[derive(Clone, Copy, PartialEq, Eq)]
pub enum Phase {
    /// What is legal of the given roster was kept.
    Start,
    /// All legal sets of a base were searched.
    Sets,
    /// Changes were tried.
    Changes,
    /// Neighbourhoods were searched.
    Neighbourhoods,
    /// Prices of a base were looked at.
    Prices,
    /// Rosters were made of known columns.
    Columns,
    /// The sets of a base's rosters that cost little more than its bound were searched.
    Gap,
}

impl Display for Phase {
    fn fmt<W: fmt::Write>(&self, f: &mut Formatter<W>) -> fmt::Result {
        f.write_str(match self {
            Phase::Start => "start",
            Phase::Sets => "sets",
            Phase::Changes => "changes",
            Phase::Neighbourhoods => "neighbourhoods",
            Phase::Prices => "prices",
            Phase::Columns => "columns",
            Phase::Gap => "gap",
        })
    }
}

/// Who is told what is known of a plan while it is made. Nothing rests on what that does.
pub trait Watcher {
    /// Tells what is known, by which step: the plan would be this one if it ended here. It is told each
    /// time that it is another one, and so the last one too. A step of a single base tells its place.
    fn tell(&mut self, problem: &Problem, base: Option<usize>, step: Phase, planned: &Planned)
        requires { IsKnown problem.now planned.now };

    /// Tells a pairing that the given roster gives to somebody and that isn't kept: the one at place `p`,
    /// given to person `k`, isn't legal with what that person keeps of those before it in the book.
    fn leave_out(&mut self, problem: &Problem, p: usize, k: usize)
        requires pairing { p < length problem.now.pairings }
        requires person { k < length problem.now.persons };
}
