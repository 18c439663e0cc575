//! The lines that others go on from.

ghost use Rattle.std.specs.Prelude.{◌≡◌, ◌<◌, ◌+◌, ◌++◌, ◌∷◌, [], true, length};
ghost use Rattle.roster_model.specs.Costs.{line_cost};
ghost use Rattle.roster_model.specs.Lines.{IsLine};
ghost use Rattle.roster_model.specs.Rules.{is_among};
ghost use Rattle.roster_lines.specs.Listing.{AreLegalAlone, ArePairs, ArePartsLegal, IsFlightWithin, IsStem};

use crate::pairs::Pairs;
use roster_cost::{cost_at, fixed_flight, one_pairing_more, units_of_set};
use roster_problem::Problem;
use roster_values::Set;

/// A line by its number, with those of the pairings `among` that may stand behind its own. Its cost units
/// and the minutes of flight in the month, fixed duties included, are those of its set.
#[derive(Drop)]
pub(crate) struct Stem {
    pub(crate) set: Set,
    pub(crate) number: usize,
    pub(crate) among: Set,
    pub(crate) candidates: Set,
    pub(crate) units: i64,
    pub(crate) flight: u64,
}

impl Stem {
    /// The empty line of person `k`, behind which each of the pairings may stand: each is legal alone.
    pub(crate) fn root(problem: &Problem, k: usize, among: Set) -> Stem
        requires person { k < length problem.now.persons }
        requires alone { AreLegalAlone problem.now k among }
        ensures stem { IsStem problem.now k result }
        ensures set { result.set ≡ [] }
        ensures number { result.number ≡ 0 }
        ensures among { result.among ≡ among }
        ensures flown { IsFlightWithin problem.now k }
    {
        Stem {
            set: Set::empty(),
            number: 0,
            among,
            candidates: among,
            units: 0,
            flight: fixed_flight(problem, k),
        }
    }

    /// The line with this number that the stem makes with candidate `p` behind.
    pub(crate) fn below(
        &self,
        problem: &Problem,
        k: usize,
        pairs: &Pairs,
        p: usize,
        number: usize,
    ) -> Stem
        requires person { k < length problem.now.persons }
        requires parts { ArePartsLegal problem.now k }
        requires flown { IsFlightWithin problem.now k }
        requires pairs { ArePairs problem.now k pairs.now }
        requires stem { IsStem problem.now k self.now }
        requires candidate { is_among self.now.candidates p ≡ true }
        requires line { IsLine problem.now k (self.now.set ++ p ∷ []) }
        ensures stem { IsStem problem.now k result }
        ensures set { result.set ≡ self.now.set ++ p ∷ [] }
        ensures number { result.number ≡ number }
        ensures among { result.among ≡ self.now.among }
    {
        units_of_set();
        one_pairing_more();
        problem.is_sound();
        let mut set = self.set;
        set.put(p);
        Stem {
            set,
            number,
            among: self.among,
            candidates: self.candidates.and(&pairs.rows[p]),
            units: self.units + problem.units(k, p),
            flight: self.flight + pairs.flights[p],
        }
    }

    /// What the line costs.
    pub(crate) fn cost(&self, problem: &Problem, k: usize) -> i64
        requires person { k < length problem.now.persons }
        requires flown { IsFlightWithin problem.now k }
        requires stem { IsStem problem.now k self.now }
        ensures { result ≡ line_cost problem.now k self.now.set }
    {
        units_of_set();
        problem.is_sound();
        cost_at(problem, k, self.units, self.flight)
    }
}
