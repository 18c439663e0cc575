//! The limits, of a set with one pairing more. `roster_cumulative` judges those of a list.

ghost use Rattle.std.specs.Prelude.{◌≡◌, ◌≤◌, false, IsTrue, length};
ghost use Rattle.roster_model.specs.Problem.{home_of, year_of, eleven_of};
ghost use Rattle.roster_model.specs.Rules.{duty_list};
ghost use Rattle.roster_cumulative.specs.Judged.{AreWithin};
ghost use Rattle.roster_legal.specs.Stepping.{with_next, IsLegalNext, IsNext};

use crate::stepping::JudgedSet;
use roster_cumulative::have_room;

impl<'a> JudgedSet<'a> {
    /// Whether the limits are kept with the pairing at place `p`; of a pair or less that is known.
    pub(crate) fn has_room_for(&self, p: usize) -> bool
        requires { IsNext self.now p }
        ensures yes { let problem = self.now.loads.problem in let k = self.now.loads.person in
            IsTrue result → 2 ≤ length self.now.set
            → AreWithin (home_of problem k).days
            (duty_list problem k (with_next self.now p).set) (year_of problem k) (eleven_of problem k) }
        ensures no { result ≡ false → ¬ IsLegalNext self.now p }
    {
        let loads = self.loads;
        // The loads are those of the problem that the contract speaks of.
        let _ = loads.problem();
        self.depth < 2 || have_room(&self.rooms, loads.load(p))
    }
}
