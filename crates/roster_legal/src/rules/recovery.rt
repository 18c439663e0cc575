//! The recovery rule.

ghost use Rattle.std.specs.Prelude.{◌≡◌, ◌<◌, ◌≤◌, ◌↔◌, ℕ, List, false, IsTrue, length};
ghost use Rattle.roster_model.specs.Rules.{duty_list, Holds, RecoveryRule};
ghost use Rattle.roster_problem.specs.Duties.{IsInOrder};
ghost use Rattle.roster_legal.specs.Stepping.{with_next, AreDutiesOf, IsLegalNext, IsNext};

use crate::stepping::JudgedSet;
use roster_problem::{DutyList, Problem};
use roster_restrules::recovery_ok;

/// Whether recurrent rests follow one another soon enough on the list of person `k`.
pub(crate) fn keeps_recovery(problem: &Problem, k: usize, list: &DutyList) -> bool
    requires person { k < length problem.now.persons }
    requires ordered { IsInOrder list.now }
    ensures { (set : List ℕ) → list.now ≡ duty_list problem.now k set
        → (IsTrue result ↔ Holds problem.now k set RecoveryRule) }
{
    recovery_ok(problem.days_of(k), list)
}

impl<'a> JudgedSet<'a> {
    /// Whether recurrent rests follow one another soon enough with the pairing at place `p`, which makes
    /// the duties those at the positions; of a pair or less that is known.
    pub(crate) fn keeps_recovery_with(&self, p: usize, positions: &[u16]) -> bool
        requires next { IsNext self.now p }
        requires positions { AreDutiesOf self.now.loads.problem self.now.loads.person
            (with_next self.now p).set positions.now }
        ensures yes { let problem = self.now.loads.problem in let k = self.now.loads.person in
            IsTrue result → 2 ≤ length self.now.set
            → Holds problem k (with_next self.now p).set RecoveryRule }
        ensures no { result ≡ false → ¬ IsLegalNext self.now p }
    {
        let loads = self.loads;
        // The loads are those of the problem that the contract speaks of.
        let _ = loads.problem();
        self.depth < 2 || loads.keep_recovery(positions)
    }
}
