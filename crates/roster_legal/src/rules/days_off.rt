//! The rule of days off.

ghost use Rattle.std.specs.Prelude.{◌≡◌, ◌<◌, ◌≤◌, ◌↔◌, ℕ, List, false, IsTrue, length};
ghost use Rattle.roster_model.specs.Rules.{duty_list, DaysOffRule, Holds};
ghost use Rattle.roster_legal.specs.Stepping.{with_next, AreBusyDaysOf, IsLegalNext, IsNext};

use crate::stepping::JudgedSet;
use roster_problem::{DutyList, Problem};
use roster_restrules::{days_ok, has_days_off};

/// Whether the list of person `k` leaves two days off in a row, twice in the month.
pub(crate) fn keeps_days_off(problem: &Problem, k: usize, list: &DutyList) -> bool
    requires { k < length problem.now.persons }
    ensures { (set : List ℕ) → list.now ≡ duty_list problem.now k set
        → (IsTrue result ↔ Holds problem.now k set DaysOffRule) }
{
    days_ok(problem.days_of(k), list)
}

impl<'a> JudgedSet<'a> {
    /// Whether there are days off twice in the month with the pairing at place `p`, which makes the busy
    /// days those of the word; of a pair or less that is known.
    pub(crate) fn has_days_off_with(&self, p: usize, busy: u32) -> bool
        requires next { IsNext self.now p }
        requires busy { AreBusyDaysOf self.now.loads.problem self.now.loads.person
            (with_next self.now p).set busy }
        ensures yes { let problem = self.now.loads.problem in let k = self.now.loads.person in
            IsTrue result → 2 ≤ length self.now.set
            → Holds problem k (with_next self.now p).set DaysOffRule }
        ensures no { result ≡ false → ¬ IsLegalNext self.now p }
    {
        let loads = self.loads;
        let problem = loads.problem();
        self.depth < 2 || has_days_off(problem.days_of(loads.person()), busy)
    }
}
