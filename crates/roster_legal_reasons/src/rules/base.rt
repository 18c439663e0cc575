//! Pairings of another base.

ghost use Rattle.std.specs.Prelude.{◌<◌, All, MatchOption, length};
ghost use Rattle.roster_model.specs.Rules.Base.{KeepsBase};
ghost use Rattle.roster_legal_reasons.specs.Reasons.Base.{IsFirstOffBase};

use roster_problem::Problem;
use roster_values::Set;

/// The place of the first pairing of the set that has another base than person `k`.
pub(crate) fn first_off_base(problem: &Problem, k: usize, set: &Set) -> Option<usize>
    requires person { k < length problem.now.persons }
    requires places { All (λ p. p < length problem.now.pairings) set.now }
    ensures { MatchOption result (KeepsBase problem.now k set.now)
        (IsFirstOffBase problem.now k set.now) }
{
    let base = problem.person(k).base;
    let mut from = 0;
    while let Some(p) = set.first_from(from) {
        if problem.pairing(p).base != base {
            return Some(p);
        }
        from = p + 1;
    }
    None
}
