//! The base rule.

ghost use Rattle.std.specs.Prelude.{◌<◌, ◌↔◌, IsTrue, All, length};
ghost use Rattle.roster_model.specs.Rules.Base.{KeepsBase};

use roster_problem::Problem;
use roster_values::Set;

/// Whether each pairing of the set has the base of person `k`.
pub(crate) fn keeps_base(problem: &Problem, k: usize, set: &Set) -> bool
    requires person { k < length problem.now.persons }
    requires places { All (λ p. p < length problem.now.pairings) set.now }
    ensures { IsTrue result ↔ KeepsBase problem.now k set.now }
{
    let base = problem.person(k).base;
    let mut from = 0;
    while let Some(p) = set.first_from(from) {
        if problem.pairing(p).base != base {
            return false;
        }
        from = p + 1;
    }
    true
}
