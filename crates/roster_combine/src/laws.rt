//! What follows from nothing but the definitions.

ghost use Rattle.std.specs.Prelude.{◌≡◌, ℕ, List, length, replicate};
ghost use Rattle.roster_model.specs.Problem.{Problem};
ghost use Rattle.roster_model.specs.Rosters.{IsLegalRoster};
ghost use Rattle.roster_model.specs.Settled.{IsBest};

/// A problem has at most one best roster.
pub fn one_best()
    ensures { (problem : Problem) (a b : List ℕ) → IsBest problem a → IsBest problem b → a ≡ b }
{}

/// A problem has a best roster: there can't be none. Rules are facts that no test need decide, so
/// nothing more than that is said without a search.
pub fn has_best()
    ensures { (problem : Problem) → ¬ ¬ ((places : List ℕ) × IsBest problem places) }
{}

/// The roster that leaves all open is legal in every problem.
pub fn all_open_is_legal()
    ensures { (problem : Problem)
        → IsLegalRoster problem (replicate (length problem.pairings) (length problem.persons)) }
{}
