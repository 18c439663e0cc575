//! What follows from nothing but the definitions.

ghost use Rattle.std.specs.Prelude.{◌≡◌, ◌<◌, ◌∷◌, [], ℕ, true, List, Option};
ghost use Rattle.roster_model.specs.Problem.{Problem};
ghost use Rattle.roster_model.specs.Rosters.{AreVerdicts};
ghost use Rattle.roster_model.specs.Rules.{is_among, rank_of, AreLocks, Holds, IsFirstBroken, IsLegal};
ghost use Rattle.roster_model.specs.Rules.{RecoveryRule, Rule};
ghost use Rattle.roster_problem.specs.Duties.{AreTimed, IsInOrder};

/// A person breaks at most one rule first with a set.
pub fn one_first_broken()
    ensures { (problem : Problem) (k : ℕ) (set : List ℕ) (a b : Option Rule)
        → IsFirstBroken problem k set a → IsFirstBroken problem k set b → a ≡ b }
{}

/// What locks each person is one list at most.
pub fn one_list_of_locks()
    ensures { (problem : Problem) (a b : List (Option Rule))
        → AreLocks problem a → AreLocks problem b → a ≡ b }
{}

/// There is a list of what locks each person: there can't be none. Rules are facts that no test need
/// decide, so nothing more than that is said.
pub fn has_locks()
    ensures { (problem : Problem) → ¬ ¬ ((locks : List (Option Rule)) × AreLocks problem locks) }
{}

/// What each person breaks with their set of a list of places is one list at most.
pub fn one_list_of_verdicts()
    ensures { (problem : Problem) (places : List ℕ) (a b : List (Option Rule))
        → AreVerdicts problem places a → AreVerdicts problem places b → a ≡ b }
{}

/// There is a list of what each person breaks: there can't be none.
pub fn has_verdicts()
    ensures { (problem : Problem) (places : List ℕ)
        → ¬ ¬ ((verdicts : List (Option Rule)) × AreVerdicts problem places verdicts) }
{}

/// What is part of a legal set is legal, if the duties are in their order in time.
pub fn part_of_legal_is_legal()
    ensures { (problem : Problem) (k : ℕ) (set part : List ℕ)
        → IsInOrder problem.duties → AreTimed problem.duties
        → ((p : ℕ) → is_among part p ≡ true → is_among set p ≡ true)
        → IsLegal problem k set → IsLegal problem k part }
{}

/// Of a set of which each pairing is legal alone, and each two of them together, the rules that speak of
/// one duty or of two hold: all that are judged before Recovery.
pub fn pairs_decide()
    ensures { (problem : Problem) (k some : ℕ) (set : List ℕ) (rule : Rule)
        → is_among set some ≡ true
        → ((p : ℕ) → is_among set p ≡ true → IsLegal problem k (p ∷ []))
        → ((p q : ℕ) → p < q → is_among set p ≡ true → is_among set q ≡ true
        → IsLegal problem k (p ∷ q ∷ []))
        → rank_of rule < rank_of RecoveryRule → Holds problem k set rule }
{}
