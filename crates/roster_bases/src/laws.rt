//! Why bases can be looked at apart.

ghost use Rattle.std.specs.Prelude.{◌≡◌, ◌<◌, ◌+ℤ◌, ℕ, Bool, List, get_or, length};
ghost use Rattle.roster_model.specs.Costs.{cost_of};
ghost use Rattle.roster_model.specs.Problem.{Problem};
ghost use Rattle.roster_model.specs.Rosters.{IsLegalRoster, key_le, key_of};
ghost use Rattle.roster_bases.specs.Bases.{base_of_pairing, base_of_person};
ghost use Rattle.roster_bases.specs.Homes.{IsHome};
ghost use Rattle.roster_bases.specs.United.{unite};

/// Who flies a pairing in a legal roster is of its base.
pub fn each_pairing_at_home()
    ensures { (problem : Problem) (places : List ℕ) (k p : ℕ)
        → IsLegalRoster problem places → p < length places → k < length problem.persons
        → get_or places p 0 ≡ k → base_of_pairing problem p ≡ base_of_person problem k }
{}

/// What two legal rosters have at different bases is a legal roster. If only persons of the first one's bases fly
/// in the second, so it is in both together.
pub fn united_is_legal()
    ensures legal { (problem : Problem) (bases : ℕ → Bool) (xs ys : List ℕ)
        → IsLegalRoster problem xs → IsLegalRoster problem ys
        → IsLegalRoster problem (unite problem bases xs ys) }
    ensures home { (problem : Problem) (bases : ℕ → Bool) (xs ys : List ℕ)
        → IsLegalRoster problem xs → IsLegalRoster problem ys → IsHome problem bases ys
        → IsHome problem bases (unite problem bases xs ys) }
{}

/// Two legal rosters cost as much as the two that come from them if they change places at some bases: what a
/// base adds to a cost is the same beside any others.
pub fn united_costs_add_up()
    ensures { (problem : Problem) (bases : ℕ → Bool) (xs ys : List ℕ)
        → IsLegalRoster problem xs → IsLegalRoster problem ys
        → cost_of problem (unite problem bases xs ys) +ℤ cost_of problem (unite problem bases ys xs)
        ≡ cost_of problem xs +ℤ cost_of problem ys }
{}

/// A change at some bases makes a roster later just where it does so beside what another roster has at all
/// others.
pub fn united_keeps_order()
    ensures { (problem : Problem) (bases : ℕ → Bool) (xs ys : List ℕ)
        → IsLegalRoster problem xs → IsLegalRoster problem ys
        → key_le (key_of problem xs) (key_of problem (unite problem bases ys xs))
        ≡ key_le (key_of problem (unite problem bases xs ys)) (key_of problem ys) }
{}
