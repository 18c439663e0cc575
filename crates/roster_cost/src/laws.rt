//! What follows from nothing but the definitions.

ghost use Rattle.std.specs.Prelude.{◌≡◌, ◌<◌, ◌≤◌, ◌+◌, ◌+ℤ◌, ◌-ℤ◌, ◌∷◌, ◌++◌, ◌↔◌, ◌⊎◌, [], ℕ, false, true};
ghost use Rattle.std.specs.Prelude.{not, pos, All, List, length, ℤ};
ghost use Rattle.std.specs.List.{range_with_len};
ghost use Rattle.std.specs.List.Sorted.{IsStrictlyIncreasing};
ghost use Rattle.std.specs.Ordering.{is_le, is_lt};
ghost use Rattle.roster_model.specs.Costs.{cost_of, flight_of, line_cost, open_penalties, total};
ghost use Rattle.roster_model.specs.Lines.{IsLine};
ghost use Rattle.roster_model.specs.Places.{open_number, set_of};
ghost use Rattle.roster_model.specs.Problem.{Problem, units_of};
ghost use Rattle.roster_model.specs.Rosters.{Key, key_le};
ghost use Rattle.roster_model.specs.Rules.{is_among};
ghost use Rattle.roster_problem.specs.Sound.{IsSound};
ghost use Rattle.roster_cost.specs.Amounts.{IsWithin, minutes_of_pairing, most_extra, most_units};
ghost use Rattle.roster_cost.specs.Keys.{compare, is_same};
ghost use Rattle.roster_cost.specs.Priced.{penalties_and_prices, reduced_cost};

use roster_cumulative::{flight_of_one_pairing_more, flight_of_set};

/// What a pairing brings that comes to a set: its units and its flight. With them `cost_at` is the
/// cost of the larger set.
pub fn one_pairing_more()
    ensures units { (problem : Problem) (k p : ℕ) (set : List ℕ)
        → total (units_of problem k) (set ++ p ∷ [])
        ≡ total (units_of problem k) set +ℤ units_of problem k p }
    ensures flight { (problem : Problem) (k p : ℕ) (set : List ℕ)
        → is_among set p ≡ false
        → flight_of problem k (set ++ p ∷ [])
        ≡ flight_of problem k set + minutes_of_pairing problem k p }
{
    flight_of_one_pairing_more();
}

/// The units of a set are as far within their limits as `cost_at` asks.
pub fn units_of_set()
    ensures { (problem : Problem) (k : ℕ) (set : List ℕ)
        → IsSound problem → IsStrictlyIncreasing set
        → All (λ p. p < length problem.pairings) set
        → IsWithin most_units (total (units_of problem k) set) }
{}

/// A line costs nearly what no pairings cost the same person.
pub fn lines_are_near()
    ensures { (problem : Problem) (k : ℕ) (set : List ℕ)
        → IsSound problem → IsLine problem k set
        → IsWithin most_extra (line_cost problem k set -ℤ line_cost problem k []) }
{
    flight_of_set();
}

/// What a roster costs is what its open pairings cost, and each person's line.
pub fn shares_add_up()
    ensures { (problem : Problem) (places : List ℕ)
        → cost_of problem places
        ≡ pos (open_penalties (open_number problem) problem.pairings places)
        +ℤ total (λ k. line_cost problem k (set_of k places))
        (range_with_len 0 (length problem.persons)) }
{}

/// What a roster costs at any prices of pairings: the reduced cost of each person's line, the penalty of
/// each pairing that is left open, and the price of each other.
pub fn priced_shares_add_up()
    ensures { (problem : Problem) (price : ℕ → ℤ) (places : List ℕ)
        → length places ≡ length problem.pairings
        → All (λ x. x ≤ length problem.persons) places
        → cost_of problem places
        ≡ total (λ k. reduced_cost problem price k (set_of k places))
        (range_with_len 0 (length problem.persons))
        +ℤ penalties_and_prices price (open_number problem) 0 problem.pairings places }
{}

/// Keys compare as the definitions say, and equal ones are one.
pub fn order_of_keys()
    ensures le { (a b : Key) → is_le (compare a b) ≡ key_le a b }
    ensures lt { (a b : Key) → is_lt (compare a b) ≡ not (key_le b a) }
    ensures same { (a b : Key) → (is_same a b ≡ true) ↔ (a ≡ b) }
{}

/// The order of keys is a total order: by it the least key of some is one.
pub fn keys_are_in_order()
    ensures reflexive { (a : Key) → key_le a a ≡ true }
    ensures transitive { (a b c : Key)
        → key_le a b ≡ true → key_le b c ≡ true → key_le a c ≡ true }
    ensures antisymmetric { (a b : Key) → key_le a b ≡ true → key_le b a ≡ true → a ≡ b }
    ensures total { (a b : Key) → (key_le a b ≡ true) ⊎ (key_le b a ≡ true) }
{}
