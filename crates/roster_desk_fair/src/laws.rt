//! Laws of the definition of shares. They have no code.

ghost use Rattle.std.specs.Prelude.{◌≡◌, ◌<◌, List, Some, slice_get, sum, ℕ};
ghost use Rattle.roster_desk_fair.specs.Fair.{IsNear, shares_of};

/// All shares together are the whole, if anything counts.
pub fn shares_add_up()
    ensures { (flight : ℕ) (weights : List ℕ) → 0 < sum weights → sum (shares_of flight weights) ≡ flight }
{}

/// Each share is less than a minute away from its part of the whole.
pub fn shares_are_near()
    ensures { (flight : ℕ) (weights : List ℕ) (k own share : ℕ) → 0 < sum weights
        → slice_get weights k ≡ Some own → slice_get (shares_of flight weights) k ≡ Some share
        → IsNear flight (sum weights) own share }
{}
