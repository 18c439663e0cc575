//! Which lines of a person are wanted.

ghost use Rattle.std.specs.Prelude.{◌≡◌, ◌<◌, ◌++◌, ◌∷◌, ◌||◌, ◌↔◌, ℕ, true, false, List, IsTrue, length};
ghost use Rattle.roster_model.specs.Costs.{flight_of, total};
ghost use Rattle.roster_model.specs.Lines.{IsLine};
ghost use Rattle.roster_model.specs.Problem.{Problem, units_of};
ghost use Rattle.roster_model.specs.Rules.{is_among};
ghost use Rattle.roster_lines.specs.Between.{HasBefore, IsBetween};

use roster_problem::Problem;
use roster_values::Set;

/// Says which lines of a person are to be listed.
pub trait Wanted {
    /// Whether the person at this place is to have the line.
    ghost wants: { Self → Problem → ℕ → List ℕ → Type 0 };

    /// Of the pairings that are legal alone, those that a line which is wanted may hold: no other is looked
    /// at.
    fn among(&self, alone: &Set) -> Set
        ensures within { (p : ℕ) → is_among result p ≡ true → is_among alone.now p ≡ true }
        ensures held { (problem : Problem) (k : ℕ) (set : List ℕ) (p : ℕ)
            → wants self.now problem k set → is_among set p ≡ true
            → is_among alone.now p ≡ true → is_among result p ≡ true };

    /// Whether a line that begins with the set and pairing `p` behind it may be wanted, that one itself
    /// among them. The answer is `false` only if none of them is. The set, a line of person `k`, has so
    /// many cost units, and with it the person flies so many minutes in the month, fixed duties included.
    fn goes_on(
        &self,
        problem: &Problem,
        k: usize,
        set: &Set,
        p: usize,
        units: i64,
        flight: u64,
    ) -> bool
        requires person { k < length problem.now.persons }
        requires place { p < length problem.now.pairings }
        requires line { IsLine problem.now k set.now }
        requires units { units ≡ total (units_of problem.now k) set.now }
        requires flight { flight ≡ flight_of problem.now k set.now }
        ensures { result ≡ false → (rest : List ℕ) → IsLine problem.now k (set.now ++ p ∷ rest)
            → ¬ wants self.now problem.now k (set.now ++ p ∷ rest) };
}

/// All lines are wanted.
#[derive(Clone, Copy)]
pub(crate) struct Everything;

impl Wanted for Everything {
    ghost wants = { λ everything problem k set. Unit };

    fn among(&self, alone: &Set) -> Set {
        *alone
    }

    #[inline]
    fn goes_on(&self, _: &Problem, _: usize, _: &Set, _: usize, _: i64, _: u64) -> bool {
        true
    }
}

/// The lines between two sets are wanted: those that hold all of the first, and nothing but what is in one
/// of the two.
#[derive(Clone, Copy)]
pub struct Between {
    /// What each of them holds.
    pub must: Set,
    /// What they may hold beside.
    pub may: Set,
}

impl Wanted for Between {
    ghost wants = { λ between problem k set. IsBetween between.must between.may set };

    fn among(&self, alone: &Set) -> Set {
        alone.and(&self.must.or(&self.may))
    }

    fn goes_on(&self, _: &Problem, _: usize, set: &Set, p: usize, _: i64, _: u64) -> bool {
        if !is_in_either(&self.must, &self.may, p) {
            return false;
        }
        has_before(set, &self.must, p)
    }
}

/// Whether pairing `p` is in one of the sets.
fn is_in_either(must: &Set, may: &Set, p: usize) -> bool
    ensures { result ≡ (is_among must.now p || is_among may.now p) }
{
    must.has(p) || may.has(p)
}

/// Whether the set has each pairing of `must` whose place is before `p`.
fn has_before(set: &Set, must: &Set, p: usize) -> bool
    ensures { IsTrue result ↔ HasBefore set.now must.now p }
{
    let mut from = 0;
    while let Some(q) = must.first_from(from) {
        if q >= p {
            return true;
        }
        if !set.has(q) {
            return false;
        }
        from = q + 1;
    }
    true
}
