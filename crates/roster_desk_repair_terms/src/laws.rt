//! What follows from nothing but the definitions.

ghost use Rattle.std.specs.Prelude.{◌≡◌, ℕ, List, Option, length, ◌-ℤ◌};
ghost use Rattle.roster_model.specs.Costs.{cost_of};
ghost use Rattle.roster_model.specs.Problem.{Problem};
ghost use Rattle.roster_desk_repair_terms.specs.Fixed.{staying, whole};
ghost use Rattle.roster_desk_repair_terms.specs.Repaired.{IsRepair, KeepsCosts, KeepsDuties};

/// The published roster is the whole one of its rest.
pub fn published_is_whole()
    ensures { (book : Problem) (published : List ℕ) (fixed : List (Option ℕ)) (price : ℕ → ℕ)
        (repaired : Problem) → IsRepair book published fixed price repaired
        → whole fixed (staying fixed published) ≡ published }
{}

/// Persons have the same duties in both books.
pub fn repair_keeps_duties()
    ensures { (book : Problem) (published : List ℕ) (fixed : List (Option ℕ)) (price : ℕ → ℕ)
        (repaired : Problem) → IsRepair book published fixed price repaired
        → length published ≡ length book.pairings → KeepsDuties book fixed repaired }
{}

/// Rosters cost the same in both books, but for what moves and a constant.
pub fn repair_keeps_costs()
    ensures { (book : Problem) (published : List ℕ) (fixed : List (Option ℕ)) (price : ℕ → ℕ)
        (repaired : Problem) → IsRepair book published fixed price repaired
        → length published ≡ length book.pairings
        → KeepsCosts book published fixed price repaired
        (cost_of book published -ℤ cost_of repaired (staying fixed published)) }
{}
