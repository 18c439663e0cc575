//! What follows from nothing but the definitions.

ghost use Rattle.std.specs.Prelude.{◌≡◌, ◌<◌, ◌≤◌, ℕ, List, length};
ghost use Rattle.roster_model.specs.declared.limits.TheConstants.{MOST_LINES};
ghost use Rattle.roster_model.specs.Lines.{AreLines, AreNumbersOf, AreTables, IsCrowded};
ghost use Rattle.roster_model.specs.Problem.{Problem};
ghost use Rattle.roster_model.specs.Rosters.{IsLegalRoster};
ghost use Rattle.roster_lines_table.specs.Entries.{Entry};
ghost use Rattle.roster_lines_table.specs.Person.{AreListed, IsTableOf};

/// The lines of a person are one list.
pub fn one_list_of_lines()
    ensures { (problem : Problem) (k : ℕ) (a b : List (List ℕ))
        → AreLines problem k a → AreLines problem k b → a ≡ b }
{}

/// If the lines of a person are no more than there may be, so are any of them.
pub fn few_are_not_crowded()
    ensures { (problem : Problem) (k : ℕ) (sets : List (List ℕ))
        → AreLines problem k sets → length sets ≤ MOST_LINES → ¬ IsCrowded problem k }
{}

/// If there is a table, no person has more lines than there may be.
pub fn nobody_is_crowded()
    ensures { (problem : Problem) (table : List (List Entry)) (k : ℕ)
        → IsTableOf problem table → k < length problem.persons → ¬ IsCrowded problem k }
{}

/// If a table has all lines of each person, it has some.
pub fn all_lines_are_some()
    ensures { (problem : Problem) (table : List (List Entry))
        → IsTableOf problem table → AreListed problem table }
{}

/// Each legal roster has a list of line numbers,
pub fn has_numbers()
    ensures { (problem : Problem) (tables : List (List (List ℕ))) (places : List ℕ)
        → AreTables problem tables → IsLegalRoster problem places
        → (numbers : List ℕ) × AreNumbersOf tables places numbers }
{}

/// and only one.
pub fn one_list_of_numbers()
    ensures { (problem : Problem) (tables : List (List (List ℕ))) (places a b : List ℕ)
        → AreTables problem tables → AreNumbersOf tables places a → AreNumbersOf tables places b
        → a ≡ b }
{}
