//! What follows from only the definitions.

ghost use Rattle.std.specs.Prelude.{◌≡◌, ℕ, List};
ghost use Rattle.roster_model.specs.Answer.{IsAnswer};
ghost use Rattle.roster_model.specs.Record.{Command, Record};

use roster_combine::{has_best, one_best};
use roster_legal::{has_locks, has_verdicts, one_list_of_locks, one_list_of_verdicts};

/// Records have at most one answer: what the program writes is determined by what it read.
pub fn one_answer()
    ensures { (command : Command) (records : List Record) (s t : List ℕ)
        → IsAnswer command records s → IsAnswer command records t → s ≡ t }
{
    one_best();
    one_list_of_locks();
    one_list_of_verdicts();
}

/// Records have an answer, whatever they are: there can't be none.
pub fn has_answer()
    ensures { (command : Command) (records : List Record)
        → ¬ ¬ ((text : List ℕ) × IsAnswer command records text) }
{
    has_best();
    has_locks();
    has_verdicts();
}
