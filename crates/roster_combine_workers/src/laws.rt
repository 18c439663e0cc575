//! What follows from nothing but the definitions.

ghost use Rattle.std.specs.Prelude.{All, List, length, map};
ghost use Rattle.roster_model.specs.Problem.{Problem};
ghost use Rattle.roster_model.specs.Rosters.{Key};
ghost use Rattle.roster_model.specs.Settled.{IsHeld};
ghost use Rattle.roster_lines_table.specs.Entries.{Entry};
ghost use Rattle.roster_lines_table.specs.Person.{IsTableOf};
ghost use Rattle.roster_subtreepool.specs.States.{SettledSpan};
ghost use Rattle.roster_combine_workers.specs.Parts.{Agree, AreSettled, IsBestKey, IsLeastOfAll};

use roster_subtreepool::Closed;

/// At the end of each run the least of what was handed in is the best. The pool may have been led to its
/// end by any events of any workers, and each finished span may be settled by any roster: nothing is asked
/// of how it was found, or of what was seen meanwhile.
pub fn least_handed_in_is_best(closed: &Closed)
    ensures { (problem : Problem) (table : List (List Entry)) (lists : List (List SettledSpan))
        (known best : Key)
        → IsTableOf problem table → Agree (map length table) lists closed.now
        → All (AreSettled problem table) lists → IsHeld problem known
        → IsLeastOfAll lists (length lists) known best → IsBestKey problem best }
{
    // Each list lies in a finished span.
    let _ = closed.finished();
}
