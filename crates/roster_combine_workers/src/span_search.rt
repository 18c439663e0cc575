//! What searches spans.

ghost use Rattle.std.specs.Prelude.{◌≡◌, true, IfErr, IfOk, IsTrue};
ghost use Rattle.std.specs.Arc.{arc_value};
ghost use Rattle.roster_model.specs.Rosters.{key_le};
ghost use Rattle.roster_model.specs.Settled.{Anywhere, IsHeld, IsNotAfter};
ghost use Rattle.roster_combine_workers.specs.Parts.{IsSettled, Task};

use roster_incumbent::Sight;
use roster_subtreepool_spans::{Done, Piece};
use roster_values::Roster;
use std::alloc::AllocError;
use std::sync::Arc;

/// Searches spans of all rosters of one problem. Workers share it.
pub trait SpanSearch {
    /// The problem, and its table of lines.
    ghost task: { Self → Task };

    /// Whether it is known that no legal roster comes before this one.
    fn none_before(&self, best: &Roster) -> bool
        ensures { IsTrue result → IsNotAfter (task self.now).problem Anywhere best.now };

    /// Searches the span of the piece. The roster that it answers is legal, with its cost; its key is after
    /// that of no legal roster in the span, and not after that of the known one.
    ///
    /// It is to look at the sight at its nodes `every`, twice `every` and so on, and never if that is 0;
    /// nothing that is answered rests on that. The piece is handed back if memory runs out.
    fn search<S: Sight>(
        &self,
        piece: Piece,
        sight: &mut S,
        every: usize,
        known: &Arc<Roster>,
    ) -> Result<Done, (Piece, AllocError)>
        requires { IsHeld (task self.now).problem (arc_value known.now) }
        ensures span { IfOk result (λ done. done.piece ≡ piece) }
        ensures settled { IfOk result (λ done. IsSettled (task self.now).problem (task self.now).table
            (record { span = done.piece; best = arc_value done.best })) }
        ensures kept { IfOk result
            (λ done. key_le (arc_value done.best) (arc_value known.now) ≡ true) }
        ensures back { IfErr result (λ refused. refused.0 ≡ piece) };
}
