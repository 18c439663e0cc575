//! What follows from only the definitions.

ghost use Rattle.std.specs.Prelude.{◌≡◌, ◌<◌, ◌↔◌, ℕ, List, Some, length};
ghost use Rattle.roster_subtreepool_spans.specs.Spans.{LiesIn, Span};
ghost use Rattle.roster_subtreepool.specs.Coverage.{IsInWidths, times, times_in};
ghost use Rattle.roster_subtreepool.specs.States.{State, after};
ghost use Rattle.roster_subtreepool.specs.declared.event.Event.{Event};

/// After any events, by any workers and in any order, each list of the box lies in just one span that is
/// pending, in a hand or finished.
pub fn each_list_in_one_span()
    ensures { (widths : List ℕ) (workers : ℕ) (events : List Event) (state : State) (numbers : List ℕ)
        → 0 < length widths → after widths workers events ≡ Some state
        → IsInWidths widths numbers → times numbers state ≡ 1 }
{}

/// A list is counted for a span just if it lies in it.
pub fn counts_what_lies_in()
    ensures { (span : Span) (numbers : List ℕ) → (times_in numbers span ≡ 1) ↔ LiesIn span numbers }
{}
