//! A pool that has ended.

ghost use Rattle.std.specs.Prelude.{◌≡◌, ◌<◌, ℕ, List, Some, length, slice_get};
ghost use Rattle.roster_subtreepool_spans.specs.Spans.{LiesIn, Span as PlainSpan};
ghost use Rattle.roster_subtreepool.specs.Coverage.{IsInWidths, times_finished};

use roster_subtreepool_spans::Span;
use std::marker::Model;

/// What a pool at rest leaves. Its type keeps that it comes from a state at rest, and so that each list of
/// the box lies in just one of the finished spans. Contracts see it as the widths and the finished spans.
#[derive(Drop)]
pub struct Closed {
    pub(crate) widths: Vec<usize>,
    pub(crate) finished: Vec<(usize, Span)>,
}

impl Model for Closed {
    ghost use Rattle.roster_subtreepool.specs.States.{Ended, IsEnd};

    ghost Value = { Ended };

    ghost view = { λ c. record { widths = c.widths.items; finished = c.finished.items } };

    ghost invariant = { λ c. IsEnd (record { widths = c.widths.items; finished = c.finished.items }) };
}

impl Closed {
    /// How many lines each person has.
    pub fn widths(&self) -> &[usize]
        ensures { result.now ≡ self.now.widths }
    {
        &self.widths
    }

    /// Who finished which span, in the order in which they were finished. Each list of the box lies in just
    /// one of them.
    pub fn finished(&self) -> &[(usize, Span)]
        ensures value { result.now ≡ self.now.finished }
        ensures once { (numbers : List ℕ) → IsInWidths self.now.widths numbers
            → times_finished numbers self.now.finished ≡ 1 }
        ensures found { (numbers : List ℕ) → IsInWidths self.now.widths numbers
            → (place worker : ℕ) × (span : PlainSpan)
            × (slice_get self.now.finished place ≡ Some (worker, span)) × LiesIn span numbers }
    {
        &self.finished
    }

    /// How many spans were finished.
    pub fn count(&self) -> usize
        ensures { result ≡ length self.now.finished }
    {
        self.finished.len()
    }
}
