//! Where each span of a pool is.

ghost use Rattle.std.specs.Prelude.{◌≡◌, ◌<◌, ◌↔◌, ◌∷◌, ◌++◌, [], All, IfOk, IsTrue, None, OnErr};
ghost use Rattle.std.specs.Prelude.{Some, length, replicate, slice_get};
ghost use Rattle.roster_subtreepool.specs.Refusals.{descend_fault, halve_fault, hand_fault, is_free, is_held};
ghost use Rattle.roster_subtreepool.specs.Refusals.{is_same, take_fault};
ghost use Rattle.roster_subtreepool.specs.States.{IsAtRest, can_descend, descended, held, lower, opening};
ghost use Rattle.roster_subtreepool.specs.States.{step};

use crate::event::Event;
use roster_subtreepool_spans::{Path, Piece, Span};
use std::alloc::{AllocError, Global};
use std::marker::Model;

/// The state of a pool. Contracts see it as that.
#[derive(Drop)]
pub(crate) struct Board {
    alloc: Global,
    widths: Vec<usize>,
    pending: Vec<Span>,
    hands: Vec<Option<Span>>,
    finished: Vec<(usize, Span)>,
}

impl Model for Board {
    ghost use Rattle.roster_subtreepool.specs.States.{State};

    ghost Value = { State };

    ghost view = { λ b. record {
      widths = b.widths.items;
      pending = b.pending.items;
      hands = b.hands.items;
      finished = b.finished.items;
    } };
}

impl Board {
    /// The opening state.
    pub(crate) fn opening(
        alloc: Global,
        widths: &[usize],
        workers: usize,
    ) -> Result<Board, AllocError>
        requires { 0 < length widths.now }
        ensures { IfOk result (λ board. board ≡ opening widths.now workers) }
    {
        let mut pending = Vec::with_capacity(alloc, 1)?;
        pending.push_reserved(Span {
            path: Path::new(Vec::new(alloc)),
            lo: 0,
            hi: widths[0],
        });
        Ok(Board {
            alloc,
            widths: Vec::from_slice(alloc, widths)?,
            pending,
            hands: empty_hands(alloc, workers)?,
            finished: Vec::new(alloc),
        })
    }

    /// How many workers there are.
    pub(crate) fn workers(&self) -> usize
        ensures { result ≡ length self.now.hands }
    {
        self.hands.len()
    }

    /// How many spans are pending.
    pub(crate) fn pending(&self) -> usize
        ensures { result ≡ length self.now.pending }
    {
        self.pending.len()
    }

    /// Whether nothing is pending and nobody has a span.
    pub(crate) fn at_rest(&self) -> bool
        ensures { IsTrue result ↔ IsAtRest self.now }
    {
        if self.pending() > 0 {
            return false;
        }
        are_empty(&self.hands)
    }

    /// Whether the worker is there and has no span.
    pub(crate) fn is_free(&self, worker: usize) -> bool
        ensures { result ≡ is_free (slice_get self.now.hands worker) }
    {
        match self.hands.get(worker) {
            Some(None) => true,
            Some(Some(_)) => false,
            None => false,
        }
    }

    /// Whether the worker is there and has just this span.
    pub(crate) fn is_held(&self, worker: usize, span: &Span) -> bool
        ensures { result ≡ is_held (held self.now worker) span.now }
    {
        match self.hands.get(worker) {
            Some(Some(mine)) => is_same(mine, span),
            Some(None) => false,
            None => false,
        }
    }

    /// The piece with the span that the worker has, if it has one.
    pub(crate) fn in_hand(&self, worker: usize) -> Result<Option<Piece>, AllocError>
        ensures { IfOk result (λ piece. piece ≡ held self.now worker) }
    {
        match self.hands.get(worker) {
            Some(Some(mine)) => Ok(Some(Piece::of(copy_of(self.alloc, mine)?))),
            Some(None) => Ok(None),
            None => Ok(None),
        }
    }

    /// Whether the span can go down to the next person.
    pub(crate) fn can_descend(&self, span: &Span) -> bool
        ensures { result ≡ can_descend self.now.widths span.now }
    {
        if span.hi <= span.lo || span.hi - span.lo != 1 {
            return false;
        }
        let next = span.path.as_slice().len();
        let persons = self.widths.len();
        next < persons && persons - next > 1
    }

    /// A pending span goes into the worker's hand.
    pub(crate) fn take(&mut self, worker: usize, place: usize) -> Result<Piece, AllocError>
        requires { take_fault self.old worker place ≡ None }
        ensures step { IfOk result (λ _. step self.old (Event.Take worker place) ≡ Some self.new) }
        ensures piece { IfOk result (λ piece. held self.new worker ≡ Some piece) }
        ensures same { OnErr result (self.new ≡ self.old) }
    {
        let kept = copy_of(self.alloc, &self.pending[place])?;
        let span = self.pending.remove(place);
        self.hands[worker] = Some(span);
        Ok(Piece::of(kept))
    }

    /// The worker keeps the lower half of its span, and the upper one is pending.
    pub(crate) fn halve(&mut self, worker: usize, span: &Span) -> Result<Piece, AllocError>
        requires { halve_fault self.old worker span.now ≡ None }
        ensures step { IfOk result (λ _. step self.old (Event.Halve worker) ≡ Some self.new) }
        ensures piece { IfOk result (λ piece. held self.new worker ≡ Some piece) }
        ensures part { IfOk result (λ piece. piece ≡ lower span.now) }
        ensures same { OnErr result (self.new ≡ self.old) }
    {
        self.pending.reserve(1)?;
        let middle = span.lo + (span.hi - span.lo) / 2;
        let lower = part_of(self.alloc, span, span.lo, middle)?;
        let (lower, kept) = with_copy(self.alloc, lower)?;
        let upper = part_of(self.alloc, span, middle, span.hi)?;
        self.pending.push_reserved(upper);
        self.hands[worker] = Some(lower);
        Ok(Piece::of(kept))
    }

    /// The worker's span goes down to the next person.
    pub(crate) fn descend(&mut self, worker: usize, span: &Span) -> Result<Piece, AllocError>
        requires { descend_fault self.old worker span.now ≡ None }
        ensures step { IfOk result (λ _. step self.old (Event.Descend worker) ≡ Some self.new) }
        ensures piece { IfOk result (λ piece. held self.new worker ≡ Some piece) }
        ensures part { IfOk result (λ piece. piece ≡ descended self.old.widths span.now) }
        ensures same { OnErr result (self.new ≡ self.old) }
    {
        let width = self.widths[span.path.as_slice().len() + 1];
        let lower = below(self.alloc, span, width)?;
        let (lower, kept) = with_copy(self.alloc, lower)?;
        self.hands[worker] = Some(lower);
        Ok(Piece::of(kept))
    }

    /// The worker's span is pending again.
    pub(crate) fn back(&mut self, worker: usize, span: &Span) -> Result<(), AllocError>
        requires { hand_fault self.old worker span.now ≡ None }
        ensures step { IfOk result (λ _. step self.old (Event.Back worker) ≡ Some self.new) }
        ensures same { OnErr result (self.new ≡ self.old) }
    {
        self.pending.reserve(1)?;
        let pending = copy_of(self.alloc, span)?;
        self.pending.push_reserved(pending);
        self.hands[worker] = None;
        Ok(())
    }

    /// The worker's span is finished.
    pub(crate) fn finish(&mut self, worker: usize, span: &Span) -> Result<(), AllocError>
        requires { hand_fault self.old worker span.now ≡ None }
        ensures step { IfOk result (λ _. step self.old (Event.Finish worker) ≡ Some self.new) }
        ensures same { OnErr result (self.new ≡ self.old) }
    {
        self.finished.reserve(1)?;
        let finished = copy_of(self.alloc, span)?;
        self.finished.push_reserved((worker, finished));
        self.hands[worker] = None;
        Ok(())
    }

    /// The same span again.
    pub(crate) fn copied(&self, span: &Span) -> Result<Span, AllocError>
        ensures { IfOk result (λ copy. copy ≡ span.now) }
    {
        copy_of(self.alloc, span)
    }

    /// The widths, and who finished which span.
    pub(crate) fn into_parts(self) -> (Vec<usize>, Vec<(usize, Span)>)
        ensures widths { result.0.items ≡ self.widths }
        ensures finished { result.1.items ≡ self.finished }
    {
        (self.widths, self.finished)
    }
}

/// Whether nobody has a span.
fn are_empty(hands: &[Option<Span>]) -> bool
    ensures { IsTrue result ↔ All (λ hand. hand ≡ None) hands.now }
{
    hands.iter().all(|hand| hand.is_none())
}

/// So many hands with nothing in them.
fn empty_hands(alloc: Global, workers: usize) -> Result<Vec<Option<Span>>, AllocError>
    ensures { IfOk result (λ hands. hands.items ≡ replicate workers None) }
{
    let mut hands = Vec::with_capacity(alloc, workers)?;
    for _worker in 0..workers {
        hands.push(None)?;
    }
    Ok(hands)
}

/// Whether two spans are the same.
fn is_same(a: &Span, b: &Span) -> bool
    ensures { result ≡ is_same a.now b.now }
{
    a.path.as_slice() == b.path.as_slice() && a.lo == b.lo && a.hi == b.hi
}

/// The same path with another range.
pub(crate) fn part_of(alloc: Global, span: &Span, lo: usize, hi: usize) -> Result<Span, AllocError>
    ensures { IfOk result (λ part. part ≡ record span.now { lo = lo; hi = hi }) }
{
    let path = Vec::from_slice(alloc, span.path.as_slice())?;
    Ok(Span {
        path: Path::new(path),
        lo,
        hi,
    })
}

/// The same span again.
pub(crate) fn copy_of(alloc: Global, span: &Span) -> Result<Span, AllocError>
    ensures { IfOk result (λ copy. copy ≡ span.now) }
{
    part_of(alloc, span, span.lo, span.hi)
}

/// The span, and the same again.
fn with_copy(alloc: Global, span: Span) -> Result<(Span, Span), AllocError>
    ensures { IfOk result (λ both. (both.0 ≡ span) × (both.1 ≡ span)) }
{
    let copy = copy_of(alloc, &span)?;
    Ok((span, copy))
}

/// The path with the first line of the range, and so many lines of the next person.
fn below(alloc: Global, span: &Span, width: usize) -> Result<Span, AllocError>
    ensures { IfOk result (λ below.
        below ≡ record { path = span.now.path ++ span.now.lo ∷ []; lo = 0; hi = width }) }
{
    let mut path = Vec::from_slice(alloc, span.path.as_slice())?;
    path.push(span.lo)?;
    Ok(Span {
        path: Path::new(path),
        lo: 0,
        hi: width,
    })
}
