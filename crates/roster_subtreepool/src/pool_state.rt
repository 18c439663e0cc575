//! A pool, and the events that led to it.

ghost use Rattle.std.specs.Prelude.{◌≡◌, ◌<◌, ◌≤◌, ◌+◌, ◌↔◌, [], IfErr, IfOk, IsOk, IsTrue, None, OnErr};
ghost use Rattle.std.specs.Prelude.{OnOk, Some, length, replicate, slice_get, sum, vec_capacity, vec_len};
ghost use Rattle.std.specs.Arc.{arc_value};
ghost use Rattle.roster_subtreepool.specs.Refusals.{descend_fault, halve_fault, hand_fault, is_free};
ghost use Rattle.roster_subtreepool.specs.Refusals.{take_fault, told};
ghost use Rattle.roster_subtreepool.specs.States.{Adds, IsAtRest, IsReplay, can_halve, descended, finishes};
ghost use Rattle.roster_subtreepool.specs.States.{held, lower, opening};

use crate::board::Board;
use crate::closed::Closed;
use crate::event::Event;
use crate::fault::PoolFault;
use crate::settled::Settled;
use crate::share::{Share, deal, gathered};
use roster_subtreepool_spans::{Done, Piece, Span};
use std::alloc::{AllocError, Global};
use std::marker::Model;
use std::sync::ledger;
use std::sync::ledger::{Blank, Book, Ledger};

/// A pool of spans: which are pending, which worker has which, which are finished, and all that happened
/// to it. Its type keeps that the state is the replay of the events, and that the ledger's total is the
/// number of `Finish` events. Contracts see it as the state and the events.
#[derive(Drop)]
pub struct PoolState<L: Ledger> {
    board: Board,
    history: Vec<Event>,
    book: Book<L>,
}

impl<L: Ledger> Model for PoolState<L> {
    ghost use Rattle.roster_subtreepool.specs.States.{IsKept, Played};

    ghost Value = { Played };

    ghost view = { λ p. record { state = p.board; events = p.history.items } };

    ghost invariant = { λ p. IsKept (record { state = p.board; events = p.history.items }) p.book.total };
}

impl<L: Ledger> PoolState<L> {
    /// A pool with so many workers, in which the root is pending and nobody has a span; and a share for
    /// each worker. `widths` says how many lines each person has. The blank has one part for each worker;
    /// it is handed back if memory runs out.
    pub fn start(
        alloc: Global,
        widths: &[usize],
        workers: usize,
        blank: Blank,
    ) -> Result<(PoolState<L>, Vec<Share<L>>), (Blank, AllocError)>
        requires persons { 0 < length widths.now }
        requires workers { 0 < workers }
        requires name { blank.name ≡ L.name }
        requires parts { blank.parts ≡ L.parts }
        requires one_each { blank.parts ≡ workers }
        ensures state { IfOk result (λ started.
            started.0 ≡ record { state = opening widths.now workers; events = [] }) }
        ensures shares { IfOk result (λ started. started.1.items ≡ replicate workers 0) }
        ensures share_count { IfOk result (λ started. vec_len started.1 ≡ workers) }
        ensures back { IfErr result (λ refused. refused.0 ≡ blank) }
    {
        match rooms(alloc, widths, workers) {
            Ok((board, mut shares)) => {
                let (book, rest) = blank.open::<L>();
                deal(&mut shares, rest, workers);
                let history = Vec::new(alloc);
                let state = PoolState {
                    board,
                    history,
                    book,
                };
                Ok((state, shares))
            }
            Err(refused) => Err((blank, refused)),
        }
    }

    /// Ends a pool at rest, with the shares of all its workers: how much they counted is how many spans
    /// are finished. A pool that isn't at rest is handed back with the shares. It takes no memory.
    pub fn close(self, shares: Vec<Share<L>>) -> Result<Closed, (PoolState<L>, Vec<Share<L>>)>
        requires some { 0 < L.parts }
        requires all { vec_len shares ≡ L.parts }
        ensures rest { IsOk result ↔ IsAtRest self.state }
        ensures widths { IfOk result (λ closed. closed.widths ≡ self.state.widths) }
        ensures finished { IfOk result (λ closed. closed.finished ≡ self.state.finished) }
        ensures count { IfOk result (λ closed. length closed.finished ≡ sum shares.items) }
        ensures back { IfErr result (λ refused. (refused.0 ≡ self) × (refused.1.items ≡ shares.items)) }
    {
        if !self.at_rest() {
            return Err((self, shares));
        }
        Ok(self.closed(gathered(shares)))
    }

    /// Ends a pool at rest, with all that its workers counted.
    fn closed(self, all: ledger::Share<L>) -> Closed
        requires rest { IsAtRest self.state }
        requires all { all.parts ≡ L.parts }
        ensures widths { result.widths ≡ self.state.widths }
        ensures finished { result.finished ≡ self.state.finished }
        ensures count { length result.finished ≡ all.amount }
    {
        let PoolState {
            board,
            history: _,
            book,
        } = self;
        let mut book = book;
        let mut all = all;
        book.audit(&mut all);
        let (widths, finished) = board.into_parts();
        Closed { widths, finished }
    }

    /// How many workers there are.
    pub fn workers(&self) -> usize
        ensures { result ≡ length self.now.state.hands }
    {
        self.board.workers()
    }

    /// The worker's piece, made anew; none if the worker has no span, or isn't there. Only one piece with
    /// a worker's span is ever spent on it: to the others the pool answers `NotYours`.
    pub fn in_hand(&self, worker: usize) -> Result<Option<Piece>, AllocError>
        ensures { IfOk result (λ piece. piece ≡ held self.now.state worker) }
    {
        self.board.in_hand(worker)
    }

    /// Whether the worker is there and has no span.
    pub(crate) fn is_free(&self, worker: usize) -> bool
        ensures { result ≡ is_free (slice_get self.now.state.hands worker) }
    {
        self.board.is_free(worker)
    }

    /// The same span again, in the memory of the pool.
    pub(crate) fn copied(&self, span: &Span) -> Result<Span, AllocError>
        ensures { IfOk result (λ copy. copy ≡ span.now) }
    {
        self.board.copied(span)
    }

    /// How many spans are pending.
    pub fn pending(&self) -> usize
        ensures { result ≡ length self.now.state.pending }
    {
        self.board.pending()
    }

    /// Whether nothing is pending and no worker has a span.
    pub fn at_rest(&self) -> bool
        ensures { IsTrue result ↔ IsAtRest self.now.state }
    {
        self.board.at_rest()
    }

    /// What happened, in order. The state is what the replay of it gives.
    pub fn history(&self) -> &[Event]
        ensures value { result.now ≡ self.now.events }
        ensures replay { IsReplay self.now }
        ensures finishes { length self.now.state.finished ≡ finishes self.now.events }
    {
        &self.history
    }

    /// The pending span at the place, from 0, goes into the worker's hand; the later ones close up.
    pub fn take(&mut self, worker: usize, place: usize) -> Result<Piece, PoolFault>
        ensures adds { IfOk result (λ _. Adds (Event.Take worker place) self.old self.new) }
        ensures piece { IfOk result (λ piece. held self.new.state worker ≡ Some piece) }
        ensures allowed { OnOk result (take_fault self.old.state worker place ≡ None) }
        ensures same { OnErr result (self.new ≡ self.old) }
        ensures fault { IfErr result (λ fault. fault ≡ told (take_fault self.old.state worker place)) }
    {
        if !self.board.is_free(worker) {
            return Err(PoolFault::NotYours);
        }
        if place >= self.board.pending() {
            return Err(PoolFault::Nothing);
        }
        self.history.reserve(1)?;
        let piece = self.board.take(worker, place)?;
        self.history.push_reserved(Event::Take(worker, place));
        Ok(piece)
    }

    /// The worker keeps the lower half of its piece, lo to lo + (hi - lo) / 2; the upper half becomes the
    /// last pending span. The piece comes back if that is refused.
    pub fn halve(&mut self, worker: usize, piece: Piece) -> Result<Piece, (PoolFault, Piece)>
        ensures adds { IfOk result (λ _. Adds (Event.Halve worker) self.old self.new) }
        ensures piece { IfOk result (λ kept. held self.new.state worker ≡ Some kept) }
        ensures part { IfOk result (λ kept. kept ≡ lower piece) }
        ensures allowed { OnOk result (halve_fault self.old.state worker piece ≡ None) }
        ensures replay { IsReplay self.old }
        ensures same { OnErr result (self.new ≡ self.old) }
        ensures fault { IfErr result (λ refused.
            refused.0 ≡ told (halve_fault self.old.state worker piece)) }
        ensures back { IfErr result (λ refused. refused.1 ≡ piece) }
    {
        match self.halved(worker, piece.span()) {
            Ok(kept) => {
                piece.forgo();
                Ok(kept)
            }
            Err(fault) => Err((fault, piece)),
        }
    }

    /// `halve`, of the span of a piece.
    fn halved(&mut self, worker: usize, span: &Span) -> Result<Piece, PoolFault>
        ensures adds { IfOk result (λ _. Adds (Event.Halve worker) self.old self.new) }
        ensures piece { IfOk result (λ kept. held self.new.state worker ≡ Some kept) }
        ensures part { IfOk result (λ kept. kept ≡ lower span.now) }
        ensures allowed { OnOk result (halve_fault self.old.state worker span.now ≡ None) }
        ensures replay { IsReplay self.old }
        ensures same { OnErr result (self.new ≡ self.old) }
        ensures fault { IfErr result (λ fault. fault ≡ told (halve_fault self.old.state worker span.now)) }
    {
        if !self.board.is_held(worker, span) {
            return Err(PoolFault::NotYours);
        }
        if !has_halves(span) {
            return Err(PoolFault::CannotSplit);
        }
        self.history.reserve(1)?;
        let kept = self.board.halve(worker, span)?;
        self.history.push_reserved(Event::Halve(worker));
        Ok(kept)
    }

    /// The worker's piece of one line goes down to the next person: the path grows by the line, and the
    /// range is the whole of that person's lines. The piece comes back if that is refused.
    pub fn descend(&mut self, worker: usize, piece: Piece) -> Result<Piece, (PoolFault, Piece)>
        ensures adds { IfOk result (λ _. Adds (Event.Descend worker) self.old self.new) }
        ensures piece { IfOk result (λ kept. held self.new.state worker ≡ Some kept) }
        ensures part { IfOk result (λ kept. kept ≡ descended self.old.state.widths piece) }
        ensures allowed { OnOk result (descend_fault self.old.state worker piece ≡ None) }
        ensures replay { IsReplay self.old }
        ensures same { OnErr result (self.new ≡ self.old) }
        ensures fault { IfErr result (λ refused.
            refused.0 ≡ told (descend_fault self.old.state worker piece)) }
        ensures back { IfErr result (λ refused. refused.1 ≡ piece) }
    {
        match self.descended(worker, piece.span()) {
            Ok(kept) => {
                piece.forgo();
                Ok(kept)
            }
            Err(fault) => Err((fault, piece)),
        }
    }

    /// `descend`, of the span of a piece.
    fn descended(&mut self, worker: usize, span: &Span) -> Result<Piece, PoolFault>
        ensures adds { IfOk result (λ _. Adds (Event.Descend worker) self.old self.new) }
        ensures piece { IfOk result (λ kept. held self.new.state worker ≡ Some kept) }
        ensures part { IfOk result (λ kept. kept ≡ descended self.old.state.widths span.now) }
        ensures allowed { OnOk result (descend_fault self.old.state worker span.now ≡ None) }
        ensures replay { IsReplay self.old }
        ensures same { OnErr result (self.new ≡ self.old) }
        ensures fault { IfErr result (λ fault.
            fault ≡ told (descend_fault self.old.state worker span.now)) }
    {
        if !self.board.is_held(worker, span) {
            return Err(PoolFault::NotYours);
        }
        if !self.board.can_descend(span) {
            return Err(PoolFault::CannotSplit);
        }
        self.history.reserve(1)?;
        let kept = self.board.descend(worker, span)?;
        self.history.push_reserved(Event::Descend(worker));
        Ok(kept)
    }

    /// The worker's span becomes the last pending one. The piece comes back if that is refused.
    pub fn back(&mut self, worker: usize, piece: Piece) -> Result<(), (PoolFault, Piece)>
        ensures adds { OnOk result (Adds (Event.Back worker) self.old self.new) }
        ensures allowed { OnOk result (hand_fault self.old.state worker piece ≡ None) }
        ensures same { OnErr result (self.new ≡ self.old) }
        ensures fault { IfErr result (λ refused.
            refused.0 ≡ told (hand_fault self.old.state worker piece)) }
        ensures back { IfErr result (λ refused. refused.1 ≡ piece) }
    {
        match self.given_back(worker, piece.span()) {
            Ok(()) => {
                piece.forgo();
                Ok(())
            }
            Err(fault) => Err((fault, piece)),
        }
    }

    /// `back`, of the span of a piece.
    fn given_back(&mut self, worker: usize, span: &Span) -> Result<(), PoolFault>
        ensures adds { OnOk result (Adds (Event.Back worker) self.old self.new) }
        ensures allowed { OnOk result (hand_fault self.old.state worker span.now ≡ None) }
        ensures same { OnErr result (self.new ≡ self.old) }
        ensures fault { IfErr result (λ fault. fault ≡ told (hand_fault self.old.state worker span.now)) }
    {
        if !self.board.is_held(worker, span) {
            return Err(PoolFault::NotYours);
        }
        self.history.reserve(1)?;
        self.board.back(worker, span)?;
        self.history.push_reserved(Event::Back(worker));
        Ok(())
    }

    /// The worker's span is finished, and its share counts one more. What was done comes back if that
    /// is refused.
    pub fn finish(
        &mut self,
        worker: usize,
        done: Done,
        share: &mut Share<L>,
    ) -> Result<Settled, (PoolFault, Done)>
        ensures adds { OnOk result (Adds (Event.Finish worker) self.old self.new) }
        ensures counted { OnOk result (share.new ≡ share.old + 1) }
        ensures settled { IfOk result (λ settled.
            (settled.span ≡ done.piece) × (settled.best ≡ arc_value done.best)) }
        ensures allowed { OnOk result (hand_fault self.old.state worker done.piece ≡ None) }
        ensures same { OnErr result ((self.new ≡ self.old) × (share.new ≡ share.old)) }
        ensures fault { IfErr result (λ refused.
            refused.0 ≡ told (hand_fault self.old.state worker done.piece)) }
        ensures back { IfErr result (λ refused. refused.1 ≡ done) }
    {
        match self.finished(worker, done.piece.span(), share) {
            Ok(span) => {
                let Done { piece, best } = done;
                piece.forgo();
                Ok(Settled { span, best })
            }
            Err(fault) => Err((fault, done)),
        }
    }

    /// `finish`, of the span of a piece; it is given again.
    fn finished(
        &mut self,
        worker: usize,
        span: &Span,
        share: &mut Share<L>,
    ) -> Result<Span, PoolFault>
        ensures adds { OnOk result (Adds (Event.Finish worker) self.old self.new) }
        ensures counted { OnOk result (share.new ≡ share.old + 1) }
        ensures span { IfOk result (λ copy. copy ≡ span.now) }
        ensures allowed { OnOk result (hand_fault self.old.state worker span.now ≡ None) }
        ensures same { OnErr result ((self.new ≡ self.old) × (share.new ≡ share.old)) }
        ensures fault { IfErr result (λ fault. fault ≡ told (hand_fault self.old.state worker span.now)) }
    {
        if !self.board.is_held(worker, span) {
            return Err(PoolFault::NotYours);
        }
        let copy = self.copied(span)?;
        self.history.reserve(1)?;
        self.board.finish(worker, span)?;
        self.history.push_reserved(Event::Finish(worker));
        self.book.add(&mut share.token, 1);
        Ok(copy)
    }
}

/// The opening state, and room for the shares.
fn rooms<L: Ledger>(
    alloc: Global,
    widths: &[usize],
    workers: usize,
) -> Result<(Board, Vec<Share<L>>), AllocError>
    requires { 0 < length widths.now }
    ensures board { IfOk result (λ rooms. rooms.0 ≡ opening widths.now workers) }
    ensures shares { IfOk result (λ rooms.
        (rooms.1.items ≡ []) × (vec_len rooms.1 ≡ 0) × (workers ≤ vec_capacity rooms.1)) }
{
    let board = Board::opening(alloc, widths, workers)?;
    let shares = Vec::with_capacity(alloc, workers)?;
    Ok((board, shares))
}

/// Whether each half of the span has a line.
fn has_halves(span: &Span) -> bool
    ensures { result ≡ can_halve span.now }
{
    span.hi > span.lo && span.hi - span.lo >= 2
}
