//! A pool that several workers share.

ghost use Rattle.std.specs.Prelude.{◌≡◌, ◌<◌, ◌+◌, ◌⊎◌, ◌∷◌, ◌++◌, [], false, length, IsTrue, IfErr, IfNone};
ghost use Rattle.std.specs.Prelude.{IfOk, IfSome, None, OnErr, OnOk, Some, slice_get, true};
ghost use Rattle.std.specs.Arc.{arc_value};
ghost use Rattle.roster_subtreepool.specs.Refusals.{descend_fault, halve_fault, is_free, take_fault, told};
ghost use Rattle.roster_subtreepool.specs.States.{Adds, IsAtRest, Met, descended, held, lower};

use crate::event::Event;
use crate::fault::PoolFault;
use crate::pool_state::PoolState;
use crate::settled::Settled;
use crate::share::Share;
use roster_subtreepool_spans::{Done, Piece};
use std::sync::ledger::Ledger;
use std::sync::{Condvar, Mutex, Wait};

/// What the lock guards.
#[derive(Drop)]
struct Guarded<L: Ledger> {
    state: PoolState<L>,
    stopped: bool,
}

/// A pool behind a lock. Each call holds the lock for one event, or for none. What the lock keeps is a
/// `PoolState`, and whether the pool was stopped.
#[derive(Drop)]
pub struct Pool<L: Ledger> {
    guarded: Mutex<Guarded<L>>,
    changed: Condvar,
}

impl<L: Ledger> Guarded<L> {
    /// Whether a worker with an empty hand has nothing to take, but may have later.
    fn has_to_wait(&self, worker: usize) -> bool
        ensures free { IsTrue result → is_free (slice_get self.now.state.state.hands worker) ≡ true }
        ensures nothing { IsTrue result → length self.now.state.state.pending ≡ 0 }
        ensures later { IsTrue result → ¬ IsAtRest self.now.state.state }
        ensures goes_on { IsTrue result → self.now.stopped ≡ false }
        ensures stays { result ≡ false → (self.now.stopped ≡ true)
            ⊎ (is_free (slice_get self.now.state.state.hands worker) ≡ false)
            ⊎ (0 < length self.now.state.state.pending)
            ⊎ IsAtRest self.now.state.state }
    {
        if self.stopped || !self.state.is_free(worker) {
            return false;
        }
        if self.state.pending() > 0 {
            return false;
        }
        !self.state.at_rest()
    }

    /// The first pending span for the worker. None if the pool was stopped, or is at rest.
    fn next(&mut self, worker: usize) -> Result<Option<Piece>, PoolFault>
        ensures taken { IfOk result (λ got. IfSome got (λ piece.
            Adds (Event.Take worker 0) self.old.state self.new.state
            × (held self.new.state.state worker ≡ Some piece))) }
        ensures same { IfOk result (λ got. IfNone got (self.new.state ≡ self.old.state)) }
        ensures none { IfOk result (λ got. IfNone got ((self.old.stopped ≡ true)
            ⊎ (IsAtRest self.old.state.state
            × (is_free (slice_get self.old.state.state.hands worker) ≡ true)))) }
        ensures refused { OnErr result (self.new.state ≡ self.old.state) }
        ensures fault { IfErr result (λ fault. fault ≡ told (take_fault self.old.state.state worker 0)) }
        ensures stopped { self.new.stopped ≡ self.old.stopped }
    {
        if self.stopped {
            return Ok(None);
        }
        if self.state.is_free(worker) && self.state.at_rest() {
            return Ok(None);
        }
        let piece = self.state.take(worker, 0)?;
        Ok(Some(piece))
    }
}

impl<L: Ledger> Pool<L> {
    /// A pool in this state, which isn't stopped.
    pub fn new(state: PoolState<L>) -> Pool<L> {
        Pool {
            guarded: Mutex::new(Guarded {
                state,
                stopped: false,
            }),
            changed: Condvar::new(),
        }
    }

    /// The first pending span goes into the worker's hand. It waits while nothing is pending and some
    /// worker has a span. None if the pool is at rest, or was stopped. A worker that isn't there, or has
    /// a span, is refused at once, unless the pool was stopped.
    pub fn wait_take<R: Wait>(&self, rt: &R, worker: usize) -> Result<Option<Piece>, PoolFault>
        ensures { IfErr result (λ fault. (fault ≡ PoolFault.NotYours) ⊎ (fault ≡ PoolFault.Nothing)
            ⊎ (fault ≡ PoolFault.Memory)) }
    {
        let guard = self.guarded.lock(rt);
        let mut guard = self
            .changed
            .wait_while(rt, guard, |guarded| guarded.has_to_wait(worker));
        guard.next(worker)
    }

    /// As that of `PoolState`.
    pub fn halve<R: Wait>(
        &self,
        rt: &R,
        worker: usize,
        piece: Piece,
    ) -> Result<Piece, (PoolFault, Piece)>
        ensures part { IfOk result (λ kept. kept ≡ lower piece) }
        ensures allowed { OnOk result (Met (λ state. halve_fault state worker piece ≡ None)) }
        ensures fault { IfErr result (λ refused.
            Met (λ state. refused.0 ≡ told (halve_fault state worker piece))) }
        ensures back { IfErr result (λ refused. refused.1 ≡ piece) }
    {
        let halved = self.guarded.lock(rt).state.halve(worker, piece);
        self.changed.notify_all();
        halved
    }

    /// As that of `PoolState`. The range is the whole of the next person's lines.
    pub fn descend<R: Wait>(
        &self,
        rt: &R,
        worker: usize,
        piece: Piece,
    ) -> Result<Piece, (PoolFault, Piece)>
        ensures allowed { IfOk result (λ kept. Met (λ state.
            (descend_fault state worker piece ≡ None) × (kept ≡ descended state.widths piece))) }
        ensures fault { IfErr result (λ refused.
            Met (λ state. refused.0 ≡ told (descend_fault state worker piece))) }
        ensures back { IfErr result (λ refused. refused.1 ≡ piece) }
    {
        self.guarded.lock(rt).state.descend(worker, piece)
    }

    /// As that of `PoolState`.
    pub fn back<R: Wait>(
        &self,
        rt: &R,
        worker: usize,
        piece: Piece,
    ) -> Result<(), (PoolFault, Piece)>
        ensures fault { IfErr result (λ refused. (refused.0 ≡ PoolFault.NotYours)
            ⊎ (refused.0 ≡ PoolFault.Memory)) }
        ensures back { IfErr result (λ refused. refused.1 ≡ piece) }
    {
        let given = self.guarded.lock(rt).state.back(worker, piece);
        self.changed.notify_all();
        given
    }

    /// As that of `PoolState`. No other call raises the share, so an answer is an event in the history.
    pub fn finish<R: Wait>(
        &self,
        rt: &R,
        worker: usize,
        done: Done,
        share: &mut Share<L>,
    ) -> Result<Settled, (PoolFault, Done)>
        ensures counted { OnOk result (share.new ≡ share.old + 1) }
        ensures settled { IfOk result (λ settled.
            (settled.span ≡ done.piece) × (settled.best ≡ arc_value done.best)) }
        ensures same { OnErr result (share.new ≡ share.old) }
        ensures fault { IfErr result (λ refused. (refused.0 ≡ PoolFault.NotYours)
            ⊎ (refused.0 ≡ PoolFault.Memory)) }
        ensures back { IfErr result (λ refused. refused.1 ≡ done) }
    {
        let settled = self.guarded.lock(rt).state.finish(worker, done, share);
        self.changed.notify_all();
        settled
    }

    /// Whether nothing is pending.
    pub fn short<R: Wait>(&self, rt: &R) -> bool {
        self.guarded.lock(rt).state.pending() == 0
    }

    /// From now on `wait_take` answers None. It wakes all workers that wait.
    pub fn stop<R: Wait>(&self, rt: &R) {
        self.guarded.lock(rt).stopped = true;
        self.changed.notify_all();
    }

    /// The state, when no worker shares the pool any more. It takes no memory.
    pub fn into_state(self) -> PoolState<L> {
        let Pool {
            guarded,
            changed: _,
        } = self;
        let Guarded { state, stopped: _ } = guarded.into_inner();
        state
    }
}
