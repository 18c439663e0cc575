//! What a worker does.

ghost use Rattle.std.specs.Prelude.{◌≡◌, ◌≢◌, ◌+◌, IfOk, IfSome, MatchOption, OnErr, OnOk};
ghost use Rattle.std.specs.Prelude.{vec_len};
ghost use Rattle.std.specs.Arc.{arc_value};
ghost use Rattle.roster_model.specs.Settled.{IsHeld};
ghost use Rattle.roster_combine_workers.specs.Parts.{AreSettled, IsSettled};

use crate::root::{first_known, found};
use crate::span_search::SpanSearch;
use crate::team::Team;
use crate::watcher::Watcher;
use roster_incumbent::{Gate, Incumbent, Point};
use roster_subtreepool::{Pool, PoolFault, Settled, Share};
use roster_subtreepool_spans::{Done, Piece};
use roster_values::Roster;
use std::alloc::AllocError;
use std::marker::Model;
use std::sync::ledger::Ledger;
use std::sync::{Arc, Wait};

/// Takes spans from the pool and searches them, until the pool is at rest or was stopped. What it answers
/// are the spans that it finished, with the roster by which each is settled, in order.
///
/// Before each search it splits its span while nothing is pending for other workers, unless the searcher
/// knows that nothing comes before its last roster. It looks at the incumbent at each node of its searches,
/// and raises it to each roster that it finds. A pool that refuses its calls is stopped, and the list so far
/// is the answer. If memory runs out, the pool is stopped too, and its hand stays full. It may wait for a
/// span and for the locks.
pub fn work<R: Wait, L: Ledger, F: SpanSearch, G: Gate>(
    team: &Team<'_, R, F, G>,
    pool: &Pool<L>,
    incumbent: &Incumbent,
    worker: usize,
    share: &mut Share<L>,
) -> Result<Vec<Settled>, AllocError>
    ensures settled { IfOk result (λ list. AreSettled team.now.problem team.now.table list.items) }
    ensures counted { IfOk result (λ list. share.new ≡ share.old + vec_len list) }
{
    let worker = Worker {
        team,
        pool,
        incumbent,
        number: worker,
    };
    let done = worker.turns(share);
    if done.is_err() {
        pool.stop(team.rt);
    }
    done
}

/// A worker of a pool. Contracts see it as the problem and its table of lines.
#[derive(Drop)]
struct Worker<'a, R, L: Ledger, F: SpanSearch, G> {
    team: &'a Team<'a, R, F, G>,
    pool: &'a Pool<L>,
    incumbent: &'a Incumbent,
    number: usize,
}

impl<'a, R, L: Ledger, F: SpanSearch, G> Model for Worker<'a, R, L, F, G> {
    ghost use Rattle.roster_combine_workers.specs.Parts.{Task};

    ghost Value = { Task };

    ghost view = { λ w. w.team.now };
}

impl<'a, R: Wait, L: Ledger, F: SpanSearch, G: Gate> Worker<'a, R, L, F, G> {
    /// Its turns, until the pool has no span for it.
    fn turns(&self, share: &mut Share<L>) -> Result<Vec<Settled>, AllocError>
        ensures settled { IfOk result (λ list. AreSettled self.now.problem self.now.table list.items) }
        ensures counted { IfOk result (λ list. share.new ≡ share.old + vec_len list) }
    {
        let team = self.team;
        let mut known = first_known(team.alloc, team.problem)?;
        let mut list: Vec<Settled> = Vec::new(team.alloc);
        for _ in team.rt.forever() {
            match self.turn(&known, share)? {
                Some(settled) => {
                    known = Arc::try_clone(&settled.best)?;
                    list.push(settled)?;
                }
                None => break,
            }
        }
        Ok(list)
    }

    /// Takes a span, searches what it keeps of it and finishes that. None if the pool has none for it.
    fn turn(&self, known: &Arc<Roster>, share: &mut Share<L>) -> Result<Option<Settled>, AllocError>
        requires { IsHeld self.now.problem (arc_value known.now) }
        ensures settled { IfOk result (λ got. IfSome got (IsSettled self.now.problem self.now.table)) }
        ensures counted { IfOk result (λ got. MatchOption got (share.new ≡ share.old)
            (λ _. share.new ≡ share.old + 1)) }
    {
        let Some(piece) = self.next(known)? else {
            return Ok(None);
        };
        let team = self.team;
        team.gate.pass(self.number, Point::Ready);
        let done = self.searched(piece, known)?;
        self.finished(done, share)
    }

    /// What the worker keeps of a span from the pool.
    fn next(&self, known: &Roster) -> Result<Option<Piece>, AllocError> {
        let team = self.team;
        match self.pool.wait_take(team.rt, self.number) {
            Ok(Some(piece)) => self.shared(piece, known),
            Ok(None) => Ok(None),
            Err(fault) => {
                self.refused(fault)?;
                Ok(None)
            }
        }
    }

    /// What the worker keeps of the piece, once something is pending for others or it can't be split. It
    /// keeps all of it if nothing comes before its roster: then the search ends as soon as it begins.
    fn shared(&self, piece: Piece, known: &Roster) -> Result<Option<Piece>, AllocError> {
        let team = self.team;
        if team.searcher.none_before(known) {
            return Ok(Some(piece));
        }
        let mut piece = piece;
        for _ in team.rt.forever() {
            if !self.pool.short(team.rt) {
                break;
            }
            match self.split(piece) {
                Ok(kept) => piece = kept,
                Err((PoolFault::CannotSplit, whole)) => return Ok(Some(whole)),
                Err((fault, whole)) => {
                    whole.forgo();
                    self.refused(fault)?;
                    return Ok(None);
                }
            }
        }
        Ok(Some(piece))
    }

    /// The lower half of the piece, or of one line the lines of the next person.
    fn split(&self, piece: Piece) -> Result<Piece, (PoolFault, Piece)> {
        let team = self.team;
        match self.pool.halve(team.rt, self.number, piece) {
            Err((PoolFault::CannotSplit, line)) => self.pool.descend(team.rt, self.number, line),
            halved => halved,
        }
    }

    /// The search of the piece.
    fn searched(&self, piece: Piece, known: &Arc<Roster>) -> Result<Done, AllocError>
        requires { IsHeld self.now.problem (arc_value known.now) }
        ensures { IfOk result (λ done. IsSettled self.now.problem self.now.table
            (record { span = done.piece; best = arc_value done.best })) }
    {
        let team = self.team;
        let mut sight = Watcher {
            rt: team.rt,
            incumbent: self.incumbent,
            gate: team.gate,
            worker: self.number,
        };
        found(team.searcher.search(piece, &mut sight, 1, known))
    }

    /// Raises the incumbent to what was found, and finishes the span. None if the pool refuses that.
    fn finished(&self, done: Done, share: &mut Share<L>) -> Result<Option<Settled>, AllocError>
        requires { IsSettled self.now.problem self.now.table
            (record { span = done.piece; best = arc_value done.best }) }
        ensures settled { IfOk result (λ got. IfSome got (IsSettled self.now.problem self.now.table)) }
        ensures counted { IfOk result (λ got. MatchOption got (share.new ≡ share.old)
            (λ _. share.new ≡ share.old + 1)) }
    {
        let team = self.team;
        match Arc::try_clone(&done.best) {
            Ok(best) => self.incumbent.raise(team.rt, best),
            Err(refused) => {
                forgo(done);
                return Err(refused);
            }
        }
        match self.pool.finish(team.rt, self.number, done, share) {
            Ok(settled) => {
                team.gate.pass(self.number, Point::Finished);
                Ok(Some(settled))
            }
            Err((fault, done)) => {
                forgo(done);
                self.refused(fault)?;
                Ok(None)
            }
        }
    }

    /// Stops a pool that refused a call for another cause than memory.
    fn refused(&self, fault: PoolFault) -> Result<(), AllocError>
        ensures passed { OnOk result (fault ≢ PoolFault.Memory) }
        ensures memory { OnErr result (fault ≡ PoolFault.Memory) }
    {
        let team = self.team;
        match fault {
            PoolFault::Memory => Err(AllocError),
            PoolFault::NotYours | PoolFault::CannotSplit | PoolFault::Nothing => {
                self.pool.stop(team.rt);
                Ok(())
            }
        }
    }
}

/// Spends what was done for a run that has failed.
pub(crate) fn forgo(done: Done) {
    let Done { piece, best: _ } = done;
    piece.forgo();
}
