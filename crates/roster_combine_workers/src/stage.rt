//! A pool in which one thread does what a schedule says.

ghost use Rattle.std.specs.Prelude.{◌≡◌, ◌≢◌, ◌+◌, ◌<◌, ◌≤◌, [], ℕ, IfErr, IfOk, IsErrAnd, None, OnErr};
ghost use Rattle.std.specs.Prelude.{OnOk, Some};
ghost use Rattle.std.specs.Prelude.{length, map, replicate, vec_capacity, vec_len};
ghost use Rattle.std.specs.Arc.{arc_value};
ghost use Rattle.roster_lines_table.specs.Person.{IsTableOf};
ghost use Rattle.roster_incumbent.specs.Kept.{less_of};
ghost use Rattle.roster_model.specs.Settled.{IsHeld};
ghost use Rattle.roster_subtreepool.specs.States.{held, step};
ghost use Rattle.roster_combine_workers.specs.Parts.{IsBestKey, IsSettled};
ghost use Rattle.roster_combine_workers.specs.Replays.{IsIdle, IsRaised};

use crate::combining::{Solved, combine, solved_again};
use crate::root::{first_known, found, widths_of};
use crate::span_search::SpanSearch;
use crate::working::forgo;
use roster_incumbent::{Sight, keep_less};
use roster_lines_table::Table;
use roster_model::limits::MOST_WORKERS;
use roster_problem::Problem;
use roster_subtreepool::{Event, PoolFault, PoolState, Settled, Share};
use roster_subtreepool_spans::{Done, Piece};
use roster_values::{Roster, Step};
use std::alloc::{AllocError, Global};
use std::marker::Model;
use std::sync::Arc;
use std::sync::ledger::{Blank, Ledger};

/// Shows the best roster so far.
#[derive(Drop)]
struct Shown<'a> {
    best: &'a Arc<Roster>,
}

impl<'a> Sight for Shown<'a> {
    fn look(&mut self) -> Option<Arc<Roster>> {
        Arc::try_clone(self.best).ok()
    }
}

/// A pool in which one thread plays all workers. Its type keeps that what they handed in is settled, and
/// that it is what the pool lists for each. Contracts see it as what is searched, and the pool's state.
#[derive(Drop)]
struct Stage<'a, L: Ledger, F: SpanSearch> {
    alloc: Global,
    problem: &'a Problem,
    table: &'a Table,
    searcher: &'a F,
    pool: PoolState<L>,
    shares: Vec<Share<L>>,
    lists: Vec<Vec<Settled>>,
    best: Arc<Roster>,
}

impl<'a, L: Ledger, F: SpanSearch> Model for Stage<'a, L, F> {
    ghost use Rattle.std.specs.Prelude.{◌≡◌, ◌<◌, length, map, vec_len};
    ghost use Rattle.std.specs.Arc.{arc_value};
    ghost use Rattle.roster_lines_table.specs.Person.{IsTableOf};
    ghost use Rattle.roster_combine_workers.specs.Replays.{IsReplaying, Replay};

    ghost Value = { Replay };

    ghost view = { λ s. record {
      task = record { problem = s.problem.now; table = s.table.now };
      state = s.pool.state;
      best = arc_value s.best;
    } };

    ghost invariant = { λ s. IsTableOf s.problem.now s.table.now
        × (F.task s.searcher.now ≡ record { problem = s.problem.now; table = s.table.now })
        × IsReplaying (record { problem = s.problem.now; table = s.table.now }) s.pool.state
        (map (λ list. list.items) s.lists.items) (arc_value s.best)
        × (vec_len s.shares ≡ L.parts)
        × (length s.lists.items ≡ L.parts)
        × (0 < L.parts) };
}

impl<'a, L: Ledger, F: SpanSearch> Stage<'a, L, F> {
    /// A new pool, in which nobody has a span.
    fn open(
        alloc: Global,
        problem: &'a Problem,
        table: &'a Table,
        searcher: &'a F,
        blank: Blank,
    ) -> Result<Stage<'a, L, F>, AllocError>
        requires table { IsTableOf problem.now table.now }
        requires searcher { F.task searcher.now ≡ record { problem = problem.now; table = table.now } }
        requires persons { 0 < length problem.now.persons }
        requires name { blank.name ≡ L.name }
        requires parts { blank.parts ≡ L.parts }
        requires workers { blank.parts ≡ MOST_WORKERS }
        ensures { IfOk result (λ stage. stage.task ≡ record { problem = problem.now; table = table.now }) }
    {
        let best = first_known(alloc, problem)?;
        let lists = no_lists(alloc, MOST_WORKERS as usize)?;
        let widths = widths_of(alloc, problem, table)?;
        match PoolState::start(alloc, &widths, MOST_WORKERS as usize, blank) {
            Ok((pool, shares)) => Ok(Stage {
                alloc,
                problem,
                table,
                searcher,
                pool,
                shares,
                lists,
                best,
            }),
            Err((_, refused)) => Err(refused),
        }
    }

    /// Takes the steps, and then ends all that is left.
    fn act_all(&mut self, steps: &[Step]) -> Result<(), AllocError>
        ensures task { self.new.task ≡ self.old.task }
        ensures idle { OnOk result (IsIdle self.new.state) }
        ensures none { OnOk result (self.new.state.pending ≡ []) }
    {
        for k in 0..steps.len() {
            self.act(steps[k])?;
        }
        self.give_all_back()?;
        self.search_pending()
    }

    /// Does a step.
    fn act(&mut self, step: Step) -> Result<(), AllocError>
        ensures { self.new.task ≡ self.old.task }
    {
        match step {
            Step::Take { worker, place } => self.take(worker, place),
            Step::Halve { worker } => self.halve(worker),
            Step::Descend { worker } => self.descend(worker),
            Step::Back { worker } => self.give_back(worker),
            Step::Search { worker, every } => self.search(worker, every),
        }
    }

    /// The worker takes a pending span.
    fn take(&mut self, worker: usize, place: usize) -> Result<(), AllocError>
        ensures { self.new.task ≡ self.old.task }
    {
        match self.pool.take(worker, place) {
            Ok(piece) => {
                piece.forgo();
                Ok(())
            }
            Err(fault) => refused(fault),
        }
    }

    /// The worker halves its span.
    fn halve(&mut self, worker: usize) -> Result<(), AllocError>
        ensures { self.new.task ≡ self.old.task }
    {
        let Some(piece) = self.pool.in_hand(worker)? else {
            return Ok(());
        };
        split(self.pool.halve(worker, piece))
    }

    /// The worker's span goes down to the next person.
    fn descend(&mut self, worker: usize) -> Result<(), AllocError>
        ensures { self.new.task ≡ self.old.task }
    {
        let Some(piece) = self.pool.in_hand(worker)? else {
            return Ok(());
        };
        split(self.pool.descend(worker, piece))
    }

    /// The worker gives its span back.
    fn give_back(&mut self, worker: usize) -> Result<(), AllocError>
        ensures task { self.new.task ≡ self.old.task }
        ensures empty { OnOk result (held self.new.state worker ≡ None) }
        ensures others { (k : ℕ) → held self.old.state k ≡ None → held self.new.state k ≡ None }
        ensures hands { length self.new.state.hands ≡ length self.old.state.hands }
    {
        let Some(piece) = self.pool.in_hand(worker)? else {
            return Ok(());
        };
        if let Err((fault, piece)) = self.pool.back(worker, piece) {
            piece.forgo();
            return refused(fault);
        }
        Ok(())
    }

    /// The worker searches its span.
    fn search(&mut self, worker: usize, every: usize) -> Result<(), AllocError>
        ensures { self.new.task ≡ self.old.task }
    {
        match self.pool.in_hand(worker)? {
            Some(piece) => self.settle(worker, piece, every),
            None => Ok(()),
        }
    }

    /// All workers give their spans back, from worker 0 on.
    fn give_all_back(&mut self) -> Result<(), AllocError>
        ensures task { self.new.task ≡ self.old.task }
        ensures idle { OnOk result (IsIdle self.new.state) }
    {
        for worker in 0..self.pool.workers() {
            self.give_back(worker)?;
        }
        Ok(())
    }

    /// Worker 0 searches all that is pending, from the first on.
    fn search_pending(&mut self) -> Result<(), AllocError>
        requires { IsIdle self.old.state }
        ensures task { self.new.task ≡ self.old.task }
        ensures idle { OnOk result (IsIdle self.new.state) }
        ensures none { OnOk result (self.new.state.pending ≡ []) }
    {
        while self.pool.pending() > 0 {
            self.search_first()?;
        }
        Ok(())
    }

    /// Worker 0 searches the first pending span.
    fn search_first(&mut self) -> Result<(), AllocError>
        requires idle { IsIdle self.old.state }
        requires some { 0 < length self.old.state.pending }
        ensures task { self.new.task ≡ self.old.task }
        ensures idle { OnOk result (IsIdle self.new.state) }
        ensures fewer { OnOk result (length self.new.state.pending + 1 ≡ length self.old.state.pending) }
    {
        match self.pool.take(0, 0) {
            Ok(piece) => self.settle(0, piece, 1),
            Err(fault) => refused(fault),
        }
    }

    /// Searches the worker's piece, raises the best roster to what was found, and then hands it in.
    fn settle(&mut self, worker: usize, piece: Piece, every: usize) -> Result<(), AllocError>
        requires { held self.old.state worker ≡ Some piece }
        ensures task { self.new.task ≡ self.old.task }
        ensures raised { OnOk result (IsRaised self.old.task piece self.old.best self.new.best) }
        ensures step { OnOk result (step self.old.state (Event.Finish worker) ≡ Some self.new.state) }
    {
        let done = self.searched(piece, every)?;
        match self.raise(&done.best) {
            Ok(()) => self.finish(worker, done),
            Err(refused) => {
                forgo(done);
                Err(refused)
            }
        }
    }

    /// The search of a piece, from the best roster so far, which is also what it is shown.
    fn searched(&self, piece: Piece, every: usize) -> Result<Done, AllocError>
        ensures piece { IfOk result (λ done. done.piece ≡ piece) }
        ensures settled { IfOk result (λ done. IsSettled self.now.task.problem self.now.task.table
            (record { span = done.piece; best = arc_value done.best })) }
    {
        let mut sight = Shown { best: &self.best };
        found(self.searcher.search(piece, &mut sight, every, &self.best))
    }

    /// The best roster so far is raised to the one that was found.
    fn raise(&mut self, found: &Arc<Roster>) -> Result<(), AllocError>
        requires { IsHeld self.old.task.problem (arc_value found.now) }
        ensures same { (self.new.task ≡ self.old.task) × (self.new.state ≡ self.old.state) }
        ensures raised { OnOk result (self.new.best ≡ less_of self.old.best (arc_value found.now)) }
    {
        let found = Arc::try_clone(found)?;
        keep_less(&mut self.best, found);
        Ok(())
    }

    /// The worker finishes its span.
    fn finish(&mut self, worker: usize, done: Done) -> Result<(), AllocError>
        requires held { held self.old.state worker ≡ Some done.piece }
        requires settled { IsSettled self.old.task.problem self.old.task.table
            (record { span = done.piece; best = arc_value done.best }) }
        ensures task { self.new.task ≡ self.old.task }
        ensures best { self.new.best ≡ self.old.best }
        ensures step { OnOk result (step self.old.state (Event.Finish worker) ≡ Some self.new.state) }
    {
        if let Err(refused) = room_for(&mut self.lists[worker]) {
            forgo(done);
            return Err(refused);
        }
        match self.pool.finish(worker, done, &mut self.shares[worker]) {
            Ok(settled) => {
                self.lists[worker].push_reserved(settled);
                Ok(())
            }
            Err((fault, done)) => {
                forgo(done);
                refused(fault)
            }
        }
    }

    /// Ends a replay in which all is finished.
    fn end(self) -> Result<Solved, AllocError>
        requires idle { IsIdle self.state }
        requires none { self.state.pending ≡ [] }
        ensures best { IfOk result (λ solved. IsBestKey self.entry.task.problem (arc_value solved.roster)) }
        ensures once { IfOk result (λ solved. solved.fallbacks ≡ 0) }
    {
        let Stage {
            alloc,
            problem,
            table,
            searcher,
            pool,
            shares,
            lists,
            best: _,
        } = self;
        let closed = match pool.close(shares) {
            Ok(closed) => closed,
            // The pool is at rest, so it closes.
            Err(_) => return solved_again(alloc, problem, table, searcher),
        };
        let solved = combine(alloc, problem, table, searcher, lists, closed)?;
        Ok(solved)
    }
}

/// The best roster, found in one thread, which does what the steps say for `MOST_WORKERS` workers on a new
/// pool of all rosters; `blank` has a part for each. After the last step they give back what they have, and
/// worker 0 searches what is left, so nothing is searched again. The only refusal is want of memory.
pub fn replay_steps<L: Ledger, F: SpanSearch>(
    alloc: Global,
    problem: &Problem,
    table: &Table,
    searcher: &F,
    steps: &[Step],
    blank: Blank,
) -> Result<Solved, AllocError>
    requires table { IsTableOf problem.now table.now }
    requires searcher { F.task searcher.now ≡ record { problem = problem.now; table = table.now } }
    requires persons { 0 < length problem.now.persons }
    requires name { blank.name ≡ L.name }
    requires parts { blank.parts ≡ L.parts }
    requires workers { blank.parts ≡ MOST_WORKERS }
    ensures best { IfOk result (λ solved. IsBestKey problem.now (arc_value solved.roster)) }
    ensures once { IfOk result (λ solved. solved.fallbacks ≡ 0) }
{
    let mut stage = Stage::<L, F>::open(alloc, problem, table, searcher, blank)?;
    stage.act_all(steps)?;
    stage.end()
}

/// An empty list for each worker.
fn no_lists(alloc: Global, workers: usize) -> Result<Vec<Vec<Settled>>, AllocError>
    ensures { IfOk result (λ lists. map (λ list. list.items) lists.items ≡ replicate workers []) }
{
    let mut lists = Vec::with_capacity(alloc, workers)?;
    for _worker in 0..workers {
        lists.push(Vec::new(alloc))?;
    }
    Ok(lists)
}

/// Makes room for one part more.
fn room_for(list: &mut Vec<Settled>) -> Result<(), AllocError>
    ensures same { list.new.items ≡ list.old.items }
    ensures room { OnOk result (vec_len list.new + 1 ≤ vec_capacity list.new) }
{
    list.reserve(1)?;
    Ok(())
}

/// What becomes of a step that splits a span: the hand keeps what it has, whether it was split or not.
fn split(split: Result<Piece, (PoolFault, Piece)>) -> Result<(), AllocError>
    ensures passed { OnOk result (IfErr split (λ refused. refused.0 ≢ PoolFault.Memory)) }
    ensures memory { OnErr result (IsErrAnd split (λ refused. refused.0 ≡ PoolFault.Memory)) }
{
    match split {
        Ok(piece) => {
            piece.forgo();
            Ok(())
        }
        Err((fault, piece)) => {
            piece.forgo();
            refused(fault)
        }
    }
}

/// What becomes of a step that the pool refuses: nothing, but for want of memory.
fn refused(fault: PoolFault) -> Result<(), AllocError>
    ensures passed { OnOk result (fault ≢ PoolFault.Memory) }
    ensures memory { OnErr result (fault ≡ PoolFault.Memory) }
{
    match fault {
        PoolFault::Memory => Err(AllocError),
        PoolFault::NotYours | PoolFault::CannotSplit | PoolFault::Nothing => Ok(()),
    }
}
