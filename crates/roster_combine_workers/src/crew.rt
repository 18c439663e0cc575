//! Workers in threads of their own.

ghost use Rattle.std.specs.Prelude.{◌≡◌, ◌<◌, ◌≤◌, All, IfOk, List, length, map};
ghost use Rattle.std.specs.Prelude.{vec_len};
ghost use Rattle.std.specs.Arc.{arc_value};
ghost use Rattle.roster_model.specs.Problem.{Problem as PlainProblem};
ghost use Rattle.roster_lines_table.specs.Entries.{Entry};
ghost use Rattle.roster_combine_workers.specs.Parts.{AreSettled, IsBestKey};

use crate::combining::{Solved, combine, solved_again};
use crate::root::widths_of;
use crate::span_search::SpanSearch;
use crate::team::Team;
use crate::working::work;
use roster_incumbent::{Gate, Incumbent};
use roster_subtreepool::{Pool, PoolState, Settled, Share};
use roster_values::Roster;
use std::alloc::{AllocError, Global};
use std::sync::ledger::{Blank, Ledger};
use std::sync::{Arc, Wait};
use std::thread::{Threads, map_vec};

/// The best roster, found by so many workers of a team, who share a new pool of all rosters; `blank` has a
/// part for each. The incumbent begins with the given roster, which may be any. The calling thread is worker
/// 0. If a thread can't be started, its worker comes last, when nothing is left to do. Each worker passes
/// the gate. If what they hand in doesn't agree with the pool, all is searched once more, and `fallbacks` is
/// 1. The only refusal is want of memory. It may wait for threads and locks.
pub fn work_together<
    L: Ledger + Send + Sync,
    R: Threads + Wait + Sync,
    F: SpanSearch + Sync,
    G: Gate + Sync,
>(
    team: &Team<'_, R, F, G>,
    best: Arc<Roster>,
    workers: usize,
    blank: Blank,
) -> Result<Solved, AllocError>
    requires persons { 0 < length team.now.problem.persons }
    requires workers { 0 < workers }
    requires name { blank.name ≡ L.name }
    requires parts { blank.parts ≡ L.parts }
    requires one_each { blank.parts ≡ workers }
    ensures best { IfOk result (λ solved. IsBestKey team.now.problem (arc_value solved.roster)) }
    ensures once { IfOk result (λ solved. solved.fallbacks ≤ 1) }
{
    let (alloc, problem, table) = (team.alloc, team.problem, team.table);
    let widths = widths_of(alloc, problem, table)?;
    let (state, shares) = match PoolState::<L>::start(alloc, &widths, workers, blank) {
        Ok(started) => started,
        Err((_, refused)) => return Err(refused),
    };
    let pool = Pool::new(state);
    let incumbent = Incumbent::new(best);
    let jobs = jobs_of(alloc, shares)?;
    let parts = work_all(team, &pool, &incumbent, jobs)?;
    let (shares, lists) = handed_in(alloc, parts)?;
    match pool.into_state().close(shares) {
        Ok(closed) => combine(alloc, problem, table, team.searcher, lists, closed),
        Err(_) => solved_again(alloc, problem, table, team.searcher),
    }
}

/// What each worker hands in, with its share; each works in a thread of its own, the last one in this one.
fn work_all<
    L: Ledger + Send + Sync,
    R: Threads + Wait + Sync,
    F: SpanSearch + Sync,
    G: Gate + Sync,
>(
    team: &Team<'_, R, F, G>,
    pool: &Pool<L>,
    incumbent: &Incumbent,
    jobs: Vec<(usize, Share<L>)>,
) -> Result<Vec<Result<(Share<L>, Vec<Settled>), AllocError>>, AllocError>
    ensures shares { IfOk result (λ parts. vec_len parts ≡ vec_len jobs) }
    ensures settled { IfOk result (λ parts.
        All (λ part. IfOk part (λ handed.
        AreSettled team.now.problem team.now.table handed.1.items)) parts.items) }
{
    let part = |job: (usize, Share<L>)| -> Result<(Share<L>, Vec<Settled>), AllocError>
        ensures { IfOk result (λ handed.
            AreSettled team.entry.now.problem team.entry.now.table handed.1.items) }
    {
        let (worker, mut share) = job;
        let list = work(team, pool, incumbent, worker, &mut share)?;
        Ok((share, list))
    };
    let parts = map_vec(team.rt, jobs, &part)?;
    Ok(parts)
}

/// A job for each worker, with its number and its share: the last worker's first, since the last job is done
/// in the calling thread.
fn jobs_of<L: Ledger>(
    alloc: Global,
    shares: Vec<Share<L>>,
) -> Result<Vec<(usize, Share<L>)>, AllocError>
    ensures { IfOk result (λ jobs. vec_len jobs ≡ vec_len shares) }
{
    let mut shares = shares;
    let mut jobs = Vec::with_capacity(alloc, shares.len())?;
    while let Some(share) = shares.pop() {
        jobs.push((shares.len(), share))?;
    }
    Ok(jobs)
}

/// The shares and the lists of all workers, worker 0's first; or that one of them met want of memory.
fn handed_in<L: Ledger>(
    alloc: Global,
    parts: Vec<Result<(Share<L>, Vec<Settled>), AllocError>>,
) -> Result<(Vec<Share<L>>, Vec<Vec<Settled>>), AllocError>
    ensures shares { IfOk result (λ all. vec_len all.0 ≡ vec_len parts) }
    ensures settled { IfOk result (λ all. (problem : PlainProblem) (table : List (List Entry))
        → All (λ part. IfOk part (λ handed. AreSettled problem table handed.1.items)) parts.items
        → All (AreSettled problem table) (map (λ list. list.items) all.1.items)) }
{
    let mut parts = parts;
    let mut shares = Vec::with_capacity(alloc, parts.len())?;
    let mut lists = Vec::with_capacity(alloc, parts.len())?;
    while let Some(part) = parts.pop() {
        let (share, list) = part?;
        shares.push(share)?;
        lists.push(list)?;
    }
    Ok((shares, lists))
}
