//! A search by several threads.

ghost use Rattle.std.specs.Prelude.{◌≡◌, ◌<◌, ◌≤◌, IfOk, length, unwrap_or};
ghost use Rattle.std.specs.Arc.{arc_value};
ghost use Rattle.roster_model.specs.Settled.{IsHeld};
ghost use Rattle.roster_lines_table.specs.Person.{IsTableOf};
ghost use Rattle.roster_bounds.specs.Chosen.{priced_table};
ghost use Rattle.roster_combine_workers.specs.Parts.{IsBestKey};

use crate::branching::Branching;
use roster_bounds::Tables;
use roster_combine_workers::{Gate, Solved, Team, first_known, solved_by_nobody, work_together};
use roster_lines_table::Table;
use roster_problem::Problem;
use roster_search_threads::search_bases;
use roster_values::Roster;
use std::alloc::{AllocError, Global};
use std::marker::Brand;
use std::sync::ledger::Blank;
use std::sync::{Arc, Wait};
use std::thread::Threads;

/// The best roster, found by so many workers.
pub(crate) fn solve_over<R: Threads + Wait + Sync, G: Gate + Sync>(
    rt: &R,
    alloc: Global,
    problem: &Problem,
    table: &Table,
    workers: usize,
    gate: &G,
) -> Result<Solved, AllocError>
    requires table { IsTableOf problem.now table.now }
    requires workers { 0 < workers }
    ensures best { IfOk result (λ solved. IsBestKey problem.now (arc_value solved.roster)) }
    ensures once { IfOk result (λ solved. solved.fallbacks ≤ 1) }
    ensures nobody { IfOk result (λ solved.
        length problem.now.persons ≡ 0 → solved.fallbacks ≡ 0) }
{
    if problem.persons().is_empty() {
        return solved_by_nobody(alloc, problem);
    }
    let (best, tables) = begun(rt, alloc, problem, table, workers, gate)?;
    let searcher = Branching::new(alloc, problem, table, &tables);
    let team = Team::new(rt, alloc, problem, table, &searcher, gate);
    work_together::<Brand, R, Branching, G>(&team, best, workers, Blank::new(workers as u64))
}

/// The best roster, for which so many threads search the bases, and the tables for the searches of spans,
/// which know it. Each thread passes the gate.
fn begun<'a, R: Threads + Wait + Sync, G: Gate + Sync>(
    rt: &R,
    alloc: Global,
    problem: &'a Problem,
    table: &'a Table,
    threads: usize,
    gate: &G,
) -> Result<(Arc<Roster>, Tables<'a>), AllocError>
    requires table { IsTableOf problem.now table.now }
    requires threads { 0 < threads }
    ensures tables { IfOk result (λ begun.
        begun.1 ≡ priced_table problem.now table.now begun.1.prices) }
    ensures held { IfOk result (λ begun. IsHeld problem.now (arc_value begun.0)) }
{
    let known = first_known(alloc, problem)?;
    let better = search_bases(rt, alloc, problem, table, &known, threads, gate)?;
    let best = better_or(alloc, better, known)?;
    let tables = Tables::of_best(alloc, problem, table, Arc::try_clone(&best)?)?;
    Ok((best, tables))
}

/// The better roster, if there is one, or the known one.
fn better_or(
    alloc: Global,
    better: Option<Roster>,
    known: Arc<Roster>,
) -> Result<Arc<Roster>, AllocError>
    ensures { IfOk result (λ best. arc_value best ≡ unwrap_or better (arc_value known)) }
{
    match better {
        Some(better) => Ok(Arc::new(alloc, better)?),
        None => Ok(known),
    }
}
