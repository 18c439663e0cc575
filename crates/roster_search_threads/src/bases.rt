//! The least roster of all lines, each base by itself.

ghost use Rattle.std.specs.Prelude.{◌<◌, IfOk, Some, unwrap_or};
ghost use Rattle.roster_search_least.specs.Least.{IsBefore};
ghost use Rattle.roster_lines_table.specs.Person.{IsTableOf};
ghost use Rattle.roster_model.specs.Settled.{Anywhere, IsHeld, Settles};

use crate::shared::parts_by_threads;
use roster_incumbent::Gate;
use roster_lines_table::{Table, all_lines_are_some};
use roster_problem::Problem;
use roster_search::{Never, least_with};
use roster_search_least::{LineBox, whole};
use roster_values::Roster;
use std::alloc::{AllocError, Global};
use std::sync::Wait;
use std::thread::Threads;

/// The least roster of all, with its cost, if its key is before that of the known roster; so many threads
/// search the bases, each of them the next one until none is left, and then help the others. Each passes the
/// gate in the bases that it searches, as the worker of its number; no answer rests on it. It may wait for
/// threads and locks.
pub fn search_bases<R: Threads + Wait + Sync, G: Gate + Sync>(
    rt: &R,
    alloc: Global,
    problem: &Problem,
    table: &Table,
    known: &Roster,
    threads: usize,
    gate: &G,
) -> Result<Option<Roster>, AllocError>
    requires table { IsTableOf problem.now table.now }
    requires known { IsHeld problem.now known.now }
    requires threads { 0 < threads }
    ensures settled { IfOk result (λ found. Settles problem.now Anywhere Anywhere
        (Some known.now) (unwrap_or found known.now)) }
    ensures before { IfOk result (IsBefore known.now) }
{
    all_lines_are_some();
    let ranges = whole(alloc, problem, table)?;
    let lines = LineBox {
        problem,
        table,
        ranges: ranges.as_slice(),
    };
    let parts = parts_by_threads(rt, alloc, &lines, threads, gate)?;
    least_with(alloc, &lines, &parts, known, &mut Never)
}
