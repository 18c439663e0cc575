//! The least roster of all.

ghost use Rattle.std.specs.Prelude.{◌≡◌, ◌<◌, ◌≤◌, ℕ, IfErr, IfOk, length};
ghost use Rattle.std.specs.Arc.{arc_value};
ghost use Rattle.roster_model.specs.Lines.{IsCrowded};
ghost use Rattle.roster_combine_workers.specs.Parts.{IsBestKey};
ghost use Rattle.roster_combine.specs.SolveFaults.{IsSolveFaultOf};

use crate::threads::solve_over;
use roster_combine_workers::{Gate, Solved};
use roster_lines::{TableFault, all_lines};
use roster_lines_table::nobody_is_crowded;
use roster_problem::Problem;
use std::alloc::{AllocError, Global};
use std::sync::Wait;
use std::thread::Threads;
use thiserror::Error;

/// Why no roster was found.
#[derive(Debug, Drop, Error)]
pub enum SolveFault {
    /// The person at this place has more than `MOST_LINES` legal sets, and no person before has.
    #[error("person {0} has too many lines")]
    TooMany(usize),
    /// Memory ran out.
    #[error("out of memory")]
    Memory,
}

impl From<AllocError> for SolveFault {
    ghost use Rattle.roster_combine.specs.declared.search.SolveFault.TheVariants.{Memory};

    ghost from_gives = { λ _ e. e ≡ Memory };

    fn from(_: AllocError) -> SolveFault {
        SolveFault::Memory
    }
}

impl From<TableFault> for SolveFault {
    ghost use Rattle.roster_combine.specs.SolveFaults.{fault_of_table};

    ghost from_gives = { λ fault e. e ≡ fault_of_table fault };

    fn from(fault: TableFault) -> SolveFault {
        match fault {
            TableFault::TooMany(k) => SolveFault::TooMany(k),
            TableFault::Memory => SolveFault::Memory,
        }
    }
}

/// The legal roster of least cost, and among those the first in roster order; or the first person who
/// has more lines than there may be. So many workers make the lines and search, each in a thread of its
/// own, the first of them in the calling thread; a thread that can't be started is one worker fewer. Each
/// passes the gate. Neither their number nor the gate changes the roster. It may wait for threads and
/// locks.
pub fn solve<R: Threads + Wait + Sync, G: Gate + Sync>(
    rt: &R,
    alloc: Global,
    problem: &Problem,
    workers: usize,
    gate: &G,
) -> Result<Solved, SolveFault>
    requires { 0 < workers }
    ensures best { IfOk result (λ solved. IsBestKey problem.now (arc_value solved.roster)) }
    ensures once { IfOk result (λ solved. solved.fallbacks ≤ 1) }
    ensures nobody { IfOk result (λ solved.
        length problem.now.persons ≡ 0 → solved.fallbacks ≡ 0) }
    ensures few { IfOk result (λ _. (k : ℕ)
        → k < length problem.now.persons → ¬ IsCrowded problem.now k) }
    ensures fault { IfErr result (IsSolveFaultOf problem.now) }
{
    let table = all_lines(rt, alloc, problem, workers)?;
    nobody_is_crowded();
    Ok(solve_over(rt, alloc, problem, &table, workers, gate)?)
}
