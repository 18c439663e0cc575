//! A search under a written schedule.

ghost use Rattle.std.specs.Prelude.{◌≡◌, ◌<◌, ℕ, IfErr, IfOk, length};
ghost use Rattle.std.specs.Arc.{arc_value};
ghost use Rattle.roster_lines_table.specs.Person.{IsTableOf};
ghost use Rattle.roster_model.specs.Lines.{IsCrowded};
ghost use Rattle.roster_combine_workers.specs.Parts.{IsBestKey};
ghost use Rattle.roster_combine.specs.SolveFaults.{IsSolveFaultOf};

use crate::branching::Branching;
use crate::search::SolveFault;
use roster_bounds::choose_tables;
use roster_combine_workers::{Solved, replay_steps, solved_by_nobody};
use roster_lines::table_of;
use roster_lines_table::{Table, nobody_is_crowded};
use roster_model::limits::MOST_WORKERS;
use roster_problem::Problem;
use roster_values::Step;
use std::alloc::{AllocError, Global};
use std::marker::Brand;
use std::sync::ledger::Blank;

/// The best roster, found under a schedule. In one thread it does for `MOST_WORKERS` workers what the steps
/// say, one after another, on a pool of all rosters; a step that the pool refuses, or that needs a span while
/// the worker has none, changes nothing. After the last step the workers give back what they have, and
/// worker 0 searches what is left. Whatever the steps are, the roster is that of `solve`, and nothing is
/// searched again.
pub fn replay(alloc: Global, problem: &Problem, steps: &[Step]) -> Result<Solved, SolveFault>
    ensures best { IfOk result (λ solved. IsBestKey problem.now (arc_value solved.roster)) }
    ensures once { IfOk result (λ solved. solved.fallbacks ≡ 0) }
    ensures few { IfOk result (λ _. (k : ℕ)
        → k < length problem.now.persons → ¬ IsCrowded problem.now k) }
    ensures fault { IfErr result (IsSolveFaultOf problem.now) }
{
    let table = table_of(alloc, problem)?;
    nobody_is_crowded();
    Ok(replay_over(alloc, problem, &table, steps)?)
}

/// `replay`, over the table of lines.
fn replay_over(
    alloc: Global,
    problem: &Problem,
    table: &Table,
    steps: &[Step],
) -> Result<Solved, AllocError>
    requires { IsTableOf problem.now table.now }
    ensures best { IfOk result (λ solved. IsBestKey problem.now (arc_value solved.roster)) }
    ensures once { IfOk result (λ solved. solved.fallbacks ≡ 0) }
{
    if problem.persons().is_empty() {
        return solved_by_nobody(alloc, problem);
    }
    let tables = choose_tables(alloc, problem, table)?;
    replay_steps::<Brand, Branching>(
        alloc,
        problem,
        table,
        &Branching::new(alloc, problem, table, &tables),
        steps,
        Blank::new(MOST_WORKERS.into()),
    )
}
