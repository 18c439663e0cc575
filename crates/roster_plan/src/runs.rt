//! Runs of changes to a roster: each begins with it and has chances of its own, and several threads do them
//! at once.

ghost use Rattle.std.specs.Prelude.{◌<◌, IfOk};
ghost use Rattle.roster_model.specs.Settled.{IsHeld};
ghost use Rattle.roster_plan.specs.Months.{IsMonth, IsMonthFrom};
ghost use Rattle.roster_plan.specs.Runs.{AreDone, IsDone};

use crate::known::{costed, places_of};
use crate::means::{MOST_EFFORT, Means};
use crate::months::Month;
use crate::parts::open_bases;
use crate::watching::{Phase, Watcher};
use roster_plan_moves::{Chances, improved_by_changes};
use roster_problem::Problem;
use roster_values::Roster;
use std::alloc::{AllocError, Global};
use std::thread::{Threads, for_each_mut};

/// So many runs begin with the same roster. What a plan comes to depends on this number, and not on how many
/// threads share the runs.
const RUNS: u64 = 4;

/// Where the chances of the first run begin. Those of each other run begin at the next number.
const SEED: u64 = 20_240_301;

/// How many changes a run tries at effort 0. Each effort more adds as many.
const FEWEST_TRIES: u32 = 80_000;

/// A run of changes, and the places that it came to once it is done.
#[derive(Drop)]
struct Run {
    chances: Chances,
    found: Option<Result<Vec<u16>, AllocError>>,
}

/// The month with what is new of the rosters that runs of changes come to, in bases whose best roster isn't
/// known. The workers share the runs.
pub(crate) fn improved_by_runs<R: Threads + Sync, W: Watcher>(
    rt: &R,
    alloc: Global,
    problem: &Problem,
    start: Month,
    means: &Means,
    watcher: &mut W,
) -> Result<Month, AllocError>
    requires month { IsMonth problem.now start }
    requires workers { 0 < means.now.workers }
    ensures { IfOk result (IsMonthFrom problem.now start.planned.roster) }
{
    let runs = runs_of(rt, alloc, problem, &start, means)?;
    with_runs(alloc, problem, start, runs, watcher)
}

/// What the runs from a month's roster on come to, in bases whose best roster isn't known.
fn runs_of<R: Threads + Sync>(
    rt: &R,
    alloc: Global,
    problem: &Problem,
    month: &Month,
    means: &Means,
) -> Result<Vec<Run>, AllocError>
    requires held { IsHeld problem.now month.now.planned.roster }
    requires workers { 0 < means.now.workers }
    ensures { IfOk result (λ runs. AreDone problem.now runs.items) }
{
    let sought = open_bases(alloc, &month.parts)?;
    let mut runs = runs_ahead(alloc, means.effort)?;
    let before = &month.planned.roster;
    run_all(rt, alloc, problem, before, &sought, means, &mut runs);
    Ok(runs)
}

/// The month with what is new of the rosters that the runs came to.
fn with_runs<W: Watcher>(
    alloc: Global,
    problem: &Problem,
    start: Month,
    runs: Vec<Run>,
    watcher: &mut W,
) -> Result<Month, AllocError>
    requires month { IsMonth problem.now start }
    requires runs { AreDone problem.now runs.items }
    ensures { IfOk result (IsMonthFrom problem.now start.planned.roster) }
{
    let mut month = start;
    for run in runs {
        let found = roster_of(problem, run)?;
        month = month.renewed(alloc, problem, &found, Phase::Changes, watcher)?;
    }
    Ok(month)
}

/// The roster that a run came to.
fn roster_of(problem: &Problem, run: Run) -> Result<Roster, AllocError>
    requires { IsDone problem.now run }
    ensures { IfOk result (IsHeld problem.now) }
{
    let places = run.found.unwrap()?;
    Ok(costed(problem, places))
}

/// The runs, not yet done.
fn runs_ahead(alloc: Global, effort: u32) -> Result<Vec<Run>, AllocError> {
    let first = SEED.wrapping_add(RUNS.wrapping_mul(u64::from(effort)));
    let mut runs = Vec::new(alloc);
    for i in 0..RUNS {
        runs.push(Run {
            chances: Chances {
                seed: first.wrapping_add(i),
                cold: 2 * (i as u32),
            },
            found: None,
        })?;
    }
    Ok(runs)
}

/// Does the runs from the roster on in bases that are sought, shared among the workers.
fn run_all<R: Threads + Sync>(
    rt: &R,
    alloc: Global,
    problem: &Problem,
    before: &Roster,
    sought: &[bool],
    means: &Means,
    runs: &mut [Run],
)
    requires held { IsHeld problem.now before.now }
    requires workers { 0 < means.now.workers }
    ensures { AreDone problem.now runs.new }
{
    let run = |_: usize, run: &mut Run|
        requires { IsHeld problem.now before.now }
        ensures { IsDone problem.entry.now run.new }
    {
        let places = places_of(before);
        let tries = tries_of(means.effort);
        let found = improved_by_changes(alloc, problem, places, sought, tries, run.chances);
        run.found = Some(found);
    };
    for_each_mut(rt, runs, means.workers, &run);
}

/// How many changes an effort tries.
fn tries_of(effort: u32) -> u32 {
    FEWEST_TRIES * (effort.min(MOST_EFFORT) + 1)
}
