//! What the plan of a line may take.

ghost use Rattle.std.specs.Prelude.{◌≡◌, ◌<◌, ◌≤◌, IfSome, None};
ghost use Rattle.roster_model.specs.declared.limits.TheConstants.{MOST_WORKERS};

use roster_desk_arguments::PlanLine;
use roster_model::limits::MOST_WORKERS;
use roster_plan::Means;
use std::thread;
use std::thread::Threads;

/// How many processors there are for this run, so far as the machine says it and workers may be as many.
pub(crate) fn processors<T: Threads>(threads: &T) -> usize
    ensures some { 0 < result }
    ensures most { result ≤ MOST_WORKERS }
{
    match thread::available_parallelism(threads) {
        Ok(number) => number.get().min(MOST_WORKERS as usize),
        Err(_) => 1,
    }
}

/// What the plan may take: what the line says, and if it says nothing of workers one for each processor.
pub fn means_of(line: &PlanLine<'_>, processors: usize) -> Means
    requires { 0 < processors }
    ensures some { 0 < result.workers }
    ensures effort { result.effort ≡ line.now.effort }
    ensures workers { IfSome line.now.workers (λ workers. 0 < workers → result.workers ≡ workers) }
    ensures usual_workers { line.now.workers ≡ None → result.workers ≡ processors }
    ensures sets { IfSome line.now.sets (λ sets. result.most_sets ≡ sets) }
{
    let workers = line.workers.unwrap_or(processors).max(1);
    let usual = Means::of_effort(line.effort, workers);
    Means {
        most_sets: line.sets.unwrap_or(usual.most_sets),
        ..usual
    }
}
