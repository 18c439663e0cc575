//! Threads that find one roster together.

ghost use Rattle.std.specs.Prelude.{◌≡◌, ◌∷◌, ◌++◌, [], IfOk, List};
ghost use Rattle.std.specs.Thread.{IsSync};
ghost use Rattle.roster_search_least.specs.Least.{IsCheapestWithin};
ghost use Rattle.roster_search_regions.specs.Regions.{IsIn, Region as PlainRegion};
ghost use Rattle.roster_search.specs.Open.{ArePartsOf};
ghost use Rattle.roster_search_threads.specs.Explored.{AreExplored};

use crate::exploring::{Lent, explore_together, or_best};
use crate::idle::{Halves, Idle};
use crate::member::MOST_TIMES;
use roster_incumbent::{Gate, Incumbent, Point};
use roster_problem::Problem;
use roster_search::{Explored, Never, explore, first_nodes, limit};
use roster_search_least::{Budget, Finder};
use roster_search_regions::{DualPrices, Region};
use roster_search_relaxation::Relaxation;
use roster_values::{Places, Roster};
use std::alloc::{AllocError, Global};
use std::sync::{Arc, Wait};
use std::thread::Threads;

/// A thread, and those that help it while they have nothing else to do.
#[derive(Drop)]
pub(crate) struct Crew<'r, R, G> {
    rt: &'r R,
    idle: &'r Idle,
    // The worker that the thread is, and the gate that it passes.
    worker: usize,
    gate: &'r G,
}

impl<'r, R: Threads + Wait + Sync, G> Crew<'r, R, G> {
    /// The calling thread, which is this worker, helped by those that have nothing to do.
    pub(crate) fn new(rt: &'r R, idle: &'r Idle, worker: usize, gate: &'r G) -> Crew<'r, R, G> {
        Crew {
            rt,
            idle,
            worker,
            gate,
        }
    }
}

impl<'r, R: Threads + Wait + Sync, G: Gate> Finder for Crew<'r, R, G> {
    type Guide = Relaxation;

    ghost may_find = { IsSync R.row };

    ghost goes_on = { λ old new. Unit };

    fn find(
        &mut self,
        alloc: Global,
        problem: &Problem,
        region: Region,
        prices: &DualPrices,
        relaxation: &mut Relaxation,
        budget: Budget,
    ) -> Result<Option<Roster>, AllocError> {
        self.gate.pass(self.worker, Point::Base);
        let nodes = first_nodes(alloc, &region, prices)?;
        let best = nothing_found(alloc)?;
        let lent = Lent {
            alloc,
            problem,
            whole: &region,
            best: &best,
            idle: self.idle,
        };
        let (rt, halves) = (self.rt, Halves::one());
        let explored = explore_together(rt, &lent, nodes, budget, relaxation, MOST_TIMES, &halves)?;
        end_alone(alloc, problem, &region, explored, budget, relaxation)
    }

    ghost stays = { λ now. tt };

    ghost follows = { λ old mid new first then. tt };
}

/// An incumbent that no search takes for a roster.
fn nothing_found(alloc: Global) -> Result<Incumbent, AllocError> {
    let nothing = Roster {
        places: Places::new(Vec::new(alloc)),
        cost: i64::MAX,
    };
    Ok(Incumbent::new(Arc::new(alloc, nothing)?))
}

/// The best roster of the region, once its search is over. If anything is left, one thread ends it.
fn end_alone(
    alloc: Global,
    problem: &Problem,
    whole: &Region,
    explored: Explored,
    budget: Budget,
    relaxation: &mut Relaxation,
) -> Result<Option<Roster>, AllocError>
    requires { ArePartsOf problem.now whole.now explored.left.items }
    ensures { IfOk result (λ found. (nodes : List PlainRegion) → nodes ≡ [] ++ whole.now ∷ []
        → AreExplored problem.now whole.now nodes budget.most explored
        → IsCheapestWithin problem.now (IsIn problem.now whole.now) budget.most budget.enough found) }
{
    let Explored { best, left } = explored;
    let Some(most) = limit(budget, &best, &left) else {
        return Ok(best);
    };
    let less = Budget { most, ..budget };
    let rest = explore(alloc, problem, whole, left, less, relaxation, &mut Never)?;
    let Explored { best, left } = or_best(rest, best);
    match limit(budget, &best, &left) {
        Some(_) => Err(AllocError),
        None => Ok(best),
    }
}
