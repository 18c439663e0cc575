//! One roster of a region that costs no more than it may.

ghost use Rattle.std.specs.Prelude.{IfOk};
ghost use Rattle.roster_search_least.specs.Least.{IsCheapestWithin};
ghost use Rattle.roster_search_regions.specs.Regions.{IsIn, IsRegion};

use crate::exploring::{Explored, explore, first_nodes, limit};
use crate::stop::{Never, Stop};
use roster_problem::Problem;
use roster_search_least::{Budget, Finder};
use roster_search_regions::{DualPrices, Region};
use roster_search_relaxation::Relaxation;
use roster_values::Roster;
use std::alloc::{AllocError, Global};

/// A roster of the region that costs at most so much, with its cost: a cheapest one, or one that costs no
/// more than is enough; or none, and then each of them costs more. It fails if memory runs out, or if the
/// stop ends it before that is known.
///
/// It is a branch and bound, depth first.
pub fn find<S: Stop>(
    alloc: Global,
    problem: &Problem,
    region: Region,
    prices: &DualPrices,
    relaxation: &mut Relaxation,
    budget: Budget,
    stop: &mut S,
) -> Result<Option<Roster>, AllocError>
    requires region { IsRegion problem.now region }
    ensures found { IfOk result
        (IsCheapestWithin problem.now (IsIn problem.now region) budget.most budget.enough) }
    ensures goes_on { S.goes_on stop.old stop.new }
{
    let nodes = first_nodes(alloc, &region, prices)?;
    let Explored { best, left } = explore(
        alloc, problem, &region, nodes, budget, relaxation, stop,
    )?;
    match limit(budget, &best, &left) {
        Some(_) => Err(AllocError),
        None => Ok(best),
    }
}

impl Finder for Never {
    type Guide = Relaxation;

    ghost may_find = { Unit };

    ghost goes_on = { λ old new. Unit };

    fn find(
        &mut self,
        alloc: Global,
        problem: &Problem,
        region: Region,
        prices: &DualPrices,
        relaxation: &mut Relaxation,
        budget: Budget,
    ) -> Result<Option<Roster>, AllocError> {
        find(alloc, problem, region, prices, relaxation, budget, self)
    }

    ghost stays = { λ now. tt };

    ghost follows = { λ old mid new first then. tt };
}
