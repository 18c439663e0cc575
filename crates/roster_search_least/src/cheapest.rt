//! A cheapest roster of a region.

ghost use Rattle.std.specs.Prelude.{◌≤ℤ◌, ◌<ℤ◌, IfOk};
ghost use Rattle.roster_search_regions.specs.Regions.{IsIn, IsRegion};
ghost use Rattle.roster_search_least.specs.Least.{CostsAtLeast, IsCheapestBelow};

use crate::finder::{Budget, Finder};
use crate::least::RootPrices;
use crate::tuning::{MOST_GAP, STEP_GROWTH, STEPS_OF_GAP};
use roster_problem::Problem;
use roster_search_fixing::cost_above;
use roster_search_regions::Region;
use roster_values::Roster;
use std::alloc::{AllocError, Global};

/// A cheapest roster of the region if it costs less than the limit, or none, and then each of them costs
/// at least that. No roster of the region may cost less than `least`.
///
/// It asks for one that costs less than is likely, as there will be none, and goes on from there in ever
/// larger steps: a search ends soon if little more may be paid than must be. Numbers that no roster can cost
/// are left out. What costs no more than must be
/// paid is enough, and what else is found is a cheapest one.
pub(crate) fn cheapest<F: Finder>(
    alloc: Global,
    problem: &Problem,
    region: &Region,
    root: &mut RootPrices<F::Guide>,
    least: i64,
    limit: i64,
    finder: &mut F,
) -> Result<Option<Roster>, AllocError>
    requires finder { F.may_find }
    requires region { IsRegion problem.now region.now }
    requires least { CostsAtLeast problem.now (IsIn problem.now region.now) least }
    ensures cheapest { IfOk result
        (IsCheapestBelow problem.now (IsIn problem.now region.now) limit) }
    ensures goes_on { F.goes_on finder.old finder.new }
{
    let mut low = least;
    let mut wanted = root.likely.saturating_sub(1);
    let mut step: i64 = 0;
    while low < limit {
        let most = raised(low, limit, wanted);
        let budget = Budget { most, enough: low };
        match finder.find(
            alloc,
            problem,
            region.copy(alloc)?,
            &root.prices,
            &mut root.guide,
            budget,
        )? {
            Some(roster) => return Ok(Some(roster)),
            None => low = cost_above(problem, region, most),
        }
        wanted = low.saturating_add(step.max(part_of_gap(low, limit)));
        step = larger(step);
    }
    Ok(None)
}

/// The wanted number, or the nearest from the lower of two numbers to below the higher one.
fn raised(low: i64, high: i64, wanted: i64) -> i64
    requires { low <ℤ high }
    ensures above { low ≤ℤ result }
    ensures below { result <ℤ high }
{
    if wanted >= high {
        return high - 1;
    }
    if wanted < low { low } else { wanted }
}

/// The least step between two numbers: a part of what lies between them, or none if they are so far apart
/// that nothing is known of what is between.
fn part_of_gap(low: i64, high: i64) -> i64 {
    let gap = high.saturating_sub(low);
    if gap > MOST_GAP {
        0
    } else {
        gap / STEPS_OF_GAP
    }
}

/// The next step after one.
fn larger(step: i64) -> i64 {
    step.saturating_mul(STEP_GROWTH)
        .saturating_add(STEP_GROWTH - 1)
}
