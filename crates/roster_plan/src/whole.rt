//! Bases with few legal sets, each searched whole.

ghost use Rattle.std.specs.Prelude.{◌≡◌, ◌<◌, true, IfOk, IfSome};
ghost use Rattle.roster_lines.specs.Listing.{AreAllPairs};
ghost use Rattle.roster_model.specs.Problem.{Problem};
ghost use Rattle.roster_model.specs.Settled.{IsHeld, IsNotAfter};
ghost use Rattle.roster_model.specs.declared.limits.TheConstants.{MOST_BASES as most_bases};
ghost use Rattle.roster_bases.specs.Bases.{only};
ghost use Rattle.roster_bases.specs.Homes.{IsHome};
ghost use Rattle.roster_plan.specs.Bases.{AreWholes, IsWhole};
ghost use Rattle.roster_plan.specs.Exact.{IsExact};
ghost use Rattle.roster_plan.specs.Months.{IsMonth, IsMonthFrom};
ghost use Rattle.roster_plan.specs.Parts.{AreParts};

use crate::exact::Found;
use crate::means::Means;
use crate::months::Month;
use crate::nearby::{Nearby, search_base};
use crate::parts::{BasePlan, is_open};
use crate::watching::{Phase, Watcher};
use roster_cost::keys_are_in_order;
use roster_lines::Pairs;
use roster_model::limits::MOST_BASES;
use roster_problem::Problem;
use std::alloc::{AllocError, Global};
use std::thread::{Threads, for_each_mut};

/// A base, and its best roster, if its search ends.
#[derive(Drop)]
pub(crate) struct Whole {
    pub(crate) base: usize,
    pub(crate) found: Result<Option<Found>, AllocError>,
}

/// The month with the best roster of each base whose persons have few enough lines, if its search ends. The
/// workers share the bases.
pub(crate) fn searched<R: Threads + Sync, W: Watcher>(
    rt: &R,
    alloc: Global,
    problem: &Problem,
    pairs: &[Pairs],
    start: Month,
    means: &Means,
    watcher: &mut W,
) -> Result<Month, AllocError>
    requires pairs { AreAllPairs problem.now pairs.now }
    requires month { IsMonth problem.now start }
    requires workers { 0 < means.now.workers }
    ensures { IfOk result (IsMonthFrom problem.now start.planned.roster) }
{
    keys_are_in_order();
    let mut wholes = wholes_of(alloc, &start.parts)?;
    search_all(rt, alloc, problem, pairs, &start.parts, means, &mut wholes);
    let month = with_best(alloc, problem, start, wholes, watcher)?;
    Ok(month)
}

/// The bases whose best roster isn't known, not yet searched.
fn wholes_of(alloc: Global, parts: &[BasePlan]) -> Result<Vec<Whole>, AllocError>
    ensures { IfOk result (λ wholes. (problem : Problem) → AreWholes problem wholes.items) }
{
    let mut wholes = Vec::new(alloc);
    for base in 0..MOST_BASES {
        if is_open(parts, base) {
            wholes.push(Whole {
                base,
                found: Ok(None),
            })?;
        }
    }
    Ok(wholes)
}

/// Searches the bases, which the workers share.
fn search_all<R: Threads + Sync>(
    rt: &R,
    alloc: Global,
    problem: &Problem,
    pairs: &[Pairs],
    parts: &[BasePlan],
    means: &Means,
    wholes: &mut [Whole],
)
    requires pairs { AreAllPairs problem.now pairs.now }
    requires parts { AreParts problem.now parts.now }
    requires workers { 0 < means.now.workers }
    requires wholes { AreWholes problem.now wholes.old }
    ensures { AreWholes problem.now wholes.new }
{
    let search = |_: usize, whole: &mut Whole|
        requires { AreAllPairs problem.now pairs.now × AreParts problem.now parts.now
            × IsWhole problem.now whole.old }
        ensures { IsWhole problem.entry.now whole.new }
    {
        whole.found = best_of(alloc, problem, pairs, parts, whole.base, means);
    };
    for_each_mut(rt, wholes, means.workers, &search);
}

/// The best roster of the base, if its persons have few enough lines and the search ends.
fn best_of(
    alloc: Global,
    problem: &Problem,
    pairs: &[Pairs],
    parts: &[BasePlan],
    base: usize,
    means: &Means,
) -> Result<Option<Found>, AllocError>
    requires pairs { AreAllPairs problem.now pairs.now }
    requires parts { AreParts problem.now parts.now }
    requires base { base < most_bases }
    ensures { IfOk result (λ found. IfSome found (IsExact problem.now base)) }
{
    let known = parts[base].roster.copy(alloc)?;
    let (lines, work) = (means.lines(), means.work());
    let nearby = search_base(alloc, problem, pairs, base, known, lines, work)?;
    Ok(found_by(problem, base, nearby))
}

/// The best roster of the base, if the search that came to this has ended.
fn found_by(problem: &Problem, base: usize, nearby: Nearby) -> Option<Found>
    requires held { IsHeld problem.now nearby.roster }
    requires best { nearby.is_settled ≡ true
        → IsNotAfter problem.now (IsHome problem.now (only base)) nearby.roster }
    ensures { IfSome result (IsExact problem.now base) }
{
    if !nearby.is_settled {
        return None;
    }
    Some(Found::Best(nearby.roster))
}

/// The month with the best roster of each base for which it was found.
fn with_best<W: Watcher>(
    alloc: Global,
    problem: &Problem,
    start: Month,
    wholes: Vec<Whole>,
    watcher: &mut W,
) -> Result<Month, AllocError>
    requires month { IsMonth problem.now start }
    requires wholes { AreWholes problem.now wholes.items }
    ensures { IfOk result (IsMonthFrom problem.now start.planned.roster) }
{
    keys_are_in_order();
    let mut month = start;
    for whole in wholes {
        month = with_whole(alloc, problem, month, whole, watcher)?;
    }
    Ok(month)
}

/// The month with the best roster of one base, if it was found.
fn with_whole<W: Watcher>(
    alloc: Global,
    problem: &Problem,
    start: Month,
    whole: Whole,
    watcher: &mut W,
) -> Result<Month, AllocError>
    requires month { IsMonth problem.now start }
    requires whole { IsWhole problem.now whole }
    ensures { IfOk result (IsMonthFrom problem.now start.planned.roster) }
{
    keys_are_in_order();
    let Whole { base, found } = whole;
    match found? {
        Some(best) => start.with_found(alloc, problem, base, &best, Phase::Sets, watcher),
        None => Ok(start),
    }
}
