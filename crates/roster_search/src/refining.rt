//! Regions made smaller by good prices.

ghost use Rattle.std.specs.Prelude.{IfOk, IfSome};
ghost use Rattle.roster_model.specs.Settled.{IsHeld, IsWithinCost};
ghost use Rattle.roster_search_regions.specs.Prices.{ArePrices};
ghost use Rattle.roster_search_regions.specs.Regions.{IsIn, IsNarrowed, IsRegion};
ghost use Rattle.roster_search_fixing.specs.Bounds.{CostsAtMost};
ghost use Rattle.roster_search.specs.Refined.{IsFixed, IsRefined};

use crate::rising::risen;
use crate::room::room;
use crate::tuning::MOST_SOLUTIONS;
use roster_problem::Problem;
use roster_search_fixing::tighten;
use roster_search_least::roster_in;
use roster_search_prices::rounded;
use roster_search_regions::{DualPrices, Region};
use roster_search_relaxation::Relaxation;
use roster_values::Roster;
use std::alloc::{AllocError, Global};

/// What is known of a region that was made smaller.
#[derive(Drop)]
pub(crate) enum Refined {
    /// No roster costs so little.
    Nothing,
    /// A roster that costs little enough. What costs so little is in the part that is left.
    Found(Roster),
    /// What costs so little is in the part that is left.
    Part,
}

/// Leaves out of the region what costs more than it may by good prices, and rounds a roster: by those of the
/// relaxation if it has rows, and else by prices that rise. The prices, from which it begins, are then good
/// ones for what is left.
pub(crate) fn refine(
    alloc: Global,
    problem: &Problem,
    region: &mut Region,
    prices: &mut DualPrices,
    relaxation: &mut Relaxation,
    most: i64,
) -> Result<Refined, AllocError>
    requires { IsRegion problem.now region.old }
    ensures { IfOk result (IsRefined problem.now most region.old region.new) }
{
    if relaxation.is_on() {
        relaxed(alloc, problem, region, prices, relaxation, most)
    } else {
        risen(alloc, problem, region, prices, most)
    }
}

/// `refine`, by prices of a linear program.
fn relaxed(
    alloc: Global,
    problem: &Problem,
    region: &mut Region,
    prices: &mut DualPrices,
    relaxation: &mut Relaxation,
    most: i64,
) -> Result<Refined, AllocError>
    requires { IsRegion problem.now region.old }
    ensures { IfOk result (IsRefined problem.now most region.old region.new) }
{
    if !tighten(alloc, problem, region, prices.prices(), prices.paid(), most)? {
        return Ok(Refined::Nothing);
    }
    if !fix_by_solutions(alloc, problem, region, relaxation, most)? {
        return Ok(Refined::Nothing);
    }
    prices.take(relaxation.best());
    match cheap(alloc, problem, region, relaxation.prices(), most)? {
        Some(roster) => Ok(Refined::Found(roster)),
        None => Ok(Refined::Part),
    }
}

/// Leaves out of the region what costs more than it may by the prices of one solution of the program after
/// another, as long as that is worth it. If it answers no, each roster costs more.
fn fix_by_solutions(
    alloc: Global,
    problem: &Problem,
    region: &mut Region,
    relaxation: &mut Relaxation,
    most: i64,
) -> Result<bool, AllocError>
    requires { IsRegion problem.now region.old }
    ensures { IfOk result (IsFixed problem.now most region.old region.new) }
{
    relaxation.begin(alloc, problem, region, room(region, most))?;
    for _ in 0..MOST_SOLUTIONS {
        let before = left_in(problem, region);
        relaxation.solve(alloc, problem, region)?;
        relaxation.look(problem, region)?;
        if !fix_by_solution(alloc, problem, region, relaxation, most)? {
            return Ok(false);
        }
        let is_smaller = left_in(problem, region) < before;
        if !relaxation.goes_on(problem, region, is_smaller)? {
            return Ok(true);
        }
    }
    Ok(true)
}

/// Leaves out of the region what costs more than it may by the prices of the last solution, if none before
/// gave a greater bound. If it answers no, each roster costs more.
fn fix_by_solution(
    alloc: Global,
    problem: &Problem,
    region: &mut Region,
    relaxation: &Relaxation,
    most: i64,
) -> Result<bool, AllocError>
    requires { IsRegion problem.now region.old }
    ensures { IfOk result (IsFixed problem.now most region.old region.new) }
{
    if !relaxation.is_best() {
        return Ok(true);
    }
    tighten(
        alloc,
        problem,
        region,
        relaxation.prices(),
        relaxation.paid(),
        most,
    )
}

/// How much is left to decide in the region: lines, and whether pairings are open.
pub(crate) fn left_in(problem: &Problem, region: &Region) -> usize {
    let mut left: usize = 0;
    for k in 0..region.persons() {
        left = left.wrapping_add(region.width(k));
    }
    for p in 0..problem.pairings().len() {
        if !region.is_flown(p) && !region.is_left_open(p) {
            left = left.wrapping_add(1);
        }
    }
    left
}

/// A roster of the region that is rounded from the prices, if it costs at most so much.
pub(crate) fn cheap(
    alloc: Global,
    problem: &Problem,
    region: &Region,
    prices: &[i64],
    most: i64,
) -> Result<Option<Roster>, AllocError>
    requires region { IsRegion problem.now region.now }
    requires prices { ArePrices prices.now }
    ensures { IfOk result (λ roster. IfSome roster
        (IsWithinCost problem.now (IsIn problem.now region.now) most)) }
{
    let room = room(region, most);
    let Some(roster) = rounded_in(alloc, problem, region, prices, room)? else {
        return Ok(None);
    };
    if roster.cost > most {
        return Ok(None);
    }
    Ok(Some(roster))
}

/// A roster of the region that is rounded from the prices, with its cost, if one comes out.
fn rounded_in(
    alloc: Global,
    problem: &Problem,
    region: &Region,
    prices: &[i64],
    room: i64,
) -> Result<Option<Roster>, AllocError>
    requires region { IsRegion problem.now region.now }
    requires prices { ArePrices prices.now }
    ensures held { IfOk result (λ roster. IfSome roster (IsHeld problem.now)) }
    ensures inside { IfOk result (λ roster. IfSome roster
        (λ roster. IsIn problem.now region.now roster.places)) }
{
    let Some(places) = rounded(alloc, problem, region, prices, room, 0)? else {
        return Ok(None);
    };
    roster_in(alloc, problem, region, places)
}
