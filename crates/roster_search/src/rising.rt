//! Regions made smaller by prices that rise.

ghost use Rattle.std.specs.Prelude.{IfOk, IfSome};
ghost use Rattle.roster_model.specs.Settled.{IsWithinCost};
ghost use Rattle.roster_search_regions.specs.Regions.{IsIn, IsRegion};
ghost use Rattle.roster_search.specs.Refined.{IsFixed, IsRefined};

use crate::refining::{Refined, cheap};
use crate::room::room;
use crate::tuning::{FIRST_ROUNDING, MANY_LINES, NODE_STEPS};
use roster_problem::Problem;
use roster_search_fixing::tighten;
use roster_search_prices::Ascent;
use roster_search_regions::{DualPrices, Region};
use roster_values::Roster;
use std::alloc::{AllocError, Global};

/// Raises the prices step by step, leaves out of the region what costs more than it may by them, and rounds a
/// roster now and then. Then the prices are the best ones on the way.
pub(crate) fn risen(
    alloc: Global,
    problem: &Problem,
    region: &mut Region,
    prices: &mut DualPrices,
    most: i64,
) -> Result<Refined, AllocError>
    requires { IsRegion problem.now region.old }
    ensures { IfOk result (IsRefined problem.now most region.old region.new) }
{
    let mut ascent = Ascent::at_node(alloc, problem, region, prices)?;
    let refined = raised(alloc, problem, region, &mut ascent, most)?;
    *prices = ascent.into_best();
    Ok(refined)
}

/// `risen`, from one step to the next.
fn raised(
    alloc: Global,
    problem: &Problem,
    region: &mut Region,
    ascent: &mut Ascent,
    most: i64,
) -> Result<Refined, AllocError>
    requires { IsRegion problem.now region.old }
    ensures { IfOk result (IsRefined problem.now most region.old region.new) }
{
    let room = room(region, most);
    if !fix_first(alloc, problem, region, ascent, most)? {
        return Ok(Refined::Nothing);
    }
    for step in 0..NODE_STEPS {
        if !fix(alloc, problem, region, ascent, most, room)? {
            return Ok(Refined::Nothing);
        }
        if let Some(roster) = cheap_at(alloc, problem, region, ascent, most, step)? {
            return Ok(Refined::Found(roster));
        }
        soften(ascent, room, step);
        ascent.step(problem, region)?;
    }
    if !tighten(alloc, problem, region, ascent.best(), 0, most)? {
        return Ok(Refined::Nothing);
    }
    Ok(Refined::Part)
}

/// Leaves out of the region what costs more than it may by the prices, if that is worth its time. If it
/// answers no, each roster costs more.
fn fix(
    alloc: Global,
    problem: &Problem,
    region: &mut Region,
    ascent: &mut Ascent,
    most: i64,
    room: i64,
) -> Result<bool, AllocError>
    requires { IsRegion problem.now region.old }
    ensures { IfOk result (IsFixed problem.now most region.old region.new) }
{
    if ascent.is_decided() {
        return Ok(true);
    }
    if !ascent.look(alloc, problem, region, room)? {
        return Ok(true);
    }
    fix_by_prices(alloc, problem, region, ascent, most)
}

/// Leaves out of a region of many lines what costs more than it may by the prices, before they are looked
/// at: that is cheaper than a look, and often leaves little to look at. If it answers no, each roster costs
/// more.
fn fix_first(
    alloc: Global,
    problem: &Problem,
    region: &mut Region,
    ascent: &mut Ascent,
    most: i64,
) -> Result<bool, AllocError>
    requires { IsRegion problem.now region.old }
    ensures { IfOk result (IsFixed problem.now most region.old region.new) }
{
    if ascent.lines() <= MANY_LINES {
        return Ok(true);
    }
    fix_by_prices(alloc, problem, region, ascent, most)
}

/// Leaves out of the region what costs more than it may by the prices. If it answers no, each roster costs
/// more.
fn fix_by_prices(
    alloc: Global,
    problem: &Problem,
    region: &mut Region,
    ascent: &mut Ascent,
    most: i64,
) -> Result<bool, AllocError>
    requires { IsRegion problem.now region.old }
    ensures { IfOk result (IsFixed problem.now most region.old region.new) }
{
    if !tighten(alloc, problem, region, ascent.prices(), 0, most)? {
        return Ok(false);
    }
    ascent.renew(problem, region)?;
    Ok(true)
}

/// Has the prices count lines as far from the least as the gap says: from the second look on, when the gap
/// is known well, and then at most.
fn soften(ascent: &mut Ascent, room: i64, step: usize) {
    if step == 1 {
        ascent.begin_at_gap(room);
    } else {
        ascent.sharpen_to_gap(room);
    }
}

/// After some of the steps, a roster of the region that is rounded from the prices, if it costs at most
/// so much.
fn cheap_at(
    alloc: Global,
    problem: &Problem,
    region: &Region,
    ascent: &Ascent,
    most: i64,
    step: usize,
) -> Result<Option<Roster>, AllocError>
    requires { IsRegion problem.now region.now }
    ensures { IfOk result (λ roster. IfSome roster
        (IsWithinCost problem.now (IsIn problem.now region.now) most)) }
{
    if step != FIRST_ROUNDING && step != NODE_STEPS - 1 {
        return Ok(None);
    }
    cheap(alloc, problem, region, ascent.prices(), most)
}
