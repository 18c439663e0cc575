//! What a region is parted by, and its two sides.

ghost use Rattle.std.specs.Prelude.{◌≡◌, ◌<◌, IfOk, IsTrue, MatchOption, OnOk, length};
ghost use Rattle.roster_search_regions.specs.Regions.{size_of, IsDecided, IsNarrowed, IsRegion, IsSplit};
ghost use Rattle.roster_search_regions.specs.declared.split.Split.TheVariants.{Holder};
ghost use Rattle.roster_search.specs.Branches.{AreAlike, IsBranch, IsOnFirst, IsOtherSide};

use roster_problem::Problem;
use roster_search_fixing::{is_split, pick};
use roster_search_prices::branch;
use roster_search_regions::{Choice, Choices, DualPrices, Region, Split};
use roster_search_relaxation::{Relaxation, branch_by_shares};
use std::alloc::{AllocError, Global};

/// What to settle next, if all isn't decided.
pub(crate) fn next_branch(
    alloc: Global,
    problem: &Problem,
    region: &Region,
    prices: &DualPrices,
    relaxation: &Relaxation,
) -> Result<Option<Split>, AllocError>
    requires { IsRegion problem.now region.now }
    ensures { IfOk result (λ next. MatchOption next (IsDecided region.now)
        (IsBranch problem.now region.now)) }
{
    let wanted = likely_branch(alloc, problem, region, prices, relaxation)?;
    if is_branch(problem, region, wanted) {
        return Ok(Some(wanted));
    }
    Ok(pick(problem, region).map(|pair| Split::Holder(pair.0, pair.1)))
}

/// What it is best to settle next, as the relaxation says, if it has rows, or the prices.
fn likely_branch(
    alloc: Global,
    problem: &Problem,
    region: &Region,
    prices: &DualPrices,
    relaxation: &Relaxation,
) -> Result<Split, AllocError>
    requires { IsRegion problem.now region.now }
{
    if relaxation.is_on() {
        branch_by_shares(alloc, problem, region, relaxation)
    } else {
        branch(alloc, problem, region, prices)
    }
}

/// Whether the region can be parted so: both are left.
fn is_branch(problem: &Problem, region: &Region, branch: Split) -> bool
    requires { IsRegion problem.now region.now }
    ensures { IsTrue result → IsBranch problem.now region.now branch }
{
    match branch {
        Split::Holder(k, p) => {
            if k < problem.persons().len() && p < problem.pairings().len() {
                return is_split(region, k, p);
            }
            false
        }
        Split::Flown(p) => {
            if region.is_flown(p) || region.is_left_open(p) {
                return false;
            }
            p < problem.pairings().len()
        }
        Split::Count(count) => region.least_open() <= count && count < region.most_open(),
    }
}

/// The rosters of the region on the first side of a branch: in them the person has the pairing, the pairing
/// is flown, or at most so many are open.
pub(crate) fn first_side(
    alloc: Global,
    problem: &Problem,
    region: &Region,
    branch: Split,
) -> Result<Region, AllocError>
    requires region { IsRegion problem.now region.now }
    requires branch { IsBranch problem.now region.now branch }
    ensures narrowed { IfOk result (IsNarrowed problem.now (IsOnFirst problem.now branch) region.now) }
    ensures fewer { IfOk result (λ side. size_of side < size_of region.now) }
{
    let mut side = region.copy(alloc)?;
    match branch {
        Split::Holder(k, p) => {
            side.give(alloc, problem, k, p)?;
            Ok(side)
        }
        Split::Flown(p) => {
            side.fly(problem, p);
            Ok(side)
        }
        Split::Count(count) => {
            side.open_at_most(problem, count);
            Ok(side)
        }
    }
}

/// Leaves in the region the rosters on the other side of a branch. Of those, too, some are left out if
/// rosters on the first side cost the same: nobody has the pairing whose lines are those of the person who
/// hasn't.
pub(crate) fn keep_other_side(
    alloc: Global,
    problem: &Problem,
    region: &mut Region,
    branch: Split,
) -> Result<(), AllocError>
    requires region { IsRegion problem.now region.old }
    requires branch { IsBranch problem.now region.old branch }
    ensures other { OnOk result (IsOtherSide problem.now branch region.old region.new) }
    ensures fewer { OnOk result (size_of region.new < size_of region.old) }
{
    match branch {
        Split::Holder(k, p) => deny_alike(alloc, problem, region, k, p),
        Split::Flown(p) => {
            region.leave_open(problem, p);
            Ok(())
        }
        Split::Count(count) => {
            prove!(count < region.most_open());
            region.open_at_least(problem, count + 1);
            Ok(())
        }
    }
}

/// Person `k` hasn't the pairing at place `p`, and nobody has whose lines are those of `k`: they and `k`
/// could change lines, at the same cost.
fn deny_alike(
    alloc: Global,
    problem: &Problem,
    region: &mut Region,
    k: usize,
    p: usize,
) -> Result<(), AllocError>
    requires region { IsRegion problem.now region.old }
    requires split { IsSplit region.old k p }
    requires person { k < length problem.now.persons }
    requires pairing { p < length problem.now.pairings }
    ensures other { OnOk result (IsOtherSide problem.now (Holder k p) region.old region.new) }
    ensures fewer { OnOk result (size_of region.new < size_of region.old) }
{
    let whole = region.copy(alloc)?;
    region.deny(alloc, problem, k, p)?;
    for j in 0..problem.persons().len() {
        if are_alike(&whole, j, k) {
            region.deny(alloc, problem, j, p)?;
        }
    }
    Ok(())
}

/// Whether two persons have the same lines, which cost the same. It may say no of some who have.
fn are_alike(region: &Region, j: usize, k: usize) -> bool
    requires one { j < length region.now.choices }
    requires other { k < length region.now.choices }
    ensures scale { IsTrue result → 0 < region.now.scale }
    ensures alike { IsTrue result → AreAlike region.now j k }
{
    region.scale() > 0
        && region.width(j) == region.width(k)
        && are_same(&region.choices(j), &region.choices(k))
}

/// Whether the choices are the same.
fn are_same(mine: &Choices<'_>, theirs: &Choices<'_>) -> bool
    ensures { IsTrue result → mine.now ≡ theirs.now }
{
    if mine.len() != theirs.len() {
        return false;
    }
    for i in 0..mine.len() {
        if !is_same_choice(&mine.at(i), &theirs.at(i)) {
            return false;
        }
    }
    true
}

/// Whether two choices are the same.
fn is_same_choice(mine: &Choice, theirs: &Choice) -> bool
    ensures { IsTrue result → mine.now ≡ theirs.now }
{
    mine.extra == theirs.extra
        && mine.depth == theirs.depth
        && mine.last == theirs.last
        && mine.live == theirs.live
}
