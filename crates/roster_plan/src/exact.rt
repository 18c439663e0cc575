//! The best roster of a base, if its bound is near enough to what it costs.
//!
//! A roster of the base that costs at most so much more than the bound has lines of low reduced cost only. If
//! these are few they are listed, and searched whole: the least of their rosters is then the best of the
//! base, or none costs so little.

ghost use Rattle.std.specs.Prelude.{◌≡◌, ◌⊎◌, ◌<◌, ◌^◌, ◌≤ℤ◌, ◌+ℤ◌, ◌-ℤ◌, pos, IfOk, IfSome};
ghost use Rattle.roster_plan.specs.Exact.{IsExact};

use crate::means::Means;
use roster_lines::TableFault;
use roster_plan_bound::{PARTS, PricedBound};
use roster_problem::Problem;
use roster_search::{Searched, least_within};
use roster_values::Roster;
use std::alloc::{AllocError, Global};

/// The first gap, as a part of what is between the bound and the known roster.
const FIRST_PART: u32 = 16;

/// How many gaps are tried, at most. Each is about twice as wide as the one before.
const MOST_GAPS: u32 = 8;

/// What is found.
#[derive(Drop)]
pub(crate) enum Found {
    /// The best roster of the base, with its cost.
    Best(Roster),
    /// No legal roster of the base costs less than so much.
    AtLeast(i64),
}

/// The best roster of the base, if that is found, or else the greatest bound that is found on the way. A
/// known roster of it has this cost. Each search of a gap may take so much work.
pub(crate) fn close(
    alloc: Global,
    problem: &Problem,
    priced: &PricedBound<'_>,
    base: usize,
    cost: i64,
    means: &Means,
    work: u64,
) -> Result<Found, AllocError>
    requires problem { priced.now.problem ≡ problem.now }
    requires base { priced.now.base ≡ base }
    ensures { IfOk result (IsExact problem.now base) }
{
    let mut found = Found::AtLeast(priced.bound());
    let whole = gap_of(priced.bound(), cost);
    let mut gap = whole / FIRST_PART;
    for _ in 0..MOST_GAPS {
        match within(alloc, problem, priced, base, gap, means, work)? {
            Some(Found::Best(roster)) => return Ok(Found::Best(roster)),
            // Each gap is wider than the one before, so this bound is greater.
            Some(more) => found = more,
            None => break,
        }
        if gap == whole {
            break;
        }
        gap = wider(gap, whole);
    }
    Ok(found)
}

/// The best roster of the base if it costs at most so many units more than the bound, or that none does; or
/// nothing, if that takes too many lines or too long.
fn within(
    alloc: Global,
    problem: &Problem,
    priced: &PricedBound<'_>,
    base: usize,
    gap: u32,
    means: &Means,
    work: u64,
) -> Result<Option<Found>, AllocError>
    requires problem { priced.now.problem ≡ problem.now }
    requires base { priced.now.base ≡ base }
    ensures { IfOk result (λ found. IfSome found (IsExact problem.now base)) }
{
    let limit = limit_of(priced.bound(), gap);
    let most = means.lines_in_gap(problem.persons().len());
    let table = match priced.lines_within(alloc, gap, most) {
        Ok(table) => table,
        Err(TableFault::TooMany(_)) => return Ok(None),
        Err(TableFault::Memory) => return Err(AllocError),
    };
    let prices = priced.prices();
    match least_within(alloc, problem, &table, prices, PARTS as u32, limit, work)? {
        Searched::Settled(Some(roster)) => Ok(Some(Found::Best(roster))),
        Searched::Settled(None) => Ok(Some(Found::AtLeast(limit))),
        Searched::GivenUp => Ok(None),
    }
}

/// What costs at most so many units more than the bound costs less than this.
fn limit_of(bound: i64, gap: u32) -> i64
    ensures most { result ≤ℤ ((bound +ℤ pos gap) +ℤ pos 1) }
    ensures least { (((bound +ℤ pos gap) +ℤ pos 1) ≤ℤ result) ⊎ (result ≡ (pos (2 ^ 63) -ℤ pos 1)) }
{
    bound.saturating_add(i64::from(gap)).saturating_add(1)
}

/// How many units a cost is above the bound.
fn gap_of(bound: i64, cost: i64) -> u32 {
    cost.saturating_sub(bound).clamp(0, i64::from(u32::MAX)) as u32
}

/// The next gap, of at most the whole one.
fn wider(gap: u32, whole: u32) -> u32 {
    gap.saturating_mul(2).saturating_add(1).min(whole)
}
