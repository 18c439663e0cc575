//! The best prices for the legal sets that are known: the linear program of these columns, nearly. Nothing
//! rests on them.

ghost use Rattle.std.specs.Prelude.{◌<◌};

use crate::columns::Columns;
use crate::covered::Covered;
use crate::pace::Pace;
use crate::persons::Seen;
use crate::portions::{Near, Portion, add_up, added, cover_all, portions_of};
use crate::team::Team;
use crate::tuning::{
    FINE, LEAST_NEAR, MOST_NEAR_STRIDE, NEAR_SOFTNESSES, STEPS_A_CHOICE, STEPS_A_COUNT,
};
use crate::way::{Way, advance, judge, start, sum_of_terms};
use std::alloc::{AllocError, Global};
use std::thread::{Threads, for_each_mut};

/// Prices near the given ones, by no more than the stride of the pace, at which the columns of all persons
/// cost the most, each covered pairing counting with its price, or its penalty if that is less: soft covers
/// with momentum. Those of other pairings stay. The team shares the persons; what covers and costs add up to
/// is the same for any number of threads.
pub(crate) fn ascend<R: Threads + Sync>(
    team: &Team<'_, R>,
    seen: &[Seen],
    center: &[i64],
    covered: &[Covered],
    pace: Pace,
) -> Result<Vec<i64>, AllocError>
    requires { 0 < team.now.threads }
{
    ascend_with_shares(team, seen, center, covered, pace, &mut [])
}

/// `ascend`, for which the shares of columns are counted: those of some steps in the second half are added to
/// the sums, one for each column of each person who has sums.
pub(crate) fn ascend_with_shares<R: Threads + Sync>(
    team: &Team<'_, R>,
    seen: &[Seen],
    center: &[i64],
    covered: &[Covered],
    pace: Pace,
    sums: &mut [Vec<i64>],
) -> Result<Vec<i64>, AllocError>
    requires { 0 < team.now.threads }
{
    let alloc = team.alloc;
    let center = fine_prices(alloc, center)?;
    let covered = fine_covered(alloc, covered)?;
    let stride = pace.stride.wrapping_mul(FINE);
    let mut way = start(alloc, &center, pace.softness.wrapping_mul(FINE))?;
    let mut near = Vec::new(alloc);
    let mut portions = Vec::new(alloc);
    for nth in 0..pace.steps {
        if nth % STEPS_A_CHOICE == 0 {
            near = chosen(team, seen, &way, pace)?;
            portions = portions_of(alloc, team.threads, &near, center.len())?;
        }
        if is_counted(nth, pace.steps) {
            add_shares(alloc, seen, &way, sums)?;
        }
        cover_all(team, &near, &way, &mut portions);
        step(alloc, &mut way, &portions, &center, &covered, stride)?;
    }
    in_parts(alloc, &way.best)
}

/// Whether shares are counted at this one of so many steps: at some of the second half.
fn is_counted(nth: u32, steps: u32) -> bool {
    nth >= steps / 2 && nth % STEPS_A_COUNT == 0
}

/// At how many of so many steps shares are counted.
pub(crate) fn counts_of(steps: u32) -> u32 {
    let mut counts: u32 = 0;
    for nth in 0..steps {
        if is_counted(nth, steps) {
            counts = counts.wrapping_add(1);
        }
    }
    counts
}

/// Of each person the columns that are near the least: others have no share until prices have moved far.
fn chosen<R: Threads + Sync>(
    team: &Team<'_, R>,
    seen: &[Seen],
    way: &Way,
    pace: Pace,
) -> Result<Vec<Near>, AllocError>
    requires { 0 < team.now.threads }
{
    let alloc = team.alloc;
    let within = reach_of(way.softness, pace);
    let mut near = Vec::new(alloc);
    near.resize_with(
        seen.len(),
        || Near {
            columns: Ok(Columns::new(alloc)),
        },
    )?;
    let choose = |k: usize, one: &mut Near| {
        if let Some(known) = seen.get(k) {
            one.columns = known.columns.near(alloc, &way.prices, within);
        }
    };
    for_each_mut(team.rt, &mut near, team.threads, &choose);
    Ok(near)
}

/// How far above the least a column is near: where it has a share, or gets one if prices move by a stride.
fn reach_of(softness: i64, pace: Pace) -> i64 {
    let fine = FINE.wrapping_mul(pace.dear);
    let stride = pace.stride.wrapping_mul(FINE);
    softness
        .saturating_mul(NEAR_SOFTNESSES)
        .max(LEAST_NEAR.wrapping_mul(fine))
        .saturating_add(stride.min(MOST_NEAR_STRIDE.wrapping_mul(fine)))
}

/// Adds the shares of the columns of each person who has sums.
fn add_shares(
    alloc: Global,
    seen: &[Seen],
    way: &Way,
    sums: &mut [Vec<i64>],
) -> Result<(), AllocError> {
    let mut shares = Vec::new(alloc);
    for k in 0..sums.len() {
        if k < seen.len() {
            seen[k]
                .columns
                .weigh(&mut shares, &way.prices, way.softness)?;
            add_up(&mut sums[k], &shares);
        }
    }
    Ok(())
}

/// The prices in steps that are finer than parts, as they move: rounded to parts, a small push would be none.
pub(crate) fn fine_prices(alloc: Global, prices: &[i64]) -> Result<Vec<i64>, AllocError> {
    let mut fine = Vec::new(alloc);
    for price in prices {
        fine.push(price.wrapping_mul(FINE))?;
    }
    Ok(fine)
}

/// The same for penalties.
pub(crate) fn fine_covered(alloc: Global, covered: &[Covered]) -> Result<Vec<Covered>, AllocError> {
    let mut fine = Vec::new(alloc);
    for one in covered {
        fine.push(Covered {
            place: one.place,
            penalty: one.penalty.wrapping_mul(FINE),
        })?;
    }
    Ok(fine)
}

/// Prices in parts again, each the nearest.
pub(crate) fn in_parts(alloc: Global, fine: &[i64]) -> Result<Vec<i64>, AllocError> {
    let mut prices = Vec::new(alloc);
    for price in fine {
        prices.push(price.wrapping_add(FINE / 2).div_euclid(FINE))?;
    }
    Ok(prices)
}

/// Takes the prices if what they cost is the most so far, and moves them by the covers of all portions.
fn step(
    alloc: Global,
    way: &mut Way,
    portions: &[Portion],
    center: &[i64],
    covered: &[Covered],
    stride: i64,
) -> Result<(), AllocError> {
    let mut covers = vec![in alloc; 0; center.len()]?;
    let sum = added(portions, &mut covers)?;
    let terms = sum_of_terms(&way.prices, covered);
    judge(alloc, way, sum.wrapping_add(terms))?;
    advance(way, &covers, center, covered, stride);
    Ok(())
}
