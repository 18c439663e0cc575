//! Which choice of a person to settle next, by shares of a linear program.

ghost use Rattle.std.specs.Prelude.{◌<◌, length};
ghost use Rattle.roster_search_regions.specs.Regions.{IsRegion};

use crate::relaxation::Relaxation;
use crate::tuning::{
    BEST_SHARE_OF_LINES, LEAST_PART_OPEN, LEAST_SHARE, MOST_PART_OPEN, MOST_PICKS,
    MOST_SHARE_OF_LINES, SHARE_PER_DOUBLING, SHARE_PER_PERSON,
};
use roster_model::limits::MOST_PAIRINGS;
use roster_problem::Problem;
use roster_search_lp::MOST_SHARE;
use roster_search_regions::{Region, Split};
use std::alloc::{AllocError, Global};

/// A half, in thousandths.
const HALF: u32 = 500;

/// What weighs against settling what is settled in the solution: more than against anything that isn't.
const SETTLED: u32 = 1 << 31;

/// What it is best to settle next, by the last solution of the program: how many pairings are open, if it
/// leaves a part of one open, all in all; or else a pairing of which it leaves a part open; or else a person
/// and a pairing that some of the person's lines have, and some haven't; the first of both if there are none.
pub fn branch_by_shares(
    alloc: Global,
    problem: &Problem,
    region: &Region,
    relaxation: &Relaxation,
) -> Result<Split, AllocError>
    requires { IsRegion problem.now region.now }
{
    if let Some(count) = open_by_part(region, relaxation) {
        return Ok(Split::Count(count));
    }
    if let Some(p) = half_open(region, relaxation) {
        return Ok(Split::Flown(p));
    }
    let crowds = crowds(alloc, problem, region, relaxation)?;
    let mut shares = vec![in alloc; 0_u32; crowds.len()]?;
    let mut picks = Vec::new(alloc);
    for (row, k) in relaxation.persons().iter().enumerate() {
        let k = *k;
        if k < problem.persons().len() && region.width(k) > 1 {
            relaxation.put_shares(row, &mut shares);
            add_picks(region, relaxation, &shares, &crowds, row, k, &mut picks)?;
        }
    }
    picks.sort_unstable();
    Ok(relaxation.branch_at(best_of(relaxation, &picks)))
}

/// The best of the picks, the first of which has the least weight: that one, or one of the first few that
/// promises more.
fn best_of(relaxation: &Relaxation, picks: &[(u32, usize)]) -> usize {
    let Some((least, first)) = picks.first() else {
        return 0;
    };
    let mut best = *first;
    if relaxation.gains.are_worth() {
        let mut most = 0;
        for (weight, place) in picks.iter().take(MOST_PICKS) {
            let promise = relaxation
                .gains
                .promise(*place, weight.saturating_sub(*least));
            if promise > most {
                most = promise;
                best = *place;
            }
        }
    }
    best
}

/// Of how many open pairings the last solution has at least, and a part of one more, if the region leaves it
/// to be decided whether it is more.
fn open_by_part(region: &Region, relaxation: &Relaxation) -> Option<usize> {
    let open = relaxation.open_count();
    let part = open % u64::from(MOST_SHARE);
    if part <= LEAST_PART_OPEN || part >= MOST_PART_OPEN {
        return None;
    }
    let count = (open / u64::from(MOST_SHARE)).min(MOST_PAIRINGS as u64) as usize;
    let count = count.saturating_add(relaxation.never_held());
    if region.least_open() <= count && count < region.most_open() {
        return Some(count);
    }
    None
}

/// The pairing of which the last solution leaves a part open that is nearest to a half, if the region leaves
/// it to be decided.
fn half_open(region: &Region, relaxation: &Relaxation) -> Option<usize> {
    let mut best = None;
    let mut least = HALF - LEAST_SHARE;
    for p in relaxation.pairings() {
        let distance = relaxation.open_share(*p).abs_diff(HALF);
        if distance < least && !region.is_flown(*p) && !region.is_left_open(*p) {
            least = distance;
            best = Some(*p);
        }
    }
    best
}

/// How much weighs against each pairing with a row, by how many persons can have it.
fn crowds(
    alloc: Global,
    problem: &Problem,
    region: &Region,
    relaxation: &Relaxation,
) -> Result<Vec<u32>, AllocError>
    requires { IsRegion problem.now region.now }
{
    let mut crowds = vec![in alloc; 0_u32; relaxation.pairings().len()]?;
    for k in relaxation.persons() {
        if *k < problem.persons().len() {
            let possible = region.possible(*k);
            for (row, p) in relaxation.pairings().iter().enumerate() {
                if possible.has(*p) && row < crowds.len() {
                    crowds[row] = crowds[row].saturating_add(SHARE_PER_PERSON);
                }
            }
        }
    }
    Ok(crowds)
}

/// Adds those of person `k`, who has this row and of whose lines pairings have these shares: what weighs
/// against each, and its place.
fn add_picks(
    region: &Region,
    relaxation: &Relaxation,
    shares: &[u32],
    crowds: &[u32],
    row: usize,
    k: usize,
    picks: &mut Vec<(u32, usize)>,
) -> Result<(), AllocError>
    requires { k < length region.now.choices }
{
    let possible = region.possible(k);
    let certain = region.certain(k);
    let lines = doublings(region.width(k)).saturating_mul(SHARE_PER_DOUBLING);
    for (column, p) in relaxation.pairings().iter().enumerate() {
        let p = *p;
        if column >= crowds.len() || column >= shares.len() || !possible.has(p) || certain.has(p) {
            continue;
        }
        let share = shares[column];
        let weight = share
            .abs_diff(BEST_SHARE_OF_LINES)
            .saturating_add(crowds[column])
            .saturating_add(lines);
        let is_settled = share < LEAST_SHARE || share > MOST_SHARE_OF_LINES;
        let weight = weight
            .min(SETTLED - 1)
            .saturating_add(if is_settled { SETTLED } else { 0 });
        picks.push((weight, relaxation.place(row, column)))?;
    }
    Ok(())
}

/// How often one has to be doubled to come to so many, rounded down.
fn doublings(number: usize) -> u32 {
    if number == 0 { 0 } else { number.ilog2() }
}
