//! Prices on their way to those at which known columns cost the most. Nothing rests on them.

use crate::covered::Covered;
use crate::lists::amount_at;
use crate::softness::logarithm;
use crate::tuning::{FINE, LEAST_SOFTNESS, ONE, PATIENCE};
use std::alloc::{AllocError, Global};

/// Prices on their way, how fast each moves, and the best ones so far.
#[derive(Drop)]
pub(crate) struct Way {
    pub(crate) prices: Vec<i64>,
    speeds: Vec<i64>,
    pub(crate) best: Vec<i64>,
    most: i64,
    pub(crate) softness: i64,
    misses: u32,
    turns: i64,
}

/// Prices that begin at the center.
pub(crate) fn start(alloc: Global, center: &[i64], softness: i64) -> Result<Way, AllocError> {
    let speeds = vec![in alloc; 0; center.len()]?;
    Ok(Way {
        prices: copied(alloc, center)?,
        speeds,
        best: copied(alloc, center)?,
        most: i64::MIN,
        softness,
        misses: 0,
        turns: 0,
    })
}

/// Keeps the prices if they are the best so far. Else softness falls in time.
pub(crate) fn judge(alloc: Global, way: &mut Way, sum: i64) -> Result<(), AllocError> {
    if sum > way.most {
        way.most = sum;
        way.best = copied(alloc, &way.prices)?;
        way.misses = 0;
        return Ok(());
    }
    way.misses = way.misses.wrapping_add(1);
    if way.misses >= PATIENCE {
        way.misses = 0;
        way.softness = (way.softness.wrapping_mul(7) / 10).max(LEAST_SOFTNESS.wrapping_mul(FINE));
    }
    Ok(())
}

/// Moves each price by how far its cover is from one, with what is left of its speed.
pub(crate) fn advance(
    way: &mut Way,
    covers: &[i64],
    center: &[i64],
    covered: &[Covered],
    stride: i64,
) {
    if turns_back(way, covers, covered) {
        way.turns = 0;
    }
    let turns = way.turns;
    way.turns = turns.wrapping_add(1);
    for pairing in covered {
        let p = pairing.place;
        let kept = slowed(amount_at(&way.speeds, p), turns);
        let speed = kept.wrapping_add(push_of(amount_at(covers, p), way.softness));
        let near = amount_at(center, p);
        let price = amount_at(&way.prices, p)
            .wrapping_add(speed)
            .min(near.wrapping_add(stride))
            .max(near.wrapping_sub(stride))
            .min(pairing.penalty);
        put(&mut way.prices, p, price);
        put(&mut way.speeds, p, speed);
    }
}

/// Whether the prices move against what covers say.
fn turns_back(way: &Way, covers: &[i64], covered: &[Covered]) -> bool {
    let mut along: i64 = 0;
    for pairing in covered {
        let push = push_of(amount_at(covers, pairing.place), way.softness);
        let speed = amount_at(&way.speeds, pairing.place);
        along = along.wrapping_add((push / 16).wrapping_mul(speed / 16));
    }
    along < 0
}

/// What is left of a speed after so many turns in about one direction.
fn slowed(speed: i64, turns: i64) -> i64 {
    speed.wrapping_mul(turns) / turns.wrapping_add(3).max(1)
}

/// By how much a price moves for its cover.
fn push_of(cover: i64, softness: i64) -> i64 {
    0_i64.wrapping_sub(logarithm(cover).wrapping_mul(softness).wrapping_mul(3) / (10 * ONE))
}

/// Sets the number at a place of a list.
pub(crate) fn put(amounts: &mut [i64], i: usize, amount: i64) {
    if i < amounts.len() {
        amounts[i] = amount;
    }
}

/// The same numbers.
fn copied(alloc: Global, list: &[i64]) -> Result<Vec<i64>, AllocError> {
    let mut copy = Vec::new(alloc);
    copy.extend_from_slice(list)?;
    Ok(copy)
}

/// The sum of the lesser of each price and penalty.
pub(crate) fn sum_of_terms(prices: &[i64], covered: &[Covered]) -> i64 {
    let mut sum: i64 = 0;
    for pairing in covered {
        sum = sum.wrapping_add(amount_at(prices, pairing.place).min(pairing.penalty));
    }
    sum
}
