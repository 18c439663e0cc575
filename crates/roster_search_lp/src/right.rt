//! Right-hand sides of a linear program.

use crate::fixed::WHOLE;
use crate::tuning::{LEAST_MORE, MORE_BITS};
use roster_model::limits::MOST_PAIRINGS;
use std::alloc::{AllocError, Global};

/// What each of so many rows needs: a whole, or as many as a count if it is one of the last two, and a little
/// more, by chance and the same each time. If all needed just a whole, many bases would stand for the same
/// amounts, and pivots would go in circles.
pub(crate) fn right_sides(
    alloc: Global,
    size: usize,
    counts: [usize; 2],
) -> Result<Vec<i64>, AllocError> {
    let mut sides = Vec::with_capacity(alloc, size)?;
    let mut chance = FIRST_CHANCE;
    for row in 0..size {
        chance = next_chance(chance);
        let more = LEAST_MORE + ((chance >> (64 - MORE_BITS)) as i64);
        sides.push(match size - row {
            1 => whole_number(counts[1]).wrapping_add(more),
            // So all pairings may be open if all must be.
            2 => whole_number(counts[0]).wrapping_sub(more),
            _ => WHOLE.wrapping_add(more),
        })?;
    }
    Ok(sides)
}

/// A number of pairings, as one that may be below 0.
pub(crate) fn signed(number: usize) -> i64 {
    number.min(MOST_PAIRINGS) as i64
}

/// A number of pairings in parts of a whole.
pub(crate) fn whole_number(number: usize) -> i64 {
    signed(number).wrapping_mul(WHOLE)
}

/// Any number but 0.
const FIRST_CHANCE: u64 = 0x9e37_79b9_7f4a_7c15;

/// The next number of a fixed sequence, by shifts and sums without carry.
fn next_chance(chance: u64) -> u64 {
    let chance = chance ^ (chance << 13);
    let chance = chance ^ (chance >> 7);
    chance ^ (chance << 17)
}
