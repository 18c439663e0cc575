//! The pairings of a base, which are to be covered. Nothing rests on them.

use crate::parts::PARTS;
use roster_bases::is_pairing_of;
use roster_problem::Problem;
use std::alloc::{AllocError, Global};

/// A pairing that has a price, and what it costs to leave it open, in parts of a cost unit.
#[derive(Clone, Copy)]
pub(crate) struct Covered {
    pub(crate) place: usize,
    pub(crate) penalty: i64,
}

/// The pairings of the base.
pub(crate) fn covered_of(
    alloc: Global,
    problem: &Problem,
    base: usize,
) -> Result<Vec<Covered>, AllocError> {
    let mut covered = Vec::new(alloc);
    for (place, pairing) in problem.pairings().iter().enumerate() {
        if is_pairing_of(problem, place, base) {
            let penalty = i64::from(pairing.penalty).wrapping_mul(PARTS as i64);
            covered.push(Covered { place, penalty })?;
        }
    }
    Ok(covered)
}
