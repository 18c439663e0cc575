//! Who is of a base, and what is open there.

use crate::sets::is_sought;
use roster_bases::{base_of_person, is_pairing_of, persons_of};
use roster_problem::{Problem, open_number};
use std::alloc::{AllocError, Global};

/// Who is of a base that is sought.
pub(crate) fn persons_sought(
    alloc: Global,
    problem: &Problem,
    sought: &[bool],
) -> Result<Vec<usize>, AllocError> {
    let mut persons = Vec::new(alloc);
    for k in 0..problem.persons().len() {
        if is_sought(sought, base_of_person(problem, k)) {
            persons.push(k)?;
        }
    }
    Ok(persons)
}

/// All who are of the same base as person `k`.
pub(crate) fn mates_of(
    alloc: Global,
    problem: &Problem,
    k: usize,
) -> Result<Vec<usize>, AllocError> {
    match base_of(problem, k) {
        Some(base) => persons_of(alloc, problem, base),
        None => Ok(Vec::new(alloc)),
    }
}

/// The base of person `k`, if there is one.
pub(crate) fn base_of(problem: &Problem, k: usize) -> Option<usize> {
    if k >= problem.persons().len() {
        return None;
    }
    Some(base_of_person(problem, k))
}

/// Whether the pairing at place `p` is of the base.
pub(crate) fn is_of_base(problem: &Problem, p: usize, base: usize) -> bool {
    p < problem.pairings().len() && is_pairing_of(problem, p, base)
}

/// How many pairings of the base are open.
pub(crate) fn open_of(problem: &Problem, places: &[u16], base: usize) -> usize {
    let nobody = open_number(problem);
    let mut open: usize = 0;
    for (p, place) in places.iter().enumerate() {
        if *place == nobody && is_of_base(problem, p, base) {
            open = open.wrapping_add(1);
        }
    }
    open
}
