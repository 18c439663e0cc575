//! Which persons and pairings of a region have rows in its linear program.

ghost use Rattle.roster_search_regions.specs.Regions.{IsRegion};

use roster_model::limits::MOST_PAIRINGS;
use roster_problem::Problem;
use roster_search_regions::{Region, scaled_penalty};
use roster_values::Set;
use std::alloc::{AllocError, Global};

/// A row that there isn't.
pub(crate) const NO_ROW: usize = usize::MAX;

/// The persons who have several lines, or one with a pairing.
pub(crate) fn persons_in(
    alloc: Global,
    problem: &Problem,
    region: &Region,
) -> Result<Vec<usize>, AllocError>
    requires { IsRegion problem.now region.now }
{
    let mut persons = Vec::new(alloc);
    for k in 0..problem.persons().len() {
        if region.width(k) > 1 || !region.possible(k).is_empty() {
            persons.push(k)?;
        }
    }
    Ok(persons)
}

/// The pairings that these persons can have.
pub(crate) fn pairings_of(
    alloc: Global,
    problem: &Problem,
    region: &Region,
    persons: &[usize],
) -> Result<Vec<usize>, AllocError>
    requires { IsRegion problem.now region.now }
{
    let mut possible = Set::empty();
    for k in persons {
        if *k < problem.persons().len() {
            possible = possible.or(&region.possible(*k));
        }
    }
    let mut pairings = Vec::new(alloc);
    for p in 0..problem.pairings().len() {
        if possible.has(p) {
            pairings.push(p)?;
        }
    }
    Ok(pairings)
}

/// What it costs to leave each of these pairings open, in parts of a cost unit.
pub(crate) fn penalties_of(
    alloc: Global,
    problem: &Problem,
    region: &Region,
    pairings: &[usize],
) -> Result<Vec<i64>, AllocError> {
    let mut penalties = Vec::new(alloc);
    for p in pairings {
        penalties.push(scaled_penalty(problem, region.scale(), *p))?;
    }
    Ok(penalties)
}

/// What it costs to leave all pairings open but some with these penalties, in parts of a cost unit.
pub(crate) fn apart_from(problem: &Problem, region: &Region, penalties: &[i64]) -> i64 {
    let mut apart: i64 = 0;
    for p in 0..problem.pairings().len() {
        apart = apart.saturating_add(scaled_penalty(problem, region.scale(), p));
    }
    for penalty in penalties {
        apart = apart.saturating_sub(*penalty);
    }
    apart
}

/// For all pairings the row among these pairings, or `NO_ROW`.
pub(crate) fn rows_of(
    alloc: Global,
    problem: &Problem,
    pairings: &[usize],
) -> Result<Vec<usize>, AllocError> {
    let mut rows = vec![in alloc; NO_ROW; problem.pairings().len()]?;
    for (row, p) in pairings.iter().enumerate() {
        if *p < rows.len() {
            rows[*p] = row;
        }
    }
    Ok(rows)
}

/// Puts the row of the pairing at place `p` into the set, if it has one.
pub(crate) fn put_row(set: &mut Set, rows: &[usize], p: usize) {
    if let Some(row) = rows.get(p) {
        if *row < MOST_PAIRINGS {
            set.put(*row);
        }
    }
}
