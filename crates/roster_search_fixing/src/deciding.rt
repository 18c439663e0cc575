//! What is left to decide in a region, and the roster if nothing is.

ghost use Rattle.std.specs.Prelude.{◌<◌, ◌↔◌, IfOk, IfSome, IsTrue, MatchOption, length};
ghost use Rattle.roster_search_regions.specs.Regions.{lines_of, IsDecided, IsIn, IsRegion, IsSplit};
ghost use Rattle.roster_search_fixing.specs.Propagation.{IsEmpty};
ghost use Rattle.roster_search_fixing.specs.Splits.{AgreesOn, IsNumberOf, IsOnlyIn};

use crate::inside::is_in;
use crate::propagate::owner;
use roster_model::limits::MOST_PAIRINGS;
use roster_problem::{Problem, open_number};
use roster_search_regions::Region;
use std::alloc::{AllocError, Global};

/// Whether some of person `k`'s lines have the pairing at place `p`, and some haven't.
pub fn is_split(region: &Region, k: usize, p: usize) -> bool
    requires { k < length region.now.choices }
    ensures { IsTrue result ↔ IsSplit region.now k p }
{
    region.width(k) > 0 && region.possible(k).has(p) && !region.certain(k).has(p)
}

/// The first pairing that some of person `k`'s lines have, and some haven't.
fn split_of(region: &Region, k: usize) -> Option<usize>
    requires { k < length region.now.choices }
    ensures { MatchOption result (AgreesOn (lines_of region.now k)) (IsSplit region.now k) }
{
    let possible = region.possible(k);
    let _certain = region.certain(k);
    let mut from = 0;
    while let Some(p) = possible.first_from(from) {
        if is_split(region, k, p) {
            return Some(p);
        }
        from = p + 1;
    }
    None
}

/// A person and a pairing that some of the person's lines have, and some haven't; none if all
/// lines of each person are the same.
pub fn pick(problem: &Problem, region: &Region) -> Option<(usize, usize)>
    requires { IsRegion problem.now region.now }
    ensures split { MatchOption result (IsDecided region.now)
        (λ pair. IsSplit region.now pair.0 pair.1) }
    ensures within { IfSome result (λ pair. (pair.0 < length problem.now.persons)
        × (pair.1 < length problem.now.pairings)) }
{
    for k in 0..problem.persons().len() {
        if let Some(p) = split_of(region, k) {
            return Some((k, p));
        }
    }
    None
}

/// The number of the pairing at place `p`: that of the first person whose lines all have it, if
/// there is one.
fn number_of(problem: &Problem, region: &Region, p: usize) -> u16
    requires region { IsRegion problem.now region.now }
    requires decided { IsDecided region.now }
    requires pairing { p < length problem.now.pairings }
    ensures { IsNumberOf problem.now region.now p result }
{
    problem.is_sound();
    match owner(problem, region, p) {
        Some(k) => k as u16,
        None => open_number(problem),
    }
}

/// The one roster of a region in which all lines of each person are the same, if there is one.
pub fn only(
    alloc: Global,
    problem: &Problem,
    region: &Region,
) -> Result<Option<Vec<u16>>, AllocError>
    requires region { IsRegion problem.now region.now }
    requires decided { IsDecided region.now }
    ensures inside { IfOk result (λ only. MatchOption only (IsEmpty problem.now region.now)
        (λ places. IsIn problem.now region.now places.items)) }
    ensures only { IfOk result (λ only. IfSome only
        (λ places. IsOnlyIn problem.now region.now places.items)) }
{
    let mut places = Vec::with_capacity(alloc, problem.pairings().len())?;
    for p in 0..problem.pairings().len() {
        places.push(number_of(problem, region, p))?;
    }
    if is_in(alloc, problem, region, &places)? {
        return Ok(Some(places));
    }
    Ok(None)
}
