//! The pairings that stay, and the rest.

ghost use Rattle.std.specs.Prelude.{◌≡◌, ◌++◌, IfOk, OnOk, Option, if◌then◌else◌, Some, None};
ghost use Rattle.roster_desk_repair_terms.specs.Fixed as spec;
ghost use Rattle.roster_desk_repair_terms.specs.Fixed.{staying};
ghost use Rattle.roster_desk_repair_judged.specs.Terms as asked;

use crate::terms::{Terms, minutes, reports_before};
use roster_problem::Problem;
use std::alloc::{AllocError, Global};

/// What is fixed at the pairing at place `p`, which has the number.
fn fixed_at(problem: &Problem, from: u64, p: usize, number: u16) -> Option<u16>
    ensures { result ≡ (if spec.reports_before problem.now.duties from p then Some number else None) }
{
    if reports_before(problem, from, p) {
        Some(number)
    } else {
        None
    }
}

/// For each pairing in book order the number that it keeps, or none if it is rostered anew: those stay that
/// report before the repair begins.
pub fn fixed_of(
    alloc: Global,
    problem: &Problem,
    terms: &Terms,
    published: &[u16],
) -> Result<Vec<Option<u16>>, AllocError>
    ensures { IfOk result (λ fixed. fixed.items ≡ asked.fixed_of problem.now terms.now published.now) }
{
    let from = minutes(terms.from);
    let mut fixed = Vec::new(alloc);
    for p in 0..published.len() {
        fixed.push(fixed_at(problem, from, p, published[p]))?;
    }
    Ok(fixed)
}

/// Puts the numbers of the pairings that are rostered anew behind the others.
fn push_rest(out: &mut Vec<u16>, fixed: &[Option<u16>], places: &[u16]) -> Result<(), AllocError>
    ensures { OnOk result (out.new.items ≡ out.old.items ++ staying fixed.now places.now) }
{
    match fixed.split_first() {
        None => Ok(()),
        Some((first, later)) => match places.split_first() {
            None => Ok(()),
            Some((number, rest)) => {
                if first.is_none() {
                    out.push(*number)?;
                }
                push_rest(out, later, rest)
            }
        },
    }
}

/// The numbers of the pairings that are rostered anew.
pub fn rest_of(alloc: Global, fixed: &[Option<u16>], places: &[u16]) -> Result<Vec<u16>, AllocError>
    ensures { IfOk result (λ rest. rest.items ≡ staying fixed.now places.now) }
{
    let mut out = Vec::new(alloc);
    push_rest(&mut out, fixed, places)?;
    Ok(out)
}
