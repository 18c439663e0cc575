//! The network of a person: which pairings may follow one another, and what flight costs at the end.

ghost use Rattle.std.specs.Prelude.{◌≡◌, ◌<◌, ◌≤◌, ◌/◌, ◌*◌, ℕ, All, IfOk, IsTrue, length, slice_index};
ghost use Rattle.roster_lines.specs.Listing.{ArePairs};
ghost use Rattle.roster_plan_bound.specs.Networks.{IsNetwork};

use crate::terms::terms_of;
use roster_lines::Pairs;
use roster_problem::Problem;
use roster_values::Set;
use std::alloc::{AllocError, Global};

/// The minutes of a step of flight, if all flights are multiples of it; else a step is a minute.
const STEP: u64 = 5;

/// For a person: where a chain of pairings may begin, and for each pairing which later ones may follow it and
/// how many steps of flight it has; and what each state of flight brings at the end of a chain.
#[derive(Drop)]
pub(crate) struct Network {
    pub(crate) first: Set,
    pub(crate) followers: Vec<Set>,
    pub(crate) steps: Vec<usize>,
    pub(crate) terms: Vec<i64>,
}

/// The network of person `k`, whose pairs are known.
pub(crate) fn network_of(
    alloc: Global,
    problem: &Problem,
    k: usize,
    pairs: &Pairs,
) -> Result<Network, AllocError>
    requires person { k < length problem.now.persons }
    requires pairs { ArePairs problem.now k pairs.now }
    ensures { IfOk result (IsNetwork problem.now k) }
{
    let step = step_of(&pairs.flights);
    let terms = terms_of(alloc, problem, k, step)?;
    let steps = steps_of(alloc, &pairs.flights, step)?;
    let followers = copied(alloc, &pairs.rows)?;
    Ok(Network {
        first: pairs.alone,
        followers,
        steps,
        terms,
    })
}

/// The same sets.
fn copied(alloc: Global, sets: &[Set]) -> Result<Vec<Set>, AllocError>
    ensures { IfOk result (λ copy. copy.items ≡ sets.now) }
{
    let mut copy = Vec::new(alloc);
    copy.extend_from_slice(sets)?;
    Ok(copy)
}

/// The minutes of a step: each flight is so many steps.
fn step_of(flights: &[u64]) -> u64
    ensures some { 0 < result }
    ensures few { result ≤ STEP }
    ensures whole { All (λ flight. flight / result * result ≡ flight) flights.now }
{
    if are_multiples(flights, STEP) {
        return STEP;
    }
    one_each(flights);
    1
}

/// Each flight is as many steps as it has minutes.
fn one_each(flights: &[u64])
    ensures { All (λ flight. flight / 1 * 1 ≡ flight) flights.now }
{}

/// Whether each flight is so many steps.
fn are_multiples(flights: &[u64], step: u64) -> bool
    requires { 0 < step }
    ensures { IsTrue result → All (λ flight. flight / step * step ≡ flight) flights.now }
{
    flights
        .iter()
        .all(|flight| *flight / step * step == *flight)
}

/// The flights in steps.
fn steps_of(alloc: Global, flights: &[u64], step: u64) -> Result<Vec<usize>, AllocError>
    requires { 0 < step }
    ensures covers { IfOk result (λ steps. length steps.items ≡ length flights.now) }
    ensures each { IfOk result (λ steps. (p : ℕ) → p < length flights.now
        → slice_index steps.items p ≡ slice_index flights.now p / step) }
{
    let mut steps = Vec::new(alloc);
    for flight in flights {
        steps.push((*flight / step) as usize)?;
    }
    Ok(steps)
}
