//! What comes of one pairing more.

ghost use Rattle.std.specs.Prelude.{◌≡◌, ◌<◌, IfOk, length, slice_set};
ghost use Rattle.roster_desk_given.specs.Outcomes.{IsOutcome};

use crate::persons::broken_with;
use roster_cost::roster_cost;
use roster_legal_reasons::Reason;
use roster_problem::Problem;
use std::alloc::{AllocError, Global};

/// What a roster gives to a person comes to.
#[derive(Clone, Copy)]
pub enum Outcome {
    /// The person breaks a rule, or is locked by one: this breaks it first.
    Broken(Reason),
    /// The person keeps every rule, and the whole roster costs so much, in cost units.
    Costs(i64),
}

/// The places with the pairing at `p` given to person `k`, and all others as they are.
fn with_pairing(
    alloc: Global,
    problem: &Problem,
    places: &[u16],
    p: usize,
    k: usize,
) -> Result<Vec<u16>, AllocError>
    requires pairing { p < length places.now }
    requires person { k < length problem.now.persons }
    ensures { IfOk result (λ moved. moved.items ≡ slice_set places.now p k) }
{
    problem.is_sound();
    let mut moved = places.to_vec(alloc)?;
    moved[p] = k as u16;
    Ok(moved)
}

/// What the places come to for person `k`.
fn outcome_of(
    alloc: Global,
    problem: &Problem,
    places: &[u16],
    k: usize,
) -> Result<Outcome, AllocError>
    requires covers { length places.now ≡ length problem.now.pairings }
    requires person { k < length problem.now.persons }
    ensures { IfOk result (IsOutcome problem.now places.now k) }
{
    match broken_with(alloc, problem, places, k)? {
        Some(reason) => Ok(Outcome::Broken(reason)),
        None => Ok(Outcome::Costs(roster_cost(problem, places))),
    }
}

/// The places with the pairing at `p` given to person `k`, and all others as they are, and what these come
/// to for the person.
pub fn with_outcome(
    alloc: Global,
    problem: &Problem,
    places: &[u16],
    p: usize,
    k: usize,
) -> Result<(Vec<u16>, Outcome), AllocError>
    requires covers { length places.now ≡ length problem.now.pairings }
    requires pairing { p < length places.now }
    requires person { k < length problem.now.persons }
    ensures places { IfOk result (λ found. found.0.items ≡ slice_set places.now p k) }
    ensures outcome { IfOk result (λ found. IsOutcome problem.now (slice_set places.now p k) k found.1) }
{
    let moved = with_pairing(alloc, problem, places, p, k)?;
    let outcome = outcome_of(alloc, problem, moved.as_slice(), k)?;
    Ok((moved, outcome))
}
