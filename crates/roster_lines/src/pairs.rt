//! Which pairings are legal for a person alone, which of those together, and what each brings of flight.

ghost use Rattle.std.specs.Prelude.{◌≡◌, ◌<◌, IfOk, length};
ghost use Rattle.roster_lines.specs.Listing.{AreAlone, AreFlights, ArePairs, ArePartsLegal, IsRow};

use roster_cost::pairing_flight;
use roster_legal::Judge;
use roster_problem::Problem;
use roster_values::Set;
use std::alloc::{AllocError, Global};

/// For a person, the pairings that are legal alone, and for each pairing the later ones that are legal
/// with it and its minutes of flight in the month.
#[derive(Drop)]
pub struct Pairs {
    /// The pairings that are legal alone.
    pub alone: Set,
    /// For each pairing the later ones that are legal with it.
    pub rows: Vec<Set>,
    /// For each pairing its minutes of flight in the month.
    pub flights: Vec<u64>,
}

/// Judges each pairing alone, and then each two of those that are legal.
pub(crate) fn pairs_of(
    alloc: Global,
    judge: &mut Judge<'_>,
    problem: &Problem,
    k: usize,
) -> Result<Pairs, AllocError>
    requires judge { judge.old ≡ problem.now }
    requires person { k < length problem.now.persons }
    requires parts { ArePartsLegal problem.now k }
    ensures pairs { IfOk result (ArePairs problem.now k) }
    ensures judge { judge.new ≡ problem.now }
{
    let alone = alone_of(judge, problem, k)?;
    let mut rows = Vec::new(alloc);
    for p in 0..problem.pairings().len() {
        rows.push(row_of(judge, problem, k, &alone, p)?)?;
    }
    let flights = flights_of(alloc, problem, k)?;
    Ok(Pairs {
        alone,
        rows,
        flights,
    })
}

/// The flight of each pairing.
fn flights_of(alloc: Global, problem: &Problem, k: usize) -> Result<Vec<u64>, AllocError>
    requires { k < length problem.now.persons }
    ensures { IfOk result (λ flights. AreFlights problem.now k flights.items) }
{
    let mut flights = Vec::new(alloc);
    for p in 0..problem.pairings().len() {
        flights.push(pairing_flight(problem, k, p))?;
    }
    Ok(flights)
}

/// The pairings that are legal alone.
fn alone_of(judge: &mut Judge<'_>, problem: &Problem, k: usize) -> Result<Set, AllocError>
    requires judge { judge.old ≡ problem.now }
    requires person { k < length problem.now.persons }
    ensures alone { IfOk result (AreAlone problem.now k) }
    ensures judge { judge.new ≡ problem.now }
{
    let mut alone = Set::empty();
    for p in 0..problem.pairings().len() {
        let single = Set::empty().with(p)?;
        if judge.is_legal(k, &single)? {
            alone = alone.with(p)?;
        }
    }
    Ok(alone)
}

/// The pairings after the one at place `p` that are legal with it.
fn row_of(
    judge: &mut Judge<'_>,
    problem: &Problem,
    k: usize,
    alone: &Set,
    p: usize,
) -> Result<Set, AllocError>
    requires judge { judge.old ≡ problem.now }
    requires person { k < length problem.now.persons }
    requires place { p < length problem.now.pairings }
    requires parts { ArePartsLegal problem.now k }
    requires alone { AreAlone problem.now k alone.now }
    ensures row { IfOk result (IsRow problem.now k p) }
    ensures judge { judge.new ≡ problem.now }
{
    let mut row = Set::empty();
    if !alone.has(p) {
        return Ok(row);
    }
    let single = Set::empty().with(p)?;
    let mut from = p + 1;
    while let Some(q) = alone.first_from(from) {
        let pair = single.with(q)?;
        if judge.is_legal(k, &pair)? {
            row = row.with(q)?;
        }
        from = q + 1;
    }
    Ok(row)
}
