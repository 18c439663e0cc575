//! The persons and the pairings of a base.

ghost use Rattle.std.specs.Prelude.{◌≡◌, ◌<◌, IfOk, length};
ghost use Rattle.roster_bases.specs.Bases as bases;
ghost use Rattle.roster_bases.specs.Bases.{only};

use roster_problem::Problem;
use std::alloc::{AllocError, Global};

/// The base of person `k`.
pub fn base_of_person(problem: &Problem, k: usize) -> usize
    requires { k < length problem.now.persons }
    ensures { result ≡ bases.base_of_person problem.now k }
{
    problem.person(k).base
}

/// The base of the pairing at place `p`.
pub fn base_of_pairing(problem: &Problem, p: usize) -> usize
    requires { p < length problem.now.pairings }
    ensures { result ≡ bases.base_of_pairing problem.now p }
{
    problem.pairing(p).base
}

/// Whether person `k` is of the base.
pub fn is_person_of(problem: &Problem, k: usize, base: usize) -> bool
    requires { k < length problem.now.persons }
    ensures { result ≡ only base (bases.base_of_person problem.now k) }
{
    base_of_person(problem, k) == base
}

/// Whether the pairing at place `p` is of the base.
pub fn is_pairing_of(problem: &Problem, p: usize, base: usize) -> bool
    requires { p < length problem.now.pairings }
    ensures { result ≡ only base (bases.base_of_pairing problem.now p) }
{
    base_of_pairing(problem, p) == base
}

/// Whether somebody is of the base.
pub fn has_crew(problem: &Problem, base: usize) -> bool
    ensures { result ≡ bases.has_crew problem.now base }
{
    problem.persons().iter().any(|person| person.base == base)
}

/// The persons of the base, by their places, in book order.
pub fn persons_of(alloc: Global, problem: &Problem, base: usize) -> Result<Vec<usize>, AllocError>
    ensures { IfOk result (λ persons. persons.items ≡ bases.persons_of problem.now base) }
{
    let mut persons = Vec::new(alloc);
    for k in 0..problem.persons().len() {
        if is_person_of(problem, k, base) {
            persons.push(k)?;
        }
    }
    Ok(persons)
}

/// How many persons the base has.
pub fn count_of_persons(problem: &Problem, base: usize) -> usize
    ensures { result ≡ length (bases.persons_of problem.now base) }
{
    let mut count = 0;
    for k in 0..problem.persons().len() {
        if is_person_of(problem, k, base) {
            count += 1;
        }
    }
    count
}

/// How many pairings the base has.
pub fn count_of_pairings(problem: &Problem, base: usize) -> usize
    ensures { result ≡ length (bases.pairings_of problem.now base) }
{
    let mut count = 0;
    for p in 0..problem.pairings().len() {
        if is_pairing_of(problem, p, base) {
            count += 1;
        }
    }
    count
}
