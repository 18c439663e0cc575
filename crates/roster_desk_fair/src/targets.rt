//! What there is to fly at a base, and each person's share of it.

ghost use Rattle.std.specs.Prelude.{◌≡◌, ◌<◌, IfErr, IfOk, IfSome, length, map, slice_get, unwrap_or};
ghost use Rattle.std.specs.List.{range_with_len};
ghost use Rattle.roster_desk_fair.specs.Fair as spec;
ghost use Rattle.roster_desk_made.specs.Made.{TellsFault};

use crate::shares::{push, shares};
use roster_cost::{fixed_flight, pairing_flight};
use roster_desk_made::Unmade;
use roster_problem::{Person, Problem};
use std::alloc::{AllocError, Global};

/// The place of the base of person `k`.
fn base_of(problem: &Problem, k: usize) -> usize
    requires { k < length problem.now.persons }
    ensures { result ≡ spec.base_of problem.now k }
{
    let persons = problem.persons();
    let person = &persons[k];
    person.base
}

/// The place of the base of the pairing at place `p`.
fn base_of_pairing(problem: &Problem, p: usize) -> usize
    requires { p < length problem.now.pairings }
    ensures { result ≡ spec.base_of_pairing problem.now p }
{
    let pairings = problem.pairings();
    let pairing = &pairings[p];
    pairing.base
}

/// The flight of the fixed duties of person `j`, if the person is of the base of person `k`.
fn fixed_of(problem: &Problem, k: usize, j: usize) -> u64
    requires person { k < length problem.now.persons }
    requires other { j < length problem.now.persons }
    ensures { result ≡ spec.fixed_beside problem.now k j }
{
    if base_of(problem, j) == base_of(problem, k) {
        fixed_flight(problem, j)
    } else {
        0
    }
}

/// The flight of the fixed duties of all at the base of person `k`, if it is a machine's number.
fn fixed_at(problem: &Problem, k: usize) -> Option<u64>
    requires { k < length problem.now.persons }
    ensures { IfSome result (λ minutes. minutes ≡ spec.fixed_at problem.now k) }
{
    let mut minutes = 0u64;
    for j in 0..problem.persons().len() {
        minutes = minutes.checked_add(fixed_of(problem, k, j))?;
    }
    Some(minutes)
}

/// The flight of the pairing at place `p`, if it is of the base of person `k`.
fn pairing_of(problem: &Problem, k: usize, p: usize) -> u64
    requires person { k < length problem.now.persons }
    requires pairing { p < length problem.now.pairings }
    ensures { result ≡ spec.pairing_beside problem.now k p }
{
    if base_of_pairing(problem, p) == base_of(problem, k) {
        pairing_flight(problem, k, p)
    } else {
        0
    }
}

/// The flight of all pairings at the base of person `k`, if it is a machine's number.
fn pairings_at(problem: &Problem, k: usize) -> Option<u64>
    requires { k < length problem.now.persons }
    ensures { IfSome result (λ minutes. minutes ≡ spec.pairings_at problem.now k) }
{
    let mut minutes = 0u64;
    for p in 0..problem.pairings().len() {
        minutes = minutes.checked_add(pairing_of(problem, k, p))?;
    }
    Some(minutes)
}

/// Whether nobody of the base has a target.
fn is_bare(persons: &[Person], base: usize) -> bool
    ensures { result ≡ spec.is_bare persons.now base }
{
    persons
        .iter()
        .all(|person| person.base != base || person.target == 0)
}

/// What the person counts at the base: the target, and one if nobody there has one.
fn weight_in(bare: bool, base: usize, person: &Person) -> u64
    ensures { result ≡ spec.weight_in bare base person.now }
{
    if person.base != base {
        0
    } else if bare {
        1
    } else {
        u64::from(person.target)
    }
}

/// What each person of the book counts at the base.
fn weights_at(alloc: Global, problem: &Problem, base: usize) -> Result<Vec<u64>, AllocError>
    ensures { IfOk result (λ weights. weights.items ≡ spec.weights_at problem.now base) }
{
    let persons = problem.persons();
    let bare = is_bare(persons, base);
    let mut weights = Vec::new(alloc);
    for j in 0..persons.len() {
        weights.push(weight_in(bare, base, &persons[j]))?;
    }
    Ok(weights)
}

/// What there is to fly at the base of person `k`, if it is a machine's number.
fn to_fly(problem: &Problem, k: usize) -> Option<u64>
    requires { k < length problem.now.persons }
    ensures { IfSome result (λ minutes. minutes ≡ spec.to_fly problem.now k) }
{
    let fixed = fixed_at(problem, k)?;
    let pairings = pairings_at(problem, k)?;
    fixed.checked_add(pairings)
}

/// The number at the place; 0 if there is none.
fn number_at(numbers: &[u64], k: usize) -> u64
    ensures { result ≡ unwrap_or (slice_get numbers.now k) 0 }
{
    numbers.get(k).copied().unwrap_or(0)
}

/// The share of person `k` in what there is to fly at the home base, unless a number is no machine's.
fn fair_of(alloc: Global, problem: &Problem, k: usize) -> Result<u64, Unmade>
    requires { k < length problem.now.persons }
    ensures found { IfOk result (λ minutes. minutes ≡ spec.fair_target problem.now k) }
    ensures fault { IfErr result TellsFault }
{
    let Some(flight) = to_fly(problem, k) else {
        return Err(Unmade::Unlike);
    };
    let weights = weights_at(alloc, problem, base_of(problem, k))?;
    let shares = shares(alloc, flight, weights.as_slice())?;
    Ok(number_at(shares.as_slice(), k))
}

/// The fair target of each person, in book order, unless a number is no machine's.
pub(crate) fn fair_targets(alloc: Global, problem: &Problem) -> Result<Vec<u64>, Unmade>
    ensures found { IfOk result (λ fair. fair.items
        ≡ map (spec.fair_target problem.now) (range_with_len 0 (length problem.now.persons))) }
    ensures fault { IfErr result TellsFault }
{
    let mut fair = Vec::new(alloc);
    for k in 0..problem.persons().len() {
        let minutes = fair_of(alloc, problem, k)?;
        push(&mut fair, minutes)?;
    }
    Ok(fair)
}
