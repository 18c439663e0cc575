//! What pairings take of one sum that limits judge: the flight of 28 days in a row.
//!
//! Limits judge many such sums. Tables watch one of them: that of which the person could take most beyond
//! what is left, about.

ghost use Rattle.std.specs.Prelude.{◌≡◌, ◌<◌, ◌≤◌, ℕ, [], IfOk, Some, length, slice_get, slice_index};
ghost use Rattle.roster_legal.specs.Stepping.{AreRoomsOf, IsLoadOf};
ghost use Rattle.roster_plan_bound.specs.Loads.{AreLoads, AreLoadsOf, load_at};

use crate::tuning::MOST_FLOWN_A_DAY;
use roster_cumulative::{limits_are_sums, loads_of, rooms_of, sums_of_one_pairing_more};
use roster_legal::merge;
use roster_model::limits::DAYS_BEFORE;
use roster_problem::{DutyList, Problem};
use roster_values::Set;
use std::alloc::{AllocError, Global};

/// What each pairing takes of a sum, and what fixed duties leave of it, in minutes.
#[derive(Drop)]
pub(crate) struct Room {
    pub(crate) loads: Vec<u64>,
    pub(crate) spare: u64,
}

/// What a pairing takes of each sum, in minutes.
#[derive(Drop)]
pub(crate) struct Taken {
    minutes: Vec<u16>,
}

/// The sum that binds person `k` most, about, of whom these pairings are legal alone.
pub(crate) fn room_of(
    alloc: Global,
    problem: &Problem,
    k: usize,
    alone: &Set,
) -> Result<Room, AllocError>
    requires { k < length problem.now.persons }
    ensures { IfOk result (λ room. AreLoads problem.now k room.loads.items room.spare) }
{
    limits_are_sums();
    sums_of_one_pairing_more();
    let rooms = rooms_of_person(alloc, problem, k)?;
    let each = loads_of_pairings(alloc, problem, k)?;
    let at = binding_of(problem, k, alone, &rooms, &each);
    let loads = loads_at(alloc, problem, k, &each, at)?;
    Ok(Room {
        loads,
        spare: minutes_at(&rooms, at),
    })
}

/// What the fixed duties of person `k` leave of each sum.
fn rooms_of_person(alloc: Global, problem: &Problem, k: usize) -> Result<Vec<u16>, AllocError>
    requires { k < length problem.now.persons }
    ensures { IfOk result (λ rooms. AreRoomsOf problem.now k [] rooms.items) }
{
    let fixed = merge(alloc, problem, k, &Set::empty())?;
    let person = problem.person(k);
    let rooms = rooms_of(
        alloc,
        problem.days_of(k),
        &fixed,
        person.year,
        person.eleven,
    )?;
    Ok(rooms)
}

/// What each pairing takes of each sum with person `k`.
fn loads_of_pairings(alloc: Global, problem: &Problem, k: usize) -> Result<Vec<Taken>, AllocError>
    requires { k < length problem.now.persons }
    ensures { IfOk result (λ each. AreLoadsOf problem.now k each.items) }
{
    let mut each = Vec::new(alloc);
    for p in 0..problem.pairings().len() {
        let taken = loads_of_pairing(alloc, problem, k, p)?;
        each.push(taken)?;
    }
    Ok(each)
}

/// What pairing `p` takes of each sum with person `k`.
fn loads_of_pairing(
    alloc: Global,
    problem: &Problem,
    k: usize,
    p: usize,
) -> Result<Taken, AllocError>
    requires person { k < length problem.now.persons }
    requires pairing { p < length problem.now.pairings }
    ensures { IfOk result (λ taken. IsLoadOf problem.now k p taken.minutes.items) }
{
    let mut positions = Vec::new(alloc);
    positions.extend_from_slice(problem.duties_of(p))?;
    let list = DutyList::new(problem.duties(), positions);
    let minutes = loads_of(alloc, problem.days_of(k), &list)?;
    Ok(Taken { minutes })
}

/// What each pairing takes of one sum.
fn loads_at(
    alloc: Global,
    problem: &Problem,
    k: usize,
    each: &[Taken],
    at: usize,
) -> Result<Vec<u64>, AllocError>
    requires { AreLoadsOf problem.now k each.now }
    ensures long { IfOk result (λ loads. length loads.items ≡ length problem.now.pairings) }
    ensures each { IfOk result (λ loads. (p load : ℕ) → slice_get loads.items p ≡ Some load
        → load ≡ load_at problem.now k at p) }
{
    let mut loads = Vec::new(alloc);
    for p in 0..each.len() {
        loads.push(minutes_at(&each[p].minutes, at))?;
    }
    Ok(loads)
}

/// The minutes at a place of a list; none if there is no such place.
fn minutes_at(minutes: &[u16], at: usize) -> u64
    ensures value { result ≡ slice_index minutes.now at }
    ensures few { result ≤ 65535 }
{
    if at < minutes.len() {
        return u64::from(minutes[at]);
    }
    0
}

/// Where the sum stands, among those of flight in 28 days, of which the person could take most beyond what is
/// left.
fn binding_of(problem: &Problem, k: usize, alone: &Set, rooms: &[u16], each: &[Taken]) -> usize
    requires { k < length problem.now.persons }
{
    let days = problem.days_of(k);
    let runs = days.days() - DAYS_BEFORE;
    let month = sum_at(alone, each, rooms.len().saturating_sub(1)).max(1);
    let could = MOST_FLOWN_A_DAY.wrapping_mul(days.month_days() as u64);
    let mut at = 3 * runs;
    let mut most = 0;
    for j in 3 * runs..4 * runs {
        let part = sum_at(alone, each, j).wrapping_mul(could) / month;
        let beyond = part.saturating_sub(minutes_at(rooms, j));
        if beyond > most {
            most = beyond;
            at = j;
        }
    }
    at
}

/// What these pairings take of a sum, all together.
fn sum_at(among: &Set, each: &[Taken], at: usize) -> u64 {
    let mut sum: u64 = 0;
    let mut from = 0;
    while let Some(p) = among.first_from(from) {
        if p < each.len() {
            sum = sum.wrapping_add(minutes_at(&each[p].minutes, at));
        }
        from = p + 1;
    }
    sum
}
