//! A row for each person.

ghost use Rattle.std.specs.Prelude.{◌≡◌, ◌<◌, length, OnOk};
ghost use Rattle.roster_desk_sheets.specs.Written.{IsWhole};
ghost use Rattle.roster_desk_tables.specs.Rows as spec;
ghost use Rattle.roster_desk_tables.specs.Rows.{HasPersonRow, pairings_of};

use crate::month::month_days;
use crate::sums::sums_of;
use crate::writing::TableRows;
use roster_desk_given::duties_with;
use roster_problem::Problem;
use std::alloc::{AllocError, Global};

/// The names of the columns.
pub(crate) const COLUMNS: [&[u8]; 15] = [
    b"PERSON",
    b"BASE",
    b"PAIRINGS",
    b"DUTIES",
    b"LEAVES",
    b"WORKDAYS",
    b"FREEDAYS",
    b"WEEKENDS",
    b"FLIGHT",
    b"DUTY7",
    b"DUTY14",
    b"DUTY28",
    b"FLIGHT28",
    b"TARGET",
    b"COST",
];

/// How many pairings the roster gives to person `k`.
fn count_of(places: &[u16], k: usize) -> usize
    ensures { result ≡ pairings_of places.now k }
{
    places
        .iter()
        .filter(|place| usize::from(**place) == k)
        .count()
}

/// How many leaves person `k` has.
fn leaves_of(problem: &Problem, k: usize) -> usize
    requires { k < length problem.now.persons }
    ensures { result ≡ spec.leaves_of problem.now k }
{
    problem.leave(k).len()
}

/// Puts the row of person `k` behind the others.
pub(crate) fn push_person(
    alloc: Global,
    rows: &mut TableRows<'_>,
    problem: &Problem,
    places: &[u16],
    k: usize,
) -> Result<(), AllocError>
    requires covers { length places.now ≡ length problem.now.pairings }
    requires person { k < length problem.now.persons }
    ensures { OnOk result (IsWhole rows.old.records
        → HasPersonRow problem.now places.now k rows.old rows.new) }
{
    let person = problem.person(k);
    let list = duties_with(alloc, problem, places, k)?;
    let pairings = count_of(places, k).to_string(alloc)?;
    let duties = list.len().to_string(alloc)?;
    let leaves = leaves_of(problem, k).to_string(alloc)?;
    let month = month_days(problem, &list, k);
    let work = month.work.to_string(alloc)?;
    let free = month.free.to_string(alloc)?;
    let weekends = month.weekends.to_string(alloc)?;
    let sums = sums_of(alloc, problem, places, k)?;
    let flight = sums.flight.to_string(alloc)?;
    let duty7 = sums.duty7.to_string(alloc)?;
    let duty14 = sums.duty14.to_string(alloc)?;
    let duty28 = sums.duty28.to_string(alloc)?;
    let flight28 = sums.flight28.to_string(alloc)?;
    let target = person.target.to_string(alloc)?;
    let cost = sums.cost.to_string(alloc)?;
    rows.push(&[
        person.id.as_bytes(),
        problem.home(k).id.as_bytes(),
        pairings.as_bytes(),
        duties.as_bytes(),
        leaves.as_bytes(),
        work.as_bytes(),
        free.as_bytes(),
        weekends.as_bytes(),
        flight.as_bytes(),
        duty7.as_bytes(),
        duty14.as_bytes(),
        duty28.as_bytes(),
        flight28.as_bytes(),
        target.as_bytes(),
        cost.as_bytes(),
    ])?;
    Ok(())
}
