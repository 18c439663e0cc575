//! A row for each duty, leave and pairing of a person.

ghost use Rattle.std.specs.Prelude.{◌≡◌, ◌<◌, length};

use crate::writing::TableRows;
use roster_desk_given::{Zones, duties_with, utc};
use roster_desk_words::{flight_of, pairing_name};
use roster_instants::Minute;
use roster_problem::{Duty, Holder, Problem};
use std::alloc::{AllocError, Global};

/// The names of the columns.
pub(crate) const COLUMNS: [&[u8]; 11] = [
    b"PERSON",
    b"KIND",
    b"NAME",
    b"PAIRING",
    b"STATION",
    b"FROM_UTC",
    b"TO_UTC",
    b"FROM_LOCAL",
    b"TO_LOCAL",
    b"MINUTES",
    b"FLIGHT",
];

/// What a row tells of, behind the person.
#[derive(Drop)]
struct TableRow<'a> {
    kind: &'a [u8],
    name: &'a [u8],
    pairing: &'a [u8],
    station: &'a [u8],
    from: Minute,
    to: Minute,
    // Minutes of operated sectors; a leave has none.
    flight: Option<u64>,
}

/// The row of a duty.
fn duty_row<'a>(problem: &'a Problem, duty: &'a Duty) -> TableRow<'a> {
    let pairing = match duty.holder {
        Holder::Pairing(p) => pairing_name(problem, p),
        Holder::Person(_) => b"".as_slice(),
    };
    TableRow {
        kind: b"duty",
        name: duty.id.as_bytes(),
        pairing,
        station: duty.station.as_bytes(),
        from: duty.report,
        to: duty.release,
        flight: Some(flight_of(duty)),
    }
}

/// The minutes of flight of the duties at these places.
fn flown_at(problem: &Problem, positions: &[u16]) -> u64 {
    let mut minutes = 0u64;
    for position in positions {
        if let Some(duty) = problem.duties().get(usize::from(*position)) {
            minutes = minutes.saturating_add(flight_of(duty));
        }
    }
    minutes
}

/// The row of the pairing at place `p`, from its first report to its last release. Each pairing of a book
/// has a duty.
fn pairing_row(problem: &Problem, p: usize) -> Option<TableRow<'_>>
    requires { p < length problem.now.pairings }
{
    let positions = problem.duties_of(p);
    let first = problem.duties().get(usize::from(*positions.first()?))?;
    let last = problem.duties().get(usize::from(*positions.last()?))?;
    let name = problem.pairing(p).id.as_bytes();
    Some(TableRow {
        kind: b"pairing",
        name,
        pairing: name,
        station: first.station.as_bytes(),
        from: first.report,
        to: last.release,
        flight: Some(flown_at(problem, positions)),
    })
}

/// Puts the row of person `k` behind the others.
fn push_row(
    alloc: Global,
    rows: &mut TableRows<'_>,
    problem: &Problem,
    zones: &Zones,
    k: usize,
    row: &TableRow<'_>,
) -> Result<(), AllocError>
    requires { k < length problem.now.persons }
{
    let person = problem.person(k);
    let flight = match row.flight {
        Some(minutes) => minutes.to_string(alloc)?,
        None => String::new(alloc),
    };
    let minutes = (row.to.get() - row.from.get()).to_string(alloc)?;
    let from = utc(alloc, row.from)?;
    let to = utc(alloc, row.to)?;
    let local_from = zones.local(alloc, person.base, row.from)?;
    let local_to = zones.local(alloc, person.base, row.to)?;
    rows.push(&[
        person.id.as_bytes(),
        row.kind,
        row.name,
        row.pairing,
        row.station,
        from.as_bytes(),
        to.as_bytes(),
        local_from.as_bytes(),
        local_to.as_bytes(),
        minutes.as_bytes(),
        flight.as_bytes(),
    ])
}

/// Puts the rows of the pairings of person `k` behind the others.
fn push_pairings(
    alloc: Global,
    rows: &mut TableRows<'_>,
    problem: &Problem,
    zones: &Zones,
    places: &[u16],
    k: usize,
) -> Result<(), AllocError>
    requires covers { length places.now ≡ length problem.now.pairings }
    requires person { k < length problem.now.persons }
{
    for p in 0..places.len() {
        if usize::from(places[p]) == k {
            if let Some(row) = pairing_row(problem, p) {
                push_row(alloc, rows, problem, zones, k, &row)?;
            }
        }
    }
    Ok(())
}

/// Puts the rows of the duties of person `k` behind the others.
fn push_duties(
    alloc: Global,
    rows: &mut TableRows<'_>,
    problem: &Problem,
    zones: &Zones,
    places: &[u16],
    k: usize,
) -> Result<(), AllocError>
    requires covers { length places.now ≡ length problem.now.pairings }
    requires person { k < length problem.now.persons }
{
    let list = duties_with(alloc, problem, places, k)?;
    for i in 0..list.len() {
        let row = duty_row(problem, list.duty(i));
        push_row(alloc, rows, problem, zones, k, &row)?;
    }
    Ok(())
}

/// Puts the rows of the leaves of person `k` behind the others.
fn push_leaves(
    alloc: Global,
    rows: &mut TableRows<'_>,
    problem: &Problem,
    zones: &Zones,
    k: usize,
) -> Result<(), AllocError>
    requires { k < length problem.now.persons }
{
    for position in problem.leave(k) {
        if let Some(leave) = problem.leaves().get(usize::from(*position)) {
            let row = TableRow {
                kind: b"leave",
                name: b"",
                pairing: b"",
                station: b"",
                from: leave.from,
                to: leave.to,
                flight: None,
            };
            push_row(alloc, rows, problem, zones, k, &row)?;
        }
    }
    Ok(())
}

/// Puts the rows of person `k` behind the others: pairings in book order, then duties by report, then
/// leaves in book order.
pub(crate) fn push_rows(
    alloc: Global,
    rows: &mut TableRows<'_>,
    problem: &Problem,
    zones: &Zones,
    places: &[u16],
    k: usize,
) -> Result<(), AllocError>
    requires covers { length places.now ≡ length problem.now.pairings }
    requires person { k < length problem.now.persons }
{
    push_pairings(alloc, rows, problem, zones, places, k)?;
    push_duties(alloc, rows, problem, zones, places, k)?;
    push_leaves(alloc, rows, problem, zones, k)
}
