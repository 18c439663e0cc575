//! All that the limits judge, as sums over duties: what a list takes of each, and what it leaves.

ghost use Rattle.std.specs.Prelude.{◌≡◌, ◌++◌, ◌-◌, ◌%◌, ◌≤◌, ◌↔◌, ℕ, IfOk, IsTrue, OnOk, length, map, min};
ghost use Rattle.std.specs.Prelude.{replicate, slice_index};
ghost use Rattle.roster_model.specs.Sums.{in_run, judged_days};
ghost use Rattle.roster_cumulative.specs.Judged.{HaveRoom, MonthFlight, capped_of, judged_sums, load_of};
ghost use Rattle.roster_cumulative.specs.Judged.{most_load, room_of};
ghost use Rattle.roster_cumulative.specs.Table.{IsLight};

use crate::runs::run_before;
use crate::sums::month_flight;
use crate::table::{Measure, minutes_by_day};
use roster_instants::BaseDays;
use roster_model::limits::{DAYS_BEFORE, MOST_DAYS, MOST_DUTIES};
use roster_model::profile::{
    LONG_RUN, MIDDLE_RUN, MOST_DUTY_IN_7_DAYS, MOST_DUTY_IN_14_DAYS, MOST_DUTY_IN_28_DAYS,
    MOST_FLIGHT_IN_12_MONTHS, MOST_FLIGHT_IN_28_DAYS, MOST_FLIGHT_IN_A_YEAR, SHORT_RUN,
};
use roster_problem::DutyList;
use std::alloc::{AllocError, Global};

/// The most minutes of a load that are counted: more than any sum may have.
const MOST_LOAD: u64 = u16::MAX as u64;

/// So many sums a loop looks at in one turn, by vector instructions.
const IN_A_TURN: usize = 16;

/// A sum, and the most that there may be of it, in minutes.
#[derive(Clone, Copy)]
struct CappedSum {
    total: u64,
    most: u64,
}

/// Appends the sums of the judged runs of `n` days, of which each may have as much.
fn push_runs(
    sums: &mut Vec<CappedSum>,
    days: &BaseDays,
    table: &[u64; MOST_DAYS],
    n: usize,
    most: u64,
) -> Result<(), AllocError>
    requires run { n ≤ DAYS_BEFORE }
    requires light { IsLight MOST_DUTIES table.now }
    ensures { OnOk result (sums.new.items ≡ sums.old.items
        ++ map (λ last. record { total = in_run (slice_index table.now) n last; most = most })
        (judged_days days.now)) }
{
    let mut run = run_before(table, n, DAYS_BEFORE);
    for last in DAYS_BEFORE..days.days() {
        run = run + table[last] - table[last - n];
        sums.push(CappedSum { total: run, most })?;
    }
    Ok(())
}

/// The month's flight of the list, with so much flown before the month.
fn month_sum(days: &BaseDays, list: &DutyList, year: u32, eleven: u32) -> CappedSum
    ensures { result ≡ capped_of days.now list.now year eleven MonthFlight }
{
    let year = MOST_FLIGHT_IN_A_YEAR.saturating_sub(u64::from(year));
    let eleven = MOST_FLIGHT_IN_12_MONTHS.saturating_sub(u64::from(eleven));
    CappedSum {
        total: month_flight(days, list) as u64,
        most: year.min(eleven),
    }
}

/// Appends the sum as often as makes whole turns, once at least.
fn push_turn(sums: &mut Vec<CappedSum>, sum: CappedSum) -> Result<(), AllocError>
    ensures { OnOk result (sums.new.items
        ≡ sums.old.items ++ replicate (IN_A_TURN - length sums.old.items % IN_A_TURN) sum) }
{
    let more = IN_A_TURN - sums.len() % IN_A_TURN;
    sums.resize(sums.len() + more, sum)
}

/// All sums of the list, and the most that there may be of each, with so much flown before the month.
fn capped_sums(
    alloc: Global,
    days: &BaseDays,
    list: &DutyList,
    year: u32,
    eleven: u32,
) -> Result<Vec<CappedSum>, AllocError>
    ensures { IfOk result (λ sums. sums.items
        ≡ map (capped_of days.now list.now year eleven) (judged_sums days.now)) }
{
    let mut sums = Vec::new(alloc);
    let duty = minutes_by_day(days, list, Measure::Duty);
    push_runs(&mut sums, days, &duty, SHORT_RUN, MOST_DUTY_IN_7_DAYS)?;
    push_runs(&mut sums, days, &duty, MIDDLE_RUN, MOST_DUTY_IN_14_DAYS)?;
    push_runs(&mut sums, days, &duty, LONG_RUN, MOST_DUTY_IN_28_DAYS)?;
    let flight = minutes_by_day(days, list, Measure::Flight);
    push_runs(&mut sums, days, &flight, LONG_RUN, MOST_FLIGHT_IN_28_DAYS)?;
    let month = month_sum(days, list, year, eleven);
    push_turn(&mut sums, month)?;
    Ok(sums)
}

/// What is left of one sum.
fn room(sum: CappedSum) -> u16
    ensures { result ≡ min most_load (sum.most - sum.total) }
{
    MOST_LOAD.min(sum.most.saturating_sub(sum.total)) as u16
}

/// What is left of each sum.
fn rooms_in(alloc: Global, sums: &[CappedSum]) -> Result<Vec<u16>, AllocError>
    ensures { IfOk result
        (λ rooms. rooms.items ≡ map (λ sum. min most_load (sum.most - sum.total)) sums.now) }
{
    sums.iter().map(|sum| room(*sum)).collect(alloc)
}

/// What the list leaves of each sum, with so much flown before the month, in its calendar year and in
/// the eleven months before it. What it has too much of leaves nothing.
pub fn rooms_of(
    alloc: Global,
    days: &BaseDays,
    list: &DutyList,
    year: u32,
    eleven: u32,
) -> Result<Vec<u16>, AllocError>
    ensures { IfOk result (λ rooms. rooms.items
        ≡ map (room_of days.now list.now year eleven) (judged_sums days.now)) }
{
    let sums = capped_sums(alloc, days, list, year, eleven)?;
    let rooms = rooms_in(alloc, &sums)?;
    Ok(rooms)
}

/// What is counted of one sum.
fn load(sum: CappedSum) -> u16
    ensures { result ≡ min most_load sum.total }
{
    MOST_LOAD.min(sum.total) as u16
}

/// What is counted of each sum.
fn loads_in(alloc: Global, sums: &[CappedSum]) -> Result<Vec<u16>, AllocError>
    ensures { IfOk result (λ loads. loads.items ≡ map (λ sum. min most_load sum.total) sums.now) }
{
    sums.iter().map(|sum| load(*sum)).collect(alloc)
}

/// What the list takes of each sum.
pub fn loads_of(alloc: Global, days: &BaseDays, list: &DutyList) -> Result<Vec<u16>, AllocError>
    ensures { IfOk result (λ loads. loads.items
        ≡ map (load_of days.now list.now) (judged_sums days.now)) }
{
    let sums = capped_sums(alloc, days, list, 0, 0)?;
    let loads = loads_in(alloc, &sums)?;
    Ok(loads)
}

/// Whether each load finds room.
pub fn have_room(rooms: &[u16], loads: &[u16]) -> bool
    requires { length loads.now ≡ length rooms.now }
    ensures { IsTrue result ↔ HaveRoom rooms.now loads.now }
{
    let mut have = true;
    for j in 0..rooms.len() {
        have &= loads[j] <= rooms[j];
    }
    have
}

/// Takes the loads from the rooms; of what has too little nothing is left.
pub fn take_room(rooms: &mut [u16], loads: &[u16])
    requires { length loads.now ≡ length rooms.old }
    ensures { (j : ℕ)
        → slice_index rooms.new j ≡ slice_index rooms.old j - slice_index loads.now j }
{
    for j in 0..rooms.len() {
        rooms[j] = rooms[j].saturating_sub(loads[j]);
    }
}
