//! The prices that looks begin with: those of a sketch, which begins with what each pairing costs at least.
//!
//! If the crew lacks flight, nearly everybody ends below the target, and each minute saves the weight; else
//! nearly everybody ends above it, and each minute costs as much. A pairing costs that, and the units of who
//! flies it. Nothing rests on these prices.

use crate::covered::covered_of;
use crate::lists::flight_at;
use crate::parts::{MOST_PLAN_PRICE, PARTS};
use crate::pricing::Pricing;
use crate::sketch::sketched_prices;
use roster_bases::{is_pairing_of, is_person_of};
use roster_cost::fixed_flight;
use roster_problem::Problem;
use std::alloc::{AllocError, Global};

/// Prices at which the rosters of a sketch cost the most, nearly. They begin with what each pairing costs at
/// least, units and flight, and the penalty if that is less.
pub(crate) fn start_prices(
    alloc: Global,
    pricing: &Pricing<'_>,
    base: usize,
    persons: &[usize],
) -> Result<Vec<i64>, AllocError> {
    let problem = pricing.problem();
    let flights = flights_of(alloc, pricing, base, persons)?;
    let is_short = minutes_wanted(problem, base) > sum_of(&flights);
    let mut floors = Vec::new(alloc);
    for (p, pairing) in problem.pairings().iter().enumerate() {
        let penalty = i64::from(pairing.penalty).wrapping_mul(PARTS as i64);
        let worth = start_price(problem, flight_at(&flights, p), is_short);
        floors.push(least_with(pricing, persons, p, worth, penalty))?;
    }
    let covered = covered_of(alloc, problem, base)?;
    sketched_prices(alloc, pricing, &covered, persons, &floors, is_short)
}

/// What the pairing at place `p` costs at least, in parts of a cost unit: its penalty, or the units of one of
/// the persons, if it is legal alone, and what its flight is worth.
fn least_with(pricing: &Pricing<'_>, persons: &[usize], p: usize, worth: i64, penalty: i64) -> i64 {
    let mut least = penalty;
    for k in persons {
        if let Some(timeline) = pricing.timeline(*k) {
            if timeline.alone.has(p) {
                let units = pricing.problem().units(*k, p);
                let cost = units.wrapping_mul(PARTS as i64).wrapping_add(worth);
                least = least.min(cost);
            }
        }
    }
    least
}

/// What the flight of each pairing is worth if so large a part of all flight stays open: that whose penalties
/// are the least by the minute. No price is more than the penalty.
pub(crate) fn scarce_prices(
    alloc: Global,
    pricing: &Pricing<'_>,
    base: usize,
    persons: &[usize],
    part: u64,
) -> Result<Vec<i64>, AllocError> {
    let problem = pricing.problem();
    let flights = flights_of(alloc, pricing, base, persons)?;
    let worth = worth_of_open(alloc, problem, &flights, part)?;
    let mut prices = Vec::new(alloc);
    for (pairing, flight) in problem.pairings().iter().zip(flights.iter()) {
        let penalty = i64::from(pairing.penalty).wrapping_mul(PARTS as i64);
        prices.push(
            worth
                .saturating_mul((*flight).min(MOST_PLAN_PRICE) as i64)
                .min(penalty),
        )?;
    }
    Ok(prices)
}

/// What a minute of a pairing's flight costs if it stays open, and how many minutes it has.
#[derive(Clone, Copy, PartialEq, Eq, PartialOrd, Ord)]
struct Open {
    by_minute: i64,
    minutes: u64,
}

/// What a minute of flight costs at least where it doesn't stay open, if so large a part of all does.
fn worth_of_open(
    alloc: Global,
    problem: &Problem,
    flights: &[u64],
    part: u64,
) -> Result<i64, AllocError> {
    let mut all = Vec::new(alloc);
    for (pairing, flight) in problem.pairings().iter().zip(flights.iter()) {
        if *flight > 0 {
            let penalty = i64::from(pairing.penalty).wrapping_mul(PARTS as i64);
            all.push(Open {
                by_minute: penalty / ((*flight).min(MOST_PLAN_PRICE).max(1) as i64),
                minutes: *flight,
            })?;
        }
    }
    all.sort_unstable();
    let most = sum_of(flights) / part.max(1);
    let mut minutes: u64 = 0;
    for open in &all {
        minutes = minutes.saturating_add(open.minutes);
        if minutes > most {
            return Ok(open.by_minute);
        }
    }
    Ok(0)
}

/// What so many minutes of flight are worth, in parts of a cost unit.
fn start_price(problem: &Problem, flight: u64, is_short: bool) -> i64 {
    let part = PARTS.saturating_mul(u64::from(problem.weight()));
    let worth = part.saturating_mul(flight).min(MOST_PLAN_PRICE) as i64;
    if is_short { -worth } else { worth }
}

/// The minutes of flight of each pairing, if it is of the base; nothing of others.
fn flights_of(
    alloc: Global,
    pricing: &Pricing<'_>,
    base: usize,
    persons: &[usize],
) -> Result<Vec<u64>, AllocError> {
    let problem = pricing.problem();
    let mut flights = Vec::new(alloc);
    for p in 0..problem.pairings().len() {
        let flight = match persons.first() {
            Some(k) if is_pairing_of(problem, p, base) => pricing.flight(*k, p),
            _ => 0,
        };
        flights.push(flight)?;
    }
    Ok(flights)
}

/// The minutes that all targets of the base ask for beyond the flight of fixed duties.
fn minutes_wanted(problem: &Problem, base: usize) -> u64 {
    let mut sum: u64 = 0;
    for k in 0..problem.persons().len() {
        if is_person_of(problem, k, base) {
            let target = u64::from(problem.person(k).target);
            sum = sum.saturating_add(target.saturating_sub(fixed_flight(problem, k)));
        }
    }
    sum
}

/// All of them.
fn sum_of(flights: &[u64]) -> u64 {
    let mut sum: u64 = 0;
    for flight in flights {
        sum = sum.saturating_add(*flight);
    }
    sum
}
