//! What persons of a roster cost, in parts of a cost unit. Nothing rests on it.

use crate::parts::{MOST_FLIGHT, MOST_SHORT, PARTS};
use crate::pricing::Pricing;
use roster_cost::fixed_flight;

/// What it costs beyond no pairings at all that person `k` has those that the places give them, less the
/// penalties of these.
pub(crate) fn own_cost(pricing: &Pricing<'_>, k: usize, places: &[u16]) -> i64 {
    let problem = pricing.problem();
    if k >= problem.persons().len() {
        return 0;
    }
    let mut units: i64 = 0;
    let mut flight: i64 = 0;
    for (p, pairing) in problem.pairings().iter().enumerate() {
        if places.get(p).map(|number| usize::from(*number)) == Some(k) {
            units = units.wrapping_add(problem.units(k, p));
            units = units.wrapping_sub(i64::from(pairing.penalty));
            flight = flight.wrapping_add(pricing.flight(k, p).min(MOST_FLIGHT) as i64);
        }
    }
    let target = i64::from(problem.person(k).target);
    let fixed = fixed_flight(problem, k).min(MOST_SHORT) as i64;
    let short = fixed.wrapping_sub(target);
    let missed = size_of(short.wrapping_add(flight)).wrapping_sub(size_of(short));
    let weighed = missed.wrapping_mul(i64::from(problem.weight()));
    units.wrapping_add(weighed).wrapping_mul(PARTS as i64)
}

/// The number without its sign.
fn size_of(number: i64) -> i64 {
    number.wrapping_abs()
}
