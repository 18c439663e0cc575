//! A person in a sketch of a base. Nothing rests on it.

use crate::lists::{amount_at, flight_at};
use crate::parts::{MOST_FLIGHT, MOST_SHORT, PARTS};
use crate::pricing::Pricing;
use crate::softness::{share_of, soft_least};
use crate::spare::{is_scarce, spare_flight};
use crate::timeline::Timeline;
use crate::tuning::{FINE, ONE};
use crate::way::{Way, put};
use roster_cost::fixed_flight;
use std::alloc::{AllocError, Global};

/// How many parts a person is counted in on the way through the month.
const WHOLE: i64 = 1 << 24;

/// What a minute of flight costs, and one of the sum that is watched, in finer steps than parts.
#[derive(Clone, Copy)]
pub(crate) struct Minute {
    pub(crate) flight: i64,
    pub(crate) load: i64,
}

/// A pairing that is legal alone, with what it brings, and the rank of the next one that is legal with it.
#[derive(Clone, Copy)]
struct Leg {
    place: usize,
    next: usize,
    units: i64,
    flight: i64,
    load: i64,
}

/// A person who may have any pairings of which neighbours are legal together.
#[derive(Drop)]
pub(crate) struct Sketched {
    // In order of time.
    legs: Vec<Leg>,
    // By how many minutes the fixed flight is beyond the target, and what limits leave of flight and of the
    // sum that is watched.
    short: i64,
    spare: i64,
    spare_load: i64,
    is_scarce: bool,
    // What those of a rank and later ones cost at least, about, and for which part of the person it is best
    // to have the one of the rank if no earlier one hinders it.
    rest: Vec<i64>,
    shares: Vec<i64>,
    // Which part of the person no earlier one hinders.
    free: Vec<i64>,
    // The minutes of flight that the person has then, and of the sum that is watched.
    flight: i64,
    load: i64,
}

impl Sketched {
    /// Person `k`; none if there is no such person, or no timeline.
    pub(crate) fn of(
        alloc: Global,
        pricing: &Pricing<'_>,
        k: usize,
    ) -> Result<Option<Sketched>, AllocError> {
        let problem = pricing.problem();
        if k >= problem.persons().len() {
            return Ok(None);
        }
        let Some(timeline) = pricing.timeline(k) else {
            return Ok(None);
        };
        let target = i64::from(problem.person(k).target);
        let spare = spare_flight(problem, k);
        Ok(Some(Sketched {
            legs: legs_of(alloc, pricing, k, timeline)?,
            short: (fixed_flight(problem, k).min(MOST_SHORT) as i64).wrapping_sub(target),
            spare: spare as i64,
            spare_load: timeline.spare_load.min(MOST_SHORT) as i64,
            is_scarce: is_scarce(timeline, spare),
            rest: Vec::new(alloc),
            shares: Vec::new(alloc),
            free: Vec::new(alloc),
            flight: 0,
            load: 0,
        }))
    }

    /// The minutes of flight of all pairings that are legal alone, and how many there are.
    pub(crate) fn flown(&self) -> (i64, i64) {
        let mut minutes: i64 = 0;
        for leg in &self.legs {
            minutes = minutes.wrapping_add(leg.flight);
        }
        (minutes, self.legs.len() as i64)
    }

    /// The nearest that a minute of flight may cost: no more than the weight, unless limits leave little.
    pub(crate) fn near_worth(&self, worth: i64, weight: i64) -> i64 {
        let worth = worth.max(0_i64.wrapping_sub(weight));
        if self.is_scarce {
            worth
        } else {
            worth.min(weight)
        }
    }

    /// Adds to the covers of pairings what the person takes of each: the greater a part the less is cheaper.
    /// What the person costs at least, about.
    pub(crate) fn cover(
        &mut self,
        way: &Way,
        minute: Minute,
        weight: i64,
        covers: &mut [i64],
    ) -> Result<i64, AllocError> {
        self.weigh(way, minute)?;
        self.spread(covers)?;
        Ok(amount_at(&self.rest, 0).wrapping_add(self.beside(minute, weight)))
    }

    /// What those of each rank and later ones cost, from the last one on.
    fn weigh(&mut self, way: &Way, minute: Minute) -> Result<(), AllocError> {
        let count = self.legs.len();
        clear(&mut self.rest, count)?;
        clear(&mut self.shares, count)?;
        for back in 0..count {
            let rank = count - 1 - back;
            let leg = self.legs[rank];
            let with = amount_at(&self.rest, leg.next)
                .wrapping_add(leg.units)
                .wrapping_add(minute.flight.wrapping_mul(leg.flight))
                .wrapping_add(minute.load.wrapping_mul(leg.load))
                .wrapping_sub(amount_at(&way.prices, leg.place));
            let without = amount_at(&self.rest, rank.wrapping_add(1));
            let (least, share) = soft_least(with, without, way.softness);
            put(&mut self.rest, rank, least);
            put(&mut self.shares, rank, share);
        }
        Ok(())
    }

    /// Goes through the month, and covers.
    fn spread(&mut self, covers: &mut [i64]) -> Result<(), AllocError> {
        clear(&mut self.free, self.legs.len())?;
        put(&mut self.free, 0, WHOLE);
        let mut flight: i64 = 0;
        let mut load: i64 = 0;
        for rank in 0..self.legs.len() {
            let leg = self.legs[rank];
            let free = amount_at(&self.free, rank);
            let taken = free.wrapping_mul(amount_at(&self.shares, rank)) / ONE;
            flight = flight.wrapping_add(taken.wrapping_mul(leg.flight));
            load = load.wrapping_add(taken.wrapping_mul(leg.load));
            raise(covers, leg.place, taken / (WHOLE / ONE));
            raise(&mut self.free, leg.next, taken);
            raise(
                &mut self.free,
                rank.wrapping_add(1),
                free.wrapping_sub(taken),
            );
        }
        self.flight = flight / WHOLE;
        self.load = load / WHOLE;
        Ok(())
    }

    /// What the target costs at least beside what a minute costs of pairings, and less what limits leave.
    fn beside(&self, minute: Minute, weight: i64) -> i64 {
        let most = self.short.wrapping_add(self.spare);
        let fixed = if self.is_spent(minute.flight, weight) {
            weight
                .wrapping_mul(most.wrapping_abs())
                .wrapping_sub(minute.flight.wrapping_mul(self.spare))
        } else {
            minute.flight.wrapping_mul(self.short)
        };
        fixed
            .wrapping_sub(weight.wrapping_mul(self.short.wrapping_abs()))
            .wrapping_sub(minute.load.wrapping_mul(self.spare_load))
    }

    /// Whether it costs least to fly all that limits leave.
    fn is_spent(&self, worth: i64, weight: i64) -> bool {
        worth > weight || self.short.wrapping_add(self.spare) < 0
    }

    /// Of the flight that costs least which part the person has; all, if a minute can't cost more, or less.
    pub(crate) fn cover_of_flight(&self, worth: i64, weight: i64) -> i64 {
        let wanted = if self.is_spent(worth, weight) {
            self.spare
        } else {
            0_i64.wrapping_sub(self.short)
        };
        let part = part_of(self.flight, wanted);
        let is_least = part < ONE && worth <= 0_i64.wrapping_sub(weight);
        let is_most = part > ONE && worth >= weight && !self.is_scarce;
        if is_least || is_most { ONE } else { part }
    }

    /// Which part of what limits leave the person has of the sum that is watched; all, if it costs nothing.
    pub(crate) fn cover_of_load(&self, toll: i64) -> i64 {
        let part = part_of(self.load, self.spare_load);
        if toll <= 0 { part.max(ONE) } else { part }
    }
}

/// The pairings of person `k`, whose timeline it is.
fn legs_of(
    alloc: Global,
    pricing: &Pricing<'_>,
    k: usize,
    timeline: &Timeline,
) -> Result<Vec<Leg>, AllocError> {
    let problem = pricing.problem();
    let mut legs = Vec::new(alloc);
    for rank in 0..timeline.order.len() {
        let place = timeline.order[rank];
        let units = problem.units(k, place).wrapping_mul(PARTS as i64);
        legs.push(Leg {
            place,
            next: next_of(timeline, place, rank.wrapping_add(1)),
            units: units.wrapping_mul(FINE),
            flight: flight_at(&timeline.flights, place).min(MOST_FLIGHT) as i64,
            load: flight_at(&timeline.loads, place).min(MOST_FLIGHT) as i64,
        })?;
    }
    Ok(legs)
}

/// The first rank from one on whose pairing may follow pairing `p`, or how many ranks there are.
fn next_of(timeline: &Timeline, p: usize, from: usize) -> usize {
    let count = timeline.order.len();
    let Some(later) = timeline.later.get(p) else {
        return count;
    };
    for rank in from..count {
        if later.has(timeline.order[rank]) {
            return rank;
        }
    }
    count
}

/// Nothing for each of so many, and for one more.
pub(crate) fn clear(amounts: &mut Vec<i64>, count: usize) -> Result<(), AllocError> {
    amounts.clear();
    amounts.resize(count.saturating_add(1), 0)?;
    Ok(())
}

/// Adds to the number at a place of a list.
fn raise(amounts: &mut [i64], i: usize, more: i64) {
    if i < amounts.len() {
        amounts[i] = amounts[i].wrapping_add(more);
    }
}

/// How many parts of `ONE` some minutes are of those that are wanted, which may be none.
fn part_of(minutes: i64, wanted: i64) -> i64 {
    if minutes <= 0 && wanted <= 0 {
        return ONE;
    }
    share_of(minutes, wanted)
}
