//! Prices of a sketch of a base. In it each person may have any pairings of which neighbours are legal
//! together, and what limits leave is kept by what a minute costs. It weighs all such sets at once, and so
//! fast that its prices move far before the first look. Nothing rests on them.

use crate::covered::Covered;
use crate::dearness::dearness;
use crate::lists::amount_at;
use crate::master::{fine_covered, fine_prices, in_parts};
use crate::parts::PARTS;
use crate::pricing::Pricing;
use crate::sketched::{Minute, Sketched, clear};
use crate::tuning::{FINE, FIRST_SOFTNESS, MOST_STRIDE_OF_SKETCH, RANGES, SKETCH_STEPS};
use crate::way::{Way, advance, judge, put, start, sum_of_terms};
use std::alloc::{AllocError, Global};

/// The persons of a sketch, and prices on their way. Behind those of pairings there are two for each person:
/// what a mean flight saves, and what the same minutes save of the sum that is watched.
#[derive(Drop)]
struct Sketch {
    persons: Vec<Sketched>,
    pairings: Vec<Covered>,
    // The pairings, and then those two of each person.
    moved: Vec<Covered>,
    center: Vec<i64>,
    way: Way,
    covers: Vec<i64>,
    // How many prices of pairings there are.
    count: usize,
    // What a minute costs by which a target is missed, and the minutes of a mean flight.
    weight: i64,
    mean: i64,
}

/// Prices at which the rosters of a sketch cost the most, nearly. They begin with these, and with what a
/// minute costs by which a target is missed; it saves that if the crew lacks flight.
pub(crate) fn sketched_prices(
    alloc: Global,
    pricing: &Pricing<'_>,
    covered: &[Covered],
    persons: &[usize],
    first: &[i64],
    lacks_flight: bool,
) -> Result<Vec<i64>, AllocError> {
    let persons = sketched_of(alloc, pricing, persons)?;
    let mut sketch = Sketch::new(alloc, pricing, persons, covered, first)?;
    sketch.begin(alloc, lacks_flight)?;
    for _ in 0..SKETCH_STEPS {
        sketch.step(alloc)?;
    }
    in_parts(alloc, &sketch.way.best)
}

/// These persons, as far as they have a timeline.
fn sketched_of(
    alloc: Global,
    pricing: &Pricing<'_>,
    persons: &[usize],
) -> Result<Vec<Sketched>, AllocError> {
    let mut all = Vec::new(alloc);
    for k in persons {
        if let Some(one) = Sketched::of(alloc, pricing, *k)? {
            all.push(one)?;
        }
    }
    Ok(all)
}

/// The minutes of flight of a pairing, in the mean.
fn mean_flight(persons: &[Sketched]) -> i64 {
    let (mut minutes, mut count) = (0_i64, 0_i64);
    for one in persons {
        let (flown, many) = one.flown();
        minutes = minutes.wrapping_add(flown);
        count = count.wrapping_add(many);
    }
    (minutes / count.max(1)).max(1)
}

/// How soft covers are at first: by what lies between the first prices and penalties, in the mean.
fn softness_of(pairings: &[Covered], first: &[i64], dear: i64) -> i64 {
    let mut sum: i64 = 0;
    for one in pairings {
        let open = one.penalty.wrapping_sub(amount_at(first, one.place));
        sum = sum.wrapping_add(open.max(0) / RANGES);
    }
    let mean = sum / (pairings.len() as i64).max(1);
    mean.max(FIRST_SOFTNESS.wrapping_mul(dear).wrapping_mul(FINE))
}

/// What a price is by the minute.
fn a_minute(price: i64, minutes: i64) -> i64 {
    price / minutes.max(1)
}

impl Sketch {
    /// Before the first step, at these prices.
    fn new(
        alloc: Global,
        pricing: &Pricing<'_>,
        persons: Vec<Sketched>,
        covered: &[Covered],
        first: &[i64],
    ) -> Result<Sketch, AllocError> {
        let problem = pricing.problem();
        let weight = PARTS.wrapping_mul(u64::from(problem.weight())) as i64;
        let mean = mean_flight(&persons);
        let pairings = fine_covered(alloc, covered)?;
        let center = fine_prices(alloc, first)?;
        let softness = softness_of(&pairings, &center, dearness(problem));
        Ok(Sketch {
            persons,
            moved: fine_covered(alloc, covered)?,
            pairings,
            count: center.len(),
            way: start(alloc, &center, softness)?,
            center,
            covers: Vec::new(alloc),
            weight: weight.wrapping_mul(FINE),
            mean,
        })
    }

    /// Begins with the prices of all persons.
    fn begin(&mut self, alloc: Global, lacks_flight: bool) -> Result<(), AllocError> {
        let most = self.weight.wrapping_mul(self.mean);
        let saved = if lacks_flight {
            most
        } else {
            most.wrapping_neg()
        };
        for _ in 0..self.persons.len() {
            self.move_too(saved, most)?;
            self.move_too(0, 0)?;
        }
        self.way = start(alloc, &self.center, self.way.softness)?;
        Ok(())
    }

    /// Another price that begins there, and is no more than so much.
    fn move_too(&mut self, price: i64, most: i64) -> Result<(), AllocError> {
        self.moved.push(Covered {
            place: self.center.len(),
            penalty: most,
        })?;
        self.center.push(price)?;
        Ok(())
    }

    /// Takes the prices if they say most so far, and moves them.
    fn step(&mut self, alloc: Global) -> Result<(), AllocError> {
        clear(&mut self.covers, self.center.len())?;
        let mut sum = sum_of_terms(&self.way.prices, &self.pairings);
        for i in 0..self.persons.len() {
            sum = sum.wrapping_add(self.cover(i)?);
        }
        judge(alloc, &mut self.way, sum)?;
        advance(
            &mut self.way,
            &self.covers,
            &self.center,
            &self.moved,
            MOST_STRIDE_OF_SKETCH,
        );
        Ok(())
    }

    /// Covers with one of the persons. What that costs.
    fn cover(&mut self, i: usize) -> Result<i64, AllocError> {
        if i >= self.persons.len() {
            return Ok(0);
        }
        let at = self.count.wrapping_add(i.wrapping_mul(2));
        let (flight, load) = (at, at.wrapping_add(1));
        let one = &mut self.persons[i];
        let saved = a_minute(amount_at(&self.way.prices, flight), self.mean);
        let worth = one.near_worth(saved.wrapping_neg(), self.weight);
        put(
            &mut self.way.prices,
            flight,
            worth.wrapping_mul(self.mean).wrapping_neg(),
        );
        let toll = a_minute(amount_at(&self.way.prices, load), self.mean).wrapping_neg();
        let minute = Minute {
            flight: worth,
            load: toll,
        };
        let cost = one.cover(&self.way, minute, self.weight, &mut self.covers)?;
        put(
            &mut self.covers,
            flight,
            one.cover_of_flight(worth, self.weight),
        );
        put(&mut self.covers, load, one.cover_of_load(toll));
        Ok(cost)
    }
}
