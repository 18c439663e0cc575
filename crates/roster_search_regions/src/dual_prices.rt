//! Dual prices of pairings.

ghost use Rattle.std.specs.Prelude.{◌≡◌, IfOk};
ghost use Rattle.roster_cost.specs.Amounts.{IsWithin};
ghost use Rattle.roster_search_regions.specs.Prices.{ArePrices, IsPrice};

use crate::choice::MOST_DUAL_PRICE;
use crate::reading::number_at;
use crate::region::Region;
use roster_problem::Problem;
use std::alloc::{AllocError, Global};
use std::marker::Model;

/// What each pairing earns the line that holds it, in parts of a cost unit: one price for each, within
/// `MOST_DUAL_PRICE`. They move step by step, and keep their direction as a falling stone does. Contracts see
/// only the prices.
#[derive(Drop)]
pub struct DualPrices {
    prices: Vec<i64>,
    velocities: Vec<i64>,
    // A line whose value is 2^(softness + 5) above the least weighs half as much as the best.
    softness: u32,
    // How many steps the velocities have grown.
    pace: u32,
    // What each open pairing is paid.
    paid: i64,
}

impl Model for DualPrices {
    ghost use Rattle.std.specs.Prelude.{List, ℤ};

    ghost Value = { List ℤ };

    ghost view = { λ d. d.prices.items };

    ghost use Rattle.roster_search_regions.specs.Prices.{ArePrices};

    ghost invariant = { λ d. ArePrices d.prices.items };
}

/// The amount, or the nearest that a price may be.
fn limited(amount: i64) -> i64
    ensures { IsWithin MOST_DUAL_PRICE result }
{
    amount.clamp(-(MOST_DUAL_PRICE as i64), MOST_DUAL_PRICE as i64)
}

/// The penalty of the pairing at place `p` in parts of a cost unit, or 0 past the last.
pub fn scaled_penalty(problem: &Problem, scale: u32, p: usize) -> i64 {
    if p < problem.pairings().len() {
        i64::from(problem.pairing(p).penalty).wrapping_mul(i64::from(scale))
    } else {
        0
    }
}

/// The greatest of the numbers, or 1.
fn greatest(numbers: &[i64]) -> u64 {
    let mut greatest = 1;
    for number in numbers {
        let size = number.unsigned_abs();
        if size > greatest {
            greatest = size;
        }
    }
    greatest
}

impl DualPrices {
    /// Nothing for any of so many pairings.
    fn nothing(alloc: Global, pairings: usize) -> Result<DualPrices, AllocError> {
        Ok(DualPrices {
            prices: vec![in alloc; 0; pairings]?,
            velocities: vec![in alloc; 0; pairings]?,
            softness: 0,
            pace: 0,
            paid: 0,
        })
    }

    /// Each pairing at its penalty: at these prices it is the same to leave a pairing open.
    pub fn of_penalties(
        alloc: Global,
        problem: &Problem,
        region: &Region,
    ) -> Result<DualPrices, AllocError> {
        let mut dual = DualPrices::nothing(alloc, problem.pairings().len())?;
        for p in 0..problem.pairings().len() {
            dual.put(p, scaled_penalty(problem, region.scale(), p));
        }
        let size = greatest(&dual.prices);
        dual.softness = if size < 256 { 0 } else { size.ilog2() - 8 };
        Ok(dual)
    }

    /// These prices, each in so many parts of a cost unit, or one if that is 0. A pairing that has none there
    /// has price 0. The softness is that of the penalties, whatever these prices are.
    pub fn of_parts(
        alloc: Global,
        problem: &Problem,
        region: &Region,
        prices: &[i64],
        parts: u32,
    ) -> Result<DualPrices, AllocError> {
        let mut dual = DualPrices::of_penalties(alloc, problem, region)?;
        let scale = i64::from(region.scale());
        for p in 0..problem.pairings().len() {
            let price = number_at(prices, p).saturating_mul(scale);
            dual.put(p, price / i64::from(parts).max(1));
        }
        Ok(dual)
    }

    /// Sets the price of the pairing at place `p`.
    fn put(&mut self, p: usize, amount: i64) {
        if p < self.prices.len() {
            self.prices[p] = limited(amount);
        }
    }

    /// The prices.
    pub fn prices(&self) -> &[i64]
        ensures value { result.now ≡ self.now }
        ensures limits { ArePrices result.now }
    {
        &self.prices
    }

    /// What each open pairing is paid, in parts of a cost unit: prices tell more by it if only so many may be
    /// open, or so many must.
    pub fn paid(&self) -> i64
        ensures { IsPrice result }
    {
        limited(self.paid)
    }

    /// Pays so much for each open pairing, or the nearest that a price may be.
    pub fn pay(&mut self, amount: i64)
        ensures { self.new ≡ self.old }
    {
        self.paid = amount;
    }

    /// How far lines above the least still count: one whose value is 2^(softness + 5) parts of a cost unit
    /// above it weighs half as much as the best.
    pub fn softness(&self) -> u32 {
        self.softness
    }

    /// How fast the price of the pairing at place `p` moves, in parts of a cost unit a step, or 0 past the
    /// last.
    pub fn velocity(&self, p: usize) -> i64 {
        number_at(&self.velocities, p)
    }

    /// The same prices, at rest.
    pub fn copy(&self, alloc: Global) -> Result<DualPrices, AllocError>
        ensures { IfOk result (λ copy. copy ≡ self.now) }
    {
        let prices = self.prices.clone()?;
        let velocities = vec![in alloc; 0; prices.len()]?;
        Ok(DualPrices {
            prices,
            velocities,
            softness: self.softness,
            pace: 0,
            paid: self.paid,
        })
    }

    /// Takes over other prices for the same pairings, their softness, and what open ones are paid. Prices for
    /// another number of pairings change nothing.
    pub fn take(&mut self, other: &DualPrices) {
        if self.prices.len() == other.prices.len() {
            self.prices.copy_from_slice(&other.prices);
            self.softness = other.softness;
            self.paid = other.paid;
        }
    }

    /// Begins to gather speed anew.
    pub fn rest(&mut self)
        ensures { self.new ≡ self.old }
    {
        self.pace = 0;
    }

    /// Comes to rest.
    pub fn stop(&mut self)
        ensures { self.new ≡ self.old }
    {
        self.velocities.fill(0);
        self.pace = 0;
    }

    /// Counts only lines closer to the least.
    pub fn sharpen(&mut self)
        ensures { self.new ≡ self.old }
    {
        self.softness = self.softness.saturating_sub(1);
        self.pace = 0;
    }

    /// Counts only lines as close to the least as this softness says, if it counts others too.
    pub fn sharpen_to(&mut self, softness: u32)
        ensures { self.new ≡ self.old }
    {
        if softness < self.softness {
            self.softness = softness;
            self.pace = 0;
        }
    }

    /// Counts lines as far from the least as this softness says.
    pub fn begin_at(&mut self, softness: u32)
        ensures { self.new ≡ self.old }
    {
        self.softness = softness;
        self.pace = 0;
    }

    /// Counts lines further from the least too, for a smaller region.
    pub fn soften(&mut self)
        ensures { self.new ≡ self.old }
    {
        if self.softness < 40 {
            self.softness += 2;
        }
    }

    /// Moves the prices of these pairings by the amounts for them, and by what is left of how they moved
    /// before, in parts of a cost unit. It gives the farthest move.
    pub fn go(&mut self, pairings: &[usize], amounts: &[i64]) -> i64 {
        let mut farthest = 0;
        for (i, p) in pairings.iter().enumerate() {
            let far = self.go_one(*p, number_at(amounts, i)).saturating_abs();
            if far > farthest {
                farthest = far;
            }
        }
        self.pace = self.pace.saturating_add(1);
        farthest
    }

    /// Moves the price of the pairing at place `p`, and gives how far.
    fn go_one(&mut self, p: usize, amount: i64) -> i64 {
        let pace = i64::from(self.pace);
        let kept = self.velocity(p).wrapping_mul(pace) / (pace + 3);
        let velocity = limited(kept.wrapping_add(amount));
        if p < self.velocities.len() {
            self.velocities[p] = velocity;
            let moved = number_at(&self.prices, p).wrapping_add(velocity);
            self.put(p, moved);
        }
        velocity
    }
}
