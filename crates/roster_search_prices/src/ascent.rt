//! Prices on their way up to a better bound.

ghost use Rattle.std.specs.Prelude.{◌≡◌, ◌<◌, IfOk, IfSome, length};
ghost use Rattle.roster_search_regions.specs.Prices.{ArePrices};
ghost use Rattle.roster_search_regions.specs.Regions.{IsRegion};

use crate::look::{Look, WHOLE};
use crate::near::NearLines;
use crate::powers::{halved, logarithm};
use crate::rounding::rounded_among;
use crate::scope::Scope;
use crate::tuning::{DAMPING, GAP_DOUBLINGS, NEAR_COVER, NODE_PATIENCE, ROOT_PATIENCE};
use roster_problem::Problem;
use roster_search_regions::{DualPrices, Region, number_at, scaled_penalty};
use std::alloc::{AllocError, Global};

/// Prices, and the bound that they give.
#[derive(Drop)]
pub(crate) struct Reached {
    pub(crate) prices: DualPrices,
    pub(crate) bound: i64,
}

impl Reached {
    /// No bound is known yet.
    fn nothing(alloc: Global, prices: &DualPrices) -> Result<Reached, AllocError> {
        Ok(Reached {
            prices: prices.copy(alloc)?,
            bound: i64::MIN,
        })
    }

    /// Takes over these.
    pub(crate) fn take(&mut self, prices: &DualPrices, bound: i64) {
        self.prices.take(prices);
        self.bound = bound;
    }

    /// Forgets the bound.
    pub(crate) fn forget(&mut self) {
        self.bound = i64::MIN;
    }
}

/// Prices that move towards those at which each pairing is held once, and the best so far: those with the
/// greatest bound, which is the least that a roster may cost. What it says of the bound is an estimate.
///
/// At a root it takes its first steps on a sample of the lines, and then looks mostly at lines near the
/// least of their person. At a node each look is at all lines.
#[derive(Drop)]
pub struct Ascent {
    pub(crate) now: DualPrices,
    pub(crate) best: Reached,
    // The best of looks at all lines.
    pub(crate) sure: Reached,
    // The bound by which lines were last left out, if any were.
    pub(crate) fixed: Option<i64>,
    pub(crate) stalled: u32,
    pub(crate) patience: u32,
    pub(crate) is_root: bool,
    // Whether the last look was at all lines, and whether the next step leaves the prices where they are.
    pub(crate) full: bool,
    pub(crate) stays: bool,
    pub(crate) scope: Scope,
    pub(crate) near: NearLines,
    pub(crate) look: Look,
    // Those of single threads.
    pub(crate) looks: Vec<Look>,
    pub(crate) amounts: Vec<i64>,
}

impl Ascent {
    /// From these prices on, at the root of a search.
    pub fn at_root(
        alloc: Global,
        problem: &Problem,
        region: &Region,
        prices: &DualPrices,
    ) -> Result<Ascent, AllocError>
        requires { IsRegion problem.now region.now }
    {
        Ascent::new(alloc, problem, region, prices, ROOT_PATIENCE, true)
    }

    /// From these prices on, at a node below.
    pub fn at_node(
        alloc: Global,
        problem: &Problem,
        region: &Region,
        prices: &DualPrices,
    ) -> Result<Ascent, AllocError>
        requires { IsRegion problem.now region.now }
    {
        Ascent::new(alloc, problem, region, prices, NODE_PATIENCE, false)
    }

    fn new(
        alloc: Global,
        problem: &Problem,
        region: &Region,
        prices: &DualPrices,
        patience: u32,
        is_root: bool,
    ) -> Result<Ascent, AllocError>
        requires { IsRegion problem.now region.now }
    {
        let scope = Scope::new(alloc, problem, region, prices.prices())?;
        let look = Look::new(alloc, prices.prices().len())?;
        let (now, best, sure) = starts(alloc, prices)?;
        Ok(Ascent {
            now,
            best,
            sure,
            fixed: None,
            stalled: 0,
            patience,
            is_root,
            full: false,
            stays: false,
            scope,
            near: NearLines::all(alloc),
            look,
            looks: Vec::new(alloc),
            amounts: Vec::new(alloc),
        })
    }

    /// The prices at which it is.
    pub fn prices(&self) -> &[i64]
        ensures { ArePrices result.now }
    {
        self.now.prices()
    }

    /// The prices of the greatest bound so far.
    pub fn best(&self) -> &[i64]
        ensures { ArePrices result.now }
    {
        self.best.prices.prices()
    }

    /// The prices of the greatest bound so far, for a part of the region.
    pub fn into_best(self) -> DualPrices {
        let mut best = self.best.prices;
        best.soften();
        best
    }

    /// The greatest bound so far, in parts of a cost unit, without what empty lines cost.
    pub fn bound(&self) -> i64 {
        self.best.bound
    }

    /// Whether each person has one line, as far as is known. Before the first look it isn't known.
    pub fn is_decided(&self) -> bool {
        self.best.bound != i64::MIN && self.scope.persons().is_empty()
    }

    /// How many lines are left of persons who have several, those on the way to others included.
    pub fn lines(&self) -> usize {
        self.scope.lines()
    }

    /// Whether the last look was at a sample of the lines, whose bound says little.
    pub fn is_sampling(&self) -> bool {
        self.near.is_sample()
    }

    /// Whether the last look was at all lines.
    pub fn is_full(&self) -> bool {
        self.full
    }

    /// Has the next look at all lines.
    pub fn look_at_all(&mut self) {
        self.near.hurry(self.scope.lines());
    }

    /// Takes note that the region has become smaller.
    pub fn renew(&mut self, problem: &Problem, region: &Region) -> Result<(), AllocError>
        requires { IsRegion problem.now region.now }
    {
        self.near.leave();
        self.scope.look(problem, region, self.now.prices())
    }

    /// Counts lines as far from the least as the gap between the bound and the room says.
    pub fn begin_at_gap(&mut self, room: i64) {
        let softness = self.softness_for(room);
        self.now.begin_at(softness);
    }

    /// Counts no lines further from the least than that.
    pub fn sharpen_to_gap(&mut self, room: i64) {
        let softness = self.softness_for(room);
        self.now.sharpen_to(softness);
    }

    /// The softness for the gap: what each person may add to it counts for half, or less.
    fn softness_for(&self, room: i64) -> u32 {
        let gap = room.saturating_sub(self.best.bound).max(1) as u64;
        let share = gap / self.scope.persons().len().max(1) as u64;
        share.max(1).ilog2().saturating_sub(GAP_DOUBLINGS)
    }

    /// Moves the prices by the last look: those of pairings that are held too often fall, the others rise.
    pub fn step(&mut self, problem: &Problem, region: &Region) -> Result<(), AllocError> {
        if self.stays {
            self.stays = false;
            return Ok(());
        }
        let mut agreement: i64 = 0;
        let mut furthest = 0;
        self.amounts.clear();
        for i in 0..self.scope.pairings().len() {
            let p = self.scope.pairing(i);
            let cover = self.cover(problem, region, p);
            furthest = furthest.max(cover.abs_diff(WHOLE));
            let amount = self.amount(cover);
            let product = (amount / 256).saturating_mul(self.now.velocity(p) / 256);
            agreement = agreement.saturating_add(product);
            self.amounts.push(amount)?;
        }
        if agreement < 0 {
            self.now.rest();
        }
        let farthest = self.now.go(self.scope.pairings(), &self.amounts);
        self.near.drift(farthest);
        if furthest < NEAR_COVER || self.stalled > self.patience {
            self.now.sharpen();
            self.stalled = 0;
        }
        Ok(())
    }

    /// How often the pairing at place `p` is held or left open.
    fn cover(&self, problem: &Problem, region: &Region, p: usize) -> u64 {
        let cover = self.look.cover(p);
        if region.is_flown(p) {
            return cover;
        }
        let price = number_at(self.now.prices(), p);
        let penalty = scaled_penalty(problem, region.scale(), p);
        cover.saturating_add(share_of_open(price, penalty, self.now.softness()))
    }

    /// How far the price of a pairing with this cover is to move.
    fn amount(&self, cover: u64) -> i64 {
        let softness = self.now.softness();
        let strength = if softness < 36 {
            1_i64 << softness
        } else {
            1_i64 << 36
        };
        logarithm(WHOLE)
            .wrapping_sub(logarithm(cover))
            .wrapping_mul(strength)
            / DAMPING
    }

    /// A roster that is rounded from the prices by the lines that count, as the function `rounded` does it.
    pub fn rounded(
        &self,
        alloc: Global,
        problem: &Problem,
        region: &Region,
        room: i64,
        turn: usize,
    ) -> Result<Option<Vec<u16>>, AllocError>
        requires { IsRegion problem.now region.now }
        ensures { IfOk result (λ places. IfSome places
            (λ places. length places.items ≡ length problem.now.pairings)) }
    {
        let prices = self.now.prices();
        rounded_among(alloc, problem, region, &self.near, prices, room, turn)
    }
}

/// Prices to be moved, and what is reached by them, at best and for sure.
fn starts(
    alloc: Global,
    prices: &DualPrices,
) -> Result<(DualPrices, Reached, Reached), AllocError> {
    let now = prices.copy(alloc)?;
    let best = Reached::nothing(alloc, prices)?;
    let sure = Reached::nothing(alloc, prices)?;
    Ok((now, best, sure))
}

/// How large a part it is to leave a pairing open, if it has this price and this penalty.
fn share_of_open(price: i64, penalty: i64, softness: u32) -> u64 {
    let weight = halved(price.wrapping_sub(penalty).unsigned_abs(), softness);
    let other = 1 << 30;
    let part = weight.wrapping_add(other) / WHOLE + 1;
    if price < penalty {
        weight / part
    } else {
        other / part
    }
}
