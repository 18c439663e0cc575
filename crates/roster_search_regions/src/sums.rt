//! Sums of prices on a path.

ghost use Rattle.std.specs.Prelude.{◌≡◌, ◌-ℤ◌, [], ℕ, ℤ, List};
ghost use Rattle.roster_model.specs.Costs.{total};
ghost use Rattle.roster_cost.specs.Amounts.{IsWithin};
ghost use Rattle.roster_search_regions.specs.Prices.{price_at, ArePrices};
ghost use Rattle.roster_search_regions.specs.Trees.{next_path, IsLimited};

use crate::choice::{Choice, MOST_DUAL_PRICE, MOST_VALUE};
use roster_model::limits::MOST_PAIRINGS;

/// How many sums a path has, at most: from none of its pairings to all.
const MOST_SUMS: usize = MOST_PAIRINGS + 1;

/// The sums of the prices of a path's pairings, from none of them to all.
#[derive(Drop)]
pub(crate) struct Sums {
    pub(crate) sums: [i64; MOST_SUMS],
    pub(crate) length: usize,
}

/// The price of the pairing at place `p` in parts of a cost unit, or 0 past the last.
pub fn price_of(prices: &[i64], p: usize) -> i64
    requires { ArePrices prices.now }
    ensures value { result ≡ price_at prices.now p }
    ensures bound { IsWithin MOST_DUAL_PRICE result }
{
    if p < prices.len() { prices[p] } else { 0 }
}

impl Sums {
    ghost use Rattle.roster_search_regions.specs.Prices.{AreSums};

    /// Those of the empty line.
    pub(crate) fn new() -> Sums
        ensures { (prices : List ℤ) → AreSums prices result [] }
    {
        Sums {
            sums: [0; MOST_SUMS],
            length: 0,
        }
    }

    /// Goes on to the next choice.
    pub(crate) fn step(&mut self, choice: &Choice, prices: &[i64])
        requires prices { ArePrices prices.now }
        requires limited { IsLimited choice.now }
        requires known { (path : List ℕ) × AreSums prices.now self.old path }
        ensures { (path : List ℕ) → AreSums prices.now self.old path
            → AreSums prices.now self.new (next_path path choice.now) }
    {
        if choice.depth == 0 {
            self.length = 0;
            return;
        }
        let mut at = usize::from(choice.depth) - 1;
        if self.length < at {
            at = self.length;
        }
        self.sums[at + 1] = self.sums[at] + price_of(prices, usize::from(choice.last));
        self.length = at + 1;
    }

    /// What the line of the choice that it has come to costs more than the empty one, less the prices of
    /// its pairings.
    pub(crate) fn value(&self, choice: &Choice) -> i64
        requires limited { IsLimited choice.now }
        requires known { (prices : List ℤ) × (path : List ℕ)
            × ArePrices prices × AreSums prices self.now path }
        ensures value { (prices : List ℤ) (path : List ℕ) → AreSums prices self.now path
            → result ≡ choice.now.extra -ℤ total (price_at prices) path }
        ensures bound { IsWithin MOST_VALUE result }
    {
        choice.extra - self.sums[self.length]
    }
}
