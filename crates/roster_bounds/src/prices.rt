//! Prices of pairings.

ghost use Rattle.std.specs.Prelude.{◌≡◌, ◌<◌, ◌≤◌, ◌*◌, ◌/◌, ◌↔◌, All, IfErr, IfOk, IsOk, IsTrue, [], length};
ghost use Rattle.std.specs.Prelude.{pos};
ghost use Rattle.roster_model.specs.Costs.{total};
ghost use Rattle.roster_model.specs.declared.limits.TheConstants.{MOST_PENALTY};
ghost use Rattle.roster_cost.specs.Amounts.{IsWithin};
ghost use Rattle.roster_bounds.specs.Amounts.{most_prices};
ghost use Rattle.roster_bounds.specs.Chosen.{halves_of, price_at};

use roster_problem::{Pairing, Problem};
use roster_values::Set;
use std::alloc::{AllocError, Global};
use std::marker::Model;

/// How far from 0 a price may be, in cost units.
pub const MOST_PRICE: u32 = 1_000_000_000;

/// Prices, each no further than `MOST_PRICE` from 0. Contracts see them as a list.
///
/// They needn't be good: any prices give lower bounds.
#[derive(Drop)]
pub struct Prices {
    prices: Vec<i64>,
}

impl Model for Prices {
    ghost use Rattle.std.specs.Prelude.{List, ℤ, All};
    ghost use Rattle.roster_cost.specs.Amounts.{IsWithin};
    ghost use Rattle.roster_bounds.specs.declared.prices.TheConstants.{MOST_PRICE};

    ghost Value = { List ℤ };

    ghost view = { λ p. p.prices.items };

    ghost invariant = { λ p. All (IsWithin MOST_PRICE) p.prices.items };
}

impl Prices {
    /// The prices in the vector; the vector again if one of them is too far from 0.
    pub fn new(prices: Vec<i64>) -> Result<Prices, Vec<i64>>
        ensures ok { IsOk result ↔ All (IsWithin MOST_PRICE) prices.items }
        ensures value { IfOk result (λ made. made ≡ prices.items) }
        ensures back { IfErr result (λ back. back ≡ prices) }
    {
        if prices.iter().all(|price| is_price(*price)) {
            Ok(Prices { prices })
        } else {
            Err(prices)
        }
    }

    /// So many halves of each pairing's penalty, rounded down.
    pub(crate) fn of_penalties(
        alloc: Global,
        problem: &Problem,
        halves: u32,
    ) -> Result<Prices, AllocError>
        requires { halves ≤ 2 }
        ensures { IfOk result (λ prices. prices ≡ halves_of problem.now halves) }
    {
        let pairings = problem.pairings();
        let mut prices = Vec::with_capacity(alloc, pairings.len())?;
        for pairing in pairings {
            prices.push(halves_of_penalty(pairing, halves))?;
        }
        Ok(Prices { prices })
    }

    /// How many there are.
    pub fn len(&self) -> usize
        ensures value { result ≡ length self.now }
        ensures within { All (IsWithin MOST_PRICE) self.now }
    {
        self.prices.len()
    }

    /// Whether there is none.
    pub fn is_empty(&self) -> bool
        ensures { IsTrue result ↔ (self.now ≡ []) }
    {
        self.prices.is_empty()
    }

    /// The price of the pairing at place `p`, in cost units.
    pub fn at(&self, p: usize) -> i64
        requires { p < length self.now }
        ensures value { result ≡ price_at self.now p }
        ensures bound { IsWithin MOST_PRICE result }
    {
        self.prices[p]
    }

    /// What the pairings of the set have for prices, in all.
    pub fn sum(&self, set: &Set) -> i64
        requires { All (λ p. p < length self.now) set.now }
        ensures value { result ≡ total (price_at self.now) set.now }
        ensures bound { IsWithin most_prices result }
    {
        let mut sum = 0;
        let mut from = 0;
        while let Some(p) = set.first_from(from) {
            sum += self.at(p);
            from = p + 1;
        }
        sum
    }
}

/// So many halves of the penalty, rounded down.
fn halves_of_penalty(pairing: &Pairing, halves: u32) -> i64
    requires halves { halves ≤ 2 }
    requires limit { pairing.now.penalty ≤ MOST_PENALTY }
    ensures value { result ≡ pos (pairing.now.penalty * halves / 2) }
    ensures fits { IsWithin MOST_PRICE result }
{
    (u64::from(pairing.penalty) * u64::from(halves) / 2) as i64
}

/// Whether the number is no further than `MOST_PRICE` from 0.
fn is_price(number: i64) -> bool
    ensures { IsTrue result ↔ IsWithin MOST_PRICE number }
{
    let most = i64::from(MOST_PRICE);
    -most <= number && number <= most
}
