//! What open pairings and the pairings of a bound add, in parts of a cost unit.

ghost use Rattle.std.specs.Prelude.{◌≡◌, ◌<◌, ◌≤◌, ◌*◌, ◌*ℤ◌, length, pos};
ghost use Rattle.roster_cost.specs.Amounts.{IsWithin};
ghost use Rattle.roster_search_regions.specs.Prices.{ArePrices, IsPrice};
ghost use Rattle.roster_search_regions.specs.Terms.{open_cost, paid_in, term_of};

use crate::choice::MOST_SCALE;
use crate::region::Region;
use crate::sums::price_of;
use roster_model::limits::{MOST_PAIRINGS, MOST_PENALTY};
use roster_problem::Problem;

/// A penalty, at most, in parts of a cost unit.
const MOST_FINE_PENALTY: u64 = 1 << 44;

/// What a pairing adds to a bound, at most, and below 0, in parts of a cost unit.
pub const MOST_TERM: u64 = 1 << 45;

/// What all open pairings are paid, at most, and below 0, in parts of a cost unit.
pub const MOST_PAID: u64 = 1 << 51;

/// A penalty in parts of a cost unit.
fn scaled(scale: u32, penalty: u32) -> i64
    requires scale { scale ≤ MOST_SCALE }
    requires penalty { penalty ≤ MOST_PENALTY }
    ensures value { result ≡ pos (scale * penalty) }
    ensures bound { IsWithin MOST_FINE_PENALTY result }
{
    (u64::from(scale) * u64::from(penalty)) as i64
}

/// What it costs to leave the pairing at place `p` open, less what an open pairing is paid.
pub fn cost_of_open(problem: &Problem, region: &Region, paid: i64, p: usize) -> i64
    requires pairing { p < length problem.now.pairings }
    requires paid { IsPrice paid }
    ensures value { result ≡ open_cost problem.now region.now paid p }
    ensures bound { IsWithin MOST_TERM result }
{
    problem.is_sound();
    scaled(region.scale(), problem.pairing(p).penalty) - paid
}

/// So many times an amount.
fn times(count: usize, amount: i64) -> i64
    requires count { count ≤ MOST_PAIRINGS }
    requires amount { IsPrice amount }
    ensures value { result ≡ pos count *ℤ amount }
    ensures bound { IsWithin MOST_PAID result }
{
    (count as i64) * amount
}

/// What the open pairings of a roster are paid at least, in all, if each is paid so much.
pub fn paid_for_open(region: &Region, paid: i64) -> i64
    requires { IsPrice paid }
    ensures value { result ≡ paid_in region.now paid }
    ensures bound { IsWithin MOST_PAID result }
{
    if paid >= 0 {
        return times(region.least_open(), paid);
    }
    times(region.most_open(), paid)
}

/// What the pairing at place `p` adds at least, if open ones are paid so much.
pub fn term(problem: &Problem, region: &Region, prices: &[i64], paid: i64, p: usize) -> i64
    requires pairing { p < length problem.now.pairings }
    requires prices { ArePrices prices.now }
    requires paid { IsPrice paid }
    ensures value { result ≡ term_of problem.now region.now prices.now paid p }
    ensures bound { IsWithin MOST_TERM result }
{
    let open = cost_of_open(problem, region, paid, p);
    let price = price_of(prices, p);
    if region.is_left_open(p) {
        return open;
    }
    if region.is_flown(p) || price <= open {
        return price;
    }
    open
}
