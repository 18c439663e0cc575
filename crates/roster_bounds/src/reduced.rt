//! Reduced costs: what lines cost beyond the prices of their pairings. They take 128 bits, since sums of
//! them are wanted.

ghost use Rattle.std.specs.Prelude.{◌≡◌, ◌⊎◌, ◌<◌, ◌≤◌, ◌≤ℤ◌, ◌-ℤ◌, ◌^◌, ℕ, All, IfOk, List, length, neg_ℤ};
ghost use Rattle.std.specs.Prelude.{pos, slice_index_or};
ghost use Rattle.std.specs.List.{range_with_len};
ghost use Rattle.std.specs.List.Sorted.{IsStrictlyIncreasing};
ghost use Rattle.roster_model.specs.Costs.{line_cost, total};
ghost use Rattle.roster_cost.specs.Amounts.{most_units};
ghost use Rattle.roster_cost.specs.Priced.{reduced_cost};
ghost use Rattle.roster_lines_table.specs.Person.{lines_at};
ghost use Rattle.roster_bounds.specs.Amounts.{AreReduced};
ghost use Rattle.roster_bounds.specs.Chosen.{ArePriced, AreSums, IsLeastReduced, IsReducedBound, line_set};
ghost use Rattle.roster_bounds.specs.Chosen.{price_at};

use crate::prices::{MOST_PRICE, Prices};
use roster_cost::units_of_set;
use roster_lines_table::Table;
use roster_model::limits::{MOST_PAIRINGS, MOST_PERSONS, MOST_UNITS};
use roster_problem::Problem;
use std::alloc::{AllocError, Global};

/// The reduced cost of line `i` of person `k`.
pub(crate) fn reduced(problem: &Problem, table: &Table, prices: &Prices, k: usize, i: usize) -> i128
    requires priced { ArePriced problem.now table.now prices.now }
    requires person { k < length problem.now.persons }
    requires line { i < length (lines_at table.now k) }
    ensures value { result
        ≡ reduced_cost problem.now (price_at prices.now) k (line_set table.now k i) }
    ensures bound { AreReduced 1 result }
{
    reduced_by(problem, table, prices, k, i, prices.sum(&table.set(k, i)))
}

/// The same, if the sum of the prices of its pairings is known.
fn reduced_by(
    problem: &Problem,
    table: &Table,
    prices: &Prices,
    k: usize,
    i: usize,
    sum: i64,
) -> i128
    requires priced { ArePriced problem.now table.now prices.now }
    requires person { k < length problem.now.persons }
    requires line { i < length (lines_at table.now k) }
    requires sum { sum ≡ total (price_at prices.now) (line_set table.now k i) }
    ensures value { result
        ≡ reduced_cost problem.now (price_at prices.now) k (line_set table.now k i) }
    ensures bound { AreReduced 1 result }
{
    saved_at_most(problem);
    // There are no more pairings than a book may have, and as many prices.
    let _ = problem.pairings();
    let _ = prices.len();
    difference(table.cost(k, i), sum)
}

/// The least reduced cost of a line of person `k`.
pub(crate) fn least_reduced(
    alloc: Global,
    problem: &Problem,
    table: &Table,
    prices: &Prices,
    k: usize,
) -> Result<i128, AllocError>
    requires priced { ArePriced problem.now table.now prices.now }
    requires person { k < length problem.now.persons }
    ensures least { IfOk result (IsLeastReduced problem.now prices.now k) }
    ensures bound { IfOk result (AreReduced 1) }
{
    // There are no more pairings than a book may have, and as many prices.
    let _ = problem.pairings();
    let _ = prices.len();
    let sums = price_sums(alloc, problem, table, prices, k)?;
    let mut least = MOST_REDUCED;
    for i in 0..table.width(k) {
        least = lesser(least, reduced_by(problem, table, prices, k, i, sums[i]));
    }
    Ok(least)
}

/// A number that no line of any person has a lower reduced cost than.
pub(crate) fn least_of_any(problem: &Problem, prices: &Prices) -> i128
    ensures least { (k : ℕ) → IsReducedBound problem.now prices.now k result }
    ensures bound { AreReduced 1 result }
{
    saved_at_most(problem);
    // There are no more pairings than a book may have, and as many prices.
    let _ = problem.pairings();
    let _ = prices.len();
    LEAST_REDUCED
}

/// The sum of reduced costs, one for each person.
pub(crate) fn sum_of(costs: &[i128]) -> i128
    requires few { length costs.now ≤ MOST_PERSONS }
    requires fits { (k : ℕ) → k < length costs.now → AreReduced 1 (slice_index_or costs.now k (pos 0)) }
    ensures value { result ≡ total (λ k. slice_index_or costs.now k (pos 0))
        (range_with_len 0 (length costs.now)) }
    ensures fits { AreReduced MOST_PERSONS result }
{
    let mut sum = 0;
    for cost in costs {
        sum += *cost;
    }
    sum
}

/// The lesser of two numbers.
pub(crate) fn lesser(number: i128, other: i128) -> i128
    ensures first { result ≤ℤ number }
    ensures second { result ≤ℤ other }
    ensures one { (result ≡ number) ⊎ (result ≡ other) }
{
    if number < other { number } else { other }
}

/// The first number without the second.
fn difference(number: i64, less: i64) -> i128
    ensures value { result ≡ number -ℤ less }
    ensures most { result ≤ℤ pos (2 ^ 64) }
{
    i128::from(number) - i128::from(less)
}

/// No line saves more than the units of all pairings.
fn saved_at_most(problem: &Problem)
    ensures { (k : ℕ) (set : List ℕ) → IsStrictlyIncreasing set
        → All (λ p. p < length problem.now.pairings) set
        → neg_ℤ (pos most_units) ≤ℤ line_cost problem.now k set }
{
    units_of_set();
    // There are no more pairings than a book may have.
    let _ = problem.pairings();
}

/// No reduced cost is above this.
pub(crate) const MOST_REDUCED: i128 = 1 << 64;

/// And none is below this: a line saves the units and the prices of all pairings at most.
const LEAST_REDUCED: i128 = -(MOST_PAIRINGS as i128 * (MOST_UNITS as i128 + MOST_PRICE as i128));

/// For each line of person `k` what its pairings have for prices, in all.
fn price_sums(
    alloc: Global,
    problem: &Problem,
    table: &Table,
    prices: &Prices,
    k: usize,
) -> Result<Vec<i64>, AllocError>
    requires priced { ArePriced problem.now table.now prices.now }
    requires person { k < length problem.now.persons }
    ensures { IfOk result (λ sums. AreSums table.now prices.now k
        (length (lines_at table.now k)) sums.items) }
{
    let width = table.width(k);
    let mut sums = Vec::with_capacity(alloc, width)?;
    for i in 0..width {
        let sum = price_sum(problem, table, prices, k, i, &sums);
        sums.push(sum)?;
    }
    Ok(sums)
}

/// The sum of line `i`, from those of the lines before it.
fn price_sum(
    problem: &Problem,
    table: &Table,
    prices: &Prices,
    k: usize,
    i: usize,
    sums: &[i64],
) -> i64
    requires priced { ArePriced problem.now table.now prices.now }
    requires person { k < length problem.now.persons }
    requires line { i < length (lines_at table.now k) }
    requires sums { AreSums table.now prices.now k i sums.now }
    ensures { result ≡ total (price_at prices.now) (line_set table.now k i) }
{
    if i == 0 {
        return prices.sum(&table.set(k, i));
    }
    // There are no more pairings than a book may have, and as many prices.
    let _ = problem.pairings();
    let _ = prices.len();
    let (parent, last) = table.lines(k).parent_and_last(i);
    sums[parent] + prices.at(last)
}
