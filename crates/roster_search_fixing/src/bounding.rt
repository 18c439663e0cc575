//! What the rosters of a region cost at least, by dual prices.

ghost use Rattle.std.specs.Prelude.{◌≡◌, ◌≤◌, All, IfOk, length};
ghost use Rattle.roster_model.specs.Costs.{total};
ghost use Rattle.roster_cost.specs.Amounts.{IsWithin};
ghost use Rattle.roster_search_regions.specs.Prices.{ArePrices, IsPrice};
ghost use Rattle.roster_search_regions.specs.Regions.{IsRegion};
ghost use Rattle.roster_search_fixing.specs.Bounds.{bound_of, AreLeastValues, AreTerms};

use roster_model::limits::{MOST_PAIRINGS, MOST_PERSONS};
use roster_problem::Problem;
use roster_search_regions::{MOST_TERM, MOST_VALUE, Region, term};
use std::alloc::{AllocError, Global};

/// A bound, at most, and below 0, in parts of a cost unit: persons add values, and pairings add terms.
pub(crate) const MOST_BOUND: u64 = 1 << 61;

/// The sum of a few values.
fn sum_of(values: &[i64]) -> i64
    requires few { length values.now ≤ MOST_PAIRINGS }
    requires within { All (IsWithin MOST_VALUE) values.now }
    ensures { result ≡ total (λ value. value) values.now }
{
    let mut sum = 0;
    for value in values {
        sum += *value;
    }
    sum
}

/// The bound that persons' values and pairings' terms make. There are at most `MOST_PERSONS` values, and a
/// term is much smaller than a value, so two such sums and a limit fit a word.
pub(crate) fn sum_of_both(values: &[i64], terms: &[i64]) -> i64
    requires persons { length values.now ≤ MOST_PERSONS }
    requires pairings { length terms.now ≤ MOST_PAIRINGS }
    requires values { All (IsWithin MOST_VALUE) values.now }
    requires terms { All (IsWithin MOST_TERM) terms.now }
    ensures value { result ≡ bound_of values.now terms.now }
    ensures bound { IsWithin MOST_BOUND result }
{
    sum_of(values) + sum_of(terms)
}

/// The least value of each person's lines at the prices.
pub(crate) fn least_values(
    alloc: Global,
    problem: &Problem,
    region: &Region,
    prices: &[i64],
) -> Result<Vec<i64>, AllocError>
    requires region { IsRegion problem.now region.now }
    requires prices { ArePrices prices.now }
    ensures least { IfOk result
        (λ values. AreLeastValues problem.now region.now prices.now values.items) }
    ensures within { IfOk result (λ values. All (IsWithin MOST_VALUE) values.items) }
{
    let mut values = Vec::with_capacity(alloc, problem.persons().len())?;
    for k in 0..problem.persons().len() {
        values.push(region.least(k, prices))?;
    }
    Ok(values)
}

/// What each pairing adds at least, if open ones are paid so much.
pub(crate) fn terms(
    alloc: Global,
    problem: &Problem,
    region: &Region,
    prices: &[i64],
    paid: i64,
) -> Result<Vec<i64>, AllocError>
    requires prices { ArePrices prices.now }
    requires paid { IsPrice paid }
    ensures terms { IfOk result
        (λ terms. AreTerms problem.now region.now prices.now paid terms.items) }
    ensures within { IfOk result (λ terms. All (IsWithin MOST_TERM) terms.items) }
{
    let mut terms = Vec::with_capacity(alloc, problem.pairings().len())?;
    for p in 0..problem.pairings().len() {
        terms.push(term(problem, region, prices, paid, p))?;
    }
    Ok(terms)
}
