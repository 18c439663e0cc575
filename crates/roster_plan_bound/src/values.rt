//! What each pairing brings to a person at some prices.

ghost use Rattle.std.specs.Prelude.{◌≡◌, ◌-ℤ◌, ◌*ℤ◌, pos, IfOk};
ghost use Rattle.roster_model.specs.Problem.{units_of};
ghost use Rattle.roster_cost.specs.Amounts.{IsWithin};
ghost use Rattle.roster_plan_bound.specs.Networks.{AreValues};
ghost use Rattle.roster_plan_bound.specs.Reduced.{ArePrices};

use crate::parts::{MOST_CHAIN_VALUE, MOST_PLAN_PRICE, PARTS};
use roster_problem::Problem;
use std::alloc::{AllocError, Global};

/// What each pairing brings to person `k`: its units, less its price.
pub(crate) fn values_of(
    alloc: Global,
    problem: &Problem,
    k: usize,
    prices: &[i64],
) -> Result<Vec<i64>, AllocError>
    requires { ArePrices problem.now prices.now }
    ensures { IfOk result (λ values. AreValues problem.now prices.now k values.items) }
{
    let mut values = Vec::new(alloc);
    for (p, price) in prices.iter().enumerate() {
        values.push(value_of(problem, k, p, *price))?;
    }
    Ok(values)
}

/// The units of a pairing with person `k`, less its price.
fn value_of(problem: &Problem, k: usize, p: usize, price: i64) -> i64
    requires { IsWithin MOST_PLAN_PRICE price }
    ensures value { result ≡ (pos PARTS *ℤ units_of problem.now k p) -ℤ price }
    ensures within { IsWithin MOST_CHAIN_VALUE result }
{
    PARTS as i64 * problem.units(k, p) - price
}
