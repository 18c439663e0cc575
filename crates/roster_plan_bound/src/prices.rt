//! Prices of pairings, within their limits.

ghost use Rattle.std.specs.Prelude.{IfOk};
ghost use Rattle.roster_cost.specs.Amounts.{IsWithin};
ghost use Rattle.roster_plan_bound.specs.Reduced.{ArePrices};

use crate::lists::amount_at;
use crate::parts::MOST_PLAN_PRICE;
use roster_problem::Problem;
use std::alloc::{AllocError, Global};

/// No prices.
pub(crate) fn no_prices(alloc: Global, problem: &Problem) -> Result<Vec<i64>, AllocError>
    ensures { IfOk result (λ prices. ArePrices problem.now prices.items) }
{
    let prices = vec![in alloc; 0; problem.pairings().len()]?;
    Ok(prices)
}

/// For each pairing the price that is wanted, within the limits of prices.
pub(crate) fn limited(
    alloc: Global,
    problem: &Problem,
    wanted: &[i64],
) -> Result<Vec<i64>, AllocError>
    ensures { IfOk result (λ prices. ArePrices problem.now prices.items) }
{
    let mut prices = Vec::new(alloc);
    for p in 0..problem.pairings().len() {
        prices.push(limited_price(amount_at(wanted, p)))?;
    }
    Ok(prices)
}

/// The price within its limits.
fn limited_price(price: i64) -> i64
    ensures { IsWithin MOST_PLAN_PRICE result }
{
    price.clamp(-(MOST_PLAN_PRICE as i64), MOST_PLAN_PRICE as i64)
}
