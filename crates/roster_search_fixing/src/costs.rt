//! Which costs the rosters of a region may have.

ghost use Rattle.std.specs.Prelude.{◌^◌, ◌-◌, ◌≤ℤ◌, ◌<ℤ◌, ◌-ℤ◌, ℕ, IfSome, List, pos};
ghost use Rattle.roster_model.specs.Costs.{cost_of};
ghost use Rattle.roster_search_regions.specs.Regions.{IsIn, IsRegion};
ghost use Rattle.roster_search_regions.specs.Units.{IsMultiple};
ghost use Rattle.roster_search_fixing.specs.Bounds.{CostsAtMost};

use roster_problem::Problem;
use roster_search_regions::Region;

/// How far a cost is above the next lower one that differs by so many units from what it costs that nobody
/// has a pairing; none if that is too far away to tell.
fn rest(region: &Region, cost: i64) -> Option<i64>
    ensures low { IfSome result (λ rest. pos 0 ≤ℤ rest) }
    ensures high { IfSome result (λ rest. rest <ℤ pos region.now.unit) }
    ensures multiple { IfSome result
        (λ rest. IsMultiple region.now.unit ((cost -ℤ region.now.idle) -ℤ rest)) }
{
    let above = cost.checked_sub(region.idle())?;
    Some(above.rem_euclid(region.unit() as i64))
}

/// A number up to this one, and no roster of the region costs what lies between: the greatest such number
/// that is so many units from what it costs that nobody has a pairing, if that can be told.
pub fn cost_at_most(problem: &Problem, region: &Region, most: i64) -> i64
    requires { IsRegion problem.now region.now }
    ensures most { result ≤ℤ most }
    ensures same { (places : List ℕ) → IsIn problem.now region.now places
        → CostsAtMost problem.now most places → CostsAtMost problem.now result places }
{
    let Some(rest) = rest(region, most) else {
        return most;
    };
    match most.checked_sub(rest) {
        Some(cost) => cost,
        None => most,
    }
}

/// A number above this one, and no roster of the region costs what lies between: the least such number that
/// is so many units from what it costs that nobody has a pairing, if that can be told.
pub fn cost_above(problem: &Problem, region: &Region, most: i64) -> i64
    requires region { IsRegion problem.now region.now }
    requires room { most <ℤ pos (2 ^ 63 - 1) }
    ensures above { most <ℤ result }
    ensures least { (places : List ℕ) → IsIn problem.now region.now places
        → most <ℤ cost_of problem.now places → result ≤ℤ cost_of problem.now places }
{
    let Some(rest) = rest(region, most) else {
        return most + 1;
    };
    match most.checked_add(region.unit() as i64 - rest) {
        Some(cost) => cost,
        None => most + 1,
    }
}
