//! The least roster of a region.

ghost use Rattle.std.specs.Prelude.{◌^◌, ◌-◌, ◌≤ℤ◌, ◌<ℤ◌, ℕ, IfOk, IfSome, List, OnOk, Some, neg_ℤ, pos};
ghost use Rattle.roster_model.specs.Costs.{cost_of};
ghost use Rattle.roster_model.specs.Rosters.{IsLegalRoster};
ghost use Rattle.roster_model.specs.Settled.{IsHeld, Settles};
ghost use Rattle.roster_search_regions.specs.Regions.{IsIn, IsRegion};
ghost use Rattle.roster_search_least.specs.Least.{CostsAtLeast, IsCheapestBelow, IsKnownBelow, IsLeastBelow};

use crate::cheapest::cheapest;
use crate::finder::Finder;
use crate::first::first;
use roster_cost::{cost_without_pairings, lines_are_near, roster_cost, shares_add_up};
use roster_problem::Problem;
use roster_search_fixing::{is_in, tighten};
use roster_search_regions::{DualPrices, Region};
use roster_values::{Places, Roster};
use std::alloc::{AllocError, Global};

/// Good prices for a region, what a finder goes by in its parts, what the least roster likely costs, and the
/// places of the cheapest one that was rounded. Nothing rests on any of them.
#[derive(Drop)]
pub struct RootPrices<G> {
    /// The prices.
    pub prices: DualPrices,
    /// What a finder goes by.
    pub guide: G,
    /// What the least roster likely costs, in cost units.
    pub likely: i64,
    /// The places of the roster that was rounded, if there is one.
    pub rounded: Option<Vec<u16>>,
}

/// The least roster of the region, with its cost, if it costs less than the limit; or none, and then each
/// of them costs at least that. Any prices and any rounded roster will do for it; good ones make it short.
pub fn least_of_region<F: Finder>(
    alloc: Global,
    problem: &Problem,
    region: Region,
    root: RootPrices<F::Guide>,
    limit: i64,
    finder: &mut F,
) -> Result<Option<Roster>, AllocError>
    requires finder { F.may_find }
    requires region { IsRegion problem.now region }
    ensures least { IfOk result (IsLeastBelow problem.now (IsIn problem.now region) limit) }
    ensures goes_on { F.goes_on finder.old finder.new }
{
    let mut region = region;
    let mut root = root;
    least_within(alloc, problem, &mut region, &mut root, limit, finder)
}

/// `least_of_region`, where the region and its prices are lent.
fn least_within<F: Finder>(
    alloc: Global,
    problem: &Problem,
    region: &mut Region,
    root: &mut RootPrices<F::Guide>,
    limit: i64,
    finder: &mut F,
) -> Result<Option<Roster>, AllocError>
    requires finder { F.may_find }
    requires region { IsRegion problem.now region.old }
    ensures least { IfOk result (IsLeastBelow problem.now (IsIn problem.now region.old) limit) }
    ensures goes_on { F.goes_on finder.old finder.new }
{
    costs_fit(problem);
    let known = known_below(alloc, problem, region, root.rounded.take(), limit)?;
    match cheapest_from(alloc, problem, region, root, known, limit, finder)? {
        Some(roster) => {
            let mut roster = roster;
            first_of_all(alloc, problem, region, &mut roster, root, finder)?;
            Ok(Some(roster))
        }
        None => Ok(None),
    }
}

/// The roster of these places, if it is one of the region and costs less than the limit.
fn known_below(
    alloc: Global,
    problem: &Problem,
    region: &Region,
    places: Option<Vec<u16>>,
    limit: i64,
) -> Result<Option<Roster>, AllocError>
    requires { IsRegion problem.now region.now }
    ensures { IfOk result (λ known. IfSome known
        (IsKnownBelow problem.now (IsIn problem.now region.now) limit)) }
{
    let Some(places) = places else {
        return Ok(None);
    };
    let Some(roster) = roster_in(alloc, problem, region, places)? else {
        return Ok(None);
    };
    if roster.cost >= limit {
        return Ok(None);
    }
    Ok(Some(roster))
}

/// The roster of these places, with its cost, if it is one of the region.
pub fn roster_in(
    alloc: Global,
    problem: &Problem,
    region: &Region,
    places: Vec<u16>,
) -> Result<Option<Roster>, AllocError>
    requires { IsRegion problem.now region.now }
    ensures held { IfOk result (λ roster. IfSome roster (IsHeld problem.now)) }
    ensures inside { IfOk result (λ roster. IfSome roster
        (λ roster. IsIn problem.now region.now roster.places)) }
{
    let places = Places::new(places);
    if !is_in(alloc, problem, region, places.as_slice())? {
        return Ok(None);
    }
    let cost = roster_cost(problem, places.as_slice());
    Ok(Some(Roster { places, cost }))
}

/// `cheapest`, if a roster of the region may be known that costs less than the limit: then nothing is asked
/// for that costs as much.
fn cheapest_from<F: Finder>(
    alloc: Global,
    problem: &Problem,
    region: &Region,
    root: &mut RootPrices<F::Guide>,
    known: Option<Roster>,
    limit: i64,
    finder: &mut F,
) -> Result<Option<Roster>, AllocError>
    requires finder { F.may_find }
    requires region { IsRegion problem.now region.now }
    requires known { IfSome known
        (IsKnownBelow problem.now (IsIn problem.now region.now) limit) }
    requires least { CostsAtLeast problem.now (IsIn problem.now region.now) (neg_ℤ (pos (2 ^ 63))) }
    ensures cheapest { IfOk result
        (IsCheapestBelow problem.now (IsIn problem.now region.now) limit) }
    ensures goes_on { F.goes_on finder.old finder.new }
{
    let most = match &known {
        Some(roster) => roster.cost,
        None => limit,
    };
    match cheapest(alloc, problem, region, root, i64::MIN, most, finder)? {
        Some(roster) => Ok(Some(roster)),
        None => Ok(known),
    }
}

/// The first in the list among the given roster and those of the region that cost as little; none there
/// costs less. What costs more is left out of the region before it begins.
fn first_of_all<F: Finder>(
    alloc: Global,
    problem: &Problem,
    region: &mut Region,
    roster: &mut Roster,
    root: &mut RootPrices<F::Guide>,
    finder: &mut F,
) -> Result<(), AllocError>
    requires finder { F.may_find }
    requires region { IsRegion problem.now region.old }
    requires held { IsHeld problem.now roster.old }
    requires least { CostsAtLeast problem.now (IsIn problem.now region.old) roster.old.cost }
    ensures settled { OnOk result (Settles problem.now (IsIn problem.now region.old)
        (IsIn problem.now region.old) (Some roster.old) roster.new) }
    ensures goes_on { F.goes_on finder.old finder.new }
{
    if !tighten(alloc, problem, region, root.prices.prices(), 0, roster.cost)? {
        return Ok(());
    }
    first(alloc, problem, region, roster, root, finder)
}

/// What a legal roster costs fits an `i64`, and is less than the greatest.
pub fn costs_fit(problem: &Problem)
    ensures low { (places : List ℕ) → IsLegalRoster problem.now places
        → neg_ℤ (pos (2 ^ 63)) ≤ℤ cost_of problem.now places }
    ensures high { (places : List ℕ) → IsLegalRoster problem.now places
        → cost_of problem.now places <ℤ pos (2 ^ 63 - 1) }
{
    problem.is_sound();
    shares_add_up();
    lines_are_near();
    let _idle = cost_without_pairings(problem);
}
