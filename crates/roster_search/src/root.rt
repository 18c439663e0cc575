//! Prices to begin with.

ghost use Rattle.roster_search_regions.specs.Regions.{IsRegion};

use crate::looks::Looks;
use crate::rise::Rise;
use roster_problem::Problem;
use roster_search_least::RootPrices;
use roster_search_regions::{DualPrices, Region};
use roster_search_relaxation::Relaxation;
use std::alloc::{AllocError, Global};

/// Raises prices from the given ones on, for rosters that cost less than the limit. One that is rounded on
/// the way lowers it; what costs more is left out of a copy of the region.
pub fn root_prices<L: Looks>(
    looks: &L,
    alloc: Global,
    problem: &Problem,
    region: &Region,
    first: &DualPrices,
    limit: i64,
) -> Result<RootPrices<Relaxation>, AllocError>
    requires may_look { L.may_look }
    requires region { IsRegion problem.now region.now }
{
    let mut rise = Rise::new(alloc, problem, region, first, limit)?;
    rise.raise(looks, alloc, problem, region)?;
    Ok(rise.prices(region))
}
