//! What rosters of a region may cost, in cost units and in parts of one.

use roster_search_regions::Region;

/// What a roster may cost that costs at most so much, in parts of a cost unit and without what empty
/// lines cost. Nothing rests on it.
pub(crate) fn room(region: &Region, most: i64) -> i64 {
    most.saturating_sub(region.idle())
        .saturating_mul(i64::from(region.scale()))
}

/// The least cost that isn't below a bound. Nothing rests on it.
pub(crate) fn likely(region: &Region, bound: i64) -> i64 {
    let scale = i64::from(region.scale()).max(1);
    region
        .idle()
        .saturating_add(bound / scale)
        .saturating_add(i64::from(bound % scale > 0))
}
