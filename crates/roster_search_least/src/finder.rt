//! What finds a roster of a region that costs at most so much.

ghost use Rattle.std.specs.Prelude.{IfOk};
ghost use Rattle.roster_search_regions.specs.Regions.{IsIn, IsRegion};
ghost use Rattle.roster_search_least.specs.Least.{IsCheapestWithin};

use roster_problem::Problem;
use roster_search_regions::{DualPrices, Region};
use roster_values::Roster;
use std::alloc::{AllocError, Global};

/// What a roster that is sought may cost, in cost units.
#[derive(Clone, Copy)]
pub struct Budget {
    /// It costs at most so much.
    pub most: i64,
    /// One that costs no more than this is enough: a cheaper one isn't sought then.
    pub enough: i64,
}

/// Finds a roster of a region that costs at most so much: one thread, or several.
pub trait Finder {
    /// What it goes by, and what one search leaves for the next.
    type Guide: Drop;

    /// Whether it may be asked.
    ghost may_find: { Type 0 };

    /// What becomes of it by finding and nothing else.
    ghost goes_on: { Self → Self → Type 0 };

    /// A roster of the region that costs at most so much, with its cost: a cheapest one, or one that costs no
    /// more than is enough; or none, and then each of them costs more. Any prices and any guide will do for
    /// it; good ones make it short.
    fn find(
        &mut self,
        alloc: Global,
        problem: &Problem,
        region: Region,
        prices: &DualPrices,
        guide: &mut Self::Guide,
        budget: Budget,
    ) -> Result<Option<Roster>, AllocError>
        requires may_find { may_find }
        requires region { IsRegion problem.now region }
        ensures found { IfOk result
            (IsCheapestWithin problem.now (IsIn problem.now region) budget.most budget.enough) }
        ensures goes_on { goes_on self.old self.new };

    ghost stays: { (now : Self) → goes_on now now };

    ghost follows: { (old mid new : Self) → goes_on old mid → goes_on mid new → goes_on old new };
}
