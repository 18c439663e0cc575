//! When a linear program is solved no more, since no better prices are worth it.

ghost use Rattle.roster_search_regions.specs.Regions.{IsRegion};

use crate::relaxation::Relaxation;
use crate::tuning::NEAR_PART_OF_GRAIN;
use roster_problem::Problem;
use roster_search_regions::Region;
use std::alloc::AllocError;

impl Relaxation {
    /// Whether the prices of the last solution are those of the greatest bound since the last beginning.
    pub fn is_best(&self) -> bool {
        self.bound >= self.best_bound
    }

    /// Whether to solve it again, after a look, for better prices. The region may have become smaller since.
    pub fn goes_on(
        &mut self,
        problem: &Problem,
        region: &Region,
        is_smaller: bool,
    ) -> Result<bool, AllocError>
        requires { IsRegion problem.now region.now }
    {
        if is_smaller {
            self.mark(problem, region)?;
            return Ok(true);
        }
        if !self.is_new {
            return Ok(self.master.uses_forbidden() && self.master.raise());
        }
        Ok(!self.is_near())
    }

    /// Whether no cost that a roster may have lies between the bound and what the last solution costs.
    fn is_near(&self) -> bool {
        let little = self.grain / NEAR_PART_OF_GRAIN;
        let cost = self.master.value().saturating_add(self.apart);
        let cost = cost.saturating_sub(little);
        grains_up(cost, self.grain) <= grains_up(self.best_bound, self.grain)
    }
}

/// How many parts of a cost unit lie between one cost of a roster and the next, at least.
pub(crate) fn grain_of(region: &Region) -> i64 {
    i64::from(region.scale())
        .saturating_mul(region.unit() as i64)
        .max(1)
}

/// `grain_of`, or the most that a word of 32 bits holds.
pub(crate) fn grain_in_word(region: &Region) -> u32 {
    grain_of(region).clamp(1, i64::from(u32::MAX)) as u32
}

/// The least number of grains that isn't less than so many parts.
fn grains_up(parts: i64, grain: i64) -> i64 {
    let grain = grain.max(1);
    (parts / grain).saturating_add(i64::from(parts % grain > 0))
}
