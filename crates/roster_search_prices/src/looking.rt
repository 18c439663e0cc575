//! Looks at lines, which tell the bound that prices give.

ghost use Rattle.std.specs.Prelude.{◌<◌};
ghost use Rattle.roster_search_regions.specs.Regions.{IsRegion};

use crate::ascent::Ascent;
use crate::look::{Aim, Look};
use crate::tuning::{FAIR_RISE, FEW_LINES_AT_A_NODE, FIXING_RISE, NEAR_HALVINGS, SAMPLE_LINES};
use roster_problem::Problem;
use roster_search_regions::{LINES_FOR_THREADS, Region};
use std::alloc::{AllocError, Global};
use std::thread::{Threads, for_each_mut};

/// What a look at all lines is to find out.
#[derive(Clone, Copy)]
struct Turn {
    // It ends steps on a sample.
    from_sample: bool,
    // What near lines say that persons add, if they were looked at.
    expected: Option<i64>,
    // It lists the lines within this reach of the least.
    reach: Option<i64>,
}

impl Ascent {
    /// Looks at lines of the region at the prices, and says whether it is worth to fix by them: since
    /// the bound exceeds the room, or since it rose well. The room is what a roster may cost, in parts of
    /// a cost unit, without what empty lines cost.
    pub fn look(
        &mut self,
        alloc: Global,
        problem: &Problem,
        region: &Region,
        room: i64,
    ) -> Result<bool, AllocError>
        requires { IsRegion problem.now region.now }
    {
        if self.looks_near(alloc, problem, region, room)? {
            return Ok(false);
        }
        let turn = self.turn(alloc, problem, region)?;
        self.look_whole(alloc, problem, region, turn.reach)?;
        self.near.take(&mut self.look);
        Ok(self.noted(problem, region, room, turn))
    }

    /// `look` by so many threads, if there are lines enough for them. It comes to the same.
    pub fn look_by_threads<R: Threads + Sync>(
        &mut self,
        rt: &R,
        alloc: Global,
        threads: usize,
        problem: &Problem,
        region: &Region,
        room: i64,
    ) -> Result<bool, AllocError>
        requires region { IsRegion problem.now region.now }
        requires threads { 0 < threads }
    {
        if threads == 1 || self.scope.lines() < LINES_FOR_THREADS {
            return self.look(alloc, problem, region, room);
        }
        if self.looks_near(alloc, problem, region, room)? {
            return Ok(false);
        }
        let turn = self.turn(alloc, problem, region)?;
        self.look_whole_by_threads(rt, alloc, threads, problem, region, turn.reach)?;
        Ok(self.noted(problem, region, room, turn))
    }

    /// Looks at all lines by so many threads, and lists those within the reach if there is one.
    fn look_whole_by_threads<R: Threads + Sync>(
        &mut self,
        rt: &R,
        alloc: Global,
        threads: usize,
        problem: &Problem,
        region: &Region,
        reach: Option<i64>,
    ) -> Result<(), AllocError>
        requires region { IsRegion problem.now region.now }
        requires threads { 0 < threads }
    {
        add_looks(alloc, &mut self.looks, threads, problem.pairings().len())?;
        let aim = Aim {
            prices: &self.now,
            scope: &self.scope,
            reach,
        };
        let look = |nth: usize, look: &mut Look|
            requires { IsRegion problem.now region.now × (0 < threads) }
        { look.at_every(alloc, problem, region, aim, nth, threads) };
        for_each_mut(rt, &mut self.looks, threads, &look);
        self.gather()
    }

    /// Puts together what threads have looked at.
    fn gather(&mut self) -> Result<(), AllocError> {
        self.look.clear(self.scope.pairings());
        for i in 0..self.looks.len() {
            if i < self.looks.len() {
                self.look.join(&self.looks[i], &self.scope);
                self.near.take(&mut self.looks[i]);
            }
        }
        self.look.whole()
    }

    /// Looks at all lines, and lists those within the reach if there is one.
    fn look_whole(
        &mut self,
        alloc: Global,
        problem: &Problem,
        region: &Region,
        reach: Option<i64>,
    ) -> Result<(), AllocError>
        requires { IsRegion problem.now region.now }
    {
        let aim = Aim {
            prices: &self.now,
            scope: &self.scope,
            reach,
        };
        self.look.at_every(alloc, problem, region, aim, 0, 1);
        self.look.whole()
    }

    /// Looks at a sample or at near lines, if it isn't time to look at all.
    fn looks_near(
        &mut self,
        alloc: Global,
        problem: &Problem,
        region: &Region,
        room: i64,
    ) -> Result<bool, AllocError>
        requires { IsRegion problem.now region.now }
    {
        if self.is_root
            && self.full
            && self.near.is_new()
            && self.scope.lines() > 2 * SAMPLE_LINES
        {
            let (persons, lines) = (self.scope.persons(), self.scope.lines());
            self.near.draw(alloc, problem, region, persons, lines)?;
            self.best.forget();
        }
        if self.near.is_due() {
            return Ok(false);
        }
        self.full = false;
        self.near.count_look();
        let bound = self.near_bound(problem, region)?;
        let bound = self.bound_with(problem, region, bound);
        self.note(bound, room);
        Ok(true)
    }

    /// Looks at lines that are listed, and tells what persons add.
    fn near_bound(&mut self, problem: &Problem, region: &Region) -> Result<i64, AllocError>
        requires { IsRegion problem.now region.now }
    {
        let (prices, scope) = (&self.now, &self.scope);
        self.look
            .at_near(problem, region, prices, scope, &self.near)?;
        Ok(self.look.bound())
    }

    /// The bound, if persons add so much.
    fn bound_with(&self, problem: &Problem, region: &Region, values: i64) -> i64 {
        self.scope.bound(problem, region, self.now.prices(), values)
    }

    /// Begins a look at all lines.
    fn turn(
        &mut self,
        alloc: Global,
        problem: &Problem,
        region: &Region,
    ) -> Result<Turn, AllocError>
        requires { IsRegion problem.now region.now }
    {
        let mut turn = Turn {
            from_sample: self.near.is_sample(),
            expected: None,
            reach: None,
        };
        if turn.from_sample {
            self.now.stop();
            self.best.forget();
            self.fixed = None;
        } else if !self.near.is_all() {
            turn.expected = Some(self.near_bound(problem, region)?);
        }
        if self.is_root
            && self.sure.bound != i64::MIN
            && self.near.is_to_be_made(self.scope.lines())
        {
            let reach = NEAR_HALVINGS << self.now.softness().saturating_add(5).min(50);
            self.near.begin(alloc, problem.persons().len(), reach)?;
            turn.reach = Some(reach);
        } else {
            self.near.count_look();
        }
        Ok(turn)
    }

    /// Takes note of a look at all lines, and says whether it is worth to fix.
    fn noted(&mut self, problem: &Problem, region: &Region, room: i64, turn: Turn) -> bool {
        self.full = true;
        if turn.reach.is_some() {
            self.near.end(self.scope.lines());
        }
        let bound = self.bound_with(problem, region, self.look.bound());
        if turn.from_sample && bound < self.sure.bound {
            self.go_back();
            return false;
        }
        if let Some(expected) = turn.expected {
            let had_all = expected <= self.look.bound();
            self.near.trust(had_all);
            if !had_all {
                self.best.take(&self.sure.prices, self.sure.bound);
            }
        }
        if turn.from_sample || bound > self.sure.bound {
            self.sure.take(&self.now, bound);
        }
        if turn.expected.is_some() && self.near.misleads(self.scope.lines()) {
            self.go_back();
            return false;
        }
        let is_worth = self.is_worth_fixing(bound, room);
        self.note(bound, room);
        is_worth
    }

    /// Goes back to where it was before steps that led astray.
    fn go_back(&mut self) {
        self.now.take(&self.sure.prices);
        self.sure.forget();
        self.near.leave();
        self.stays = true;
    }

    /// Whether lines are left out at the prices: their bound is the best, and is beyond the room or rose well.
    fn is_worth_fixing(&self, bound: i64, room: i64) -> bool {
        bound > self.best.bound && (bound > room || self.rose_well(bound, room))
    }

    /// Takes note of the bound at the prices.
    fn note(&mut self, bound: i64, room: i64) {
        if self.is_worth_fixing(bound, room) {
            self.fixed = Some(bound);
        }
        let rise = bound.saturating_sub(self.best.bound);
        let fair = rise.saturating_mul(FAIR_RISE) >= room.saturating_sub(self.best.bound);
        self.stalled = if rise > 0 && fair {
            0
        } else {
            self.stalled.saturating_add(1)
        };
        if rise > 0 {
            self.best.take(&self.now, bound);
        }
    }

    /// Whether the bound has risen well since lines were left out. If none were yet, prices at a node tell
    /// enough, since they are those of the node above; at a root they tell little.
    fn rose_well(&self, bound: i64, room: i64) -> bool {
        let Some(fixed) = self.fixed else {
            return !self.is_root && self.is_some_line_beyond(room.saturating_sub(bound));
        };
        let rise = bound.saturating_sub(fixed);
        rise.saturating_mul(FIXING_RISE) > room.saturating_sub(fixed)
    }

    /// Whether some line is further from the least of its person than the gap, or lines are so few that it
    /// doesn't matter.
    fn is_some_line_beyond(&self, gap: i64) -> bool {
        self.scope.lines() < FEW_LINES_AT_A_NODE || self.look.spread() > gap
    }

    /// Looks at all lines once more, at the best prices: the bound that is told is then theirs.
    pub fn confirm(
        &mut self,
        alloc: Global,
        problem: &Problem,
        region: &Region,
    ) -> Result<(), AllocError>
        requires { IsRegion problem.now region.now }
    {
        if self.best.bound == self.sure.bound {
            return Ok(());
        }
        self.now.take(&self.best.prices);
        self.renew(problem, region)?;
        self.look_whole(alloc, problem, region, None)?;
        let bound = self.bound_with(problem, region, self.look.bound());
        self.best.bound = bound;
        if bound < self.sure.bound {
            self.best.take(&self.sure.prices, self.sure.bound);
        }
        Ok(())
    }
}

/// Adds looks until there is one for each of so many threads.
fn add_looks(
    alloc: Global,
    looks: &mut Vec<Look>,
    threads: usize,
    pairings: usize,
) -> Result<(), AllocError> {
    for _ in looks.len()..threads {
        looks.push(Look::new(alloc, pairings)?)?;
    }
    Ok(())
}
