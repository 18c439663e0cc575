//! Prices that rise at a root, and a linear program that goes on from them.

ghost use Rattle.std.specs.Prelude.{◌≡◌, IfOk, IsTrue, OnOk, length};
ghost use Rattle.roster_search_regions.specs.Regions.{IsRegion};

use crate::looks::Looks;
use crate::refining::left_in;
use crate::room::{likely, room};
use crate::tuning::{
    FEW_LINES_TO_FIX, FEW_ROWS, MOST_SOLUTIONS, ROOT_STEPS, STEPS_A_ROUNDING, STEPS_OF_FEW_ROWS,
    STEPS_OF_MANY_ROWS,
};
use roster_cost::roster_cost;
use roster_problem::Problem;
use roster_search_fixing::tighten;
use roster_search_least::RootPrices;
use roster_search_prices::{Ascent, rounded};
use roster_search_regions::{DualPrices, Region};
use roster_search_relaxation::Relaxation;
use std::alloc::{AllocError, Global};

/// Prices on their rise at a root.
#[derive(Drop)]
pub(crate) struct Rise {
    ascent: Ascent,
    // How many steps it takes at most.
    steps: usize,
    relaxation: Relaxation,
    // What is left of the region by the prices.
    part: Region,
    // The cheapest roster that was rounded.
    rounded: Option<Vec<u16>>,
    // What a roster must cost less than: the limit, or what that roster costs.
    most: i64,
}

impl Rise {
    /// Begins with these prices.
    pub(crate) fn new(
        alloc: Global,
        problem: &Problem,
        region: &Region,
        first: &DualPrices,
        limit: i64,
    ) -> Result<Rise, AllocError>
        requires { IsRegion problem.now region.now }
        ensures { IfOk result (λ rise. IsRegion problem.now rise.part) }
    {
        let part = region.copy(alloc)?;
        let ascent = Ascent::at_root(alloc, problem, region, first)?;
        let relaxation = Relaxation::new(alloc, problem, region)?;
        Ok(Rise {
            ascent,
            steps: steps_before(&relaxation),
            relaxation,
            part,
            rounded: None,
            most: limit,
        })
    }

    /// Raises the prices, and then those of a linear program, as far as that is worth it.
    pub(crate) fn raise<L: Looks>(
        &mut self,
        looks: &L,
        alloc: Global,
        problem: &Problem,
        region: &Region,
    ) -> Result<(), AllocError>
        requires may_look { L.may_look }
        requires region { IsRegion problem.now region.now }
        requires part { IsRegion problem.now self.old.part }
    {
        self.end(looks, alloc, problem, region)?;
        self.relax(looks, alloc, problem, region)
    }

    /// Raises the prices until that is no longer worth it.
    fn end<L: Looks>(
        &mut self,
        looks: &L,
        alloc: Global,
        problem: &Problem,
        region: &Region,
    ) -> Result<(), AllocError>
        requires may_look { L.may_look }
        requires region { IsRegion problem.now region.now }
        requires part { IsRegion problem.now self.old.part }
        ensures { OnOk result (IsRegion problem.now self.new.part) }
    {
        for step in 0..self.steps {
            let room = self.room(region);
            let is_worth = looks.at_prices(alloc, problem, &self.part, &mut self.ascent, room)?;
            if !self.goes_on(alloc, problem, region, is_worth, step)? {
                return Ok(());
            }
        }
        Ok(())
    }

    /// What may be paid.
    fn room(&self, region: &Region) -> i64 {
        room(region, self.most)
    }

    /// After a look, fixes if it is worth its time, rounds a roster now and then, and moves the prices. False
    /// if that is no longer worth it.
    fn goes_on(
        &mut self,
        alloc: Global,
        problem: &Problem,
        region: &Region,
        is_worth: bool,
        step: usize,
    ) -> Result<bool, AllocError>
        requires region { IsRegion problem.now region.now }
        requires part { IsRegion problem.now self.old.part }
        ensures { OnOk result (IsRegion problem.now self.new.part) }
    {
        if !self.fix(alloc, problem, region, is_worth)? {
            return Ok(false);
        }
        self.moves(alloc, problem, region, step)
    }

    /// After a look, rounds a roster now and then, and moves the prices. False if that is no longer worth it.
    fn moves(
        &mut self,
        alloc: Global,
        problem: &Problem,
        region: &Region,
        step: usize,
    ) -> Result<bool, AllocError>
        requires { IsRegion problem.now self.old.part }
        ensures { self.new.part ≡ self.old.part }
    {
        if self.ascent.is_sampling() {
            self.ascent.step(problem, &self.part)?;
            return Ok(true);
        }
        if step % STEPS_A_ROUNDING == 0 || self.is_last(step) {
            self.round(alloc, problem, step)?;
        }
        if self.is_last(step) || (self.is_at_end(region) && self.ascent.is_full()) {
            self.ascent.confirm(alloc, problem, &self.part)?;
            return Ok(false);
        }
        if self.is_at_end(region) {
            self.ascent.look_at_all();
            return Ok(true);
        }
        let room = self.room(region);
        self.ascent.sharpen_to_gap(room);
        self.ascent.step(problem, &self.part)?;
        Ok(true)
    }

    /// Whether it is the last step.
    fn is_last(&self, step: usize) -> bool {
        step >= self.steps.saturating_sub(1)
    }

    /// Whether all is decided, or nothing cheaper is left, as far as is known.
    fn is_at_end(&self, region: &Region) -> bool {
        self.ascent.is_decided() || self.ascent.bound() > room(region, self.most.saturating_sub(1))
    }

    /// Leaves out of the part what costs more than may be paid, if that is worth its time. False if all does,
    /// and then the part has all again.
    fn fix(
        &mut self,
        alloc: Global,
        problem: &Problem,
        region: &Region,
        is_worth: bool,
    ) -> Result<bool, AllocError>
        requires region { IsRegion problem.now region.now }
        requires part { IsRegion problem.now self.old.part }
        ensures { OnOk result (IsRegion problem.now self.new.part) }
    {
        if !is_worth || self.ascent.is_decided() || self.ascent.lines() > FEW_LINES_TO_FIX {
            return Ok(true);
        }
        if !tighten(
            alloc,
            problem,
            &mut self.part,
            self.ascent.prices(),
            0,
            self.most,
        )? {
            self.part = region.copy(alloc)?;
            return Ok(false);
        }
        self.ascent.renew(problem, &self.part)?;
        Ok(true)
    }

    /// Rounds a roster, which says how much may be paid if it costs less.
    fn round(&mut self, alloc: Global, problem: &Problem, step: usize) -> Result<(), AllocError>
        requires { IsRegion problem.now self.old.part }
        ensures { self.new.part ≡ self.old.part }
    {
        let room = room(&self.part, self.most.saturating_sub(1));
        let rounded = self.ascent.rounded(alloc, problem, &self.part, room, step)?;
        if let Some(places) = rounded {
            self.take(problem, places);
        }
        Ok(())
    }

    /// Takes these places if they cost less than those before.
    fn take(&mut self, problem: &Problem, places: Vec<u16>)
        requires { length places.items ≡ length problem.now.pairings }
        ensures { self.new.part ≡ self.old.part }
    {
        let cost = roster_cost(problem, &places);
        if cost < self.most {
            self.most = cost;
            self.rounded = Some(places);
        }
    }

    /// Whether a linear program may tell more: it has rows, and something cheaper may be left. Then it has
    /// its first lines, by the best prices, and the roster that was rounded.
    fn begins(
        &mut self,
        alloc: Global,
        problem: &Problem,
        region: &Region,
    ) -> Result<bool, AllocError>
        requires { IsRegion problem.now self.old.part }
        ensures { IfOk result (λ on. IsTrue on → IsRegion problem.now self.new.part) }
    {
        if !self.relaxation.is_on() || self.is_at_end(region) {
            return Ok(false);
        }
        let prices = self.ascent.best();
        if !tighten(alloc, problem, &mut self.part, prices, 0, self.most)? {
            return Ok(false);
        }
        self.relaxation.take_lines(problem, &self.part, prices)?;
        if let Some(places) = &self.rounded {
            self.relaxation.take_roster(problem, &self.part, places)?;
        }
        let room = self.room(region);
        self.relaxation.begin(alloc, problem, &self.part, room)?;
        Ok(true)
    }

    /// Solves a linear program, whose dual prices leave less of the part, as long as that is worth it.
    fn relax<L: Looks>(
        &mut self,
        looks: &L,
        alloc: Global,
        problem: &Problem,
        region: &Region,
    ) -> Result<(), AllocError>
        requires may_look { L.may_look }
        requires part { IsRegion problem.now self.old.part }
    {
        if !self.begins(alloc, problem, region)? {
            return Ok(());
        }
        for _ in 0..MOST_SOLUTIONS {
            self.relaxation.solve(alloc, problem, &self.part)?;
            looks.for_program(alloc, problem, &self.part, &mut self.relaxation)?;
            if !self.narrows(alloc, problem)? {
                return Ok(());
            }
        }
        Ok(())
    }

    /// Leaves out of the part what costs more than may be paid by the prices of the linear program, and
    /// rounds a roster by them at the end. False if that is no longer worth it.
    fn narrows(&mut self, alloc: Global, problem: &Problem) -> Result<bool, AllocError>
        requires { IsRegion problem.now self.old.part }
        ensures { IfOk result (λ on. IsTrue on → IsRegion problem.now self.new.part) }
    {
        let before = left_in(problem, &self.part);
        let prices = self.relaxation.prices();
        if !tighten(alloc, problem, &mut self.part, prices, 0, self.most)? {
            return Ok(false);
        }
        let is_smaller = left_in(problem, &self.part) < before;
        if self.relaxation.goes_on(problem, &self.part, is_smaller)? {
            return Ok(true);
        }
        let room = room(&self.part, self.most.saturating_sub(1));
        if let Some(places) = rounded(
            alloc,
            problem,
            &self.part,
            self.relaxation.prices(),
            room,
            0,
        )? {
            self.take(problem, places);
        }
        Ok(false)
    }

    /// The prices of the greatest bound.
    pub(crate) fn prices(self, region: &Region) -> RootPrices<Relaxation> {
        let bound = self.ascent.bound().max(self.relaxation.bound());
        let mut prices = self.ascent.into_best();
        if self.relaxation.bound() >= bound {
            prices.take(self.relaxation.best());
        }
        RootPrices {
            prices,
            guide: self.relaxation,
            likely: likely(region, bound),
            rounded: self.rounded,
        }
    }
}

/// How often prices move before a linear program is solved, or at most if there is none.
fn steps_before(relaxation: &Relaxation) -> usize {
    if !relaxation.is_on() {
        ROOT_STEPS
    } else if relaxation.rows() > FEW_ROWS {
        STEPS_OF_MANY_ROWS
    } else {
        STEPS_OF_FEW_ROWS
    }
}
