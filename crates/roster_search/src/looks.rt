//! Who looks at the lines of a region: one thread, or several.

ghost use Rattle.std.specs.Prelude.{◌≡◌, ◌<◌};
ghost use Rattle.std.specs.Thread.{IsSync};
ghost use Rattle.roster_search_regions.specs.Regions.{IsRegion};

use roster_problem::Problem;
use roster_search_prices::Ascent;
use roster_search_regions::Region;
use roster_search_relaxation::Relaxation;
use std::alloc::{AllocError, Global};
use std::marker::Model;
use std::thread::Threads;

/// Looks at the lines of a region. It comes to the same, whoever does.
pub trait Looks {
    /// Whether it may be asked.
    ghost may_look: { Type 0 };

    /// Looks at lines at the prices of the ascent, and says whether it is worth to fix by them. The room is
    /// what a roster may cost, in parts of a cost unit, without what empty lines cost.
    fn at_prices(
        &self,
        alloc: Global,
        problem: &Problem,
        region: &Region,
        ascent: &mut Ascent,
        room: i64,
    ) -> Result<bool, AllocError>
        requires may_look { may_look }
        requires region { IsRegion problem.now region.now };

    /// Looks for lines that a linear program lacks.
    fn for_program(
        &self,
        alloc: Global,
        problem: &Problem,
        region: &Region,
        relaxation: &mut Relaxation,
    ) -> Result<(), AllocError>
        requires may_look { may_look }
        requires region { IsRegion problem.now region.now };
}

/// One thread looks.
pub(crate) struct OneThread;

impl Looks for OneThread {
    ghost may_look = { Unit };

    fn at_prices(
        &self,
        alloc: Global,
        problem: &Problem,
        region: &Region,
        ascent: &mut Ascent,
        room: i64,
    ) -> Result<bool, AllocError> {
        ascent.look(alloc, problem, region, room)
    }

    fn for_program(
        &self,
        _alloc: Global,
        problem: &Problem,
        region: &Region,
        relaxation: &mut Relaxation,
    ) -> Result<(), AllocError> {
        relaxation.look(problem, region)
    }
}

/// So many threads look, if there are lines enough for them. Contracts see how many.
#[derive(Drop)]
pub struct SeveralThreads<'a, R> {
    rt: &'a R,
    threads: usize,
}

impl<'a, R> Model for SeveralThreads<'a, R> {
    ghost use Rattle.std.specs.Prelude.{ℕ, ◌<◌};

    ghost Value = { ℕ };

    ghost view = { λ s. s.threads };

    ghost invariant = { λ s. 0 < s.threads };
}

impl<'a, R> SeveralThreads<'a, R> {
    /// So many threads.
    pub fn new(rt: &'a R, threads: usize) -> SeveralThreads<'a, R>
        requires { 0 < threads }
        ensures { result ≡ threads }
    {
        SeveralThreads { rt, threads }
    }
}

impl<'a, R: Threads + Sync> Looks for SeveralThreads<'a, R> {
    ghost may_look = { IsSync R.row };

    fn at_prices(
        &self,
        alloc: Global,
        problem: &Problem,
        region: &Region,
        ascent: &mut Ascent,
        room: i64,
    ) -> Result<bool, AllocError> {
        ascent.look_by_threads(self.rt, alloc, self.threads, problem, region, room)
    }

    fn for_program(
        &self,
        alloc: Global,
        problem: &Problem,
        region: &Region,
        relaxation: &mut Relaxation,
    ) -> Result<(), AllocError> {
        relaxation.look_by_threads(self.rt, alloc, self.threads, problem, region)
    }
}
