//! Looks of several threads for lines that a linear program lacks, and what it says of shares and open
//! pairings.

ghost use Rattle.std.specs.Prelude.{◌≡◌, ◌<◌, length};
ghost use Rattle.std.specs.Thread.{IsSync};
ghost use Rattle.roster_search_regions.specs.Regions.{IsRegion};

use crate::relaxation::Relaxation;
use crate::seeking::{Seeker, Sought};
use crate::tuning::LINES_A_PERSON;
use roster_problem::Problem;
use roster_search_regions::{LINES_FOR_THREADS, Region};
use std::alloc::{AllocError, Global};
use std::thread::{Threads, for_each_mut};

impl Relaxation {
    /// `look` by so many threads, if there are lines enough for them. It comes to the same.
    pub fn look_by_threads<R: Threads + Sync>(
        &mut self,
        rt: &R,
        alloc: Global,
        threads: usize,
        problem: &Problem,
        region: &Region,
    ) -> Result<(), AllocError>
        requires region { IsRegion problem.now region.now }
        requires threads { 0 < threads }
    {
        if threads == 1 || self.lines(problem, region) < LINES_FOR_THREADS {
            return self.look(problem, region);
        }
        self.put_limits()?;
        add_seekers(alloc, &mut self.seekers, threads, problem.pairings().len())?;
        let prices = self.now.prices();
        let sought = Sought {
            persons: &self.persons,
            limits: &self.limits,
            rows: &self.rows,
            most: LINES_A_PERSON,
        };
        let seek = |nth: usize, seeker: &mut Seeker|
            requires { IsRegion problem.now region.now × (0 < threads) }
        { seeker.at_every(problem, region, prices, sought, nth, threads) };
        for_each_mut(rt, &mut self.seekers, threads, &seek);
        self.gather(threads)?;
        self.note_bound(problem, region);
        Ok(())
    }

    /// How many lines the region has, those on the way to others included.
    fn lines(&self, problem: &Problem, region: &Region) -> usize
        requires { IsRegion problem.now region.now }
    {
        let mut lines: usize = 0;
        for k in &self.persons {
            if *k < problem.persons().len() {
                lines = lines.wrapping_add(region.choices(*k).len());
            }
        }
        lines
    }

    /// The pairings that have rows.
    pub(crate) fn pairings(&self) -> &[usize] {
        &self.pairings
    }

    /// The persons who have rows, by row.
    pub(crate) fn persons(&self) -> &[usize] {
        &self.persons
    }

    /// How large a part of the lines of the person of a row in the last solution has each pairing with a row,
    /// in thousandths, by row.
    pub(crate) fn put_shares(&self, row: usize, shares: &mut [u32])
        ensures { length shares.new ≡ length shares.old }
    {
        self.master.put_shares(row, shares);
    }

    /// How large a part of the last solution it is to leave the pairing at place `p` open, in thousandths;
    /// all of it if the pairing has no row, since nobody can have it.
    pub(crate) fn open_share(&self, p: usize) -> u32 {
        match self.row_of(p) {
            Some(row) => self.master.open_share(row),
            None => 1000,
        }
    }

    /// How many pairings with rows the last solution leaves open, in thousandths.
    pub(crate) fn open_count(&self) -> u64 {
        self.master.open_count()
    }

    /// How many pairings have no row: all of them are open.
    pub(crate) fn never_held(&self) -> usize {
        self.rows.len().saturating_sub(self.pairings.len())
    }

    /// How much work it was: how many columns have entered the basis.
    pub fn steps(&self) -> u64 {
        self.master.steps()
    }
}

/// Adds seekers until there is one for each of so many threads.
fn add_seekers(
    alloc: Global,
    seekers: &mut Vec<Seeker>,
    threads: usize,
    pairings: usize,
) -> Result<(), AllocError> {
    for _ in seekers.len()..threads {
        seekers.push(Seeker::new(alloc, pairings)?)?;
    }
    Ok(())
}
