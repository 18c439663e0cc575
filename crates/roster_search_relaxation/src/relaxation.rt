//! A linear program over some lines of a region, whose dual prices are good ones.

ghost use Rattle.roster_search_regions.specs.Prices.{ArePrices, IsPrice};
ghost use Rattle.roster_search_regions.specs.Regions.{IsRegion};

use crate::ending::{grain_in_word, grain_of};
use crate::gains::Gains;
use crate::program_rows::{NO_ROW, apart_from, pairings_of, penalties_of, persons_in, rows_of};
use crate::seeking::{Seeker, Sought};
use crate::tuning::{LINES_A_PERSON, MOST_ROWS, NEW_PART_OF_GRAIN};
use roster_problem::Problem;
use roster_search_lp::{Allowed, Master};
use roster_search_regions::{DualPrices, Region, number_at, paid_for_open, scaled_penalty, term};
use std::alloc::{AllocError, Global};

/// A linear program over some lines of a region and of its parts: parts of lines may make up a line, and
/// parts of rosters a roster. Its dual prices give bounds that come close to what that costs. If other lines
/// cost less at these prices they are added, and so on; it goes on from one part of the region to the next.
///
/// It has a row for each person who has several lines in the region that it is made for, and for each pairing
/// that one of them can have; and none if these are too many. Nothing that a search answers rests on it.
#[derive(Drop)]
pub struct Relaxation {
    pub(crate) master: Master,
    // By row: the persons, and the pairings.
    pub(crate) persons: Vec<usize>,
    pub(crate) pairings: Vec<usize>,
    // By pairing: its row, or `NO_ROW`.
    pub(crate) rows: Vec<usize>,
    // How many parts a cost unit has, and how many lie between one cost of a roster and the next, at least.
    scale: u32,
    pub(crate) grain: i64,
    // What pairings without a row cost, which are all open, in parts of a cost unit.
    pub(crate) apart: i64,
    // The dual prices of all pairings by the last solution, the bound that they give, and whether lines were
    // new that were found by them.
    pub(crate) now: DualPrices,
    pub(crate) bound: i64,
    pub(crate) is_new: bool,
    // Those of the greatest bound since the last beginning.
    best: DualPrices,
    pub(crate) best_bound: i64,
    // By row of a person: what lines may be used, and below which value they are sought.
    pub(crate) allowed: Vec<Allowed>,
    pub(crate) limits: Vec<i64>,
    pub(crate) seekers: Vec<Seeker>,
    // What branches on persons and pairings with rows brought.
    pub(crate) gains: Gains,
}

impl Relaxation {
    /// That of a region without a line but the empty ones, if it has few enough rows.
    pub fn new(alloc: Global, problem: &Problem, region: &Region) -> Result<Relaxation, AllocError>
        requires { IsRegion problem.now region.now }
    {
        let persons = persons_in(alloc, problem, region)?;
        let pairings = pairings_of(alloc, problem, region, &persons)?;
        if persons.len().saturating_add(pairings.len()) > MOST_ROWS {
            return Relaxation::of(alloc, problem, region, Vec::new(alloc), Vec::new(alloc));
        }
        Relaxation::of(alloc, problem, region, persons, pairings)
    }

    /// That of these persons and pairings.
    fn of(
        alloc: Global,
        problem: &Problem,
        region: &Region,
        persons: Vec<usize>,
        pairings: Vec<usize>,
    ) -> Result<Relaxation, AllocError> {
        let idle = vec![in alloc; 0; persons.len()]?;
        let penalties = penalties_of(alloc, problem, region, &pairings)?;
        let mut seekers = Vec::new(alloc);
        seekers.push(Seeker::new(alloc, problem.pairings().len())?)?;
        Ok(Relaxation {
            rows: rows_of(alloc, problem, &pairings)?,
            gains: Gains::new(alloc, persons.len().saturating_mul(pairings.len()))?,
            apart: apart_from(problem, region, &penalties),
            persons,
            pairings,
            scale: region.scale(),
            grain: grain_of(region),
            now: DualPrices::of_penalties(alloc, problem, region)?,
            bound: i64::MIN,
            is_new: false,
            best: DualPrices::of_penalties(alloc, problem, region)?,
            best_bound: i64::MIN,
            allowed: Vec::new(alloc),
            limits: Vec::new(alloc),
            seekers,
            master: Master::new(alloc, &idle, &penalties, grain_in_word(region))?,
        })
    }

    /// The same program, for another thread.
    pub fn copy(&self, alloc: Global) -> Result<Relaxation, AllocError> {
        let mut seekers = Vec::new(alloc);
        seekers.push(Seeker::new(alloc, self.rows.len())?)?;
        Ok(Relaxation {
            persons: self.persons.clone()?,
            pairings: self.pairings.clone()?,
            rows: self.rows.clone()?,
            scale: self.scale,
            grain: self.grain,
            apart: self.apart,
            now: self.now.copy(alloc)?,
            bound: self.bound,
            is_new: self.is_new,
            best: self.best.copy(alloc)?,
            best_bound: self.best_bound,
            allowed: Vec::new(alloc),
            limits: Vec::new(alloc),
            seekers,
            gains: self.gains.copy()?,
            master: self.master.copy(alloc)?,
        })
    }

    /// Whether it has rows. If it has none, its prices say nothing.
    pub fn is_on(&self) -> bool {
        !self.persons.is_empty()
    }

    /// How many rows it has.
    pub fn rows(&self) -> usize {
        self.persons.len().saturating_add(self.pairings.len())
    }

    /// Solves the program anew, and has its dual prices: those of pairings that may be open at most as high
    /// as their penalties.
    pub fn solve(
        &mut self,
        alloc: Global,
        problem: &Problem,
        region: &Region,
    ) -> Result<(), AllocError> {
        self.master.solve()?;
        let mut amounts = vec![in alloc; 0; problem.pairings().len()]?;
        for p in 0..amounts.len() {
            amounts[p] = self.price_of(problem, region, p);
        }
        self.now = DualPrices::of_parts(alloc, problem, region, &amounts, self.scale)?;
        self.now.pay(self.master.count_dual());
        Ok(())
    }

    /// The price of the pairing at place `p`. One without a row has its penalty, less what open ones are paid.
    fn price_of(&self, problem: &Problem, region: &Region, p: usize) -> i64 {
        let penalty = scaled_penalty(problem, self.scale, p).saturating_sub(
            self.master.count_dual(),
        );
        let Some(row) = self.row_of(p) else {
            return penalty;
        };
        let dual = number_at(self.master.prices(), row);
        if region.is_flown(p) || dual < penalty {
            dual
        } else {
            penalty
        }
    }

    /// The row of the pairing at place `p`, if it has one.
    pub(crate) fn row_of(&self, p: usize) -> Option<usize> {
        match self.rows.get(p) {
            Some(row) if *row != NO_ROW => Some(*row),
            _ => None,
        }
    }

    /// The prices of the last solution.
    pub fn prices(&self) -> &[i64]
        ensures { ArePrices result.now }
    {
        self.now.prices()
    }

    /// What each open pairing is paid by the last solution.
    pub fn paid(&self) -> i64
        ensures { IsPrice result }
    {
        self.now.paid()
    }

    /// The prices of the greatest bound since the last beginning.
    pub fn best(&self) -> &DualPrices {
        &self.best
    }

    /// The greatest bound since the last beginning, in parts of a cost unit, without what empty lines cost;
    /// it is an estimate.
    pub fn bound(&self) -> i64 {
        self.best_bound
    }

    /// Looks at all lines at the prices of the last solution: at the bound that these give, and for lines
    /// that are cheaper than those that there are, which it adds.
    pub fn look(&mut self, problem: &Problem, region: &Region) -> Result<(), AllocError>
        requires { IsRegion problem.now region.now }
    {
        self.put_limits()?;
        if let Some(seeker) = self.seekers.first_mut() {
            let sought = Sought {
                persons: &self.persons,
                limits: &self.limits,
                rows: &self.rows,
                most: LINES_A_PERSON,
            };
            seeker.at_every(problem, region, self.now.prices(), sought, 0, 1);
        }
        self.gather(1)?;
        self.note_bound(problem, region);
        Ok(())
    }

    /// A line is worth to be added if its value is below its person's dual price by more than a little.
    pub(crate) fn put_limits(&mut self) -> Result<(), AllocError> {
        self.limits.clear();
        for row in 0..self.persons.len() {
            let least = self.grain / NEW_PART_OF_GRAIN;
            let limit = self.master.person_dual(row).saturating_sub(least);
            self.limits.push(limit)?;
        }
        Ok(())
    }

    /// Adds what so many seekers found, row by row.
    pub(crate) fn gather(&mut self, seekers: usize) -> Result<(), AllocError> {
        self.is_new = false;
        self.bound = 0;
        for i in 0..seekers {
            if i < self.seekers.len() {
                self.seekers[i].whole()?;
                self.bound = self.bound.saturating_add(self.seekers[i].bound());
            }
        }
        for row in 0..self.persons.len() {
            let i = if seekers == 0 { 0 } else { row % seekers };
            self.add_lines(i, row)?;
        }
        Ok(())
    }

    /// Adds what one of the seekers found of the person of a row.
    fn add_lines(&mut self, seeker: usize, row: usize) -> Result<(), AllocError> {
        if seeker >= self.seekers.len() {
            return Ok(());
        }
        for line in self.seekers[seeker].found() {
            if line.row == row && row < self.master.persons() {
                if self.master.add(row, &line.set, line.extra)? {
                    self.is_new = true;
                }
            }
        }
        Ok(())
    }

    /// Takes note of the bound, if persons add so much as seekers say.
    pub(crate) fn note_bound(&mut self, problem: &Problem, region: &Region) {
        let paid = self.now.paid();
        let mut bound = self.bound.saturating_add(paid_for_open(region, paid));
        for p in 0..problem.pairings().len() {
            bound = bound.saturating_add(term(problem, region, self.now.prices(), paid, p));
        }
        self.bound = bound;
        if bound > self.best_bound {
            self.best_bound = bound;
            self.best.take(&self.now);
        }
    }
}
