//! The lines that a linear program begins with, and a part of the region that it goes on with.

ghost use Rattle.std.specs.Prelude.{◌<◌, length};
ghost use Rattle.roster_search_regions.specs.Regions.{IsRegion};

use crate::program_rows::put_row;
use crate::relaxation::Relaxation;
use crate::seeking::{Sought, extra_of};
use crate::tuning::{FIRST_LINES_A_PERSON, MOST_COLUMNS, NEAR_PART_OF_GRAIN};
use roster_model::limits::MOST_PAIRINGS;
use roster_problem::Problem;
use roster_search_lp::Allowed;
use roster_search_regions::{PersonLines, Region};
use roster_values::Set;
use std::alloc::{AllocError, Global};

impl Relaxation {
    /// Takes the cheapest lines of each person at these prices.
    pub fn take_lines(
        &mut self,
        problem: &Problem,
        region: &Region,
        prices: &[i64],
    ) -> Result<(), AllocError>
        requires { IsRegion problem.now region.now }
    {
        self.limits.clear();
        self.limits.resize(self.persons.len(), i64::MAX)?;
        if let Some(seeker) = self.seekers.first_mut() {
            let sought = Sought {
                persons: &self.persons,
                limits: &self.limits,
                rows: &self.rows,
                most: FIRST_LINES_A_PERSON,
            };
            seeker.at_every(problem, region, prices, sought, 0, 1);
        }
        self.gather(1)
    }

    /// Begins with a roster: takes the lines of these places that the region has, and uses them.
    pub fn take_roster(
        &mut self,
        problem: &Problem,
        region: &Region,
        places: &[u16],
    ) -> Result<(), AllocError>
        requires { IsRegion problem.now region.now }
    {
        for row in 0..self.persons.len() {
            let k = self.person(row);
            if k < problem.persons().len() && places.len() <= MOST_PAIRINGS {
                let set = Set::of_places(places, k);
                self.take_line(region, k, row, &set)?;
            }
        }
        Ok(())
    }

    /// The person of a row, or nobody past the last.
    fn person(&self, row: usize) -> usize {
        if row < self.persons.len() {
            self.persons[row]
        } else {
            usize::MAX
        }
    }

    /// Takes and uses person `k`'s line of these pairings, if the region has it. The person has this row.
    fn take_line(
        &mut self,
        region: &Region,
        k: usize,
        row: usize,
        set: &Set,
    ) -> Result<(), AllocError>
        requires { k < length region.now.choices }
    {
        let choices = PersonLines::All(region.choices(k));
        let Some(extra) = extra_of(&choices, set) else {
            return Ok(());
        };
        let set = self.set_in_rows(set);
        if row < self.master.persons() {
            self.master.enter(row, &set, extra)?;
        }
        Ok(())
    }

    /// The rows of the pairings of a set, as far as they have rows.
    fn set_in_rows(&self, set: &Set) -> Set {
        let mut mapped = Set::empty();
        for p in &self.pairings {
            if set.has(*p) {
                put_row(&mut mapped, &self.rows, *p);
            }
        }
        mapped
    }

    /// Begins with a part of the region, of which a roster may cost so much, in parts of a cost unit and
    /// without what empty lines cost: dearer solutions aren't sought.
    pub fn begin(
        &mut self,
        alloc: Global,
        problem: &Problem,
        region: &Region,
        room: i64,
    ) -> Result<(), AllocError>
        requires { IsRegion problem.now region.now }
    {
        let little = self.grain / NEAR_PART_OF_GRAIN;
        let limit = room.saturating_sub(self.apart).saturating_add(little);
        self.master.begin(limit)?;
        let rows = self.rows();
        if self.master.columns() > MOST_COLUMNS.saturating_add(rows.saturating_mul(8)) {
            let kept = MOST_COLUMNS.saturating_add(rows.saturating_mul(2));
            self.master.forget(alloc, kept)?;
        }
        self.best_bound = i64::MIN;
        self.mark(problem, region)
    }

    /// Takes note of which lines the region allows.
    pub(crate) fn mark(&mut self, problem: &Problem, region: &Region) -> Result<(), AllocError>
        requires { IsRegion problem.now region.now }
    {
        self.allowed.clear();
        for row in 0..self.persons.len() {
            let k = self.persons[row];
            let allowed = if k < problem.persons().len() {
                Allowed {
                    possible: self.set_in_rows(&region.possible(k)),
                    certain: self.set_in_rows(&region.certain(k)),
                }
            } else {
                Allowed {
                    possible: Set::empty(),
                    certain: Set::empty(),
                }
            };
            self.allowed.push(allowed)?;
        }
        let flown = self.set_in_rows(region.flown());
        let left_open = self.set_in_rows(region.left_open());
        self.master.mark(&self.allowed, &flown, &left_open)?;
        let apart = self.never_held();
        let least = region.least_open().saturating_sub(apart);
        let most = region.most_open().saturating_sub(apart);
        self.master.count_open(least, most)
    }
}
