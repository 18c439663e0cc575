//! The inverse of a basis made anew.

use crate::column::{Count, NOWHERE};
use crate::simplex::{Simplex, place_at};
use crate::tuning::LEAST_USED;
use std::alloc::AllocError;

impl Simplex {
    /// Makes the inverse anew, since each pivot spoils it a little. A basis that can't be used any more gives
    /// way to the first one; less than nothing may be used if it was so before.
    pub(crate) fn renew(&mut self) -> Result<(), AllocError> {
        for (before, now) in self.before.iter_mut().zip(&self.basis) {
            *before = *now;
        }
        self.clear();
        self.taken.fill(false);
        for i in 0..self.before.len() {
            let c = place_at(&self.before, i);
            if self.columns.is_unit(c) {
                self.settle(c, c);
            }
        }
        for i in 0..self.before.len() {
            let c = place_at(&self.before, i);
            if !self.columns.is_unit(c) {
                self.put_back(c)?;
            }
        }
        let is_short = self.inverse.least_amount() < -LEAST_USED && !self.dual.is_infeasible();
        if is_short || self.taken.contains(&false) {
            self.go_home()?;
        }
        Ok(())
    }

    /// Begins with unit columns, none of which is one of the program's yet.
    fn clear(&mut self) {
        self.inverse.begin(&self.right);
        self.pivots = 0;
        for row in 0..self.basis.len() {
            self.columns.put_row(self.basis[row], NOWHERE);
            self.basis[row] = NOWHERE;
        }
    }

    /// Column `c` is basic in a row, which is taken.
    fn settle(&mut self, row: usize, c: usize) {
        if row < self.basis.len() && row < self.taken.len() {
            self.basis[row] = c;
            self.taken[row] = true;
            self.columns.put_row(c, row);
        }
    }

    /// Makes column `c` basic in a row that isn't taken.
    fn put_back(&mut self, c: usize) -> Result<(), AllocError> {
        self.look(c);
        let Some(row) = self.inverse.strongest(&self.taken) else {
            return Ok(());
        };
        self.inverse.pivot(row)?;
        self.settle(row, c);
        Ok(())
    }

    /// Goes to the first basis: empty lines and open pairings, and as many more are open than the counts say.
    pub(crate) fn go_home(&mut self) -> Result<(), AllocError> {
        self.clear();
        for row in 0..self.basis.len() {
            self.settle(row, row);
            if !self.columns.is_unit(row) {
                self.look(row);
                self.inverse.pivot(row)?;
            }
        }
        for count in [Count::Least, Count::Most] {
            let row = self.count_row(count);
            self.mend_count(count, row)?;
        }
        Ok(())
    }
}
