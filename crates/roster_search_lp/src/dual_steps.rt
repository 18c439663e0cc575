//! Steps of the dual simplex method, by which columns leave the basis that may not be used.

use crate::column::NOWHERE;
use crate::columns::Usable;
use crate::fixed::{WHOLE, part_of, times};
use crate::inverse::{entry, is_less, number_at};
use crate::simplex::{Simplex, place_at};
use crate::tuning::{
    FORBIDDEN_FACTOR, LEAST_DUAL_PIVOT, LEAST_USED, LEAST_WRONG, MOST_FAR, MOST_PIVOTS_KEPT,
    MOST_TURNS, MOST_WEIGHT, ONE_WEIGHT,
};
use std::alloc::{AllocError, Global};

/// What these steps need beside the basis.
#[derive(Drop)]
pub(crate) struct DualSteps {
    // What a solution may cost, in parts of a cost unit: dearer ones aren't sought.
    limit: i64,
    // Whether less than nothing is used of some column, so that other steps can't go on.
    is_infeasible: bool,
    // The last basis from which they could, and how many pivots had made its inverse.
    basis: Vec<usize>,
    pivots: usize,
    // By row: about how far what is used there moves with the others, squared.
    weights: Vec<u64>,
    // The columns that may be used.
    usable: Vec<Usable>,
}

impl DualSteps {
    /// For so many rows, and solutions of any cost.
    pub(crate) fn new(alloc: Global, size: usize) -> Result<DualSteps, AllocError> {
        Ok(DualSteps {
            limit: i64::MAX,
            is_infeasible: false,
            basis: vec![in alloc; 0; size]?,
            pivots: 0,
            weights: vec![in alloc; 0; size]?,
            usable: Vec::new(alloc),
        })
    }

    /// The same, for another thread.
    pub(crate) fn copy(&self, alloc: Global) -> Result<DualSteps, AllocError> {
        Ok(DualSteps {
            limit: self.limit,
            is_infeasible: self.is_infeasible,
            basis: self.basis.clone()?,
            pivots: self.pivots,
            weights: self.weights.clone()?,
            usable: Vec::new(alloc),
        })
    }

    /// Whether less than nothing may be used of some column.
    pub(crate) fn is_infeasible(&self) -> bool {
        self.is_infeasible
    }
}

/// What comes of the steps.
#[derive(Clone, Copy)]
enum Driven {
    /// What is used may be used.
    Allowed,
    /// What may be used costs more than a solution may, or is no solution.
    Dear,
    /// There were too many steps.
    Long,
}

/// A row whose column is used too much, since it may not be used, or less than nothing.
#[derive(Clone, Copy)]
struct Wrong {
    row: usize,
    is_too_much: bool,
}

impl Simplex {
    /// Begins anew where the other steps can go on, and seeks no solution that costs more than the limit.
    pub(crate) fn begin(&mut self, limit: i64) -> Result<(), AllocError> {
        self.dual.limit = limit;
        self.go_back()
    }

    /// Solves it without what is forbidden: first as if that might be used as long as it is basic, and then
    /// it leaves the basis. False if that takes too long.
    pub(crate) fn solve_without(&mut self) -> Result<bool, AllocError> {
        let most = self.most_pivots();
        self.pay();
        for _ in 0..MOST_TURNS {
            if !self.dual.is_infeasible {
                self.improve(most)?;
                if self.worst().is_none() {
                    return Ok(true);
                }
                self.keep()?;
            }
            self.dual.is_infeasible = true;
            match self.drive(most)? {
                Driven::Allowed => {
                    self.dual.is_infeasible = false;
                    self.pay();
                }
                Driven::Dear => return Ok(true),
                Driven::Long => return Ok(false),
            }
        }
        Ok(true)
    }

    /// Takes note of the basis, with an inverse of few pivots.
    fn keep(&mut self) -> Result<(), AllocError> {
        if self.pivots > MOST_PIVOTS_KEPT {
            self.renew()?;
            self.pay();
        }
        self.inverse.keep();
        for (kept, now) in self.dual.basis.iter_mut().zip(&self.basis) {
            *kept = *now;
        }
        self.dual.pivots = self.pivots;
        Ok(())
    }

    /// Goes back to the last basis from which other steps can go on, if they can't from this one.
    pub(crate) fn go_back(&mut self) -> Result<(), AllocError> {
        if !self.dual.is_infeasible {
            return Ok(());
        }
        self.dual.is_infeasible = false;
        for row in 0..self.basis.len() {
            self.columns.put_row(self.basis[row], NOWHERE);
        }
        for row in 0..self.basis.len() {
            let c = place_at(&self.dual.basis, row);
            self.basis[row] = c;
            self.columns.put_row(c, row);
        }
        self.inverse.go_back();
        self.pivots = self.dual.pivots;
        Ok(())
    }

    /// Steps until what is used may be used.
    fn drive(&mut self, most: usize) -> Result<Driven, AllocError> {
        self.dual.weights.fill(ONE_WEIGHT);
        self.columns.put_usable(&mut self.dual.usable)?;
        for _ in 0..most {
            let Some(wrong) = self.worst() else {
                return Ok(Driven::Allowed);
            };
            if self.value() > self.dual.limit {
                return Ok(Driven::Dear);
            }
            if !self.drive_out(wrong)? && !self.excuse(wrong) {
                self.lean(wrong);
                return Ok(Driven::Dear);
            }
        }
        Ok(Driven::Long)
    }

    /// The row that is best put right first: where much is wrong, and little moves with it.
    fn worst(&self) -> Option<Wrong> {
        let mut worst = None;
        let mut most = 0;
        for (row, c) in self.basis.iter().enumerate() {
            let amount = self.inverse.amount(row);
            let is_too_much = amount > 0 && self.is_forbidden(*c);
            let size = amount.unsigned_abs();
            if size <= LEAST_WRONG || !(amount < 0 || is_too_much) {
                continue;
            }
            let size = (size >> 10).min(1 << 31);
            let size = size.wrapping_mul(size) / weight_at(&self.dual.weights, row).max(1);
            if worst.is_none() || size > most {
                most = size;
                worst = Some(Wrong { row, is_too_much });
            }
        }
        worst
    }

    /// The column of the row leaves the basis. False if no other can take its place.
    fn drive_out(&mut self, wrong: Wrong) -> Result<bool, AllocError> {
        let Some(c) = self.entering(wrong) else {
            return Ok(false);
        };
        let reduced = self.columns.reduced(c, &self.duals);
        self.look(c);
        self.weigh(wrong.row);
        self.exchange(wrong.row, c)?;
        if self.count_pivot()? {
            self.pay();
        } else {
            self.inverse.move_duals(reduced, &mut self.duals);
        }
        Ok(true)
    }

    /// Has nothing used of the row's column, if that is as little as the sides of rows differ by chance. Then
    /// the same columns fill several rows, which can't all have a little more than a whole. False if it is
    /// much.
    fn excuse(&mut self, wrong: Wrong) -> bool {
        let amount = self.inverse.amount(wrong.row);
        if amount.unsigned_abs() > LEAST_USED.unsigned_abs() {
            return false;
        }
        self.inverse.add_amount(wrong.row, amount.wrapping_neg());
        true
    }

    /// The column that takes the place of the one of a row, if there is one: with it the duals move least.
    fn entering(&self, wrong: Wrong) -> Option<usize> {
        let cells = self.inverse.row(wrong.row);
        let mut best = None;
        let mut least = (0, 0);
        for usable in &self.dual.usable {
            let entry = entry(cells, self.columns.ones_of_usable(usable));
            let entry = if usable.is_negative == wrong.is_too_much {
                entry.wrapping_neg()
            } else {
                entry
            };
            if entry <= LEAST_DUAL_PIVOT {
                continue;
            }
            let reduced = self.columns.reduced(usable.c, &self.duals).max(0);
            if best.is_none() || is_less((reduced, entry), least) {
                best = Some(usable.c);
                least = (reduced, entry);
            }
        }
        best.filter(|c| !self.columns.is_basic(*c))
    }

    /// Weighs the rows anew, as the column that was looked at enters in one of them.
    fn weigh(&mut self, row: usize) {
        let factor = part_of(WHOLE, self.inverse.image_at(row));
        let own = weight_at(&self.dual.weights, row);
        for (i, weight) in self.dual.weights.iter_mut().enumerate() {
            let entry = self.inverse.image_at(i);
            if i != row && entry != 0 {
                *weight = (*weight).max(weighed(times(entry, factor), own));
            }
        }
        if row < self.dual.weights.len() {
            self.dual.weights[row] = weighed(factor, own).max(ONE_WEIGHT);
        }
    }

    /// Moves the duals so far along a row that what they pay is as much as a solution may cost: nothing that
    /// may be used takes the place of the row's column, so they pay for nothing too much.
    fn lean(&mut self, wrong: Wrong) {
        let far = self.columns.greatest().saturating_mul(FORBIDDEN_FACTOR);
        let lack = self.dual.limit.saturating_sub(self.value());
        let lack = lack.saturating_add(1).clamp(0, far.min(1 << 62) as i64);
        let amount = self.inverse.amount(wrong.row).saturating_abs().max(1);
        let far = part_of(lack, amount).clamp(0, MOST_FAR);
        let far = if wrong.is_too_much {
            far
        } else {
            far.wrapping_neg()
        };
        self.inverse.add_row(wrong.row, far, &mut self.duals);
    }
}

/// The weight at place `i`, or the least one.
fn weight_at(weights: &[u64], i: usize) -> u64 {
    if i < weights.len() {
        weights[i]
    } else {
        ONE_WEIGHT
    }
}

/// What a row weighs that moves with another one of this weight, so many parts of a whole as far.
fn weighed(parts: i64, weight: u64) -> u64 {
    let part = (parts >> 24).unsigned_abs().min(1 << 31);
    let square = u128::from(part.wrapping_mul(part));
    let product = square.wrapping_mul(u128::from(weight)) >> 32;
    product.min(u128::from(MOST_WEIGHT)) as u64
}
