//! The simplex method in fractions of whole numbers. All entries have one denominator, so that each division
//! comes out even.

use std::alloc::{AllocError, Global};

/// A program whose last number of a row is what the row needs of its columns. What columns cost beside what
/// the rows pay stands apart.
#[derive(Drop)]
pub(crate) struct Exact {
    rows: Vec<Vec<i128>>,
    costs: Vec<i128>,
    // The column that is basic in each row.
    basis: Vec<usize>,
    denominator: i128,
}

/// A fraction.
#[derive(Clone, Copy)]
pub(crate) struct Fraction {
    pub(crate) numerator: i128,
    pub(crate) denominator: i128,
}

/// More steps than any of these programs takes.
const MOST_STEPS: usize = 10_000;

impl Exact {
    /// A program of these rows, each with what it needs behind its entries, and of columns that cost so much.
    /// The first columns have just a one in their own row.
    pub(crate) fn new(
        alloc: Global,
        rows: Vec<Vec<i128>>,
        costs: &[i64],
    ) -> Result<Exact, AllocError> {
        let mut exact = Exact {
            rows,
            costs: Vec::new(alloc),
            basis: Vec::new(alloc),
            denominator: 1,
        };
        for row in 0..exact.rows.len() {
            exact.basis.push(row)?;
        }
        for cost in costs {
            exact.costs.push(i128::from(*cost))?;
        }
        exact.costs.push(0)?;
        // A basic column costs nothing beside what its row pays.
        for (row, cost) in exact.rows.iter().zip(costs) {
            subtract(&mut exact.costs, row, i128::from(*cost));
        }
        Ok(exact)
    }

    /// The least cost.
    pub(crate) fn least(&mut self, alloc: Global) -> Result<Fraction, AllocError> {
        for _ in 0..MOST_STEPS {
            let Some(column) = self.entering() else {
                break;
            };
            let Some(row) = self.leaving(column) else {
                break;
            };
            self.pivot(alloc, row, column)?;
        }
        let last = self.costs.len().saturating_sub(1);
        Ok(Fraction {
            numerator: number_at(&self.costs, last).wrapping_neg(),
            denominator: self.denominator,
        })
    }

    /// The first column that costs less than its rows pay.
    fn entering(&self) -> Option<usize> {
        let last = self.costs.len().saturating_sub(1);
        for (column, cost) in self.costs.iter().enumerate() {
            if column < last && *cost < 0 {
                return Some(column);
            }
        }
        None
    }

    /// The row that is used up first, and of several that of the first column.
    fn leaving(&self, column: usize) -> Option<usize> {
        let mut best = None;
        let mut least = (0, 0, 0);
        for (i, row) in self.rows.iter().enumerate() {
            let entry = number_at(row, column);
            let amount = number_at(row, row.len().saturating_sub(1));
            if entry > 0 && i < self.basis.len() {
                let now = (amount, entry, self.basis[i]);
                if best.is_none() || is_before(now, least) {
                    best = Some(i);
                    least = now;
                }
            }
        }
        best
    }

    /// The column becomes basic in the row.
    fn pivot(&mut self, alloc: Global, row: usize, column: usize) -> Result<(), AllocError> {
        if row >= self.rows.len() || row >= self.basis.len() {
            return Ok(());
        }
        let pivot = Vec::from_slice(alloc, &self.rows[row])?;
        let entry = number_at(&pivot, column);
        for (i, other) in self.rows.iter_mut().enumerate() {
            if i != row {
                eliminate(other, &pivot, column, entry, self.denominator);
            }
        }
        eliminate(&mut self.costs, &pivot, column, entry, self.denominator);
        self.denominator = entry;
        self.basis[row] = column;
        Ok(())
    }
}

/// Subtracts a row so many times.
fn subtract(costs: &mut [i128], row: &[i128], times: i128) {
    for (cost, entry) in costs.iter_mut().zip(row) {
        *cost = cost.wrapping_sub(entry.wrapping_mul(times));
    }
}

/// Has a row no entry in the column any more.
fn eliminate(row: &mut [i128], pivot: &[i128], column: usize, entry: i128, denominator: i128) {
    let factor = number_at(row, column);
    for (number, other) in row.iter_mut().zip(pivot) {
        let whole = number
            .wrapping_mul(entry)
            .wrapping_sub(other.wrapping_mul(factor));
        if denominator != 0 {
            *number = whole.wrapping_div(denominator);
        }
    }
}

/// Whether the row is used up sooner, or as soon and its column comes before.
fn is_before(now: (i128, i128, usize), least: (i128, i128, usize)) -> bool {
    let left = now.0.wrapping_mul(least.1);
    let right = least.0.wrapping_mul(now.1);
    left < right || (left == right && now.2 < least.2)
}

/// The number at place `i`, or 0 past the end.
fn number_at(numbers: &[i128], i: usize) -> i128 {
    if i < numbers.len() { numbers[i] } else { 0 }
}
