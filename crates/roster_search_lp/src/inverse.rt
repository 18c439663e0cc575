//! The inverse of a basis.

use crate::fixed::{WHOLE, part_of, product, rounded, times};
use crate::tuning::{LEAST_ENTRY, LEAST_PIVOT};
use std::alloc::{AllocError, Global};

/// A number at a place of a row.
#[derive(Clone, Copy)]
pub(crate) struct Cell {
    pub(crate) at: usize,
    pub(crate) number: i64,
}

/// The inverse of a basis, row by row, and behind each row how much is used of the column that is basic
/// there: all in parts of a whole.
#[derive(Drop)]
pub(crate) struct Inverse {
    rows: Vec<Vec<i64>>,
    // The column that was looked at, as the basis sees it.
    image: Vec<i64>,
    // What isn't 0 in the row of the last pivot.
    cells: Vec<Cell>,
    // Sums on the way to dual prices.
    sums: Vec<i128>,
    // The rows to go back to.
    kept: Vec<Vec<i64>>,
}

impl Inverse {
    /// That of unit columns, one for each of these right-hand sides.
    pub(crate) fn new(alloc: Global, right: &[i64]) -> Result<Inverse, AllocError> {
        let size = right.len();
        let mut inverse = Inverse {
            rows: empty_rows(alloc, size)?,
            image: vec![in alloc; 0; size]?,
            cells: Vec::new(alloc),
            sums: vec![in alloc; 0; size]?,
            kept: empty_rows(alloc, size)?,
        };
        inverse.begin(right);
        Ok(inverse)
    }

    /// The same inverse.
    pub(crate) fn copy(&self, alloc: Global) -> Result<Inverse, AllocError> {
        Ok(Inverse {
            rows: copies_of(alloc, &self.rows)?,
            image: self.image.clone()?,
            cells: Vec::new(alloc),
            sums: self.sums.clone()?,
            kept: copies_of(alloc, &self.kept)?,
        })
    }

    /// Begins anew with unit columns.
    pub(crate) fn begin(&mut self, right: &[i64]) {
        for (i, row) in self.rows.iter_mut().enumerate() {
            begin_row(row, i, right);
        }
    }

    /// Takes note of the rows.
    pub(crate) fn keep(&mut self) {
        copy_rows(&mut self.kept, &self.rows);
    }

    /// Goes back to the rows that it took note of.
    pub(crate) fn go_back(&mut self) {
        copy_rows(&mut self.rows, &self.kept);
    }

    /// A row, or nothing past the last.
    pub(crate) fn row(&self, row: usize) -> &[i64] {
        match self.rows.get(row) {
            Some(cells) => cells,
            None => &[],
        }
    }

    /// What the column that was looked at has in a row.
    pub(crate) fn image_at(&self, row: usize) -> i64 {
        number_at(&self.image, row)
    }

    /// Adds a row so many times to the duals.
    pub(crate) fn add_row(&self, row: usize, factor: i64, duals: &mut [i64]) {
        for (dual, cell) in duals.iter_mut().zip(self.row(row)) {
            *dual = dual.wrapping_add(times(factor, *cell));
        }
    }

    /// How many rows it has.
    pub(crate) fn size(&self) -> usize {
        self.rows.len()
    }

    /// How much is used of the column that is basic in a row.
    pub(crate) fn amount(&self, row: usize) -> i64 {
        match self.rows.get(row) {
            Some(cells) => last(cells),
            None => 0,
        }
    }

    /// The least such amount.
    pub(crate) fn least_amount(&self) -> i64 {
        let mut least = 0;
        for row in &self.rows {
            least = least.min(last(row));
        }
        least
    }

    /// Looks at a column that has ones in these rows, or minus ones.
    pub(crate) fn look(&mut self, ones: &[u16], is_negative: bool) {
        for (i, row) in self.rows.iter().enumerate() {
            let entry = entry(row, ones);
            if i < self.image.len() {
                self.image[i] = if is_negative {
                    entry.wrapping_neg()
                } else {
                    entry
                };
            }
        }
    }

    /// Adds so much to how much is used of the column that is basic in a row.
    pub(crate) fn add_amount(&mut self, row: usize, more: i64) {
        if row < self.rows.len() {
            add_to_last(&mut self.rows[row], more);
        }
    }

    /// The row whose column is used up first if the column that was looked at is used, if there is one.
    pub(crate) fn leaving(&self) -> Option<usize> {
        let mut best = None;
        let mut least = (0, 0);
        for (i, row) in self.rows.iter().enumerate() {
            let entry = number_at(&self.image, i);
            if entry > LEAST_PIVOT {
                let now = (last(row).max(0), entry);
                if best.is_none() || is_less(now, least) {
                    best = Some(i);
                    least = now;
                }
            }
        }
        best
    }

    /// The row not taken yet in which the column that was looked at has the entry furthest from 0.
    pub(crate) fn strongest(&self, taken: &[bool]) -> Option<usize> {
        let mut best = None;
        let mut most = LEAST_PIVOT.unsigned_abs();
        for (i, entry) in self.image.iter().enumerate() {
            let size = entry.unsigned_abs();
            if size > most && i < taken.len() && !taken[i] {
                best = Some(i);
                most = size;
            }
        }
        best
    }

    /// Has the column that was looked at take the place of the one that is basic in a row.
    pub(crate) fn pivot(&mut self, row: usize) -> Result<(), AllocError> {
        let entry = number_at(&self.image, row);
        self.cells.clear();
        if row < self.rows.len() {
            divide(&mut self.rows[row], entry, &mut self.cells)?;
        }
        for (i, other) in self.rows.iter_mut().enumerate() {
            let entry = number_at(&self.image, i);
            if i != row && entry != 0 {
                subtract(other, entry, &self.cells);
            }
        }
        Ok(())
    }

    /// Adds the row of the last pivot so many times to the duals.
    pub(crate) fn move_duals(&self, times_row: i64, duals: &mut [i64]) {
        for cell in &self.cells {
            if cell.at < duals.len() {
                duals[cell.at] = duals[cell.at].wrapping_add(times(times_row, cell.number));
            }
        }
    }

    /// The dual prices of the rows if the basic columns cost so much.
    pub(crate) fn duals(&mut self, costs: &[i64], duals: &mut [i64]) {
        self.sums.fill(0);
        for (row, cost) in self.rows.iter().zip(costs) {
            if *cost != 0 {
                add_times(&mut self.sums, row, *cost);
            }
        }
        for (dual, sum) in duals.iter_mut().zip(&self.sums) {
            *dual = rounded(*sum);
        }
    }
}

/// So many rows of zeros, with one number more than there are rows.
fn empty_rows(alloc: Global, size: usize) -> Result<Vec<Vec<i64>>, AllocError> {
    let mut rows = Vec::with_capacity(alloc, size)?;
    for _ in 0..size {
        rows.push(vec![in alloc; 0; size.saturating_add(1)]?)?;
    }
    Ok(rows)
}

/// The same rows.
fn copies_of(alloc: Global, rows: &[Vec<i64>]) -> Result<Vec<Vec<i64>>, AllocError> {
    let mut copies = Vec::with_capacity(alloc, rows.len())?;
    for row in rows {
        copies.push(row.clone()?)?;
    }
    Ok(copies)
}

/// Copies the numbers of rows into others.
fn copy_rows(copies: &mut [Vec<i64>], rows: &[Vec<i64>]) {
    for (copy, row) in copies.iter_mut().zip(rows) {
        for (to, from) in copy.iter_mut().zip(row) {
            *to = *from;
        }
    }
}

/// Begins row `i` with a unit column and its right-hand side.
fn begin_row(row: &mut [i64], i: usize, right: &[i64]) {
    row.fill(0);
    if i < row.len() {
        row[i] = WHOLE;
    }
    if let Some(end) = row.last_mut() {
        *end = number_at(right, i);
    }
}

/// The number at place `i`, or 0 past the end.
pub(crate) fn number_at(numbers: &[i64], i: usize) -> i64 {
    if i < numbers.len() { numbers[i] } else { 0 }
}

/// The last number, or 0.
fn last(row: &[i64]) -> i64 {
    match row.last() {
        Some(number) => *number,
        None => 0,
    }
}

/// Adds so much to the last number.
fn add_to_last(row: &mut [i64], more: i64) {
    if let Some(end) = row.last_mut() {
        *end = end.wrapping_add(more);
    }
}

/// What a column with ones in these rows has in a row, as the basis sees it.
pub(crate) fn entry(row: &[i64], ones: &[u16]) -> i64 {
    let mut sum: i64 = 0;
    for i in ones {
        sum = sum.wrapping_add(number_at(row, usize::from(*i)));
    }
    cleared(sum)
}

/// The number, or 0 if it is so near to it that it likely comes from rounding.
#[inline]
fn cleared(number: i64) -> i64 {
    if number < LEAST_ENTRY && number > -LEAST_ENTRY {
        0
    } else {
        number
    }
}

/// Whether the first number of `now` is a lesser part of the second than with `least`; of equal parts that
/// of the greater second number is the lesser one.
pub(crate) fn is_less(now: (i64, i64), least: (i64, i64)) -> bool {
    let (left, right) = (product(now.0, least.1), product(least.0, now.1));
    left < right || (left == right && now.1 > least.1)
}

/// Divides the row by a number, and lists what isn't 0. One division of words of 128 bits takes as long as
/// some products, so there is one for the whole row.
fn divide(row: &mut [i64], by: i64, cells: &mut Vec<Cell>) -> Result<(), AllocError> {
    let factor = part_of(WHOLE, by);
    for (at, number) in row.iter_mut().enumerate() {
        if *number != 0 {
            *number = times(*number, factor);
            cells.push(Cell {
                at,
                number: *number,
            })?;
        }
    }
    Ok(())
}

/// Subtracts the cells so many times from a row.
fn subtract(row: &mut [i64], factor: i64, cells: &[Cell]) {
    for cell in cells {
        if cell.at < row.len() {
            row[cell.at] = cleared(row[cell.at].wrapping_sub(times(factor, cell.number)));
        }
    }
}

/// Adds the row so many times to the sums.
fn add_times(sums: &mut [i128], row: &[i64], cost: i64) {
    for (sum, number) in sums.iter_mut().zip(row) {
        *sum = sum.wrapping_add(product(*number, cost));
    }
}
