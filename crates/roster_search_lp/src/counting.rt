//! How many pairings are open.

use crate::column::{Count, NOWHERE};
use crate::right::whole_number;
use crate::simplex::Simplex;
use std::alloc::AllocError;

impl Simplex {
    /// The row of a count.
    pub(crate) fn count_row(&self, count: Count) -> usize {
        let first = self.row_of(self.pairings);
        match count {
            Count::Least => first,
            Count::Most => first.saturating_add(1),
        }
    }

    /// The column of fewer open pairings than a count, or of more.
    fn slack(&self, count: Count, is_more: bool) -> usize {
        let fewer = self.count_row(count);
        if is_more {
            fewer.saturating_add(2)
        } else {
            fewer
        }
    }

    /// If less than nothing is used of the column of a count that is basic in a row, the other one of the
    /// count takes its place.
    pub(crate) fn mend_count(&mut self, count: Count, row: usize) -> Result<(), AllocError> {
        if self.inverse.amount(row) >= 0 {
            return Ok(());
        }
        let is_more = self.basic(row) != self.slack(count, true);
        let other = self.slack(count, is_more);
        self.look(other);
        self.exchange(row, other)
    }

    /// Has so many pairings open at least, and so many at most.
    pub(crate) fn put_counts(&mut self, least: usize, most: usize) -> Result<(), AllocError> {
        self.put_count(Count::Least, least)?;
        self.put_count(Count::Most, most)?;
        let (fewer, more) = (
            self.slack(Count::Least, false),
            self.slack(Count::Most, true),
        );
        self.columns.forbid(fewer, least > 0);
        self.columns.forbid(more, most < self.pairings);
        Ok(())
    }

    /// Has a row count so many open pairings.
    fn put_count(&mut self, count: Count, number: usize) -> Result<(), AllocError> {
        let number = number.min(self.pairings);
        let old = self.count(count);
        if number == old {
            return Ok(());
        }
        self.go_back()?;
        let row = self.free_row(count)?;
        let difference = whole_number(number).wrapping_sub(whole_number(old));
        let place = self.count_row(count);
        if place < self.right.len() {
            self.right[place] = self.right[place].wrapping_add(difference);
        }
        match count {
            Count::Least => self.counts[0] = number,
            Count::Most => self.counts[1] = number,
        }
        let Some(row) = row else {
            return self.go_home();
        };
        let more = if self.basic(row) == self.slack(count, true) {
            difference.wrapping_neg()
        } else {
            difference
        };
        self.inverse.add_amount(row, more);
        self.mend_count(count, row)
    }

    /// The number of a count.
    fn count(&self, count: Count) -> usize {
        match count {
            Count::Least => self.counts[0],
            Count::Most => self.counts[1],
        }
    }

    /// The row in which one of the columns of a count is basic; if none is, one enters.
    fn free_row(&mut self, count: Count) -> Result<Option<usize>, AllocError> {
        for is_more in [true, false] {
            let row = self.row_of_column(self.slack(count, is_more));
            if row != NOWHERE {
                return Ok(Some(row));
            }
        }
        for is_more in [true, false] {
            let c = self.slack(count, is_more);
            if self.enter(c)? {
                let row = self.row_of_column(c);
                return Ok(if row == NOWHERE { None } else { Some(row) });
            }
        }
        Ok(None)
    }

    /// The row in which column `c` is basic, or `NOWHERE`.
    fn row_of_column(&self, c: usize) -> usize {
        match self.columns.column(c) {
            Some(column) => column.row,
            None => NOWHERE,
        }
    }
}
