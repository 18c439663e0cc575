//! Columns of a linear program.

use crate::column::{Column, Count, Kind, NOWHERE};
use crate::inverse::number_at;
use crate::marking::{Allowed, Marks};
use roster_model::limits::MOST_PAIRINGS;
use roster_values::Set;
use std::alloc::{AllocError, Global};

/// A column that may be used, and where its ones or minus ones stand in the list of all columns' rows: to
/// look at many takes little memory.
#[derive(Clone, Copy)]
pub(crate) struct Usable {
    pub(crate) c: usize,
    pub(crate) is_negative: bool,
    first: usize,
    end: usize,
}

/// Columns, and the rows in which they have ones. What each step looks at takes little memory.
#[derive(Drop)]
pub(crate) struct Columns {
    list: Vec<Column>,
    // The pairings of each line; none of what is no line.
    sets: Vec<Set>,
    ones: Vec<u16>,
    // Which columns are forbidden.
    marks: Marks,
    // The greatest cost, or how far the least is below 0.
    greatest: u64,
}

impl Columns {
    /// No columns.
    fn new(alloc: Global) -> Columns {
        Columns {
            list: Vec::new(alloc),
            sets: Vec::new(alloc),
            ones: Vec::new(alloc),
            marks: Marks::new(alloc),
            greatest: 1,
        }
    }

    /// Those of empty lines, of open pairings, and of fewer and of more open ones than the two counts.
    pub(crate) fn first(
        alloc: Global,
        idle: &[i64],
        penalties: &[i64],
    ) -> Result<Columns, AllocError> {
        let mut columns = Columns::new(alloc);
        let empty = Set::empty();
        for (k, cost) in idle.iter().enumerate() {
            columns.add_line(k, &empty, idle.len(), *cost)?;
        }
        let least = idle.len().saturating_add(penalties.len());
        let most = least.saturating_add(1);
        for (p, penalty) in penalties.iter().enumerate() {
            let rows = [idle.len().saturating_add(p), least, most];
            columns.add_open(p, rows, *penalty)?;
        }
        for is_more in [false, true] {
            columns.add_slack(Count::Least, least, is_more)?;
            columns.add_slack(Count::Most, most, is_more)?;
        }
        Ok(columns)
    }

    /// Adds the column of a line of person `k`. Rows of pairings stand behind those of so many persons.
    pub(crate) fn add_line(
        &mut self,
        k: usize,
        set: &Set,
        persons: usize,
        cost: i64,
    ) -> Result<(), AllocError> {
        let first = self.ones.len();
        self.ones.push(short(k))?;
        let mut from = 0;
        for _ in 0..MOST_PAIRINGS {
            let Some(p) = set.first_from(from) else {
                break;
            };
            self.ones.push(short(persons.saturating_add(p)))?;
            from = p + 1;
        }
        self.add(Kind::Line(k), *set, first, cost, false)
    }

    /// Adds the column of an open pairing, which has ones in these rows.
    fn add_open(&mut self, p: usize, rows: [usize; 3], penalty: i64) -> Result<(), AllocError> {
        let first = self.ones.len();
        for row in rows {
            self.ones.push(short(row))?;
        }
        self.add(Kind::Open(p), Set::empty(), first, penalty, false)
    }

    /// Adds the column of fewer open pairings than a row counts, or that of more.
    fn add_slack(&mut self, count: Count, row: usize, is_more: bool) -> Result<(), AllocError> {
        let first = self.ones.len();
        self.ones.push(short(row))?;
        let kind = if is_more {
            Kind::More(count)
        } else {
            Kind::Fewer(count)
        };
        self.add(kind, Set::empty(), first, 0, is_more)
    }

    /// Adds a column whose ones are the last ones from a place on.
    fn add(
        &mut self,
        kind: Kind,
        set: Set,
        first: usize,
        cost: i64,
        is_negative: bool,
    ) -> Result<(), AllocError> {
        let is_forbidden = match kind {
            Kind::Line(k) => !self.marks.allow(k, &set),
            _ => false,
        };
        self.greatest = self.greatest.max(cost.unsigned_abs());
        self.sets.push(set)?;
        self.list.push(Column {
            kind,
            cost,
            row: NOWHERE,
            is_forbidden,
            is_negative,
            first,
            end: self.ones.len(),
        })?;
        Ok(())
    }

    /// The same columns.
    pub(crate) fn copy(&self) -> Result<Columns, AllocError> {
        Ok(Columns {
            list: self.list.clone()?,
            sets: self.sets.clone()?,
            ones: self.ones.clone()?,
            marks: self.marks.copy()?,
            greatest: self.greatest,
        })
    }

    /// How many there are.
    pub(crate) fn len(&self) -> usize {
        self.list.len()
    }

    /// All of them.
    pub(crate) fn all(&self) -> &[Column] {
        &self.list
    }

    /// The pairings of each line; none of what is no line.
    pub(crate) fn sets(&self) -> &[Set] {
        &self.sets
    }

    /// The pairings of column `c`, if it is a line of person `k`.
    pub(crate) fn set_of(&self, k: usize, c: usize) -> Option<&Set> {
        match self.list.get(c) {
            Some(column) if column.is_line_of(k) => self.sets.get(c),
            _ => None,
        }
    }

    /// Column `c`, if there is one.
    pub(crate) fn column(&self, c: usize) -> Option<&Column> {
        self.list.get(c)
    }

    /// The column of person `k`'s line of these pairings, if there is one.
    pub(crate) fn line(&self, k: usize, set: &Set) -> Option<usize> {
        for (c, column) in self.list.iter().enumerate().rev() {
            if column.is_line_of(k) && self.sets.get(c) == Some(set) {
                return Some(c);
            }
        }
        None
    }

    /// The greatest cost, or how far the least is below 0, in parts of a cost unit, and 1 at least.
    pub(crate) fn greatest(&self) -> u64 {
        self.greatest
    }

    /// The rows in which column `c` has ones.
    pub(crate) fn ones(&self, c: usize) -> &[u16] {
        match self.list.get(c) {
            Some(column) => self.ones_of(column),
            None => &[],
        }
    }

    /// Whether column `c` has just a one in a row.
    pub(crate) fn is_unit(&self, c: usize) -> bool {
        self.ones(c).len() == 1 && !self.is_negative(c)
    }

    /// Whether column `c` has minus ones there.
    pub(crate) fn is_negative(&self, c: usize) -> bool {
        match self.list.get(c) {
            Some(column) => column.is_negative,
            None => false,
        }
    }

    /// The rows in which a column has ones.
    pub(crate) fn ones_of(&self, column: &Column) -> &[u16] {
        self.ones.get(column.first..column.end).unwrap_or(&[])
    }

    /// Lists the columns that may be used.
    pub(crate) fn put_usable(&self, usable: &mut Vec<Usable>) -> Result<(), AllocError> {
        usable.clear();
        for (c, column) in self.list.iter().enumerate() {
            if !column.is_forbidden {
                usable.push(Usable {
                    c,
                    is_negative: column.is_negative,
                    first: column.first,
                    end: column.end,
                })?;
            }
        }
        Ok(())
    }

    /// The rows in which a column that may be used has ones, or minus ones.
    pub(crate) fn ones_of_usable(&self, usable: &Usable) -> &[u16] {
        self.ones.get(usable.first..usable.end).unwrap_or(&[])
    }

    /// Whether column `c` is basic.
    pub(crate) fn is_basic(&self, c: usize) -> bool {
        match self.list.get(c) {
            Some(column) => column.row != NOWHERE,
            None => false,
        }
    }

    /// What column `c` costs more than the duals pay for it.
    pub(crate) fn reduced(&self, c: usize, duals: &[i64]) -> i64 {
        match self.list.get(c) {
            Some(column) => reduced(column, self.ones_of(column), duals),
            None => 0,
        }
    }

    /// Lists the columns that may enter and cost less than the duals pay, by more than a tolerance.
    pub(crate) fn cheap(
        &self,
        duals: &[i64],
        tolerance: i64,
        cheap: &mut Vec<(i64, usize)>,
    ) -> Result<(), AllocError> {
        cheap.clear();
        for (c, column) in self.list.iter().enumerate() {
            if column.row == NOWHERE && !column.is_forbidden {
                let value = reduced(column, self.ones_of(column), duals);
                if value < tolerance.wrapping_neg() {
                    cheap.push((value, c))?;
                }
            }
        }
        Ok(())
    }

    /// The columns that are kept, in the same order. What is kept is told by place; what isn't told of goes.
    pub(crate) fn kept(&self, alloc: Global, kept: &[bool]) -> Result<Columns, AllocError> {
        let mut columns = Columns::new(alloc);
        columns.marks = self.marks.copy()?;
        for ((column, set), is_kept) in self.list.iter().zip(&self.sets).zip(kept) {
            if *is_kept {
                columns.take(column, set, self.ones_of(column))?;
            }
        }
        Ok(columns)
    }

    /// Takes over a column of these pairings, with these ones.
    fn take(&mut self, column: &Column, set: &Set, ones: &[u16]) -> Result<(), AllocError> {
        let first = self.ones.len();
        self.ones.extend_from_slice(ones)?;
        self.greatest = self.greatest.max(column.cost.unsigned_abs());
        let end = self.ones.len();
        self.sets.push(*set)?;
        self.list.push(Column {
            first,
            end,
            ..*column
        })?;
        Ok(())
    }

    /// Column `c` is basic in a row, or `NOWHERE`.
    pub(crate) fn put_row(&mut self, c: usize, row: usize) {
        if c < self.list.len() {
            let column = &mut self.list[c];
            column.row = row;
        }
    }

    /// Allows the columns that these sets allow, and forbids the others, but for those of counts. There are so many
    /// pairings.
    pub(crate) fn mark(
        &mut self,
        allowed: &[Allowed],
        flown: &Set,
        left_open: &Set,
        pairings: usize,
    ) -> Result<(), AllocError> {
        self.marks.put(allowed, left_open, pairings)?;
        for (column, set) in self.list.iter_mut().zip(&self.sets) {
            if let Some(is_allowed) = self.marks.is_allowed(column, set, flown) {
                column.is_forbidden = !is_allowed;
            }
        }
        Ok(())
    }

    /// Says whether column `c` may not be used.
    pub(crate) fn forbid(&mut self, c: usize, is_forbidden: bool) {
        if c < self.list.len() {
            let column = &mut self.list[c];
            column.is_forbidden = is_forbidden;
        }
    }
}

/// The number of a row in little memory. A program has some hundred rows; one past the last that fits has none.
fn short(row: usize) -> u16 {
    row.min(usize::from(u16::MAX)) as u16
}

/// What a column with ones in these rows costs more than the duals pay for it.
fn reduced(column: &Column, ones: &[u16], duals: &[i64]) -> i64 {
    let mut paid: i64 = 0;
    for i in ones {
        paid = paid.wrapping_add(number_at(duals, usize::from(*i)));
    }
    if column.is_negative {
        column.cost.wrapping_add(paid)
    } else {
        column.cost.wrapping_sub(paid)
    }
}
