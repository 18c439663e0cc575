//! The simplex method, from one basis to the next.

use crate::column::{Count, NOWHERE};
use crate::columns::Columns;
use crate::dual_steps::DualSteps;
use crate::inverse::{Inverse, number_at};
use crate::marking::Allowed;
use crate::right::{right_sides, signed};
use crate::tuning::{
    COLUMNS_A_ROUND, FORBIDDEN_FACTOR, LEAST_USED, MOST_RAISES, PIVOTS_AN_INVERSE, TOLERANCE_PART,
};
use roster_values::Set;
use std::alloc::{AllocError, Global};

/// A linear program, with a basis that its columns can be used by, and its dual prices.
///
/// The rows are those of persons, of pairings, and two that count open pairings: how many are open at least,
/// and at most. The first columns are those of empty lines, then of open pairings, and of fewer open pairings
/// than each of the two counts: column `i` has a one in row `i`. Then come those of more open pairings than
/// each counts, and behind them the lines.
#[derive(Drop)]
pub(crate) struct Simplex {
    persons: usize,
    pub(crate) pairings: usize,
    pub(crate) columns: Columns,
    // How much each row needs, in parts of a whole.
    pub(crate) right: Vec<i64>,
    pub(crate) inverse: Inverse,
    // By row: the column that is basic, and what it costs.
    pub(crate) basis: Vec<usize>,
    costs: Vec<i64>,
    // By row, in parts of a cost unit.
    pub(crate) duals: Vec<i64>,
    // Columns that may enter, by how much they cost more than is paid for them.
    pub(crate) candidates: Vec<(i64, usize)>,
    pub(crate) taken: Vec<bool>,
    pub(crate) before: Vec<usize>,
    // How many parts a cost unit has.
    scale: u32,
    // How many pairings are open at least, and at most, as the last two rows count them.
    pub(crate) counts: [usize; 2],
    // How often it has become dear, and dearer, to use what is forbidden; it can't be used if it isn't dear.
    raises: u32,
    pub(crate) dual: DualSteps,
    // How many pivots there were since the inverse was made, and in all.
    pub(crate) pivots: usize,
    steps: u64,
}

impl Simplex {
    /// All persons have empty lines, of these costs, and all pairings are open, at these penalties: all in
    /// parts of a cost unit.
    pub(crate) fn new(
        alloc: Global,
        idle: &[i64],
        penalties: &[i64],
        scale: u32,
    ) -> Result<Simplex, AllocError> {
        let columns = Columns::first(alloc, idle, penalties)?;
        let size = columns.len().saturating_sub(2);
        let counts = [0, penalties.len()];
        let right = right_sides(alloc, size, counts)?;
        let inverse = Inverse::new(alloc, &right)?;
        let mut simplex = Simplex {
            persons: idle.len(),
            pairings: penalties.len(),
            columns,
            right,
            inverse,
            basis: vec![in alloc; 0; size]?,
            costs: vec![in alloc; 0; size]?,
            duals: vec![in alloc; 0; size]?,
            candidates: Vec::new(alloc),
            taken: vec![in alloc; false; size]?,
            before: vec![in alloc; 0; size]?,
            scale,
            counts,
            raises: 0,
            dual: DualSteps::new(alloc, size)?,
            pivots: 0,
            steps: 0,
        };
        simplex.go_home()?;
        simplex.pay();
        Ok(simplex)
    }

    /// The same program with the same basis.
    pub(crate) fn copy(&self, alloc: Global) -> Result<Simplex, AllocError> {
        Ok(Simplex {
            persons: self.persons,
            pairings: self.pairings,
            columns: self.columns.copy()?,
            right: self.right.clone()?,
            inverse: self.inverse.copy(alloc)?,
            basis: self.basis.clone()?,
            costs: self.costs.clone()?,
            duals: self.duals.clone()?,
            candidates: Vec::new(alloc),
            taken: self.taken.clone()?,
            before: self.before.clone()?,
            scale: self.scale,
            counts: self.counts,
            raises: self.raises,
            dual: self.dual.copy(alloc)?,
            pivots: self.pivots,
            steps: self.steps,
        })
    }

    /// How many rows there are.
    pub(crate) fn size(&self) -> usize {
        self.basis.len()
    }

    /// The columns.
    pub(crate) fn columns(&self) -> &Columns {
        &self.columns
    }

    /// Allows the columns that lines of persons may have, and forbids the others.
    pub(crate) fn mark(
        &mut self,
        allowed: &[Allowed],
        flown: &Set,
        left_open: &Set,
    ) -> Result<(), AllocError> {
        self.raises = 0;
        self.columns.mark(allowed, flown, left_open, self.pairings)
    }

    /// How many columns have entered so far.
    pub(crate) fn steps(&self) -> u64 {
        self.steps
    }

    /// Adds a column of a line.
    pub(crate) fn add_line(&mut self, k: usize, set: &Set, cost: i64) -> Result<(), AllocError> {
        self.columns.add_line(k, set, self.persons, cost)
    }

    /// The dual price of a row, in parts of a cost unit.
    pub(crate) fn dual(&self, row: usize) -> i64 {
        number_at(&self.duals, row)
    }

    /// The dual prices of both counts together, in parts of a cost unit.
    pub(crate) fn count_dual(&self) -> i64 {
        let least = self.dual(self.count_row(Count::Least));
        least.wrapping_add(self.dual(self.count_row(Count::Most)))
    }

    /// The row of a pairing.
    pub(crate) fn row_of(&self, p: usize) -> usize {
        self.persons.saturating_add(p)
    }

    /// What all rows pay, in parts of a cost unit.
    pub(crate) fn value(&self) -> i64 {
        let [least, most] = self.counts;
        let counts = self.row_of(self.pairings);
        let (at_least, at_most) = (self.dual(counts), self.dual(counts.saturating_add(1)));
        let mut value = at_least
            .wrapping_mul(signed(least))
            .wrapping_add(at_most.wrapping_mul(signed(most)));
        for row in 0..counts {
            value = value.wrapping_add(self.dual(row));
        }
        value
    }

    /// How much is used of column `c`, in parts of a whole.
    pub(crate) fn amount(&self, c: usize) -> i64 {
        match self.columns.column(c) {
            Some(column) => self.inverse.amount(column.row),
            None => 0,
        }
    }

    /// How much is used of the column that is basic in a row, in parts of a whole.
    pub(crate) fn amount_in(&self, row: usize) -> i64 {
        self.inverse.amount(row)
    }

    /// The column that is basic in a row.
    pub(crate) fn basic(&self, row: usize) -> usize {
        place_at(&self.basis, row)
    }

    /// Whether more than a thousandth of some forbidden column is used.
    pub(crate) fn uses_forbidden(&self) -> bool {
        for (row, c) in self.basis.iter().enumerate() {
            if self.is_forbidden(*c) && self.inverse.amount(row) > LEAST_USED {
                return true;
            }
        }
        false
    }

    /// Makes it dearer to use what is forbidden. False if it has become so often enough.
    pub(crate) fn raise(&mut self) -> bool {
        if self.raises > MOST_RAISES {
            return false;
        }
        self.raises += 1;
        true
    }

    /// Whether column `c` is forbidden.
    pub(crate) fn is_forbidden(&self, c: usize) -> bool {
        match self.columns.column(c) {
            Some(column) => column.is_forbidden,
            None => false,
        }
    }

    /// What it costs more to use a forbidden column.
    fn forbidden_cost(&self) -> i64 {
        let Some(raises) = self.raises.checked_sub(1) else {
            return 0;
        };
        let cost = self.columns.greatest().saturating_mul(FORBIDDEN_FACTOR);
        let raised = cost.saturating_mul(1 << (2 * raises.min(MOST_RAISES)));
        raised.min(1 << 62) as i64
    }

    /// How much cheaper than its price a column must be to enter.
    fn tolerance(&self) -> i64 {
        let least = i64::from(self.scale) / TOLERANCE_PART;
        least.max(self.forbidden_cost() >> 34).max(1)
    }

    /// Computes the duals anew.
    pub(crate) fn pay(&mut self) {
        let more = self.forbidden_cost();
        for row in 0..self.basis.len() {
            let cost = cost_of(&self.columns, self.basis[row], more);
            if row < self.costs.len() {
                self.costs[row] = cost;
            }
        }
        self.inverse.duals(&self.costs, &mut self.duals);
    }

    /// Solves it without what is forbidden; or, if that takes too long or it is dear by now, with what is
    /// forbidden at that cost.
    pub(crate) fn solve(&mut self) -> Result<(), AllocError> {
        if self.raises == 0 {
            if self.solve_without()? {
                return Ok(());
            }
            self.raises = 1;
        }
        self.go_back()?;
        self.pay();
        self.improve(self.most_pivots())
    }

    /// Goes from basis to basis, until no column costs less than is paid for it, or there were so many. The
    /// duals move with each pivot; they are computed anew after the last one.
    pub(crate) fn improve(&mut self, most: usize) -> Result<(), AllocError> {
        let mut made: usize = 0;
        for _ in 0..most {
            self.choose()?;
            let more = self.enter_candidates(most.saturating_sub(made))?;
            made = made.saturating_add(more);
            if more == 0 || made >= most {
                break;
            }
            if self.pivots == 0 {
                self.pay();
            }
        }
        if made > 0 {
            self.pay();
        }
        Ok(())
    }

    /// How many pivots are made by one call, at most.
    pub(crate) fn most_pivots(&self) -> usize {
        let size = self.size().saturating_mul(4);
        let more = self.columns.len().saturating_sub(self.size()).min(size);
        size.saturating_add(200)
            .saturating_add(more.saturating_mul(2))
    }

    /// Chooses the columns that cost least beside what is paid for them.
    fn choose(&mut self) -> Result<(), AllocError> {
        let tolerance = self.tolerance();
        self.columns
            .cheap(&self.duals, tolerance, &mut self.candidates)?;
        if self.candidates.len() > COLUMNS_A_ROUND {
            self.candidates.select_nth_unstable(COLUMNS_A_ROUND);
            self.candidates.truncate(COLUMNS_A_ROUND);
        }
        self.candidates.sort_unstable();
        Ok(())
    }

    /// Enters the chosen columns that still cost less than is paid for them, but so many at most. It tells how
    /// many it entered.
    fn enter_candidates(&mut self, most: usize) -> Result<usize, AllocError> {
        let tolerance = self.tolerance();
        let mut made: usize = 0;
        for i in 0..self.candidates.len() {
            if made >= most {
                break;
            }
            let c = candidate(&self.candidates, i);
            let reduced = self.columns.reduced(c, &self.duals);
            if reduced < tolerance.wrapping_neg() && self.enter(c)? {
                made = made.saturating_add(1);
                if self.pivots == 0 {
                    break;
                }
                self.inverse.move_duals(reduced, &mut self.duals);
            }
        }
        Ok(made)
    }

    /// Uses as much of column `c` as can be. False if it is basic, or no other column would be used up.
    pub(crate) fn enter(&mut self, c: usize) -> Result<bool, AllocError> {
        match self.columns.column(c) {
            Some(column) if column.row == NOWHERE => {}
            _ => return Ok(false),
        }
        self.look(c);
        let Some(row) = self.inverse.leaving() else {
            return Ok(false);
        };
        self.exchange(row, c)?;
        self.count_pivot()?;
        Ok(true)
    }

    /// One pivot more was made. After many the inverse is made anew; whether it was.
    pub(crate) fn count_pivot(&mut self) -> Result<bool, AllocError> {
        self.steps = self.steps.saturating_add(1);
        self.pivots = self.pivots.saturating_add(1);
        if self.pivots < PIVOTS_AN_INVERSE {
            return Ok(false);
        }
        self.renew()?;
        Ok(true)
    }

    /// Column `c`, which was looked at, takes the place of the one that is basic in a row.
    pub(crate) fn exchange(&mut self, row: usize, c: usize) -> Result<(), AllocError> {
        self.inverse.pivot(row)?;
        if row < self.basis.len() {
            self.columns.put_row(self.basis[row], NOWHERE);
            self.basis[row] = c;
        }
        self.columns.put_row(c, row);
        Ok(())
    }

    /// Looks at column `c`.
    pub(crate) fn look(&mut self, c: usize) {
        let is_negative = self.columns.is_negative(c);
        self.inverse.look(self.columns.ones(c), is_negative);
    }
}

/// The column at place `i`, or one that there isn't.
pub(crate) fn place_at(columns: &[usize], i: usize) -> usize {
    if i < columns.len() {
        columns[i]
    } else {
        NOWHERE
    }
}

/// Candidate `i`, or one that there isn't.
pub(crate) fn candidate(candidates: &[(i64, usize)], i: usize) -> usize {
    match candidates.get(i) {
        Some(candidate) => candidate.1,
        None => NOWHERE,
    }
}

/// What column `c` costs, and so much more if it is forbidden.
fn cost_of(columns: &Columns, c: usize, more: i64) -> i64 {
    match columns.column(c) {
        Some(column) if column.is_forbidden => column.cost.saturating_add(more),
        Some(column) => column.cost,
        None => 0,
    }
}
