//! Columns left out of a linear program, so that it doesn't grow too large.

use crate::simplex::{Simplex, candidate};
use std::alloc::{AllocError, Global};

impl Simplex {
    /// Leaves out the dearest columns that aren't basic, until so many columns are left or none is to be left
    /// out; the first columns stay.
    pub(crate) fn forget(&mut self, alloc: Global, most: usize) -> Result<(), AllocError> {
        let mut kept = vec![in alloc; true; self.columns.len()]?;
        self.candidates.clear();
        for c in self.basis.len().saturating_add(2)..self.columns.len() {
            if !self.columns.is_basic(c) {
                let value = self.columns.reduced(c, &self.duals);
                self.candidates.push((value, c))?;
            }
        }
        self.candidates.sort_unstable();
        let more = self.columns.len().saturating_sub(most);
        let from = self.candidates.len().saturating_sub(more);
        for i in from..self.candidates.len() {
            let c = candidate(&self.candidates, i);
            if c < kept.len() {
                kept[c] = false;
            }
        }
        self.columns = self.columns.kept(alloc, &kept)?;
        for (c, column) in self.columns.all().iter().enumerate() {
            if column.row < self.basis.len() {
                self.basis[column.row] = c;
            }
        }
        Ok(())
    }
}
