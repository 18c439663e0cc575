//! The book that was read.

use roster_problem::Problem;
use roster_values::{Places, Steps};

/// The book that was read.
#[derive(Drop)]
pub struct Book {
    /// What is to be rostered.
    pub problem: Problem,
    /// The roster that its assignments give: a pairing that none of them names is open.
    pub assigned: Places,
    /// Its steps, in the order of their records.
    pub steps: Steps,
}
