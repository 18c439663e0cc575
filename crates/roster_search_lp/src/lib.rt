//! A linear program over lines of persons, as a restricted master of set partitioning: each person has one
//! line, or parts of several that make up one, and each pairing is held once or is left open, in parts too.
//! Its dual prices are good prices for a search. No answer of a search rests on them, since any prices give a
//! bound that holds; so the contracts say which lines it has, that each dual price is within its limit, and
//! nothing of an optimum.
//!
//! It is solved by a simplex method with a dense inverse, in whole numbers: it comes to the same on every
//! machine. Columns that become forbidden leave the basis by dual steps, and others enter it by primal ones.
//! Each call of `solve` ends after a number of steps that depends on the rows and columns. One program serves
//! for a whole search: columns are only added, marks say which of them may be used at a node, and `solve`
//! goes on from the basis before. In reading order:
//!
//! - `tuning`: the numbers that decide how exact it is and how long it takes
//! - `limits`: how far dual prices go, and shares
//! - `fixed`: numbers in parts of a whole
//! - `right`: right-hand sides
//! - `inverse`: the inverse of a basis
//! - `person_sets`: which lines of a person there are
//! - `column`: a column
//! - `columns`: all columns, and the rows in which they have ones
//! - `simplex`: from one basis to the next
//! - `dual_steps`: how columns leave the basis that may not be used
//! - `renewing`: the inverse of a basis made anew
//! - `counting`: how many pairings are open
//! - `forgetting`: columns that are left out
//! - `marking`: which columns may be used
//! - `master`: the program, as other crates see it
#![tactic(auto)]

mod column;
mod columns;
mod counting;
mod dual_steps;
mod fixed;
mod forgetting;
mod inverse;
mod limits;
mod marking;
mod master;
mod person_sets;
mod renewing;
mod right;
mod simplex;
mod tuning;

pub use limits::{MOST_DUAL, MOST_SHARE};
pub use marking::Allowed;
pub use master::Master;
