//! The best roster of a problem, found in two plain ways. Tests compare other searches with them.
//!
//! `solve_plainly` tries every list of places, and `solve_by_lines` walks through all choices of one line
//! for each person in which no two meet. In reading order:
//!
//! - `best`: the best roster met so far
//! - `plain`: `solve_plainly`, and the lists in turn
//! - `walk`: `solve_by_lines`, and the walk through the lines
#![tactic(auto)]

mod best;
mod plain;
mod walk;

pub use plain::solve_plainly;
pub use walk::solve_by_lines;
