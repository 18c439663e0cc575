//! The best roster of a problem.
//!
//! `solve` makes the lines of each person, and finds the legal roster of least key. Threads search its
//! bases; then workers (`roster_combine_workers`) search spans by branch and bound. In reading order:
//!
//! - `search`: `solve`, and why it finds none
//! - `branching`: spans that are searched by branch and bound
//! - `threads`: a search by several threads
//! - `replaying`: a search under a written schedule
//! - `laws`: a problem has one best roster; leaving all open is legal
#![tactic(auto)]

mod branching;
mod laws;
mod replaying;
mod search;
mod threads;

pub use branching::{combine, work};
pub use laws::{all_open_is_legal, has_best, one_best};
pub use replaying::replay;
pub use roster_combine_workers::{Gate, Open, Point, Solved, least_handed_in_is_best};
pub use search::{SolveFault, solve};
