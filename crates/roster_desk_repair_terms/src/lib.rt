//! What a repaired book keeps of the book and the published roster that it is of.
//!
//! - `laws`: what its rosters cost, and which duties persons have by them
#![tactic(auto)]

mod laws;

pub use laws::{published_is_whole, repair_keeps_costs, repair_keeps_duties};
