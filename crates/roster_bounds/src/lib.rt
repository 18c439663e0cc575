//! Lower bounds on what rosters cost, by prices of pairings.
//!
//! `Tables` has a problem, the lines of its persons and prices. A `Node` has a line for each of the first
//! persons; its `bound` is at most the cost of every legal roster that gives them these lines, at any
//! prices, and `may_skip` says yes only if no such roster comes before a key. In reading order:
//!
//! - `prices`: a price for each pairing
//! - `reduced`: what lines cost beyond the prices of their pairings
//! - `tables`: the prices over the lines of all persons
//! - `node`: the lines of the first persons
//! - `bound`: what every roster of a node costs at least
//! - `choice`: which prices to take if none are known
#![tactic(auto)]

mod bound;
mod choice;
mod node;
mod prices;
mod reduced;
mod tables;

pub use choice::choose_tables;
pub use node::Node;
pub use prices::{MOST_PRICE, Prices};
pub use tables::Tables;
