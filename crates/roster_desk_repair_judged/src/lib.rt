//! What is fixed of a published roster, whether a book is its repair, and pairings that break off.
//!
//! - `terms`: what a planner says of a repair, and what it costs that a pairing moves
//! - `fixed`: the pairings that stay, and the rest
//! - `duties`: whether the duties are those of the book, with the fixed ones
//! - `persons`: whether the persons are the same, and their leave
//! - `units`: whether each pairing costs its owner so much less
//! - `judging`: whether a book is a repair
//! - `broken`: whether a book is the one in which a pairing breaks off
#![tactic(auto)]

mod broken;
mod duties;
mod fixed;
mod judging;
mod persons;
mod terms;
mod units;

pub use broken::{Break, Rest, is_broken_off, is_left, is_under_way, station_of};
pub use fixed::{fixed_of, rest_of};
pub use judging::is_repair;
pub use terms::{Terms, price_at};
