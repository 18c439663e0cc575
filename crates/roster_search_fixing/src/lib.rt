//! What makes regions smaller by prices and by what follows, and what is left of them. In reading order:
//!
//! - `bounding`: what the rosters of a region cost at least
//! - `costs`: which costs the rosters of a region may have
//! - `propagate`: what follows for the other persons from the lines of each
//! - `tightening`: regions without what costs too much
//! - `inside`: whether a roster is in a region
//! - `deciding`: what is left to decide in a region, and the roster if nothing is
#![tactic(auto)]

mod bounding;
mod costs;
mod deciding;
mod inside;
mod propagate;
mod tightening;

pub use costs::{cost_above, cost_at_most};
pub use deciding::{is_split, only, pick};
pub use inside::is_in;
pub use tightening::tighten;
