//! The least roster of a region, by whatever finds a roster there.
//!
//! All searches ask one thing again and again: whether a region has a roster that costs at most so much
//! (`Finder`). Least cost and ties are loops round that (`least_of_region`), so nothing that prunes knows of
//! ties, and how a roster is found isn't known here. Bases share neither persons nor pairings, so each has a
//! region of its own (`region_of_base`). In reading order:
//!
//! - `boxes`: the box of all lines, and what is answered of a box
//! - `parts`: the rosters of one base
//! - `least`: the least roster of a region
//! - `cheapest`: a roster of least cost, closed in on from below
//! - `first`: the first of equal cost, one pairing after another
//! - `finder`: what finds a roster that costs no more than it may
//! - `tuning`: the number that decides how long that takes
#![tactic(auto)]

mod boxes;
mod cheapest;
mod finder;
mod first;
mod least;
mod parts;
mod tuning;

pub use boxes::{LineBox, if_before, whole};
pub use finder::{Budget, Finder};
pub use least::{RootPrices, costs_fit, least_of_region, roster_in};
pub use parts::{LeastOfBase, least_in, region_of_base};
