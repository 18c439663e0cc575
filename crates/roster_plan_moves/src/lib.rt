//! Which change of a roster is tried next, and which neighbourhood of it is searched next.
//!
//! A run makes random changes, each only if the roster stays legal. Nothing rests on what is chosen, so
//! nothing but legality is promised. In reading order:
//!
//! - `draft`: a roster that is legal at every moment
//! - `random`: numbers that look random, the same in each run
//! - `sets`: what a search asks of sets and lists
//! - `tables`: what a search looks up
//! - `changes`: persons who are to have other sets
//! - `search`: changes tried one after another
//! - `moves`: which change is tried next
//! - `run`: a run of changes
//! - `mates`: who is of a base, and what is open there
//! - `openings`: who is near to having an open pairing
//! - `neighbourhoods`: which neighbourhood is searched next
#![tactic(auto)]

mod changes;
mod draft;
mod mates;
mod moves;
mod neighbourhoods;
mod openings;
mod random;
mod run;
mod search;
mod sets;
mod tables;

pub use neighbourhoods::{Neighbourhood, Neighbourhoods};
pub use run::{Chances, improved_by_changes};
pub use tables::penalties;
