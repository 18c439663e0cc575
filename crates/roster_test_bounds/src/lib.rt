//! Tests of bounds, of the search of bases and spans, and of the incumbent: what no clause says, and each
//! public call once. A crate with tests of its own would be proved twice. In reading order:
//!
//! - `books`: small problems
//! - `bounds`: prices, nodes and their bounds
//! - `spans`: searches of spans under sights that show wrong rosters
//! - `bases`: bases that threads settle before spans are searched
//! - `incumbents`: the incumbent, and what it shows
#![tactic(auto)]

#[cfg(test)]
mod bases;
#[cfg(test)]
mod books;
#[cfg(test)]
mod bounds;
#[cfg(test)]
mod incumbents;
#[cfg(test)]
mod spans;
