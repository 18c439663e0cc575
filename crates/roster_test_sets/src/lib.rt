//! Tests of the rules and the costs of sets: what no clause says, and each public call that no book of
//! `data/` reaches. A crate with tests of its own would be proved twice. In reading order:
//!
//! - `legal`: the rules over sets of pairings
//! - `cost`: what lines and rosters cost, and the order of keys
#![tactic(auto)]

#[cfg(test)]
mod cost;
#[cfg(test)]
mod legal;
