//! Tests of the linear program over lines: what no clause says. A crate with tests of its own would be proved
//! twice. In reading order:
//!
//! - `exact`: the simplex method in fractions, plainly, to compare with
//! - `programs`: small programs, made by a fixed rule
//! - `optima`: programs whose least cost is that in fractions
//! - `marked`: programs with forbidden columns
//! - `edges`: programs without persons, pairings or anything to choose, and with costs far out
//! - `calls`: each public call
#![tactic(auto)]

#[cfg(test)]
mod calls;
#[cfg(test)]
mod edges;
#[cfg(test)]
mod exact;
#[cfg(test)]
mod marked;
#[cfg(test)]
mod optima;
#[cfg(test)]
mod programs;
