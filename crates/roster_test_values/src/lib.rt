//! Tests of values and of the rules over duties: what no clause says, and each public call that no book
//! of `data/` reaches. They read no book. A crate with tests of its own would be proved twice. In reading
//! order:
//!
//! - `given`: names, instants, the days of a month and duties, as several tests are given them
//! - `values`: names, rules, sets, duty lists and places
//! - `instants`: instants, months and days
//! - `zones`: the days of zone texts
//! - `rest`: the rules of rest
//! - `cumulative`: duty and flight by day and in runs of days, and their limits
#![tactic(auto)]

#[cfg(test)]
mod cumulative;
#[cfg(test)]
mod given;
#[cfg(test)]
mod instants;
#[cfg(test)]
mod rest;
#[cfg(test)]
mod values;
#[cfg(test)]
mod zones;
