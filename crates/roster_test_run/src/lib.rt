//! Tests of runs: what no clause says, and each public call that no book of `data/` reaches. A crate
//! with tests of its own would be proved twice. In reading order:
//!
//! - `runs`: runs over memory, and how they end
//! - `devices`: readers and writers that fail, and then go on
//! - `faults`: the texts of faults
//! - `lines`: command lines
//! - `values`: the values of a book, as a caller of `roster_book` names them
#![tactic(auto)]

#[cfg(test)]
mod devices;
#[cfg(test)]
mod faults;
#[cfg(test)]
mod lines;
#[cfg(test)]
mod runs;
#[cfg(test)]
mod values;
