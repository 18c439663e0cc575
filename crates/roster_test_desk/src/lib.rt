//! Tests of the desk's program over memory: each status, and what is written, kept and told.
//!
//! - `memory`: files in memory
//! - `plans`: the command `plan`
//! - `words`: command lines that ask for nothing
#![tactic(auto)]

#[cfg(test)]
mod memory;
#[cfg(test)]
mod plans;
#[cfg(test)]
mod words;
