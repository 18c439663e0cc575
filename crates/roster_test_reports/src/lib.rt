//! Tests of reports that are read again: what each line gives, and what is told of the first wrong one. A crate
//! with tests of its own would be proved twice. In reading order:
//!
//! - `given`: a book, and what is told of a report
//! - `rosters`: the roster of a report
//! - `faults`: reports that are refused
//! - `texts`: records made of a report, and what the book doesn't have of it
#![tactic(auto)]

#[cfg(test)]
mod faults;
#[cfg(test)]
mod given;
#[cfg(test)]
mod rosters;
#[cfg(test)]
mod texts;
