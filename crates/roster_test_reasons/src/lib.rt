//! Tests of reasons: one book for each rule, with numbers from reasoning on paper. A crate with tests of its
//! own would be proved twice. In reading order:
//!
//! - `books`: reasons asked for
//! - `duties`: the rules of duties, leave and rest
//! - `limits`: the limits, and what is used of them
//! - `days_off`: days off in a row
#![tactic(auto)]

#[cfg(test)]
mod books;
#[cfg(test)]
mod days_off;
#[cfg(test)]
mod duties;
#[cfg(test)]
mod limits;
