//! Readers and writers that remember how they fared.
//!
//! A library that reads or writes through one can answer any error of its own: whether the device
//! failed is asked here, and so told apart from want of memory.
//!
//! - `watched`: `Watched`
#![tactic(auto)]

mod watched;

pub use watched::Watched;
