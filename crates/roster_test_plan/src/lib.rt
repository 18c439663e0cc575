//! Tests of plans: what no clause says, and each public call once.
//!
//! - `bounds`: bounds by prices
//! - `means`: what an effort allows
//! - `plans`: plans of small books, and what their watcher is told
#![tactic(auto)]

#[cfg(test)]
mod bounds;
#[cfg(test)]
mod means;
#[cfg(test)]
mod plans;
