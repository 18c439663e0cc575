//! Tests of the pool of spans: what no clause says, each public call once, and a pool that two threads share.
//! A crate with tests of its own would be proved twice. In reading order:
//!
//! - `given`: six persons with 36 lines each, and what is done with their spans
//! - `events`: a pool's events and refusals, one after another
//! - `shared`: the same behind the lock, by one thread and by two
#![tactic(auto)]

#[cfg(test)]
mod events;
#[cfg(test)]
mod given;
#[cfg(test)]
mod shared;
