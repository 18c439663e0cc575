//! Threads that share what is done for each person.

use std::alloc::Global;

/// Threads that share what is done for each person of a base, and where they take memory from.
#[derive(Drop)]
pub struct Team<'a, R> {
    /// What starts threads.
    pub rt: &'a R,
    /// What gives memory.
    pub alloc: Global,
    /// So many threads at most, and one at least.
    pub threads: usize,
}
