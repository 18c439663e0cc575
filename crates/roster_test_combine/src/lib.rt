//! Tests of how a search is shared among workers and put together: what no clause says, and each public call
//! once. A crate with tests of its own would be proved twice. In reading order:
//!
//! - `books`: small books, and whether a roster is the wanted one
//! - `combined`: what a worker hands in, and what lists come to
//! - `replays`: searches under written schedules
//! - `threads`: searches by several threads
//! - `gates`: workers that meet
#![tactic(auto)]

#[cfg(test)]
mod books;
#[cfg(test)]
mod combined;
#[cfg(test)]
mod gates;
#[cfg(test)]
mod replays;
#[cfg(test)]
mod threads;
