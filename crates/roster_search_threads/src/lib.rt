//! The least roster of all lines, by several threads.
//!
//! `search_bases` answers it if it is before a known one. Threads take bases one after another; those that
//! have nothing left to do help the others to search. Nothing that they find rests on who searched what. In
//! reading order:
//!
//! - `bases`: the least roster of all, united from those of the bases
//! - `shared`: bases that several threads search
//! - `crew`: threads that find one roster together
//! - `exploring`: open nodes that they explore, each handing half of its own over
//! - `member`: one of these threads
//! - `idle`: threads that have nothing to do
#![tactic(auto)]

mod bases;
mod crew;
mod exploring;
mod idle;
mod member;
mod shared;

pub use bases::search_bases;
