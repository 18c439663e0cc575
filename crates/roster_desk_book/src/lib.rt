//! The book of a month, from the tables of a folder.
//!
//! `make_book` gives a book in which no record has a fault, or tells what is wrong with the tables. In
//! reading order:
//!
//! - `asked`: of which month, bases and rank the book is
//! - `spans`: days and times round the month
//! - `draft`: the records so far, and the rows that they come from
//! - `taken`: which persons and pairings the book has
//! - `crew`: the records of bases and persons
//! - `leave`: those of leave
//! - `pairings`: those of pairings and fixed duties
//! - `costs`: those of wishes
//! - `judged`: what is wrong with the records, told of the tables
//! - `making`: the book
#![tactic(auto)]

mod asked;
mod costs;
mod crew;
mod draft;
mod judged;
mod leave;
mod making;
mod pairings;
mod spans;
mod taken;

pub use asked::Asked;
pub use making::{Answer, make_book};
