//! The values of a rostering problem, as the crates above see them.
//!
//! A `Problem` is what the records of some book without a fault make; its readers give the tables in
//! book order. The crate reads no book: `roster_book` does. In reading order:
//!
//! - `base`, `person`, `pairing`, `duty`, `leave`, `cost`: the entries of the tables; `sector`: what a
//!   duty has
//! - `order`: the order of duties in time
//! - `index`: from a pairing to its duties, and from a person to their leaves
//! - `costs`: costs by person and pairing
//! - `tables`: the tables together
//! - `problem`: the tables, with what is looked up in them
//! - `duty_list`: the duties of one person
//! - `placing`: a number at all places of a set
#![tactic(auto)]

mod base;
mod cost;
mod costs;
mod duty;
mod duty_list;
mod index;
mod leave;
mod order;
mod pairing;
mod person;
mod placing;
mod problem;
mod sector;
mod tables;

pub use base::Base;
pub use cost::Cost;
pub use costs::Costs;
pub use duty::{Duty, Holder};
pub use duty_list::DutyList;
pub use leave::Leave;
pub use order::duties_in_order;
pub use pairing::Pairing;
pub use person::Person;
pub use placing::{has_throughout, open_number, put};
pub use problem::Problem;
pub use sector::Sector;
pub use tables::BookTables;
