//! Whether a book is the one that the next month has of a month and its published roster.
//!
//! - `months`: months that follow one another
//! - `ledger`: what was flown before a month
//! - `clocks`: whether the clocks of a base are the same in two months
//! - `duties`: whether duties are those of a duty list that lie in the next window
//! - `leave`: whether leave is what reaches into it
//! - `persons`: whether persons are the same, with what they carry
//! - `judging`: whether a book is the next month's
#![tactic(auto)]

mod clocks;
mod duties;
mod judging;
mod leave;
mod ledger;
mod months;
mod persons;

pub use clocks::BaseZone;
pub use duties::duties_in;
pub use judging::is_carried;
pub use ledger::{Before, Flown, by_book, by_ledger};
pub use persons::{flight_in, year_after};
