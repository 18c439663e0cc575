//! Fair targets: those of a book, scaled to what there is to fly at each base, to the minute.
//!
//! `fair_book` writes the book anew, reads its own text again, and gives it only if each person has the fair
//! target. In reading order:
//!
//! - `shares`: what comes to each weight of a whole
//! - `targets`: what there is to fly at a base, and each person's share of it
//! - `writing`: the text, on `csv`
//! - `laws`: all shares together are the whole, and each is near its part of it
#![tactic(auto)]

mod laws;
mod shares;
mod targets;
mod writing;

pub use laws::{shares_add_up, shares_are_near};
pub use writing::fair_book;
