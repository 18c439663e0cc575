//! The book of the next month, as far as a month and its published roster give it.
//!
//! `carry` writes a book of the same persons: what of their duty lists and their leave lies in the next
//! month's window, and what they have flown. It reads its own text again, and gives it only if that is such a
//! book, as `is_carried` of `roster_desk_carry_judged` tells. In reading order:
//!
//! - `writing`: the text, on `csv`
//! - `carrying`: a text that is the next month's book
//! - `ledger`: the rows of a ledger, and what is wrong with them
//! - `tables`: the same as tables of a folder
#![tactic(auto)]

mod carrying;
mod ledger;
mod tables;
mod writing;

pub use carrying::{CarriedBook, carry, carry_by_book, carry_by_ledger};
pub use ledger::{read_ledger, unlike_text};
pub use tables::carried_tables;
