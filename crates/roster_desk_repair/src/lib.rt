//! The book of a repair: the rest of a month, with what was published.
//!
//! `repair` writes the records of a book anew: what reports before the repair begins becomes fixed duties of
//! who flew it, and each other pairing costs its owner less than anybody else. It reads its own text again,
//! and gives it only if that is a repair, as `is_repair` of `roster_desk_repair_judged` tells. `break_off`
//! writes the book in which a pairing breaks off, and gives it only if `is_broken_off` finds that it is one.
//! In reading order:
//!
//! - `keeping`: which records of a book stay, and what they say
//! - `writing`: the text, on `csv`
//! - `repairing`: a text that is a repair
//! - `breaking`: a text that is a book in which a pairing breaks off
#![tactic(auto)]

mod breaking;
mod keeping;
mod repairing;
mod writing;

pub use breaking::{BrokenBook, break_off};
pub use repairing::{RepairedBook, repair};
