//! From the bytes of a reader to the plan of their book, or the report of its best roster, written to a
//! writer. The plan begins with the book's assignments, or with the roster of a report.
//!
//! - `running`: a book is read, and its one answer written, or what is known of it so far
//! - `laws`: an answer that begins with `ROSTER` is the report of the best roster
#![tactic(auto)]

mod laws;
mod running;

pub use laws::first_word_says_best;
pub use roster_desk_given::Status;
pub use running::{Starter, run, write_known};
