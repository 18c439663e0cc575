//! What the desk answers of a roster of a book, of a report, of the records of a book, or of tables, written
//! to a writer.
//!
//! - `telling`: what is told of a roster
//! - `texts`: the text that tells it
//! - `reports`: the records of a report
//! - `pages`: what is told of the records of a book
//! - `mending`: the book of a repair
//! - `breaking`: the book in which pairings break off
//! - `making`: the book of the tables of a folder
//! - `carrying`: what the next month has of a month
//! - `unmade`: why no book was made
//! - `untold`: why nothing is told
//! - `reading`: the book that a command is of, or the line of its first fault
//! - `writing`: a text that is written
#![tactic(auto)]

mod breaking;
mod carrying;
mod making;
mod mending;
mod pages;
mod reading;
mod reports;
mod telling;
mod texts;
mod unmade;
mod untold;
mod writing;

pub use carrying::{Carried, CarryFiles, carry_on};
pub use making::write_book;
pub use mending::mend;
pub use pages::show;
pub use reports::tell_assigns;
pub use telling::{FileRead, Inputs, Noted, tell};
pub use untold::Untold;
