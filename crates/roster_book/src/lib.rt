//! From bytes to the problem of a book, or to its first fault, on `csv`.
//!
//! `read_book` reads records until their end or their first fault, and answers the problem of the
//! book with the roster that its assignments give and its steps, or that fault. Values are those of
//! `roster_problem` and `roster_values`, given again here. In reading order:
//!
//! - `code`: what may be wrong with a record
//! - `refusal`: why a record isn't taken
//! - `forms`: the forms of a record's fields
//! - `named`: the entries of tables by their names
//! - `record`: the kinds of records, and a file for each: what its records add, and what may be wrong with
//!   them
//! - `duties`: the duties of the records taken so far, with their sectors
//! - `draft`: what is kept of the records taken so far
//! - `book`: the book that was read
//! - `fault`: why no book was read
//! - `reading`: a book, record by record
#![tactic(auto)]

mod book;
mod code;
mod draft;
mod duties;
mod fault;
mod forms;
mod named;
mod reading;
mod record;
mod refusal;

pub use book::Book;
pub use code::Code;
pub use fault::BookFault;
pub use reading::read_book;
pub use roster_problem::{Duty, Leave, Pairing, Person, Problem, Sector};
pub use roster_values::{Command, Set, Step};
pub use roster_watched::Watched;
