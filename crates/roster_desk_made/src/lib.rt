//! A book that is made of another one, from its text on.
//!
//! Who makes the text of a book reads it again before it is given: `book_of` gives the text with what it asks
//! to be rostered, or tells the first fault that it would have. In reading order:
//!
//! - `records`: the records of the text of which a book is made
//! - `unmade`: why no book is made
//! - `reading`: the text that is made, as a book
#![tactic(auto)]

mod reading;
mod records;
mod unmade;

pub use reading::{MadeBook, book_of};
pub use records::records_in;
pub use unmade::Unmade;
