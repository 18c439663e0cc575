//! Reports read again: who has which pairing by a report that `solve` or `plan` wrote.
//!
//! A report may have gone through an editor: a byte order mark, line ends of two bytes, blanks between
//! words and at the end of a line, and blank lines are passed over. Its `CREW` lines say who has what;
//! no number of it is believed. In reading order:
//!
//! - `fault`: what is wrong with a report
//! - `words`: the lines of a text, and the words of a line
//! - `report`: what a report says, and how it is read
//! - `named`: persons and pairings of a book by their names
//! - `placing`: the roster that a report gives of a book
//! - `known`: that of a report of the book as it was
//! - `unknown`: what such a report has and the book doesn't
//! - `assigns`: the `assign` records that make a report's roster
#![tactic(auto)]

mod assigns;
mod fault;
mod known;
mod named;
mod placing;
mod report;
mod unknown;
mod words;

pub use assigns::assigns_text;
pub use fault::{ReportFault, Wrong};
pub use known::read_known_roster;
pub use named::{pairing_named, person_named};
pub use placing::read_roster;
pub use report::{CrewLine, Report, read_report};
pub use unknown::unknown_text;
