//! A roster as a table for a spreadsheet, and what differs between two rosters.
//!
//! The sums are those of `roster_cumulative` and `roster_cost`, which are proved, and so are the rows of
//! persons, the lines of what differs, and whose month differs; the other rows and free weekends are only
//! tested. In reading order:
//!
//! - `sums`: what a person's pairings cost, and the minutes of a report
//! - `writing`: how a table looks, and what persons are called
//! - `rows`: a row for each duty, leave and pairing of a person
//! - `month`: days of work and free days of a person
//! - `persons`: a row for each person
//! - `table`: both tables
//! - `differences`: what differs between two rosters
//! - `changed`: whose month differs, and on which days
#![tactic(auto)]

mod changed;
mod differences;
mod month;
mod persons;
mod rows;
mod sums;
mod table;
mod writing;

pub use changed::changed_text;
pub use differences::differences_text;
pub use table::{persons_table, roster_table};
pub use writing::Sheet;
