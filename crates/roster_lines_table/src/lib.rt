//! The lines of persons, as searches read them: lists in order, each line with its cost, and the table of
//! all persons' lists.
//!
//! A line is a legal set of pairings of a person; what makes lines, and judges them, stands in
//! `roster_lines`. A line takes 16 bytes, since it says its cost, its last pairing, how many it has, and
//! which line stands behind the earlier ones. In reading order:
//!
//! - `order`: which of two sets comes first
//! - `lines`: the lines of a person, and how one of them is found
//! - `shared_lines`: lines that a table and others have together
//! - `table`: the lines of all persons
//! - `laws`: what follows from the definitions
#![tactic(auto)]

mod laws;
mod lines;
mod order;
mod shared_lines;
mod table;

pub use laws::{
    all_lines_are_some, few_are_not_crowded, has_numbers, nobody_is_crowded, one_list_of_lines,
    one_list_of_numbers,
};
pub use lines::{Lines, Row};
pub use shared_lines::SharedLines;
pub use table::Table;
