//! The tables of a folder, from bytes: rows of cells under columns that a header row names.
//!
//! - `tables`: the tables that a folder may have, and their columns
//! - `rows`: the records of a text, each with its line
//! - `shown`: what a cell holds, as text that can be shown
//! - `mistakes`: what is wrong with cells, and what is wanted of them
//! - `sheet`: the rows of a table
//! - `records`: the records of a text that is written
//! - `names`: what persons are called
#![tactic(auto)]

mod mistakes;
mod names;
mod records;
mod rows;
mod sheet;
mod shown;
mod tables;

pub use mistakes::{MOST_MISTAKES, Mistakes, Place};
pub use names::{Called, Names, read_names};
pub use records::{Look, Records};
pub use rows::{Row, read_rows};
pub use sheet::{Entry, Sheet, read_sheet};
pub use shown::push_field;
pub use tables::{Column, Table};
