//! Regions of rosters: for each person some of their lines, and for each pairing whether it may be open; and
//! dual prices of pairings. In reading order:
//!
//! - `choice`: a step in the tree of a person's lines
//! - `parts`: costs in parts of a cost unit
//! - `rows`: the rows of a person's lines in the table, read as choices
//! - `all_lines`: lines of a person that the table has too, and marks of those that are left
//! - `choices`: the choices of a tree, wherever they stand
//! - `path`: the pairings that a walk through the tree has come to
//! - `writer`: a tree, line after line
//! - `marker`: marks of the choices of a tree that are left
//! - `sums`: the prices of a path's pairings
//! - `marking`: which choices of the table's rows are left
//! - `test`: what is asked of a line that stays
//! - `tree`: the lines that a person may still have
//! - `shared`: trees that several regions have
//! - `region`: regions, and what makes them smaller
//! - `units`: what divides the costs of all rosters
//! - `build`: regions of the lines whose numbers are in ranges
//! - `split`: what a region may be parted by
//! - `reading`: lists read past their ends
//! - `person_lines`: the lines of a person, all or some, for what looks at them
//! - `terms`: what open pairings and the pairings of a bound add
//! - `dual_prices`: dual prices of pairings, and one step of them
#![tactic(auto)]

mod all_lines;
mod build;
mod choice;
mod choices;
mod dual_prices;
mod marker;
mod marking;
mod parts;
mod path;
mod person_lines;
mod reading;
mod region;
mod rows;
mod shared;
mod split;
mod sums;
mod terms;
mod test;
mod tree;
mod units;
mod writer;

pub use choice::{Choice, MOST_SCALE, MOST_UNIT, MOST_VALUE};
pub use choices::Choices;
pub use dual_prices::{DualPrices, scaled_penalty};
pub use person_lines::{ChoiceList, LINES_FOR_THREADS, PersonLines, value_of};
pub use reading::number_at;
pub use region::Region;
pub use rows::Rows;
pub use split::Split;
pub use sums::price_of;
pub use terms::{MOST_PAID, MOST_TERM, cost_of_open, paid_for_open, term};
pub use writer::is_same;
