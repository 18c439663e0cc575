//! Every line of each person: the legal sets of pairings, in order, and what each costs.
//!
//! `lines_of` lists the lines of one person, `table_of` those of each, and `all_lines` has threads do the
//! same. The lists and the table of them stand in `roster_lines_table`. In reading order:
//!
//! - `pairs`: which pairings are legal alone, and which of those together
//! - `stem`: a line that others go on from
//! - `wanted`: which lines are wanted
//! - `extend`: `lines_of`, and `wanted_lines`, from each line to those that go on from it
//! - `table`: the lines of all persons
//! - `wanted_tables`: those that are wanted of each person
//! - `shared`: the same table, by several threads
//! - `pairs_by_threads`: the pairs of all persons, by several threads
#![tactic(auto)]

mod extend;
mod pairs;
mod pairs_by_threads;
mod shared;
mod stem;
mod table;
mod wanted;
mod wanted_tables;

pub use extend::{LinesFault, lines_between, lines_of, lines_of_pairs, wanted_lines};
pub use pairs::Pairs;
pub use pairs_by_threads::all_pairs;
pub use shared::all_lines;
pub use table::{TableFault, table_of};
pub use wanted::{Between, Wanted};
pub use wanted_tables::wanted_table;
