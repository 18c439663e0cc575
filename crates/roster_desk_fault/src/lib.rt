//! What is wrong with a book, and what is likely a mistake in it, in words.
//!
//! `fault_text` and `judge` tell the faults of a refused book, the first of which is the one that a check
//! tells: that is proved, and who is told to have too many legal sets. Later faults, fields, sentences and
//! what is wanted are only tested. `warn_text` tells what is likely a mistake in a book without a fault; of
//! that only the words are proved, and their order. In reading order:
//!
//! - `kinds`: the kinds of records, and their fields
//! - `rows`: the records of a book, each with its line
//! - `forms`: the forms and limits of fields
//! - `seen`: a record among those of its book
//! - `names`: names that are given twice, or weren't given
//! - `times`: times that are out of sequence, of the window or of the month, or shared
//! - `finding`: what is wrong with a record
//! - `codes`: what each code says
//! - `crowded`: persons with more legal sets of pairings than `solve` lists
//! - `telling`: the faults of a book
//! - `judging`: the faults of a book, as values
//! - `warning`: what is likely a mistake
//! - `zones`: zone texts whose sign disagrees with their name
//! - `numbers`: minutes that are likely wrong
//! - `likely`: duties that are likely wrong, and persons of whom nothing is given
//! - `alike`: stations and pairings that are likely one
//! - `rests`: rests that are likely too short
//! - `homes`: pairings that likely don't end at their base
//! - `sums`: costs that say nothing, and targets that can't be met
//! - `warning_text`: the warnings of a book
#![tactic(auto)]

mod alike;
mod codes;
mod crowded;
mod finding;
mod forms;
mod homes;
mod judging;
mod kinds;
mod likely;
mod names;
mod numbers;
mod rests;
mod rows;
mod seen;
mod sums;
mod telling;
mod times;
mod warning;
mod warning_text;
mod zones;

pub use judging::{Fault, Judged, judge};
pub use kinds::{Kind, kinds_in_order};
pub use telling::{MOST_TOLD, fault_text};
pub use warning_text::warn_text;
