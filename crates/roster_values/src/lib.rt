//! Values that need no problem: names, sets of pairings, rosters, rules, steps, and what may be asked for.
//!
//! A `Roster` says who flies what, whatever the problem is. In reading order:
//!
//! - `name`: identifiers
//! - `set`: sets of pairings
//! - `roster`: who flies what
//! - `rule`: the rules by name
//! - `step`: what a worker does in a search that is replayed
//! - `command`: what the program is asked to do
#![tactic(auto)]

mod command;
mod name;
mod roster;
mod rule;
mod set;
mod step;

pub use command::Command;
pub use name::{Name, is_identifier};
pub use roster::{Places, Roster};
pub use rule::{Limit, Rule, limits_in_order, rules_in_order};
pub use set::Set;
pub use step::{Step, Steps};
