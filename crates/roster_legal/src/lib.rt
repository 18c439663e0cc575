//! Which sets of pairings are legal for a person.
//!
//! `first_broken` tells the first rule that a person breaks with a set, `locked` the one that is broken
//! without any pairing, and `is_legal` whether the set is empty or none is broken. They look
//! only at the fixed duties of the person and at the duties of the set. A `Judge` answers so for many sets,
//! in the memory of one list. In reading order:
//!
//! - `listing`: the duty list of a person with a set
//! - `rules`: the rules together, and a file for what stands here of each; `roster_restrules` has the rules
//!   of rest, and `roster_cumulative` the limits
//! - `judging`: sets judged, and many of them in the memory of one list
//! - `loads`: what a person's rules see of each duty and of each pairing
//! - `stepping`: sets judged with one pairing more
//! - `laws`: what follows from the definitions
#![tactic(auto)]

mod judging;
mod laws;
mod listing;
mod loads;
mod rules;
mod stepping;

pub use judging::{Judge, first_broken, is_legal, locked};
pub use laws::{
    has_locks, has_verdicts, one_first_broken, one_list_of_locks, one_list_of_verdicts,
    pairs_decide, part_of_legal_is_legal,
};
pub use listing::merge;
pub use loads::Loads;
pub use stepping::{JudgedSet, Spare};
