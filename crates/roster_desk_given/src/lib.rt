//! What the desk's commands are given, and how they end: names that are asked for, what a roster gives to a
//! person and what one pairing more comes to, the clocks of a book's bases, and the exit status. No sentence
//! is made here.
//!
//! In reading order:
//!
//! - `asked`: which pairings and persons are asked for
//! - `persons`: what a roster gives to a person, and the rule that is broken with it
//! - `outcome`: what comes of one pairing more
//! - `ranking`: how near persons are to a pairing
//! - `zones`: what the clocks of a base show, on `jiff`
//! - `status`: how a run of the desk ends
#![tactic(auto)]

mod asked;
mod outcome;
mod persons;
mod ranking;
mod status;
mod zones;

pub use asked::{Asked, Unknown, find};
pub use outcome::{Outcome, with_outcome};
pub use persons::{broken_with, duties_with, set_with};
pub use ranking::{Near, Nearness, fits_nobody, nearest, within, without};
pub use status::Status;
pub use zones::{Zones, read_zones, utc};
