//! Rest between duties, after ORO.FTL.235 of Regulation (EU) No 83/2014.
//!
//! `rest_needed` tells how long the rest between two duties has to be, and `rest_ok` whether a
//! person's list keeps it between any two neighbours. `is_recurrent` tells whether the time between two
//! duties is a recurrent rest, and `recovery_ok` whether such rests follow one another soon enough;
//! `first_of_block` finds the duties with none between them.
//! `days_ok` tells whether two local days off in a row lie in the month twice. None of them takes
//! memory. `Times` looks at each of many duties once, and then judges any list of them with no look at a
//! night. `busy_days` does as much for days off: it makes a list's days one word of bits. In reading
//! order:
//!
//! - `rest`: the rest between two duties
//! - `recovery`: recurrent rests
//! - `times`: the same for many lists of the same duties
//! - `days_off`: two days off, twice in the month
#![tactic(auto)]

mod days_off;
mod recovery;
mod rest;
mod times;

pub use days_off::{busy_days, days_ok, has_days_off};
pub use recovery::{first_of_block, is_recurrent, recovery_ok};
pub use rest::{rest_needed, rest_ok};
pub use times::Times;
