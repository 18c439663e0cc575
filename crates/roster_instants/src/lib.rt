//! Instants, months, and the days round a month as a base's clocks show them, on `jiff`.
//!
//! `read_minute` and `Period::read` read exactly the texts that `roster_model`'s calendar gives an
//! instant or a month, `common` is the time that two intervals share, and `BaseDays::build` makes
//! the table of local days that a zone text stands for, or tells why it stands for none. Only the
//! table takes memory, and nothing is asked for before the text is judged. In reading order:
//!
//! - `text`: shapes of texts, and the digits in them
//! - `minute`: instants to the minute
//! - `period`: months
//! - `clocks`: what the clocks of a base show, by its zone text
//! - `days`: the local days round a month at a base
//! - `laws`: what ties the definition of these days to `jiff`'s own conversion
#![tactic(auto)]

mod clocks;
mod days;
mod laws;
mod minute;
mod period;
mod text;

pub use days::{BaseDays, ZoneFault};
pub use laws::{compatible_days, compatible_instants, plain_at_utc};
pub use minute::{Minute, common, read_minute};
pub use period::Period;
