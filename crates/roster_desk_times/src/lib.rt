//! Times, dates, durations and zones as tables have them, on `jiff`.
//!
//! - `instants`: instants, by their offsets or by the clocks of a place, and dates
//! - `minutes`: durations and months
//! - `zones`: the rules of clocks, and where zone files have them
#![tactic(auto)]

mod instants;
mod minutes;
mod zones;

pub use instants::{TimeFault, instant_text, midnight, month_at, read_date, read_instant};
pub use minutes::{read_minutes, read_month};
pub use zones::{is_zone_name, read_zone, rule_in};
