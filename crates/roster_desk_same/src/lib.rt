//! Whether what two books say is the same: the days of bases, and the sectors of duties.
#![tactic(auto)]

mod days;
mod sectors;

pub use days::are_same_days;
pub use sectors::are_same_sectors;
