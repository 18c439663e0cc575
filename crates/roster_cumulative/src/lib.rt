//! The minutes of duty and flight by local day, in runs of days, and in the month, and their limits,
//! after ORO.FTL.210 of Regulation (EU) No 83/2014.
//!
//! `duty_on` and `flight_on` are those of a list on a day, `greatest_duty` and `greatest_flight` the
//! most of a judged run of days, and `month_flight` the flight in the month, of a list or, by
//! `duty_flight`, of one duty. `ListLimits` tells whether a list keeps a limit, and `cumulative_broken`
//! the first one that it breaks. Any list will do: its duties may overlap, and may lie outside the
//! window. No call takes memory. In reading order:
//!
//! - `table`: the minutes of each day of a window
//! - `runs`: the minutes of days in a row
//! - `sums`: both for duty and for flight
//! - `whole`: the minutes of whole duties
//! - `limits`: the limits together
//! - `judged`: all sums that they judge, what a list takes of each and what it leaves
//! - `laws`: what follows from the definitions of the month's flight
#![tactic(auto)]

mod judged;
mod laws;
mod limits;
mod runs;
mod sums;
mod table;
mod whole;

pub use judged::{have_room, loads_of, rooms_of, take_room};
pub use laws::{
    flight_of_duties, flight_of_one_pairing_more, flight_of_set, limits_are_sums,
    one_list_of_each_duty, sums_of_one_pairing_more,
};
pub use limits::{ListLimits, cumulative_broken};
pub use roster_problem::DutyList;
pub use roster_values::Rule;
pub use sums::{duty_flight, duty_on, flight_on, greatest_duty, greatest_flight, month_flight};
