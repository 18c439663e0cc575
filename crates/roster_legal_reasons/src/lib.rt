//! Why a person mustn't have a set of pairings, and how near to each limit a person is.
//!
//! `reason` tells the first rule that a person breaks with a set, and what breaks it: which duties, and by
//! how many minutes. `first_reason` tells it of the empty set too, which breaks a rule if the person is
//! locked. `standing` tells how much of a limit is used. Each number is that of the definitions, and of all
//! that breaks a rule the earliest is told. In reading order:
//!
//! - `bounds`: what each limit looks at
//! - `runs`: runs of days with too many minutes, or with the most
//! - `amounts`: what breaks a limit, and how much of it is used
//! - `rules`: what breaks each rule, as a reason; a file for each rule but the limits
//! - `telling`: the reason for a set
#![tactic(auto)]

mod amounts;
mod bounds;
mod rules;
mod runs;
mod telling;

pub use amounts::{Amount, MonthFlight, standing};
pub use rules::{DutyInLeave, FewDaysOff, LongBlock, Reason, SharedDuties, ShortRest};
pub use runs::RunOfDays;
pub use telling::{first_reason, reason};
