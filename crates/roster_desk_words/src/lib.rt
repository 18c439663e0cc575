//! What the desk tells of a roster in sentences: why a person mustn't have a pairing, or what it would cost,
//! and how near to each limit a person is.
//!
//! The numbers are those of `roster_legal_reasons`, which are proved, and so are the lines of limits; other
//! words are only tested. Times are hours and minutes, and days are local days of the home base. In reading
//! order:
//!
//! - `words`: times, days and names
//! - `times`: from when to when what is told of lies, and how much of it is flight
//! - `sentences`: a reason in words
//! - `teller`: a roster that is told of
//! - `why`: who could have a pairing, and why others mustn't
//! - `summary`: who is nearest to a pairing
//! - `limits`: how near to each limit each person is
#![tactic(auto)]

mod limits;
mod sentences;
mod summary;
mod teller;
mod times;
mod why;
mod words;

pub use limits::{limits_text, push_limit};
pub use sentences::push_reason;
pub use teller::Teller;
pub use times::flight_of;
pub use words::{date, instant, pairing_name, push_all, time};
