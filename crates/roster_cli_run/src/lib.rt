//! A run of the program over any reader and writer. In reading order:
//!
//! - `running`: a book is read, and its one answer written
//! - `status`: how a run ends
//! - `law`: records have an answer, and no second
#![tactic(auto)]

mod law;
mod running;
mod status;

pub use law::{has_answer, one_answer};
pub use running::run;
pub use status::Status;
