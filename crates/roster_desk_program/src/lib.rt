//! The desk's command `plan`, over any files and writers, and command lines that ask for nothing.
//!
//! - `asking`: what the words of a command line ask for, and what is told if they ask for nothing
//! - `commanding`: what the line of the command asks for is done, and told; with the exit status
//! - `planning`: the plan of a line, and how that ends
//! - `means`: what the plan of a line may take
//! - `files`: files by their paths, and whether one of them failed
//! - `slots`: the file that keeps a plan
//! - `keeping`: what is known of a plan is kept in it
//! - `ending`: how a plan ends
//! - `telling`: what standard error is told
#![tactic(auto)]

mod asking;
mod commanding;
mod ending;
mod files;
mod keeping;
mod means;
mod planning;
mod slots;
mod telling;

pub use asking::{asked, unread_words};
pub use commanding::program;
pub use ending::Ending;
pub use files::{Files, MOST_REPORT_BYTES, STANDARD_INPUT, Shelf};
pub use keeping::Keeping;
pub use means::means_of;
pub use planning::plan_line;
pub use slots::Slot;
