//! The texts that are written: the report of a roster, the plan of a month, what a check says of a roster,
//! and the line of a fault.
//!
//! Each is whole in memory before its first byte is written. So if memory runs out, nothing is
//! written, and if the writer fails, a prefix of the text. In reading order:
//!
//! - `report`: the report of a roster, written whole
//! - `plan`: the plan of a month, written whole
//! - `check`: what a check says of a roster, written whole
//! - `lines`: their lines
//! - `said`: what locks persons, and what they break
//! - `names`: the names of the pairings of one number
//! - `words`: words and numbers behind one another
//! - `fault_line`: the line of a fault, written whole
//! - `telling`: a text or a line that a writer is told, as far as it takes it
//! - `device`: a text that is written and flushed
//! - `fault`: why a text was not written
#![tactic(auto)]

mod check;
mod device;
mod fault;
mod fault_line;
mod lines;
mod names;
mod plan;
mod report;
mod said;
mod telling;
mod words;

pub use check::write_check;
pub use fault::TextFault;
pub use fault_line::write_fault;
pub use plan::write_plan;
pub use report::write_report;
pub use telling::{tell_line, tell_text};
