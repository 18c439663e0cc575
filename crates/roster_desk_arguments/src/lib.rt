//! The desk's command line, on `clap`: what its words ask for, as plain values.
//!
//! - `args`: arguments, and commands that have them
//! - `planning`, `telling`, `months`: the commands
//! - `commands`: the command line
//! - `line`: `read_line` takes the words, or tells why it refuses them
//! - `asked`: what the words that are taken ask for
#![tactic(auto)]

mod args;
mod asked;
mod commands;
mod line;
mod months;
mod planning;
mod telling;

pub use line::{
    BookLine, CarryLine, Line, LineFault, Page, PageLine, PlanLine, Question, RepairLine,
    TableLine, TellLine, read_line,
};
