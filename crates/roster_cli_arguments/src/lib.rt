//! The command line, on `clap`.
//!
//! - `line`: `read_line` takes the words, or tells why it refuses them
#![tactic(auto)]

mod line;

pub use line::{LineFault, read_line};
