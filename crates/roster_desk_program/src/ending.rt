//! How a plan ends.

ghost use Rattle.std.specs.Prelude.{◌≡◌, ◌≤◌};
ghost use Rattle.std.specs.Process.{exit_status};
ghost use Rattle.roster_desk_program.specs.Ending.{ending_number};

use roster_desk_reports::Wrong;
use std::process::ExitCode;

/// The exit status of a line that is refused.
pub(crate) const LINE_REFUSED: u8 = 2;

/// How the command ended.
#[derive(Clone, Copy)]
pub enum Ending<'a> {
    /// The plan was written, or the report of the best roster.
    Planned,
    /// The book has a fault, and its line was written.
    Faulty,
    /// The report to begin with gives no roster of the book.
    StartRefused {
        /// The number of its line, from 1.
        line: usize,
        /// What is wrong with that.
        wrong: Wrong,
    },
    /// The file at the path is too long for a report.
    TooLong(&'a str),
    /// The plan would be kept in its book, or in standard input.
    InPlace,
    /// Book and report would both be standard input.
    Shared,
    /// Memory ran out.
    Memory,
    /// The file at the path can't be opened.
    Unopened(&'a str),
    /// The file at the path can't be read.
    Unread(&'a str),
    /// Standard input can't be read.
    InputUnread,
    /// The writer failed: it took the first bytes, none or perhaps all.
    Unwritten,
    /// The file that keeps the plan couldn't be written. What was found was written, if memory was there.
    Unkept,
    /// Memory for the text of a plan that was to be kept ran out. What was found was written, if memory was
    /// there.
    Forgotten,
}

impl Ending<'_> {
    /// The program's exit status.
    pub fn exit_code(self) -> ExitCode
        ensures number { exit_status result ≡ ending_number self.entry }
        ensures limited { exit_status result ≤ 4 }
    {
        match self {
            Ending::Planned => ExitCode::SUCCESS,
            Ending::Faulty | Ending::StartRefused { .. } | Ending::TooLong(_) => ExitCode::from(1),
            Ending::InPlace | Ending::Shared => ExitCode::from(LINE_REFUSED),
            Ending::Memory => ExitCode::from(3),
            Ending::Unopened(_) | Ending::Unread(_) | Ending::InputUnread => ExitCode::from(4),
            Ending::Unwritten | Ending::Unkept | Ending::Forgotten => ExitCode::from(4),
        }
    }
}
