//! How a run ends.

ghost use Rattle.std.specs.Prelude.{◌≡◌, option_map};
ghost use Rattle.std.specs.Process.{exit_status};
ghost use Rattle.roster_desk_given.specs.Status.{exit_number, message_text};

use roster_desk_reports::Wrong;
use std::process::ExitCode;

/// How a run ended.
#[derive(Clone, Copy, PartialEq, Eq)]
pub enum Status {
    /// The plan was written, or the report of the best roster.
    Answered,
    /// The book has a fault, and its line was written.
    Refused,
    /// The report with which the plan was to begin gives no roster of the book, and nothing was written.
    StartRefused {
        /// The number of its line, from 1.
        line: usize,
        /// What is wrong with it.
        wrong: Wrong,
    },
    /// Memory ran out, and nothing was written.
    Memory,
    /// The reader failed, and nothing was written.
    ReadFailed,
    /// The writer failed, and the first bytes of the text were written, none or perhaps all.
    WriteFailed,
    /// Whoever read what is written has stopped, and its first bytes were written.
    Closed,
}

impl Status {
    /// The program's exit status.
    pub fn exit_code(self) -> ExitCode
        ensures { exit_status result ≡ exit_number self }
    {
        match self {
            Status::Answered => ExitCode::SUCCESS,
            Status::Refused | Status::StartRefused { .. } => ExitCode::from(1),
            Status::Memory => ExitCode::from(3),
            Status::ReadFailed | Status::WriteFailed | Status::Closed => ExitCode::from(4),
        }
    }

    /// What standard error is told, if anything. That a report is refused is told by whoever has its path.
    pub fn message(self) -> Option<&'static str>
        ensures { option_map (λ text. text.now) result ≡ message_text self }
    {
        match self {
            Status::Answered | Status::Refused | Status::StartRefused { .. } | Status::Closed =>
                None,
            Status::Memory => Some("error: memory"),
            Status::ReadFailed => Some("error: read"),
            Status::WriteFailed => Some("error: write"),
        }
    }
}
