//! How a run ends.

ghost use Rattle.std.specs.Prelude.{◌≡◌, option_map};
ghost use Rattle.std.specs.Process.{exit_status};
ghost use Rattle.roster_cli_run.specs.Run.{exit_number, message_text};

use std::process::ExitCode;

/// How a run ended.
#[derive(Clone, Copy, PartialEq, Eq)]
pub enum Status {
    /// The answer was written.
    Answered,
    /// The book has a fault, and its line was written.
    Refused,
    /// Memory ran out, and nothing was written.
    Memory,
    /// The reader failed, and nothing was written.
    ReadFailed,
    /// The writer failed, and the first bytes of the text were written, none or perhaps all.
    WriteFailed,
}

impl Status {
    /// The program's exit status.
    pub fn exit_code(self) -> ExitCode
        ensures { exit_status result ≡ exit_number self }
    {
        match self {
            Status::Answered => ExitCode::SUCCESS,
            Status::Refused => ExitCode::from(1),
            Status::Memory => ExitCode::from(3),
            Status::ReadFailed | Status::WriteFailed => ExitCode::from(4),
        }
    }

    /// What standard error is told, if anything.
    pub fn message(self) -> Option<&'static str>
        ensures { option_map (λ text. text.now) result ≡ message_text self }
    {
        match self {
            Status::Answered | Status::Refused => None,
            Status::Memory => Some("error: memory"),
            Status::ReadFailed => Some("error: read"),
            Status::WriteFailed => Some("error: write"),
        }
    }
}
