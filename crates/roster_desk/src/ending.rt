//! How a run ends: what standard error is told, and the exit status.

use crate::inputs::InputFault;
use roster_desk_answers::Untold;
use roster_desk_given::Unknown;
use roster_desk_program::STANDARD_INPUT;
use roster_desk_run::Status;
use std::process::ExitCode;
use std::str;

/// The exit status of a command line that is refused.
pub(crate) const LINE_REFUSED: u8 = 2;

/// Tells what a run's status says, and gives the exit status.
pub(crate) fn ended(rt: &HostRuntime, status: Status) -> ExitCode {
    if let Some(text) = status.message() {
        let _ = eprintln!(rt; "{text}");
    }
    status.exit_code()
}

/// Tells that more than one path is standard input.
pub(crate) fn inputs_shared(rt: &HostRuntime) -> ExitCode {
    let _ = eprintln!(rt; "error: only one of the paths may be -");
    ExitCode::from(LINE_REFUSED)
}

/// Tells why an input wasn't read.
pub(crate) fn unread_input(rt: &HostRuntime, fault: InputFault<'_>) -> ExitCode {
    match fault {
        InputFault::Unopened(path) => unopened(rt, path),
        InputFault::TooLong(path) => {
            let _ = eprintln!(rt; "error: {path} is too long for a report");
            Status::Refused.exit_code()
        }
        InputFault::Unread(path) => unreadable(rt, path),
        InputFault::Memory => ended(rt, Status::Memory),
    }
}

/// Tells that the file at the path can't be opened.
pub(crate) fn unopened(rt: &HostRuntime, path: &str) -> ExitCode {
    let _ = eprintln!(rt; "error: {path} can't be opened");
    Status::ReadFailed.exit_code()
}

/// Tells that the file at the path, or standard input, can't be read.
pub(crate) fn unreadable(rt: &HostRuntime, path: &str) -> ExitCode {
    if path == STANDARD_INPUT {
        return ended(rt, Status::ReadFailed);
    }
    let _ = eprintln!(rt; "error: {path} can't be read");
    Status::ReadFailed.exit_code()
}

/// Tells why nothing was told.
pub(crate) fn untold_ended(rt: &HostRuntime, untold: &Untold<'_>) -> ExitCode {
    match untold {
        Untold::Unknown(Unknown::Pairing) => {
            let _ = eprintln!(rt; "error: the book has no such pairing");
            ExitCode::from(LINE_REFUSED)
        }
        Untold::Unknown(Unknown::Person) => {
            let _ = eprintln!(rt; "error: the book has no such person");
            ExitCode::from(LINE_REFUSED)
        }
        Untold::Report { path, fault } => {
            let _ = eprintln!(rt; "error: {path}, {fault}");
            Status::Refused.exit_code()
        }
        Untold::Words(wanted) => {
            let _ = eprintln!(rt; "error: {wanted}");
            ExitCode::from(LINE_REFUSED)
        }
        Untold::Faulty(faults) => {
            let _ = eprintln!(rt;
                "error: the book that is made would have a fault, as roster-desk fault tells it:"
            );
            tell_text(rt, faults.as_slice());
            Status::Refused.exit_code()
        }
        Untold::Unlike => {
            let _ = eprintln!(rt;
                "error: the book that is made wouldn't ask for what is meant, so none is written"
            );
            Status::Refused.exit_code()
        }
        Untold::Names(mistakes) => {
            tell_text(rt, mistakes.as_slice());
            Status::Refused.exit_code()
        }
        Untold::Memory => ended(rt, Status::Memory),
    }
}

/// Tells standard error a text.
pub(crate) fn tell_text(rt: &HostRuntime, text: &[u8]) {
    if let Ok(text) = str::from_utf8(text) {
        let _ = eprint!(rt; "{text}");
    }
}
