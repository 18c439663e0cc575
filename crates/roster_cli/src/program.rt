//! The program over any reader and writers.

ghost use Rattle.std.specs.Prelude.{◌≡◌, ◌≢◌, ◌↔◌, ◌≤◌, ◌⊎◌, [], IfOk, IfErr, Some, not, option_map, true};
ghost use Rattle.std.specs.Prelude.{false};
ghost use Rattle.std.specs.IoError.{error_kind};
ghost use Rattle.std.specs.Process.{exit_status};
ghost use Rattle.std.specs.declared.io.ErrorKind.TheVariants.{OutOfMemory};
ghost use Rattle.clap.specs.Words.{fault_of};
ghost use Rattle.clap.specs.Words as line;
ghost use Rattle.roster_model.specs.Answer.{IsAnswer, IsRefusal, IsReport};
ghost use Rattle.roster_values.specs.declared.command.Command as asked;
ghost use Rattle.roster_watched.specs.Watch.{inner_of, has_failed, is_flushed};
ghost use Rattle.roster_report.specs.Writing.{TellsLine, Writes, WritesPart};
ghost use Rattle.roster_cli_run.specs.Run.{exit_number, message_text};
ghost use Rattle.roster_cli_arguments.specs.Line.{roster_app, command_name, spelling};
ghost use Rattle.roster_cli.specs.Program.{OfAsked, no_text, texts_of};

use roster_cli_arguments::{LineFault, read_line};
use roster_cli_run::{Status, run};
use roster_combine::Gate;
use roster_report::tell_line;
use roster_watched::Watched;
use std::alloc::Global;
use std::io;
use std::io::{Read, Write};
use std::process::ExitCode;
use std::sync::Wait;
use std::thread::Threads;

/// The exit status of a command line that is refused, a call for help or the version included.
const LINE_REFUSED: u8 = 2;

/// Does what the words of the command line ask for, and gives the exit status. `errors` is told why there
/// is no answer; if it fails, the status is the same.
///
/// The words are an error if they couldn't be had, or if one of them is no text.
pub fn program<T: Threads + Wait + Sync, R: Read, W: Write, E: Write, G: Gate + Sync>(
    rt: &T,
    alloc: Global,
    words: io::Result<Vec<String>>,
    reader: &mut Watched<R>,
    writer: &mut Watched<W>,
    errors: &mut Watched<E>,
    gate: &G,
) -> ExitCode
    requires reader_open { has_failed reader.old ≡ false }
    requires writer_open { has_failed writer.old ≡ false }
    requires errors_open { has_failed errors.old ≡ false }

    // What the command that the words ask for reports of the book in the bytes that the reader told.
    ensures answered { exit_status result ≡ 0 → OfAsked (λ command records.
        Writes (IsReport command records)
        (W.contents (inner_of writer.old)) (W.contents (inner_of writer.new)))
        words (R.remaining (inner_of reader.old)) }
    // The line of the first fault in those bytes.
    ensures refused { exit_status result ≡ 1 → OfAsked (λ command records.
        Writes (IsRefusal command records)
        (W.contents (inner_of writer.old)) (W.contents (inner_of writer.new)))
        words (R.remaining (inner_of reader.old)) }
    // The first bytes of one of them.
    ensures part { has_failed writer.new ≡ true → OfAsked (λ command records.
        WritesPart (IsAnswer command records)
        (W.contents (inner_of writer.old)) (W.contents (inner_of writer.new)))
        words (R.remaining (inner_of reader.old)) }
    // Nothing is kept back.
    ensures flushed { (exit_status result ≡ 0 → is_flushed writer.new ≡ true)
        × (exit_status result ≡ 1 → is_flushed writer.new ≡ true) }

    // Without an answer nothing was written, and for a refused command line nothing was read either.
    ensures unasked { exit_status result ≡ 2
        → (reader.new ≡ reader.old) × (writer.new ≡ writer.old) }
    ensures memory { exit_status result ≡ 3 → writer.new ≡ writer.old }
    ensures unread_unwritten { has_failed reader.new ≡ true → writer.new ≡ writer.old }

    // A device's failure is told if it happened, and only then.
    ensures failed { (exit_status result ≡ 4)
        ↔ ((has_failed reader.new ≡ true) ⊎ (has_failed writer.new ≡ true)) }
    ensures limited { exit_status result ≤ 4 }

    // What standard error is told.
    ensures silent { (exit_status result ≡ 0 → errors.new ≡ errors.old)
        × (exit_status result ≡ 1 → errors.new ≡ errors.old) }
    ensures says_memory { exit_status result ≡ 3
        → TellsLine E.contents (message_text Status.Memory) errors.old errors.new }
    ensures says_read { has_failed reader.new ≡ true
        → TellsLine E.contents (message_text Status.ReadFailed) errors.old errors.new }
    ensures says_write { has_failed writer.new ≡ true
        → TellsLine E.contents (message_text Status.WriteFailed) errors.old errors.new }

    // Words that clap refuses are refused, and words that it takes and that name a command are not.
    // Memory may run out first.
    ensures faults { IfOk words (λ words. fault_of roster_app (texts_of words) ≢ []
        → (exit_status result ≡ 2) ⊎ (exit_status result ≡ 3)) }
    ensures taken { IfOk words (λ words. (command : asked.Command)
        → line.takes roster_app (texts_of words) ≡ true
        → command_name (texts_of words) ≡ Some (spelling command)
        → exit_status result ≢ 2) }
    ensures no_words { IfErr words (λ error. error_kind error ≡ OutOfMemory
        → exit_status result ≡ 3) }
    ensures no_text { IfErr words (λ error. error_kind error ≢ OutOfMemory
        → (exit_status result ≡ 2)
        × TellsLine E.contents (Some no_text) errors.old errors.new) }
{
    let words = match words {
        Ok(words) => words,
        Err(error) => return unread(&error, errors),
    };
    match read_line(alloc, words.as_slice()) {
        Ok((command, workers)) => {
            let status = run(rt, alloc, command, workers, reader, writer, gate);
            ended(status, errors)
        }
        Err(fault) => unasked(fault, errors),
    }
}

/// A word of the command line is no text, or memory ran out on the way.
fn unread<E: Write>(error: &io::Error, errors: &mut Watched<E>) -> ExitCode
    requires { has_failed errors.old ≡ false }
    ensures either { (exit_status result ≡ 2) ⊎ (exit_status result ≡ 3) }
    ensures memory { error_kind error.now ≡ OutOfMemory → exit_status result ≡ 3 }
    ensures refused { error_kind error.now ≢ OutOfMemory → exit_status result ≡ 2 }
    ensures says { exit_status result ≡ 3
        → TellsLine E.contents (message_text Status.Memory) errors.old errors.new }
    ensures says_why { exit_status result ≡ 2
        → TellsLine E.contents (Some no_text) errors.old errors.new }
{
    if error.kind() == io::ErrorKind::OutOfMemory {
        return ended(Status::Memory, errors);
    }
    tell_line("error: a word of the command line is not UTF-8", errors);
    ExitCode::from(LINE_REFUSED)
}

/// The command line is refused, or memory ran out on the way.
fn unasked<E: Write>(fault: LineFault, errors: &mut Watched<E>) -> ExitCode
    requires { has_failed errors.old ≡ false }
    ensures either { (exit_status result ≡ 2) ⊎ (exit_status result ≡ 3) }
    ensures memory { fault ≡ LineFault.Memory → exit_status result ≡ 3 }
    ensures refused { fault ≢ LineFault.Memory → exit_status result ≡ 2 }
    ensures says { exit_status result ≡ 3
        → TellsLine E.contents (message_text Status.Memory) errors.old errors.new }
{
    match fault {
        LineFault::Memory => ended(Status::Memory, errors),
        LineFault::Refused(error) => {
            let _ = write!(errors, "{}", error);
            ExitCode::from(LINE_REFUSED)
        }
    }
}

/// Tells what a run's status says, and gives the exit status.
fn ended<E: Write>(status: Status, errors: &mut Watched<E>) -> ExitCode
    requires { has_failed errors.old ≡ false }
    ensures number { exit_status result ≡ exit_number status }
    ensures says { TellsLine E.contents (message_text status) errors.old errors.new }
{
    tell(status.message(), errors);
    status.exit_code()
}

/// Writes the text as a line, if there is one.
fn tell<E: Write>(text: Option<&str>, errors: &mut Watched<E>)
    requires { has_failed errors.old ≡ false }
    ensures { TellsLine E.contents (option_map (λ text. text.now) text.entry) errors.old errors.new }
{
    if let Some(text) = text {
        tell_line(text, errors);
    }
}
