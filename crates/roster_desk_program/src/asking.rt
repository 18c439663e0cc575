//! What the words of a command line ask for, and what is told if they ask for nothing.

ghost use Rattle.std.specs.Prelude.{◌≡◌, ◌≢◌, [], IfErr, IfOk, OnOk, Some, codes, map, string_bytes};
ghost use Rattle.std.specs.IoError.{error_kind};
ghost use Rattle.std.specs.Process.{exit_status};
ghost use Rattle.std.specs.declared.io.ErrorKind.TheVariants.{OutOfMemory};
ghost use Rattle.clap.specs.Words.{fault_of, kind_of};
ghost use Rattle.roster_report.specs.Writing.{TellsLine};
ghost use Rattle.roster_desk_arguments.specs.Commands.{desk_app};
ghost use Rattle.roster_desk_arguments.specs.Line.{Asks};
ghost use Rattle.roster_desk_program.specs.Asking.{EndsByKind, kind_number, no_text};
ghost use Rattle.roster_desk_program.specs.Program.{TellsEnding};

use crate::ending::{Ending, LINE_REFUSED};
use crate::telling::tell;
use roster_desk_arguments::{Line, LineFault, read_line};
use roster_report::tell_line;
use roster_watched::Watched;
use std::alloc::Global;
use std::io;
use std::io::Write;
use std::process::ExitCode;

/// What the words ask for, of which the first is the program's name. If they ask for nothing it is the exit
/// status: `writer` was told the help or the version that they call for, or `errors` why they are refused.
pub fn asked<'a, W: Write, E: Write>(
    alloc: Global,
    words: &'a [String],
    writer: &mut Watched<W>,
    errors: &mut Watched<E>,
) -> Result<Line<'a>, ExitCode>
    ensures asked { IfOk result (Asks (map string_bytes words.entry.now)) }
    ensures faultless { IfOk result (λ _. fault_of desk_app (map string_bytes words.entry.now) ≡ []) }
    ensures untold { OnOk result ((writer.new ≡ writer.old) × (errors.new ≡ errors.old)) }
    // 0 for help and the version, 2 for what clap refuses, each for one of its own reasons. Memory may run
    // out first.
    ensures kind { fault_of desk_app (map string_bytes words.entry.now) ≢ []
        → IfErr result (λ code.
        EndsByKind (fault_of desk_app (map string_bytes words.entry.now)) (exit_status code)) }
    // If it takes the words, only want of memory can come.
    ensures taken { fault_of desk_app (map string_bytes words.entry.now) ≡ []
        → IfErr result (λ code. exit_status code ≡ 3) }
    // Only one of them is told.
    ensures helped { IfErr result (λ code. exit_status code ≡ 0 → errors.new ≡ errors.old) }
    ensures refused { IfErr result (λ code. exit_status code ≢ 0 → writer.new ≡ writer.old) }
    ensures memory { IfErr result (λ code. exit_status code ≡ 3
        → TellsEnding E.contents Ending.Memory errors.old errors.new) }
{
    match read_line(alloc, words) {
        Ok(line) => Ok(line),
        Err(LineFault::Refused(error)) => Err(told(&error, writer, errors)),
        Err(LineFault::Memory) => Err(out_of_memory(errors)),
    }
}

/// Tells help or the version to `writer`, or to `errors` why words are refused.
fn told<W: Write, E: Write>(
    error: &clap::Error,
    writer: &mut Watched<W>,
    errors: &mut Watched<E>,
) -> ExitCode
    ensures number { exit_status result ≡ kind_number (kind_of error.now) }
    ensures helped { exit_status result ≡ 0 → errors.new ≡ errors.old }
    ensures refused { exit_status result ≢ 0 → writer.new ≡ writer.old }
{
    if error.use_stderr() {
        let _ = write!(errors, "{error}");
        return ExitCode::from(LINE_REFUSED);
    }
    let _ = write!(writer, "{error}");
    let _ = writer.flush();
    ExitCode::SUCCESS
}

/// Tells that memory ran out, and gives the exit status.
fn out_of_memory<E: Write>(errors: &mut Watched<E>) -> ExitCode
    ensures number { exit_status result ≡ 3 }
    ensures told { TellsEnding E.contents Ending.Memory errors.old errors.new }
{
    tell(Ending::Memory, errors);
    Ending::Memory.exit_code()
}

/// Tells that a word of the command line is no text, or that memory ran out on the way. It gives the exit
/// status.
pub fn unread_words<E: Write>(error: &io::Error, errors: &mut Watched<E>) -> ExitCode
    ensures memory { error_kind error.now ≡ OutOfMemory → (exit_status result ≡ 3)
        × TellsEnding E.contents Ending.Memory errors.old errors.new }
    ensures no_text { error_kind error.now ≢ OutOfMemory → (exit_status result ≡ 2)
        × TellsLine E.contents (Some no_text) errors.old errors.new }
{
    if error.kind() == io::ErrorKind::OutOfMemory {
        return out_of_memory(errors);
    }
    tell_line("error: a word of the command line is not UTF-8", errors);
    ExitCode::from(LINE_REFUSED)
}
