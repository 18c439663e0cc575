//! The book that a command is of, or the line of its first fault.

ghost use Rattle.std.specs.Prelude.{◌≡◌, ◌≢◌, false, IfErr, IfOk, List};
ghost use Rattle.roster_book.specs.Reading.{IsBookOf, TellsFirst};
ghost use Rattle.roster_model.specs.Answer.{IsRefusal, records_of};
ghost use Rattle.roster_model.specs.Record.{Check, Record};
ghost use Rattle.roster_watched.specs.Watch.{has_failed};
ghost use Rattle.roster_desk_answers.specs.Ending.{Ends, Nothing};

use roster_book::{Book, BookFault, Command, read_book};
use roster_desk_given::Status;
use roster_report::{TextFault, write_fault};
use roster_watched::Watched;
use std::alloc::Global;
use std::io::Write;

/// The book that is read from the bytes, or its fault.
pub(crate) fn read(alloc: Global, bytes: &[u8]) -> Result<Book, BookFault>
    ensures book { IfOk result (IsBookOf Check (records_of bytes.now)) }
    ensures fault { IfErr result (TellsFirst Check (records_of bytes.now)) }
{
    let mut reader = Watched::new(bytes);
    read_book(alloc, &mut reader, Command::Check)
}

/// Writes the line of the fault of a book. Bytes in memory are no device that fails.
pub(crate) fn refuse<W: Write>(alloc: Global, fault: BookFault, writer: &mut Watched<W>) -> Status
    requires { has_failed writer.old ≡ false }
    ensures ended { (records : List Record) → TellsFirst Check records fault
        → Ends W.contents Nothing (IsRefusal Check records) writer.old writer.new result }
    ensures unanswered { result ≢ Status.Answered }
{
    let BookFault::At { row, code } = fault else {
        return Status::Memory;
    };
    match write_fault(alloc, row, code, writer) {
        Ok(()) => Status::Refused,
        Err(TextFault::Memory) => Status::Memory,
        Err(TextFault::Device) => Status::WriteFailed,
    }
}
