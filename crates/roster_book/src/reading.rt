//! A book, read record by record until its end or its first fault.

ghost use Rattle.std.specs.Prelude.{◌≡◌, ◌≢◌, ◌↔◌, [], ◌∷◌, true, false, IfSome, IfOk, IfErr, IsErrOf};
ghost use Rattle.std.specs.Prelude.{MatchResult};
ghost use Rattle.csv.specs.Records.{fields_of};
ghost use Rattle.roster_book.specs.Reading.{AreSeen, IsBookOf, IsOpen, OfKnown, OfTold, TellsFirst};
ghost use Rattle.roster_book.specs.Reading.{records_left};
ghost use Rattle.roster_values.specs.View.{command_of};
ghost use Rattle.roster_watched.specs.Watch.{inner_of, has_failed};

use crate::book::Book;
use crate::code::Code;
use crate::draft::Draft;
use crate::fault::BookFault;
use crate::refusal::Refusal;
use csv::{ByteRecord, Reader, ReaderBuilder};
use roster_model::limits::MOST_RECORDS;
use roster_values::Command;
use roster_watched::Watched;
use std::alloc::{AllocError, Global};
use std::io::Read;

/// Reads a book to its end, or to its first fault.
///
/// `Device` is answered if the reader has failed, whatever was read until then.
pub fn read_book<R: Read>(
    alloc: Global,
    reader: &mut Watched<R>,
    command: Command,
) -> Result<Book, BookFault>
    ensures book { IfOk result (λ book. OfTold (λ records.
        IsBookOf (command_of command) records book) (R.remaining (inner_of reader.old))) }
    ensures fault { IfErr result (λ fault. OfTold (λ records.
        TellsFirst (command_of command) records fault) (R.remaining (inner_of reader.old))) }
    ensures device { IsErrOf result BookFault.Device ↔ (has_failed reader.new ≡ true) }
{
    let outcome = read_records(alloc, reader, command);
    if reader.failed() {
        return Err(BookFault::Device);
    }
    outcome
}

/// Lends the reader to csv. `Memory` stands for a failed reader too: its flag tells.
fn read_records<R: Read>(alloc: Global, reader: &mut R, command: Command) -> Result<Book, BookFault>
    ensures told { MatchResult result
        (λ book. OfTold (λ records. IsBookOf (command_of command) records book)
        (R.remaining reader.old))
        (λ fault. OfTold (λ records. TellsFirst (command_of command) records fault)
        (R.remaining reader.old)) }
    ensures device { IfErr result (λ fault. fault ≢ BookFault.Device) }
{
    let mut reader = ReaderBuilder::new()
        .has_headers(false)
        .flexible(true)
        .from_reader(alloc, reader);
    read_all(alloc, &mut reader, command)
}

/// The book of all records, or their first fault.
fn read_all<R: Read>(
    alloc: Global,
    reader: &mut Reader<R>,
    command: Command,
) -> Result<Book, BookFault>
    requires { IsOpen reader.old }
    ensures told { MatchResult result
        (λ book. OfKnown (λ records. IsBookOf (command_of command) records book)
        (records_left R.remaining reader.old))
        (λ fault. OfKnown (λ records. TellsFirst (command_of command) records fault)
        (records_left R.remaining reader.old)) }
    ensures device { IfErr result (λ fault. fault ≢ BookFault.Device) }
{
    let mut fields = ByteRecord::new(alloc);
    if !next_record(reader, &mut fields)? {
        return Err(Refusal::Fault(Code::NoPeriod).at(1));
    }
    let mut draft = match Draft::begin(alloc, command, &fields) {
        Ok(draft) => draft,
        Err(code) => return Err(Refusal::Fault(code).at(1)),
    };
    for row in 2..MOST_RECORDS + 2 {
        if !next_record(reader, &mut fields)? {
            return draft.finish(alloc);
        }
        match draft.take(alloc, command, row, &fields) {
            Ok(()) => {}
            Err(refusal) => return Err(refusal.at(row)),
        }
    }
    // No book without a fault has more records.
    unreachable!()
}

/// The next record into `fields`, and whether there was one. Only the reader or memory can fail.
fn next_record<R: Read>(reader: &mut Reader<R>, fields: &mut ByteRecord) -> Result<bool, AllocError>
    requires { IsOpen reader.old }
    ensures record { IfOk result (λ found. found ≡ true → IsOpen reader.new
        × AreSeen (records_left R.remaining reader.old) (fields_of fields.new ∷ [])
        (records_left R.remaining reader.new)) }
    ensures end { IfOk result (λ found. found ≡ false
        → IfSome (records_left R.remaining reader.old) (λ left. left ≡ [])) }
{
    match reader.read_byte_record(fields) {
        Ok(found) => Ok(found),
        Err(_) => Err(AllocError),
    }
}
