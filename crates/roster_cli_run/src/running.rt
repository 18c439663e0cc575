//! A run: a book is read, and its one answer written.

ghost use Rattle.std.specs.Prelude.{◌≡◌, ◌≢◌, ◌↔◌, ◌<◌, ◌≤◌, ℕ, All, IfErr, IfOk, [], length, true, false};
ghost use Rattle.std.specs.Arc.{arc_value};
ghost use Rattle.roster_model.specs.Answer.{IsAnswer, IsRefusal, IsReport};
ghost use Rattle.roster_model.specs.Lines.{IsCrowded};
ghost use Rattle.roster_model.specs.Record.{Solve};
ghost use Rattle.roster_book.specs.Reading.{OfTold};
ghost use Rattle.roster_values.specs.View.{command_of};
ghost use Rattle.roster_watched.specs.Watch.{inner_of, has_failed, is_flushed};
ghost use Rattle.roster_combine_workers.specs.Parts.{IsBestKey};
ghost use Rattle.roster_combine.specs.SolveFaults.{IsSolveFaultOf};
ghost use Rattle.roster_report.specs.Writing.{Writes, WritesPart};
ghost use Rattle.roster_cli_run.specs.Run.{IsFaultLine, IsProblemAnswer, IsProblemRefusal, IsProblemReport};
ghost use Rattle.roster_cli_run.specs.Run.{status_of};

use crate::status::Status;
use roster_book::{Book, BookFault, Code, Command, Problem, Watched, read_book};
use roster_combine::{Gate, SolveFault, Solved, replay, solve};
use roster_report::{TextFault, write_check, write_fault, write_report};
use std::alloc::Global;
use std::io::{Read, Write};
use std::sync::Wait;
use std::thread::Threads;

/// Reads a book to its end or to its first fault, does what the command asks, and writes the one
/// answer. The status tells if that could not be done.
///
/// So many workers search for the best roster, each in a thread of its own, and pass the gate. What is
/// written is said without them: whatever their number, whichever parts of the search each takes, and
/// whenever it sees a better roster of another, it is what one thread writes. It may wait for threads and
/// locks.
pub fn run<T: Threads + Wait + Sync, R: Read, W: Write, G: Gate + Sync>(
    rt: &T,
    alloc: Global,
    command: Command,
    workers: usize,
    reader: &mut Watched<R>,
    writer: &mut Watched<W>,
    gate: &G,
) -> Status
    requires workers { 0 < workers }
    requires reader_open { has_failed reader.old ≡ false }
    requires writer_open { has_failed writer.old ≡ false }

    // What the command reports of the book in the bytes that the reader told, or, if its bytes
    // aren't known, of some book.
    ensures answered { result ≡ Status.Answered → OfTold (λ records.
        Writes (IsReport (command_of command) records)
        (W.contents (inner_of writer.old)) (W.contents (inner_of writer.new)))
        (R.remaining (inner_of reader.old)) }
    // The line of the first fault in those bytes.
    ensures refused { result ≡ Status.Refused → OfTold (λ records.
        Writes (IsRefusal (command_of command) records)
        (W.contents (inner_of writer.old)) (W.contents (inner_of writer.new)))
        (R.remaining (inner_of reader.old)) }
    // The first bytes of one of them.
    ensures part { result ≡ Status.WriteFailed → OfTold (λ records.
        WritesPart (IsAnswer (command_of command) records)
        (W.contents (inner_of writer.old)) (W.contents (inner_of writer.new)))
        (R.remaining (inner_of reader.old)) }

    // Nothing is kept back.
    ensures flushed { (result ≡ Status.Answered → is_flushed writer.new ≡ true)
        × (result ≡ Status.Refused → is_flushed writer.new ≡ true) }

    // A device's failure is told if it happened, and only then.
    ensures read_failed { (result ≡ Status.ReadFailed) ↔ (has_failed reader.new ≡ true) }
    ensures write_failed { (result ≡ Status.WriteFailed) ↔ (has_failed writer.new ≡ true) }

    // Nothing was written.
    ensures memory { result ≡ Status.Memory → writer.new ≡ writer.old }
    ensures unread_unwritten { result ≡ Status.ReadFailed → writer.new ≡ writer.old }
{
    match read_book(alloc, reader, command) {
        Ok(book) => answer(rt, alloc, command, workers, &book, writer, gate),
        Err(BookFault::At { row, code }) => refuse(alloc, row, code, writer),
        Err(BookFault::Device) => Status::ReadFailed,
        Err(BookFault::Memory) => Status::Memory,
    }
}

/// Writes the line of a fault.
fn refuse<W: Write>(alloc: Global, row: usize, code: u8, writer: &mut Watched<W>) -> Status
    requires { has_failed writer.old ≡ false }
    ensures refused { result ≡ Status.Refused → Writes (IsFaultLine row code)
        (W.contents (inner_of writer.old)) (W.contents (inner_of writer.new)) }
    ensures part { result ≡ Status.WriteFailed → WritesPart (IsFaultLine row code)
        (W.contents (inner_of writer.old)) (W.contents (inner_of writer.new)) }
    ensures write_failed { (result ≡ Status.WriteFailed) ↔ (has_failed writer.new ≡ true) }
    ensures flushed { result ≡ Status.Refused → is_flushed writer.new ≡ true }
    ensures memory { result ≡ Status.Memory → writer.new ≡ writer.old }
    ensures others { (result ≢ Status.Answered) × (result ≢ Status.ReadFailed) }
{
    match write_fault(alloc, row, code, writer) {
        Ok(()) => Status::Refused,
        Err(TextFault::Memory) => Status::Memory,
        Err(TextFault::Device) => Status::WriteFailed,
    }
}

/// Writes what the command answers to a book in which no record has a fault.
fn answer<T: Threads + Wait + Sync, W: Write, G: Gate + Sync>(
    rt: &T,
    alloc: Global,
    command: Command,
    workers: usize,
    book: &Book,
    writer: &mut Watched<W>,
    gate: &G,
) -> Status
    requires workers { 0 < workers }
    requires open { has_failed writer.old ≡ false }
    requires covers { length book.now.assigned ≡ length book.now.problem.pairings }
    requires numbers { All (λ x. x ≤ length book.now.problem.persons) book.now.assigned }
    ensures answered { result ≡ Status.Answered
        → Writes (IsProblemReport (command_of command) book.now.problem book.now.assigned)
        (W.contents (inner_of writer.old)) (W.contents (inner_of writer.new)) }
    ensures refused { result ≡ Status.Refused
        → Writes (IsProblemRefusal (command_of command) book.now.problem)
        (W.contents (inner_of writer.old)) (W.contents (inner_of writer.new)) }
    ensures part { result ≡ Status.WriteFailed
        → WritesPart (IsProblemAnswer (command_of command) book.now.problem book.now.assigned)
        (W.contents (inner_of writer.old)) (W.contents (inner_of writer.new)) }
    ensures write_failed { (result ≡ Status.WriteFailed) ↔ (has_failed writer.new ≡ true) }
    ensures flushed { (result ≡ Status.Answered → is_flushed writer.new ≡ true)
        × (result ≡ Status.Refused → is_flushed writer.new ≡ true) }
    ensures memory { result ≡ Status.Memory → writer.new ≡ writer.old }
    ensures others { result ≢ Status.ReadFailed }
{
    match command {
        Command::Solve => {
            let solved = solve(rt, alloc, &book.problem, workers, gate);
            answer_best(alloc, &book.problem, solved, writer)
        }
        Command::Replay => {
            let solved = replay(alloc, &book.problem, book.steps.as_slice());
            answer_best(alloc, &book.problem, solved, writer)
        }
        Command::Check => told(write_check(alloc, &book.problem, book.assigned.as_slice(), writer)),
    }
}

/// Writes the report of the problem's best roster that was found, or the fault of the first person who has
/// more lines than there may be.
fn answer_best<W: Write>(
    alloc: Global,
    problem: &Problem,
    solved: Result<Solved, SolveFault>,
    writer: &mut Watched<W>,
) -> Status
    requires open { has_failed writer.old ≡ false }
    requires best { IfOk solved (λ solved. IsBestKey problem.now (arc_value solved.roster)) }
    requires few { IfOk solved (λ _. (k : ℕ)
        → k < length problem.now.persons → ¬ IsCrowded problem.now k) }
    requires fault { IfErr solved (IsSolveFaultOf problem.now) }
    ensures answered { result ≡ Status.Answered → Writes (IsProblemReport Solve problem.now [])
        (W.contents (inner_of writer.old)) (W.contents (inner_of writer.new)) }
    ensures refused { result ≡ Status.Refused → Writes (IsProblemRefusal Solve problem.now)
        (W.contents (inner_of writer.old)) (W.contents (inner_of writer.new)) }
    ensures part { result ≡ Status.WriteFailed → WritesPart (IsProblemAnswer Solve problem.now [])
        (W.contents (inner_of writer.old)) (W.contents (inner_of writer.new)) }
    ensures write_failed { (result ≡ Status.WriteFailed) ↔ (has_failed writer.new ≡ true) }
    ensures flushed { (result ≡ Status.Answered → is_flushed writer.new ≡ true)
        × (result ≡ Status.Refused → is_flushed writer.new ≡ true) }
    ensures memory { result ≡ Status.Memory → writer.new ≡ writer.old }
    ensures others { result ≢ Status.ReadFailed }
{
    match solved {
        Ok(solved) => told(write_report(alloc, problem, &solved.roster, writer)),
        Err(SolveFault::TooMany(k)) => {
            refuse(
                alloc,
                problem.person(k).row,
                Code::TooManyLines.number(),
                writer,
            )
        }
        Err(SolveFault::Memory) => Status::Memory,
    }
}

/// How a run ends that wrote a report.
fn told(written: Result<(), TextFault>) -> Status
    ensures { result ≡ status_of written }
{
    match written {
        Ok(()) => Status::Answered,
        Err(TextFault::Memory) => Status::Memory,
        Err(TextFault::Device) => Status::WriteFailed,
    }
}
