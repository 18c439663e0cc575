//! What is answered to a book: its first fault, or its best roster of all, or what a check says of its own.

ghost use Rattle.std.specs.Prelude.{◌≡◌, ◌≤◌, ℕ, List, [], All, IfErr, IfOk, length};
ghost use Rattle.roster_model.specs.Answer.{IsAnswer, records_of};
ghost use Rattle.roster_model.specs.Costs.{cost_of};
ghost use Rattle.roster_model.specs.Record.{Solve};
ghost use Rattle.roster_model.specs.Texts.{IsCheckOf, IsReportOf, fault_text};
ghost use Rattle.roster_values.specs.View.{command_of};
ghost use Rattle.roster_book.specs.Reading.{IsBookOf, TellsFirst};
ghost use Rattle.roster_cli_run.specs.Run.{IsProblemAnswer};

use roster_book::{Book, BookFault, Code, read_book};
use roster_cli_run::one_answer;
use roster_lines::{TableFault, table_of};
use roster_lines_table::nobody_is_crowded;
use roster_problem::Problem;
use roster_report::{TextFault, write_check, write_fault, write_report};
use roster_test_reference::solve_by_lines;
use roster_values::{Command, Roster};
use roster_watched::Watched;
use std::alloc::Global;

/// The text that answers the book in the bytes, and the only one.
///
/// It tries every roster in which each person has one of their legal sets, so it serves only small books.
pub fn answer(alloc: Global, command: Command, bytes: &[u8]) -> Result<Vec<u8>, TextFault>
    ensures is { IfOk result (λ text. IsAnswer (command_of command) (records_of bytes.now) text.items) }
    ensures only { IfOk result (λ text. (other : List ℕ)
        → IsAnswer (command_of command) (records_of bytes.now) other → other ≡ text.items) }
{
    one_answer();
    let text = some_answer(alloc, command, bytes)?;
    Ok(text)
}

/// A text that answers the book in the bytes.
fn some_answer(alloc: Global, command: Command, bytes: &[u8]) -> Result<Vec<u8>, TextFault>
    ensures { IfOk result (λ text. IsAnswer (command_of command) (records_of bytes.now) text.items) }
{
    match read(alloc, command, bytes) {
        Ok(book) => {
            let text = book_answer(alloc, command, &book)?;
            Ok(text)
        }
        Err(BookFault::At { row, code }) => {
            let text = fault_answer(alloc, row, code)?;
            Ok(text)
        }
        Err(BookFault::Device) => Err(TextFault::Device),
        Err(BookFault::Memory) => Err(TextFault::Memory),
    }
}

/// The book in the bytes, or its first fault.
fn read(alloc: Global, command: Command, bytes: &[u8]) -> Result<Book, BookFault>
    ensures book { IfOk result (λ book. IsBookOf (command_of command) (records_of bytes.now) book) }
    ensures fault { IfErr result (TellsFirst (command_of command) (records_of bytes.now)) }
{
    let mut reader = Watched::new(bytes);
    read_book(alloc, &mut reader, command)
}

/// The answer to a book in which no record has a fault.
fn book_answer(alloc: Global, command: Command, book: &Book) -> Result<Vec<u8>, TextFault>
    requires covers { length book.now.assigned ≡ length book.now.problem.pairings }
    requires numbers { All (λ x. x ≤ length book.now.problem.persons) book.now.assigned }
    ensures { IfOk result (λ text.
        IsProblemAnswer (command_of command) book.now.problem book.now.assigned text.items) }
{
    match command {
        Command::Solve => {
            let text = solve_answer(alloc, &book.problem)?;
            Ok(text)
        }
        Command::Replay => {
            let text = solve_answer(alloc, &book.problem)?;
            Ok(text)
        }
        Command::Check => {
            let text = check_answer(alloc, &book.problem, book.assigned.as_slice())?;
            Ok(text)
        }
    }
}

/// The report of the best roster, or the line of the first person who has too many legal sets.
fn solve_answer(alloc: Global, problem: &Problem) -> Result<Vec<u8>, TextFault>
    ensures { IfOk result (λ text. IsProblemAnswer Solve problem.now [] text.items) }
{
    nobody_is_crowded();
    match table_of(alloc, problem) {
        Ok(table) => {
            let best = solve_by_lines(alloc, problem, &table)?;
            let text = report_answer(alloc, problem, &best)?;
            Ok(text)
        }
        Err(TableFault::TooMany(k)) => {
            let person = problem.person(k);
            let text = fault_answer(alloc, person.row, Code::TooManyLines.number())?;
            Ok(text)
        }
        Err(TableFault::Memory) => Err(TextFault::Memory),
    }
}

/// The report of the roster.
fn report_answer(alloc: Global, problem: &Problem, roster: &Roster) -> Result<Vec<u8>, TextFault>
    requires covers { length roster.now.places ≡ length problem.now.pairings }
    requires cost { roster.now.cost ≡ cost_of problem.now roster.now.places }
    ensures { IfOk result (λ text. IsReportOf problem.now roster.now.places text.items) }
{
    let mut writer = Watched::new(Vec::new(alloc));
    write_report(alloc, problem, roster, &mut writer)?;
    Ok(Vec::from_slice(alloc, writer.inner().as_slice())?)
}

/// What a check says of the places.
fn check_answer(alloc: Global, problem: &Problem, places: &[u16]) -> Result<Vec<u8>, TextFault>
    requires covers { length places.now ≡ length problem.now.pairings }
    requires numbers { All (λ x. x ≤ length problem.now.persons) places.now }
    ensures { IfOk result (λ text. IsCheckOf problem.now places.now text.items) }
{
    let mut writer = Watched::new(Vec::new(alloc));
    write_check(alloc, problem, places, &mut writer)?;
    Ok(Vec::from_slice(alloc, writer.inner().as_slice())?)
}

/// The line of the fault.
fn fault_answer(alloc: Global, row: usize, code: u8) -> Result<Vec<u8>, TextFault>
    ensures { IfOk result (λ text. text.items ≡ fault_text (record { row = row; code = code })) }
{
    let mut writer = Watched::new(Vec::new(alloc));
    write_fault(alloc, row, code, &mut writer)?;
    Ok(Vec::from_slice(alloc, writer.inner().as_slice())?)
}
