//! What is told of a roster of a book.

ghost use Rattle.std.specs.Prelude.{◌≡◌, false, IfErr, IfOk, length, OnErr};
ghost use Rattle.roster_model.specs.Answer.{IsRefusal, records_of};
ghost use Rattle.roster_model.specs.Record.{Check};
ghost use Rattle.roster_watched.specs.Watch.{has_failed};
ghost use Rattle.roster_desk_answers.specs.Ending.{Ends, Nothing};
ghost use Rattle.roster_desk_answers.specs.Told.{AreNotes, IsAnswer, IsTold, IsUnanswered, IsUntold};
ghost use Rattle.roster_desk_answers.specs.Told.{notes_of, passes_over};

use crate::reading::{read, refuse};
use crate::reports::push_unknown;
use crate::texts::text;
use crate::untold::Untold;
use crate::writing::write;
use roster_book::Book;
use roster_desk_arguments::Question;
use roster_desk_given::Status;
use roster_problem::Problem;
use roster_watched::Watched;
use std::alloc::{AllocError, Global};
use std::io::Write;

/// A file that was read.
#[derive(Drop)]
pub struct FileRead<'a> {
    /// Its path, or `-`.
    pub path: &'a str,
    /// What it holds.
    pub bytes: Vec<u8>,
}

/// A book and the files beside it, as their bytes.
#[derive(Drop)]
pub struct Inputs<'a> {
    /// The book.
    pub book: Vec<u8>,
    /// The report that gives the roster; none if the book gives it.
    pub report: Option<FileRead<'a>>,
    /// The report that gives the other roster; empty if there is none.
    pub other: Vec<u8>,
    /// The table that tells what persons are called, if there is one.
    pub names: Option<FileRead<'a>>,
}

/// What has come of it, and what standard error is told.
#[derive(Drop)]
pub struct Noted {
    /// How it ended.
    pub status: Status,
    /// What is told.
    pub notes: Vec<u8>,
}

/// Writes what is asked of the book among the inputs, or the line of the book's first fault.
pub fn tell<'a, W: Write>(
    alloc: Global,
    question: Question<'a>,
    inputs: &Inputs<'a>,
    writer: &mut Watched<W>,
) -> Result<Noted, Untold<'a>>
    requires { has_failed writer.old ≡ false }
    // What the question asks of the roster, or the line of the first fault, as a check tells it.
    ensures ended { IfOk result (λ noted. Ends W.contents (IsAnswer question.entry inputs.now)
        (IsRefusal Check (records_of inputs.now.book.items)) writer.old writer.new noted.status) }
    ensures notes { IfOk result (λ noted. AreNotes question.entry inputs.now noted.status noted.notes.items) }
    // A name, a report or the table of names is refused for what is wrong with it, memory aside, and then
    // nothing was written.
    ensures untold { IfErr result (IsUnanswered question.entry inputs.now) }
    ensures unwritten { OnErr result (writer.new ≡ writer.old) }
{
    match read(alloc, &inputs.book) {
        Ok(book) => answer(alloc, question, inputs, &book, writer),
        Err(fault) => Ok(Noted {
            status: refuse(alloc, fault, writer),
            notes: Vec::new(alloc),
        }),
    }
}

/// Writes what is asked of the book, in which no record has a fault.
fn answer<'a, W: Write>(
    alloc: Global,
    question: Question<'a>,
    inputs: &Inputs<'a>,
    book: &Book,
    writer: &mut Watched<W>,
) -> Result<Noted, Untold<'a>>
    requires covers { length book.now.assigned ≡ length book.now.problem.pairings }
    ensures ended { IfOk result (λ noted. Ends W.contents
        (IsTold question.entry inputs.now book.now.problem book.now.assigned) Nothing
        writer.old writer.new noted.status) }
    ensures notes { IfOk result (λ noted. noted.notes.items
        ≡ notes_of question.entry inputs.now book.now.problem) }
    ensures untold { IfErr result (IsUntold question.entry inputs.now book.now.problem) }
    ensures unwritten { OnErr result (writer.new ≡ writer.old) }
{
    let text = text(alloc, question, inputs, book)?;
    let notes = notes(alloc, question, inputs, &book.problem)?;
    let status = write(text.as_slice(), writer);
    Ok(Noted { status, notes })
}

/// Whether it is asked what differs between two rosters.
pub(crate) fn is_difference(question: Question<'_>) -> bool
    ensures { result ≡ passes_over question.entry }
{
    match question {
        Question::Differences { .. } | Question::Changed { .. } => true,
        Question::Why { .. }
        | Question::Limits { .. }
        | Question::Table(_)
        | Question::Chart { .. } => false,
    }
}

/// What the reports of a difference have and the book doesn't.
fn notes<'a>(
    alloc: Global,
    question: Question<'a>,
    inputs: &Inputs<'a>,
    book: &Problem,
) -> Result<Vec<u8>, AllocError>
    ensures { IfOk result (λ notes. notes.items ≡ notes_of question.entry inputs.now book.now) }
{
    let mut notes = Vec::new(alloc);
    if is_difference(question) {
        if let Some(report) = &inputs.report {
            push_unknown(alloc, &mut notes, book, report.bytes.as_slice())?;
        }
        push_unknown(alloc, &mut notes, book, inputs.other.as_slice())?;
    }
    Ok(notes)
}
