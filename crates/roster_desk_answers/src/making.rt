//! The book of the tables of a folder, and what standard error is told of it.

ghost use Rattle.std.specs.Prelude.{◌≡◌, [], IfErr, IfOk, IfSome, None, OnErr, OnOk, Some, true};
ghost use Rattle.roster_desk_answers.specs.Made.{HasRoster, IsBook, IsMade, IsBookUnmade, StartsWith};
ghost use Rattle.roster_desk_answers.specs.Pages.{IsFaultless};
ghost use Rattle.roster_desk_answers.specs.Told.{IsRosterOf};

use crate::reading::read;
use crate::reports::push_unknown;
use crate::telling::Noted;
use crate::untold::{Untold, refused};
use crate::writing::write;
use roster_book::BookFault;
use roster_desk_arguments::BookLine;
use roster_desk_book::{Answer, Asked, make_book};
use roster_desk_fault::{Judged, judge};
use roster_desk_folder::Files;
use roster_desk_given::Status;
use roster_desk_reports::read_known_roster;
use roster_desk_sheets::Records;
use roster_problem::Problem;
use roster_values::Places;
use roster_watched::Watched;
use std::alloc::{AllocError, Global};
use std::io::Write;

/// What is said of a month that is none.
const NO_MONTH: &str = "--month wants a month of the years 1971 to 9997, as 2024-06";

/// Puts the `assign` records that give a book the roster behind the others.
fn push_roster(records: &mut Records, problem: &Problem, places: &[u16]) -> Result<(), AllocError> {
    for (pairing, place) in problem.pairings().iter().zip(places.iter()) {
        if let Some(person) = problem.persons().get(usize::from(*place)) {
            records.push(&[b"assign", pairing.id.as_bytes(), person.id.as_bytes()])?;
        }
    }
    Ok(())
}

/// The roster of the report at the path, which gives the book one. Persons and pairings that the book doesn't
/// have are told.
fn start_of<'a>(
    alloc: Global,
    problem: &Problem,
    path: &'a str,
    report: &[u8],
    notes: &mut Vec<u8>,
) -> Result<Places, Untold<'a>>
    ensures roster { IfOk result (IsRosterOf true problem.now report.now) }
    ensures refused { IfErr result (IsBookUnmade (Some path.entry)) }
{
    match read_known_roster(alloc, problem, report) {
        Ok(places) => {
            push_unknown(alloc, notes, problem, report)?;
            Ok(places)
        }
        Err(fault) => Err(refused(path, fault)),
    }
}

/// Puts the `assign` records that give the book the roster of the report at the path behind the others.
fn push_assigns<'a>(
    alloc: Global,
    records: &mut Records,
    path: &'a str,
    book: &[u8],
    report: &[u8],
    notes: &mut Vec<u8>,
) -> Result<(), Untold<'a>>
    ensures start { OnOk result (HasRoster book.now report.now) }
    ensures unmade { IfErr result (IsBookUnmade (Some path.entry)) }
{
    let problem = match read(alloc, book) {
        Ok(book) => book.problem,
        Err(BookFault::Memory) => return Err(Untold::Memory),
        Err(_) => return Err(Untold::Unlike),
    };
    let places = start_of(alloc, &problem, path, report, notes)?;
    push_roster(records, &problem, places.as_slice())?;
    Ok(())
}

/// The records that the line adds to the book.
fn added<'a>(
    alloc: Global,
    line: &BookLine<'a>,
    book: &[u8],
    report: &[u8],
    notes: &mut Vec<u8>,
) -> Result<Vec<u8>, Untold<'a>>
    ensures start { OnOk result (StartsWith line.now.start book.now report.now) }
    ensures unmade { IfErr result (IsBookUnmade line.now.start) }
{
    let mut records = Records::new(alloc);
    if let Some(weight) = line.weight {
        let weight = weight.to_string(alloc)?;
        records.push(&[b"weight", weight.as_bytes()])?;
    }
    if let Some(path) = line.start {
        push_assigns(alloc, &mut records, path, book, report, notes)?;
    }
    Ok(records.finish()?)
}

/// The text, if no record of it has a fault.
fn faultless<'a>(alloc: Global, text: Vec<u8>) -> Result<Vec<u8>, Untold<'a>>
    ensures good { IfOk result (λ text. IsFaultless text.items) }
    ensures same { IfOk result (λ same. same ≡ text) }
    ensures unlike { IfErr result (IsBookUnmade None) }
{
    match judge(alloc, text.as_slice(), 1)? {
        Judged::Good => Ok(text),
        Judged::Faulty(_) => Err(Untold::Unlike),
    }
}

/// The book of the line, in which no record has a fault; none if something is wrong with the tables, and then
/// the notes tell it.
fn made<'a>(
    alloc: Global,
    line: &BookLine<'a>,
    files: &Files,
    report: &[u8],
    notes: &mut Vec<u8>,
) -> Result<Option<Vec<u8>>, Untold<'a>>
    ensures book { IfOk result (λ book. IfSome book (λ text. IsBook line.now report.now text.items)) }
    ensures unmade { IfErr result (IsBookUnmade line.now.start) }
{
    let Some(asked) = Asked::new(line.month, line.bases.as_slice(), line.rank) else {
        return Err(Untold::Words(NO_MONTH));
    };
    let Answer {
        book,
        mistakes,
        passed_over,
    } = make_book(alloc, &asked, files)?;
    notes.extend_from_slice(passed_over.as_slice())?;
    let Some(book) = book else {
        let told = mistakes.text(alloc, line.folder)?;
        notes.extend_from_slice(told.as_slice())?;
        return Ok(None);
    };
    let added = added(alloc, line, book.as_slice(), report, notes)?;
    let mut text = book;
    text.extend_from_slice(added.as_slice())?;
    Ok(Some(faultless(alloc, text)?))
}

/// Writes the book of the line, from the files of its folder, with the roster of the report if the line names
/// one. Nothing is written if something is wrong with the tables.
pub fn write_book<'a, W: Write>(
    alloc: Global,
    line: &BookLine<'a>,
    files: &Files,
    report: &[u8],
    writer: &mut Watched<W>,
) -> Result<Noted, Untold<'a>>
    ensures made { IfOk result (λ noted. IsMade W.contents line.now report.now
        writer.old writer.new noted.status) }
    // The line or the report is refused, or the book wouldn't ask for what is meant: nothing was written.
    ensures unmade { IfErr result (IsBookUnmade line.now.start) }
    ensures unwritten { OnErr result (writer.new ≡ writer.old) }
{
    let mut notes = Vec::new(alloc);
    let status = match made(alloc, line, files, report, &mut notes)? {
        Some(book) => write(book.as_slice(), writer),
        None => Status::Refused,
    };
    Ok(Noted { status, notes })
}
