//! The next month's book, or tables of it, and what standard error is told.

ghost use Rattle.std.specs.Prelude.{◌≡◌, false, [], IfErr, IfOk, IfSome, is_some, length, map, OnErr, Some};
ghost use Rattle.roster_desk_carry.specs.Made.{IsMade};
ghost use Rattle.roster_desk_carry.specs.Tables as tables;
ghost use Rattle.roster_desk_reports.specs.Faults.{fault_of_report};
ghost use Rattle.roster_watched.specs.Watch.{has_failed};
ghost use Rattle.roster_desk_answers.specs.Carried.{IsUncarried, Keeps, MakesNext};
ghost use Rattle.roster_desk_answers.specs.Pages.{IsForgotten, IsUnmade};
ghost use Rattle.roster_desk_answers.specs.Refusing.{RefusesReport};
ghost use Rattle.roster_desk_answers.specs.Told.{IsRosterOf};

use crate::reading::{read, refuse};
use crate::unmade::unmade;
use crate::untold::{Untold, refused};
use crate::writing::write;
use roster_desk_arguments::CarryLine;
use roster_desk_carry::{
    CarriedBook, carried_tables, carry_by_book, carry_by_ledger, read_ledger, unlike_text,
};
use roster_desk_folder::{Cells, TableFile};
use roster_desk_given::Status;
use roster_desk_reports::read_roster;
use roster_desk_sheets::{Mistakes, Table};
use roster_problem::Problem;
use roster_values::Places;
use roster_watched::Watched;
use std::alloc::{AllocError, Global};
use std::io::Write;

/// What is said if there is no ledger.
const NO_LEDGER: &[u8] =
    b"note: no --flown: ELEVEN counts all twelve months before the next one, so it may be too much\n";

/// What the files beside the book and the report hold.
#[derive(Drop)]
pub struct CarryFiles {
    /// The ledger.
    pub flown: Option<Vec<u8>>,
    /// The tables of the folder that was carried into before.
    pub old: Vec<TableFile>,
}

/// What has come of it.
#[derive(Drop)]
pub struct Carried {
    /// How it ended.
    pub status: Status,
    /// What is told.
    pub notes: Vec<u8>,
    /// The files that are to be written into the folder.
    pub files: Vec<TableFile>,
}

/// What the file of the table holds, if it was there.
fn bytes_of(files: &[TableFile], table: Table) -> Option<&[u8]> {
    for file in files {
        if file.table == table {
            return Some(file.bytes.as_slice());
        }
    }
    None
}

/// The next month's book: by the ledger if there is one. What is wrong with the ledger, and where it says
/// otherwise than the book, is told.
fn next_book<'a>(
    alloc: Global,
    line: &CarryLine<'a>,
    text: &[u8],
    book: &Problem,
    places: &[u16],
    files: &CarryFiles,
    notes: &mut Vec<u8>,
) -> Result<Option<CarriedBook>, Untold<'a>>
    requires { length places.now ≡ length book.now.pairings }
    ensures made { IfOk result (λ made. IfSome made
        (MakesNext book.now places.now (is_some files.now.flown))) }
    ensures unmade { IfErr result IsUnmade }
{
    let Some(flown) = &files.flown else {
        notes.extend_from_slice(NO_LEDGER)?;
        return match carry_by_book(alloc, text, book, places) {
            Ok(made) => Ok(Some(made)),
            Err(why) => Err(unmade(alloc, why, "")),
        };
    };
    let mut cells = Cells {
        alloc,
        mistakes: Mistakes::none(alloc),
    };
    let before = bytes_of(files.old.as_slice(), Table::CarriedFlown);
    let ledger = read_ledger(&mut cells, book, flown.as_slice(), before)?;
    if !cells.mistakes.is_empty() {
        tell_mistakes(alloc, line, &cells.mistakes, notes)?;
        return Ok(None);
    }
    let unlike = unlike_text(alloc, book, ledger.as_slice())?;
    notes.extend_from_slice(unlike.as_slice())?;
    match carry_by_ledger(alloc, text, book, places, ledger.as_slice()) {
        Ok(made) => Ok(Some(made)),
        Err(why) => Err(unmade(alloc, why, "")),
    }
}

/// Appends what is wrong with the ledger, and with what was carried before.
fn tell_mistakes(
    alloc: Global,
    line: &CarryLine<'_>,
    mistakes: &Mistakes,
    notes: &mut Vec<u8>,
) -> Result<(), AllocError> {
    let folder = line.into.unwrap_or(".");
    let told = match line.flown {
        Some(path) => mistakes.text_with(alloc, folder, Table::Flown, path)?,
        None => mistakes.text(alloc, folder)?,
    };
    notes.extend_from_slice(told.as_slice())
}

/// The tables of the folder, or none if something is wrong with those that were carried before, which is
/// told.
fn tables<'a>(
    alloc: Global,
    line: &CarryLine<'a>,
    book: &Problem,
    places: &[u16],
    made: &CarriedBook,
    files: &CarryFiles,
    notes: &mut Vec<u8>,
) -> Result<Option<Vec<TableFile>>, Untold<'a>>
    requires { length places.now ≡ length book.now.pairings }
    ensures tables { IfOk result (λ files. IfSome files
        (λ files. map (λ file. file.table) files.items ≡ tables.carried)) }
    ensures memory { IfErr result IsForgotten }
{
    let mut mistakes = Mistakes::none(alloc);
    let old = files.old.as_slice();
    let tables = carried_tables(alloc, book, places, &made.problem, old, &mut mistakes)?;
    if mistakes.is_empty() {
        return Ok(Some(tables));
    }
    tell_mistakes(alloc, line, &mistakes, notes)?;
    Ok(None)
}

/// The roster that the report at the path gives of the book.
fn roster_of<'a>(
    alloc: Global,
    line: &CarryLine<'a>,
    book: &Problem,
    report: &[u8],
) -> Result<Places, Untold<'a>>
    ensures roster { IfOk result (IsRosterOf false book.now report.now) }
    ensures refused { IfErr result (RefusesReport line.now.report.now
        (λ told. fault_of_report book.now report.now ≡ Some told)) }
{
    match read_roster(alloc, book, report) {
        Ok(places) => Ok(places),
        Err(fault) => Err(refused(line.report, fault)),
    }
}

/// Writes the next month's book, or gives the tables of it, of a book that was read.
fn carry_book<'a, W: Write>(
    alloc: Global,
    line: &CarryLine<'a>,
    text: &[u8],
    book: &Problem,
    report: &[u8],
    files: &CarryFiles,
    writer: &mut Watched<W>,
) -> Result<Carried, Untold<'a>>
    ensures kept { IfErr result (Keeps book.now line.now report.now) }
    ensures unwritten { OnErr result (writer.new ≡ writer.old) }
{
    let places = roster_of(alloc, line, book, report)?;
    let places = places.as_slice();
    let mut notes = Vec::new(alloc);
    let Some(made) = next_book(alloc, line, text, book, places, files, &mut notes)? else {
        return Ok(Carried::refused(alloc, notes));
    };
    if line.into.is_none() {
        let status = write(made.text.as_slice(), writer);
        return Ok(Carried {
            status,
            notes,
            files: Vec::new(alloc),
        });
    }
    match tables(alloc, line, book, places, &made, files, &mut notes)? {
        Some(files) => Ok(Carried {
            status: Status::Answered,
            notes,
            files,
        }),
        None => Ok(Carried::refused(alloc, notes)),
    }
}

impl Carried {
    /// Something is wrong with the inputs, as the notes tell.
    fn refused(alloc: Global, notes: Vec<u8>) -> Carried
        ensures status { result.status ≡ Status.Refused }
        ensures files { result.files.items ≡ [] }
    {
        Carried {
            status: Status::Refused,
            notes,
            files: Vec::new(alloc),
        }
    }

    /// Nothing is told but the status.
    fn ended(alloc: Global, status: Status) -> Carried
        ensures status { result.status ≡ status }
        ensures files { result.files.items ≡ [] }
    {
        Carried {
            status,
            notes: Vec::new(alloc),
            files: Vec::new(alloc),
        }
    }
}

/// Writes the next month's book of the one that the text is, or gives the tables of it, or writes the line of
/// the book's first fault.
pub fn carry_on<'a, W: Write>(
    alloc: Global,
    line: &CarryLine<'a>,
    text: &[u8],
    report: &[u8],
    files: &CarryFiles,
    writer: &mut Watched<W>,
) -> Result<Carried, Untold<'a>>
    requires { has_failed writer.old ≡ false }
    // The report is refused for what is wrong with it, or no book is made, and then nothing was written.
    ensures uncarried { IfErr result (IsUncarried line.now text.now report.now) }
    ensures unwritten { OnErr result (writer.new ≡ writer.old) }
{
    match read(alloc, text) {
        Ok(book) => carry_book(alloc, line, text, &book.problem, report, files, writer),
        Err(fault) => Ok(Carried::ended(alloc, refuse(alloc, fault, writer))),
    }
}
