//! What is told of a report: its records, and what of it a book doesn't have.

ghost use Rattle.std.specs.Prelude.{◌≡◌, ◌++◌, IfErr, IfOk, OnErr, OnOk};
ghost use Rattle.std.specs.List.{flat_map};
ghost use Rattle.roster_desk_reports.specs.Known.{unknown_of};
ghost use Rattle.roster_desk_reports.specs.Text.{given_by_text};
ghost use Rattle.roster_desk_answers.specs.Ending.{Ends, Nothing};
ghost use Rattle.roster_desk_answers.specs.Refusing.{MayTell, RefusesReport};
ghost use Rattle.roster_desk_answers.specs.Reports.{AreAssigns, IsWrong};

use crate::untold::{Untold, refused};
use crate::writing::write;
use roster_desk_given::Status;
use roster_desk_reports::{ReportFault, assigns_text, read_report, unknown_text};
use roster_problem::Problem;
use roster_watched::Watched;
use std::alloc::{AllocError, Global};
use std::io::Write;

/// Appends a line for each person and pairing of the report, which gives a roster of the book, that the book
/// doesn't have.
pub(crate) fn push_unknown(
    alloc: Global,
    notes: &mut Vec<u8>,
    book: &Problem,
    report: &[u8],
) -> Result<(), AllocError>
    ensures { OnOk result (notes.new.items
        ≡ notes.old.items ++ flat_map (unknown_of book.now) (given_by_text report.now)) }
{
    match unknown_text(alloc, book, report) {
        Ok(text) => notes.extend_from_slice(text.as_slice()),
        Err(_) => Err(AllocError),
    }
}

/// Writes the `assign` records that the report at the path gives.
pub fn tell_assigns<'a, W: Write>(
    alloc: Global,
    path: &'a str,
    report: &[u8],
    writer: &mut Watched<W>,
) -> Result<Status, Untold<'a>>
    ensures ended { IfOk result (Ends W.contents (AreAssigns report.now) Nothing writer.old writer.new) }
    // It is refused exactly for what is wrong, memory aside, and then nothing was written.
    ensures refused { IfErr result (RefusesReport path.now (IsWrong report.now)) }
    ensures unwritten { OnErr result (writer.new ≡ writer.old) }
{
    match records(alloc, report) {
        Ok(text) => Ok(write(text.as_slice(), writer)),
        Err(fault) => Err(refused(path, fault)),
    }
}

/// The `assign` records that the report gives.
fn records(alloc: Global, report: &[u8]) -> Result<Vec<u8>, ReportFault>
    ensures records { IfOk result (λ text. AreAssigns report.now text.items) }
    ensures fault { IfErr result (MayTell (IsWrong report.now)) }
{
    let report = read_report(alloc, report)?;
    let text = assigns_text(alloc, &report)?;
    Ok(text)
}
