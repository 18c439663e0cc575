//! What is told of the records of a book.

ghost use Rattle.std.specs.Prelude.{◌≡◌, false, IfErr, IfOk, OnErr};
ghost use Rattle.roster_watched.specs.Watch.{has_failed};
ghost use Rattle.roster_model.specs.Answer.{records_of};
ghost use Rattle.roster_model.specs.Problem.{problem_of};
ghost use Rattle.roster_desk_fair.specs.Fair.{IsFair};
ghost use Rattle.roster_desk_answers.specs.Ending.{Ends};
ghost use Rattle.roster_desk_answers.specs.Pages.{IsFaultless, IsPage, IsPageRefused, IsPageUntold, IsUnmade};

use crate::reading::{read, refuse};
use crate::unmade::unmade;
use crate::untold::Untold;
use crate::writing::write;
use roster_desk_arguments::Page;
use roster_desk_fair::fair_book;
use roster_desk_fault::{fault_text, warn_text};
use roster_desk_given::Status;
use roster_problem::Problem;
use roster_watched::Watched;
use std::alloc::Global;
use std::io::Write;

/// Writes what is to be told of the book, or the line of the book's first fault.
pub fn show<W: Write>(
    alloc: Global,
    page: Page,
    book: &[u8],
    writer: &mut Watched<W>,
) -> Result<Status, Untold<'static>>
    requires { has_failed writer.old ≡ false }
    ensures ended { IfOk result (Ends W.contents (IsPage page book.now) (IsPageRefused page book.now)
        writer.old writer.new) }
    // Only a book with fair targets may have none but for want of memory. Then nothing was written.
    ensures untold { IfErr result (IsPageUntold page book.now) }
    ensures unwritten { OnErr result (writer.new ≡ writer.old) }
{
    match page {
        Page::Fault => tell_faults(alloc, book, writer),
        Page::Warn => warn(alloc, book, writer),
        Page::Fair => share(alloc, book, writer),
    }
}

/// Writes the faults of the book.
fn tell_faults<W: Write>(
    alloc: Global,
    book: &[u8],
    writer: &mut Watched<W>,
) -> Result<Status, Untold<'static>>
    ensures ended { IfOk result (Ends W.contents (IsPage Page.Fault book.now)
        (IsPageRefused Page.Fault book.now) writer.old writer.new) }
    ensures untold { IfErr result (IsPageUntold Page.Fault book.now) }
    ensures unwritten { OnErr result (writer.new ≡ writer.old) }
{
    let text = fault_text(alloc, book)?;
    Ok(write(text.as_slice(), writer))
}

/// Writes what is likely a mistake in the book, in which no record has a fault.
fn write_warnings<W: Write>(
    alloc: Global,
    book: &[u8],
    writer: &mut Watched<W>,
) -> Result<Status, Untold<'static>>
    requires { IsFaultless book.now }
    ensures ended { IfOk result (Ends W.contents (IsPage Page.Warn book.now)
        (IsPageRefused Page.Warn book.now) writer.old writer.new) }
    ensures untold { IfErr result (IsPageUntold Page.Warn book.now) }
    ensures unwritten { OnErr result (writer.new ≡ writer.old) }
{
    let text = warn_text(alloc, book)?;
    Ok(write(text.as_slice(), writer))
}

/// Writes what is likely a mistake in the book.
fn warn<W: Write>(
    alloc: Global,
    book: &[u8],
    writer: &mut Watched<W>,
) -> Result<Status, Untold<'static>>
    requires { has_failed writer.old ≡ false }
    ensures ended { IfOk result (Ends W.contents (IsPage Page.Warn book.now)
        (IsPageRefused Page.Warn book.now) writer.old writer.new) }
    ensures untold { IfErr result (IsPageUntold Page.Warn book.now) }
    ensures unwritten { OnErr result (writer.new ≡ writer.old) }
{
    if let Err(fault) = read(alloc, book) {
        return Ok(refuse(alloc, fault, writer));
    }
    write_warnings(alloc, book, writer)
}

/// Writes the book with fair targets.
fn share<W: Write>(
    alloc: Global,
    book: &[u8],
    writer: &mut Watched<W>,
) -> Result<Status, Untold<'static>>
    requires { has_failed writer.old ≡ false }
    ensures ended { IfOk result (Ends W.contents (IsPage Page.Fair book.now)
        (IsPageRefused Page.Fair book.now) writer.old writer.new) }
    ensures untold { IfErr result (IsPageUntold Page.Fair book.now) }
    ensures unwritten { OnErr result (writer.new ≡ writer.old) }
{
    match read(alloc, book) {
        Ok(read) => {
            let text = fair(alloc, book, &read.problem)?;
            Ok(write(text.as_slice(), writer))
        }
        Err(fault) => Ok(refuse(alloc, fault, writer)),
    }
}

/// The book with fair targets.
fn fair(alloc: Global, book: &[u8], problem: &Problem) -> Result<Vec<u8>, Untold<'static>>
    ensures good { IfOk result (λ text. IsFaultless text.items) }
    ensures fair { IfOk result (λ text. IsFair problem.now (problem_of (records_of text.items))) }
    ensures unmade { IfErr result IsUnmade }
{
    match fair_book(alloc, book, problem) {
        Ok(text) => Ok(text),
        Err(why) => Err(unmade(alloc, why, "")),
    }
}
