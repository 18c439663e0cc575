//! The book of a repair, and what standard error is told of it.

ghost use Rattle.std.specs.Prelude.{◌≡◌, ◌≤◌, ◌*◌, false, IfOk, IfSome, OnErr, Some};
ghost use Rattle.roster_model.specs.Answer.{IsRefusal, records_of};
ghost use Rattle.roster_model.specs.Record.{Check};
ghost use Rattle.roster_model.specs.declared.limits.TheConstants.{MOST_UNITS};
ghost use Rattle.roster_watched.specs.Watch.{has_failed};
ghost use Rattle.roster_desk_arguments.specs.Line.{number_spelled};
ghost use Rattle.roster_desk_answers.specs.Ending.{Ends};
ghost use Rattle.roster_desk_answers.specs.Mended.{AreTerms, IsMended, IsNotice, IsRepaired, IsTime, Mends};

use crate::breaking::{at_colon, broken_off, unrepaired};
use crate::reading::{read, refuse};
use crate::reports::push_unknown;
use crate::telling::Noted;
use crate::untold::{Untold, refused};
use crate::writing::write;
use roster_desk_arguments::RepairLine;
use roster_desk_given::Status;
use roster_desk_repair::{RepairedBook, repair};
use roster_desk_repair_judged::Terms;
use roster_desk_reports::read_known_roster;
use roster_desk_words::push_all;
use roster_instants::read_minute;
use roster_legal::locked;
use roster_model::limits::MOST_UNITS;
use roster_problem::Problem;
use roster_watched::Watched;
use std::alloc::{AllocError, Global};
use std::io::Write;

/// What is said of an instant that is none.
const NO_INSTANT: &str = "--from wants an instant in UTC, as 2024-06-12T06:00Z";

/// What is said of a notice that is none.
const NO_NOTICE: &str = "--notice wants a time and cost units, as 2d:2000, 36h:2000 or 90m:2000";

/// The number that the digits spell, so many times.
fn number_of(digits: &str, times: u32) -> Option<u32>
    ensures { IfSome result (λ number. number ≡ number_spelled digits.now * times) }
{
    match digits.parse::<u32>() {
        Ok(number) => number.checked_mul(times),
        Err(_) => None,
    }
}

/// The minutes of a time, as `2d`, `36h` or `90m`.
fn minutes_in(text: &str) -> Option<u32>
    ensures { IfSome result (IsTime text.now) }
{
    if let Some(days) = text.strip_suffix('d') {
        return number_of(days, 1440);
    }
    if let Some(hours) = text.strip_suffix('h') {
        return number_of(hours, 60);
    }
    number_of(text.strip_suffix('m')?, 1)
}

/// The minutes and the cost units of a notice, as `2d:2000`.
fn notice_in(text: &str) -> Option<(u32, u32)>
    ensures { IfSome result (λ notice. IsNotice text.now notice.0 notice.1) }
{
    let (time, units) = at_colon(text)?;
    let minutes = minutes_in(time)?;
    let units = number_of(units, 1)?;
    if units > MOST_UNITS {
        return None;
    }
    Some((minutes, units))
}

/// What it costs by the line that a pairing moves.
fn change_in(line: &RepairLine<'_>) -> u32
    ensures { line.now.change ≤ MOST_UNITS → result ≡ line.now.change }
{
    if line.change <= MOST_UNITS as usize {
        line.change as u32
    } else {
        MOST_UNITS
    }
}

/// What the line says of the repair.
fn terms_of<'a>(line: &RepairLine<'a>) -> Result<Terms, Untold<'a>>
    ensures terms { IfOk result (AreTerms line.now) }
{
    let Some(from) = read_minute(line.from.as_bytes()) else {
        return Err(Untold::Words(NO_INSTANT));
    };
    let change = change_in(line);
    let Some(text) = line.notice else {
        return Ok(Terms {
            from,
            notice: 0,
            short: change,
            change,
        });
    };
    match notice_in(text) {
        Some((notice, short)) => Ok(Terms {
            from,
            notice,
            short,
            change,
        }),
        None => Err(Untold::Words(NO_NOTICE)),
    }
}

/// Appends a line for each person who is locked by what is fixed.
fn push_locked(alloc: Global, notes: &mut Vec<u8>, problem: &Problem) -> Result<(), AllocError> {
    for k in 0..problem.persons().len() {
        if let Some(rule) = locked(alloc, problem, k)? {
            let name = problem.person(k).id.as_bytes();
            push_all(notes, &[b"locked: ", name, b" by "])?;
            notes.extend_from_slice(rule.word().as_bytes())?;
            notes.extend_from_slice(b"\n")?;
        }
    }
    Ok(())
}

/// How many of the pairings are fixed with a number of a person, and how many open.
fn counts(fixed: &[Option<u16>], nobody: usize) -> (usize, usize) {
    let (mut flown, mut open) = (0usize, 0usize);
    for number in fixed {
        match number {
            Some(number) if usize::from(*number) < nobody => flown = flown.saturating_add(1),
            Some(_) => open = open.saturating_add(1),
            None => {}
        }
    }
    (flown, open)
}

/// What standard error is told of a repair.
fn notes_of(
    alloc: Global,
    book: &Problem,
    report: &[u8],
    made: &RepairedBook,
) -> Result<Vec<u8>, AllocError> {
    let mut notes = Vec::new(alloc);
    push_unknown(alloc, &mut notes, book, report)?;
    push_locked(alloc, &mut notes, &made.problem)?;
    let (flown, open) = counts(&made.fixed, book.persons().len());
    let (flown, open) = (flown.to_string(alloc)?, open.to_string(alloc)?);
    push_all(
        &mut notes,
        &[
            b"fixed: ",
            flown.as_bytes(),
            b" pairings, and ",
            open.as_bytes(),
            b" that stay open\n",
        ],
    )?;
    let constant = made.constant.to_string(alloc)?;
    push_all(
        &mut notes,
        &[
            b"a roster's cost in the book is its COST here + ",
            constant.as_bytes(),
            b" - what its moves cost\n",
        ],
    )?;
    Ok(notes)
}

/// The repair of the book, whose bytes are the text, of the report at the path.
fn repaired<'a>(
    alloc: Global,
    line: &RepairLine<'a>,
    terms: &Terms,
    text: &[u8],
    book: &Problem,
    report: &[u8],
) -> Result<RepairedBook, Untold<'a>>
    ensures made { IfOk result (λ made. IsRepaired book.now terms.now report.now made.text.items) }
{
    let published = match read_known_roster(alloc, book, report) {
        Ok(published) => published,
        Err(fault) => return Err(refused(line.report, fault)),
    };
    match repair(alloc, text, book, published.as_slice(), terms) {
        Ok(made) => Ok(made),
        Err(why) => Err(unrepaired(alloc, why)),
    }
}

/// The text of the book of the rest, and what standard error is told.
fn rest_of<'a>(
    alloc: Global,
    line: &RepairLine<'a>,
    terms: &Terms,
    text: &[u8],
    book: Problem,
    report: &[u8],
) -> Result<(Vec<u8>, Vec<u8>), Untold<'a>>
    ensures { IfOk result (λ told. Mends line.now.broken.items terms.now book report.now told.0.items) }
{
    let (text, book) = broken_off(alloc, line, terms.from, text, book)?;
    let made = repaired(alloc, line, terms, &text, &book, report)?;
    let notes = notes_of(alloc, &book, report, &made)?;
    Ok((made.text, notes))
}

/// Writes the book that repairs the one among the inputs, or the line of the book's first fault.
pub fn mend<'a, W: Write>(
    alloc: Global,
    line: &RepairLine<'a>,
    text: &[u8],
    report: &[u8],
    writer: &mut Watched<W>,
) -> Result<Noted, Untold<'a>>
    requires { has_failed writer.old ≡ false }
    // The repair, once each pairing that the line names has broken off, or the line of the first fault.
    ensures ended { IfOk result (λ noted. Ends W.contents (IsMended line.now text.now report.now)
        (IsRefusal Check (records_of text.now)) writer.old writer.new noted.status) }
    // Nothing was written if the line or the report is refused, or no book is made.
    ensures unwritten { OnErr result (writer.new ≡ writer.old) }
{
    let terms = terms_of(line)?;
    match read(alloc, text) {
        Ok(book) => {
            let (rest, notes) = rest_of(alloc, line, &terms, text, book.problem, report)?;
            let status = write(rest.as_slice(), writer);
            Ok(Noted { status, notes })
        }
        Err(fault) => Ok(Noted {
            status: refuse(alloc, fault, writer),
            notes: Vec::new(alloc),
        }),
    }
}
