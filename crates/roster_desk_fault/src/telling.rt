//! The faults of a book in words.

ghost use Rattle.std.specs.Prelude.{◌≡◌, ◌++◌, IfOk, OnOk, codes, drop, length};
ghost use Rattle.roster_model.specs.Answer.{records_of};
ghost use Rattle.roster_model.specs.Lines.{IsFirstCrowded};
ghost use Rattle.roster_desk_fault.specs.Firsts.{AreKept, BeginsAt};
ghost use Rattle.roster_desk_fault.specs.Kinds.{kind_of};
ghost use Rattle.roster_desk_words.specs.Parts.{AreParts};
ghost use Rattle.roster_desk_fault.specs.Told.{IsCounted, IsFaultText, IsGoodText, IsPart};
ghost use Rattle.roster_desk_fault.specs.Told.{SaysCrowded, SaysFault, TellsCrowded, most_text};

use crate::codes::sentence;
use crate::crowded::first_crowded;
use crate::finding::{Finding, MONTH_FIRST};
use crate::judging::{
    Faults, First, NO_PERIOD, Told, field_name, find_faults, first_of, read, row_at,
};
use crate::kinds::Kind;
use crate::rows::{Record, push_record, read_rows};
use crate::seen::Other;
use roster_desk_sheets::push_field;
use roster_desk_words::push_all;
use roster_model::limits::MOST_LINES;
use roster_problem::Problem;
use std::alloc::{AllocError, Global};

/// How many faults are told, at most.
pub const MOST_TOLD: usize = 20;

/// Appends a line of a label and a text.
fn push_line(out: &mut Vec<u8>, label: &[u8], text: &[u8]) -> Result<(), AllocError> {
    push_all(out, &[label, text, b"\n"])
}

/// Appends the line of the other record that the fault is about.
fn push_other(
    alloc: Global,
    out: &mut Vec<u8>,
    rows: &[Record],
    other: Other,
) -> Result<(), AllocError> {
    let Some(row) = rows.get(other.place) else {
        return Ok(());
    };
    let (number, line, relation) = (other.place.saturating_add(1), row.line(), other.relation);
    let head = format!(in alloc; "  other   record {number}, line {line}, {relation}: ")?;
    out.extend_from_slice(head.as_bytes())?;
    push_record(alloc, out, row)?;
    out.extend_from_slice(b"\n")
}

/// Appends the lines of the field: its name, and what stands in it.
fn push_found(
    alloc: Global,
    out: &mut Vec<u8>,
    row: &Record,
    found: &Finding,
) -> Result<(), AllocError> {
    push_line(out, b"  field   ", field_name(row, found.field).as_bytes())?;
    if found.field < row.len() {
        out.extend_from_slice(b"  has     ")?;
        push_field(alloc, out, row.field(found.field))?;
        out.extend_from_slice(b"\n")?;
    } else {
        push_line(out, b"  has     ", b"no such field")?;
    }
    push_line(out, b"  wanted  ", found.wanted.as_bytes())
}

/// Appends the line of the record, the record itself, and what the code says.
fn push_record_and_code(
    alloc: Global,
    out: &mut Vec<u8>,
    row: &Record,
    code: u8,
) -> Result<(), AllocError> {
    let line = row.line();
    let head = format!(in alloc; "  line    {line}\n  record  ")?;
    out.extend_from_slice(head.as_bytes())?;
    push_record(alloc, out, row)?;
    push_all(
        out,
        &[b"\n  code    the record ", sentence(code).as_bytes(), b"\n"],
    )
}

/// What is said of a fault: its record, the code, the field, and the other record.
fn said_of(alloc: Global, rows: &[Record], told: &Told) -> Result<Vec<u8>, AllocError> {
    let mut out = Vec::new(alloc);
    let Some(row) = rows.get(told.at) else {
        return Ok(out);
    };
    push_record_and_code(alloc, &mut out, row, told.code)?;
    push_found(alloc, &mut out, row, &told.found)?;
    if let Some(other) = told.found.other {
        push_other(alloc, &mut out, rows, other)?;
    }
    Ok(out)
}

/// The line of a fault, as a check tells it, and what is said of it.
fn with_line(alloc: Global, row: usize, code: u8, said: &[u8]) -> Result<Vec<u8>, AllocError>
    ensures { IfOk result (λ text. SaysFault row code text.items) }
{
    let row = row.to_string(alloc)?;
    let code = code.to_string(alloc)?;
    let mut out = Vec::new(alloc);
    push_all(
        &mut out,
        &[
            b"FAULT ",
            row.as_bytes(),
            b" ",
            code.as_bytes(),
            b"\n",
            said,
        ],
    )?;
    Ok(out)
}

/// The line of a fault of one of the records, and what is said of it.
fn fault_part(alloc: Global, rows: &[Record], told: &Told) -> Result<Vec<u8>, AllocError>
    ensures { IfOk result (λ text. IsPart told.now text.items) }
{
    let said = said_of(alloc, rows, told)?;
    with_line(alloc, row_at(told.at), told.code, said.as_slice())
}

/// The lines of faults, and what is said of each.
fn fault_parts(alloc: Global, rows: &[Record], all: &[Told]) -> Result<Vec<u8>, AllocError>
    ensures { IfOk result (λ text. AreParts IsPart all.now text.items) }
{
    let mut out = Vec::new(alloc);
    for told in all {
        let part = fault_part(alloc, rows, told)?;
        out.extend_from_slice(part.as_slice())?;
    }
    Ok(out)
}

/// How many records of the kind there are.
fn count(rows: &[Record], kind: Kind) -> usize {
    rows.iter().filter(|row| row.is(kind)).count()
}

/// The place of the record of the kind that has so many of its kind before it, if there is one.
fn place_of(rows: &[Record], kind: Kind, before: usize) -> Option<usize> {
    let mut left = before;
    for (at, row) in rows.iter().enumerate() {
        if row.is(kind) {
            if left == 0 {
                return Some(at);
            }
            left -= 1;
        }
    }
    None
}

/// The line and the record of the person who has so many before them, if there is one.
fn shown_person(alloc: Global, rows: &[Record], k: usize) -> Result<Vec<u8>, AllocError> {
    let mut out = Vec::new(alloc);
    let Some(row) = place_of(rows, Kind::Crew, k).and_then(|at| rows.get(at)) else {
        return Ok(out);
    };
    let line = row.line();
    let head = format!(in alloc; "  line    {line}\n  record  ")?;
    out.extend_from_slice(head.as_bytes())?;
    push_record(alloc, &mut out, row)?;
    out.push(b'\n')?;
    Ok(out)
}

/// What is said of person `k`, the first who has too many legal sets for `solve`.
fn crowded_text(
    alloc: Global,
    rows: &[Record],
    problem: &Problem,
    k: usize,
) -> Result<Vec<u8>, AllocError>
    requires { IsFirstCrowded problem.now k }
    ensures { IfOk result (λ text. SaysCrowded problem.now k text.items) }
{
    let shown = shown_person(alloc, rows, k)?;
    let most = MOST_LINES.to_string(alloc)?;
    let mut out = Vec::new(alloc);
    push_all(
        &mut out,
        &[
            b"NOT FOR SOLVE\n",
            shown.as_slice(),
            b"  why     `roster solve` can't list all legal sets of ",
            problem.person(k).id.as_bytes(),
            b": there are more than ",
            most.as_bytes(),
            b", the empty one counted; others may have as many\n",
            b"  wanted  `roster-desk plan`, which takes this book; or a book for a part of the month or base\n",
        ],
    )?;
    Ok(out)
}

/// What is said of the first person who has too many legal sets for `solve`; nothing if nobody has.
fn crowded(alloc: Global, rows: &[Record], problem: &Problem) -> Result<Vec<u8>, AllocError>
    ensures { IfOk result (λ text. TellsCrowded problem.now text.items) }
{
    match first_crowded(alloc, problem)? {
        Some(k) => crowded_text(alloc, rows, problem, k),
        None => Ok(Vec::new(alloc)),
    }
}

/// Blanks that fill a word up to the column of numbers.
const BLANKS: &[u8] = b"        ";

/// What fills the word up.
fn filling(word: &str) -> &[u8]
    ensures { result.now ≡ drop (length word.now) (codes "        ") }
{
    BLANKS.get(word.len()..).unwrap_or(&[])
}

/// Appends how many there may be, if there is a limit, and ends the line.
fn push_most(alloc: Global, out: &mut Vec<u8>, most: Option<usize>) -> Result<(), AllocError>
    ensures { OnOk result (out.new.items ≡ out.old.items ++ most_text most) }
{
    match most {
        Some(most) => {
            let most = most.to_string(alloc)?;
            push_all(out, &[b" of ", most.as_bytes(), b" at most\n"])
        }
        None => out.extend_from_slice(b"\n"),
    }
}

/// The line of how many records of the kind there are.
fn count_line(alloc: Global, kind: Kind, count: usize) -> Result<Vec<u8>, AllocError>
    ensures { IfOk result (λ line. IsCounted (kind_of kind) line.items) }
{
    let word = kind.word();
    let count = count.to_string(alloc)?;
    let mut out = Vec::new(alloc);
    push_all(
        &mut out,
        &[b"  ", word.as_bytes(), filling(word), count.as_bytes()],
    )?;
    push_most(alloc, &mut out, kind.most())?;
    Ok(out)
}

/// How many records of each of these kinds there are.
fn counts(alloc: Global, rows: &[Record], kinds: &[Kind]) -> Result<Vec<u8>, AllocError>
    ensures { IfOk result (λ text. AreParts (λ kind. IsCounted (kind_of kind)) kinds.now text.items) }
{
    let mut out = Vec::new(alloc);
    for &kind in kinds {
        let line = count_line(alloc, kind, count(rows, kind))?;
        out.extend_from_slice(line.as_slice())?;
    }
    Ok(out)
}

/// The text of a book without a fault: how many records of each kind there are, and who has too many legal
/// sets for `solve`, if anybody has.
fn good_text(alloc: Global, rows: &[Record], problem: &Problem) -> Result<Vec<u8>, AllocError>
    ensures { IfOk result (λ text. IsGoodText problem.now text.items) }
{
    let counts = counts(alloc, rows, &Kind::ALL)?;
    let crowded = crowded(alloc, rows, problem)?;
    let mut out = Vec::new(alloc);
    push_all(
        &mut out,
        &[b"NO FAULT\n", counts.as_slice(), crowded.as_slice()],
    )?;
    Ok(out)
}

/// The last line: how the faults were judged, and whether there may be more.
fn end_of(alloc: Global, told: usize, next: Option<First>) -> Result<String, AllocError> {
    let rest = match next {
        None => "all others are without a fault",
        Some(first) if first.code == NO_PERIOD => "no later record begins the book",
        Some(_) => "others may follow",
    };
    format!(in alloc;
        "{told} told, each as if the faulty records before it weren't there; {rest}\n"
    )
}

/// What is said of a book's first fault if the book has no record.
fn said_of_none(alloc: Global) -> Result<Vec<u8>, AllocError> {
    let mut out = Vec::new(alloc);
    push_line(&mut out, b"  code    ", b"the book has no record")?;
    push_line(&mut out, b"  wanted  ", MONTH_FIRST.as_bytes())?;
    Ok(out)
}

/// The faults that are told, and behind them the last line; if none is told, the first one, of a book that
/// has no record.
fn told_text(
    alloc: Global,
    rows: &[Record],
    first: First,
    all: &[Told],
    end: &[u8],
) -> Result<Vec<u8>, AllocError>
    ensures { IfOk result (λ text. BeginsAt first all.now → SaysFault first.row first.code text.items) }
{
    if all.is_empty() {
        let said = said_of_none(alloc)?;
        return with_line(alloc, first.row, first.code, said.as_slice());
    }
    let mut out = fault_parts(alloc, rows, all)?;
    out.extend_from_slice(end)?;
    Ok(out)
}

/// The text of a refused book, of which this is the first fault.
fn faulty_text(alloc: Global, rows: &mut Vec<Record>, first: First) -> Result<Vec<u8>, AllocError>
    ensures { IfOk result (λ text. AreKept rows.old.items → SaysFault first.row first.code text.items) }
{
    let Faults { told, next } = find_faults(alloc, rows, first, MOST_TOLD)?;
    let end = end_of(alloc, told.len(), next)?;
    told_text(alloc, rows, first, told.as_slice(), end.as_bytes())
}

/// The faults of the book in the bytes, the first one as a check tells it, and each later one as if the
/// faulty records before it weren't there; at most [`MOST_TOLD`]. If there is none, how many records of each
/// kind there are, and the first person whose legal sets are too many for `solve`. It is valid UTF-8.
pub fn fault_text(alloc: Global, bytes: &[u8]) -> Result<Vec<u8>, AllocError>
    ensures { IfOk result (λ text. IsFaultText (records_of bytes.now) text.items) }
{
    let mut rows = read_rows(alloc, bytes)?;
    match read(alloc, bytes) {
        Ok(book) => good_text(alloc, &rows, &book.problem),
        Err(fault) => faulty_text(alloc, &mut rows, first_of(fault)?),
    }
}
