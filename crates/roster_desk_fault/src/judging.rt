//! The faults of a book, as values.

ghost use Rattle.std.specs.Prelude.{◌≡◌, ◌+◌, ◌<◌, IfErr, IfOk, None, OnOk, length};
ghost use Rattle.std.specs.List.{AllZip};
ghost use Rattle.roster_book.specs.Reading.{IsBookOf, TellsFirst};
ghost use Rattle.roster_book.specs.declared.fault.BookFault.TheVariants.{At};
ghost use Rattle.roster_desk_fault.specs.Firsts.{AreKept, BeginsAt, IsFirst, IsJudged, IsTold, IsValue, MayBeFirst};
ghost use Rattle.roster_desk_fault.specs.declared.judging.Judged.TheVariants.{Good};
ghost use Rattle.roster_model.specs.Answer.{records_of};
ghost use Rattle.roster_model.specs.Faults.{first_fault};
ghost use Rattle.roster_model.specs.Record.{Check};

use crate::finding::{Finding, MONTH_FIRST, find};
use crate::kinds::Kind;
use crate::rows::{Record, kept_at, kept_text, read_rows};
use crate::seen::Seen;
use roster_book::{Book, BookFault, Command, read_book};
use roster_watched::Watched;
use std::alloc::{AllocError, Global};

/// What is wrong with a record.
#[derive(Drop)]
pub struct Fault {
    /// The number of the record, from 1.
    pub row: usize,
    /// The number of the code, from 1 to 14.
    pub code: u8,
    /// The name of the field, as the description of the format has it.
    pub field: &'static str,
    /// What stands there.
    pub has: Vec<u8>,
    /// What is wanted there.
    pub wanted: String,
    /// The number of another record that it is about, and what that has to do with it.
    pub other: Option<(usize, &'static str)>,
}

/// Whether a book has a fault.
#[derive(Drop)]
pub enum Judged {
    /// It has none.
    Good,
    /// It has some: the first one, and others behind it. There is one at least.
    Faulty(Vec<Fault>),
}

/// The code of a book that doesn't begin with its month.
pub(crate) const NO_PERIOD: u8 = 1;

/// The code of a record that is one too many of its kind.
const NO_ROOM: u8 = 11;

/// The first fault of a book.
#[derive(Clone, Copy)]
pub(crate) struct First {
    /// The row of the record, from 1.
    pub(crate) row: usize,
    /// The number of the code.
    pub(crate) code: u8,
}

/// The book in the bytes, as a check reads it, or its first fault.
pub(crate) fn read(alloc: Global, bytes: &[u8]) -> Result<Book, BookFault>
    ensures book { IfOk result (λ book. IsBookOf Check (records_of bytes.now) book) }
    ensures fault { IfErr result (TellsFirst Check (records_of bytes.now)) }
{
    let mut reader = Watched::new(bytes);
    read_book(alloc, &mut reader, Command::Check)
}

/// The record and the code of the fault; bytes in memory are no device that fails.
pub(crate) fn first_of(fault: BookFault) -> Result<First, AllocError>
    ensures { IfOk result (λ first. fault ≡ At first.row first.code) }
{
    match fault {
        BookFault::At { row, code } => Ok(First { row, code }),
        BookFault::Device | BookFault::Memory => Err(AllocError),
    }
}

/// The first fault of the book in the bytes, as a check tells it.
fn first_in(alloc: Global, bytes: &[u8]) -> Result<Option<First>, AllocError> {
    match read(alloc, bytes).err() {
        None => Ok(None),
        Some(fault) => Ok(Some(first_of(fault)?)),
    }
}

/// The first fault of the records that aren't left out.
pub(crate) fn first_kept(alloc: Global, rows: &[Record]) -> Result<Option<First>, AllocError> {
    let text = kept_text(alloc, rows)?;
    first_in(alloc, text.as_slice())
}

/// A fault, and what is wrong with its record.
#[derive(Drop)]
pub(crate) struct Told {
    /// The place of the record.
    pub(crate) at: usize,
    /// The number of the code.
    pub(crate) code: u8,
    pub(crate) found: Finding,
}

/// Faults of a book, and the next one that isn't among them, if there is one.
#[derive(Drop)]
pub(crate) struct Faults {
    pub(crate) told: Vec<Told>,
    pub(crate) next: Option<First>,
}

/// The name of the field at the place of the record, as the description of the format has it.
pub(crate) fn field_name(row: &Record, i: usize) -> &'static str {
    let Some(kind) = row.kind() else {
        return "the kind";
    };
    if i == 0 {
        return "the kind";
    }
    if kind == Kind::Duty && i == 3 && row.field(2) == b"C".as_slice() {
        return "PERSON";
    }
    kind.name(i).unwrap_or("one too many")
}

/// Puts what is wrong with the record at the place behind the others.
fn push_told(
    alloc: Global,
    told: &mut Vec<Told>,
    rows: &[Record],
    at: usize,
    code: u8,
) -> Result<(), AllocError>
    ensures { OnOk result (at < length rows.now → IsTold at code told.old.items told.new.items) }
{
    let Some(row) = rows.get(at) else {
        return Ok(());
    };
    let found = find(alloc, Seen { rows, at, row }, code)?;
    told.push(Told { at, code, found })?;
    Ok(())
}

/// Leaves out the record at the place, and if it is one too many, all later ones of its kind, which are too.
fn leave_out(rows: &mut Vec<Record>, at: usize, code: u8) {
    let kind = rows.get(at).and_then(|row| row.kind());
    for (i, row) in rows.as_mut_slice().iter_mut().enumerate() {
        if i == at || code == NO_ROOM && i > at && row.kind() == kind {
            row.left_out = true;
        }
    }
}

/// The faults of the records, of which this is the first, each as if the faulty records before it weren't
/// there; so many at most.
pub(crate) fn find_faults(
    alloc: Global,
    rows: &mut Vec<Record>,
    first: First,
    most: usize,
) -> Result<Faults, AllocError>
    ensures { IfOk result (λ faults. AreKept rows.old.items → BeginsAt first faults.told.items) }
{
    let mut told = Vec::new(alloc);
    let mut next = Some(first);
    for n in 0..most {
        let Some(fault) = next else { break };
        // A book that lacks its month can't be judged further.
        if n > 0 && fault.code == NO_PERIOD {
            break;
        }
        let Some(at) = kept_at(rows, fault.row) else {
            break;
        };
        push_told(alloc, &mut told, rows, at, fault.code)?;
        leave_out(rows, at, fault.code);
        next = first_kept(alloc, rows)?;
    }
    Ok(Faults { told, next })
}

/// What the field at the place of the record is called, and what stands there.
fn field_in(
    alloc: Global,
    rows: &[Record],
    at: usize,
    i: usize,
) -> Result<(&'static str, Vec<u8>), AllocError> {
    match rows.get(at) {
        Some(row) => Ok((field_name(row, i), Vec::from_slice(alloc, row.field(i))?)),
        None => Ok(("", Vec::new(alloc))),
    }
}

/// The row of the record at the place.
pub(crate) fn row_at(at: usize) -> usize
    ensures { at < 18446744073709551615 → result ≡ at + 1 }
{
    at.saturating_add(1)
}

/// The fault as a value.
fn value_of(alloc: Global, rows: &[Record], told: Told) -> Result<Fault, AllocError>
    ensures { IfOk result (IsValue told) }
{
    let Told { at, code, found } = told;
    let (field, has) = field_in(alloc, rows, at, found.field)?;
    let other = found
        .other
        .map(|other| (row_at(other.place), other.relation));
    Ok(Fault {
        row: row_at(at),
        code,
        field,
        has,
        wanted: found.wanted,
        other,
    })
}

/// The faults as values.
fn values_of(alloc: Global, rows: &[Record], all: Vec<Told>) -> Result<Vec<Fault>, AllocError>
    ensures { IfOk result (λ faults. AllZip IsValue all.items faults.items) }
{
    let mut faults = Vec::new(alloc);
    for told in all {
        faults.push(value_of(alloc, rows, told)?)?;
    }
    Ok(faults)
}

/// The first fault of a book in which its record isn't found, as one that has none.
fn first_alone(alloc: Global, first: First) -> Result<Fault, AllocError>
    ensures row { IfOk result (λ fault. fault.row ≡ first.row) }
    ensures code { IfOk result (λ fault. fault.code ≡ first.code) }
{
    Ok(Fault {
        row: first.row,
        code: first.code,
        field: "the kind",
        has: Vec::new(alloc),
        wanted: String::from_str(alloc, MONTH_FIRST)?,
        other: None,
    })
}

/// The faults, or the first one if there are none.
fn or_first(alloc: Global, first: First, faults: Vec<Fault>) -> Result<Vec<Fault>, AllocError>
    ensures { IfOk result (λ all. MayBeFirst first.row first.code faults.items
        → IsFirst first.row first.code all.items) }
{
    if !faults.is_empty() {
        return Ok(faults);
    }
    let mut all = Vec::new(alloc);
    all.push(first_alone(alloc, first)?)?;
    Ok(all)
}

/// The faults of the records, of which this is the first.
fn faults_from(
    alloc: Global,
    rows: &mut Vec<Record>,
    first: First,
    most: usize,
) -> Result<Vec<Fault>, AllocError>
    ensures { IfOk result (λ faults. AreKept rows.old.items
        → IsFirst first.row first.code faults.items) }
{
    let found = find_faults(alloc, rows, first, most.max(1))?;
    let faults = values_of(alloc, rows, found.told)?;
    or_first(alloc, first, faults)
}

/// Whether the book in the bytes has a fault. The first one is that of a check, and each later one as if the
/// faulty records before it weren't there; so many at most, but always the first.
pub fn judge(alloc: Global, bytes: &[u8], most: usize) -> Result<Judged, AllocError>
    ensures good { IfOk result (λ judged. judged ≡ Good
        → first_fault Check (records_of bytes.now) ≡ None) }
    ensures first { IfOk result (IsJudged (records_of bytes.now)) }
{
    let Err(fault) = read(alloc, bytes) else {
        return Ok(Judged::Good);
    };
    let mut rows = read_rows(alloc, bytes)?;
    let first = first_of(fault)?;
    Ok(Judged::Faulty(faults_from(alloc, &mut rows, first, most)?))
}
