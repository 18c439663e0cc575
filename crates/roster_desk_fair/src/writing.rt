//! The text of a book with fair targets, on `csv`.

ghost use Rattle.std.specs.Prelude.{◌≡◌, ◌<◌, ℕ, IfErr, IfOk, IsTrue, None, Some, length, map, slice_get};
ghost use Rattle.std.specs.List.{range_with_len};
ghost use Rattle.roster_model.specs.Answer.{records_of};
ghost use Rattle.roster_model.specs.Faults.{first_fault};
ghost use Rattle.roster_model.specs.Problem.{problem_of, target_of};
ghost use Rattle.roster_model.specs.Record.{Check};
ghost use Rattle.roster_desk_made.specs.Made.{IsRead, TellsFault};
ghost use Rattle.roster_desk_fair.specs.Fair.{IsFair, fair_target};

use crate::targets::fair_targets;
use csv::ByteRecord;
use roster_desk_made::{MadeBook, Unmade, book_of, records_in};
use roster_desk_sheets::Records;
use roster_problem::Problem;
use std::alloc::{AllocError, Global};

/// Where the target stands in the record of a person.
const TARGET: usize = 3;

/// Puts the record behind the others, with the text in place of the target.
fn push_person(
    alloc: Global,
    records: &mut Records,
    fields: &ByteRecord,
    target: &[u8],
) -> Result<(), AllocError> {
    let mut cells = Vec::new(alloc);
    for i in 0..fields.len() {
        let cell = if i == TARGET {
            target
        } else {
            fields.get(i).unwrap_or(&[])
        };
        cells.push(cell)?;
    }
    records.push(cells.as_slice())
}

/// The book, whose bytes are the text, with these targets of its persons, in book order.
fn text_with(alloc: Global, text: &[u8], fair: &[u64]) -> Result<Vec<u8>, AllocError> {
    let mut records = Records::new(alloc);
    let mut k = 0usize;
    for fields in &records_in(alloc, text)? {
        let is_person = fields.get(0).is_some_and(|kind| kind == b"crew".as_slice());
        let target = if is_person { fair.get(k) } else { None };
        match target {
            Some(target) => {
                k = k.saturating_add(1);
                let target = target.to_string(alloc)?;
                push_person(alloc, &mut records, fields, target.as_bytes())?;
            }
            None => records.copy(fields)?,
        }
    }
    records.finish()
}

/// Whether the book has these targets, and no others.
fn has_targets(book: &Problem, fair: &[u64]) -> bool
    ensures { IsTrue result → (length fair.now ≡ length book.now.persons)
        × ((k : ℕ) → k < length book.now.persons → slice_get fair.now k ≡ Some (target_of book.now k)) }
{
    let persons = book.persons();
    if persons.len() != fair.len() {
        return false;
    }
    for k in 0..persons.len() {
        let person = &persons[k];
        if u64::from(person.target) != fair[k] {
            return false;
        }
    }
    true
}

/// The text of the book that was read, if its targets are the fair ones.
fn judged(read: MadeBook, book: &Problem, fair: &[u64]) -> Result<Vec<u8>, Unmade>
    requires targets { fair.now ≡ map (fair_target book.now) (range_with_len 0 (length book.now.persons)) }
    requires read { IsRead read }
    ensures faultless { IfOk result (λ text. first_fault Check (records_of text.items) ≡ None) }
    ensures fair { IfOk result (λ text. IsFair book.now (problem_of (records_of text.items))) }
    ensures fault { IfErr result TellsFault }
{
    let MadeBook { text, problem } = read;
    if has_targets(&problem, fair) {
        Ok(text)
    } else {
        Err(Unmade::Unlike)
    }
}

/// The book, whose bytes are the text, with fair targets. None is given if a share is more than a book may
/// have.
pub fn fair_book(alloc: Global, text: &[u8], book: &Problem) -> Result<Vec<u8>, Unmade>
    ensures faultless { IfOk result (λ text. first_fault Check (records_of text.items) ≡ None) }
    ensures fair { IfOk result (λ text. IsFair book.now (problem_of (records_of text.items))) }
    ensures fault { IfErr result TellsFault }
{
    let fair = fair_targets(alloc, book)?;
    let text = text_with(alloc, text, fair.as_slice())?;
    match book_of(alloc, text) {
        Ok(read) => judged(read, book, fair.as_slice()),
        Err(why) => Err(why),
    }
}
