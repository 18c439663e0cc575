//! What was flown before a month.

ghost use Rattle.std.specs.Prelude.{◌≡◌, ◌+◌, IfOk, IfSome, IsTrue, Bool, ℕ, List, length, map};
ghost use Rattle.std.specs.List.{sum_by};
ghost use Rattle.roster_desk_carry_judged.specs.Months as spec;
ghost use Rattle.roster_desk_carry_judged.specs.Months.{flown_in, minutes_in};

use crate::months::{is_of_ten, is_of_year};
use roster_instants::Period;
use roster_problem::{Person, Problem};
use roster_values::Name;
use std::alloc::{AllocError, Global};

/// A row of a ledger: what a person has flown in a month.
#[derive(Drop)]
pub struct Flown {
    /// The person's name.
    pub person: Name,
    /// The month.
    pub month: Period,
    /// Minutes of flight.
    pub minutes: u32,
}

/// What a person has flown before a month, in minutes.
#[derive(Clone, Copy)]
pub struct Before {
    /// In the calendar year of the next month.
    pub year: u64,
    /// In the ten months before it.
    pub eleven: u64,
}

/// The minutes of the row, if it is one of the person in the calendar year of the next month.
fn of_year(this: Period, person: &Person, row: &Flown) -> u32
    ensures { result ≡ minutes_in (spec.is_of_year this) person.now.id row.now }
{
    if row.person.as_bytes() == person.id.as_bytes() && is_of_year(this, row.month) {
        row.minutes
    } else {
        0
    }
}

/// The minutes of the row, if it is one of the person in the ten months before this one.
fn of_ten(this: Period, person: &Person, row: &Flown) -> u32
    ensures { result ≡ minutes_in (spec.is_of_ten this) person.now.id row.now }
{
    if row.person.as_bytes() == person.id.as_bytes() && is_of_ten(this, row.month) {
        row.minutes
    } else {
        0
    }
}

/// What was flown by one row more, if that is no more than a machine's number.
fn with_row(this: Period, person: &Person, row: &Flown, flown: Before) -> Option<Before>
    ensures year { IfSome result (λ sum. sum.year
        ≡ flown.year + minutes_in (spec.is_of_year this) person.now.id row.now) }
    ensures ten { IfSome result (λ sum. sum.eleven
        ≡ flown.eleven + minutes_in (spec.is_of_ten this) person.now.id row.now) }
{
    Some(Before {
        year: flown
            .year
            .checked_add(u64::from(of_year(this, person, row)))?,
        eleven: flown
            .eleven
            .checked_add(u64::from(of_ten(this, person, row)))?,
    })
}

/// What the ledger has of the person, if that is no more than a machine's number.
fn flown_before(this: Period, person: &Person, ledger: &[Flown]) -> Option<Before>
    ensures { IfSome result (λ flown. flown ≡ spec.by_ledger this ledger.now person.now) }
{
    let mut flown = Before { year: 0, eleven: 0 };
    for i in 0..ledger.len() {
        flown = with_row(this, person, &ledger[i], flown)?;
    }
    Some(flown)
}

/// What the ledger has of each person of the book before its month, as far as it counts after it. None if
/// that is more than a machine's number.
pub fn by_ledger(
    alloc: Global,
    book: &Problem,
    ledger: &[Flown],
) -> Result<Option<Vec<Before>>, AllocError>
    ensures { IfOk result (λ found. IfSome found (λ before.
        before.items ≡ map (spec.by_ledger book.now.period ledger.now) book.now.persons)) }
{
    let (this, persons) = (book.period(), book.persons());
    let mut before = Vec::new(alloc);
    for k in 0..persons.len() {
        let Some(flown) = flown_before(this, &persons[k], ledger) else {
            return Ok(None);
        };
        before.push(flown)?;
    }
    Ok(Some(before))
}

/// What the book itself has of a person.
fn of_book(person: &Person) -> Before
    ensures { result ≡ spec.by_book person.now }
{
    Before {
        year: u64::from(person.year),
        eleven: u64::from(person.eleven),
    }
}

/// What the book itself has of each person before its month: no less than what counts after it.
pub fn by_book(alloc: Global, book: &Problem) -> Result<Vec<Before>, AllocError>
    ensures { IfOk result (λ before. before.items ≡ map spec.by_book book.now.persons) }
{
    let persons = book.persons();
    let mut before = Vec::new(alloc);
    for k in 0..persons.len() {
        before.push(of_book(&persons[k]))?;
    }
    Ok(before)
}
