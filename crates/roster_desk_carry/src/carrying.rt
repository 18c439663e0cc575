//! A text that is the next month's book.

ghost use Rattle.std.specs.Prelude.{◌≡◌, IfErr, IfOk, length, map};
ghost use Rattle.roster_desk_carry_judged.specs.Months as months;
ghost use Rattle.roster_desk_carry.specs.Made.{IsMade};
ghost use Rattle.roster_desk_made.specs.Made.{IsRead, TellsFault};

use crate::writing::{carried_text, zones_in};
use roster_desk_carry_judged::{BaseZone, Before, Flown, by_book, by_ledger, is_carried};
use roster_desk_made::{MadeBook, Unmade, book_of};
use roster_problem::Problem;
use std::alloc::Global;

/// The next month's book.
#[derive(Drop)]
pub struct CarriedBook {
    /// Its text.
    pub text: Vec<u8>,
    /// What it asks to be rostered: nothing yet.
    pub problem: Problem,
}

/// The next month's book that was read, if it is its.
fn made(
    alloc: Global,
    book: &Problem,
    places: &[u16],
    before: &[Before],
    zones: &[BaseZone],
    read: MadeBook,
) -> Result<CarriedBook, Unmade>
    requires covers { length places.now ≡ length book.now.pairings }
    requires before { length before.now ≡ length book.now.persons }
    requires read { IsRead read }
    ensures made { IfOk result (IsMade book.now places.now before.now) }
    ensures fault { IfErr result TellsFault }
{
    let MadeBook { text, problem } = read;
    if is_carried(alloc, book, places, before, zones, &problem)? {
        Ok(CarriedBook { text, problem })
    } else {
        Err(Unmade::Unlike)
    }
}

/// The next month's book, of a book whose bytes are the text, of a roster of it, and of what each person has
/// flown before. None is given if it would have a fault, as two duties of a person that overlap, or more
/// minutes than a book may have.
pub fn carry(
    alloc: Global,
    text: &[u8],
    book: &Problem,
    places: &[u16],
    before: &[Before],
) -> Result<CarriedBook, Unmade>
    requires covers { length places.now ≡ length book.now.pairings }
    requires before { length before.now ≡ length book.now.persons }
    ensures made { IfOk result (IsMade book.now places.now before.now) }
    ensures fault { IfErr result TellsFault }
{
    let zones = zones_in(alloc, text)?;
    let Some(text) = carried_text(alloc, text, book, places, before)? else {
        return Err(Unmade::Unlike);
    };
    match book_of(alloc, text) {
        Ok(read) => made(alloc, book, places, before, &zones, read),
        Err(why) => Err(why),
    }
}

/// The same by a ledger: what it has of each person before the book's month, as far as it counts in the next.
pub fn carry_by_ledger(
    alloc: Global,
    text: &[u8],
    book: &Problem,
    places: &[u16],
    ledger: &[Flown],
) -> Result<CarriedBook, Unmade>
    requires { length places.now ≡ length book.now.pairings }
    ensures made { IfOk result (IsMade book.now places.now
        (map (months.by_ledger book.now.period ledger.now) book.now.persons)) }
    ensures fault { IfErr result TellsFault }
{
    match by_ledger(alloc, book, ledger)? {
        Some(before) => carry(alloc, text, book, places, &before),
        None => Err(Unmade::Unlike),
    }
}

/// The same without a ledger, by what the book itself has of each person: of the twelve months before the
/// next one all are counted, so `ELEVEN` may be more than it is, and never less.
pub fn carry_by_book(
    alloc: Global,
    text: &[u8],
    book: &Problem,
    places: &[u16],
) -> Result<CarriedBook, Unmade>
    requires { length places.now ≡ length book.now.pairings }
    ensures made { IfOk result (IsMade book.now places.now (map months.by_book book.now.persons)) }
    ensures fault { IfErr result TellsFault }
{
    let before = by_book(alloc, book)?;
    carry(alloc, text, book, places, &before)
}
