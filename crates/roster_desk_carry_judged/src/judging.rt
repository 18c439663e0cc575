//! Whether a book is the next month's.

ghost use Rattle.std.specs.Prelude.{◌≡◌, ◌<◌, ℕ, [], IfOk, IsTrue, length};
ghost use Rattle.roster_desk_carry_judged.specs.Carried.{IsCarried, IsCarriedPerson, IsOfNextMonth};

use crate::clocks::BaseZone;
use crate::ledger::Before;
use crate::months::is_next;
use crate::persons::is_carried_person;
use roster_problem::Problem;
use std::alloc::{AllocError, Global};

/// Whether all persons are the same, with what they carry.
fn are_carried_persons(
    alloc: Global,
    book: &Problem,
    places: &[u16],
    before: &[Before],
    zones: &[BaseZone],
    next: &Problem,
) -> Result<bool, AllocError>
    requires covers { length places.now ≡ length book.now.pairings }
    requires before { length before.now ≡ length book.now.persons }
    requires none { next.now.pairings ≡ [] }
    requires persons { length next.now.persons ≡ length book.now.persons }
    ensures { IfOk result (λ are. IsTrue are → (k : ℕ) → k < length book.now.persons
        → IsCarriedPerson book.now places.now before.now next.now k) }
{
    for k in 0..book.persons().len() {
        if !is_carried_person(alloc, book, places, before, zones, next, k)? {
            return Ok(false);
        }
    }
    Ok(true)
}

/// Whether the other book is of the next month and as many persons, and has no pairing.
fn is_of_next_month(book: &Problem, next: &Problem) -> bool
    ensures { IsTrue result → IsOfNextMonth book.now next.now }
{
    is_next(book.period(), next.period())
        && next.weight() == book.weight()
        && next.pairings().is_empty()
        && next.persons().len() == book.persons().len()
}

/// Whether the other book is what the next month has of the book, the roster and what was flown before: it
/// has the same persons, each with the duties and the leave that lie in its window, and no pairing.
pub fn is_carried(
    alloc: Global,
    book: &Problem,
    places: &[u16],
    before: &[Before],
    zones: &[BaseZone],
    next: &Problem,
) -> Result<bool, AllocError>
    requires covers { length places.now ≡ length book.now.pairings }
    requires before { length before.now ≡ length book.now.persons }
    ensures { IfOk result (λ is. IsTrue is → IsCarried book.now places.now before.now next.now) }
{
    if !is_of_next_month(book, next) {
        return Ok(false);
    }
    let are_carried = are_carried_persons(alloc, book, places, before, zones, next)?;
    Ok(are_carried)
}
