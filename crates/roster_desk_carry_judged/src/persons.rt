//! Whether persons are the same, with what they carry.

ghost use Rattle.std.specs.Prelude.{◌≡◌, ◌+◌, ◌^◌, ◌<◌, ◌≤◌, [], IfOk, IfSome, IsTrue, None, length};
ghost use Rattle.roster_model.specs.Problem.{eleven_of, year_of};
ghost use Rattle.roster_desk_carry_judged.specs.Carried as spec;
ghost use Rattle.roster_desk_carry_judged.specs.Carried.{HasDuties, HasFlown, HasLeave, HasOneZone};
ghost use Rattle.roster_desk_carry_judged.specs.Carried.{IsCarriedPerson, IsSamePerson};

use crate::clocks::{BaseZone, has_zone};
use crate::duties::{are_carried, duties_in};
use crate::leave::are_parts;
use crate::ledger::Before;
use crate::months::month_of;
use roster_cumulative::month_flight;
use roster_instants::Period;
use roster_problem::Problem;
use std::alloc::{AllocError, Global};

/// The minutes of flight of person `k` in the month of the book, by the roster.
pub fn flight_in(alloc: Global, book: &Problem, places: &[u16], k: usize) -> Result<u64, AllocError>
    requires covers { length places.now ≡ length book.now.pairings }
    requires person { k < length book.now.persons }
    ensures { IfOk result (λ flight. flight ≡ spec.flight_in book.now places.now k) }
{
    let list = duties_in(alloc, book, places, k)?;
    Ok(month_flight(book.days_of(k), &list) as u64)
}

/// What was flown in the calendar year of the month after this one, by what was flown of it before and in
/// this one; none if that is no machine's number.
pub fn year_after(this: Period, year: u64, flight: u64) -> Option<u64>
    ensures sum { IfSome result (λ minutes. minutes ≡ spec.year_after this year flight) }
    ensures none { result ≡ None → 2 ^ 64 ≤ spec.year_after this year flight }
{
    if month_of(this) == 12 {
        Some(0)
    } else {
        year.checked_add(flight)
    }
}

/// Whether person `k` is the same in the next month's book.
fn is_same_person(book: &Problem, next: &Problem, k: usize) -> bool
    requires book { k < length book.now.persons }
    requires next { k < length next.now.persons }
    ensures { IsTrue result → IsSamePerson book.now next.now k }
{
    let (before, after) = (book.person(k), next.person(k));
    after.id.as_bytes() == before.id.as_bytes()
        && after.target == before.target
        && next.home(k).id.as_bytes() == book.home(k).id.as_bytes()
}

/// The rule of the base's clocks, if it is among them.
fn rule_of<'a>(zones: &'a [BaseZone], base: &[u8]) -> Option<&'a str> {
    for zone in zones {
        if zone.base.as_bytes() == base {
            return Some(zone.rule.as_str());
        }
    }
    None
}

/// Whether the home base of person `k` has the clocks of its rule in both months.
fn has_one_zone(
    alloc: Global,
    zones: &[BaseZone],
    book: &Problem,
    next: &Problem,
    k: usize,
) -> Result<bool, AllocError>
    requires book { k < length book.now.persons }
    requires next { k < length next.now.persons }
    ensures { IfOk result (λ has. IsTrue has → HasOneZone book.now next.now k) }
{
    match rule_of(zones, book.home(k).id.as_bytes()) {
        Some(rule) => has_zone(alloc, rule, book, next, k),
        None => Ok(false),
    }
}

/// Whether person `k` has flown so much more.
fn has_flown(this: Period, before: Before, flight: u64, next: &Problem, k: usize) -> bool
    requires { k < length next.now.persons }
    ensures year { IsTrue result
        → year_of next.now k ≡ spec.year_after this before.year flight }
    ensures eleven { IsTrue result → eleven_of next.now k ≡ before.eleven + flight }
{
    let person = next.person(k);
    let Some(year) = year_after(this, before.year, flight) else {
        return false;
    };
    let Some(eleven) = before.eleven.checked_add(flight) else {
        return false;
    };
    year == u64::from(person.year) && eleven == u64::from(person.eleven)
}

/// Whether person `k` has this month's flight more.
fn has_flight(
    alloc: Global,
    book: &Problem,
    places: &[u16],
    before: &[Before],
    next: &Problem,
    k: usize,
) -> Result<bool, AllocError>
    requires covers { length places.now ≡ length book.now.pairings }
    requires before { length before.now ≡ length book.now.persons }
    requires book { k < length book.now.persons }
    requires next { k < length next.now.persons }
    ensures { IfOk result (λ has. IsTrue has → HasFlown book.now places.now before.now next.now k) }
{
    let flight = flight_in(alloc, book, places, k)?;
    Ok(has_flown(book.period(), before[k], flight, next, k))
}

/// Whether person `k` has just those duties that lie in the next window.
fn has_duties(
    alloc: Global,
    book: &Problem,
    places: &[u16],
    next: &Problem,
    k: usize,
) -> Result<bool, AllocError>
    requires covers { length places.now ≡ length book.now.pairings }
    requires none { next.now.pairings ≡ [] }
    requires book { k < length book.now.persons }
    requires next { k < length next.now.persons }
    ensures { IfOk result (λ has. IsTrue has → HasDuties book.now places.now next.now k) }
{
    let list = duties_in(alloc, book, places, k)?;
    let carried = duties_in(alloc, next, &[], k)?;
    Ok(are_carried(next.days_of(k), &list, 0, &carried, 0))
}

/// Whether person `k` has just those parts of leave that lie there.
fn has_leave(book: &Problem, next: &Problem, k: usize) -> bool
    requires book { k < length book.now.persons }
    requires next { k < length next.now.persons }
    ensures { IsTrue result → HasLeave book.now next.now k }
{
    are_parts(
        next.days_of(k),
        book.leaves(),
        book.leave(k),
        next.leaves(),
        next.leave(k),
    )
}

/// Whether person `k` is the same, with what they carry.
pub(crate) fn is_carried_person(
    alloc: Global,
    book: &Problem,
    places: &[u16],
    before: &[Before],
    zones: &[BaseZone],
    next: &Problem,
    k: usize,
) -> Result<bool, AllocError>
    requires covers { length places.now ≡ length book.now.pairings }
    requires before { length before.now ≡ length book.now.persons }
    requires none { next.now.pairings ≡ [] }
    requires book { k < length book.now.persons }
    requires next { k < length next.now.persons }
    ensures { IfOk result (λ is. IsTrue is
        → IsCarriedPerson book.now places.now before.now next.now k) }
{
    if !is_same_person(book, next, k) || !has_leave(book, next, k) {
        return Ok(false);
    }
    if !has_one_zone(alloc, zones, book, next, k)? {
        return Ok(false);
    }
    if !has_flight(alloc, book, places, before, next, k)? {
        return Ok(false);
    }
    let has_duties = has_duties(alloc, book, places, next, k)?;
    Ok(has_duties)
}
