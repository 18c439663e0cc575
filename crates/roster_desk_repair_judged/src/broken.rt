//! A pairing that breaks off, and whether a book is the one in which what is left of it is another's.

ghost use Rattle.std.specs.Prelude.{◌≡◌, ◌<◌, ◌++◌, ℕ, [], ◌∷◌, IsTrue, Some, filter, length, map, not};
ghost use Rattle.std.specs.List.{list_any};
ghost use Rattle.roster_model.specs.Problem.{units_of};
ghost use Rattle.roster_problem.specs.View.{holder_of};
ghost use Rattle.roster_desk_repair_terms.specs.Fixed.{unnumbered, unrowed};
ghost use Rattle.roster_desk_repair_judged.specs.Broken as spec;
ghost use Rattle.roster_desk_repair_judged.specs.Broken.{IsBrokenOff, is_named, lead};
ghost use Rattle.roster_desk_repair_judged.specs.Broken.{pairings_of_rest, positioning, turned};

use crate::duties::is_kept;
use crate::judging::{are_same_persons, is_same_pairing};
use crate::persons::{are_same_leaves, have_same_names};
use crate::terms::{is_of, minutes, reports_before};
use roster_desk_same::are_same_sectors;
use roster_instants::Minute;
use roster_problem::{Duty, Holder, Pairing, Problem};

/// What becomes of what is left of a pairing that breaks off.
#[derive(Clone, Copy)]
pub enum Rest {
    /// It is a pairing of its own, whose first duty brings somebody there from base.
    Positioned {
        /// When that duty begins.
        report: Minute,
        /// When it ends.
        release: Minute,
    },
    /// It is fixed for a person who is there.
    Stays {
        /// The place of the person.
        person: usize,
    },
}

/// A pairing that breaks off.
#[derive(Clone, Copy)]
pub struct Break {
    /// The place of the pairing.
    pub pairing: usize,
    /// When it breaks off: what reports from then on is left of it.
    pub at: Minute,
    /// What becomes of that.
    pub rest: Rest,
}

/// Whether the duty is left of the pairing.
pub fn is_left(off: &Break, duty: &Duty) -> bool
    ensures { result ≡ spec.is_left off.now duty.now }
{
    is_of(duty, off.pairing) && minutes(off.at) <= minutes(duty.report)
}

/// Whether a duty is left of the pairing.
fn is_any_left(book: &Problem, off: &Break) -> bool
    ensures { result ≡ list_any (spec.is_left off.now) book.now.duties }
{
    book.duties().iter().any(|duty| is_left(off, duty))
}

/// Whether a duty of the pairing reports before it breaks off, and another is left.
pub fn is_under_way(book: &Problem, off: &Break) -> bool
    ensures { result ≡ spec.is_under_way book.now off.now }
{
    reports_before(book, minutes(off.at), off.pairing) && is_any_left(book, off)
}

/// Whose the duty of the book is then.
fn holder_then(book: &Problem, off: &Break, duty: &Duty) -> Holder
    ensures { holder_of result ≡ (turned book.now off.now duty.now).holder }
{
    if !is_left(off, duty) {
        return duty.holder;
    }
    match off.rest {
        Rest::Positioned { .. } => Holder::Pairing(book.pairings().len()),
        Rest::Stays { person } => Holder::Person(person),
    }
}

/// Whether the duty has the name.
fn has_name(duty: &Duty, name: &[u8]) -> bool
    ensures { result ≡ is_named name.now duty.now }
{
    duty.id.as_bytes() == name
}

/// Whether the duties, but for those of the name, are those of the book, with who has them then.
fn are_turned(book: &Problem, off: &Break, name: &[u8], before: &[Duty], after: &[Duty]) -> bool
    ensures { IsTrue result → map unrowed (filter (λ duty. not (is_named name.now duty)) after.now)
        ≡ map (turned book.now off.now) before.now }
{
    match after.split_first() {
        None => before.is_empty(),
        Some((duty, others)) => {
            if has_name(duty, name) {
                return are_turned(book, off, name, before, others);
            }
            match before.split_first() {
                None => false,
                Some((same, rest)) => {
                    is_kept(same, duty, holder_then(book, off, same))
                        && are_turned(book, off, name, rest, others)
                }
            }
        }
    }
}

/// Where the first of the duties of the pairing at place `p` reports.
pub fn station_of(duties: &[Duty], p: usize) -> &[u8]
    ensures { result.now ≡ spec.station_of duties.now p }
{
    match duties.split_first() {
        None => &[],
        Some((duty, others)) => {
            if is_of(duty, p) {
                duty.station.as_bytes()
            } else {
                station_of(others, p)
            }
        }
    }
}

/// Whether the duty has no sectors.
fn has_no_sectors(duty: &Duty) -> bool
    ensures { IsTrue result → duty.now.sectors ≡ [] }
{
    are_same_sectors(&[], duty.sectors.as_slice())
}

/// Whether the duty is one without sectors, of the pairing at place `p`.
fn is_lead(
    duty: &Duty,
    name: &[u8],
    p: usize,
    station: &[u8],
    report: Minute,
    release: Minute,
) -> bool
    ensures { IsTrue result → unrowed duty.now ≡ lead name.now p station.now report release }
{
    duty.id.as_bytes() == name
        && duty.holder == Holder::Pairing(p)
        && duty.station.as_bytes() == station
        && duty.report == report
        && duty.release == release
        && has_no_sectors(duty)
}

/// Whether the duty brings somebody to what is left.
fn is_positioning(book: &Problem, off: &Break, name: &[u8], duty: &Duty) -> bool
    ensures { IsTrue result
        → unrowed duty.now ∷ [] ≡ positioning book.now off.now.pairing name.now off.now.rest }
{
    match off.rest {
        Rest::Stays { .. } => false,
        Rest::Positioned { report, release } => {
            let station = station_of(book.duties(), off.pairing);
            is_lead(duty, name, book.pairings().len(), station, report, release)
        }
    }
}

/// Whether no duty has the name.
fn have_other_names(name: &[u8], duties: &[Duty]) -> bool
    ensures { IsTrue result → filter (is_named name.now) duties.now ≡ [] }
{
    match duties.split_first() {
        None => true,
        Some((duty, others)) => !has_name(duty, name) && have_other_names(name, others),
    }
}

/// Whether one duty has the name, which brings somebody to what is left.
fn has_positioning(book: &Problem, off: &Break, name: &[u8], duties: &[Duty]) -> bool
    ensures { IsTrue result → map unrowed (filter (is_named name.now) duties.now)
        ≡ positioning book.now off.now.pairing name.now off.now.rest }
{
    match duties.split_first() {
        None => false,
        Some((duty, others)) => {
            if has_name(duty, name) {
                is_positioning(book, off, name, duty) && have_other_names(name, others)
            } else {
                has_positioning(book, off, name, others)
            }
        }
    }
}

/// Whether just the duty has the name that brings somebody to what is left, if that is a pairing.
fn is_led(book: &Problem, off: &Break, name: &[u8], duties: &[Duty]) -> bool
    ensures { IsTrue result → map unrowed (filter (is_named name.now) duties.now)
        ≡ positioning book.now off.now.pairing name.now off.now.rest }
{
    match off.rest {
        Rest::Positioned { .. } => has_positioning(book, off, name, duties),
        Rest::Stays { .. } => have_other_names(name, duties),
    }
}

/// Whether the pairing is the other one under this name.
fn is_renamed(after: &Pairing, pairing: &Pairing, name: &[u8]) -> bool
    ensures { IsTrue result → unnumbered after.now ≡ record pairing.now { id = name.now; row = 0 } }
{
    after.id.as_bytes() == name && after.base == pairing.base && after.penalty == pairing.penalty
}

/// Whether the pairings are just that of what is left, if it is one.
fn are_of_rest(off: &Break, name: &[u8], pairing: &Pairing, after: &[Pairing]) -> bool
    ensures { IsTrue result
        → map unnumbered after.now ≡ pairings_of_rest name.now (Some pairing.now) off.now.rest }
{
    match off.rest {
        Rest::Stays { .. } => after.is_empty(),
        Rest::Positioned { .. } => match after.split_first() {
            None => false,
            Some((first, others)) => others.is_empty() && is_renamed(first, pairing, name),
        },
    }
}

/// Whether the pairings are those of the book, and behind them that of what is left, if it is one.
fn are_with_rest(
    off: &Break,
    name: &[u8],
    pairing: &Pairing,
    before: &[Pairing],
    after: &[Pairing],
) -> bool
    ensures { IsTrue result → map unnumbered after.now
        ≡ map unnumbered before.now ++ pairings_of_rest name.now (Some pairing.now) off.now.rest }
{
    match before.split_first() {
        None => are_of_rest(off, name, pairing, after),
        Some((same, others)) => match after.split_first() {
            None => false,
            Some((first, rest)) => {
                is_same_pairing(first, same) && are_with_rest(off, name, pairing, others, rest)
            }
        },
    }
}

/// Whether each pairing costs person `k` the same in both books.
fn are_same_units_of(book: &Problem, broken: &Problem, k: usize) -> bool
    ensures { IsTrue result → (p : ℕ) → p < length broken.now.pairings
        → units_of broken.now k p ≡ units_of book.now k p }
{
    for p in 0..broken.pairings().len() {
        if broken.units(k, p) != book.units(k, p) {
            return false;
        }
    }
    true
}

/// Whether each pairing costs each person the same in both books.
fn are_same_units(book: &Problem, broken: &Problem) -> bool
    ensures { IsTrue result
        → (k p : ℕ) → k < length book.now.persons → p < length broken.now.pairings
        → units_of broken.now k p ≡ units_of book.now k p }
{
    for k in 0..book.persons().len() {
        if !are_same_units_of(book, broken, k) {
            return false;
        }
    }
    true
}

/// Whether the other book is the book in which the pairing breaks off. What is left of it, if it is a pairing,
/// and the duty that brings somebody there have the name.
pub fn is_broken_off(book: &Problem, off: &Break, name: &[u8], broken: &Problem) -> bool
    requires { off.now.pairing < length book.now.pairings }
    ensures { IsTrue result → IsBrokenOff book.now off.now name.now broken.now }
{
    let pairing = book.pairing(off.pairing);
    is_under_way(book, off)
        && broken.weight() == book.weight()
        && are_same_persons(book, broken)
        && have_same_names(book.persons(), broken.persons())
        && are_same_leaves(book.leaves(), broken.leaves())
        && are_with_rest(off, name, pairing, book.pairings(), broken.pairings())
        && are_turned(book, off, name, book.duties(), broken.duties())
        && is_led(book, off, name, broken.duties())
        && are_same_units(book, broken)
}
