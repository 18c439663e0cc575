//! Whether each pairing costs its owner so much less.

ghost use Rattle.std.specs.Prelude.{◌≡◌, ◌≤◌, ◌+◌, IsTrue, length, pos};
ghost use Rattle.roster_model.specs.declared.limits.TheConstants.{MOST_PAIRINGS};
ghost use Rattle.roster_desk_repair_terms.specs.Moves.{less_for};
ghost use Rattle.roster_desk_repair_terms.specs.Repaired.{AreUnitsAt, AreUnitsFrom};
ghost use Rattle.roster_desk_repair_judged.specs.Terms as asked;

use crate::terms::{Terms, price_at};
use roster_problem::Problem;

/// What a pairing costs person `k` less than anybody else if it is the one's of the number.
fn less_for(price: u32, number: u16, k: usize) -> i64
    ensures { result ≡ pos (less_for price number k) }
{
    if usize::from(number) == k {
        i64::from(price)
    } else {
        0
    }
}

/// Whether the pairing at place `r` of the repaired book costs each person what the one at place `p` costs,
/// but its owner so much less.
fn are_units_at(
    book: &Problem,
    repaired: &Problem,
    price: u32,
    number: u16,
    p: usize,
    r: usize,
) -> bool
    ensures { IsTrue result → AreUnitsAt book.now repaired.now price number p r }
{
    for k in 0..book.persons().len() {
        if repaired.units(k, r) + less_for(price, number, k) != book.units(k, p) {
            return false;
        }
    }
    true
}

/// Whether each pairing that is rostered anew costs its owner so much less, and each other keeps the number
/// that it is published with. The first ones are at places `p` and `r`.
pub(crate) fn are_units_from(
    book: &Problem,
    repaired: &Problem,
    terms: &Terms,
    published: &[u16],
    fixed: &[Option<u16>],
    p: usize,
    r: usize,
) -> bool
    requires places { p + length published.now ≤ MOST_PAIRINGS }
    requires ranks { r ≤ p }
    ensures { IsTrue result → AreUnitsFrom book.now repaired.now (asked.price_at book.now terms.now) p r
        published.now fixed.now }
{
    match published.split_first() {
        None => fixed.is_empty(),
        Some((number, numbers)) => match fixed.split_first() {
            None => false,
            Some((Some(kept), later)) => {
                *kept == *number && are_units_from(book, repaired, terms, numbers, later, p + 1, r)
            }
            Some((None, later)) => {
                let price = price_at(book, terms, p);
                are_units_at(book, repaired, price, *number, p, r)
                    && are_units_from(book, repaired, terms, numbers, later, p + 1, r + 1)
            }
        },
    }
}
