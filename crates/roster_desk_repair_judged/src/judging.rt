//! Whether a book is a repair.

ghost use Rattle.std.specs.Prelude.{◌≡◌, ◌<◌, ℕ, IsTrue, length, map};
ghost use Rattle.roster_desk_repair_terms.specs.Fixed.{staying, unnumbered};
ghost use Rattle.roster_desk_repair_terms.specs.Repaired.{IsRepair, IsSamePerson};
ghost use Rattle.roster_desk_repair_judged.specs.Terms as asked;

use crate::duties::are_kept;
use crate::persons::{are_same_leaves, have_same_names, is_same_person};
use crate::terms::Terms;
use crate::units::are_units_from;
use roster_model::limits::MOST_PAIRINGS;
use roster_problem::{Pairing, Problem, open_number};

/// Whether two pairings are the same.
pub(crate) fn is_same_pairing(a: &Pairing, b: &Pairing) -> bool
    ensures { IsTrue result → unnumbered a.now ≡ unnumbered b.now }
{
    a.id.as_bytes() == b.id.as_bytes() && a.base == b.base && a.penalty == b.penalty
}

/// Whether the pairings are those of the book that are rostered anew.
fn are_staying(fixed: &[Option<u16>], before: &[Pairing], after: &[Pairing]) -> bool
    ensures { IsTrue result
        → map unnumbered after.now ≡ staying fixed.now (map unnumbered before.now) }
{
    match fixed.split_first() {
        None => after.is_empty(),
        Some((first, later)) => match before.split_first() {
            None => after.is_empty(),
            Some((pairing, others)) => {
                if first.is_some() {
                    return are_staying(later, others, after);
                }
                match after.split_first() {
                    None => false,
                    Some((same, rest)) => {
                        is_same_pairing(same, pairing) && are_staying(later, others, rest)
                    }
                }
            }
        },
    }
}

/// Whether the persons of both books are the same.
pub(crate) fn are_same_persons(book: &Problem, repaired: &Problem) -> bool
    ensures count { IsTrue result → length repaired.now.persons ≡ length book.now.persons }
    ensures same { IsTrue result
        → (k : ℕ) → k < length book.now.persons → IsSamePerson book.now repaired.now k }
{
    if repaired.persons().len() != book.persons().len() {
        return false;
    }
    for k in 0..book.persons().len() {
        if !is_same_person(book, repaired, k) {
            return false;
        }
    }
    true
}

/// Whether the other book is the repair of the book that the terms ask for, of the published roster and of
/// what is fixed of it.
pub fn is_repair(
    book: &Problem,
    published: &[u16],
    fixed: &[Option<u16>],
    terms: &Terms,
    repaired: &Problem,
) -> bool
    requires { length published.now ≡ length book.now.pairings }
    ensures { IsTrue result → IsRepair book.now published.now fixed.now
        (asked.price_at book.now terms.now) repaired.now }
{
    prove!(book.pairings().len() <= MOST_PAIRINGS);
    repaired.weight() == book.weight()
        && are_same_persons(book, repaired)
        && have_same_names(book.persons(), repaired.persons())
        && are_same_leaves(book.leaves(), repaired.leaves())
        && are_staying(fixed, book.pairings(), repaired.pairings())
        && are_kept(open_number(book), fixed, book.duties(), repaired.duties())
        && are_units_from(book, repaired, terms, published, fixed, 0, 0)
}
