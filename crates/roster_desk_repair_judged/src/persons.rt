//! Whether the persons are the same, and their leave.

ghost use Rattle.std.specs.Prelude.{◌≡◌, ◌<◌, IsTrue, length, map};
ghost use Rattle.roster_desk_repair_terms.specs.Repaired.{name_of, IsSamePerson};

use roster_desk_same::are_same_days;
use roster_problem::{Base, Leave, Person, Problem};

/// Whether two bases are the same.
fn is_same_base(a: &Base, b: &Base) -> bool
    ensures { IsTrue result → a.now ≡ b.now }
{
    a.id.as_bytes() == b.id.as_bytes() && are_same_days(&a.days, &b.days)
}

/// Whether person `k` is the same in both books.
pub(crate) fn is_same_person(book: &Problem, repaired: &Problem, k: usize) -> bool
    requires book { k < length book.now.persons }
    requires repaired { k < length repaired.now.persons }
    ensures { IsTrue result → IsSamePerson book.now repaired.now k }
{
    let (before, after) = (book.person(k), repaired.person(k));
    after.target == before.target
        && after.year == before.year
        && after.eleven == before.eleven
        && is_same_base(repaired.home(k), book.home(k))
}

/// Whether the persons have the same names, in the same order.
pub(crate) fn have_same_names(before: &[Person], after: &[Person]) -> bool
    ensures { IsTrue result → map name_of after.now ≡ map name_of before.now }
{
    match before.split_first() {
        None => after.is_empty(),
        Some((a, others)) => match after.split_first() {
            None => false,
            Some((b, rest)) => {
                b.id.as_bytes() == a.id.as_bytes() && have_same_names(others, rest)
            }
        },
    }
}

/// Whether two leaves are the same.
fn is_same_leave(a: &Leave, b: &Leave) -> bool
    ensures { IsTrue result → a.now ≡ b.now }
{
    a.person == b.person && a.from == b.from && a.to == b.to
}

/// Whether the leaves are the same, in the same order.
pub(crate) fn are_same_leaves(before: &[Leave], after: &[Leave]) -> bool
    ensures { IsTrue result → after.now ≡ before.now }
{
    match before.split_first() {
        None => after.is_empty(),
        Some((a, others)) => match after.split_first() {
            None => false,
            Some((b, rest)) => is_same_leave(b, a) && are_same_leaves(others, rest),
        },
    }
}
