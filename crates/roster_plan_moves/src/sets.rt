//! What a search asks of sets and lists.

ghost use Rattle.std.specs.Prelude.{◌≡◌, ◌<◌, true, All};

use roster_model::limits::MOST_PAIRINGS;
use roster_values::Set;

/// Whether all places of the set are below `count`.
pub(crate) fn is_within(set: &Set, count: usize) -> bool
    ensures { result ≡ true → All (λ p. p < count) set.now }
{
    let None = set.first_from(count) else {
        return false;
    };
    true
}

/// Puts the pairing at place `p` into the set, if there may be such a place.
pub(crate) fn add(set: &mut Set, p: usize) {
    if p < MOST_PAIRINGS {
        set.put(p);
    }
}

/// The set of one pairing.
pub(crate) fn only(p: usize) -> Set {
    let mut set = Set::empty();
    add(&mut set, p);
    set
}

/// What is in the set and not in the other.
pub(crate) fn without(set: &Set, other: &Set) -> Set {
    let mut rest = Set::empty();
    let mut from = 0;
    while let Some(p) = set.first_from(from) {
        if !other.has(p) {
            add(&mut rest, p);
        }
        from = p + 1;
    }
    rest
}

/// The set at a place of a list, or none.
pub(crate) fn set_at(sets: &[Set], i: usize) -> Set {
    match sets.get(i) {
        Some(set) => *set,
        None => Set::empty(),
    }
}

/// The number at a place of a list, or 0.
pub(crate) fn amount_at(amounts: &[i64], i: usize) -> i64 {
    match amounts.get(i) {
        Some(amount) => *amount,
        None => 0,
    }
}

/// Whether a base is sought. What is past the list is.
pub(crate) fn is_sought(sought: &[bool], base: usize) -> bool {
    sought.get(base).copied().unwrap_or(true)
}
