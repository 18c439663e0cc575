//! Who is near to having a pairing that is open. Nothing rests on it.

use crate::sets::set_at;
use roster_lines::Pairs;
use roster_problem::{Problem, open_number};
use roster_values::Set;

/// The first open pairing from place `first` on, round the end, that one of these persons may have alone.
pub(crate) fn open_from(
    problem: &Problem,
    pairs: &[Pairs],
    places: &[u16],
    persons: &[usize],
    first: usize,
) -> Option<usize> {
    let nobody = open_number(problem);
    for step in 0..places.len() {
        let p = first.wrapping_add(step) % places.len();
        if places.get(p) == Some(&nobody) && may_have(pairs, persons, p) {
            return Some(p);
        }
    }
    None
}

/// Whether one of these persons may have pairing `p` alone.
fn may_have(pairs: &[Pairs], persons: &[usize], p: usize) -> bool {
    for k in persons {
        if let Some(own) = pairs.get(*k) {
            if own.alone.has(p) {
                return true;
            }
        }
    }
    false
}

/// Which of these persons would give up the fewest pairings for pairing `p`, so far as pairs tell it: the
/// first of them from one on, round the end.
pub(crate) fn nearest(
    pairs: &[Pairs],
    places: &[u16],
    persons: &[usize],
    p: usize,
    first: usize,
) -> Option<usize> {
    let mut least = usize::MAX;
    let mut found = None;
    for step in 0..persons.len() {
        let i = first.wrapping_add(step) % persons.len();
        if let Some(k) = persons.get(i) {
            let hindering = hindering(pairs, places, *k, p);
            if hindering < least {
                least = hindering;
                found = Some(i);
            }
        }
    }
    found
}

/// How many pairings of person `k` aren't legal with pairing `p`; the most there may be, if `p` isn't legal
/// alone.
fn hindering(pairs: &[Pairs], places: &[u16], k: usize, p: usize) -> usize {
    let Some(own) = pairs.get(k) else {
        return usize::MAX;
    };
    if !own.alone.has(p) {
        return usize::MAX;
    }
    let mut count: usize = 0;
    for (q, number) in places.iter().enumerate() {
        if usize::from(*number) == k && !row_of(own, p.min(q)).has(p.max(q)) {
            count = count.wrapping_add(1);
        }
    }
    count
}

/// The later pairings that are legal with pairing `p`.
fn row_of(pairs: &Pairs, p: usize) -> Set {
    set_at(&pairs.rows, p)
}
