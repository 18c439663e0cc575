//! What stands at a place of a list.

/// The number at a place of a list, or 0.
pub(crate) fn amount_at(amounts: &[i64], i: usize) -> i64 {
    match amounts.get(i) {
        Some(amount) => *amount,
        None => 0,
    }
}

/// The pairing at a place of a list, or 0.
pub(crate) fn place_at(places: &[u16], i: usize) -> usize {
    match places.get(i) {
        Some(place) => usize::from(*place),
        None => 0,
    }
}

/// The flight at a place of the list; nothing if there is no such place.
pub(crate) fn flight_at(flights: &[u64], p: usize) -> u64 {
    match flights.get(p) {
        Some(flight) => *flight,
        None => 0,
    }
}

/// Whether the one at this place is marked.
pub(crate) fn is_marked(marks: &[bool], k: usize) -> bool {
    match marks.get(k) {
        Some(is_marked) => *is_marked,
        None => false,
    }
}
