//! Names that are given twice, or weren't given.

use crate::finding::Finding;
use crate::kinds::Kind;
use crate::seen::{Other, Seen};
use std::alloc::{AllocError, Global};

/// The first record before this one that gives the same: a month, a weight, or a name of the kind.
fn first_given(seen: Seen<'_>, kind: Kind) -> Option<usize> {
    for (place, row) in seen.rows.iter().enumerate() {
        let is_alike = match kind {
            Kind::Period | Kind::Weight => true,
            Kind::Cost => { row.field(1) == seen.row.field(1) && row.field(2) == seen.row.field(2) }
            _ => row.field(1) == seen.row.field(1),
        };
        if place < seen.at && !row.left_out && row.is(kind) && is_alike {
            return Some(place);
        }
    }
    None
}

/// What is wrong with a record that gives something a second time.
pub(crate) fn find_twice(alloc: Global, seen: Seen<'_>, kind: Kind) -> Result<Finding, AllocError> {
    let (field, wanted) = match kind {
        Kind::Period => (1, "one month in a book"),
        Kind::Weight => (1, "one weight in a book"),
        Kind::Cost => (2, "one record for a person and a pairing"),
        Kind::Assign => (1, "one record for a pairing"),
        _ => (1, "a name that no earlier record of the kind has"),
    };
    let other = first_given(seen, kind).map(|place| Other {
        place,
        relation: "gives it first",
    });
    Finding::with(alloc, field, wanted, other)
}

/// The field that names what wasn't given, and the kind that would give it.
fn not_given(seen: Seen<'_>, kind: Kind) -> (usize, Kind) {
    match kind {
        Kind::Crew | Kind::Pairing => (2, Kind::Base),
        Kind::Duty if seen.row.field(2) == b"P".as_slice() => (3, Kind::Pairing),
        Kind::Duty => (3, Kind::Crew),
        Kind::Sector => (1, Kind::Duty),
        Kind::Cost if seen.is_named(Kind::Crew, seen.row.field(1)) => (2, Kind::Pairing),
        Kind::Assign if !seen.is_named(Kind::Pairing, seen.row.field(1)) => (1, Kind::Pairing),
        Kind::Assign => (2, Kind::Crew),
        _ => (1, Kind::Crew),
    }
}

/// A kind whose names may be taken for those of the other one.
fn mistaken_for(kind: Kind) -> Kind {
    match kind {
        Kind::Crew => Kind::Pairing,
        Kind::Pairing => Kind::Crew,
        Kind::Duty => Kind::Pairing,
        _ => Kind::Base,
    }
}

/// A record that may be meant: one below or refused that gives the name, one whose name differs in small
/// and large letters, or one of another kind.
fn meant(seen: Seen<'_>, wanted: Kind, name: &[u8]) -> Option<Other> {
    if let Some(place) = seen.elsewhere(wanted, 1, name) {
        let is_refused = seen.rows.get(place).is_some_and(|row| row.left_out);
        let relation = if is_refused {
            "would give it, and is refused itself"
        } else {
            "gives it, but stands below"
        };
        return Some(Other { place, relation });
    }
    if let Some(place) = seen.named_alike(wanted, name) {
        return Some(Other {
            place,
            relation: "differs in small and large letters only",
        });
    }
    let place = seen.given(mistaken_for(wanted), 1, name)?;
    Some(Other {
        place,
        relation: "gives the name, but is of another kind",
    })
}

/// What is wrong with a record that names what wasn't given.
pub(crate) fn find_not_given(
    alloc: Global,
    seen: Seen<'_>,
    kind: Kind,
) -> Result<Finding, AllocError> {
    let (field, wanted) = not_given(seen, kind);
    let text = match wanted {
        Kind::Base => "a base that an earlier record gives",
        Kind::Pairing => "a pairing that an earlier record gives",
        Kind::Duty => "a duty that an earlier record gives",
        _ => "a person that an earlier record gives",
    };
    let other = meant(seen, wanted, seen.row.field(field));
    Finding::with(alloc, field, text, other)
}
