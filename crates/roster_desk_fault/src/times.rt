//! Times that are out of sequence, out of the window, out of the month, or shared.

use crate::finding::Finding;
use crate::kinds::Kind;
use crate::rows::Record;
use crate::seen::{Other, Seen, Span};
use roster_desk_words::instant;
use roster_instants::read_minute;
use std::alloc::{AllocError, Global};

/// The places of the fields at which a record of the kind begins and ends.
pub(crate) fn ends_of(kind: Kind) -> (usize, usize) {
    match kind {
        Kind::Duty => (5, 6),
        Kind::Sector => (3, 4),
        _ => (2, 3),
    }
}

/// When a record begins and ends, if it is of a kind that does.
pub(crate) fn span_of(row: &Record) -> Option<Span> {
    let kind = row.kind()?;
    let (from, to) = ends_of(kind);
    Span::read(row, from, to)
}

/// The record at a place, as one that the fault is about.
fn other(place: Option<usize>, relation: &'static str) -> Option<Other> {
    Some(Other {
        place: place?,
        relation,
    })
}

/// Whether the field of this record is before that of the other one.
fn is_before(seen: Seen<'_>, field: usize, place: Option<usize>, other_field: usize) -> bool {
    let Some(row) = place.and_then(|place| seen.rows.get(place)) else {
        return false;
    };
    match (
        read_minute(seen.row.field(field)),
        read_minute(row.field(other_field)),
    ) {
        (Some(here), Some(there)) => here < there,
        _ => false,
    }
}

/// What is wrong with the times of a sector that ends after it begins.
fn find_sector(alloc: Global, seen: Seen<'_>) -> Result<Finding, AllocError> {
    let duty = seen.given(Kind::Duty, 1, seen.row.field(1));
    let last = seen.last_sector(seen.row.field(1));
    if is_before(seen, 3, duty, 5) {
        let wanted = "an instant no earlier than the duty's REPORT";
        return Finding::with(alloc, 3, wanted, other(duty, "is the duty"));
    }
    if is_before(seen, 3, last, 4) {
        let wanted = "an instant no earlier than the ON of the duty's last given sector";
        return Finding::with(alloc, 3, wanted, other(last, "is that sector"));
    }
    let wanted = "an instant no later than the duty's RELEASE";
    Finding::with(alloc, 4, wanted, other(duty, "is the duty"))
}

/// What is wrong with a record whose times don't follow one another.
pub(crate) fn find_out_of_sequence(
    alloc: Global,
    seen: Seen<'_>,
    kind: Kind,
) -> Result<Finding, AllocError> {
    let (from, to) = ends_of(kind);
    let is_rising = Span::read(seen.row, from, to).is_some_and(|span| span.from < span.to);
    if !is_rising {
        let wanted = match kind {
            Kind::Duty => "an instant after REPORT",
            Kind::Sector => "an instant after OFF",
            _ => "an instant after FROM",
        };
        return Finding::plain(alloc, to, wanted);
    }
    if kind == Kind::Sector {
        return find_sector(alloc, seen);
    }
    let last = seen.last_duty(seen.row.field(3));
    let wanted = "an instant no earlier than the RELEASE of the pairing's last given duty";
    Finding::with(alloc, from, wanted, other(last, "is that duty"))
}

/// What is wrong with a record that reaches out of the window.
pub(crate) fn find_out_of_window(
    alloc: Global,
    seen: Seen<'_>,
    kind: Kind,
) -> Result<Finding, AllocError> {
    let (from, to) = ends_of(kind);
    let base = seen.base_name().unwrap_or(b"");
    let Some(days) = seen.days_at(alloc, base)? else {
        return Finding::plain(alloc, from, "an instant of the window round the month");
    };
    let (first, last) = (days.mid(0), days.mid(days.days()));
    let is_early = read_minute(seen.row.field(from)).is_some_and(|minute| minute < first);
    let first = instant(alloc, first)?;
    let last = instant(alloc, last)?;
    let wanted = format!(in alloc;
        "an instant of the window round the month, which is {first} to {last} at this base"
    )?;
    Finding::plain(alloc, if is_early { from } else { to }, wanted.as_str())
}

/// What is wrong with the first duty of a pairing, which reports elsewhere or out of the month.
pub(crate) fn find_wrong_start(alloc: Global, seen: Seen<'_>) -> Result<Finding, AllocError> {
    let base = seen.base_name().unwrap_or(b"");
    let pairing = seen.given(Kind::Pairing, 1, seen.row.field(3));
    if seen.row.field(4) != base {
        let wanted = "the pairing's base, at which its first duty reports";
        return Finding::with(alloc, 4, wanted, other(pairing, "is the pairing"));
    }
    let Some(days) = seen.days_at(alloc, base)? else {
        return Finding::plain(alloc, 5, "an instant of the month");
    };
    let first = instant(alloc, days.month_start())?;
    let last = instant(alloc, days.month_end())?;
    let wanted = format!(in alloc;
        "an instant of the month, which is {first} to {last} at this base, its end not counted"
    )?;
    Finding::with(alloc, 5, wanted.as_str(), other(pairing, "is the pairing"))
}

/// Whether the record is a fixed duty or a leave of the person.
fn is_of_person(row: &Record, person: &[u8]) -> bool {
    row.has(Kind::Leave, 1, person)
        || row.has(Kind::Duty, 3, person) && row.field(2) == b"C".as_slice()
}

/// The first record before this one that is a fixed duty or leave of the person in the time.
fn busy_at(seen: Seen<'_>, person: &[u8], span: Span) -> Option<usize> {
    for (place, row) in seen.rows.iter().enumerate() {
        if place >= seen.at {
            return None;
        }
        if !row.left_out && is_of_person(row, person) {
            if span_of(row).is_some_and(|there| there.shares(span)) {
                return Some(place);
            }
        }
    }
    None
}

/// What is wrong with a fixed duty or leave in whose minutes the person is busy.
pub(crate) fn find_busy(alloc: Global, seen: Seen<'_>, kind: Kind) -> Result<Finding, AllocError> {
    let (from, to) = ends_of(kind);
    let person = if kind == Kind::Duty {
        seen.row.field(3)
    } else {
        seen.row.field(1)
    };
    let Some(span) = Span::read(seen.row, from, to) else {
        return Finding::plain(alloc, from, "times in which the person is free");
    };
    let place = busy_at(seen, person, span);
    let there = place.and_then(|place| seen.rows.get(place));
    let begins_in = there
        .and_then(|row| span_of(row))
        .is_some_and(|there| there.from <= span.from);
    Finding::with(
        alloc,
        if begins_in { from } else { to },
        "times in which the person has no other fixed duty or leave",
        other(place, "shares minutes with it"),
    )
}
