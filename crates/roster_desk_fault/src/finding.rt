//! What is wrong with a record: the field, what is wanted, and the other record that it is about.

use crate::forms::{is_formed, is_within, wanted_form, wanted_limits};
use crate::kinds::{Form, Kind};
use crate::names::{find_not_given, find_twice};
use crate::seen::{Other, Seen};
use crate::times::{find_busy, find_out_of_sequence, find_out_of_window, find_wrong_start};
use roster_instants::{BaseDays, ZoneFault};
use std::alloc::{AllocError, Global};
use std::str;

/// What is wrong with a record.
#[derive(Drop)]
pub(crate) struct Finding {
    /// The place of the field, from 0 for the kind.
    pub(crate) field: usize,
    /// What is wanted.
    pub(crate) wanted: String,
    /// The other record.
    pub(crate) other: Option<Other>,
}

impl Finding {
    /// A finding of a field without another record.
    pub(crate) fn plain(alloc: Global, field: usize, wanted: &str) -> Result<Finding, AllocError> {
        Finding::with(alloc, field, wanted, None)
    }

    /// A finding of a field.
    pub(crate) fn with(
        alloc: Global,
        field: usize,
        wanted: &str,
        other: Option<Other>,
    ) -> Result<Finding, AllocError> {
        Ok(Finding {
            field,
            wanted: String::from_str(alloc, wanted)?,
            other,
        })
    }
}

/// What is wanted of the first record of a book.
pub(crate) const MONTH_FIRST: &str = "period and the month: period,2024-06";

/// What is wrong with the first record of a book that doesn't begin with its month.
fn find_no_period(alloc: Global, seen: Seen<'_>) -> Result<Finding, AllocError> {
    let kind = seen.row.field(0);
    let wanted = if kind.contains(&b';') {
        "period and the month, parted by commas: period,2024-06"
    } else if kind.contains(&b'\0') || !kind.is_ascii() {
        "period and the month as UTF-8 text: period,2024-06; the file may be UTF-16"
    } else {
        MONTH_FIRST
    };
    Finding::plain(alloc, 0, wanted)
}

/// The kind that a word may stand for if it is written otherwise.
fn kind_alike(word: &[u8]) -> Option<Kind> {
    let trimmed = word.trim_ascii();
    for &kind in &Kind::ALL {
        if trimmed.eq_ignore_ascii_case(kind.word().as_bytes()) {
            return Some(kind);
        }
    }
    None
}

/// What is wrong with a record of no kind of a check.
fn find_unknown_kind(alloc: Global, seen: Seen<'_>) -> Result<Finding, AllocError> {
    let word = seen.row.field(0);
    if let Some(kind) = kind_alike(word) {
        let word = kind.word();
        let wanted = format!(in alloc; "{word}, in small letters and without a space")?;
        return Finding::plain(alloc, 0, wanted.as_str());
    }
    if word == b"step".as_slice() {
        return Finding::plain(alloc, 0, "no step: only a replay reads one");
    }
    Finding::plain(alloc, 0, all_words(alloc)?.as_str())
}

/// The words of all kinds of a check: `period, weight, .. or assign`.
fn all_words(alloc: Global) -> Result<String, AllocError> {
    let mut words = String::new(alloc);
    for (at, kind) in Kind::ALL.iter().enumerate() {
        if at + 1 == Kind::ALL.len() {
            words.push_str(" or ")?;
        } else if at > 0 {
            words.push_str(", ")?;
        }
        words.push_str(kind.word())?;
    }
    Ok(words)
}

/// What is asked of a field by itself.
#[derive(Clone, Copy)]
enum Test {
    /// Whether it is of its form.
    Form,
    /// Whether it is within its limits.
    Limits,
}

impl Test {
    /// Whether the text of a field of the form passes.
    fn passes(self, form: Form, text: &[u8]) -> bool {
        match self {
            Test::Form => is_formed(form, text),
            Test::Limits => is_within(form, text),
        }
    }
}

/// The first field of the record that fails the test, with its form; a field that isn't there is an empty
/// one.
fn first_failing(seen: Seen<'_>, kind: Kind, test: Test) -> Option<(usize, Form)> {
    for i in 1..kind.columns() {
        let form = kind.form(i)?;
        if !test.passes(form, seen.row.field(i)) {
            return Some((i, form));
        }
    }
    None
}

/// Whether a field of the record has a line end in it, as after a quote that isn't closed.
fn has_line_end(seen: Seen<'_>) -> bool {
    for i in 0..seen.row.len() {
        if seen.row.field(i).contains(&b'\n') {
            return true;
        }
    }
    false
}

/// The field at which a record of too few or too many fields goes wrong.
fn field_of_count(seen: Seen<'_>, kind: Kind) -> usize {
    let unformed = first_failing(seen, kind, Test::Form).map_or(kind.columns(), |found| found.0);
    if kind == Kind::Base {
        unformed.min(2)
    } else if seen.row.len() < kind.columns() {
        unformed.min(seen.row.len())
    } else {
        unformed
    }
}

/// What is wrong with a record of another number of fields than its kind.
fn find_count(alloc: Global, seen: Seen<'_>, kind: Kind) -> Result<Finding, AllocError> {
    let (has, columns, layout) = (seen.row.len(), kind.columns(), kind.layout());
    let hint = if has_line_end(seen) {
        "; a quote may not be closed"
    } else if kind == Kind::Base && has > columns {
        "; a zone text with commas stands in double quotes"
    } else if has > columns && seen.row.field(has - 1).is_empty() {
        "; empty fields at the end go away"
    } else {
        ""
    };
    let wanted = format!(in alloc; "{columns} fields in place of {has}, as in {layout}{hint}")?;
    Finding::plain(alloc, field_of_count(seen, kind), wanted.as_str())
}

/// What is wrong with a field that isn't of its form.
fn find_form(alloc: Global, seen: Seen<'_>, kind: Kind) -> Result<Finding, AllocError> {
    match first_failing(seen, kind, Test::Form) {
        Some((i, form)) => {
            let wanted = wanted_form(alloc, form, seen.row.field(i))?;
            Finding::plain(alloc, i, wanted.as_str())
        }
        None => Finding::plain(alloc, 0, kind.layout()),
    }
}

/// What is wrong with a number that is outside its limits.
fn find_limit(alloc: Global, seen: Seen<'_>, kind: Kind) -> Result<Finding, AllocError> {
    match first_failing(seen, kind, Test::Limits) {
        Some((i, form)) => {
            let wanted = wanted_limits(alloc, form)?;
            Finding::plain(alloc, i, wanted.as_str())
        }
        None => Finding::plain(alloc, 0, kind.layout()),
    }
}

/// Why the zone text gives no days in this month.
fn zone_reason(alloc: Global, seen: Seen<'_>) -> Result<&'static str, AllocError> {
    let rule = "a POSIX rule, as UTC0 or \"CET-1CEST,M3.5.0,M10.5.0/3\"";
    let (Ok(zone), Some(period)) = (str::from_utf8(seen.row.field(2)), seen.period()) else {
        return Ok(rule);
    };
    match BaseDays::build(alloc, zone, period) {
        Err(ZoneFault::Memory) => Err(AllocError),
        Err(ZoneFault::NotMinutes) => {
            Ok("clocks that show midnight, 08:00 and 22:00 at whole minutes")
        }
        Err(ZoneFault::NotRising) => {
            Ok("clocks on which midnight, 08:00, 22:00 and the next midnight follow one another")
        }
        _ => Ok(rule),
    }
}

/// What is wrong with a record that is one too many of its kind.
fn find_no_room(alloc: Global, seen: Seen<'_>, kind: Kind) -> Result<Finding, AllocError> {
    let (word, most) = (kind.word(), kind.most().unwrap_or(0));
    let all = seen.rows.iter().filter(|row| row.is(kind)).count();
    let wanted = format!(in alloc; "{most} records of {word} at most; the book has {all}")?;
    Finding::plain(alloc, 0, wanted.as_str())
}

/// What is wrong with a pairing that has no duty.
fn find_no_duty(alloc: Global, seen: Seen<'_>) -> Result<Finding, AllocError> {
    let other = seen
        .elsewhere(Kind::Duty, 3, seen.row.field(1))
        .map(|place| Other {
            place,
            relation: "would be a duty of it, and is refused itself",
        });
    let wanted = "a duty,ID,P,... record that names the pairing";
    Finding::with(alloc, 1, wanted, other)
}

/// What is wrong with the record of a kind, by the number of the code.
fn find_of_kind(
    alloc: Global,
    seen: Seen<'_>,
    kind: Kind,
    code: u8,
) -> Result<Finding, AllocError> {
    match code {
        3 => find_count(alloc, seen, kind),
        4 => find_form(alloc, seen, kind),
        5 => find_limit(alloc, seen, kind),
        6 => find_twice(alloc, seen, kind),
        7 => find_not_given(alloc, seen, kind),
        8 => find_out_of_sequence(alloc, seen, kind),
        9 => find_out_of_window(alloc, seen, kind),
        10 => Finding::plain(alloc, 2, zone_reason(alloc, seen)?),
        11 => find_no_room(alloc, seen, kind),
        12 => find_wrong_start(alloc, seen),
        13 => find_busy(alloc, seen, kind),
        14 => find_no_duty(alloc, seen),
        _ => Finding::plain(alloc, 0, kind.layout()),
    }
}

/// What is wrong with the record, by the number of the code that a check tells of it.
pub(crate) fn find(alloc: Global, seen: Seen<'_>, code: u8) -> Result<Finding, AllocError> {
    match seen.row.kind() {
        _ if code == 1 => find_no_period(alloc, seen),
        Some(kind) if code != 2 => find_of_kind(alloc, seen, kind, code),
        _ => find_unknown_kind(alloc, seen),
    }
}
