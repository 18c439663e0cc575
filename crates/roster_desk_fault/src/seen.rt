//! A record that is judged, among the others of its book.

use crate::kinds::Kind;
use crate::rows::Record;
use roster_instants::{BaseDays, Minute, Period, ZoneFault, read_minute};
use std::alloc::{AllocError, Global};
use std::str;

/// A record, and the records of its book. Those that are left out count as not given.
#[derive(Clone, Copy)]
pub(crate) struct Seen<'a> {
    /// All records.
    pub(crate) rows: &'a [Record],
    /// Its place among them.
    pub(crate) at: usize,
    /// The record.
    pub(crate) row: &'a Record,
}

/// Another record that a fault is about.
#[derive(Clone, Copy)]
pub(crate) struct Other {
    /// Its place among all records.
    pub(crate) place: usize,
    /// What it has to do with the fault.
    pub(crate) relation: &'static str,
}

/// When something begins and ends.
#[derive(Clone, Copy)]
pub(crate) struct Span {
    pub(crate) from: Minute,
    pub(crate) to: Minute,
}

impl Span {
    /// The time from one field to another, if both are instants.
    pub(crate) fn read(row: &Record, from: usize, to: usize) -> Option<Span> {
        Some(Span {
            from: read_minute(row.field(from))?,
            to: read_minute(row.field(to))?,
        })
    }

    /// Whether they share a minute.
    pub(crate) fn shares(self, other: Span) -> bool {
        self.from < other.to && other.from < self.to
    }
}

impl<'a> Seen<'a> {
    /// The place of the first record before this one that is of the kind and has the text at the place.
    pub(crate) fn given(&self, kind: Kind, i: usize, text: &[u8]) -> Option<usize> {
        for (place, row) in self.rows.iter().enumerate() {
            if place >= self.at {
                return None;
            }
            if !row.left_out && row.has(kind, i, text) {
                return Some(place);
            }
        }
        None
    }

    /// The first record before this one that is of the kind and has the text at the place.
    pub(crate) fn given_row(&self, kind: Kind, i: usize, text: &[u8]) -> Option<&'a Record> {
        self.rows.get(self.given(kind, i, text)?)
    }

    /// Whether a record before this one gives the name.
    pub(crate) fn is_named(&self, kind: Kind, name: &[u8]) -> bool {
        self.given(kind, 1, name).is_some()
    }

    /// The place of a record, left out or after this one, that is of the kind and has the text at the
    /// place.
    pub(crate) fn elsewhere(&self, kind: Kind, i: usize, text: &[u8]) -> Option<usize> {
        for (place, row) in self.rows.iter().enumerate() {
            if (row.left_out || place > self.at) && row.has(kind, i, text) {
                return Some(place);
            }
        }
        None
    }

    /// The place of a record of the kind whose name is the same but for small and large letters.
    pub(crate) fn named_alike(&self, kind: Kind, name: &[u8]) -> Option<usize> {
        for (place, row) in self.rows.iter().enumerate() {
            if !row.left_out && row.is(kind) && row.field(1).eq_ignore_ascii_case(name) {
                return Some(place);
            }
        }
        None
    }

    /// The book's month.
    pub(crate) fn period(&self) -> Option<Period> {
        for row in self.rows {
            if !row.left_out {
                return Period::read(row.field(1));
            }
        }
        None
    }

    /// The name of the base at which the record's pairing or person is at home.
    pub(crate) fn base_name(&self) -> Option<&'a [u8]> {
        let holder = match self.row.kind()? {
            Kind::Duty if self.row.field(2) == b"P".as_slice() => {
                self.given_row(Kind::Pairing, 1, self.row.field(3))?
            }
            Kind::Duty => self.given_row(Kind::Crew, 1, self.row.field(3))?,
            Kind::Leave => self.given_row(Kind::Crew, 1, self.row.field(1))?,
            _ => return None,
        };
        Some(holder.field(2))
    }

    /// The days of the window at the base with this name.
    pub(crate) fn days_at(
        &self,
        alloc: Global,
        base: &[u8],
    ) -> Result<Option<BaseDays>, AllocError> {
        let Some(period) = self.period() else {
            return Ok(None);
        };
        let Some(row) = self.given_row(Kind::Base, 1, base) else {
            return Ok(None);
        };
        let Ok(zone) = str::from_utf8(row.field(2)) else {
            return Ok(None);
        };
        match BaseDays::build(alloc, zone, period) {
            Ok(days) => Ok(Some(days)),
            Err(ZoneFault::Memory) => Err(AllocError),
            Err(_) => Ok(None),
        }
    }

    /// The last duty before this record that has the name at the place and the letter.
    pub(crate) fn last_duty(&self, name: &[u8]) -> Option<usize> {
        let mut last = None;
        for (place, row) in self.rows.iter().enumerate() {
            if place >= self.at {
                return last;
            }
            if !row.left_out && row.has(Kind::Duty, 3, name) && row.field(2) == b"P".as_slice() {
                last = Some(place);
            }
        }
        last
    }

    /// The last sector before this record of the duty with the name.
    pub(crate) fn last_sector(&self, duty: &[u8]) -> Option<usize> {
        let mut last = None;
        for (place, row) in self.rows.iter().enumerate() {
            if place >= self.at {
                return last;
            }
            if !row.left_out && row.has(Kind::Sector, 1, duty) {
                last = Some(place);
            }
        }
        last
    }
}
