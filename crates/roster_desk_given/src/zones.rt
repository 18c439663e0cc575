//! What the clocks of a base show, on `jiff`.

use csv::{ByteRecord, ReaderBuilder};
use jiff::Timestamp;
use jiff::tz::TimeZone;
use roster_instants::Minute;
use std::alloc::{AllocError, Global};
use std::str;

/// How an instant is told: spreadsheets read such a text as a time.
const FORMAT: &str = "%Y-%m-%d %H:%M";

/// What stands in place of an instant that clocks can't show.
const NO_INSTANT: &str = "-";

/// The zones of a book's bases, in book order.
#[derive(Drop)]
pub struct Zones {
    zones: Vec<TimeZone<'static>>,
}

/// Whether it is the record of a base.
fn is_base(fields: &ByteRecord) -> bool {
    fields.get(0).is_some_and(|kind| kind == b"base".as_slice())
}

/// The zone that the third field of a base's record stands for; UTC if it is none, which no book without
/// a fault has.
fn zone_in(fields: &ByteRecord) -> TimeZone<'static> {
    let Ok(text) = str::from_utf8(fields.get(2).unwrap_or(&[])) else {
        return TimeZone::UTC;
    };
    match TimeZone::posix(text) {
        Ok(zone) => zone,
        Err(_) => TimeZone::UTC,
    }
}

/// The zones of the bases of a book, whose bytes are the text.
pub fn read_zones(alloc: Global, text: &[u8]) -> Result<Zones, AllocError> {
    let reader = ReaderBuilder::new()
        .has_headers(false)
        .flexible(true)
        .from_reader(alloc, text);
    let mut zones = Vec::new(alloc);
    for record in reader.into_byte_records() {
        // Bytes that are in memory are read without a fault of a device, and a record may have any number
        // of fields of any bytes: so nothing but want of memory is left.
        let Ok(fields) = record else {
            return Err(AllocError);
        };
        if is_base(&fields) {
            zones.push(zone_in(&fields))?;
        }
    }
    Ok(Zones { zones })
}

/// An instant as the clocks of a zone show it; `-` if it is none of `jiff`'s, which the last hours of the
/// year 9999 are not, and no book has.
fn shown(alloc: Global, zone: &TimeZone<'static>, at: Minute) -> Result<String, AllocError> {
    let Ok(timestamp) = Timestamp::from_second(at.get() * 60) else {
        return String::from_str(alloc, NO_INSTANT);
    };
    // What a directive can't write is written as text: so nothing but want of memory is left.
    match zone.to_datetime(timestamp).strftime(alloc, FORMAT) {
        Ok(text) => Ok(text),
        Err(_) => Err(AllocError),
    }
}

/// An instant in UTC, as in `2024-03-09 06:30`.
pub fn utc(alloc: Global, at: Minute) -> Result<String, AllocError> {
    shown(alloc, &TimeZone::UTC, at)
}

impl Zones {
    /// An instant as the clocks of the base at this place show it, as in `2024-03-09 07:30`.
    pub fn local(&self, alloc: Global, base: usize, at: Minute) -> Result<String, AllocError> {
        match self.zones.get(base) {
            Some(zone) => shown(alloc, zone, at),
            None => utc(alloc, at),
        }
    }
}
