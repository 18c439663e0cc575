//! The text of a repair, and of a book in which a pairing breaks off, on `csv`.

ghost use Rattle.std.specs.Prelude.{◌<◌, length};

use crate::keeping::{Fate, Kept, Off};
use csv::ByteRecord;
use roster_desk_made::records_in;
use roster_desk_repair_judged::{Rest, price_at, station_of};
use roster_desk_reports::pairing_named;
use roster_desk_sheets::Records;
use roster_desk_words::instant;
use std::alloc::{AllocError, Global};

/// The letter of a fixed duty.
const OF_PERSON: &[u8] = b"C";

/// The letter of a pairing's duty.
const OF_PAIRING: &[u8] = b"P";

/// What was written so far. A record names only what stands before it: so duties, which may come to name a
/// person who stands below them in the book, are put behind all persons.
#[derive(Drop)]
struct Draft {
    // All records but these.
    heads: Records,
    // Those of duties and sectors.
    duties: Records,
    // Those of costs.
    costs: Records,
}

/// The field of the record, empty if it has none.
fn field(fields: &ByteRecord, i: usize) -> &[u8] {
    fields.get(i).unwrap_or(&[])
}

impl Draft {
    /// No record.
    fn new(alloc: Global) -> Draft {
        Draft {
            heads: Records::new(alloc),
            duties: Records::new(alloc),
            costs: Records::new(alloc),
        }
    }

    /// Puts the record of a duty that is another's: that of the name, of the kind of the letter.
    fn push_turned(
        &mut self,
        fields: &ByteRecord,
        letter: &[u8],
        name: &[u8],
    ) -> Result<(), AllocError> {
        self.duties.push(&[
            field(fields, 0),
            field(fields, 1),
            letter,
            name,
            field(fields, 4),
            field(fields, 5),
            field(fields, 6),
        ])
    }

    /// Takes the record of a duty.
    fn take_duty(&mut self, kept: &Kept<'_>, fields: &ByteRecord) -> Result<(), AllocError> {
        let pairing = match field(fields, 2) == OF_PAIRING {
            true => pairing_named(kept.book, field(fields, 3)),
            false => None,
        };
        let Some(p) = pairing else {
            return self.duties.copy(fields);
        };
        match kept.fate(p) {
            Fate::Stays => self.duties.copy(fields),
            Fate::Leaves => Ok(()),
            Fate::Fixed(person) => self.push_turned(fields, OF_PERSON, person),
        }
    }

    /// Takes a record of the book.
    fn take(&mut self, kept: &Kept<'_>, fields: &ByteRecord) -> Result<(), AllocError> {
        let kind = field(fields, 0);
        if kind == b"duty".as_slice() {
            return self.take_duty(kept, fields);
        }
        if kind == b"assign".as_slice() {
            return Ok(());
        }
        if kind == b"sector".as_slice() {
            if !kept.has_duty(field(fields, 1)) {
                return Ok(());
            }
            return self.duties.copy(fields);
        }
        if kind == b"cost".as_slice() {
            if !kept.keeps_units(field(fields, 1), field(fields, 2)) {
                return Ok(());
            }
            return self.costs.copy(fields);
        }
        if kind == b"pairing".as_slice() && kept.is_fixed(field(fields, 1)) {
            return Ok(());
        }
        self.heads.copy(fields)
    }

    /// Puts the units of the owner of the pairing at place `p`, if it is rostered anew and has one.
    fn push_owner(&mut self, alloc: Global, kept: &Kept<'_>, p: usize) -> Result<(), AllocError>
        requires { p < length kept.now.book.now.pairings }
    {
        let (Some(None), Some(number)) = (kept.fixed.get(p), kept.published.get(p)) else {
            return Ok(());
        };
        let k = usize::from(*number);
        let Some(person) = kept.book.persons().get(k) else {
            return Ok(());
        };
        let price = i64::from(price_at(kept.book, kept.terms, p));
        let units = kept.book.units(k, p) - price;
        if units == 0 {
            return Ok(());
        }
        let units = units.to_string(alloc)?;
        let pairing = kept.book.pairing(p);
        self.costs.push(&[
            b"cost",
            person.id.as_bytes(),
            pairing.id.as_bytes(),
            units.as_bytes(),
        ])
    }

    /// Takes a record of a book in which a pairing breaks off.
    fn take_off(&mut self, off: &Off<'_>, fields: &ByteRecord) -> Result<(), AllocError> {
        let kind = field(fields, 0);
        if kind == b"duty".as_slice() {
            if !off.has_left(field(fields, 1)) {
                return self.duties.copy(fields);
            }
            return match off.person() {
                Some(person) => self.push_turned(fields, OF_PERSON, person),
                None => self.push_turned(fields, OF_PAIRING, off.name),
            };
        }
        if kind == b"sector".as_slice() {
            return self.duties.copy(fields);
        }
        if kind == b"cost".as_slice() {
            return self.costs.copy(fields);
        }
        self.heads.copy(fields)
    }

    /// Puts the duty that brings somebody to what is left of the pairing, if that is a pairing. No duty of it
    /// stands before it.
    fn push_positioning(&mut self, alloc: Global, off: &Off<'_>) -> Result<(), AllocError> {
        let Rest::Positioned { report, release } = off.broken.rest else {
            return Ok(());
        };
        let (report, release) = (instant(alloc, report)?, instant(alloc, release)?);
        self.duties.push(&[
            b"duty",
            off.name,
            OF_PAIRING,
            off.name,
            station_of(off.book.duties(), off.broken.pairing),
            report.as_bytes(),
            release.as_bytes(),
        ])
    }

    /// Puts the pairing that is left, if it is one, behind all others.
    fn push_left(&mut self, alloc: Global, off: &Off<'_>) -> Result<(), AllocError>
        requires { off.now.broken.now.pairing < length off.now.book.now.pairings }
    {
        let Rest::Positioned { .. } = off.broken.rest else {
            return Ok(());
        };
        let penalty = off
            .book
            .pairing(off.broken.pairing)
            .penalty
            .to_string(alloc)?;
        self.heads.push(&[
            b"pairing",
            off.name,
            station_of(off.book.duties(), off.broken.pairing),
            penalty.as_bytes(),
        ])
    }

    /// The whole text.
    fn finish(self) -> Result<Vec<u8>, AllocError> {
        let mut text = self.heads.finish()?;
        let duties = self.duties.finish()?;
        let costs = self.costs.finish()?;
        text.extend_from_slice(duties.as_slice())?;
        text.extend_from_slice(costs.as_slice())?;
        Ok(text)
    }
}

/// The text of the repair of the book, whose bytes are the text.
pub(crate) fn repaired_text(
    alloc: Global,
    text: &[u8],
    kept: &Kept<'_>,
) -> Result<Vec<u8>, AllocError> {
    let mut draft = Draft::new(alloc);
    let records = records_in(alloc, text)?;
    for fields in &records {
        draft.take(kept, fields)?;
    }
    for p in 0..kept.book.pairings().len() {
        draft.push_owner(alloc, kept, p)?;
    }
    draft.finish()
}

/// The text of the book in which a pairing breaks off, of the book whose bytes are the text.
pub(crate) fn broken_text(alloc: Global, text: &[u8], off: &Off<'_>) -> Result<Vec<u8>, AllocError>
    requires { off.now.broken.now.pairing < length off.now.book.now.pairings }
{
    let mut draft = Draft::new(alloc);
    draft.push_positioning(alloc, off)?;
    let records = records_in(alloc, text)?;
    for fields in &records {
        draft.take_off(off, fields)?;
    }
    draft.push_left(alloc, off)?;
    draft.finish()
}
