//! The text of the next month's book, on `csv`.

ghost use Rattle.std.specs.Prelude.{◌≡◌, ◌<◌, length};

use jiff::Timestamp;
use roster_desk_carry_judged::{BaseZone, Before, duties_in, flight_in, year_after};
use roster_desk_sheets::{Records, read_rows};
use roster_desk_times::instant_text;
use roster_instants::{Minute, Period};
use roster_problem::{Duty, Leave, Problem, Sector};
use roster_values::Name;
use std::alloc::{AllocError, Global};
use std::str;

/// The bases of the text of a book, with the rules of their clocks.
pub(crate) fn zones_in(alloc: Global, text: &[u8]) -> Result<Vec<BaseZone>, AllocError> {
    let mut zones = Vec::new(alloc);
    let rows = read_rows(alloc, text, b',')?;
    for row in &rows {
        if row.field(0) != b"base".as_slice() {
            continue;
        }
        if let (Some(base), Ok(rule)) = (Name::new(row.field(1)), str::from_utf8(row.field(2))) {
            let rule = String::from_str(alloc, rule)?;
            zones.push(BaseZone { base, rule })?;
        }
    }
    Ok(zones)
}

/// The month as a book writes it.
pub(crate) fn month_text(alloc: Global, month: Period) -> Result<String, AllocError> {
    let (year, number) = (month.year(), month.month());
    format!(in alloc; "{year:04}-{number:02}")
}

/// The month after it, as a book writes it.
fn next_month_text(alloc: Global, month: Period) -> Result<String, AllocError> {
    let (year, number) = (month.year(), month.month());
    if number == 12 {
        let next = year.saturating_add(1);
        format!(in alloc; "{next:04}-01")
    } else {
        let next = number.saturating_add(1);
        format!(in alloc; "{year:04}-{next:02}")
    }
}

/// The instant as a book writes it.
pub(crate) fn minute_text(alloc: Global, at: Minute) -> Result<String, AllocError> {
    match Timestamp::from_second(at.get().saturating_mul(60)) {
        Ok(at) => instant_text(alloc, at),
        Err(_) => String::from_str(alloc, "-"),
    }
}

/// Whether the sector is operated or positioning, as a book and a table write it.
pub(crate) fn kind_text(sector: Sector) -> [u8; 1] {
    if sector.operates { *b"O" } else { *b"P" }
}

/// When the next month's window begins for person `k`: each day of it that this one has begins with this
/// month's day of the same place from the end.
fn start_for(book: &Problem, k: usize) -> Minute
    requires { k < length book.now.persons }
{
    let days = book.days_of(k);
    days.mid(days.month_days())
}

/// The records so far.
#[derive(Drop)]
struct Draft {
    alloc: Global,
    records: Records,
    // How many duties there are.
    duties: usize,
}

impl Draft {
    /// The records of the month, the weight and the bases, which the text of this month's book has.
    fn push_heads(&mut self, text: &[u8], month: Period) -> Result<(), AllocError> {
        let next = next_month_text(self.alloc, month)?;
        self.records.push(&[b"period", next.as_bytes()])?;
        let rows = read_rows(self.alloc, text, b',')?;
        for row in &rows {
            let kind = row.field(0);
            if kind == b"weight".as_slice() {
                self.records.push(&[kind, row.field(1)])?;
            } else if kind == b"base".as_slice() {
                self.records.push(&[kind, row.field(1), row.field(2)])?;
            }
        }
        Ok(())
    }

    /// The record of person `k`. Nothing is put if what they have flown is no machine's number.
    fn push_person(
        &mut self,
        book: &Problem,
        before: Before,
        flight: u64,
        k: usize,
    ) -> Result<bool, AllocError>
        requires { k < length book.now.persons }
    {
        let person = book.person(k);
        let year = year_after(book.period(), before.year, flight);
        let (Some(year), Some(eleven)) = (year, before.eleven.checked_add(flight)) else {
            return Ok(false);
        };
        let target = person.target.to_string(self.alloc)?;
        let year = year.to_string(self.alloc)?;
        let eleven = eleven.to_string(self.alloc)?;
        self.records.push(&[
            b"crew",
            person.id.as_bytes(),
            book.home(k).id.as_bytes(),
            target.as_bytes(),
            year.as_bytes(),
            eleven.as_bytes(),
        ])?;
        Ok(true)
    }

    /// The record of the part of a leave that lies in the next window, which begins at the instant.
    fn push_leave(
        &mut self,
        leave: &Leave,
        start: Minute,
        person: &[u8],
    ) -> Result<(), AllocError> {
        if leave.to <= start {
            return Ok(());
        }
        let from = minute_text(self.alloc, leave.from.max(start))?;
        let to = minute_text(self.alloc, leave.to)?;
        self.records
            .push(&[b"leave", person, from.as_bytes(), to.as_bytes()])
    }

    /// The records of the leave of person `k`.
    fn push_leaves(&mut self, book: &Problem, k: usize) -> Result<(), AllocError>
        requires { k < length book.now.persons }
    {
        let start = start_for(book, k);
        for position in book.leave(k) {
            if let Some(leave) = book.leaves().get(usize::from(*position)) {
                self.push_leave(leave, start, book.person(k).id.as_bytes())?;
            }
        }
        Ok(())
    }

    /// The record of a duty of the person.
    fn push_duty_of<'a>(
        &mut self,
        duty: &Duty,
        name: &'a [u8],
        person: &'a [u8],
    ) -> Result<(), AllocError> {
        let report = minute_text(self.alloc, duty.report)?;
        let release = minute_text(self.alloc, duty.release)?;
        self.records.push(&[
            b"duty",
            name,
            b"C",
            person,
            duty.station.as_bytes(),
            report.as_bytes(),
            release.as_bytes(),
        ])
    }

    /// The record of a sector of the duty that has the name.
    fn push_sector(&mut self, sector: Sector, name: &[u8]) -> Result<(), AllocError> {
        let off = minute_text(self.alloc, sector.off)?;
        let on = minute_text(self.alloc, sector.on)?;
        let kind = kind_text(sector);
        self.records
            .push(&[b"sector", name, &kind, off.as_bytes(), on.as_bytes()])
    }

    /// The records of a duty of the person, and of its sectors. Its name tells this month, and counts.
    fn push_duty(&mut self, month: &str, duty: &Duty, person: &[u8]) -> Result<(), AllocError> {
        self.duties = self.duties.saturating_add(1);
        let number = self.duties;
        let name = format!(in self.alloc; "{month}-{number}")?;
        self.push_duty_of(duty, name.as_bytes(), person)?;
        for sector in &duty.sectors {
            self.push_sector(*sector, name.as_bytes())?;
        }
        Ok(())
    }

    /// The records of the duties of person `k` that lie in the next window.
    fn push_duties(
        &mut self,
        book: &Problem,
        places: &[u16],
        month: &str,
        k: usize,
    ) -> Result<(), AllocError>
        requires covers { length places.now ≡ length book.now.pairings }
        requires person { k < length book.now.persons }
    {
        let start = start_for(book, k);
        let list = duties_in(self.alloc, book, places, k)?;
        for i in 0..list.len() {
            let duty = list.duty(i);
            if duty.report >= start {
                self.push_duty(month, duty, book.person(k).id.as_bytes())?;
            }
        }
        Ok(())
    }
}

/// The text of the next month's book, of a book whose bytes are the text. None if what a person has flown is
/// no machine's number.
pub(crate) fn carried_text(
    alloc: Global,
    text: &[u8],
    book: &Problem,
    places: &[u16],
    before: &[Before],
) -> Result<Option<Vec<u8>>, AllocError>
    requires covers { length places.now ≡ length book.now.pairings }
    requires before { length before.now ≡ length book.now.persons }
{
    let mut draft = Draft {
        alloc,
        records: Records::new(alloc),
        duties: 0,
    };
    draft.push_heads(text, book.period())?;
    for k in 0..book.persons().len() {
        let flight = flight_in(alloc, book, places, k)?;
        if !draft.push_person(book, before[k], flight, k)? {
            return Ok(None);
        }
    }
    let month = month_text(alloc, book.period())?;
    for k in 0..book.persons().len() {
        draft.push_leaves(book, k)?;
        draft.push_duties(book, places, month.as_str(), k)?;
    }
    let Draft {
        alloc: _,
        records,
        duties: _,
    } = draft;
    Ok(Some(records.finish()?))
}
