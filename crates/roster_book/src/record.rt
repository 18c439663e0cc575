//! The kinds of records, and a file for each: what a record of it adds to the tables, or what is wrong with
//! it. A record is taken by its kind. `window` and `busy` tell of the times that several kinds have.

ghost use Rattle.std.specs.Prelude.{◌≡◌, List, option_map};
ghost use Rattle.csv.specs.Records.{fields_of};
ghost use Rattle.roster_model.specs.Record.{Record, PeriodRecord, is_of, word_of};
ghost use Rattle.roster_model.specs.Faults.{kind_in};
ghost use Rattle.roster_values.specs.View.{command_of};
ghost use Rattle.roster_book.specs.Draft.{HasRecords, IsDraftOf, Takes, contents_of};
ghost use Rattle.roster_book.specs.View.{is_for, kind_of};

pub(crate) mod assign;
mod base;
mod busy;
mod cost;
mod crew;
mod duty;
mod leave;
mod pairing;
pub(crate) mod period;
mod sector;
pub(crate) mod step;
mod weight;
mod window;

use crate::code::Code;
use crate::draft::{Draft, push};
use crate::forms::field;
use crate::refusal::Refusal;
use csv::ByteRecord;
use roster_values::Command;
use std::alloc::Global;

/// What a record is about.
#[derive(Clone, Copy)]
pub(crate) enum Kind {
    Period,
    Weight,
    Base,
    Crew,
    Pairing,
    Duty,
    Sector,
    Leave,
    Cost,
    Assign,
    Step,
}

impl Kind {
    // All kinds.
    const ALL: [Kind; 11] = [
        Kind::Period,
        Kind::Weight,
        Kind::Base,
        Kind::Crew,
        Kind::Pairing,
        Kind::Duty,
        Kind::Sector,
        Kind::Leave,
        Kind::Cost,
        Kind::Assign,
        Kind::Step,
    ];

    /// The word with which its records begin.
    fn word(self) -> &'static str
        ensures { result.now ≡ word_of (kind_of self) }
    {
        match self {
            Kind::Period => "period",
            Kind::Weight => "weight",
            Kind::Base => "base",
            Kind::Crew => "crew",
            Kind::Pairing => "pairing",
            Kind::Duty => "duty",
            Kind::Sector => "sector",
            Kind::Leave => "leave",
            Kind::Cost => "cost",
            Kind::Assign => "assign",
            Kind::Step => "step",
        }
    }

    /// Whether a book for the command may have its records.
    fn is_for(self, command: Command) -> bool
        ensures { result ≡ is_for (kind_of self) (command_of command) }
    {
        match self {
            Kind::Assign => command == Command::Check,
            Kind::Step => command == Command::Replay,
            _ => true,
        }
    }
}

/// Whether the record is of the kind.
fn is_of(kind: Kind, fields: &ByteRecord) -> bool
    ensures { result ≡ is_of (kind_of kind) (fields_of fields.now) }
{
    field(fields, 0) == kind.word().as_bytes()
}

/// Whether it is the record of a period.
pub(crate) fn is_period(fields: &ByteRecord) -> bool
    ensures { result ≡ is_of PeriodRecord (fields_of fields.now) }
{
    is_of(Kind::Period, fields)
}

/// The kind that the first field names, if a book for the command may have it.
pub(crate) fn kind_in(command: Command, fields: &ByteRecord) -> Option<Kind>
    ensures { option_map kind_of result ≡ kind_in (command_of command) (fields_of fields.now) }
{
    for kind in Kind::ALL {
        if kind.is_for(command) && is_of(kind, fields) {
            return Some(kind);
        }
    }
    None
}

impl Draft {
    /// Takes the next record, which is at this row.
    pub(crate) fn take(
        &mut self,
        alloc: Global,
        command: Command,
        row: usize,
        fields: &ByteRecord,
    ) -> Result<(), Refusal>
        requires records { HasRecords (contents_of self.old) }
        ensures { (before : List Record)
            → IsDraftOf (command_of command) row before (contents_of self.old)
            → Takes (command_of command) row before (fields_of fields.now)
            (contents_of self.new) result }
    {
        match kind_in(command, fields) {
            None => Err(Refusal::Fault(Code::UnknownKind)),
            Some(Kind::Period) => Err(Refusal::Fault(period::fault_of_later(fields))),
            Some(Kind::Weight) => self.take_weight(fields),
            Some(Kind::Base) => {
                let base = self.read_base(alloc, fields)?;
                push(&mut self.tables.bases, Ok(base))
            }
            Some(Kind::Crew) => {
                let person = self.judge_person(row, fields);
                push(&mut self.tables.persons, person)
            }
            Some(Kind::Pairing) => {
                let pairing = self.judge_pairing(row, fields);
                push(&mut self.tables.pairings, pairing)
            }
            Some(Kind::Duty) => {
                let duty = self.judge_duty(alloc, row, fields)?;
                self.duties.push(duty)?;
                Ok(())
            }
            Some(Kind::Sector) => self.take_sector(fields),
            Some(Kind::Leave) => {
                let leave = self.judge_leave(fields);
                push(&mut self.tables.leaves, leave)
            }
            Some(Kind::Cost) => self.take_cost(fields),
            Some(Kind::Assign) => self.take_assign(fields),
            Some(Kind::Step) => self.take_step(fields),
        }
    }
}
