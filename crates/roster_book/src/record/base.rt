//! `base,ID,ZONE`: a base.

ghost use Rattle.std.specs.Prelude.{ℕ, List};
ghost use Rattle.csv.specs.Records.{fields_of};
ghost use Rattle.roster_model.specs.Record.{Record, Command, BaseRecord};
ghost use Rattle.roster_model.specs.Faults.{code_of_kind};
ghost use Rattle.roster_model.specs.Zone.{days_of_zone};
ghost use Rattle.roster_model.specs.records.Base.{base_of};
ghost use Rattle.roster_book.specs.Draft.{FindsDays, IsDraftOf, Reads, contents_of};

use crate::code::Code;
use crate::draft::Draft;
use crate::forms::{field, zone_text};
use crate::named::place_of;
use crate::refusal::Refusal;
use csv::ByteRecord;
use roster_instants::{BaseDays, Period, ZoneFault};
use roster_model::limits::MOST_BASES;
use roster_problem::Base;
use roster_values::Name;
use std::alloc::Global;

/// The days of the month's window at a base with this zone text.
fn days_of(alloc: Global, zone: &str, period: Period) -> Result<BaseDays, Refusal>
    ensures { FindsDays (days_of_zone period zone.now) result }
{
    match BaseDays::build(alloc, zone, period) {
        Ok(days) => Ok(days),
        Err(ZoneFault::Memory) => Err(Refusal::Memory),
        Err(_) => Err(Refusal::Fault(Code::ZoneRefused)),
    }
}

impl Draft {
    /// The base that a record of one gives, or why it gives none.
    #[tactic(auto, unfolding(roster_model::specs::Faults::code_of_kind, roster_model::specs::records::Base::base_of))]
    pub(crate) fn read_base(&self, alloc: Global, fields: &ByteRecord) -> Result<Base, Refusal>
        ensures { (command : Command) (row : ℕ) (before : List Record)
            → IsDraftOf command row before (contents_of self.now)
            → Reads (code_of_kind BaseRecord before (fields_of fields.now))
            (base_of before (fields_of fields.now)) result }
    {
        if fields.len() != 3 {
            return Err(Refusal::Fault(Code::FieldCount));
        }
        let Some(id) = Name::new(field(fields, 1)) else {
            return Err(Refusal::Fault(Code::FieldForm));
        };
        let Some(zone) = zone_text(field(fields, 2)) else {
            return Err(Refusal::Fault(Code::FieldForm));
        };
        if place_of(&self.tables.bases, field(fields, 1)).is_some() {
            return Err(Refusal::Fault(Code::GivenTwice));
        }
        let days = match days_of(alloc, zone, self.tables.period) {
            Err(Refusal::Fault(code)) => return Err(Refusal::Fault(code)),
            // Memory ran out, which counts if the record has no fault.
            found => found,
        };
        if self.tables.bases.len() >= MOST_BASES {
            return Err(Refusal::Fault(Code::NoRoom));
        }
        Ok(Base { id, days: days? })
    }
}
