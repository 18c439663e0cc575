//! `crew,ID,BASE,TARGET,YEAR,ELEVEN`: a person.

ghost use Rattle.std.specs.Prelude.{◌≡◌, ◌&&◌, List, Some, true, false, MatchOption};
ghost use Rattle.csv.specs.Records.{fields_of};
ghost use Rattle.roster_model.specs.Record.{Record, Command, CrewRecord, amount_of};
ghost use Rattle.roster_model.specs.Faults.{code_of_kind};
ghost use Rattle.roster_model.specs.records.Crew.{id_in, target_in, year_in, eleven_in, is_formed};
ghost use Rattle.roster_model.specs.records.Crew.{is_limited, person_of};
ghost use Rattle.roster_book.specs.Draft.{IsDraftOf, Judges, contents_of};

use crate::code::Code;
use crate::draft::Draft;
use crate::forms::{amount, field, is_number};
use crate::named::place_of;
use csv::ByteRecord;
use roster_model::limits::{MOST_MINUTES, MOST_PERSONS};
use roster_problem::Person;
use roster_values::{Name, is_identifier};

/// The person's name, if all fields are of their forms.
fn formed(fields: &ByteRecord) -> Option<Name>
    ensures { MatchOption result (is_formed (fields_of fields.now) ≡ false)
        (λ id. (is_formed (fields_of fields.now) ≡ true) × (id ≡ id_in (fields_of fields.now))) }
{
    let id = Name::new(field(fields, 1))?;
    let others = is_identifier(field(fields, 2))
        && is_number(field(fields, 3))
        && is_number(field(fields, 4))
        && is_number(field(fields, 5));
    if others { Some(id) } else { None }
}

/// Target, year and eleven months, if they are within their limits.
fn limited(fields: &ByteRecord) -> Option<(u32, u32, u32)>
    ensures { is_formed (fields_of fields.now) ≡ true
        → MatchOption result (is_limited (fields_of fields.now) ≡ false) (λ m.
        (is_limited (fields_of fields.now) ≡ true)
        × (m.0 ≡ amount_of (target_in (fields_of fields.now)))
        × (m.1 ≡ amount_of (year_in (fields_of fields.now)))
        × (m.2 ≡ amount_of (eleven_in (fields_of fields.now)))) }
{
    let target = amount(field(fields, 3), MOST_MINUTES)?;
    let year = amount(field(fields, 4), MOST_MINUTES)?;
    let eleven = amount(field(fields, 5), MOST_MINUTES)?;
    Some((target, year, eleven))
}

impl Draft {
    /// The person that a record of one gives, or what is wrong with it.
    #[tactic(auto, unfolding(roster_model::specs::Faults::code_of_kind, roster_model::specs::records::Crew::person_of))]
    pub(crate) fn judge_person(&self, row: usize, fields: &ByteRecord) -> Result<Person, Code>
        ensures { (command : Command) (before : List Record)
            → IsDraftOf command row before (contents_of self.now)
            → Judges (code_of_kind CrewRecord before (fields_of fields.now))
            (person_of before (fields_of fields.now)) result }
    {
        if fields.len() != 6 {
            return Err(Code::FieldCount);
        }
        let Some(id) = formed(fields) else {
            return Err(Code::FieldForm);
        };
        let Some((target, year, eleven)) = limited(fields) else {
            return Err(Code::OutOfLimits);
        };
        if place_of(&self.tables.persons, field(fields, 1)).is_some() {
            return Err(Code::GivenTwice);
        }
        let Some(base) = place_of(&self.tables.bases, field(fields, 2)) else {
            return Err(Code::NotGiven);
        };
        if self.tables.persons.len() >= MOST_PERSONS {
            return Err(Code::NoRoom);
        }
        Ok(Person {
            id,
            base,
            target,
            year,
            eleven,
            row,
        })
    }
}
