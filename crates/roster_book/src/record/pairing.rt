//! `pairing,ID,BASE,PENALTY`: a pairing.

ghost use Rattle.std.specs.Prelude.{◌≡◌, List, Some, true, false, MatchOption};
ghost use Rattle.csv.specs.Records.{fields_of};
ghost use Rattle.roster_model.specs.Record.{Record, Command, PairingRecord};
ghost use Rattle.roster_model.specs.Faults.{code_of_kind};
ghost use Rattle.roster_model.specs.records.Pairing.{id_in, is_formed, pairing_of};
ghost use Rattle.roster_book.specs.Draft.{IsDraftOf, Judges, contents_of};

use crate::code::Code;
use crate::draft::Draft;
use crate::forms::{amount, field, is_number};
use crate::named::place_of;
use csv::ByteRecord;
use roster_model::limits::{MOST_PAIRINGS, MOST_PENALTY};
use roster_problem::Pairing;
use roster_values::{Name, is_identifier};

/// The pairing's name, if all fields are of their forms.
fn formed(fields: &ByteRecord) -> Option<Name>
    ensures { MatchOption result (is_formed (fields_of fields.now) ≡ false)
        (λ id. (is_formed (fields_of fields.now) ≡ true) × (id ≡ id_in (fields_of fields.now))) }
{
    let id = Name::new(field(fields, 1))?;
    let others = is_identifier(field(fields, 2)) && is_number(field(fields, 3));
    if others { Some(id) } else { None }
}

impl Draft {
    /// The pairing that a record of one gives, or what is wrong with it.
    #[tactic(auto, unfolding(roster_model::specs::Faults::code_of_kind, roster_model::specs::records::Pairing::pairing_of))]
    pub(crate) fn judge_pairing(&self, row: usize, fields: &ByteRecord) -> Result<Pairing, Code>
        ensures { (command : Command) (before : List Record)
            → IsDraftOf command row before (contents_of self.now)
            → Judges (code_of_kind PairingRecord before (fields_of fields.now))
            (pairing_of before (fields_of fields.now)) result }
    {
        if fields.len() != 4 {
            return Err(Code::FieldCount);
        }
        let Some(id) = formed(fields) else {
            return Err(Code::FieldForm);
        };
        let Some(penalty) = amount(field(fields, 3), MOST_PENALTY) else {
            return Err(Code::OutOfLimits);
        };
        if place_of(&self.tables.pairings, field(fields, 1)).is_some() {
            return Err(Code::GivenTwice);
        }
        let Some(base) = place_of(&self.tables.bases, field(fields, 2)) else {
            return Err(Code::NotGiven);
        };
        if self.tables.pairings.len() >= MOST_PAIRINGS {
            return Err(Code::NoRoom);
        }
        Ok(Pairing {
            id,
            base,
            penalty,
            row,
        })
    }
}
