//! `cost,CREW,PAIRING,UNITS`: what it costs that a person flies a pairing.

ghost use Rattle.std.specs.Prelude.{◌≡◌, ◌<◌, ℕ, List, Some, None, IfOk, length};
ghost use Rattle.csv.specs.Records.{fields_of};
ghost use Rattle.roster_model.specs.Record.{Record, Command, CostRecord};
ghost use Rattle.roster_model.specs.Faults.{code_of_kind, kind_in};
ghost use Rattle.roster_model.specs.records.Cost as model;
ghost use Rattle.roster_model.specs.records.Cost.{cost_of, units_given};
ghost use Rattle.roster_book.specs.Draft.{HasRecords, IsDraftOf, Judges, Takes, contents_of};

use crate::code::Code;
use crate::draft::Draft;
use crate::forms::{field, is_number, units};
use crate::named::place_of;
use crate::refusal::Refusal;
use csv::ByteRecord;
use roster_model::limits::MOST_COSTS;
use roster_problem::Cost;
use roster_values::is_identifier;

/// Whether all fields are of their forms.
fn is_formed(fields: &ByteRecord) -> bool
    ensures { result ≡ model.is_formed (fields_of fields.now) }
{
    is_identifier(field(fields, 1))
        && is_identifier(field(fields, 2))
        && is_number(field(fields, 3))
}

impl Draft {
    /// The cost that a record of one gives, or what is wrong with it.
    #[tactic(auto, unfolding(roster_model::specs::Faults::code_of_kind, roster_model::specs::records::Cost::cost_of))]
    fn judge_cost(&self, fields: &ByteRecord) -> Result<Cost, Code>
        ensures judged { (command : Command) (row : ℕ) (before : List Record)
            → IsDraftOf command row before (contents_of self.now)
            → Judges (code_of_kind CostRecord before (fields_of fields.now))
            (cost_of before (fields_of fields.now)) result }
        ensures person { IfOk result (λ cost. cost.person < length self.now.tables.persons.items) }
        ensures pairing { IfOk result (λ cost. cost.pairing < length self.now.tables.pairings.items) }
        ensures once { IfOk result
            (λ cost. units_given self.now.tables.costs cost.person cost.pairing ≡ None) }
    {
        if fields.len() != 4 {
            return Err(Code::FieldCount);
        }
        if !is_formed(fields) {
            return Err(Code::FieldForm);
        }
        let Some(units) = units(field(fields, 3)) else {
            return Err(Code::OutOfLimits);
        };
        let Some(person) = place_of(&self.tables.persons, field(fields, 1)) else {
            return Err(Code::NotGiven);
        };
        let Some(pairing) = place_of(&self.tables.pairings, field(fields, 2)) else {
            return Err(Code::NotGiven);
        };
        if self.tables.costs.given(person, pairing).is_some() {
            return Err(Code::GivenTwice);
        }
        if self.tables.costs.len() >= MOST_COSTS {
            return Err(Code::NoRoom);
        }
        Ok(Cost {
            person,
            pairing,
            units,
        })
    }

    /// Keeps the cost that a record of one gives, or tells what is wrong with it.
    pub(crate) fn take_cost(&mut self, fields: &ByteRecord) -> Result<(), Refusal>
        requires records { HasRecords (contents_of self.old) }
        ensures { (command : Command) (row : ℕ) (before : List Record)
            → IsDraftOf command row before (contents_of self.old)
            → Some CostRecord ≡ kind_in command (fields_of fields.now)
            → Takes command row before (fields_of fields.now) (contents_of self.new) result }
    {
        let cost = self.judge_cost(fields)?;
        self.tables.costs.push(cost)?;
        Ok(())
    }
}
