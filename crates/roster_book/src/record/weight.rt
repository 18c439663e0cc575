//! `weight,W`: what it costs that a person's flight in the month misses the target by a minute.

ghost use Rattle.std.specs.Prelude.{◌≡◌, ℕ, List, Some, None, IfOk};
ghost use Rattle.csv.specs.Records.{fields_of};
ghost use Rattle.roster_model.specs.Record.{Record, Command, WeightRecord};
ghost use Rattle.roster_model.specs.Faults.{code_of_kind, kind_in};
ghost use Rattle.roster_model.specs.records.Weight.{weight_of};
ghost use Rattle.roster_book.specs.Draft.{IsDraftOf, Judges, Takes, contents_of};

use crate::code::Code;
use crate::draft::Draft;
use crate::forms::{amount, field, is_number};
use crate::refusal::Refusal;
use csv::ByteRecord;
use roster_model::limits::MOST_WEIGHT;

impl Draft {
    /// The weight that a record of one gives, or what is wrong with it.
    #[tactic(auto, unfolding(roster_model::specs::Faults::code_of_kind, roster_model::specs::records::Weight::weight_of))]
    fn judge_weight(&self, fields: &ByteRecord) -> Result<u32, Code>
        ensures judged { (command : Command) (row : ℕ) (before : List Record)
            → IsDraftOf command row before (contents_of self.now)
            → Judges (code_of_kind WeightRecord before (fields_of fields.now))
            (weight_of before (fields_of fields.now)) result }
        ensures once { IfOk result (λ _. self.now.tables.weight ≡ None) }
    {
        if fields.len() != 2 {
            return Err(Code::FieldCount);
        }
        if !is_number(field(fields, 1)) {
            return Err(Code::FieldForm);
        }
        let Some(weight) = amount(field(fields, 1), MOST_WEIGHT) else {
            return Err(Code::OutOfLimits);
        };
        if self.tables.weight.is_some() {
            return Err(Code::GivenTwice);
        }
        Ok(weight)
    }

    /// Keeps the weight that a record of one gives, or tells what is wrong with it.
    pub(crate) fn take_weight(&mut self, fields: &ByteRecord) -> Result<(), Refusal>
        ensures { (command : Command) (row : ℕ) (before : List Record)
            → IsDraftOf command row before (contents_of self.old)
            → Some WeightRecord ≡ kind_in command (fields_of fields.now)
            → Takes command row before (fields_of fields.now) (contents_of self.new) result }
    {
        self.tables.weight = Some(self.judge_weight(fields)?);
        Ok(())
    }
}
