//! `period,YYYY-MM`: the month of the book.

ghost use Rattle.std.specs.Prelude.{◌≡◌, ◌<◌, ◌∷◌, [], List, Some, length};
ghost use Rattle.csv.specs.Records.{fields_of};
ghost use Rattle.roster_model.specs.Record as records;
ghost use Rattle.roster_model.specs.Record.{Record, PeriodRecord};
ghost use Rattle.roster_model.specs.Code.{first_unmet};
ghost use Rattle.roster_model.specs.records.Period.{month_in, own_conditions, period_in};
ghost use Rattle.roster_book.specs.Draft.{Judges};
ghost use Rattle.roster_model.specs.Faults.{code_of, code_of_kind, IsFaultlessSoFar};
ghost use Rattle.roster_values.specs.View.{command_of};
ghost use Rattle.roster_book.specs.View as view;

use crate::code::Code;
use crate::forms::field;
use crate::record::is_period;
use csv::ByteRecord;
use roster_instants::Period;
use roster_values::Command;

/// The month, or what is wrong with the record besides being given again.
fn judge(fields: &ByteRecord) -> Result<Period, Code>
    ensures { Judges (first_unmet (own_conditions (fields_of fields.now)))
        (month_in (fields_of fields.now)) result }
{
    if fields.len() != 2 {
        return Err(Code::FieldCount);
    }
    Period::read(field(fields, 1)).ok_or(Code::FieldForm)
}

/// The month that the first record gives, or what is wrong with that record.
pub(crate) fn read_first(command: Command, fields: &ByteRecord) -> Result<Period, Code>
    ensures { Judges (code_of (command_of command) [] (fields_of fields.now))
        (period_in (fields_of fields.now ∷ [])) result }
{
    if !is_period(fields) {
        return Err(Code::NoPeriod);
    }
    judge(fields)
}

/// What is wrong with a period that isn't the first record.
pub(crate) fn fault_of_later(fields: &ByteRecord) -> Code
    ensures { (command : records.Command) (before : List Record) → 0 < length before
        → IsFaultlessSoFar command before
        → code_of_kind PeriodRecord before (fields_of fields.now) ≡ Some (view.code_of result) }
{
    match judge(fields) {
        Ok(_) => Code::GivenTwice,
        Err(code) => code,
    }
}
