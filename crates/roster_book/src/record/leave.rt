//! `leave,CREW,FROM,TO`: time in which a person has no duty.

ghost use Rattle.std.specs.Prelude.{◌≡◌, ℕ, List, true, false, MatchOption};
ghost use Rattle.csv.specs.Records.{fields_of};
ghost use Rattle.roster_model.specs.Record.{Record, Command, LeaveRecord, minute_of};
ghost use Rattle.roster_model.specs.Faults.{code_of_kind};
ghost use Rattle.roster_model.specs.records.Leave.{from_in, to_in, is_formed, leave_of};
ghost use Rattle.roster_book.specs.Draft.{HasRecords, IsDraftOf, Judges, contents_of};

use crate::code::Code;
use crate::draft::Draft;
use crate::forms::field;
use crate::named::place_of;
use crate::record::window::is_in_window;
use csv::ByteRecord;
use roster_instants::{Minute, read_minute};
use roster_model::limits::MOST_LEAVES;
use roster_problem::Leave;
use roster_values::is_identifier;

/// Where the leave begins and ends, if all fields are of their forms.
fn formed(fields: &ByteRecord) -> Option<(Minute, Minute)>
    ensures { MatchOption result (is_formed (fields_of fields.now) ≡ false) (λ times.
        (is_formed (fields_of fields.now) ≡ true)
        × (times.0 ≡ minute_of (from_in (fields_of fields.now)))
        × (times.1 ≡ minute_of (to_in (fields_of fields.now)))) }
{
    if !is_identifier(field(fields, 1)) {
        return None;
    }
    Some((
        read_minute(field(fields, 2))?,
        read_minute(field(fields, 3))?,
    ))
}

impl Draft {
    /// The leave that a record of one gives, or what is wrong with it.
    #[tactic(auto, unfolding(roster_model::specs::Faults::code_of_kind, roster_model::specs::records::Leave::leave_of))]
    pub(crate) fn judge_leave(&self, fields: &ByteRecord) -> Result<Leave, Code>
        requires { HasRecords (contents_of self.now) }
        ensures { (command : Command) (row : ℕ) (before : List Record)
            → IsDraftOf command row before (contents_of self.now)
            → Judges (code_of_kind LeaveRecord before (fields_of fields.now))
            (leave_of before (fields_of fields.now)) result }
    {
        if fields.len() != 4 {
            return Err(Code::FieldCount);
        }
        let Some((from, to)) = formed(fields) else {
            return Err(Code::FieldForm);
        };
        let Some(person) = place_of(&self.tables.persons, field(fields, 1)) else {
            return Err(Code::NotGiven);
        };
        if from >= to {
            return Err(Code::OutOfSequence);
        }
        if !is_in_window(&self.home_of(person).days, from, to) {
            return Err(Code::OutOfWindow);
        }
        if self.tables.leaves.len() >= MOST_LEAVES {
            return Err(Code::NoRoom);
        }
        if self.is_busy(person, from, to) {
            return Err(Code::Busy);
        }
        Ok(Leave { person, from, to })
    }
}
