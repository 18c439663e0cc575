//! `duty,ID,P,PAIRING,STATION,REPORT,RELEASE`: a duty of a pairing; with C and a person in place of P
//! and the pairing, a duty that is fixed for the person.

ghost use Rattle.std.specs.Prelude.{◌≡◌, ◌<◌, [], List, Some, true, false, IfOk, IfSome, IsOk, MatchOption};
ghost use Rattle.std.specs.Prelude.{length, option_map};
ghost use Rattle.csv.specs.Records.{fields_of};
ghost use Rattle.roster_model.specs.Record.{Record, Command, DutyRecord, minute_of};
ghost use Rattle.roster_model.specs.Code.{first_unmet};
ghost use Rattle.roster_model.specs.Problem.{tables_in};
ghost use Rattle.roster_model.specs.Busy.{is_busy};
ghost use Rattle.roster_model.specs.Faults.{code_of_kind};
ghost use Rattle.roster_model.specs.records.Duty.{id_in, station_in, report_in, release_in, is_formed};
ghost use Rattle.roster_model.specs.records.Duty.{duty_of};
ghost use Rattle.roster_model.specs.records.Duty as model;
ghost use Rattle.roster_problem.specs.Sound.{IsHolder};
ghost use Rattle.roster_problem.specs.View.{holder_of};
ghost use Rattle.roster_book.specs.Draft.{HasRecords, IsDraftOf, Judges, contents_of, tables_of_draft};

use crate::code::Code;
use crate::draft::Draft;
use crate::forms::field;
use crate::named::place_of;
use crate::record::window::is_in_window;
use csv::ByteRecord;
use roster_instants::{BaseDays, Minute, read_minute};
use roster_model::limits::MOST_DUTIES;
use roster_problem::{Base, Duty, Holder};
use roster_values::{Name, is_identifier};
use std::alloc::Global;

// The fields of a duty that are of their forms.
#[derive(Drop)]
struct Form {
    id: Name,
    station: Name,
    report: Minute,
    release: Minute,
}

/// Whether it is the letter of a pairing's duties.
fn is_pairing_letter(letter: &[u8]) -> bool
    ensures { result ≡ model.is_pairing_letter letter.now }
{
    letter == b"P".as_slice()
}

/// Whether it is the letter of a person's fixed duties.
fn is_person_letter(letter: &[u8]) -> bool
    ensures { result ≡ model.is_person_letter letter.now }
{
    letter == b"C".as_slice()
}

fn formed(fields: &ByteRecord) -> Option<Form>
    ensures { MatchOption result (is_formed (fields_of fields.now) ≡ false) (λ f.
        (is_formed (fields_of fields.now) ≡ true)
        × (f.id ≡ id_in (fields_of fields.now)) × (f.station ≡ station_in (fields_of fields.now))
        × (f.report ≡ minute_of (report_in (fields_of fields.now)))
        × (f.release ≡ minute_of (release_in (fields_of fields.now)))) }
{
    let id = Name::new(field(fields, 1))?;
    let letter = field(fields, 2);
    if !is_pairing_letter(letter) && !is_person_letter(letter) || !is_identifier(field(fields, 3)) {
        return None;
    }
    Some(Form {
        id,
        station: Name::new(field(fields, 4))?,
        report: read_minute(field(fields, 5))?,
        release: read_minute(field(fields, 6))?,
    })
}

/// Whether it is released after it reports, no earlier than the last duty was released.
fn is_in_sequence(last: Option<&Duty>, report: Minute, release: Minute) -> bool
    ensures value { result
        ≡ model.is_in_sequence (option_map (λ duty. duty.now) last.entry) report release }
    ensures order { result ≡ true → report < release }
{
    report < release && last.is_none_or(|duty| duty.release <= report)
}

/// Whether the instant lies in the month.
fn is_in_month(days: &BaseDays, minute: Minute) -> bool
    ensures { result ≡ model.is_in_month days.now minute }
{
    days.month_start() <= minute && minute < days.month_end()
}

/// Whether it isn't the first duty of its pairing, or reports at the pairing's base in the month there.
fn starts_well(last: Option<&Duty>, base: &Base, station: &Name, report: Minute) -> bool
    ensures { result
        ≡ model.starts_well (option_map (λ duty. duty.now) last.entry) base.now station.now report }
{
    last.is_some() || station.as_bytes() == base.id.as_bytes() && is_in_month(&base.days, report)
}

impl Draft {
    /// Whose duty a record of one tells, if that was given before.
    fn holder_in(&self, fields: &ByteRecord) -> Option<Holder>
        ensures told { (before : List Record) → tables_of_draft self.now ≡ tables_in before
            → option_map holder_of result ≡ model.holder_in before (fields_of fields.now) }
        ensures known { IfSome result (λ holder. IsHolder (length self.now.tables.pairings.items)
            (length self.now.tables.persons.items) (holder_of holder)) }
    {
        let name = field(fields, 3);
        if is_pairing_letter(field(fields, 2)) {
            Some(Holder::Pairing(place_of(&self.tables.pairings, name)?))
        } else {
            Some(Holder::Person(place_of(&self.tables.persons, name)?))
        }
    }

    /// What is wrong with it as a duty of the pairing at the place.
    #[tactic(auto, using(crate::proofs::SectorTable::flown_in_sequence, crate::proofs::SectorTable::flown_starts_well, crate::proofs::SectorTable::flown_count))]
    fn judge_of_pairing(&self, p: usize, duty: &Form) -> Result<(), Code>
        requires known { p < length self.now.tables.pairings.items }
        requires records { HasRecords (contents_of self.now) }
        ensures told { (before : List Record) → tables_of_draft self.now ≡ tables_in before
            → Judges (first_unmet (model.conditions_of_pairing before p duty.now.station
            duty.now.report duty.now.release)) tt result }
        ensures order { IsOk result → duty.now.report < duty.now.release }
    {
        let last = self.last_duty(p);
        if !is_in_sequence(last, duty.report, duty.release) {
            return Err(Code::OutOfSequence);
        }
        let base = self.base_of(p);
        if !is_in_window(&base.days, duty.report, duty.release) {
            return Err(Code::OutOfWindow);
        }
        if self.duties.as_slice().len() >= MOST_DUTIES {
            return Err(Code::NoRoom);
        }
        if !starts_well(last, base, &duty.station, duty.report) {
            return Err(Code::WrongStart);
        }
        Ok(())
    }

    /// What is wrong with it as a fixed duty of the person at the place.
    #[tactic(auto, using(crate::proofs::SectorTable::flown_count))]
    fn judge_of_person(&self, k: usize, duty: &Form) -> Result<(), Code>
        requires known { k < length self.now.tables.persons.items }
        requires records { HasRecords (contents_of self.now) }
        ensures told { (before : List Record) → tables_of_draft self.now ≡ tables_in before
            → Judges (first_unmet (model.conditions_of_person (is_busy (tables_in before)) before k
            duty.now.report duty.now.release)) tt result }
        ensures order { IsOk result → duty.now.report < duty.now.release }
    {
        if duty.report >= duty.release {
            return Err(Code::OutOfSequence);
        }
        if !is_in_window(&self.home_of(k).days, duty.report, duty.release) {
            return Err(Code::OutOfWindow);
        }
        if self.duties.as_slice().len() >= MOST_DUTIES {
            return Err(Code::NoRoom);
        }
        if self.is_busy(k, duty.report, duty.release) {
            return Err(Code::Busy);
        }
        Ok(())
    }

    /// What is wrong with it as a duty of the holder.
    fn judge_held(&self, holder: Holder, duty: &Form) -> Result<(), Code>
        requires known { IsHolder (length self.now.tables.pairings.items)
            (length self.now.tables.persons.items) (holder_of holder) }
        requires records { HasRecords (contents_of self.now) }
        ensures told { (before : List Record) → tables_of_draft self.now ≡ tables_in before
            → Judges (first_unmet (model.conditions_held (is_busy (tables_in before)) before
            (Some (holder_of holder)) duty.now.station duty.now.report duty.now.release))
            tt result }
        ensures order { IsOk result → duty.now.report < duty.now.release }
    {
        match holder {
            Holder::Pairing(p) => self.judge_of_pairing(p, duty),
            Holder::Person(k) => self.judge_of_person(k, duty),
        }
    }

    /// The duty that a record of one gives, or what is wrong with it.
    #[tactic(auto, using(crate::proofs::SectorTable::flown_position), unfolding(roster_model::specs::Faults::code_of_kind, roster_model::specs::records::Duty::duty_of))]
    pub(crate) fn judge_duty(
        &self,
        alloc: Global,
        row: usize,
        fields: &ByteRecord,
    ) -> Result<Duty, Code>
        requires { HasRecords (contents_of self.now) }
        ensures judged { (command : Command) (before : List Record)
            → IsDraftOf command row before (contents_of self.now)
            → Judges (code_of_kind DutyRecord before (fields_of fields.now))
            (duty_of before (fields_of fields.now)) result }
        ensures bare { IfOk result (λ duty. duty.sectors ≡ []) }
    {
        if fields.len() != 7 {
            return Err(Code::FieldCount);
        }
        let Some(duty) = formed(fields) else {
            return Err(Code::FieldForm);
        };
        if self.duties.place(field(fields, 1)).is_some() {
            return Err(Code::GivenTwice);
        }
        let Some(holder) = self.holder_in(fields) else {
            return Err(Code::NotGiven);
        };
        if let Err(code) = self.judge_held(holder, &duty) {
            return Err(code);
        }
        Ok(Duty {
            id: duty.id,
            holder,
            station: duty.station,
            report: duty.report,
            release: duty.release,
            sectors: Vec::new(alloc),
            row,
        })
    }
}
