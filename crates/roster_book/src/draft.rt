//! What is kept of the records taken so far.

ghost use Rattle.std.specs.Prelude.{◌≡◌, ◌≢◌, ◌<◌, ◌∷◌, [], ℕ, List, Option, Some, None, MatchResult, IfErr};
ghost use Rattle.std.specs.Prelude.{IfOk, IsErrOf, option_map, vec_len};
ghost use Rattle.std.specs.List.{list_any};
ghost use Rattle.csv.specs.Records.{fields_of};
ghost use Rattle.roster_model.specs.Code as model;
ghost use Rattle.roster_model.specs.Record as records;
ghost use Rattle.roster_model.specs.Record.{Record};
ghost use Rattle.roster_model.specs.Problem.{home_of};
ghost use Rattle.roster_model.specs.Faults.{code_of, first_fault, pairing_without_duty, IsFaultless};
ghost use Rattle.roster_model.specs.records.Pairing as pairings;
ghost use Rattle.roster_model.specs.records.Duty.{is_held_by_pairing, last_duty};
ghost use Rattle.roster_book.specs.Draft.{HasRecords, IsDraftOf, Judges, Pushes, base_of_pairing};
ghost use Rattle.roster_book.specs.Draft.{contents_of, problem_of_draft, tables_of_draft};
ghost use Rattle.roster_book.specs.Reading.{IsBookOf, TellsFirst};
ghost use Rattle.roster_problem.specs.Sound.{IsSound};
ghost use Rattle.roster_values.specs.View.{command_of};
ghost use Rattle.roster_book.specs.View as view;

use crate::book::Book;
use crate::code::Code;
use crate::duties::Duties;
use crate::fault::BookFault;
use crate::record::assign::Assign;
use crate::record::period;
use crate::refusal::Refusal;
use csv::ByteRecord;
use roster_problem::{Base, BookTables, Duty, Holder, Problem};
use roster_values::{Command, Places, Steps};
use std::alloc::{AllocError, Global};

/// The tables of the records taken so far, who is assigned to pairings, and the steps. Duties are in the
/// order of their records.
#[derive(Drop)]
pub(crate) struct Draft {
    // They have no duty: duties are kept apart.
    pub(crate) tables: BookTables,
    pub(crate) duties: Duties,
    pub(crate) assigns: Vec<Assign>,
    pub(crate) steps: Steps,
}

/// Whether it is a duty of the pairing at the place.
fn is_of_pairing(duty: &Duty, place: usize) -> bool
    ensures { result ≡ is_held_by_pairing place duty.now.holder }
{
    duty.holder == Holder::Pairing(place)
}

/// Puts an entry behind the others of its table, if the record makes one.
pub(crate) fn push<T: Drop>(entries: &mut Vec<T>, judged: Result<T, Code>) -> Result<(), Refusal>
    ensures { (told : Option model.Code) (entry : T) → Judges told entry judged
        → Pushes told entry entries.old.items entries.new.items result }
{
    entries.push(judged?)?;
    Ok(())
}

impl Draft {
    /// The contents of the first record, which has to be a period, or what is wrong with it.
    pub(crate) fn begin(alloc: Global, command: Command, fields: &ByteRecord) -> Result<Draft, Code>
        ensures { MatchResult result
            (λ draft. IsDraftOf (command_of command) 2 (fields_of fields.now ∷ [])
            (contents_of draft))
            (λ code. code_of (command_of command) [] (fields_of fields.now)
            ≡ Some (view.code_of code)) }
    {
        Ok(Draft {
            tables: BookTables::empty(alloc, period::read_first(command, fields)?),
            duties: Duties::new(alloc),
            assigns: Vec::new(alloc),
            steps: Steps::none(alloc),
        })
    }

    /// The book of the records taken, or the row of the first pairing without a duty.
    pub(crate) fn finish(self, alloc: Global) -> Result<Book, BookFault>
        requires records { HasRecords (contents_of self) }
        ensures told { (command : records.Command) (row : ℕ) (records : List Record)
            → IsDraftOf command row records (contents_of self)
            → MatchResult result (λ book. IsBookOf command records book)
            (λ fault. TellsFirst command records fault) }
        // Memory runs out only if no pairing lacks a duty.
        ensures memory { (command : records.Command) (row : ℕ) (records : List Record)
            → IsDraftOf command row records (contents_of self)
            → IsErrOf result BookFault.Memory → first_fault command records ≡ None }
        ensures device { IfErr result (λ fault. fault ≢ BookFault.Device) }
    {
        if let Some(row) = self.row_without_duty() {
            return Err(Refusal::Fault(Code::NoDuty).at(row));
        }
        let assigned = self.assigned(alloc)?;
        Ok(self.with_roster(alloc, assigned)?)
    }

    /// The book with this roster. Its records have no fault.
    fn with_roster(self, alloc: Global, assigned: Places) -> Result<Book, AllocError>
        requires sound { IsSound (problem_of_draft self) }
        requires faultless { IsFaultless (problem_of_draft self) }
        ensures { IfOk result (λ book. (book.problem ≡ problem_of_draft self)
            × (book.assigned ≡ assigned) × (book.steps ≡ self.steps)) }
    {
        let mut tables = self.tables;
        tables.duties = self.duties.into_vec();
        Ok(Book {
            problem: Problem::new(alloc, tables)?,
            assigned,
            steps: self.steps,
        })
    }

    /// The base of the pairing at the place.
    pub(crate) fn base_of(&self, place: usize) -> &Base
        requires known { place < vec_len self.now.tables.pairings }
        requires records { HasRecords (contents_of self.now) }
        ensures { result.now ≡ base_of_pairing (tables_of_draft self.now) place }
    {
        let pairing = &self.tables.pairings[place];
        &self.tables.bases[pairing.base]
    }

    /// The home base of the person at the place.
    pub(crate) fn home_of(&self, place: usize) -> &Base
        requires known { place < vec_len self.now.tables.persons }
        requires records { HasRecords (contents_of self.now) }
        ensures { result.now ≡ home_of (tables_of_draft self.now) place }
    {
        let person = &self.tables.persons[place];
        &self.tables.bases[person.base]
    }

    /// The duty of the pairing at the place that was given last.
    #[tactic(auto, using(crate::proofs::LastDuty::last_more))]
    pub(crate) fn last_duty(&self, place: usize) -> Option<&Duty>
        ensures { option_map (λ duty. duty.now) result ≡ last_duty self.now.duties place }
    {
        let mut last = None;
        for duty in self.duties.as_slice() {
            if is_of_pairing(duty, place) {
                last = Some(duty);
            }
        }
        last
    }

    /// Whether the pairing at the place has a duty.
    fn has_duty_of(&self, place: usize) -> bool
        ensures { result
            ≡ list_any (λ duty. is_held_by_pairing place duty.holder) self.now.duties }
    {
        self.duties
            .as_slice()
            .iter()
            .any(|duty| is_of_pairing(duty, place))
    }

    /// The row of the first pairing without a duty.
    fn row_without_duty(&self) -> Option<usize>
        ensures { result ≡ option_map (λ (entry : ℕ × pairings.Pairing). entry.1.row)
            (pairing_without_duty (tables_of_draft self.now)) }
    {
        for (place, pairing) in self.tables.pairings.iter().enumerate() {
            if !self.has_duty_of(place) {
                return Some(pairing.row);
            }
        }
        None
    }
}
