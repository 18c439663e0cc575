//! `assign,PAIRING,CREW`: who flies a pairing of the roster that is to be checked.

ghost use Rattle.std.specs.Prelude.{◌≡◌, ◌≤◌, ℕ, List, Some, None, IfOk, if◌then◌else◌, length, position};
ghost use Rattle.std.specs.List.{list_any};
ghost use Rattle.csv.specs.Records.{fields_of};
ghost use Rattle.roster_model.specs.declared.limits.TheConstants.{MOST_PERSONS};
ghost use Rattle.roster_model.specs.Record.{Record, Command, AssignRecord, place_named};
ghost use Rattle.roster_model.specs.Faults.{code_of_kind, kind_in};
ghost use Rattle.roster_model.specs.records.Assign as model;
ghost use Rattle.roster_model.specs.records.Assign.{assign_of, assigned_by, assigned_number, is_assign_of};
ghost use Rattle.roster_book.specs.Draft.{HasRecords, IsDraftOf, Judges, Takes, contents_of};

use crate::code::Code;
use crate::draft::{Draft, push};
use crate::forms::field;
use crate::named::place_of;
use crate::refusal::Refusal;
use csv::ByteRecord;
use roster_values::{Places, is_identifier};
use std::alloc::{AllocError, Global};
use std::marker::Model;

/// Who flies a pairing.
#[derive(Drop)]
pub(crate) struct Assign {
    // The place of the pairing.
    pairing: usize,
    // The place of the person, if anybody flies it.
    person: Option<u16>,
}

impl Model for Assign {
    ghost use Rattle.roster_model.specs.records.Assign.{Assign as Entry};

    ghost Value = { Entry };

    ghost view = { λ a. record { pairing = a.pairing; person = a.person } };
}

/// Whether the text stands for nobody.
fn is_nobody(text: &[u8]) -> bool
    ensures { result ≡ model.is_nobody text.now }
{
    text == b"-".as_slice()
}

/// Whether all fields are of their forms.
fn is_formed(fields: &ByteRecord) -> bool
    ensures { result ≡ model.is_formed (fields_of fields.now) }
{
    let crew = field(fields, 2);
    is_identifier(field(fields, 1)) && (is_identifier(crew) || is_nobody(crew))
}

/// Whether it is one of the pairing at the place.
fn is_of(assign: &Assign, place: usize) -> bool
    ensures { result ≡ is_assign_of place assign.now }
{
    assign.pairing == place
}

/// Where the first one of the pairing at place `p` stands.
fn first_of(assigns: &[Assign], p: usize) -> Option<usize>
    ensures { result ≡ position (is_assign_of p) assigns.now }
{
    assigns.iter().position(|assign| is_of(assign, p))
}

/// The number of the pairing at place `p` in a roster, where `nobody` stands for open.
fn number_of(assigns: &[Assign], nobody: u16, p: usize) -> u16
    ensures { result ≡ assigned_number nobody assigns.now p }
{
    match first_of(assigns, p) {
        Some(i) => {
            let assign = &assigns[i];
            assign.person.unwrap_or(nobody)
        }
        None => nobody,
    }
}

/// The numbers of so many pairings in a roster, where `nobody` stands for open.
fn numbers(
    alloc: Global,
    assigns: &[Assign],
    nobody: u16,
    pairings: usize,
) -> Result<Vec<u16>, AllocError>
    ensures { IfOk result
        (λ numbers. numbers.items ≡ assigned_by nobody pairings assigns.now) }
{
    (0..pairings)
        .map(|p| number_of(assigns, nobody, p))
        .collect(alloc)
}

impl Draft {
    /// Whether the pairing at the place is assigned already.
    fn is_assigned(&self, place: usize) -> bool
        ensures { result ≡ list_any (is_assign_of place) self.now.assigns.items }
    {
        self.assigns.iter().any(|assign| is_of(assign, place))
    }

    /// The place of the person whom the text names, if it names one who was given.
    fn assignee(&self, text: &[u8]) -> Option<u16>
        requires { HasRecords (contents_of self.now) }
        ensures { result ≡ (if model.is_nobody text.now then None
            else place_named (λ person. person.id) text.now self.now.tables.persons.items) }
    {
        if is_nobody(text) {
            return None;
        }
        match place_of(&self.tables.persons, text) {
            Some(place) => Some(place as u16),
            None => None,
        }
    }

    /// The assignment that a record of one gives, or what is wrong with it.
    #[tactic(auto, unfolding(roster_model::specs::Faults::code_of_kind, roster_model::specs::records::Assign::assign_of))]
    fn judge_assign(&self, fields: &ByteRecord) -> Result<Assign, Code>
        requires { HasRecords (contents_of self.now) }
        ensures { (command : Command) (row : ℕ) (before : List Record)
            → IsDraftOf command row before (contents_of self.now)
            → Judges (code_of_kind AssignRecord before (fields_of fields.now))
            (assign_of before (fields_of fields.now)) result }
    {
        if fields.len() != 3 {
            return Err(Code::FieldCount);
        }
        if !is_formed(fields) {
            return Err(Code::FieldForm);
        }
        let Some(pairing) = place_of(&self.tables.pairings, field(fields, 1)) else {
            return Err(Code::NotGiven);
        };
        if self.is_assigned(pairing) {
            return Err(Code::GivenTwice);
        }
        let person = self.assignee(field(fields, 2));
        if person.is_none() && !is_nobody(field(fields, 2)) {
            return Err(Code::NotGiven);
        }
        Ok(Assign { pairing, person })
    }

    /// Keeps the assignment that a record of one gives, or tells what is wrong with it.
    pub(crate) fn take_assign(&mut self, fields: &ByteRecord) -> Result<(), Refusal>
        requires { HasRecords (contents_of self.old) }
        ensures { (command : Command) (row : ℕ) (before : List Record)
            → IsDraftOf command row before (contents_of self.old)
            → Some AssignRecord ≡ kind_in command (fields_of fields.now)
            → Takes command row before (fields_of fields.now) (contents_of self.new) result }
    {
        let assign = self.judge_assign(fields);
        push(&mut self.assigns, assign)
    }

    /// The roster of the assignments so far: who flies each pairing, which is open if none names it.
    pub(crate) fn assigned(&self, alloc: Global) -> Result<Places, AllocError>
        requires { length self.now.tables.persons.items ≤ MOST_PERSONS }
        ensures { IfOk result (λ places. places ≡ assigned_by (length self.now.tables.persons.items)
            (length self.now.tables.pairings.items) self.now.assigns.items) }
    {
        let nobody = self.tables.persons.len() as u16;
        let numbers = numbers(alloc, &self.assigns, nobody, self.tables.pairings.len())?;
        Ok(Places::new(numbers))
    }
}
