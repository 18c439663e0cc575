//! `step,WORD,W` and `step,WORD,W,NUMBER`: what a worker does in a search that is replayed.

ghost use Rattle.std.specs.Prelude.{◌≡◌, ◌&&◌, ◌||◌, not, ℕ, List, Some, None, unsigned_abs, if◌then◌else◌};
ghost use Rattle.std.specs.Prelude.{option_map};
ghost use Rattle.csv.specs.Records.{fields_of};
ghost use Rattle.roster_model.specs.declared.limits.TheConstants as limits;
ghost use Rattle.roster_model.specs.Form as form;
ghost use Rattle.roster_model.specs.Form.{is_amount, number_of};
ghost use Rattle.roster_model.specs.Record.{Record, Command, StepRecord};
ghost use Rattle.roster_model.specs.Faults.{code_of_kind, kind_in};
ghost use Rattle.roster_model.specs.records.Step as model;
ghost use Rattle.roster_book.specs.Draft.{IsDraftOf, JudgesStep, Takes, contents_of};
ghost use Rattle.roster_book.specs.View.{move_of};
ghost use Rattle.roster_values.specs.View.{step_of};

use crate::code::Code;
use crate::draft::Draft;
use crate::forms::{amount, field, is_number};
use crate::refusal::Refusal;
use csv::ByteRecord;
use roster_model::limits::{LAST_WORKER, MOST_STEP_NUMBER, MOST_STEPS};
use roster_values::Step;

/// A step without its numbers.
#[derive(Clone, Copy)]
pub(crate) enum Move {
    Take,
    Halve,
    Descend,
    Back,
    Search,
}

/// What the word in the second field stands for.
fn move_in(fields: &ByteRecord) -> Option<Move>
    ensures { option_map move_of result ≡ model.move_in (fields_of fields.now) }
{
    let word = field(fields, 1);
    if word == b"take".as_slice() {
        return Some(Move::Take);
    }
    if word == b"halve".as_slice() {
        return Some(Move::Halve);
    }
    if word == b"descend".as_slice() {
        return Some(Move::Descend);
    }
    if word == b"back".as_slice() {
        return Some(Move::Back);
    }
    if word == b"search".as_slice() {
        return Some(Move::Search);
    }
    None
}

/// Whether it has a number besides that of its worker.
fn is_numbered(named: Move) -> bool
    ensures { result ≡ model.is_numbered (move_of named) }
{
    match named {
        Move::Take | Move::Search => true,
        Move::Halve | Move::Descend | Move::Back => false,
    }
}

/// Whether the record has to have the fourth field.
fn has_number(fields: &ByteRecord) -> bool
    ensures { result ≡ model.has_number (fields_of fields.now) }
{
    match move_in(fields) {
        Some(named) => is_numbered(named),
        None => false,
    }
}

/// The fields that the record has to have.
fn columns(fields: &ByteRecord) -> usize
    ensures { result ≡ model.columns (fields_of fields.now) }
{
    if has_number(fields) { 4 } else { 3 }
}

/// Whether the fourth field is of its form, if the record has to have it.
fn is_number_formed(fields: &ByteRecord) -> bool
    ensures { result ≡ (not (model.has_number (fields_of fields.now))
        || form.is_number (model.number_in (fields_of fields.now))) }
{
    !has_number(fields) || is_number(field(fields, 3))
}

/// The number besides the worker's, if it is within its limits; 0 if there is none.
fn number_besides(fields: &ByteRecord) -> Option<u32>
    ensures { result ≡ (if model.has_number (fields_of fields.now)
        then (if form.is_number (model.number_in (fields_of fields.now))
        && is_amount limits.MOST_STEP_NUMBER (number_of (model.number_in (fields_of fields.now)))
        then Some (unsigned_abs (number_of (model.number_in (fields_of fields.now)))) else None)
        else Some 0) }
{
    if has_number(fields) {
        amount(field(fields, 3), MOST_STEP_NUMBER)
    } else {
        Some(0)
    }
}

/// The step with these numbers.
fn step_by(named: Move, worker: usize, number: usize) -> Step
    ensures { step_of result ≡ model.step_by (move_of named) worker number }
{
    match named {
        Move::Take => Step::Take {
            worker,
            place: number,
        },
        Move::Halve => Step::Halve { worker },
        Move::Descend => Step::Descend { worker },
        Move::Back => Step::Back { worker },
        Move::Search => Step::Search {
            worker,
            every: number,
        },
    }
}

impl Draft {
    /// The step that a record of one gives, or what is wrong with it.
    #[tactic(auto, unfolding(roster_model::specs::Faults::code_of_kind, roster_model::specs::records::Step::step_of))]
    fn judge_step(&self, fields: &ByteRecord) -> Result<Step, Code>
        ensures { (command : Command) (row : ℕ) (before : List Record)
            → IsDraftOf command row before (contents_of self.now)
            → JudgesStep (code_of_kind StepRecord before (fields_of fields.now))
            (model.step_of before (fields_of fields.now)) result }
    {
        if fields.len() != columns(fields) {
            return Err(Code::FieldCount);
        }
        let Some(named) = move_in(fields) else {
            return Err(Code::FieldForm);
        };
        if !is_number(field(fields, 2)) || !is_number_formed(fields) {
            return Err(Code::FieldForm);
        }
        let Some(worker) = amount(field(fields, 2), LAST_WORKER) else {
            return Err(Code::OutOfLimits);
        };
        let Some(number) = number_besides(fields) else {
            return Err(Code::OutOfLimits);
        };
        if self.steps.len() >= MOST_STEPS {
            return Err(Code::NoRoom);
        }
        Ok(step_by(named, worker as usize, number as usize))
    }

    /// Keeps the step that a record of one gives, or tells what is wrong with it.
    pub(crate) fn take_step(&mut self, fields: &ByteRecord) -> Result<(), Refusal>
        ensures { (command : Command) (row : ℕ) (before : List Record)
            → IsDraftOf command row before (contents_of self.old)
            → Some StepRecord ≡ kind_in command (fields_of fields.now)
            → Takes command row before (fields_of fields.now) (contents_of self.new) result }
    {
        let step = self.judge_step(fields)?;
        self.steps.push(step)?;
        Ok(())
    }
}
