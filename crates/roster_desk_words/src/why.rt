//! Who could have a pairing, and why others mustn't.

ghost use Rattle.std.specs.Prelude.{◌≡◌, ◌<◌, length};
ghost use Rattle.roster_desk_words.specs.Asked.{is_asked};

use crate::sentences::push_reason;
use crate::teller::Teller;
use crate::words::push_all;
use roster_desk_given::{Asked, Outcome, broken_with, duties_with, with_outcome};
use roster_legal_reasons::Reason;
use roster_problem::{DutyList, Problem, open_number};
use std::alloc::AllocError;

/// What stands in place of a pairing in the line of what a person has already; no pairing has that name.
const NO_PAIRING: &[u8] = b"-";

/// Whether the pairing is asked for: it is the one that is named, or open if none is.
fn is_asked(problem: &Problem, places: &[u16], p: usize, named: Option<usize>) -> bool
    requires { p < length places.now }
    ensures { result ≡ is_asked problem.now places.now p named }
{
    match named {
        Some(asked) => asked == p,
        None => places[p] == open_number(problem),
    }
}

impl<'a> Teller<'a> {
    /// Appends the rule and what breaks it.
    pub(crate) fn push_told(
        &self,
        out: &mut Vec<u8>,
        k: usize,
        list: &DutyList,
        told: Reason,
    ) -> Result<(), AllocError>
        requires { k < length self.now.problem.persons }
    {
        out.extend_from_slice(told.rule().word().as_bytes())?;
        out.extend_from_slice(b": ")?;
        push_reason(self.alloc, out, self.problem, self.zones, k, list, told)
    }

    /// Appends the line of a person who breaks a rule with the roster, or is locked.
    fn push_broken(&self, out: &mut Vec<u8>, k: usize) -> Result<(), AllocError>
        requires { k < length self.now.problem.persons }
    {
        let Some(told) = broken_with(self.alloc, self.problem, self.places, k)? else {
            return Ok(());
        };
        let list = duties_with(self.alloc, self.problem, self.places, k)?;
        let person = self.problem.person(k).id.as_bytes();
        push_all(out, &[NO_PAIRING, b" ", person, b" "])?;
        self.push_told(out, k, &list, told)?;
        out.extend_from_slice(b"\n")
    }

    /// Appends the lines of those who break a rule with the roster or are locked, of the persons asked for.
    pub(crate) fn push_all_broken(
        &self,
        out: &mut Vec<u8>,
        person: Option<usize>,
    ) -> Result<(), AllocError> {
        for k in 0..self.problem.persons().len() {
            if person.is_none_or(|asked| asked == k) {
                self.push_broken(out, k)?;
            }
        }
        Ok(())
    }

    /// Appends the person, and what the roster would cost if they had the pairing too, or why that isn't
    /// legal.
    pub(crate) fn push_outcome(
        &self,
        out: &mut Vec<u8>,
        p: usize,
        k: usize,
    ) -> Result<(), AllocError>
        requires pairing { p < length self.now.problem.pairings }
        requires person { k < length self.now.problem.persons }
    {
        push_all(out, &[self.problem.person(k).id.as_bytes(), b" "])?;
        let (moved, outcome) = with_outcome(self.alloc, self.problem, self.places, p, k)?;
        match outcome {
            Outcome::Broken(told) => {
                let list = duties_with(self.alloc, self.problem, moved.as_slice(), k)?;
                self.push_told(out, k, &list, told)
            }
            Outcome::Costs(cost) => {
                let digits = cost.to_string(self.alloc)?;
                push_all(out, &[b"OK: the roster costs ", digits.as_bytes()])
            }
        }
    }

    /// Appends the name of the pairing, with which a line begins.
    pub(crate) fn push_pairing(&self, out: &mut Vec<u8>, p: usize) -> Result<(), AllocError>
        requires { p < length self.now.problem.pairings }
    {
        push_all(out, &[self.problem.pairing(p).id.as_bytes(), b" "])
    }

    /// Appends the lines of a pairing, for each person that is asked for.
    fn push_persons(
        &self,
        out: &mut Vec<u8>,
        p: usize,
        person: Option<usize>,
    ) -> Result<(), AllocError>
        requires { p < length self.now.problem.pairings }
    {
        for k in 0..self.problem.persons().len() {
            if person.is_none_or(|asked| asked == k) {
                self.push_pairing(out, p)?;
                self.push_outcome(out, p, k)?;
                out.extend_from_slice(b"\n")?;
            }
        }
        Ok(())
    }

    /// For each pairing and person that is asked for a line: what the roster would cost if the person had the
    /// pairing too, or why that isn't legal. If no pairing is named, lines of what persons have stand before
    /// them: which rule they break with it, and by which they are locked.
    pub fn why_text(&self, asked: Asked) -> Result<Vec<u8>, AllocError> {
        let mut out = Vec::new(self.alloc);
        if asked.pairing.is_none() {
            self.push_all_broken(&mut out, asked.person)?;
        }
        for p in 0..self.places.len() {
            if is_asked(self.problem, self.places, p, asked.pairing) {
                self.push_persons(&mut out, p, asked.person)?;
            }
        }
        Ok(out)
    }
}
