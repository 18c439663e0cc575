//! What is told of a plan while it is made.

use crate::ending::tell_text;
use roster_desk_program::Keeping;
use roster_desk_run::Starter;
use roster_plan::{Phase, Planned, Watcher};
use roster_problem::{Problem, open_number};
use std::alloc::{AllocError, Global};
use std::str;
use std::time::Instant;

/// Tells standard error what is known of a plan, as far as that is wanted.
#[derive(Drop)]
pub(crate) struct Companion<'a> {
    rt: &'a HostRuntime,
    is_told: bool,
    // When the plan was begun, if the clock tells it.
    begun: Option<Instant>,
    // The cost and the bound that are known.
    known: Option<(i64, i64)>,
    // The cost of the last line, and its second.
    told: Option<(i64, u64)>,
    // The line that isn't told yet, if one isn't.
    waiting: Option<String>,
}

impl<'a> Companion<'a> {
    /// Of a plan of which nothing is known so far.
    pub(crate) fn new(rt: &'a HostRuntime, is_told: bool) -> Companion<'a> {
        Companion {
            rt,
            is_told,
            begun: Instant::now(rt).ok(),
            known: None,
            told: None,
            waiting: None,
        }
    }

    /// The whole seconds since the plan was begun.
    fn seconds(&self) -> u64 {
        match &self.begun {
            Some(begun) => begun.elapsed(self.rt).map_or(0, |time| time.as_secs()),
            None => 0,
        }
    }

    /// A line, if its numbers are new. One of a new cost is told at once, and others at most once a second.
    fn line(&mut self, text: String, seconds: u64, cost: i64, bound: i64) {
        if self.known == Some((cost, bound)) {
            return;
        }
        self.known = Some((cost, bound));
        self.waiting = Some(text);
        if self.told != Some((cost, seconds)) {
            self.told = Some((cost, seconds));
            self.tell_waiting();
        }
    }

    /// Tells the line that isn't told yet, if one isn't.
    fn tell_waiting(&mut self) {
        if let Some(text) = self.waiting.take() {
            let rt = self.rt;
            let _ = eprintln!(rt; "{text}");
        }
    }
}

/// The line of what is known by a step. A step of one base names it.
fn line_of(
    alloc: Global,
    problem: &Problem,
    base: Option<usize>,
    step: Phase,
    planned: &Planned,
    seconds: u64,
) -> Result<String, AllocError> {
    let of_base = match base {
        Some(base) => match name_of(problem, base) {
            Some(name) => format!(in alloc; " of {name}")?,
            None => String::new(alloc),
        },
        None => String::new(alloc),
    };
    let (cost, bound) = (planned.roster.cost, planned.bound);
    let gap = cost.saturating_sub(bound);
    let nobody = open_number(problem);
    let places = planned.roster.places.as_slice();
    let open = places.iter().filter(|place| **place == nobody).count();
    format!(in alloc;
        "{step}{of_base}: cost {cost}, bound {bound}, gap {gap}, {open} open, {seconds} s"
    )
}

impl<'a> Watcher for Companion<'a> {
    fn tell(&mut self, problem: &Problem, base: Option<usize>, step: Phase, planned: &Planned) {
        if !self.is_told {
            return;
        }
        let seconds = self.seconds();
        if let Ok(text) = line_of(self.rt.alloc(), problem, base, step, planned, seconds) {
            self.line(text, seconds, planned.roster.cost, planned.bound);
        }
    }

    fn leave_out(&mut self, problem: &Problem, p: usize, k: usize) {
        let rt = self.rt;
        let pairing = &problem.pairings()[p];
        let person = problem.person(k);
        let names = (
            str::from_utf8(pairing.id.as_bytes()),
            str::from_utf8(person.id.as_bytes()),
        );
        if let (Ok(pairing), Ok(person)) = names {
            let _ = eprintln!(rt; "left out of the start: {pairing} of {person}");
        }
    }
}

impl<'a> Starter for Companion<'a> {
    fn pass_over(&mut self, lines: &[u8]) {
        tell_text(self.rt, lines);
    }
}

impl<'a> Keeping for Companion<'a> {
    fn unkept(&mut self, path: &str) {
        let rt = self.rt;
        let _ = eprintln!(rt; "error: {path} can't be written");
    }

    fn finish(&mut self) {
        self.tell_waiting();
    }
}

/// The name of the base at the place, if somebody is of it.
fn name_of(problem: &Problem, base: usize) -> Option<&str> {
    let k = problem
        .persons()
        .iter()
        .position(|person| person.base == base)?;
    str::from_utf8(problem.home(k).id.as_bytes()).ok()
}
