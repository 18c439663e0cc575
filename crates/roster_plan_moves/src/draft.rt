//! A roster that is legal at every moment.

ghost use Rattle.std.specs.Prelude.{◌≡◌, ◌<◌, All, IfOk, length};
ghost use Rattle.roster_model.specs.Rosters.{IsLegalRoster};
ghost use Rattle.roster_model.specs.Rules.{IsLegal};

use crate::sets::is_within;
use roster_legal::{Judge, part_of_legal_is_legal};
use roster_problem::{Problem, open_number, put};
use roster_values::Set;
use std::alloc::{AllocError, Global};
use std::marker::Model;

/// A roster that changes, the one that it goes back to, and the best so far. Each of them is legal,
/// which the type keeps. Contracts see the problem.
#[derive(Drop)]
pub(crate) struct RosterDraft<'a> {
    problem: &'a Problem,
    judge: Judge<'a>,
    places: Vec<u16>,
    settled: Vec<u16>,
    best: Vec<u16>,
}

impl<'a> Model for RosterDraft<'a> {
    ghost use Rattle.roster_model.specs.Problem.{Problem};
    ghost use Rattle.roster_plan_moves.specs.Drafts.{IsDraft};

    ghost Value = { Problem };

    ghost view = { λ d. d.problem.now };

    ghost invariant = { λ d. IsDraft d.problem.now d.judge d.places.items d.settled.items
        d.best.items };
}

impl<'a> RosterDraft<'a> {
    /// Three times the same roster.
    pub(crate) fn new(
        alloc: Global,
        problem: &'a Problem,
        places: &[u16],
    ) -> Result<RosterDraft<'a>, AllocError>
        requires { IsLegalRoster problem.now places.now }
        ensures { IfOk result (λ draft. draft ≡ problem.now) }
    {
        let first = copied(alloc, places)?;
        let settled = copied(alloc, places)?;
        let best = copied(alloc, places)?;
        Ok(RosterDraft {
            problem,
            judge: Judge::new(alloc, problem),
            places: first,
            settled,
            best,
        })
    }

    /// The places as they are now.
    pub(crate) fn places(&self) -> &[u16] {
        &self.places
    }

    /// Gives the set to person `k`, if it is legal: who had any of it loses that, and what `k` had
    /// beside it is left open. Else, or if there is no such person or pairing, nothing changes.
    pub(crate) fn assign(&mut self, k: usize, set: &Set) -> Result<bool, AllocError>
        ensures { self.new ≡ self.old }
    {
        let problem = self.problem;
        if k >= problem.persons().len() || !is_within(set, problem.pairings().len()) {
            return Ok(false);
        }
        if !self.judge.is_legal(k, set)? {
            return Ok(false);
        }
        reassign(problem, &mut self.places, k, set);
        Ok(true)
    }

    /// Takes the places as they are now for those to go back to.
    pub(crate) fn settle(&mut self)
        ensures { self.new ≡ self.old }
    {
        self.settled.copy_from_slice(&self.places);
    }

    /// Goes back to the places that were settled.
    pub(crate) fn go_back(&mut self)
        ensures { self.new ≡ self.old }
    {
        self.places.copy_from_slice(&self.settled);
    }

    /// Takes the places as they are now for the best.
    pub(crate) fn note(&mut self)
        ensures { self.new ≡ self.old }
    {
        self.best.copy_from_slice(&self.places);
    }

    /// A copy of the best roster.
    pub(crate) fn best(&self, alloc: Global) -> Result<Vec<u16>, AllocError>
        ensures { IfOk result (λ best. IsLegalRoster self.now best.items) }
    {
        copied(alloc, &self.best)
    }
}

/// A copy of the places.
fn copied(alloc: Global, places: &[u16]) -> Result<Vec<u16>, AllocError>
    ensures { IfOk result (λ copy. copy.items ≡ places.now) }
{
    let mut copy = Vec::new(alloc);
    copy.extend_from_slice(places)?;
    Ok(copy)
}

/// Gives the set to person `k`. Who had any of it loses that, and what `k` had beside it is left open.
fn reassign(problem: &Problem, places: &mut [u16], k: usize, set: &Set)
    requires roster { IsLegalRoster problem.now places.old }
    requires person { k < length problem.now.persons }
    requires pairings { All (λ p. p < length problem.now.pairings) set.now }
    requires legal { IsLegal problem.now k set.now }
    ensures { IsLegalRoster problem.now places.new }
{
    part_of_legal_is_legal();
    problem.is_sound();
    // A set is ascending.
    let _ = set.first_from(0);
    let had = Set::of_places(places, k);
    put(places, &had, open_number(problem));
    put(places, set, k as u16);
}
