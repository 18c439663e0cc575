//! What is to be rostered.

ghost use Rattle.std.specs.Prelude.{◌≡◌, ◌<◌, ◌≤◌, IfOk, Some, length, slice_get, unsigned_abs};
ghost use Rattle.roster_model.specs.declared.limits.TheConstants.{MOST_UNITS, MOST_WEIGHT};
ghost use Rattle.roster_model.specs.Faults.{IsFaultless};
ghost use Rattle.roster_model.specs.Problem.{home_of, units_of, weight_of};
ghost use Rattle.roster_problem.specs.Duties.{AreFlown, ArePositionsOf, AreTimed, IsInOrder, is_of_pairing};
ghost use Rattle.roster_problem.specs.Duties.{is_of_person};
ghost use Rattle.roster_problem.specs.Sound.{IsSound};

use crate::base::Base;
use crate::duty::Duty;
use crate::index::{Lists, by_place};
use crate::leave::Leave;
use crate::order::in_order;
use crate::pairing::Pairing;
use crate::person::Person;
use crate::tables::BookTables;
use roster_instants::{BaseDays, Period};
use roster_model::limits::MOST_DUTIES;
use std::alloc::{AllocError, Global};
use std::marker::Model;

/// What is to be rostered: the tables that the records of a book without a fault make.
///
/// A person and a pairing is named by its place in book order, from 0.
#[derive(Drop)]
pub struct Problem {
    // Duties are in their order in time.
    pub(crate) tables: BookTables,
    by_pairing: Lists,
    by_person: Lists,
    pub(crate) on_leave: Lists,
}

impl Model for Problem {
    ghost use Rattle.roster_model.specs.Problem as model;

    ghost Value = { model.Problem };

    ghost use Rattle.roster_problem.specs.Duties.{IsKept};
    ghost use Rattle.roster_problem.specs.Sound.{tables_of};

    ghost view = { λ p. tables_of p.tables };

    ghost invariant = { λ p. IsKept (tables_of p.tables) p.by_pairing p.by_person p.on_leave };
}

impl Problem {
    ghost use Rattle.roster_problem.specs.Sound.{ordered};

    /// The problem of a book without a fault. Duties are put into their order in time.
    pub fn new(alloc: Global, mut tables: BookTables) -> Result<Problem, AllocError>
        requires sound { IsSound (ordered tables) }
        requires faultless { IsFaultless (ordered tables) }
        ensures { IfOk result (λ problem. problem ≡ ordered tables) }
    {
        let duties = in_order(alloc, tables.duties)?;
        let by_pairing = by_place(alloc, tables.pairings.len(), &duties, Duty::pairing)?;
        let by_person = by_place(alloc, tables.persons.len(), &duties, Duty::person)?;
        let on_leave = by_place(alloc, tables.persons.len(), &tables.leaves, Leave::place)?;
        tables.duties = duties;
        Ok(Problem {
            tables,
            by_pairing,
            by_person,
            on_leave,
        })
    }

    /// Nothing but what each problem keeps: its tables are within their limits, its references are
    /// there, its records have no fault, and its duties are in order, each with its sectors in it.
    pub fn is_sound(&self)
        ensures sound { IsSound self.now }
        ensures faultless { IsFaultless self.now }
        ensures ordered { IsInOrder self.now.duties }
        ensures timed { AreTimed self.now.duties }
        ensures flown { AreFlown self.now.duties }
    {
        self.duties();
    }

    /// The month.
    pub fn period(&self) -> Period
        ensures { result ≡ self.now.period }
    {
        self.tables.period
    }

    /// The cost of a minute by which a person's flight in the month misses the target; 0 if the book
    /// gives none.
    pub fn weight(&self) -> u32
        ensures value { result ≡ weight_of self.now }
        ensures bound { result ≤ MOST_WEIGHT }
    {
        self.tables.weight.unwrap_or(0)
    }

    /// The cost units of the person at place `k` with the pairing at place `p`; 0 if the book gives
    /// none. It looks at no other cost.
    pub fn units(&self, k: usize, p: usize) -> i64
        ensures value { result ≡ units_of self.now k p }
        ensures bound { unsigned_abs result ≤ MOST_UNITS }
    {
        i64::from(self.tables.costs.given(k, p).unwrap_or(0))
    }

    /// The persons, in book order.
    pub fn persons(&self) -> &[Person]
        ensures value { result.now ≡ self.now.persons }
        ensures sound { IsSound self.now }
        ensures faultless { IsFaultless self.now }
    {
        self.tables.persons.as_slice()
    }

    /// The pairings, in book order.
    pub fn pairings(&self) -> &[Pairing]
        ensures value { result.now ≡ self.now.pairings }
        ensures sound { IsSound self.now }
        ensures faultless { IsFaultless self.now }
    {
        self.tables.pairings.as_slice()
    }

    /// All duties, by report, release and row.
    pub fn duties(&self) -> &[Duty]
        ensures value { result.now ≡ self.now.duties }
        ensures sound { IsSound self.now }
        ensures faultless { IsFaultless self.now }
        ensures ordered { IsInOrder self.now.duties }
        ensures timed { AreTimed self.now.duties }
        ensures flown { AreFlown self.now.duties }
    {
        self.tables.duties.as_slice()
    }

    /// The positions in `duties` of the duties of the pairing at place `p`, in ascending order. It
    /// looks at no other duty.
    pub fn duties_of(&self, p: usize) -> &[u16]
        requires { p < length self.now.pairings }
        ensures positions { ArePositionsOf (is_of_pairing p) self.now.duties result.now }
        ensures bound { length result.now ≤ MOST_DUTIES }
    {
        self.by_pairing.list(p)
    }

    /// The positions in `duties` of the duties that are fixed for the person at place `k`, in
    /// ascending order. It looks at no other duty.
    pub fn fixed(&self, k: usize) -> &[u16]
        requires { k < length self.now.persons }
        ensures positions { ArePositionsOf (is_of_person k) self.now.duties result.now }
        ensures bound { length result.now ≤ MOST_DUTIES }
    {
        self.by_person.list(k)
    }

    /// The person at place `k`.
    pub fn person(&self, k: usize) -> &Person
        requires { k < length self.now.persons }
        ensures { slice_get self.now.persons k ≡ Some result.now }
    {
        &self.tables.persons[k]
    }

    /// The pairing at place `p`.
    pub fn pairing(&self, p: usize) -> &Pairing
        requires { p < length self.now.pairings }
        ensures { slice_get self.now.pairings p ≡ Some result.now }
    {
        &self.tables.pairings[p]
    }

    /// The home base of the person at place `k`.
    pub fn home(&self, k: usize) -> &Base
        requires { k < length self.now.persons }
        ensures { result.now ≡ home_of self.now k }
    {
        let person = &self.tables.persons[k];
        &self.tables.bases[person.base]
    }

    /// The days of the window as the clocks of that person's home base show them.
    pub fn days_of(&self, k: usize) -> &BaseDays
        requires { k < length self.now.persons }
        ensures { result.now ≡ (home_of self.now k).days }
    {
        &self.home(k).days
    }
}
