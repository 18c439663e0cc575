//! The tables of a problem.

ghost use Rattle.std.specs.Prelude.{◌≡◌};
ghost use Rattle.roster_problem.specs.Sound.{tables_of, tables_of_period};

use crate::base::Base;
use crate::costs::Costs;
use crate::duty::Duty;
use crate::leave::Leave;
use crate::pairing::Pairing;
use crate::person::Person;
use roster_instants::Period;
use std::alloc::Global;

/// The tables of a problem. They are given in book order; [`Problem`](crate::Problem) puts the duties
/// into their order in time.
#[derive(Drop)]
pub struct BookTables {
    /// The month.
    pub period: Period,
    /// The cost of a minute by which a person's flight in the month misses the target, if it is given.
    pub weight: Option<u32>,
    /// The bases.
    pub bases: Vec<Base>,
    /// The persons.
    pub persons: Vec<Person>,
    /// The pairings.
    pub pairings: Vec<Pairing>,
    /// The duties.
    pub duties: Vec<Duty>,
    /// The leaves.
    pub leaves: Vec<Leave>,
    /// The costs.
    pub costs: Costs,
}

impl BookTables {
    /// The tables of a month alone, with no entry.
    pub fn empty(alloc: Global, period: Period) -> BookTables
        ensures { tables_of result ≡ tables_of_period period }
    {
        BookTables {
            period,
            weight: None,
            bases: Vec::new(alloc),
            persons: Vec::new(alloc),
            pairings: Vec::new(alloc),
            duties: Vec::new(alloc),
            leaves: Vec::new(alloc),
            costs: Costs::new(alloc),
        }
    }
}
