//! Costs by person and pairing.

ghost use Rattle.std.specs.Prelude.{◌≡◌, ◌*◌, ◌<◌, ◌++◌, ◌∷◌, [], ℕ, None, OnErr, OnOk, length};
ghost use Rattle.std.specs.Prelude.{slice_index_or};
ghost use Rattle.roster_model.specs.records.Cost.{units_given};

use crate::cost::Cost;
use roster_model::limits::{MOST_PAIRINGS, MOST_PERSONS};
use std::alloc::{AllocError, Global};
use std::marker::Model;

/// Costs in the order given, of persons below `MOST_PERSONS` with pairings below `MOST_PAIRINGS`. The
/// units of a person with a pairing are found without a look at the others.
#[derive(Drop)]
pub struct Costs {
    costs: Vec<Cost>,
    // A row of `MOST_PAIRINGS` for each person, as far as units are given.
    table: Vec<Option<i32>>,
}

impl Model for Costs {
    ghost use Rattle.std.specs.Prelude.{List};
    ghost use Rattle.roster_model.specs.records.Cost.{Cost as Entry};
    ghost use Rattle.roster_problem.specs.Costs.{AreUnitsOf};

    ghost Value = { List Entry };

    ghost view = { λ c. c.costs.items };

    ghost invariant = { λ c. AreUnitsOf c.costs.items c.table.items };
}

impl Costs {
    /// No costs.
    pub fn new(alloc: Global) -> Costs
        ensures { result ≡ [] }
    {
        Costs {
            costs: Vec::new(alloc),
            table: Vec::new(alloc),
        }
    }

    /// How many there are.
    pub fn len(&self) -> usize
        ensures { result ≡ length self.now }
    {
        self.costs.len()
    }

    /// The units of the person at place `k` with the pairing at place `p`, if they are given.
    pub fn given(&self, k: usize, p: usize) -> Option<i32>
        ensures { result ≡ units_given self.now k p }
    {
        let table = self.table.as_slice();
        if k >= MOST_PERSONS || p >= MOST_PAIRINGS {
            return None;
        }
        match table.get(k * MOST_PAIRINGS + p) {
            Some(units) => *units,
            None => None,
        }
    }

    /// Puts a cost behind the others. Its person and its pairing have none yet.
    pub fn push(&mut self, cost: Cost) -> Result<(), AllocError>
        requires person { cost.person < MOST_PERSONS }
        requires pairing { cost.pairing < MOST_PAIRINGS }
        requires once { units_given self.old cost.person cost.pairing ≡ None }
        ensures behind { OnOk result (self.new ≡ self.old ++ cost ∷ []) }
        ensures same { OnErr result (self.new ≡ self.old) }
    {
        let place = cost.person * MOST_PAIRINGS + cost.pairing;
        let units = cost.units;
        make_room(&mut self.table, place)?;
        self.costs.push(cost)?;
        self.table[place] = Some(units);
        Ok(())
    }
}

/// Makes the table long enough to have the place. What it has doesn't change.
fn make_room(table: &mut Vec<Option<i32>>, place: usize) -> Result<(), AllocError>
    requires { place < MOST_PERSONS * MOST_PAIRINGS }
    ensures same { (i : ℕ) → slice_index_or table.new.items i None
        ≡ slice_index_or table.old.items i None }
    ensures room { OnOk result (place < length table.new.items) }
{
    if table.len() <= place {
        table.resize(place + 1, None)?;
    }
    Ok(())
}
