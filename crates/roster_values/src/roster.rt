//! Who flies what.

ghost use Rattle.std.specs.Prelude.{◌≡◌, IfOk, length};

use std::alloc::{AllocError, Global};
use std::marker::Model;

/// For each pairing in book order the place of the person who flies it, or the number of persons
/// if it is left open.
#[derive(Drop)]
pub struct Places {
    places: Vec<u16>,
}

impl Model for Places {
    ghost use Rattle.std.specs.Prelude.{List, ℕ};

    ghost Value = { List ℕ };

    ghost view = { λ p. p.places.items };
}

impl Places {
    /// The places in the vector.
    pub fn new(places: Vec<u16>) -> Places
        ensures { result ≡ places.items }
    {
        Places { places }
    }

    /// One place for each pairing in book order.
    pub fn as_slice(&self) -> &[u16]
        ensures { result.now ≡ self.now }
    {
        &self.places
    }

    /// Becomes the places of another list of the same length. It takes no memory.
    pub fn copy_from_slice(&mut self, places: &[u16])
        requires { length self.old ≡ length places.now }
        ensures { self.new ≡ places.now }
    {
        self.places.copy_from_slice(places);
    }

    /// Gives the vector back.
    pub fn into_vec(self) -> Vec<u16>
        ensures { result.items ≡ self }
    {
        self.places
    }
}

/// A roster, and a cost. That it is what the places cost is the word of whoever made it: plain data
/// that a caller may write, so a reader that counts on it asks for it. Contracts see it as its key.
#[derive(Drop)]
pub struct Roster {
    /// Who flies each pairing.
    pub places: Places,
    /// The penalties of open pairings, the units of placed ones, and the missed targets, in all, in
    /// cost units.
    pub cost: i64,
}

impl Model for Roster {
    ghost use Rattle.roster_model.specs.Rosters.{Key};

    ghost Value = { Key };

    ghost view = { λ r. record { cost = r.cost; places = r.places } };
}

impl Roster {
    /// The same roster again.
    pub fn copy(&self, alloc: Global) -> Result<Roster, AllocError>
        ensures { IfOk result (λ copy. copy ≡ self.now) }
    {
        let places = self.places.as_slice().to_vec(alloc)?;
        Ok(Roster {
            places: Places::new(places),
            cost: self.cost,
        })
    }
}
