//! Rosters by cost, and then by their lists.

ghost use Rattle.std.specs.Prelude.{◌≡◌, true, not, IsTrue};
ghost use Rattle.std.proofs.Common.{rules};
ghost use Rattle.std.specs.Cmp.{partial_order_from_own_ties};
ghost use Rattle.std.specs.Cmp.Rules.{comparing};
ghost use Rattle.std.specs.Ordering.{as_partial_cmp};
ghost use Rattle.roster_model.specs.Rosters.{key_le};
ghost use Rattle.roster_cost.specs.Keys.{compare, is_same};

use crate::laws::{keys_are_in_order, order_of_keys};
use roster_values::Roster;
use std::cmp::Ordering;
use std::marker::Model;

/// What a roster costs, and its list of places, which is borrowed. Keys are in the order of rosters:
/// by cost, and then by the lists from the front.
#[derive(Drop)]
pub struct Key<'a> {
    /// What the roster costs, in cost units, by whoever made the key.
    pub cost: i64,
    /// Who flies each pairing.
    pub places: &'a [u16],
}

impl<'a> Model for Key<'a> {
    ghost use Rattle.roster_model.specs.Rosters.{Key as Entry};

    ghost Value = { Entry };

    ghost view = { λ k. record { cost = k.cost; places = k.places.now } };
}

impl<'a> Key<'a> {
    /// The key of a roster, with the cost that the roster has.
    pub fn of(roster: &'a Roster) -> Key<'a>
        ensures { result ≡ roster.now }
    {
        Key {
            cost: roster.cost,
            places: roster.places.as_slice(),
        }
    }
}

impl<'a> PartialEq for Key<'a> {
    ghost eq = { is_same };

    ghost laws = { Prim.search (comparing, rules) };

    fn eq(&self, other: &Key<'a>) -> bool {
        self.cost == other.cost && self.places == other.places
    }
}

impl<'a> Eq for Key<'a> {
    ghost laws = { Prim.search (comparing, rules) };
}

impl<'a> PartialOrd for Key<'a> {
    ghost partial_cmp = { as_partial_cmp compare };

    ghost laws = { partial_order_from_own_ties (Prim.search (comparing, rules))
        (Prim.search (comparing, rules)) };

    fn partial_cmp(&self, other: &Key<'a>) -> Option<Ordering> {
        Some(self.cmp(other))
    }
}

impl<'a> Ord for Key<'a> {
    ghost cmp = { compare };

    ghost total = { Prim.search (comparing, rules) };

    ghost matches_partial_cmp = { Prim.search (comparing, rules) };

    ghost matches_eq = { Prim.search (comparing, rules) };

    fn cmp(&self, other: &Key<'a>) -> Ordering {
        self.cost
            .cmp(&other.cost)
            .then(self.places.cmp(other.places))
    }
}

/// Whether the first roster's key is before the other's. The costs are those that the rosters have.
pub fn comes_before(roster: &Roster, other: &Roster) -> bool
    ensures value { result ≡ not (key_le other.now roster.now) }
    ensures before { IsTrue result → key_le roster.now other.now ≡ true }
{
    order_of_keys();
    keys_are_in_order();
    Key::of(roster) < Key::of(other)
}
