//! A roster that is told of.

ghost use Rattle.std.specs.Prelude.{◌≡◌, length};

use roster_desk_given::Zones;
use roster_problem::Problem;
use std::alloc::Global;
use std::marker::Model;

/// Tells of a roster, which needn't be legal. Contracts see the problem and the roster's places.
#[derive(Drop)]
pub struct Teller<'a> {
    pub(crate) alloc: Global,
    pub(crate) problem: &'a Problem,
    pub(crate) zones: &'a Zones,
    pub(crate) places: &'a [u16],
}

impl<'a> Model for Teller<'a> {
    ghost use Rattle.std.specs.Prelude.{◌≡◌, length};
    ghost use Rattle.roster_desk_words.specs.Told.{Told};

    ghost Value = { Told };

    ghost view = { λ t. record { problem = t.problem.now; places = t.places.now } };

    ghost invariant = { λ t. length t.places.now ≡ length t.problem.now.pairings };
}

impl<'a> Teller<'a> {
    /// One that tells of these places, and of instants by the zones, which are those of the book's bases.
    pub fn new(
        alloc: Global,
        problem: &'a Problem,
        zones: &'a Zones,
        places: &'a [u16],
    ) -> Teller<'a>
        requires { length places.now ≡ length problem.now.pairings }
        ensures { result ≡ record { problem = problem.now; places = places.now } }
    {
        Teller {
            alloc,
            problem,
            zones,
            places,
        }
    }
}
