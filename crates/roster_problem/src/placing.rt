//! A number at all places of a set.

ghost use Rattle.std.specs.Prelude.{◌≡◌, ◌<◌, ◌≤◌, ◌↔◌, All, IsTrue, length, slice_index};
ghost use Rattle.roster_model.specs.Places as model;
ghost use Rattle.roster_problem.specs.Placing.{IsPut};

use crate::problem::Problem;
use roster_model::limits::MOST_PERSONS;
use roster_values::Set;

/// The number that stands for open.
pub fn open_number(problem: &Problem) -> u16
    ensures value { result ≡ model.open_number problem.now }
    ensures bound { result ≤ MOST_PERSONS }
{
    problem.persons().len() as u16
}

/// Whether the list has the number at each place of the set.
pub fn has_throughout(places: &[u16], set: &Set, number: u16) -> bool
    requires { All (λ p. p < length places.now) set.now }
    ensures { IsTrue result ↔ All (λ p. slice_index places.now p ≡ number) set.now }
{
    let mut from = 0;
    while let Some(p) = set.first_from(from) {
        if places[p] != number {
            return false;
        }
        from = p + 1;
    }
    true
}

/// Puts the number at each place of the set. Elsewhere the list stays as it is.
pub fn put(places: &mut [u16], set: &Set, number: u16)
    requires { All (λ p. p < length places.old) set.now }
    ensures { IsPut number set.now places.old places.new }
{
    let mut from = 0;
    while let Some(p) = set.first_from(from) {
        places[p] = number;
        from = p + 1;
    }
}
