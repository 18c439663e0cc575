//! Persons and pairings of a book by their names.

ghost use Rattle.std.specs.Prelude.{◌≡◌, ◌<◌, IfSome, length};
ghost use Rattle.std.specs.Str.{bytes_eq};
ghost use Rattle.roster_model.specs.Record.{place_named};

use roster_problem::Problem;
use roster_values::Name;

/// Whether the text is the name.
fn is_name(name: &Name, text: &[u8]) -> bool
    ensures { result ≡ bytes_eq name.now text.now }
{
    name.as_bytes() == text
}

/// The place of the pairing with this name, if the book has one.
#[tactic(auto, unfolding(roster_model::specs::Record::place_named))]
pub fn pairing_named(problem: &Problem, name: &[u8]) -> Option<usize>
    ensures value { result
        ≡ place_named (λ pairing. pairing.id) name.now problem.now.pairings }
    ensures within { IfSome result (λ p. p < length problem.now.pairings) }
{
    problem
        .pairings()
        .iter()
        .position(|pairing| is_name(&pairing.id, name))
}

/// The place of the person with this name, if the book has one.
#[tactic(auto, unfolding(roster_model::specs::Record::place_named))]
pub fn person_named(problem: &Problem, name: &[u8]) -> Option<usize>
    ensures value { result ≡ place_named (λ person. person.id) name.now problem.now.persons }
    ensures within { IfSome result (λ k. k < length problem.now.persons) }
{
    problem
        .persons()
        .iter()
        .position(|person| is_name(&person.id, name))
}
