//! Which pairings and persons are asked for.

ghost use Rattle.std.specs.Prelude.{◌≡◌, ◌⊎◌, Ok, Err, IfOk, IfErr, option_map};
ghost use Rattle.roster_desk_given.specs.Asked.{pairing_asked, person_asked};

use roster_desk_reports::{pairing_named, person_named};
use roster_problem::Problem;

/// What is asked for, by places of the book: all that are open, and all persons, if nothing is named.
#[derive(Clone, Copy)]
pub struct Asked {
    /// The pairing.
    pub pairing: Option<usize>,
    /// The person.
    pub person: Option<usize>,
}

/// A name that the book doesn't have.
#[derive(Clone, Copy, PartialEq, Eq)]
pub enum Unknown {
    /// A pairing's.
    Pairing,
    /// A person's.
    Person,
}

/// The place of the pairing, if one is named.
fn find_pairing(problem: &Problem, name: Option<&str>) -> Result<Option<usize>, Unknown>
    ensures { result ≡ pairing_asked problem.now (option_map (λ s. s.now) name.entry) }
{
    let Some(name) = name else { return Ok(None) };
    match pairing_named(problem, name.as_bytes()) {
        Some(p) => Ok(Some(p)),
        None => Err(Unknown::Pairing),
    }
}

/// The place of the person, if one is named.
fn find_person(problem: &Problem, name: Option<&str>) -> Result<Option<usize>, Unknown>
    ensures { result ≡ person_asked problem.now (option_map (λ s. s.now) name.entry) }
{
    let Some(name) = name else { return Ok(None) };
    match person_named(problem, name.as_bytes()) {
        Some(k) => Ok(Some(k)),
        None => Err(Unknown::Person),
    }
}

/// What is asked for by names.
pub fn find(
    problem: &Problem,
    pairing: Option<&str>,
    person: Option<&str>,
) -> Result<Asked, Unknown>
    // Each place is that of the name.
    ensures pairing { IfOk result (λ asked.
        pairing_asked problem.now (option_map (λ s. s.now) pairing.entry) ≡ Ok asked.pairing) }
    ensures person { IfOk result (λ asked.
        person_asked problem.now (option_map (λ s. s.now) person.entry) ≡ Ok asked.person) }
    // The book doesn't have the name that is refused.
    ensures unknown { IfErr result (λ unknown.
        (pairing_asked problem.now (option_map (λ s. s.now) pairing.entry) ≡ Err unknown)
        ⊎ (person_asked problem.now (option_map (λ s. s.now) person.entry) ≡ Err unknown)) }
{
    let pairing = find_pairing(problem, pairing)?;
    let person = find_person(problem, person)?;
    Ok(Asked { pairing, person })
}
