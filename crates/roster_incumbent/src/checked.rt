//! Whether a roster is legal and has its cost, by the table of lines.

ghost use Rattle.std.specs.Prelude.{◌≡◌, ◌↔◌, ◌<◌, ◌≤◌, All, IfOk, IsOkAnd, IsTrue, length, replicate};
ghost use Rattle.roster_lines_table.specs.Person.{IsTableOf};
ghost use Rattle.roster_model.specs.Places.{set_of};
ghost use Rattle.roster_model.specs.Rosters.{key_of, IsLegalRoster};
ghost use Rattle.roster_model.specs.Rules.{IsLegal};
ghost use Rattle.roster_model.specs.Settled.{IsHeld};

use roster_cost::roster_cost;
use roster_lines_table::Table;
use roster_model::limits::MOST_PAIRINGS;
use roster_problem::{Problem, open_number};
use roster_values::{Places, Roster, Set};
use std::alloc::{AllocError, Global};

/// `is_held`, as an answer that is never refused.
pub fn check(problem: &Problem, table: &Table, roster: &Roster) -> Result<bool, AllocError>
    requires { IsTableOf problem.now table.now }
    ensures { IsOkAnd result (λ yes. IsTrue yes ↔ IsHeld problem.now roster.now) }
{
    Ok(is_held(problem, table, roster))
}

/// The roster that leaves all pairings open, with its cost.
pub fn all_left(alloc: Global, problem: &Problem) -> Result<Roster, AllocError>
    ensures { IfOk result (λ roster. roster ≡ key_of problem.now
        (replicate (length problem.now.pairings) (length problem.now.persons))) }
{
    let places = vec![in alloc; open_number(problem); problem.pairings().len()]?;
    let cost = roster_cost(problem, &places);
    Ok(Roster {
        places: Places::new(places),
        cost,
    })
}

/// Whether the places are a legal roster and the cost is what it costs. The roster may be anything: of
/// another problem, too long or too short, with numbers that are nobody's. It takes no memory.
pub fn is_held(problem: &Problem, table: &Table, roster: &Roster) -> bool
    requires { IsTableOf problem.now table.now }
    ensures { IsTrue result ↔ IsHeld problem.now roster.now }
{
    let places = roster.places.as_slice();
    is_legal_roster(problem, table, places) && roster.cost == roster_cost(problem, places)
}

/// Whether the places are a legal roster: one number for each pairing, and each person's set is a line.
fn is_legal_roster(problem: &Problem, table: &Table, places: &[u16]) -> bool
    requires { IsTableOf problem.now table.now }
    ensures { IsTrue result ↔ IsLegalRoster problem.now places.now }
{
    if places.len() != problem.pairings().len() || !are_numbers(places, open_number(problem)) {
        return false;
    }
    for k in 0..problem.persons().len() {
        if !has_line(problem, table, k, places) {
            return false;
        }
    }
    true
}

/// Whether the set of person `k` is legal: whether it is one of their lines.
fn has_line(problem: &Problem, table: &Table, k: usize, places: &[u16]) -> bool
    requires table { IsTableOf problem.now table.now }
    requires person { k < length problem.now.persons }
    requires covers { length places.now ≡ length problem.now.pairings }
    ensures { IsTrue result ↔ IsLegal problem.now k (set_of k places.now) }
{
    prove!(problem.pairings().len() <= MOST_PAIRINGS);
    table.find(k, &Set::of_places(places, k)).is_some()
}

/// Whether no number is above the one for open.
fn are_numbers(places: &[u16], nobody: u16) -> bool
    ensures { IsTrue result ↔ All (λ x. x ≤ nobody) places.now }
{
    places.iter().all(|place| *place <= nobody)
}
