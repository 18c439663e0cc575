//! The box of all lines, and what is answered of a box.

ghost use Rattle.std.specs.Prelude.{◌≡◌, false, true, not, IfOk, MatchOption, length};
ghost use Rattle.roster_lines_table.specs.Person.{AreListed};
ghost use Rattle.roster_model.specs.Rosters.{key_le, key_of};
ghost use Rattle.roster_search_least.specs.Least.{IsBefore};
ghost use Rattle.roster_search_least.specs.Parts.{AreWhole};

use roster_cost::{Key, order_of_keys, roster_cost};
use roster_lines_table::Table;
use roster_problem::Problem;
use roster_values::{Places, Roster};
use std::alloc::{AllocError, Global};

/// The box of the legal rosters in which each person has a line of the table, whose number is in the person's
/// range: from its first number up to the second, which isn't in it. The table may have some lines only.
#[derive(Drop)]
pub struct LineBox<'a> {
    /// The problem.
    pub problem: &'a Problem,
    /// The lines of each of its persons.
    pub table: &'a Table,
    /// The range of each person.
    pub ranges: &'a [(usize, usize)],
}

/// The range of all lines, for each person.
pub fn whole(
    alloc: Global,
    problem: &Problem,
    table: &Table,
) -> Result<Vec<(usize, usize)>, AllocError>
    requires { AreListed problem.now table.now }
    ensures { IfOk result (λ ranges. AreWhole table.now (length table.now) ranges.items) }
{
    let mut ranges = Vec::new(alloc);
    for k in 0..problem.persons().len() {
        ranges.push((0, table.width(k)))?;
    }
    Ok(ranges)
}

/// The roster with these places, if its key is before that of the known one.
pub fn if_before(problem: &Problem, known: &Roster, places: Vec<u16>) -> Option<Roster>
    requires { length places.items ≡ length problem.now.pairings }
    ensures earlier { MatchOption result (key_le known.now (key_of problem.now places.items) ≡ true)
        (λ roster. (roster ≡ key_of problem.now places.items)
        × (key_le known.now roster ≡ false)) }
    ensures before { IsBefore known.now result }
{
    let cost = roster_cost(problem, &places);
    if !comes_after(known, cost, &places) {
        return None;
    }
    Some(Roster {
        places: Places::new(places),
        cost,
    })
}

/// Whether the roster's key is after that of the one with this cost and these places.
fn comes_after(roster: &Roster, cost: i64, places: &[u16]) -> bool
    ensures { result ≡ not (key_le roster.now (record { cost = cost; places = places.now })) }
{
    order_of_keys();
    Key { cost, places } < Key::of(roster)
}
