//! The walk through the lines of all persons.

ghost use Rattle.std.specs.Prelude.{◌≡◌, ◌≤◌, IfOk, Some, length};
ghost use Rattle.roster_model.specs.Costs.{cost_of};
ghost use Rattle.roster_model.specs.Settled.{Anywhere, IsBest, IsHeld, Settles};
ghost use Rattle.roster_lines_table.specs.Person.{IsTableOf};
ghost use Rattle.roster_test_reference.specs.Walk.{AgreeBefore, IsWalkedTo};

use crate::best::{all_open, take_earlier};
use roster_lines_table::Table;
use roster_problem::{Problem, has_throughout, open_number, put};
use roster_values::Roster;
use std::alloc::{AllocError, Global};

/// The legal roster of least cost, and among those the first in roster order.
///
/// It goes through all rosters in which each person has one of their lines. Memory is taken for two
/// lists of places, and no more on the way.
pub fn solve_by_lines(alloc: Global, problem: &Problem, table: &Table) -> Result<Roster, AllocError>
    requires { IsTableOf problem.now table.now }
    ensures { IfOk result (λ roster. IsBest problem.now roster.places
        × (roster.cost ≡ cost_of problem.now roster.places)) }
{
    let mut best = all_open(alloc, problem)?;
    let mut places = vec![in alloc; open_number(problem); problem.pairings().len()]?;
    walk(problem, table, 0, &mut places, &mut best);
    Ok(best)
}

/// Offers every legal roster in which each person before `k` has the set that they have in `places`. It
/// takes no memory.
fn walk(problem: &Problem, table: &Table, k: usize, places: &mut [u16], best: &mut Roster)
    requires person { k ≤ length problem.now.persons }
    requires table { IsTableOf problem.now table.now }
    requires walked { IsWalkedTo problem.now k places.old }
    requires held { IsHeld problem.now best.old }
    ensures same { places.new ≡ places.old }
    ensures settled { Settles problem.now (AgreeBefore k places.old) Anywhere
        (Some best.old) best.new }
{
    if k == problem.persons().len() {
        take_earlier(best, problem, places);
        return;
    }
    let nobody = open_number(problem);
    for i in 0..table.width(k) {
        let set = table.set(k, i);
        if has_throughout(places, &set, nobody) {
            put(places, &set, k as u16);
            walk(problem, table, k + 1, places, best);
            put(places, &set, nobody);
        }
    }
}
