//! A table of the lines of all persons that are wanted.

ghost use Rattle.std.specs.Prelude.{◌≡◌, ◌<◌, ◌≤◌, ℕ, IfErr, IfOk, length};
ghost use Rattle.roster_model.specs.Problem.{Problem as Book};
ghost use Rattle.roster_lines_table.specs.Person.{AreListed};
ghost use Rattle.roster_lines.specs.Listing.{AreAllPairs};
ghost use Rattle.roster_lines.specs.SomeLines.{IsFaultWithin};
ghost use Rattle.roster_lines.specs.TableFaults.{IsTableFaultWithin};
ghost use Rattle.roster_lines.specs.WantedTables.{AreAllWanted};

use crate::extend::{LinesFault, lines_of_pairs};
use crate::pairs::Pairs;
use crate::table::TableFault;
use crate::wanted::Wanted;
use roster_lines_table::Table;
use roster_model::limits::MOST_LINES;
use roster_problem::Problem;
use std::alloc::Global;

/// The lines of each person that are wanted of that person, and those that they go on from, if no person's
/// are more than `most`. The pairs of all persons are known, as `all_pairs` has them.
pub fn wanted_table<W: Wanted>(
    alloc: Global,
    problem: &Problem,
    pairs: &[Pairs],
    wanted: &[W],
    most: usize,
) -> Result<Table, TableFault>
    requires pairs { AreAllPairs problem.now pairs.now }
    requires covers { length wanted.now ≡ length problem.now.persons }
    requires limit { (0 < most) × (most ≤ MOST_LINES) }
    ensures listed { IfOk result (AreListed problem.now) }
    ensures wanted { IfOk result (AreAllWanted W.wants problem.now wanted.now) }
    ensures fault { IfErr result (IsTableFaultWithin problem.now most) }
{
    let mut table = Table::empty(alloc);
    for k in 0..problem.persons().len() {
        match lines_of_pairs(alloc, problem, k, &pairs[k], &wanted[k], most) {
            Ok(lines) => table.push(alloc, lines)?,
            Err(fault) => return Err(fault_at(k, fault)),
        }
    }
    Ok(table)
}

/// The fault of the table, where the lines of person k have one.
fn fault_at(k: usize, fault: LinesFault) -> TableFault
    ensures { (problem : Book) (most : ℕ) → k < length problem.persons
        → IsFaultWithin problem k most fault → IsTableFaultWithin problem most result }
{
    match fault {
        LinesFault::TooMany => TableFault::TooMany(k),
        LinesFault::Memory => TableFault::Memory,
    }
}
