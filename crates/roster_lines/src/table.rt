//! The lines of all persons, made one after another.

ghost use Rattle.std.specs.Prelude.{◌≡◌, ◌<◌, ◌+◌, IfErr, IfOk, OnOk, length};
ghost use Rattle.roster_lines_table.specs.Person.{IsTableOf};
ghost use Rattle.roster_lines.specs.Made.{IsMadeOf, IsTableSoFar};
ghost use Rattle.roster_lines.specs.TableFaults.{IsTableFaultOf};

use crate::extend::{LinesFault, lines_of};
use roster_lines_table::{Lines, Table};
use roster_problem::Problem;
use std::alloc::{AllocError, Global};
use thiserror::Error;

/// Why there is no table of the lines of all persons.
#[derive(Debug, Drop, Error)]
pub enum TableFault {
    /// The person at this place has more than `MOST_LINES`, and no person before has.
    #[error("person {0} has too many lines")]
    TooMany(usize),
    /// Memory ran out.
    #[error("out of memory")]
    Memory,
}

impl From<AllocError> for TableFault {
    ghost use Rattle.std.specs.Prelude.{◌≡◌};
    ghost use Rattle.roster_lines.specs.declared.table.TableFault.TheVariants.{Memory};

    ghost from_gives = { λ _ e. e ≡ Memory };

    fn from(_: AllocError) -> TableFault {
        TableFault::Memory
    }
}

/// The lines of all persons.
pub fn table_of(alloc: Global, problem: &Problem) -> Result<Table, TableFault>
    ensures table { IfOk result (IsTableOf problem.now) }
    ensures fault { IfErr result (IsTableFaultOf problem.now) }
{
    let mut table = Table::empty(alloc);
    for k in 0..problem.persons().len() {
        add(&mut table, alloc, problem, lines_of(alloc, problem, k))?;
    }
    Ok(table)
}

/// Adds the lines of the next person, if they were made. After a fault there is no table.
pub(crate) fn add(
    table: &mut Table,
    alloc: Global,
    problem: &Problem,
    made: Result<Lines, LinesFault>,
) -> Result<(), TableFault>
    requires next { length table.old < length problem.now.persons }
    requires table { IsTableSoFar problem.now table.old }
    requires made { IsMadeOf problem.now (length table.old) made }
    ensures table { OnOk result (IsTableSoFar problem.now table.new) }
    ensures one_more { OnOk result (length table.new ≡ length table.old + 1) }
    ensures fault { IfErr result (IsTableFaultOf problem.now) }
{
    match made {
        Ok(lines) => table.push(alloc, lines)?,
        Err(fault) => match fault {
            LinesFault::TooMany => return Err(TableFault::TooMany(table.persons())),
            LinesFault::Memory => return Err(TableFault::Memory),
        },
    }
    Ok(())
}
