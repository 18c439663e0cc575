//! The tables of a roster.

ghost use Rattle.std.specs.Prelude.{◌≡◌, ◌<◌, IfOk, length};
ghost use Rattle.roster_desk_tables.specs.Rows.{IsPersonsTable};

use crate::persons::push_person;
use crate::rows::push_rows;
use crate::writing::{Sheet, TableRows};
use crate::{persons, rows};
use roster_desk_given::Zones;
use roster_problem::Problem;
use std::alloc::{AllocError, Global};

/// A row for each pairing, duty and leave of each person with the roster, under a row of names. The places
/// are the roster, which needn't be legal.
pub fn roster_table(
    alloc: Global,
    problem: &Problem,
    places: &[u16],
    zones: &Zones,
    sheet: Sheet<'_>,
) -> Result<Vec<u8>, AllocError>
    requires { length places.now ≡ length problem.now.pairings }
{
    let mut table = TableRows::under(alloc, sheet, &rows::COLUMNS)?;
    for k in 0..problem.persons().len() {
        push_rows(alloc, &mut table, problem, zones, places, k)?;
    }
    table.finish()
}

/// A row for each person with the roster, under a row of names. The places are the roster, which needn't
/// be legal.
pub fn persons_table(
    alloc: Global,
    problem: &Problem,
    places: &[u16],
    sheet: Sheet<'_>,
) -> Result<Vec<u8>, AllocError>
    requires { length places.now ≡ length problem.now.pairings }
    ensures { IfOk result (λ text. IsPersonsTable problem.now places.now sheet.entry text.items) }
{
    let mut table = TableRows::under(alloc, sheet, &persons::COLUMNS)?;
    for k in 0..problem.persons().len() {
        push_person(alloc, &mut table, problem, places, k)?;
    }
    let text = table.finish()?;
    Ok(text)
}
