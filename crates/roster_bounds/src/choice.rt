//! Which prices to take if none are known.

ghost use Rattle.std.specs.Prelude.{◌≡◌, ◌≤◌, ◌≤ℤ◌, ◌<ℤ◌, ◌⊎◌, ℤ, IfOk};
ghost use Rattle.roster_lines_table.specs.Person.{IsTableOf};
ghost use Rattle.roster_bounds.specs.Chosen.{AreBestHalves, IsRootBound, halves_of, priced_table};

use crate::prices::Prices;
use crate::tables::Tables;
use roster_lines_table::Table;
use roster_problem::Problem;
use std::alloc::{AllocError, Global};

/// Tables, and their bound of all legal rosters.
#[derive(Drop)]
struct Bounded<'a> {
    tables: Tables<'a>,
    bound: i128,
}

/// The tables with the greatest bound at the root among those of three lists of prices, the first of
/// equals: each price 0, half the pairing's penalty, rounded down, and the penalty.
pub fn choose_tables<'a>(
    alloc: Global,
    problem: &'a Problem,
    table: &'a Table,
) -> Result<Tables<'a>, AllocError>
    requires { IsTableOf problem.now table.now }
    ensures { IfOk result (λ tables. (bound : ℤ) × AreBestHalves problem.now table.now 3 tables bound) }
{
    let free = tables_at(alloc, problem, table, 0)?;
    let half = tables_at(alloc, problem, table, 1)?;
    let whole = tables_at(alloc, problem, table, 2)?;
    let Bounded { tables, bound: _ } = of_greater_bound(of_greater_bound(free, half), whole);
    Ok(tables)
}

/// The tables with so many halves of each penalty for prices.
fn tables_at<'a>(
    alloc: Global,
    problem: &'a Problem,
    table: &'a Table,
    halves: u32,
) -> Result<Bounded<'a>, AllocError>
    requires table { IsTableOf problem.now table.now }
    requires most { halves ≤ 2 }
    ensures tables { IfOk result (λ made.
        made.tables ≡ priced_table problem.now table.now (halves_of problem.now halves)) }
    ensures bound { IfOk result (λ made. IsRootBound problem.now (halves_of problem.now halves) made.bound) }
{
    let prices = Prices::of_penalties(alloc, problem, halves)?;
    let (tables, bound) = Tables::build_with_bound(alloc, problem, table, prices)?;
    Ok(Bounded { tables, bound })
}

/// That of two tables whose bound is greater; the first if they are equal.
fn of_greater_bound<'a>(first: Bounded<'a>, second: Bounded<'a>) -> Bounded<'a>
    ensures { ((result ≡ first.entry) × (second.entry.bound ≤ℤ first.entry.bound))
        ⊎ ((result ≡ second.entry) × (first.entry.bound <ℤ second.entry.bound)) }
{
    if first.bound < second.bound {
        second
    } else {
        first
    }
}
