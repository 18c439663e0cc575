//! Which choices of the table's rows are left.

ghost use Rattle.std.specs.Prelude.{◌≡◌, IfOk, filter, int_le};
ghost use Rattle.roster_search_regions.specs.Marks.{IsMarking};
ghost use Rattle.roster_search_regions.specs.Prices.{value_of, ArePrices};
ghost use Rattle.roster_search_regions.specs.Tests.{passes};
ghost use Rattle.roster_search_regions.specs.Trees.{lines_in};

use crate::marker::Marker;
use crate::path::Path;
use crate::rows::Rows;
use crate::sums::Sums;
use crate::test::Test;
use std::alloc::{AllocError, Global};

/// Marks the lines that pass.
pub(crate) fn marks_passing(
    alloc: Global,
    rows: &Rows<'_>,
    test: &Test<'_>,
) -> Result<Marker, AllocError>
    ensures { IfOk result (λ marker. IsMarking marker rows.now
        (filter (λ line. passes test.now line.set) (lines_in rows.now))) }
{
    let mut path = Path::new(alloc);
    let mut marker = Marker::new(alloc, rows.len())?;
    for i in 0..rows.len() {
        let choice = rows.at(i);
        path.step(&choice)?;
        marker.mark(&path, &choice, test.passes(&path))?;
    }
    Ok(marker)
}

/// Marks the lines whose value at the prices is at most so much.
pub(crate) fn marks_within(
    alloc: Global,
    rows: &Rows<'_>,
    prices: &[i64],
    most: i64,
) -> Result<Marker, AllocError>
    requires { ArePrices prices.now }
    ensures { IfOk result (λ marker. IsMarking marker rows.now
        (filter (λ line. int_le (value_of prices.now line) most) (lines_in rows.now))) }
{
    let mut path = Path::new(alloc);
    let mut sums = Sums::new();
    let mut marker = Marker::new(alloc, rows.len())?;
    for i in 0..rows.len() {
        let choice = rows.at(i);
        path.step(&choice)?;
        sums.step(&choice, prices);
        marker.mark(&path, &choice, sums.value(&choice) <= most)?;
    }
    Ok(marker)
}
