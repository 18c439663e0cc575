//! The parts of a box: the persons of one base each.

ghost use Rattle.std.specs.Prelude.{◌≡◌, ◌^◌, ◌-◌, IfOk, length, pos};
ghost use Rattle.roster_bases.specs.Bases.{only};
ghost use Rattle.roster_lines_table.specs.Person.{AreListed};
ghost use Rattle.roster_search_least.specs.Least.{IsLeastBelow};
ghost use Rattle.roster_search_least.specs.Parts.{AreOwnRanges, IsInPart, IsRegionOfPart};

use crate::boxes::LineBox;
use crate::finder::Finder;
use crate::least::{RootPrices, least_of_region};
use roster_bases::is_person_of;
use roster_problem::Problem;
use roster_search_regions::Region;
use roster_values::Roster;
use std::alloc::{AllocError, Global};

/// A base, and the least roster in which only its persons fly, if there is one.
pub type LeastOfBase = (usize, Option<Roster>);

/// The region of the rosters in which the persons of the base have lines in their ranges, and all others no
/// pairing.
pub fn region_of_base(alloc: Global, lines: &LineBox<'_>, base: usize) -> Result<Region, AllocError>
    requires table { AreListed lines.now.problem.now lines.now.table.now }
    requires ranges { length lines.now.ranges.now ≡ length lines.now.table.now }
    ensures { IfOk result
        (IsRegionOfPart lines.now.problem.now lines.now.table.now lines.now.ranges.now base) }
{
    let own = own_ranges(alloc, lines.problem, lines.ranges, base)?;
    Region::of_ranges(alloc, lines.problem, lines.table, &own)
}

/// The least roster of the base, in its region, if there is one. Any prices will do; good ones make the
/// search short.
pub fn least_in<F: Finder>(
    alloc: Global,
    lines: &LineBox<'_>,
    base: usize,
    region: Region,
    root: RootPrices<F::Guide>,
    finder: &mut F,
) -> Result<Option<Roster>, AllocError>
    requires finder { F.may_find }
    requires part { IsRegionOfPart lines.now.problem.now lines.now.table.now lines.now.ranges.now base region }
    ensures least { IfOk result (IsLeastBelow lines.now.problem.now
        (IsInPart lines.now.problem.now lines.now.table.now lines.now.ranges.now (only base)) (pos (2 ^ 63 - 1))) }
    ensures goes_on { F.goes_on finder.old finder.new }
{
    least_of_region(alloc, lines.problem, region, root, i64::MAX, finder)
}

/// The ranges of the persons of the base; everybody else has the empty line only.
fn own_ranges(
    alloc: Global,
    problem: &Problem,
    ranges: &[(usize, usize)],
    base: usize,
) -> Result<Vec<(usize, usize)>, AllocError>
    requires { length ranges.now ≡ length problem.now.persons }
    ensures { IfOk result (λ own. AreOwnRanges problem.now base ranges.now own.items) }
{
    let mut own = Vec::new(alloc);
    for (k, range) in ranges.iter().enumerate() {
        own.push(if is_person_of(problem, k, base) {
            *range
        } else {
            (0, 1)
        })?;
    }
    Ok(own)
}
