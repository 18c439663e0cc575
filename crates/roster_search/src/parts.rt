//! The least roster of one base of a box.

ghost use Rattle.std.specs.Prelude.{◌≡◌, ◌^◌, ◌-◌, IfOk, length, pos};
ghost use Rattle.roster_bases.specs.Bases.{only};
ghost use Rattle.roster_search_least.specs.Least.{IsLeastBelow};
ghost use Rattle.roster_search_least.specs.Parts.{AreBaseParts, IsInPart};
ghost use Rattle.roster_lines_table.specs.Person.{AreListed};

use crate::looks::OneThread;
use crate::root::root_prices;
use roster_search_least::{Finder, LeastOfBase, LineBox, least_in, region_of_base};
use roster_search_regions::DualPrices;
use roster_search_relaxation::Relaxation;
use roster_values::Roster;
use std::alloc::{AllocError, Global};

/// `least_of_base`, which is looked up among the parts first.
pub(crate) fn least_at<F: Finder<Guide = Relaxation>>(
    alloc: Global,
    lines: &LineBox<'_>,
    parts: &[LeastOfBase],
    base: usize,
    finder: &mut F,
) -> Result<Option<Roster>, AllocError>
    requires finder { F.may_find }
    requires table { AreListed lines.now.problem.now lines.now.table.now }
    requires ranges { length lines.now.ranges.now ≡ length lines.now.table.now }
    requires parts { AreBaseParts lines.now.problem.now lines.now.table.now lines.now.ranges.now parts.now }
    ensures least { IfOk result (IsLeastBelow lines.now.problem.now
        (IsInPart lines.now.problem.now lines.now.table.now lines.now.ranges.now (only base)) (pos (2 ^ 63 - 1))) }
    ensures goes_on { F.goes_on finder.old finder.new }
{
    for i in 0..parts.len() {
        let part = &parts[i];
        if part.0 == base {
            return copy_if(alloc, &part.1);
        }
    }
    least_of_base(alloc, lines, base, finder)
}

/// The same roster again, if there is one.
fn copy_if(alloc: Global, roster: &Option<Roster>) -> Result<Option<Roster>, AllocError>
    ensures { IfOk result (λ copy. copy ≡ roster.now) }
{
    match roster {
        Some(roster) => Ok(Some(roster.copy(alloc)?)),
        None => Ok(None),
    }
}

/// The least roster in which the persons of one base have lines in their ranges and all others no pairing,
/// if there is one.
fn least_of_base<F: Finder<Guide = Relaxation>>(
    alloc: Global,
    lines: &LineBox<'_>,
    base: usize,
    finder: &mut F,
) -> Result<Option<Roster>, AllocError>
    requires finder { F.may_find }
    requires table { AreListed lines.now.problem.now lines.now.table.now }
    requires ranges { length lines.now.ranges.now ≡ length lines.now.table.now }
    ensures least { IfOk result (IsLeastBelow lines.now.problem.now
        (IsInPart lines.now.problem.now lines.now.table.now lines.now.ranges.now (only base)) (pos (2 ^ 63 - 1))) }
    ensures goes_on { F.goes_on finder.old finder.new }
{
    let region = region_of_base(alloc, lines, base)?;
    let first = DualPrices::of_penalties(alloc, lines.problem, &region)?;
    let root = root_prices(&OneThread, alloc, lines.problem, &region, &first, i64::MAX)?;
    least_in(alloc, lines, base, region, root, finder)
}
