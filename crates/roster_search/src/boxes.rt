//! The least roster of a box.

ghost use Rattle.std.specs.Prelude.{◌≡◌, ◌+◌, IfOk, MatchOption, Some, length, unwrap_or};
ghost use Rattle.roster_search_least.specs.Least.{IsBefore, IsLeast};
ghost use Rattle.roster_bases.specs.Bases.{before};
ghost use Rattle.roster_search_least.specs.Parts.{AreBaseParts, IsInPart, IsWithoutPart};
ghost use Rattle.roster_lines_table.specs.Person.{AreListed};
ghost use Rattle.roster_model.specs.Rosters.{key_of};
ghost use Rattle.roster_model.specs.Settled.{IsHeld, Settles};
ghost use Rattle.roster_search_regions.specs.Regions.{IsInRanges};

use crate::parts::least_at;
use roster_bases::{all_open, united};
use roster_model::limits::MOST_BASES;
use roster_search_least::{Finder, LeastOfBase, LineBox, costs_fit, if_before};
use roster_search_relaxation::Relaxation;
use roster_values::Roster;
use std::alloc::{AllocError, Global};

/// The least roster of the box, with its cost, if its key is before that of the known roster.
///
/// No line has another base's pairing, so each base is searched apart, and the answers are united. Two
/// problems that share nothing take as long as one after the other.
pub fn least_of_box<F: Finder<Guide = Relaxation>>(
    alloc: Global,
    lines: &LineBox<'_>,
    known: &Roster,
    finder: &mut F,
) -> Result<Option<Roster>, AllocError>
    requires finder { F.may_find }
    requires table { AreListed lines.now.problem.now lines.now.table.now }
    requires ranges { length lines.now.ranges.now ≡ length lines.now.table.now }
    requires known { IsHeld lines.now.problem.now known.now }
    ensures settled { IfOk result (λ found. Settles lines.now.problem.now
        (IsInRanges lines.now.table.now lines.now.ranges.now) (IsInRanges lines.now.table.now lines.now.ranges.now)
        (Some known.now) (unwrap_or found known.now)) }
    ensures before { IfOk result (IsBefore known.now) }
    ensures goes_on { F.goes_on finder.old finder.new }
{
    least_with(alloc, lines, &[], known, finder)
}

/// `least_of_box`, if the least rosters of some bases are known, which aren't searched again.
pub fn least_with<F: Finder<Guide = Relaxation>>(
    alloc: Global,
    lines: &LineBox<'_>,
    parts: &[LeastOfBase],
    known: &Roster,
    finder: &mut F,
) -> Result<Option<Roster>, AllocError>
    requires finder { F.may_find }
    requires table { AreListed lines.now.problem.now lines.now.table.now }
    requires ranges { length lines.now.ranges.now ≡ length lines.now.table.now }
    requires parts { AreBaseParts lines.now.problem.now lines.now.table.now lines.now.ranges.now parts.now }
    requires known { IsHeld lines.now.problem.now known.now }
    ensures settled { IfOk result (λ found. Settles lines.now.problem.now
        (IsInRanges lines.now.table.now lines.now.ranges.now) (IsInRanges lines.now.table.now lines.now.ranges.now)
        (Some known.now) (unwrap_or found known.now)) }
    ensures before { IfOk result (IsBefore known.now) }
    ensures goes_on { F.goes_on finder.old finder.new }
{
    costs_fit(lines.problem);
    lines.problem.is_sound();
    match united_bases(alloc, lines, parts, finder)? {
        Some(places) => Ok(if_before(lines.problem, known, places)),
        None => Ok(None),
    }
}

/// The places of the least roster of the box, united from those of all bases; or none, and then some base has
/// no roster.
fn united_bases<F: Finder<Guide = Relaxation>>(
    alloc: Global,
    lines: &LineBox<'_>,
    parts: &[LeastOfBase],
    finder: &mut F,
) -> Result<Option<Vec<u16>>, AllocError>
    requires finder { F.may_find }
    requires table { AreListed lines.now.problem.now lines.now.table.now }
    requires ranges { length lines.now.ranges.now ≡ length lines.now.table.now }
    requires parts { AreBaseParts lines.now.problem.now lines.now.table.now lines.now.ranges.now parts.now }
    ensures least { IfOk result (λ places. MatchOption places
        (IsWithoutPart lines.now.problem.now lines.now.table.now lines.now.ranges.now)
        (λ places. IsLeast lines.now.problem.now
        (IsInRanges lines.now.table.now lines.now.ranges.now) (key_of lines.now.problem.now places.items))) }
    ensures goes_on { F.goes_on finder.old finder.new }
{
    lines.problem.is_sound();
    let mut places = all_open(alloc, lines.problem)?;
    for base in 0..MOST_BASES {
        match with_base(alloc, lines, parts, base, places, finder)? {
            Some(more) => places = more,
            None => return Ok(None),
        }
    }
    Ok(Some(places))
}

/// The places with those of the least roster of one base more; or none, if it has no roster.
fn with_base<F: Finder<Guide = Relaxation>>(
    alloc: Global,
    lines: &LineBox<'_>,
    parts: &[LeastOfBase],
    base: usize,
    places: Vec<u16>,
    finder: &mut F,
) -> Result<Option<Vec<u16>>, AllocError>
    requires finder { F.may_find }
    requires table { AreListed lines.now.problem.now lines.now.table.now }
    requires ranges { length lines.now.ranges.now ≡ length lines.now.table.now }
    requires parts { AreBaseParts lines.now.problem.now lines.now.table.now lines.now.ranges.now parts.now }
    requires least { IsLeast lines.now.problem.now
        (IsInPart lines.now.problem.now lines.now.table.now lines.now.ranges.now (before base))
        (key_of lines.now.problem.now places.items) }
    ensures least { IfOk result (λ more. MatchOption more
        (IsWithoutPart lines.now.problem.now lines.now.table.now lines.now.ranges.now)
        (λ more. IsLeast lines.now.problem.now
        (IsInPart lines.now.problem.now lines.now.table.now lines.now.ranges.now (before (base + 1)))
        (key_of lines.now.problem.now more.items))) }
    ensures goes_on { F.goes_on finder.old finder.new }
{
    match least_at(alloc, lines, parts, base, finder)? {
        Some(part) => Ok(Some(united(alloc, lines.problem, base, &part, &places)?)),
        None => Ok(None),
    }
}
