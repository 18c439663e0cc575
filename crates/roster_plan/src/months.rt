//! What is known of a month while it is planned: of each base apart, and of all of it.

ghost use Rattle.std.specs.Prelude.{◌≡◌, ◌<◌, IfOk, Some, slice_get};
ghost use Rattle.roster_lines.specs.Listing.{AreAllPairs};
ghost use Rattle.roster_model.specs.declared.limits.TheConstants.{MOST_BASES as most_bases};
ghost use Rattle.roster_model.specs.Settled.{IsHeld, IsNotAfter};
ghost use Rattle.roster_bases.specs.Bases.{only};
ghost use Rattle.roster_bases.specs.Homes.{IsHome, IsHomeBound};
ghost use Rattle.roster_plan.specs.Exact.{IsExact};
ghost use Rattle.roster_plan.specs.Months.{HasBound, IsMonth, IsMonthFrom};
ghost use Rattle.roster_plan.specs.Parts.{AreParts, IsPart};
ghost use Rattle.roster_plan.specs.Planned.{IsKnown, IsPlannedFrom};

use crate::exact::Found;
use crate::known::{Planned, first_plan};
use crate::parts::{BasePlan, joined, parts_of};
use crate::watching::{Phase, Watcher};
use roster_cost::{comes_before, keys_are_in_order};
use roster_lines::Pairs;
use roster_model::limits::MOST_BASES;
use roster_problem::Problem;
use roster_values::Roster;
use std::alloc::{AllocError, Global};

/// What is known of a month: of each base apart, and of all of it.
#[derive(Drop)]
pub(crate) struct Month {
    pub(crate) parts: Vec<BasePlan>,
    pub(crate) planned: Planned,
}

impl Month {
    /// What a known roster tells of its month.
    pub(crate) fn of(
        alloc: Global,
        problem: &Problem,
        pairs: &[Pairs],
        known: Roster,
    ) -> Result<Month, AllocError>
        requires pairs { AreAllPairs problem.now pairs.now }
        requires known { IsHeld problem.now known }
        ensures { IfOk result (IsMonthFrom problem.now known) }
    {
        let parts = parts_of(alloc, problem, pairs, &known)?;
        let planned = joined(alloc, problem, &parts, first_plan(problem, known))?;
        Ok(Month { parts, planned })
    }

    /// The same month with another part at the base.
    fn with<W: Watcher>(
        self,
        alloc: Global,
        problem: &Problem,
        base: usize,
        part: BasePlan,
        step: Phase,
        watcher: &mut W,
    ) -> Result<Month, AllocError>
        requires month { IsMonth problem.now self }
        requires base { base < most_bases }
        requires part { IsPart problem.now base part }
        ensures month { IfOk result (IsMonthFrom problem.now self.planned.roster) }
        ensures part { IfOk result (λ month. slice_get month.parts.items base ≡ Some part) }
    {
        let Month { parts, planned } = self;
        let mut parts = parts;
        parts[base] = part;
        let planned = told(alloc, problem, &parts, planned, Some(base), step, watcher)?;
        Ok(Month { parts, planned })
    }

    /// The month with a greater bound of the base, if this one is greater.
    pub(crate) fn raised<W: Watcher>(
        self,
        alloc: Global,
        problem: &Problem,
        base: usize,
        bound: i64,
        step: Phase,
        watcher: &mut W,
    ) -> Result<Month, AllocError>
        requires month { IsMonth problem.now self }
        requires base { base < most_bases }
        requires bound { IsHomeBound problem.now (only base) bound }
        ensures month { IfOk result (IsMonthFrom problem.now self.planned.roster) }
        ensures raised { IfOk result (HasBound base bound) }
    {
        let part = &self.parts[base];
        if bound <= part.bound {
            return Ok(self);
        }
        let part = BasePlan {
            roster: part.roster.copy(alloc)?,
            bound,
            is_best: part.is_best,
        };
        self.with(alloc, problem, base, part, step, watcher)
    }

    /// The month with the best roster of the base: no roster of the base comes before the one that was found.
    pub(crate) fn settled<W: Watcher>(
        self,
        alloc: Global,
        problem: &Problem,
        base: usize,
        found: &Roster,
        step: Phase,
        watcher: &mut W,
    ) -> Result<Month, AllocError>
        requires month { IsMonth problem.now self }
        requires base { base < most_bases }
        requires held { IsHeld problem.now found.now }
        requires best { IsNotAfter problem.now (IsHome problem.now (only base)) found.now }
        ensures { IfOk result (IsMonthFrom problem.now self.planned.roster) }
    {
        keys_are_in_order();
        match BasePlan::best(alloc, problem, base, found)? {
            Some(part) => self.with(alloc, problem, base, part, step, watcher),
            None => Ok(self),
        }
    }

    /// The month with what was found of the base.
    pub(crate) fn with_found<W: Watcher>(
        self,
        alloc: Global,
        problem: &Problem,
        base: usize,
        found: &Found,
        step: Phase,
        watcher: &mut W,
    ) -> Result<Month, AllocError>
        requires month { IsMonth problem.now self }
        requires base { base < most_bases }
        requires found { IsExact problem.now base found.now }
        ensures { IfOk result (IsMonthFrom problem.now self.planned.roster) }
    {
        match found {
            Found::Best(roster) => self.settled(alloc, problem, base, roster, step, watcher),
            Found::AtLeast(bound) => self.raised(alloc, problem, base, *bound, step, watcher),
        }
    }

    /// The month with what each base has of a roster that was found, where that comes before its part.
    pub(crate) fn renewed<W: Watcher>(
        self,
        alloc: Global,
        problem: &Problem,
        found: &Roster,
        step: Phase,
        watcher: &mut W,
    ) -> Result<Month, AllocError>
        requires month { IsMonth problem.now self }
        requires found { IsHeld problem.now found.now }
        ensures { IfOk result (IsMonthFrom problem.now self.planned.roster) }
    {
        let mut parts = Vec::new(alloc);
        for base in 0..MOST_BASES {
            let part = self.parts[base].renewed(alloc, problem, base, found)?;
            parts.push(part)?;
        }
        let Month {
            parts: _,
            planned: known,
        } = self;
        let planned = told(alloc, problem, &parts, known, None, step, watcher)?;
        Ok(Month { parts, planned })
    }
}

/// The plan that the parts make, unless the known one is earlier. It is told if it is another one than that.
fn told<W: Watcher>(
    alloc: Global,
    problem: &Problem,
    parts: &[BasePlan],
    known: Planned,
    base: Option<usize>,
    step: Phase,
    watcher: &mut W,
) -> Result<Planned, AllocError>
    requires parts { AreParts problem.now parts.now }
    requires known { IsKnown problem.now known }
    ensures { IfOk result (IsPlannedFrom problem.now known.roster) }
{
    let before = known.roster.copy(alloc)?;
    let (bound, is_best) = (known.bound, known.is_best);
    let planned = joined(alloc, problem, parts, known)?;
    if planned.bound > bound
        || planned.is_best != is_best
        || comes_before(&planned.roster, &before)
    {
        watcher.tell(problem, base, step, &planned);
    }
    Ok(planned)
}
