//! What is known of each base apart, and of the whole month that they make.
//!
//! No person flies a pairing of another base. So what a month costs is what its bases do, each apart, and the
//! best roster is put together from the best one of each base.

ghost use Rattle.std.specs.Prelude.{◌≡◌, ◌⊎◌, ◌<◌, ◌+◌, ◌*◌, ◌^◌, ◌&&◌, ◌+ℤ◌, ◌-ℤ◌, ◌≤ℤ◌};
ghost use Rattle.std.specs.Prelude.{true, false, not, All, IfOk, IfSome, MatchOption, neg_ℤ, pos};
ghost use Rattle.std.specs.Prelude.{slice_get};
ghost use Rattle.roster_cost.specs.Amounts.{IsWithin};
ghost use Rattle.roster_model.specs.declared.limits.TheConstants.{MOST_BASES as most_bases};
ghost use Rattle.roster_model.specs.Rosters.{key_le};
ghost use Rattle.roster_model.specs.Settled.{IsHeld, IsLowerBound, IsNotAfter};
ghost use Rattle.roster_model.specs.Plans as plans;
ghost use Rattle.roster_bases.specs.Bases as bases;
ghost use Rattle.roster_bases.specs.Bases.{only};
ghost use Rattle.roster_bases.specs.Homes.{IsHome};
ghost use Rattle.roster_bases.specs.United.{unite};
ghost use Rattle.roster_lines.specs.Listing.{AreAllPairs};
ghost use Rattle.roster_plan.specs.Parts.{AreParts, IsPart};
ghost use Rattle.roster_plan.specs.Planned.{IsKnown, IsPlannedFrom};

use crate::bound::lower_bound;
use crate::known::{Planned, best_plan, cheaper, costed, earlier, so_far};
use roster_bases::{all_open, has_crew, united};
use roster_cost::{comes_before, roster_cost};
use roster_lines::Pairs;
use roster_model::limits::MOST_BASES;
use roster_problem::Problem;
use roster_search_least::costs_fit;
use roster_values::Roster;
use std::alloc::{AllocError, Global};

/// What is known of a base: of the rosters in which only its persons fly.
#[derive(Drop)]
pub(crate) struct BasePlan {
    /// Such a roster, which is legal, with its cost.
    pub(crate) roster: Roster,
    /// No legal one costs less, in cost units.
    pub(crate) bound: i64,
    /// Whether the roster is known to be the best one of them.
    pub(crate) is_best: bool,
}

/// What each base has of a known roster, with a first bound.
pub(crate) fn parts_of(
    alloc: Global,
    problem: &Problem,
    pairs: &[Pairs],
    known: &Roster,
) -> Result<Vec<BasePlan>, AllocError>
    requires pairs { AreAllPairs problem.now pairs.now }
    requires known { IsHeld problem.now known.now }
    ensures { IfOk result (λ parts. AreParts problem.now parts.items) }
{
    let mut parts = Vec::new(alloc);
    for base in 0..MOST_BASES {
        parts.push(first_part(alloc, problem, pairs, base, known)?)?;
    }
    Ok(parts)
}

/// Whether the best roster of the base isn't known.
pub(crate) fn is_open(parts: &[BasePlan], base: usize) -> bool
    ensures { MatchOption (slice_get parts.now base) (result ≡ true) (λ part. result ≡ not part.is_best) }
{
    match parts.get(base) {
        Some(part) => !part.is_best,
        None => true,
    }
}

/// Of each base, by its number, whether its best roster isn't known.
pub(crate) fn open_bases(alloc: Global, parts: &[BasePlan]) -> Result<Vec<bool>, AllocError> {
    let mut open = Vec::new(alloc);
    for base in 0..parts.len() {
        open.push(is_open(parts, base))?;
    }
    Ok(open)
}

/// What the base has of a known roster, with a first bound.
fn first_part(
    alloc: Global,
    problem: &Problem,
    pairs: &[Pairs],
    base: usize,
    known: &Roster,
) -> Result<BasePlan, AllocError>
    requires pairs { AreAllPairs problem.now pairs.now }
    requires known { IsHeld problem.now known.now }
    ensures { IfOk result (IsPart problem.now base) }
{
    if !has_crew(problem, base) {
        return part_of_nobody(alloc, problem, base);
    }
    Ok(BasePlan {
        roster: roster_of(alloc, problem, base, known)?,
        bound: lower_bound(problem, pairs, base),
        is_best: false,
    })
}

/// The part of a base of which nobody is: its only roster leaves all open.
fn part_of_nobody(alloc: Global, problem: &Problem, base: usize) -> Result<BasePlan, AllocError>
    requires { bases.has_crew problem.now base ≡ false }
    ensures { IfOk result (IsPart problem.now base) }
{
    let roster = costed(problem, all_open(alloc, problem)?);
    let bound = roster.cost;
    Ok(BasePlan {
        roster,
        bound,
        is_best: true,
    })
}

/// What the base has of a roster: nobody else flies.
fn roster_of(
    alloc: Global,
    problem: &Problem,
    base: usize,
    known: &Roster,
) -> Result<Roster, AllocError>
    requires { IsHeld problem.now known.now }
    ensures held { IfOk result (IsHeld problem.now) }
    ensures home { IfOk result (λ own. IsHome problem.now (only base) own.places) }
    ensures own { IfOk result (λ own. own.places ≡ unite problem.now (only base)
        known.now.places (plans.all_open problem.now)) }
{
    problem.is_sound();
    let open = all_open(alloc, problem)?;
    let places = united(alloc, problem, base, known, &open)?;
    Ok(costed(problem, places))
}

impl BasePlan {
    /// The part with what its base has of a known roster, if that costs less than its own.
    pub(crate) fn renewed(
        &self,
        alloc: Global,
        problem: &Problem,
        base: usize,
        known: &Roster,
    ) -> Result<BasePlan, AllocError>
        requires part { IsPart problem.now base self.now }
        requires held { IsHeld problem.now known.now }
        ensures part { IfOk result (IsPart problem.now base) }
        ensures kept { IfOk result (λ part. key_le part.roster self.now.roster ≡ true) }
        ensures same { IfOk result
            (λ part. (part.bound ≡ self.now.bound) × (part.is_best ≡ self.now.is_best)) }
    {
        let own = roster_of(alloc, problem, base, known)?;
        let roster = cheaper(own, self.roster.copy(alloc)?);
        Ok(BasePlan {
            roster,
            bound: self.bound,
            is_best: self.is_best,
        })
    }

    /// The part of a base whose best roster was found: no roster of the base comes before the one that is
    /// given. If others fly in that one, what the base has of it may come later, and then there is no part.
    pub(crate) fn best(
        alloc: Global,
        problem: &Problem,
        base: usize,
        found: &Roster,
    ) -> Result<Option<BasePlan>, AllocError>
        requires held { IsHeld problem.now found.now }
        requires best { IsNotAfter problem.now (IsHome problem.now (only base)) found.now }
        ensures part { IfOk result (λ part. IfSome part (IsPart problem.now base)) }
        ensures best { IfOk result (λ part. IfSome part (λ part. part.is_best ≡ true)) }
    {
        let own = roster_of(alloc, problem, base, found)?;
        if comes_before(found, &own) {
            return Ok(None);
        }
        let bound = own.cost;
        Ok(Some(BasePlan {
            roster: own,
            bound,
            is_best: true,
        }))
    }
}

/// The plan that the parts make, unless the known one is earlier.
pub(crate) fn joined(
    alloc: Global,
    problem: &Problem,
    parts: &[BasePlan],
    known: Planned,
) -> Result<Planned, AllocError>
    requires parts { AreParts problem.now parts.now }
    requires known { IsKnown problem.now known }
    ensures planned { IfOk result (IsPlannedFrom problem.now known.roster) }
    ensures bound { IfOk result (λ planned. known.bound ≤ℤ planned.bound) }
    ensures best { IfOk result
        (λ planned. All (λ part. part.is_best ≡ true) parts.now → planned.is_best ≡ true) }
{
    let whole = assembled(alloc, problem, parts)?;
    if whole.is_best {
        return Ok(whole);
    }
    let bound = greater(problem, whole.bound, known.bound);
    let roster = earlier(whole.roster, known.roster);
    Ok(so_far(problem, roster, bound))
}

/// The greater of two bounds.
fn greater(problem: &Problem, first: i64, second: i64) -> i64
    requires first { IsLowerBound problem.now first }
    requires second { IsLowerBound problem.now second }
    ensures bound { IsLowerBound problem.now result }
    ensures first { first ≤ℤ result }
    ensures second { second ≤ℤ result }
{
    if first < second { second } else { first }
}

/// The plan that the parts make: a month costs as much more than no pairings at all as its bases do together.
fn assembled(alloc: Global, problem: &Problem, parts: &[BasePlan]) -> Result<Planned, AllocError>
    requires { AreParts problem.now parts.now }
    ensures known { IfOk result (IsKnown problem.now) }
    ensures best { IfOk result
        (λ planned. All (λ part. part.is_best ≡ true) parts.now → planned.is_best ≡ true) }
{
    problem.is_sound();
    costs_fit(problem);
    let mut places = all_open(alloc, problem)?;
    let idle = roster_cost(problem, &places);
    let mut bound = i128::from(idle);
    let mut is_best = true;
    for base in 0..parts.len() {
        let part = &parts[base];
        places = united(alloc, problem, base, &part.roster, &places)?;
        bound = with_more(bound, above(part.bound, idle), base);
        is_best = are_both(is_best, part.is_best);
    }
    let roster = costed(problem, places);
    if is_best {
        return Ok(best_plan(problem, roster));
    }
    Ok(so_far(problem, roster, word_of(bound)))
}

/// How much more a bound is than what no pairings at all cost.
fn above(bound: i64, idle: i64) -> i128
    ensures value { result ≡ bound -ℤ idle }
    ensures within { IsWithin (2 ^ 64) result }
{
    i128::from(bound) - i128::from(idle)
}

/// The bound of the bases before this one with so much more for it.
fn with_more(bound: i128, more: i128, base: usize) -> i128
    requires base { base < most_bases }
    requires within { IsWithin ((base + 1) * (2 ^ 64)) bound }
    requires more { IsWithin (2 ^ 64) more }
    ensures value { result ≡ bound +ℤ more }
    ensures within { IsWithin ((base + 2) * (2 ^ 64)) result }
{
    bound + more
}

/// Whether both are true: a call, so that a proof can name what it answers.
fn are_both(first: bool, second: bool) -> bool
    ensures { result ≡ (first && second) }
{
    first && second
}

/// The number, or the nearest one of a word of 64 bits.
fn word_of(number: i128) -> i64
    ensures low { (result ≤ℤ number) ⊎ (result ≡ neg_ℤ (pos (2 ^ 63))) }
    ensures high { (number ≤ℤ result) ⊎ (result ≡ (pos (2 ^ 63) -ℤ pos 1)) }
{
    if number > i128::from(i64::MAX) {
        return i64::MAX;
    }
    if number < i128::from(i64::MIN) {
        return i64::MIN;
    }
    number as i64
}
