//! The first of equal cost: of a given roster and the cheapest ones of a region.

ghost use Rattle.std.specs.Prelude.{◌≡◌, ◌<◌, ◌≤◌, false, true, IfOk, IfSome, OnOk, Some, length, unwrap_or};
ghost use Rattle.roster_model.specs.Places.{open_number as nobody};
ghost use Rattle.roster_model.specs.Settled.{IsFoundWithin, IsHeld, Settles};
ghost use Rattle.roster_search_regions.specs.Regions.{Has, HasNot, IsIn, IsNarrowed, IsRegion, IsWhollyIn};
ghost use Rattle.roster_search_fixing.specs.Propagation.{IsEmpty};
ghost use Rattle.roster_search_least.specs.Firsts.{AgreeBefore, HasEarlier, IsFoundAt, IsSettledAt};
ghost use Rattle.roster_search_least.specs.Least.{CostsAtLeast};

use crate::finder::{Budget, Finder};
use crate::least::RootPrices;
use roster_problem::{Problem, open_number};
use roster_search_regions::Region;
use roster_values::Roster;
use std::alloc::{AllocError, Global};

/// The first in the list among the given roster and those of the region that cost as little; none there
/// costs less. The given one may lie outside the region.
///
/// It settles one pairing after another: the first person who has it in one of them, if there is one, and
/// from there on the region has no others. It ends early if nothing is left there.
pub(crate) fn first<F: Finder>(
    alloc: Global,
    problem: &Problem,
    region: &mut Region,
    roster: &mut Roster,
    root: &mut RootPrices<F::Guide>,
    finder: &mut F,
) -> Result<(), AllocError>
    requires finder { F.may_find }
    requires region { IsRegion problem.now region.old }
    requires held { IsHeld problem.now roster.old }
    requires least { CostsAtLeast problem.now (IsIn problem.now region.old) roster.old.cost }
    ensures settled { OnOk result (Settles problem.now (IsIn problem.now region.old)
        (IsIn problem.now region.old) (Some roster.old) roster.new) }
    ensures goes_on { F.goes_on finder.old finder.new }
{
    for p in 0..problem.pairings().len() {
        settle(alloc, problem, region, roster, root, p, finder)?;
        if is_empty(problem, region) {
            return Ok(());
        }
    }
    Ok(())
}

/// Whether somebody has no line left in the region, which then has no roster.
fn is_empty(problem: &Problem, region: &Region) -> bool
    requires { IsRegion problem.now region.now }
    ensures { result ≡ true → IsEmpty problem.now region.now }
{
    for k in 0..problem.persons().len() {
        if region.width(k) == 0 {
            return true;
        }
    }
    false
}

/// Settles who has the pairing at place `p`. In the new region all have there what the new roster has: the
/// first number that the old one has there, or a roster of the region that costs as little.
fn settle<F: Finder>(
    alloc: Global,
    problem: &Problem,
    region: &mut Region,
    roster: &mut Roster,
    root: &mut RootPrices<F::Guide>,
    p: usize,
    finder: &mut F,
) -> Result<(), AllocError>
    requires finder { F.may_find }
    requires pairing { p < length problem.now.pairings }
    requires agree { AgreeBefore problem.now p region.old roster.old }
    ensures settled { OnOk result
        (IsSettledAt problem.now p region.old roster.old region.new roster.new) }
    ensures goes_on { F.goes_on finder.old finder.new }
{
    if let Some(earlier) = earlier_at(alloc, problem, region, roster, root, p, finder)? {
        *roster = earlier;
    }
    Ok(())
}

/// The roster with the first number at place `p`, if that is before the number of the given one. It is
/// settled there in the region.
///
/// After one question about the first person who may have the pairing, it asks for all earlier numbers at
/// once, and then for those before the one that was found: to see that there is none takes about as long for
/// all persons as for one.
fn earlier_at<F: Finder>(
    alloc: Global,
    problem: &Problem,
    region: &mut Region,
    roster: &Roster,
    root: &mut RootPrices<F::Guide>,
    p: usize,
    finder: &mut F,
) -> Result<Option<Roster>, AllocError>
    requires finder { F.may_find }
    requires pairing { p < length problem.now.pairings }
    requires agree { AgreeBefore problem.now p region.old roster.now }
    ensures settled { IfOk result (λ earlier. IsSettledAt problem.now p region.old roster.now
        region.new (unwrap_or earlier roster.now)) }
    ensures goes_on { F.goes_on finder.old finder.new }
{
    let most = roster.cost;
    let found = first_found(alloc, problem, region, roster, root, p, finder)?;
    let (mut number, mut first) = found;
    while number > 0 {
        let ask = Ask { number, p, most };
        match with_earlier(alloc, problem, region, ask, root, finder)? {
            Some(earlier) => {
                number = earlier.places.as_slice()[p];
                first = Some(earlier);
            }
            None => {
                leave_number(alloc, problem, region, number, p)?;
                return Ok(first);
            }
        }
    }
    leave_number(alloc, problem, region, number, p)?;
    Ok(first)
}

/// The number at place `p` of the given roster; or that of the first person who may have the pairing there,
/// with a roster of the region that costs no more, if there is one. If only one person may have it, nothing
/// is asked yet.
fn first_found<F: Finder>(
    alloc: Global,
    problem: &Problem,
    region: &Region,
    roster: &Roster,
    root: &mut RootPrices<F::Guide>,
    p: usize,
    finder: &mut F,
) -> Result<(u16, Option<Roster>), AllocError>
    requires finder { F.may_find }
    requires pairing { p < length problem.now.pairings }
    requires agree { AgreeBefore problem.now p region.now roster.now }
    ensures number { IfOk result (λ found. found.0 ≤ nobody problem.now) }
    ensures found { IfOk result (λ found. IsFoundAt problem.now p found.0 region.now roster.now found.1) }
    ensures goes_on { F.goes_on finder.old finder.new }
{
    let number = roster.places.as_slice()[p];
    let Some(k) = first_of_several(problem, region, number, p) else {
        return Ok((number, None));
    };
    let holder = Holder {
        k: usize::from(k),
        p,
    };
    match with_holder(alloc, problem, region, holder, root, roster.cost, finder)? {
        Some(earlier) => Ok((k, Some(earlier))),
        None => Ok((number, None)),
    }
}

/// The first person before a number who may have the pairing at place `p`, if several may.
fn first_of_several(problem: &Problem, region: &Region, number: u16, p: usize) -> Option<u16>
    requires region { IsRegion problem.now region.now }
    requires number { number ≤ nobody problem.now }
    ensures { IfSome result (λ k. k < number) }
{
    let mut first = None;
    for k in 0..number {
        if may_have(problem, region, usize::from(k), p) {
            if first.is_some() {
                return first;
            }
            first = Some(k);
        }
    }
    None
}

/// A person, and a pairing that the person is to have, by their places.
#[derive(Clone, Copy)]
struct Holder {
    k: usize,
    p: usize,
}

/// Some roster of the region that costs at most so much and in which the holder has the pairing, or none, and
/// then each of them costs more.
fn with_holder<F: Finder>(
    alloc: Global,
    problem: &Problem,
    region: &Region,
    holder: Holder,
    root: &mut RootPrices<F::Guide>,
    most: i64,
    finder: &mut F,
) -> Result<Option<Roster>, AllocError>
    requires finder { F.may_find }
    requires region { IsRegion problem.now region.now }
    requires person { holder.k < length problem.now.persons }
    requires pairing { holder.p < length problem.now.pairings }
    ensures found { IfOk result (IsFoundWithin problem.now
        (λ places. IsIn problem.now region.now places × Has holder.k holder.p places) most) }
    ensures goes_on { F.goes_on finder.old finder.new }
{
    let mut given = region.copy(alloc)?;
    given.give(alloc, problem, holder.k, holder.p)?;
    let budget = Budget { most, enough: most };
    finder.find(alloc, problem, given, &root.prices, &mut root.guide, budget)
}

/// A number and a pairing, by its place, and what a roster may cost that has an earlier number there.
#[derive(Clone, Copy)]
struct Ask {
    number: u16,
    p: usize,
    most: i64,
}

/// Some roster of the region that costs at most so much and has an earlier number than the one that is asked
/// about, or none, and then each of them costs more.
fn with_earlier<F: Finder>(
    alloc: Global,
    problem: &Problem,
    region: &Region,
    ask: Ask,
    root: &mut RootPrices<F::Guide>,
    finder: &mut F,
) -> Result<Option<Roster>, AllocError>
    requires finder { F.may_find }
    requires region { IsRegion problem.now region.now }
    requires number { ask.number ≤ nobody problem.now }
    requires pairing { ask.p < length problem.now.pairings }
    ensures found { IfOk result (IsFoundWithin problem.now
        (λ places. IsIn problem.now region.now places × HasEarlier ask.number ask.p places) ask.most) }
    ensures goes_on { F.goes_on finder.old finder.new }
{
    if !may_be_earlier(problem, region, ask.number, ask.p) {
        return Ok(None);
    }
    let mut part = region.copy(alloc)?;
    keep_earlier(alloc, problem, &mut part, ask.number, ask.p)?;
    let most = ask.most;
    let budget = Budget { most, enough: most };
    finder.find(alloc, problem, part, &root.prices, &mut root.guide, budget)
}

/// Whether some line that the region leaves a person before the number has the pairing at place `p`.
fn may_be_earlier(problem: &Problem, region: &Region, number: u16, p: usize) -> bool
    requires region { IsRegion problem.now region.now }
    requires number { number ≤ nobody problem.now }
    ensures { result ≡ false → IsWhollyIn problem.now region.now (λ places. ¬ HasEarlier number p places) }
{
    for k in 0..number {
        if may_have(problem, region, usize::from(k), p) {
            return true;
        }
    }
    false
}

/// Whether some line that the region leaves person `k` has the pairing at place `p`.
fn may_have(problem: &Problem, region: &Region, k: usize, p: usize) -> bool
    requires region { IsRegion problem.now region.now }
    requires person { k < length problem.now.persons }
    ensures { result ≡ false → IsWhollyIn problem.now region.now (HasNot k p) }
{
    region.possible(k).has(p)
}

/// Leaves in the region only rosters that have an earlier number at place `p`.
fn keep_earlier(
    alloc: Global,
    problem: &Problem,
    region: &mut Region,
    number: u16,
    p: usize,
) -> Result<(), AllocError>
    requires region { IsRegion problem.now region.old }
    requires number { number ≤ nobody problem.now }
    requires pairing { p < length problem.now.pairings }
    ensures narrowed { OnOk result (IsNarrowed problem.now (HasEarlier number p) region.old region.new) }
    ensures wholly { OnOk result (IsWhollyIn problem.now region.new (HasEarlier number p)) }
{
    region.fly(problem, p);
    for k in usize::from(number)..problem.persons().len() {
        region.deny(alloc, problem, k, p)?;
    }
    Ok(())
}

/// Leaves in the region only rosters that have the number at place `p`.
fn leave_number(
    alloc: Global,
    problem: &Problem,
    region: &mut Region,
    number: u16,
    p: usize,
) -> Result<(), AllocError>
    requires region { IsRegion problem.now region.old }
    requires number { number ≤ nobody problem.now }
    requires pairing { p < length problem.now.pairings }
    ensures narrowed { OnOk result (IsNarrowed problem.now (Has number p) region.old region.new) }
    ensures wholly { OnOk result (IsWhollyIn problem.now region.new (Has number p)) }
{
    if number == open_number(problem) {
        region.leave_open(problem, p);
        return Ok(());
    }
    region.give(alloc, problem, usize::from(number), p)
}
