//! What follows for the other persons from the lines of each.

ghost use Rattle.std.specs.Prelude.{◌<◌, ℕ, IfNone, IfOk, IfSome, MatchBool, OnOk, length};
ghost use Rattle.roster_search_regions.specs.Regions.{Has, HasNone, IsNarrowed, IsRegion, IsWhollyIn};
ghost use Rattle.roster_search_fixing.specs.Propagation.{Anything, AreHolders, IsEmpty, IsUncertain};

use roster_problem::{Problem, open_number};
use roster_search_regions::Region;
use roster_values::Set;
use std::alloc::{AllocError, Global};

/// Who may have a pairing.
#[derive(Clone, Copy)]
pub(crate) enum Holders {
    /// No person: it is open.
    Nobody,
    /// The person at this place, or it is open.
    One(usize),
    /// Two persons or more.
    Several,
}

/// Pairings that somebody may have, that two persons or more may have, and that somebody must have.
#[derive(Drop)]
struct Claims {
    possible: Set,
    contested: Set,
    certain: Set,
}

/// The person whose lines all have the pairing at place `p`, if there is one.
pub(crate) fn owner(problem: &Problem, region: &Region, p: usize) -> Option<usize>
    requires { IsRegion problem.now region.now }
    ensures person { IfSome result (λ k. k < length problem.now.persons) }
    ensures all { IfSome result (λ k. IsWhollyIn problem.now region.now (Has k p)) }
    ensures none { IfNone result
        ((k : ℕ) → k < length problem.now.persons → IsUncertain region.now p k) }
{
    for k in 0..problem.persons().len() {
        if region.certain(k).has(p) && region.width(k) > 0 {
            return Some(k);
        }
    }
    None
}

/// Who may have the pairing at place `p`.
fn holders_of(problem: &Problem, region: &Region, p: usize) -> Holders
    requires region { IsRegion problem.now region.now }
    requires pairing { p < length problem.now.pairings }
    ensures { AreHolders problem.now region.now p result }
{
    let mut sole = None;
    for k in 0..problem.persons().len() {
        if region.possible(k).has(p) {
            if sole.is_some() {
                return Holders::Several;
            }
            sole = Some(k);
        }
    }
    match sole {
        Some(k) => Holders::One(k),
        None => Holders::Nobody,
    }
}

/// No person but the owner of the pairing at place `p` has it.
fn deny_others(
    alloc: Global,
    problem: &Problem,
    region: &mut Region,
    owner: usize,
    p: usize,
) -> Result<(), AllocError>
    requires region { IsRegion problem.now region.old }
    requires pairing { p < length problem.now.pairings }
    requires owner { IsWhollyIn problem.now region.old (Has owner p) }
    ensures { OnOk result (IsNarrowed problem.now Anything region.old region.new) }
{
    for k in 0..problem.persons().len() {
        if k != owner && region.possible(k).has(p) {
            region.deny(alloc, problem, k, p)?;
        }
    }
    Ok(())
}

/// Draws what follows for the pairing at place `p` from who may have it. No roster is lost; if
/// it answers no, there is none.
fn settle(
    alloc: Global,
    problem: &Problem,
    region: &mut Region,
    p: usize,
) -> Result<bool, AllocError>
    requires region { IsRegion problem.now region.old }
    requires pairing { p < length problem.now.pairings }
    ensures { IfOk result (λ some. MatchBool some
        (IsNarrowed problem.now Anything region.old region.new) (IsEmpty problem.now region.old)) }
{
    if let Some(k) = owner(problem, region, p) {
        if region.is_left_open(p) {
            return Ok(false);
        }
        region.fly(problem, p);
        deny_others(alloc, problem, region, k, p)?;
        return Ok(true);
    }
    if region.is_left_open(p) {
        if region.is_flown(p) {
            return Ok(false);
        }
        let nobody = usize::from(open_number(problem));
        deny_others(alloc, problem, region, nobody, p)?;
        return Ok(true);
    }
    match holders_of(problem, region, p) {
        Holders::Several => Ok(true),
        Holders::One(k) => {
            if region.is_flown(p) {
                region.give(alloc, problem, k, p)?;
            }
            Ok(true)
        }
        Holders::Nobody => {
            if region.is_flown(p) {
                return Ok(false);
            }
            region.leave_open(problem, p);
            Ok(true)
        }
    }
}

/// The pairings that person `k` can't have, since all lines of somebody else have them, or since they are
/// open.
fn taken_from(problem: &Problem, region: &Region, k: usize) -> Set
    requires region { IsRegion problem.now region.now }
    requires person { k < length problem.now.persons }
    ensures { IsWhollyIn problem.now region.now (HasNone k result) }
{
    let mut taken = *region.left_open();
    for j in 0..problem.persons().len() {
        if j != k && region.width(j) > 0 {
            taken = taken.or(&region.certain(j));
        }
    }
    taken
}

/// Nobody has what somebody else must have, or what is open: one walk through the lines of each person,
/// whatever they lose. No roster is lost.
fn deny_taken(alloc: Global, problem: &Problem, region: &mut Region) -> Result<(), AllocError>
    requires { IsRegion problem.now region.old }
    ensures { OnOk result (IsNarrowed problem.now Anything region.old region.new) }
{
    for k in 0..problem.persons().len() {
        let taken = taken_from(problem, region, k);
        if !region.possible(k).and(&taken).is_empty() {
            region.deny_all(alloc, problem, k, &taken)?;
        }
    }
    Ok(())
}

/// Draws what follows from who may have each pairing. No roster is lost; if it answers no, there
/// is none. It asks nothing of pairings of which nothing followed as it began.
pub(crate) fn propagate(
    alloc: Global,
    problem: &Problem,
    region: &mut Region,
) -> Result<bool, AllocError>
    requires { IsRegion problem.now region.old }
    ensures { IfOk result (λ some. MatchBool some
        (IsNarrowed problem.now Anything region.old region.new) (IsEmpty problem.now region.old)) }
{
    deny_taken(alloc, problem, region)?;
    let claims = claims_in(region);
    for p in 0..problem.pairings().len() {
        let due = is_due(region, &claims, p);
        if !settle_if(alloc, problem, region, p, due)? {
            return Ok(false);
        }
    }
    Ok(true)
}

/// Draws what follows for the pairing at place `p`, if it is due.
fn settle_if(
    alloc: Global,
    problem: &Problem,
    region: &mut Region,
    p: usize,
    due: bool,
) -> Result<bool, AllocError>
    requires region { IsRegion problem.now region.old }
    requires pairing { p < length problem.now.pairings }
    ensures { IfOk result (λ some. MatchBool some
        (IsNarrowed problem.now Anything region.old region.new) (IsEmpty problem.now region.old)) }
{
    if !due {
        return Ok(true);
    }
    let some = settle(alloc, problem, region, p)?;
    Ok(some)
}

/// Which pairings somebody may have, two persons may have, and somebody must have.
fn claims_in(region: &Region) -> Claims {
    let mut claims = Claims {
        possible: Set::empty(),
        contested: Set::empty(),
        certain: Set::empty(),
    };
    for k in 0..region.persons() {
        let possible = region.possible(k);
        let contested = claims.possible.and(&possible);
        claims.contested = claims.contested.or(&contested);
        claims.possible = claims.possible.or(&possible);
        claims.certain = claims.certain.or(&region.certain(k));
    }
    claims
}

/// Whether something may follow for the pairing at place `p`. Nothing rests on the answer.
fn is_due(region: &Region, claims: &Claims, p: usize) -> bool {
    if region.is_left_open(p) {
        return claims.possible.has(p) || region.is_flown(p);
    }
    if claims.certain.has(p) {
        return claims.contested.has(p) || !region.is_flown(p);
    }
    if claims.possible.has(p) {
        return !claims.contested.has(p) && region.is_flown(p);
    }
    true
}
