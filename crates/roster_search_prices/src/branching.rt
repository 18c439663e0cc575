//! Which choice of a person to settle next.

ghost use Rattle.std.specs.Prelude.{◌<◌, length};
ghost use Rattle.roster_search_regions.specs.Regions.{IsRegion};

use crate::look::{Look, WHOLE};
use crate::scope::Scope;
use crate::tuning::{BEST_SHARE, PER_DOUBLING, PER_PERSON};
use roster_problem::Problem;
use roster_search_regions::{DualPrices, PersonLines, Region, Split};
use std::alloc::{AllocError, Global};

/// A person and a pairing, and what weighs against settling whether that person has it.
#[derive(Clone, Copy)]
struct Candidate {
    weight: u64,
    k: usize,
    p: usize,
}

/// What it is best to settle next: a person and a pairing that some of the person's lines have, and some
/// haven't; the first of both if there are none.
pub fn branch(
    alloc: Global,
    problem: &Problem,
    region: &Region,
    prices: &DualPrices,
) -> Result<Split, AllocError>
    requires { IsRegion problem.now region.now }
{
    let scope = Scope::new(alloc, problem, region, prices.prices())?;
    let crowds = crowds(alloc, problem, region, &scope)?;
    let mut look = Look::new(alloc, problem.pairings().len())?;
    branch_in(problem, region, prices, &scope, &crowds, &mut look)
}

/// `branch`, by a look at each person of the scope.
fn branch_in(
    problem: &Problem,
    region: &Region,
    prices: &DualPrices,
    scope: &Scope,
    crowds: &[u64],
    look: &mut Look,
) -> Result<Split, AllocError>
    requires { IsRegion problem.now region.now }
{
    let softness = prices.softness().saturating_add(1);
    let mut best = Candidate {
        weight: u64::MAX,
        k: 0,
        p: 0,
    };
    for k in scope.persons() {
        let k = *k;
        if k < problem.persons().len() && region.width(k) > 1 {
            look.clear(scope.pairings());
            let choices = PersonLines::All(region.choices(k));
            look.add(&choices, scope, prices.prices(), softness)?;
            best = better(region, look, scope, crowds, k, best);
        }
    }
    Ok(Split::Holder(best.k, best.p))
}

/// How much weighs against each pairing, by how many persons of the scope can have it.
fn crowds(
    alloc: Global,
    problem: &Problem,
    region: &Region,
    scope: &Scope,
) -> Result<Vec<u64>, AllocError>
    requires { IsRegion problem.now region.now }
{
    let mut crowds = vec![in alloc; 0_u64; problem.pairings().len()]?;
    for k in scope.persons() {
        if *k < problem.persons().len() {
            let possible = region.possible(*k);
            for p in scope.pairings() {
                if possible.has(*p) && *p < crowds.len() {
                    crowds[*p] = crowds[*p].wrapping_add(PER_PERSON);
                }
            }
        }
    }
    Ok(crowds)
}

/// The best of a choice and those of person `k`, who was looked at.
fn better(
    region: &Region,
    look: &Look,
    scope: &Scope,
    crowds: &[u64],
    k: usize,
    old: Candidate,
) -> Candidate
    requires { k < length region.now.choices }
{
    let possible = region.possible(k);
    let certain = region.certain(k);
    let lines = region.width(k) as u64;
    let doublings = if lines == 0 {
        0
    } else {
        u64::from(lines.ilog2())
    };
    let mut best = old;
    for p in scope.pairings() {
        let p = *p;
        if p >= crowds.len() || !possible.has(p) || certain.has(p) {
            continue;
        }
        let weight = look
            .cover(p)
            .abs_diff(WHOLE * BEST_SHARE / 10)
            .saturating_add(crowds[p])
            .saturating_add(doublings * PER_DOUBLING);
        if weight < best.weight {
            best = Candidate { weight, k, p };
        }
    }
    best
}
