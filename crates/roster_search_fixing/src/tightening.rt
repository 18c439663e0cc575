//! Regions without what costs too much.

ghost use Rattle.std.specs.Prelude.{◌≡◌, ◌<◌, ℤ, ◌+ℤ◌, ◌-ℤ◌, ◌*ℤ◌, IfOk, IfSome, MatchBool, MatchOption, OnOk};
ghost use Rattle.std.specs.Prelude.{length, pos, slice_index_or};
ghost use Rattle.roster_cost.specs.Amounts.{IsWithin};
ghost use Rattle.roster_search_regions.specs.Prices.{ArePrices, IsPrice};
ghost use Rattle.roster_search_regions.specs.Regions.{IsNarrowed, IsRegion};
ghost use Rattle.roster_search_fixing.specs.Bounds.{CostsAtMost, IsAllAbove, IsShareWithin, IsValueWithin};
ghost use Rattle.roster_search_fixing.specs.Tightening.{IsUse};

use crate::bounding::{MOST_BOUND, least_values, sum_of_both, terms};
use crate::propagate::propagate;
use roster_cost::priced_shares_add_up;
use roster_problem::Problem;
use roster_search_regions::{MOST_PAID, Region, cost_of_open, paid_for_open, price_of};
use std::alloc::{AllocError, Global};

/// How often a region is tightened at once, at most.
const MOST_TIGHTENINGS: usize = 32;

/// It is tightened again if what follows takes away more than one in so many of what is left to decide:
/// nothing else makes the bound rise, and each round looks at all lines.
const LEAST_PART: usize = 50;

/// How far a cost lies from what it costs that nobody has a pairing, at most, in parts of a cost unit.
pub(crate) const MOST_LIMIT: u64 = 1 << 61;

/// What a cost leaves over above a bound, at most.
pub(crate) const MOST_SLACK: u64 = MOST_LIMIT + MOST_BOUND + MOST_PAID;

/// What each person's line and each pairing adds at least, and what a cost leaves over.
#[derive(Drop)]
pub(crate) struct Bounds {
    pub(crate) values: Vec<i64>,
    pub(crate) terms: Vec<i64>,
    pub(crate) slack: i64,
}

impl Bounds {
    ghost use Rattle.roster_search_fixing.specs.Tightening.{AreNear};

    /// The most that person `k`'s line may add.
    fn cut_of_line(&self, k: usize) -> i64
        requires near { AreNear self.now }
        requires inside { k < length self.now.values.items }
        ensures { result ≡ slice_index_or self.now.values.items k (pos 0) +ℤ self.now.slack }
    {
        self.values[k] + self.slack
    }

    /// The most that the pairing at place `p` may add.
    fn cut_of_pairing(&self, p: usize) -> i64
        requires near { AreNear self.now }
        requires inside { p < length self.now.terms.items }
        ensures { result ≡ slice_index_or self.now.terms.items p (pos 0) +ℤ self.now.slack }
    {
        self.terms[p] + self.slack
    }
}

/// A cost in parts of a cost unit above what it costs that nobody has a pairing; none if that is
/// further from 0 than any roster's.
fn limit(region: &Region, most: i64) -> Option<i64>
    ensures value { IfSome result
        (λ limit. limit ≡ pos region.now.scale *ℤ (most -ℤ region.now.idle)) }
    ensures bound { IfSome result (IsWithin MOST_LIMIT) }
{
    let above = most.checked_sub(region.idle())?;
    let limit = above.checked_mul(i64::from(region.scale()))?;
    if limit < -(MOST_LIMIT as i64) || limit > MOST_LIMIT as i64 {
        return None;
    }
    Some(limit)
}

/// Takes person `k`'s lines away whose value is beyond the cut. A person with one line keeps it: whether
/// it costs too much is told by the bound.
fn fix_lines_of(
    alloc: Global,
    problem: &Problem,
    region: &mut Region,
    prices: &[i64],
    k: usize,
    cut: i64,
    most: i64,
) -> Result<(), AllocError>
    requires region { IsRegion problem.now region.old }
    requires prices { ArePrices prices.now }
    requires person { k < length problem.now.persons }
    requires within { IsValueWithin problem.now region.old prices.now k most cut }
    ensures { OnOk result (IsNarrowed problem.now (CostsAtMost problem.now most)
        region.old region.new) }
{
    if region.width(k) > 1 && region.greatest(k, prices) > cut {
        region.keep_within(alloc, k, prices, cut)?;
    }
    Ok(())
}

/// Takes the lines away whose value is further than the slack above the least one.
fn fix_lines(
    alloc: Global,
    problem: &Problem,
    region: &mut Region,
    prices: &[i64],
    bounds: &Bounds,
    most: i64,
) -> Result<(), AllocError>
    requires region { IsRegion problem.now region.old }
    requires prices { ArePrices prices.now }
    requires bounds { (paid : ℤ) × IsUse problem.now region.old prices.now paid bounds.now most }
    ensures { OnOk result (IsNarrowed problem.now (CostsAtMost problem.now most)
        region.old region.new) }
{
    for k in 0..problem.persons().len() {
        let cut = bounds.cut_of_line(k);
        fix_lines_of(alloc, problem, region, prices, k, cut, most)?;
    }
    Ok(())
}

/// The pairing at place `p` isn't open, if that costs more than the cut.
fn fix_flown(
    problem: &Problem,
    region: &mut Region,
    prices: &[i64],
    paid: i64,
    p: usize,
    cut: i64,
    most: i64,
)
    requires region { IsRegion problem.now region.old }
    requires paid { IsPrice paid }
    requires pairing { p < length problem.now.pairings }
    requires within { IsShareWithin problem.now region.old prices.now paid p most cut }
    ensures { IsNarrowed problem.now (CostsAtMost problem.now most) region.old region.new }
{
    if cost_of_open(problem, region, paid, p) > cut {
        region.fly(problem, p);
    }
}

/// The pairing at place `p` is open, if its price is beyond the cut.
fn fix_open(
    problem: &Problem,
    region: &mut Region,
    prices: &[i64],
    paid: i64,
    p: usize,
    cut: i64,
    most: i64,
)
    requires region { IsRegion problem.now region.old }
    requires prices { ArePrices prices.now }
    requires pairing { p < length problem.now.pairings }
    requires within { IsShareWithin problem.now region.old prices.now paid p most cut }
    ensures { IsNarrowed problem.now (CostsAtMost problem.now most) region.old region.new }
{
    if price_of(prices, p) > cut {
        region.leave_open(problem, p);
    }
}

/// Decides for each pairing whether it is open, if the slack leaves only one answer.
fn fix_pairings(
    problem: &Problem,
    region: &mut Region,
    prices: &[i64],
    paid: i64,
    bounds: &Bounds,
    most: i64,
)
    requires region { IsRegion problem.now region.old }
    requires prices { ArePrices prices.now }
    requires paid { IsPrice paid }
    requires bounds { IsUse problem.now region.old prices.now paid bounds.now most }
    ensures { IsNarrowed problem.now (CostsAtMost problem.now most) region.old region.new }
{
    for p in 0..problem.pairings().len() {
        let cut = bounds.cut_of_pairing(p);
        fix_flown(problem, region, prices, paid, p, cut, most);
        fix_open(problem, region, prices, paid, p, cut, most);
    }
}

/// One round of `tighten`.
fn tighten_once(
    alloc: Global,
    problem: &Problem,
    region: &mut Region,
    prices: &[i64],
    paid: i64,
    most: i64,
) -> Result<bool, AllocError>
    requires region { IsRegion problem.now region.old }
    requires prices { ArePrices prices.now }
    requires paid { IsPrice paid }
    ensures { IfOk result (λ some. MatchBool some
        (IsNarrowed problem.now (CostsAtMost problem.now most) region.old region.new)
        (IsAllAbove problem.now region.old most)) }
{
    if !propagate(alloc, problem, region)? {
        return Ok(false);
    }
    let Some(limit) = limit(region, most) else {
        return Ok(true);
    };
    match bounds_of(alloc, problem, region, prices, paid, most, limit)? {
        None => Ok(false),
        Some(bounds) => {
            fix_lines(alloc, problem, region, prices, &bounds, most)?;
            fix_pairings(problem, region, prices, paid, &bounds, most);
            Ok(true)
        }
    }
}

/// Takes away what no roster that costs at most so much has: lines, and open or flown pairings. If it answers
/// no, the region has no such roster. Any prices will do, and any amount that each open pairing is paid.
pub fn tighten(
    alloc: Global,
    problem: &Problem,
    region: &mut Region,
    prices: &[i64],
    paid: i64,
    most: i64,
) -> Result<bool, AllocError>
    requires region { IsRegion problem.now region.old }
    requires prices { ArePrices prices.now }
    requires paid { IsPrice paid }
    ensures { IfOk result (λ some. MatchBool some
        (IsNarrowed problem.now (CostsAtMost problem.now most) region.old region.new)
        (IsAllAbove problem.now region.old most)) }
{
    for _ in 0..MOST_TIGHTENINGS {
        if !tighten_once(alloc, problem, region, prices, paid, most)? {
            return Ok(false);
        }
        let before = weight(problem, region);
        if !propagate(alloc, problem, region)? {
            return Ok(false);
        }
        let gone = before.saturating_sub(weight(problem, region));
        if gone <= before / LEAST_PART {
            break;
        }
    }
    Ok(true)
}

/// What the parts add at least, and what a cost leaves over; if it answers none, every roster costs more.
fn bounds_of(
    alloc: Global,
    problem: &Problem,
    region: &Region,
    prices: &[i64],
    paid: i64,
    most: i64,
    limit: i64,
) -> Result<Option<Bounds>, AllocError>
    requires region { IsRegion problem.now region.now }
    requires prices { ArePrices prices.now }
    requires paid { IsPrice paid }
    requires limit { limit ≡ pos region.now.scale *ℤ (most -ℤ region.now.idle) }
    requires near { IsWithin MOST_LIMIT limit }
    ensures { IfOk result (λ bounds. MatchOption bounds
        (IsAllAbove problem.now region.now most)
        (λ bounds. IsUse problem.now region.now prices.now paid bounds most)) }
{
    problem.is_sound();
    priced_shares_add_up();
    let values = least_values(alloc, problem, region, prices)?;
    let terms = terms(alloc, problem, region, prices, paid)?;
    let both = sum_of_both(&values, &terms);
    let bound = both + paid_for_open(region, paid);
    if limit < bound {
        return Ok(None);
    }
    let slack = limit - bound;
    Ok(Some(Bounds {
        values,
        terms,
        slack,
    }))
}

/// How much is left to decide: it falls if something is taken away.
fn weight(problem: &Problem, region: &Region) -> usize {
    let mut weight: usize = 0;
    for k in 0..region.persons() {
        weight = weight.wrapping_add(region.width(k));
    }
    for p in 0..problem.pairings().len() {
        if !region.is_flown(p) && !region.is_left_open(p) {
            weight = weight.wrapping_add(1);
        }
    }
    weight
}
