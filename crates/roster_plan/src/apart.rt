//! Bases of which not all lines can be searched: prices bound each, and then those of its lines that cost
//! little are searched.

ghost use Rattle.std.specs.Prelude.{◌<◌, IfOk};
ghost use Rattle.std.specs.Thread.{IsSync};
ghost use Rattle.roster_model.specs.Problem.{Problem};
ghost use Rattle.roster_plan.specs.Bases.{AreGaps, IsGap};
ghost use Rattle.roster_plan.specs.Lent.{IsLent};
ghost use Rattle.roster_plan.specs.Months.{IsMonth, IsMonthFrom};
ghost use Rattle.roster_plan.specs.Parts.{AreParts};

use crate::dives::improved_by_dives;
use crate::exact::{Found, close};
use crate::lent::Lent;
use crate::looks::{looks_of, shares};
use crate::means::Means;
use crate::months::Month;
use crate::parts::{BasePlan, is_open};
use crate::watching::{Phase, Watcher};
use roster_bases::{count_of_persons, is_pairing_of};
use roster_cost::keys_are_in_order;
use roster_model::limits::MOST_BASES;
use roster_plan_bound::{PricedBound, Pricing, Team};
use roster_plan_moves::Neighbourhoods;
use roster_problem::{Problem, open_number};
use roster_values::Roster;
use std::alloc::{AllocError, Global};
use std::thread::{Threads, for_each_mut};

/// More than one open pairing of so many is many.
const PAIRINGS_FOR_AN_OPEN_ONE: usize = 16;

/// A base, how many persons it has, what its known roster costs, what prices say of it, and what searches of
/// its gaps come to, or before the first one its first bound.
#[derive(Drop)]
pub(crate) struct Gap<'a> {
    pub(crate) base: usize,
    pub(crate) crew: usize,
    pub(crate) cost: i64,
    pub(crate) priced: PricedBound<'a>,
    // Whether there was memory for the last look at prices.
    pub(crate) raised: Result<(), AllocError>,
    pub(crate) found: Result<Found, AllocError>,
}

/// The bases whose best roster isn't known, if prices were looked at, and how often they were.
#[derive(Drop)]
pub(crate) struct Bounds<'a> {
    pub(crate) gaps: Vec<Gap<'a>>,
    looks: u32,
}

impl<'a> Bounds<'a> {
    /// Before the first look.
    pub(crate) fn none(alloc: Global) -> Bounds<'a>
        ensures { (problem : Problem) → AreGaps problem result.gaps.items }
    {
        Bounds {
            gaps: Vec::new(alloc),
            looks: 0,
        }
    }
}

/// The month with greater bounds of its bases, if prices give them, with rosters of columns, and with the
/// best rosters of bases, if those are found. The looks of an effort go on from those that there were before.
pub(crate) fn bounded<'a, R: Threads + Sync, W: Watcher>(
    rt: &R,
    lent: &Lent<'a>,
    start: Month,
    means: &Means,
    neighbourhoods: &mut Neighbourhoods,
    bounds: &mut Bounds<'a>,
    watcher: &mut W,
) -> Result<Month, AllocError>
    requires lent { IsLent lent.now }
    requires month { IsMonth lent.now.problem.now start }
    requires workers { 0 < means.now.workers }
    requires bounds { AreGaps lent.now.problem.now bounds.old.gaps.items }
    ensures month { IfOk result (IsMonthFrom lent.now.problem.now start.planned.roster) }
    ensures bounds { IfOk result (λ done. AreGaps lent.now.problem.now bounds.new.gaps.items) }
{
    keys_are_in_order();
    let looks = looks_of(lent.problem, &start.parts, means);
    renew(rt, lent, &start.parts, means.workers, looks, bounds)?;
    let ahead = looks.saturating_sub(bounds.looks);
    bounds.looks = bounds.looks.max(looks);
    let month = raised(
        rt,
        lent,
        start,
        ahead,
        means.workers,
        &mut bounds.gaps,
        watcher,
    )?;
    let month = improved_by_dives(
        rt,
        lent,
        month,
        means,
        neighbourhoods,
        &bounds.gaps,
        watcher,
    )?;
    close_all(rt, lent, &month.parts, means, &mut bounds.gaps);
    let month = closed(lent, month, &bounds.gaps, watcher)?;
    Ok(month)
}

/// Passes over bases whose best roster is known, and tells the others what their rosters cost now. They have
/// their first look if there is to be one and there was none.
fn renew<'a, R: Threads + Sync>(
    rt: &R,
    lent: &Lent<'a>,
    parts: &[BasePlan],
    workers: usize,
    looks: u32,
    bounds: &mut Bounds<'a>,
) -> Result<(), AllocError>
    requires lent { IsLent lent.now }
    requires parts { AreParts lent.now.problem.now parts.now }
    requires workers { 0 < workers }
    requires bounds { AreGaps lent.now.problem.now bounds.old.gaps.items }
    ensures { IfOk result (λ done. AreGaps lent.now.problem.now bounds.new.gaps.items) }
{
    begin(rt, lent, parts, workers, looks, bounds)?;
    pass_over(parts, &mut bounds.gaps);
    renew_costs(parts, &mut bounds.gaps);
    Ok(())
}

/// Looks at first prices of the bases whose best roster isn't known, if there are to be looks and there were
/// none.
fn begin<'a, R: Threads + Sync>(
    rt: &R,
    lent: &Lent<'a>,
    parts: &[BasePlan],
    workers: usize,
    looks: u32,
    bounds: &mut Bounds<'a>,
) -> Result<(), AllocError>
    requires lent { IsLent lent.now }
    requires parts { AreParts lent.now.problem.now parts.now }
    requires workers { 0 < workers }
    requires bounds { AreGaps lent.now.problem.now bounds.old.gaps.items }
    ensures { IfOk result (λ done. AreGaps lent.now.problem.now bounds.new.gaps.items) }
{
    if looks == 0 || bounds.looks > 0 {
        return Ok(());
    }
    let gaps = gaps_of(rt, lent.alloc, lent.problem, lent.pricing, parts, workers)?;
    bounds.gaps = gaps;
    bounds.looks = 1;
    Ok(())
}

/// Passes over bases whose best roster is known.
fn pass_over(parts: &[BasePlan], gaps: &mut Vec<Gap<'_>>)
    ensures { (problem : Problem) → AreGaps problem gaps.old.items → AreGaps problem gaps.new.items }
{
    gaps.retain(|gap| is_open(parts, gap.base));
}

/// Whether the roster of a base leaves many of its pairings open: its crew likely can't fly all.
fn leaves_many_open(problem: &Problem, base: usize, roster: &Roster) -> bool {
    let nobody = open_number(problem);
    let (mut all, mut open) = (0usize, 0usize);
    for (p, place) in roster.places.as_slice().iter().enumerate() {
        if p < problem.pairings().len() && is_pairing_of(problem, p, base) {
            all = all.wrapping_add(1);
            if *place == nobody {
                open = open.wrapping_add(1);
            }
        }
    }
    open.saturating_mul(PAIRINGS_FOR_AN_OPEN_ONE) > all
}

/// The bases whose best roster isn't known, with what the first prices say of each.
fn gaps_of<'a, R: Threads + Sync>(
    rt: &R,
    alloc: Global,
    problem: &Problem,
    pricing: &'a Pricing<'a>,
    parts: &[BasePlan],
    workers: usize,
) -> Result<Vec<Gap<'a>>, AllocError>
    requires parts { AreParts problem.now parts.now }
    requires workers { 0 < workers }
    ensures { IfOk result (λ gaps. AreGaps pricing.now gaps.items) }
{
    let team = Team {
        rt,
        alloc,
        threads: workers,
    };
    let mut gaps = Vec::new(alloc);
    for base in 0..MOST_BASES {
        if is_open(parts, base) {
            let known = &parts[base].roster;
            let is_open = leaves_many_open(problem, base, known);
            let priced = PricedBound::new(&team, pricing, base, is_open)?;
            let bound = priced.bound();
            gaps.push(Gap {
                base,
                crew: count_of_persons(problem, base),
                cost: known.cost,
                priced,
                raised: Ok(()),
                found: Ok(Found::AtLeast(bound)),
            })?;
        }
    }
    Ok(gaps)
}

/// The month with greater bounds of its bases, if so many looks more at prices of each give them.
fn raised<R: Threads + Sync, W: Watcher>(
    rt: &R,
    lent: &Lent<'_>,
    start: Month,
    ahead: u32,
    workers: usize,
    gaps: &mut [Gap<'_>],
    watcher: &mut W,
) -> Result<Month, AllocError>
    requires month { IsMonth lent.now.problem.now start }
    requires workers { 0 < workers }
    requires gaps { AreGaps lent.now.problem.now gaps.old }
    ensures month { IfOk result (IsMonthFrom lent.now.problem.now start.planned.roster) }
    ensures gaps { AreGaps lent.now.problem.now gaps.new }
{
    // The first look was that of new bounds, at their first prices.
    let mut month = with_bounds(lent, start, gaps, watcher)?;
    if ahead == 0 {
        return Ok(month);
    }
    for _ in 0..ahead {
        look_all(rt, lent, workers, false, gaps);
        month = with_bounds(lent, month, gaps, watcher)?;
    }
    look_all(rt, lent, workers, true, gaps);
    let month = with_bounds(lent, month, gaps, watcher)?;
    Ok(month)
}

/// Each base has what its known roster costs now.
fn renew_costs(parts: &[BasePlan], gaps: &mut [Gap<'_>])
    ensures { (problem : Problem) → AreGaps problem gaps.old → AreGaps problem gaps.new }
{
    for i in 0..gaps.len() {
        if let Some(part) = parts.get(gaps[i].base) {
            gaps[i].cost = part.roster.cost;
        }
    }
}

/// Looks at other prices of each base, or, in the end, shows what looks claim.
fn look_all<R: Threads + Sync>(
    rt: &R,
    lent: &Lent<'_>,
    workers: usize,
    is_end: bool,
    gaps: &mut [Gap<'_>],
)
    requires workers { 0 < workers }
    requires gaps { AreGaps lent.now.problem.now gaps.old }
    ensures { AreGaps lent.now.problem.now gaps.new }
{
    let (alloc, problem) = (lent.alloc, lent.problem);
    let (threads, each) = shares(workers, gaps);
    let look = |_: usize, gap: &mut Gap<'_>|
        requires { IsSync R.row × IsGap problem.now gap.old × (0 < each) }
        ensures { IsGap problem.entry.now gap.new }
    {
        look_on(rt, alloc, problem, each, is_end, gap);
    };
    for_each_mut(rt, gaps, threads, &look);
}

/// Looks at other prices of a base, whose persons so many threads share, or, in the end, shows what looks
/// claim.
fn look_on<R: Threads + Sync>(
    rt: &R,
    alloc: Global,
    problem: &Problem,
    threads: usize,
    is_end: bool,
    gap: &mut Gap<'_>,
)
    requires threads { 0 < threads }
    requires gap { IsGap problem.now gap.old }
    ensures { IsGap problem.now gap.new }
{
    let team = Team { rt, alloc, threads };
    let (cost, priced) = (gap.cost, &mut gap.priced);
    gap.raised = if is_end {
        priced.settle(&team)
    } else {
        priced.raise(&team, cost, 1)
    };
}

/// The month with what prices say of its bases, where that is more.
fn with_bounds<W: Watcher>(
    lent: &Lent<'_>,
    start: Month,
    gaps: &[Gap<'_>],
    watcher: &mut W,
) -> Result<Month, AllocError>
    requires month { IsMonth lent.now.problem.now start }
    requires gaps { AreGaps lent.now.problem.now gaps.now }
    ensures { IfOk result (IsMonthFrom lent.now.problem.now start.planned.roster) }
{
    keys_are_in_order();
    let (alloc, problem) = (lent.alloc, lent.problem);
    let mut month = start;
    for gap in gaps {
        if gap.raised.is_err() {
            return Err(AllocError);
        }
        let bound = gap.priced.bound();
        month = month.raised(alloc, problem, gap.base, bound, Phase::Prices, watcher)?;
    }
    Ok(month)
}

/// Searches the gaps of the bases, which the workers share, with what their rosters cost now.
fn close_all<R: Threads + Sync>(
    rt: &R,
    lent: &Lent<'_>,
    parts: &[BasePlan],
    means: &Means,
    gaps: &mut [Gap<'_>],
)
    requires workers { 0 < means.now.workers }
    requires gaps { AreGaps lent.now.problem.now gaps.old }
    ensures { AreGaps lent.now.problem.now gaps.new }
{
    renew_costs(parts, gaps);
    let (alloc, problem) = (lent.alloc, lent.problem);
    let work = means.work() / (gaps.len() as u64).max(1);
    let search = |_: usize, gap: &mut Gap<'_>|
        requires { IsGap problem.now gap.old }
        ensures { IsGap problem.entry.now gap.new }
    {
        let (base, priced) = (gap.base, &gap.priced);
        gap.found = close(alloc, problem, priced, base, gap.cost, means, work);
    };
    for_each_mut(rt, gaps, means.workers, &search);
}

/// The month with what was found of each base.
fn closed<W: Watcher>(
    lent: &Lent<'_>,
    start: Month,
    gaps: &[Gap<'_>],
    watcher: &mut W,
) -> Result<Month, AllocError>
    requires month { IsMonth lent.now.problem.now start }
    requires gaps { AreGaps lent.now.problem.now gaps.now }
    ensures { IfOk result (IsMonthFrom lent.now.problem.now start.planned.roster) }
{
    keys_are_in_order();
    let (alloc, problem) = (lent.alloc, lent.problem);
    let mut month = start;
    for gap in gaps {
        let Ok(found) = &gap.found else {
            return Err(AllocError);
        };
        month = month.with_found(alloc, problem, gap.base, found, Phase::Gap, watcher)?;
    }
    Ok(month)
}
