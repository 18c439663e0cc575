//! The plan.

ghost use Rattle.std.specs.Prelude.{◌≡◌, ◌<◌, ◌≤◌, All, IfOk, length, true};
ghost use Rattle.roster_model.specs.Plans.{IsPlan};
ghost use Rattle.roster_model.specs.Settled.{IsBest, IsHeld};
ghost use Rattle.roster_plan.specs.Lent.{IsLent};
ghost use Rattle.roster_plan.specs.Months.{IsMonth, IsMonthFrom};
ghost use Rattle.roster_plan.specs.Planned.{IsPlannedFrom};

use crate::apart::{Bounds, bounded};
use crate::kept::kept;
use crate::known::{Planned, costed, earlier};
use crate::lent::Lent;
use crate::means::Means;
use crate::months::Month;
use crate::parts::open_bases;
use crate::runs::improved_by_runs;
use crate::together::{improved_nearby, neighbourhoods_of};
use crate::watching::{Phase, Watcher};
use crate::whole::searched;
use roster_bases::all_open;
use roster_cost::keys_are_in_order;
use roster_lines::all_pairs;
use roster_plan_bound::Pricing;
use roster_plan_moves::Neighbourhoods;
use roster_problem::{Problem, open_number};
use roster_values::Roster;
use std::alloc::{AllocError, Global};
use std::thread::Threads;

/// A plan whose roster isn't after what is kept of the given places, nor after no pairings at all. It takes
/// these means at most. Tests show that it is the same for any number of workers and any watcher.
pub fn plan<R: Threads + Sync, W: Watcher>(
    rt: &R,
    alloc: Global,
    problem: &Problem,
    given: &[u16],
    means: &Means,
    watcher: &mut W,
) -> Result<Planned, AllocError>
    requires workers { 0 < means.now.workers }
    requires covers { length given.now ≡ length problem.now.pairings }
    requires numbers { All (λ x. x ≤ length problem.now.persons) given.now }
    ensures plan { IfOk result
        (λ planned. IsPlan problem.now given.now planned.roster planned.bound) }
    ensures best { IfOk result
        (λ planned. planned.is_best ≡ true → IsBest problem.now planned.roster.places) }
    ensures tight { IfOk result
        (λ planned. planned.is_best ≡ true → planned.bound ≡ planned.roster.cost) }
{
    let open = all_open(alloc, problem)?;
    let start = kept(alloc, problem, given)?;
    tell_left_out(problem, given, &start, watcher);
    let known = earlier(costed(problem, start), costed(problem, open));
    let planned = planned_from(rt, alloc, problem, known, means, watcher)?;
    Ok(planned)
}

/// Tells each pairing that the given places give to somebody, and of which nothing was kept.
fn tell_left_out<W: Watcher>(problem: &Problem, given: &[u16], kept: &[u16], watcher: &mut W)
    requires given { length given.now ≡ length problem.now.pairings }
    requires kept { length kept.now ≡ length problem.now.pairings }
{
    let nobody = usize::from(open_number(problem));
    for p in 0..problem.pairings().len() {
        let k = usize::from(given[p]);
        if k < nobody && kept[p] != given[p] {
            watcher.leave_out(problem, p, k);
        }
    }
}

/// The plan that comes of a known roster: the best one if all bases are settled.
fn planned_from<R: Threads + Sync, W: Watcher>(
    rt: &R,
    alloc: Global,
    problem: &Problem,
    known: Roster,
    means: &Means,
    watcher: &mut W,
) -> Result<Planned, AllocError>
    requires held { IsHeld problem.now known }
    requires workers { 0 < means.now.workers }
    ensures { IfOk result (IsPlannedFrom problem.now known) }
{
    keys_are_in_order();
    let pairs = all_pairs(rt, alloc, problem, means.workers)?;
    let start = Month::of(alloc, problem, &pairs, known)?;
    watcher.tell(problem, None, Phase::Start, &start.planned);
    let pricing = Pricing::new(alloc, problem, &pairs)?;
    let lent = Lent {
        alloc,
        problem,
        pairs: &pairs,
        pricing: &pricing,
    };
    let month = after_efforts(rt, &lent, start, means, watcher)?;
    Ok(month.planned)
}

/// The month after each effort from 0 on, up to that of the means, unless its best roster is known before.
/// Each does the same as the last one of less effort, and goes on from what the one before it found.
fn after_efforts<R: Threads + Sync, W: Watcher>(
    rt: &R,
    lent: &Lent<'_>,
    start: Month,
    means: &Means,
    watcher: &mut W,
) -> Result<Month, AllocError>
    requires lent { IsLent lent.now }
    requires month { IsMonth lent.now.problem.now start }
    requires workers { 0 < means.now.workers }
    ensures { IfOk result (IsMonthFrom lent.now.problem.now start.planned.roster) }
{
    keys_are_in_order();
    let mut neighbourhoods = neighbourhoods_of(lent.alloc, lent.problem, &start)?;
    let mut bounds = Bounds::none(lent.alloc);
    let mut month = start;
    for effort in 0..means.efforts() {
        if month.planned.is_best {
            break;
        }
        let means = means.at(effort);
        let tried = tried(rt, lent, month, &means, &mut neighbourhoods, watcher)?;
        month = bounded(
            rt,
            lent,
            tried,
            &means,
            &mut neighbourhoods,
            &mut bounds,
            watcher,
        )?;
    }
    Ok(month)
}

/// The month with the best roster of each base with few legal sets. For the others it has a roster that comes
/// of changes, and of searches of neighbourhoods, unless it is known that none costs less.
fn tried<R: Threads + Sync, W: Watcher>(
    rt: &R,
    lent: &Lent<'_>,
    start: Month,
    means: &Means,
    neighbourhoods: &mut Neighbourhoods,
    watcher: &mut W,
) -> Result<Month, AllocError>
    requires lent { IsLent lent.now }
    requires month { IsMonth lent.now.problem.now start }
    requires workers { 0 < means.now.workers }
    ensures { IfOk result (IsMonthFrom lent.now.problem.now start.planned.roster) }
{
    keys_are_in_order();
    let (alloc, problem, pairs) = (lent.alloc, lent.problem, lent.pairs);
    let sought = searched(rt, alloc, problem, pairs, start, means, watcher)?;
    if sought.planned.is_best || sought.planned.is_cheapest() {
        return Ok(sought);
    }
    neighbourhoods.seek(alloc, problem, &open_bases(alloc, &sought.parts)?)?;
    let changed = improved_by_runs(rt, alloc, problem, sought, means, watcher)?;
    let month = improved_nearby(rt, lent, changed, means, neighbourhoods, watcher)?;
    Ok(month)
}
