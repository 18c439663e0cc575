//! Rosters of columns: of all persons of a base, and then of a few of them again and again.

ghost use Rattle.std.specs.Prelude.{◌≡◌, ◌<◌, IfOk, IfSome, length};
ghost use Rattle.std.specs.Thread.{IsSync};
ghost use Rattle.roster_model.specs.Settled.{IsHeld};
ghost use Rattle.roster_plan.specs.Bases.{AreGaps, IsGap};
ghost use Rattle.roster_plan.specs.Dives.{AreTried, IsTried};
ghost use Rattle.roster_plan.specs.Months.{IsMonth, IsMonthFrom};

use crate::apart::Gap;
use crate::kept::kept;
use crate::known::{costed, places_of};
use crate::lent::Lent;
use crate::means::Means;
use crate::months::Month;
use crate::together::joined;
use crate::watching::{Phase, Watcher};
use roster_bases::{all_open, is_person_of};
use roster_cost::keys_are_in_order;
use roster_plan_bound::{DivePlan, PricedBound, Team};
use roster_plan_moves::Neighbourhoods;
use roster_problem::Problem;
use roster_values::Roster;
use std::alloc::{AllocError, Global};
use std::thread::{Threads, for_each_mut};

/// The least effort at which there are dives.
const LEAST_EFFORT: u32 = 2;

/// At each dive of a base at least so many hundredths of those who are left get a column each time.
const HUNDREDTHS: [usize; 2] = [15, 5];

/// A dive of a base may look at so much less than looks at prices may.
const DIVES_A_LOOK: u64 = 2;

/// So many dives of a few persons begin with the same roster. What a plan comes to depends on this number, and
/// not on how many threads share them.
const DIVES_AT_ONCE: usize = 4;

/// How often there are so many at the first efforts with dives, at most, and with each effort more; and how
/// many in a row that find nothing are enough.
const FIRST_ROUNDS: [u32; 2] = [4, 20];

const ROUNDS_AN_EFFORT: u32 = 8;

const IDLE_ROUNDS: u32 = 20;

/// How many persons such a dive has, and how often prices are looked at first.
const FEW: usize = 7;

const FEW_LOOKS: u32 = 5;

/// Some persons, and the roster that a dive of them comes to, if it is of a base that is left.
#[derive(Drop)]
pub(crate) struct Tried {
    free: Vec<bool>,
    pub(crate) found: Result<Option<Roster>, AllocError>,
}

/// The month with what dives find, in the bases whose prices these are. The workers share them.
pub(crate) fn improved_by_dives<R: Threads + Sync, W: Watcher>(
    rt: &R,
    lent: &Lent<'_>,
    start: Month,
    means: &Means,
    neighbourhoods: &mut Neighbourhoods,
    gaps: &[Gap<'_>],
    watcher: &mut W,
) -> Result<Month, AllocError>
    requires month { IsMonth lent.now.problem.now start }
    requires workers { 0 < means.now.workers }
    requires gaps { AreGaps lent.now.problem.now gaps.now }
    ensures { IfOk result (IsMonthFrom lent.now.problem.now start.planned.roster) }
{
    keys_are_in_order();
    if means.effort < LEAST_EFFORT || gaps.is_empty() || start.planned.is_cheapest() {
        return Ok(start);
    }
    let dived = of_bases(rt, lent, start, means, gaps, watcher)?;
    let month = of_groups(rt, lent, dived, means, neighbourhoods, gaps, watcher)?;
    Ok(month)
}

/// The month with what dives of each of these bases find.
fn of_bases<R: Threads + Sync, W: Watcher>(
    rt: &R,
    lent: &Lent<'_>,
    start: Month,
    means: &Means,
    gaps: &[Gap<'_>],
    watcher: &mut W,
) -> Result<Month, AllocError>
    requires month { IsMonth lent.now.problem.now start }
    requires workers { 0 < means.now.workers }
    requires gaps { AreGaps lent.now.problem.now gaps.now }
    ensures { IfOk result (IsMonthFrom lent.now.problem.now start.planned.roster) }
{
    keys_are_in_order();
    let mut month = start;
    for gap in gaps {
        month = of_base(rt, lent, month, means, &gap.priced, watcher)?;
    }
    Ok(month)
}

/// The month with what dives of a few persons at a time find, until they find nothing for long.
fn of_groups<R: Threads + Sync, W: Watcher>(
    rt: &R,
    lent: &Lent<'_>,
    start: Month,
    means: &Means,
    neighbourhoods: &mut Neighbourhoods,
    gaps: &[Gap<'_>],
    watcher: &mut W,
) -> Result<Month, AllocError>
    requires month { IsMonth lent.now.problem.now start }
    requires workers { 0 < means.now.workers }
    requires gaps { AreGaps lent.now.problem.now gaps.now }
    ensures { IfOk result (IsMonthFrom lent.now.problem.now start.planned.roster) }
{
    keys_are_in_order();
    let mut month = start;
    let mut idle: u32 = 0;
    let enough = idle_rounds_of(gaps);
    for _ in 0..rounds_of(means.effort) {
        if idle >= enough {
            break;
        }
        let cost = month.planned.roster.cost;
        month = of_few(
            rt,
            lent,
            month,
            means.workers,
            neighbourhoods,
            gaps,
            watcher,
        )?;
        idle = if month.planned.roster.cost < cost {
            0
        } else {
            idle.wrapping_add(1)
        };
    }
    Ok(month)
}

/// How often an effort has so many dives of a few persons.
fn rounds_of(effort: u32) -> u32 {
    match effort.saturating_sub(LEAST_EFFORT) {
        0 => FIRST_ROUNDS[0],
        1 => FIRST_ROUNDS[1],
        _ => ROUNDS_AN_EFFORT,
    }
}

/// How many times in a row that find nothing are enough: one, if a few persons are always all of a base.
fn idle_rounds_of(gaps: &[Gap<'_>]) -> u32 {
    if gaps.iter().all(|gap| gap.crew <= FEW) {
        1
    } else {
        IDLE_ROUNDS
    }
}

/// The month with what dives of a base find.
fn of_base<R: Threads + Sync, W: Watcher>(
    rt: &R,
    lent: &Lent<'_>,
    start: Month,
    means: &Means,
    priced: &PricedBound<'_>,
    watcher: &mut W,
) -> Result<Month, AllocError>
    requires month { IsMonth lent.now.problem.now start }
    requires workers { 0 < means.now.workers }
    requires priced { priced.now.problem ≡ lent.now.problem.now }
    ensures { IfOk result (IsMonthFrom lent.now.problem.now start.planned.roster) }
{
    keys_are_in_order();
    let (alloc, problem) = (lent.alloc, lent.problem);
    let team = Team {
        rt,
        alloc,
        threads: means.workers,
    };
    let open = all_open(alloc, problem)?;
    let all = vec![in alloc; true; problem.persons().len()]?;
    let mut month = start;
    for hundredths in HUNDREDTHS {
        let plan = DivePlan {
            looks: 0,
            hundredths,
            pairs: means.pairs() / DIVES_A_LOOK,
        };
        let roster = found_by(&team, problem, priced, &open, &all, plan)?;
        month = month.renewed(alloc, problem, &roster, Phase::Columns, watcher)?;
    }
    Ok(month)
}

/// The roster that a dive finds, as far as it is legal.
fn found_by<R: Threads + Sync>(
    team: &Team<'_, R>,
    problem: &Problem,
    priced: &PricedBound<'_>,
    given: &[u16],
    free: &[bool],
    plan: DivePlan,
) -> Result<Roster, AllocError>
    requires threads { 0 < team.now.threads }
    requires priced { priced.now.problem ≡ problem.now }
    ensures { IfOk result (IsHeld problem.now) }
{
    let places = priced.dive(team, given, free, plan)?;
    let legal = kept(team.alloc, problem, &places)?;
    Ok(costed(problem, legal))
}

/// The month with what some dives of a few persons find, each from the same roster.
fn of_few<R: Threads + Sync, W: Watcher>(
    rt: &R,
    lent: &Lent<'_>,
    start: Month,
    workers: usize,
    neighbourhoods: &mut Neighbourhoods,
    gaps: &[Gap<'_>],
    watcher: &mut W,
) -> Result<Month, AllocError>
    requires month { IsMonth lent.now.problem.now start }
    requires workers { 0 < workers }
    requires gaps { AreGaps lent.now.problem.now gaps.now }
    ensures { IfOk result (IsMonthFrom lent.now.problem.now start.planned.roster) }
{
    keys_are_in_order();
    let (alloc, problem) = (lent.alloc, lent.problem);
    let before = start.planned.roster.copy(alloc)?;
    let mut all = tried_of(lent, &before, neighbourhoods)?;
    try_all(rt, alloc, problem, &before, workers, gaps, &mut all);
    let mut month = start;
    for tried in all {
        let Tried { found, .. } = tried;
        if let Some(roster) = found? {
            let known = month.planned.roster.copy(alloc)?;
            let roster = joined(alloc, problem, &before, &roster, known)?;
            month = month.renewed(alloc, problem, &roster, Phase::Columns, watcher)?;
        }
    }
    Ok(month)
}

/// The next few persons, so often.
fn tried_of(
    lent: &Lent<'_>,
    before: &Roster,
    neighbourhoods: &mut Neighbourhoods,
) -> Result<Vec<Tried>, AllocError>
    ensures { IfOk result (λ all. AreTried lent.now.problem.now all.items) }
{
    let (alloc, problem) = (lent.alloc, lent.problem);
    let places = places_of(before);
    let mut all = Vec::new(alloc);
    for _ in 0..DIVES_AT_ONCE {
        let few = neighbourhoods.few(alloc, problem, lent.pairs, places, FEW)?;
        let mut free = vec![in alloc; false; problem.persons().len()]?;
        for k in &few {
            mark(&mut free, *k);
        }
        all.push(Tried {
            free,
            found: Ok(None),
        })?;
    }
    Ok(all)
}

/// Marks the one at this place.
fn mark(marks: &mut [bool], k: usize) {
    if k < marks.len() {
        marks[k] = true;
    }
}

/// Dives with each of these, which the workers share.
fn try_all<R: Threads + Sync>(
    rt: &R,
    alloc: Global,
    problem: &Problem,
    before: &Roster,
    workers: usize,
    gaps: &[Gap<'_>],
    all: &mut [Tried],
)
    requires workers { 0 < workers }
    requires gaps { AreGaps problem.now gaps.now }
    requires all { AreTried problem.now all.old }
    ensures { AreTried problem.now all.new }
{
    let search = |_: usize, tried: &mut Tried|
        requires { IsSync R.row × AreGaps problem.now gaps.now }
        ensures { IsTried problem.entry.now tried.new }
    {
        tried.found = found_among(rt, alloc, problem, before, gaps, &tried.free);
    };
    for_each_mut(rt, all, workers, &search);
}

/// The roster that a dive of these persons finds from a known one, if they are of one of these bases.
fn found_among<R: Threads + Sync>(
    rt: &R,
    alloc: Global,
    problem: &Problem,
    before: &Roster,
    gaps: &[Gap<'_>],
    free: &[bool],
) -> Result<Option<Roster>, AllocError>
    requires gaps { AreGaps problem.now gaps.now }
    ensures { IfOk result (λ found. IfSome found (IsHeld problem.now)) }
{
    let plan = DivePlan {
        looks: FEW_LOOKS,
        hundredths: 1,
        pairs: u64::MAX,
    };
    let team = Team {
        rt,
        alloc,
        threads: 1,
    };
    for gap in gaps {
        if has_free(problem, gap.base, free) {
            let given = places_of(before);
            let roster = found_by(&team, problem, &gap.priced, given, free, plan)?;
            return Ok(Some(roster));
        }
    }
    Ok(None)
}

/// Whether one of these persons is of the base.
fn has_free(problem: &Problem, base: usize, free: &[bool]) -> bool {
    for k in 0..problem.persons().len() {
        if is_person_of(problem, k, base) && free.get(k) == Some(&true) {
            return true;
        }
    }
    false
}
