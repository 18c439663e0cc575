//! Neighbourhoods of one roster, which several threads search at once.

ghost use Rattle.std.specs.Prelude.{◌≡◌, ◌<◌, ◌≤◌, true, All, IfOk, length};
ghost use Rattle.roster_lines.specs.Listing.{AreAllPairs};
ghost use Rattle.roster_model.specs.Rosters.{key_le};
ghost use Rattle.roster_model.specs.Settled.{IsHeld};
ghost use Rattle.roster_plan.specs.Attempts.{AreMade, AreSought, IsMade, IsSought};
ghost use Rattle.roster_plan.specs.Near.{IsFoundNear};
ghost use Rattle.roster_plan.specs.Months.{IsMonth, IsMonthFrom};
ghost use Rattle.roster_plan.specs.Planned.{IsKnown, IsPlannedFrom};

use crate::kept::kept;
use crate::known::{Planned, cheaper, costed, places_of, so_far};
use crate::lent::Lent;
use crate::means::Means;
use crate::months::Month;
use crate::nearby::{Nearby, search_nearby};
use crate::parts::open_bases;
use crate::watching::{Phase, Watcher};
use roster_cost::{comes_before, keys_are_in_order};
use roster_lines::Pairs;
use roster_plan_moves::{Neighbourhood, Neighbourhoods};
use roster_problem::{Problem, open_number};
use roster_values::Roster;
use std::alloc::{AllocError, Global};
use std::thread::{Threads, for_each_mut};

/// So many neighbourhoods of a roster are searched at once. What a plan comes to depends on this number, and
/// not on how many threads share the searches.
const SEARCHES_AT_ONCE: usize = 4;

/// How often so many are searched at each effort: the longer changes were tried before, the less searches
/// find.
const ROUNDS: u32 = 20;

/// How many lines nodes may have to look at in the search of a neighbourhood.
const WORK_NEARBY: u64 = 1 << 17;

/// A neighbourhood of a roster, and what its search came to once it is done.
#[derive(Drop)]
struct Attempt {
    of: Neighbourhood,
    found: Option<Result<Nearby, AllocError>>,
}

/// The month with what is new of the rosters that searches of some neighbourhoods come to, in bases whose
/// best roster isn't known. The workers share the searches.
pub(crate) fn improved_nearby<R: Threads + Sync, W: Watcher>(
    rt: &R,
    lent: &Lent<'_>,
    start: Month,
    means: &Means,
    neighbourhoods: &mut Neighbourhoods,
    watcher: &mut W,
) -> Result<Month, AllocError>
    requires pairs { AreAllPairs lent.now.problem.now lent.now.pairs.now }
    requires month { IsMonth lent.now.problem.now start }
    requires workers { 0 < means.now.workers }
    ensures { IfOk result (IsMonthFrom lent.now.problem.now start.planned.roster) }
{
    keys_are_in_order();
    let (alloc, problem, pairs) = (lent.alloc, lent.problem, lent.pairs);
    let roster = start.planned.roster.copy(alloc)?;
    let mut planned = so_far(problem, roster, start.planned.bound);
    for _ in 0..ROUNDS {
        let before = planned.roster.copy(alloc)?;
        let mut attempts = attempts_at(alloc, problem, &before, neighbourhoods)?;
        try_all(rt, alloc, problem, pairs, &before, means, &mut attempts);
        planned = taken(
            alloc,
            problem,
            &before,
            planned,
            attempts,
            neighbourhoods,
            watcher,
        )?;
    }
    start.renewed(
        alloc,
        problem,
        &planned.roster,
        Phase::Neighbourhoods,
        watcher,
    )
}

/// The neighbourhoods in bases whose best roster isn't known, near the month's roster if it is more than
/// nothing.
pub(crate) fn neighbourhoods_of(
    alloc: Global,
    problem: &Problem,
    month: &Month,
) -> Result<Neighbourhoods, AllocError> {
    let sought = open_bases(alloc, &month.parts)?;
    Neighbourhoods::new(alloc, problem, &sought, places_of(&month.planned.roster))
}

/// The next neighbourhoods of a roster, not yet searched.
fn attempts_at(
    alloc: Global,
    problem: &Problem,
    before: &Roster,
    neighbourhoods: &mut Neighbourhoods,
) -> Result<Vec<Attempt>, AllocError>
    ensures { IfOk result (λ attempts. AreMade problem.now attempts.items) }
{
    let mut attempts = Vec::new(alloc);
    for _ in 0..SEARCHES_AT_ONCE {
        let of = neighbourhoods.next(alloc, problem, places_of(before))?;
        attempts.push(Attempt { of, found: None })?;
    }
    Ok(attempts)
}

/// Searches the neighbourhoods of the roster, shared among the workers.
fn try_all<R: Threads + Sync>(
    rt: &R,
    alloc: Global,
    problem: &Problem,
    pairs: &[Pairs],
    before: &Roster,
    means: &Means,
    attempts: &mut [Attempt],
)
    requires pairs { AreAllPairs problem.now pairs.now }
    requires held { IsHeld problem.now before.now }
    requires workers { 0 < means.now.workers }
    requires attempts { AreMade problem.now attempts.old }
    ensures { AreSought problem.now before.now attempts.new }
{
    let search = |_: usize, attempt: &mut Attempt|
        requires { AreAllPairs problem.now pairs.now × IsHeld problem.now before.now
            × IsMade problem.now attempt.old }
        ensures { IsSought problem.entry.now before.entry.now attempt.new }
    {
        let found = found_in(alloc, problem, pairs, before, means, &attempt.of);
        attempt.found = Some(found);
    };
    for_each_mut(rt, attempts, means.workers, &search);
}

/// What the search of one of them comes to.
fn found_in(
    alloc: Global,
    problem: &Problem,
    pairs: &[Pairs],
    before: &Roster,
    means: &Means,
    of: &Neighbourhood,
) -> Result<Nearby, AllocError>
    requires pairs { AreAllPairs problem.now pairs.now }
    requires held { IsHeld problem.now before.now }
    requires covers { length of.now.wanted.items ≡ length problem.now.persons }
    ensures { IfOk result (IsFoundNear problem.now before.now of.now.wanted.items) }
{
    let known = before.copy(alloc)?;
    search_nearby(
        alloc,
        problem,
        pairs,
        known,
        &of.wanted,
        means.lines_nearby(),
        WORK_NEARBY,
    )
}

/// The plan with what is new of each roster that was found, one after another.
fn taken<W: Watcher>(
    alloc: Global,
    problem: &Problem,
    before: &Roster,
    start: Planned,
    attempts: Vec<Attempt>,
    neighbourhoods: &mut Neighbourhoods,
    watcher: &mut W,
) -> Result<Planned, AllocError>
    requires known { IsKnown problem.now start }
    requires attempts { AreSought problem.now before.now attempts.items }
    ensures { IfOk result (IsPlannedFrom problem.now start.roster) }
{
    keys_are_in_order();
    let mut planned = start;
    for attempt in attempts {
        let Attempt { of, found } = attempt;
        let nearby = found.unwrap()?;
        neighbourhoods.tell(&of, nearby.is_settled);
        planned = with_new(alloc, problem, before, &nearby, planned, watcher)?;
    }
    Ok(planned)
}

/// The plan with what is new of a roster that was found.
fn with_new<W: Watcher>(
    alloc: Global,
    problem: &Problem,
    before: &Roster,
    nearby: &Nearby,
    start: Planned,
    watcher: &mut W,
) -> Result<Planned, AllocError>
    requires { IsKnown problem.now start }
    ensures { IfOk result (IsPlannedFrom problem.now start.roster) }
{
    keys_are_in_order();
    if !nearby.is_new {
        return Ok(start);
    }
    let known = start.roster.copy(alloc)?;
    let bound = start.bound;
    let roster = joined(alloc, problem, before, &nearby.roster, start.roster)?;
    let is_new = comes_before(&roster, &known);
    let planned = so_far(problem, roster, bound);
    if is_new {
        watcher.tell(problem, None, Phase::Neighbourhoods, &planned);
    }
    Ok(planned)
}

/// The known roster with what is new in another one, as far as that is legal; or the known one, unless that
/// saves something. What is new is what differs from the one before.
pub(crate) fn joined(
    alloc: Global,
    problem: &Problem,
    before: &Roster,
    new: &Roster,
    known: Roster,
) -> Result<Roster, AllocError>
    requires { IsHeld problem.now known }
    ensures held { IfOk result (IsHeld problem.now) }
    ensures kept { IfOk result (λ joined. key_le joined known ≡ true) }
{
    let places = changed(
        alloc,
        problem,
        places_of(before),
        places_of(new),
        places_of(&known),
    )?;
    let legal = kept(alloc, problem, &places)?;
    Ok(cheaper(costed(problem, legal), known))
}

/// The known places, and the new ones where they differ from those before.
fn changed(
    alloc: Global,
    problem: &Problem,
    before: &[u16],
    new: &[u16],
    known: &[u16],
) -> Result<Vec<u16>, AllocError>
    ensures covers { IfOk result (λ places. length places.items ≡ length known.now) }
    ensures numbers { IfOk result
        (λ places. All (λ x. x ≤ length problem.now.persons) places.items) }
{
    let nobody = open_number(problem);
    let mut places = Vec::new(alloc);
    for (p, number) in known.iter().enumerate() {
        places.push(number_at(before.get(p), new.get(p), *number).min(nobody))?;
    }
    Ok(places)
}

/// The new number if it differs from the one before, else the known one.
fn number_at(before: Option<&u16>, new: Option<&u16>, known: u16) -> u16 {
    match (before, new) {
        (Some(before), Some(new)) if before != new => *new,
        _ => known,
    }
}
