//! Open nodes, which threads explore together: one hands half of its nodes over to another.

ghost use Rattle.std.specs.Prelude.{◌≡◌, ◌<◌, ◌++◌, All, IfOk, List, MatchOption, Some, ℤ};
ghost use Rattle.std.specs.Thread.{IsSync};
ghost use Rattle.roster_model.specs.Problem.{Problem as PlainProblem};
ghost use Rattle.roster_search_regions.specs.Regions.{IsRegion, Region as PlainRegion};
ghost use Rattle.roster_search.specs.Open.{ArePartsOf};
ghost use Rattle.roster_search_threads.specs.Explored.{cheaper_of, AreDealt, AreExplored};

use crate::idle::{Halves, Idle};
use crate::member::Member;
use roster_incumbent::Incumbent;
use roster_problem::Problem;
use roster_search::{Explored, OpenNode, explore, limit};
use roster_search_least::Budget;
use roster_search_regions::Region;
use roster_search_relaxation::Relaxation;
use roster_values::Roster;
use std::alloc::{AllocError, Global};
use std::sync::Wait;
use std::thread::{Threads, join};

/// What the threads that explore a region together are lent: memory, the problem, the whole region, the best
/// roster that any of them has found, and how many have nothing to do.
#[derive(Drop)]
pub(crate) struct Lent<'a> {
    pub(crate) alloc: Global,
    pub(crate) problem: &'a Problem,
    pub(crate) whole: &'a Region,
    pub(crate) best: &'a Incumbent,
    pub(crate) idle: &'a Idle,
}

/// Explores the open nodes, which are parts of the whole region: the cheapest roster of the whole that was
/// found and costs at most so much, and what is left to search.
///
/// The thread explores them by itself until others have nothing to do. Then one of these takes half of what
/// is left, so often in a row at most. What anyone finds lowers what all may pay. Each half has a copy of the
/// relaxation.
#[cycle(together)]
pub(crate) fn explore_together<R: Threads + Wait + Sync>(
    rt: &R,
    lent: &Lent<'_>,
    nodes: Vec<OpenNode>,
    budget: Budget,
    relaxation: &mut Relaxation,
    times: usize,
    halves: &Halves,
) -> Result<Explored, AllocError>
    requires { ArePartsOf lent.now.problem.now lent.now.whole.now nodes.items }
    ensures { IfOk result
        (AreExplored lent.now.problem.now lent.now.whole.now nodes.items budget.most) }
{
    let (problem, whole) = (lent.problem, lent.whole);
    let mut member = Member::new(rt, lent.alloc, lent.best, lent.idle, times);
    let Explored { best: found, left } = explore(
        lent.alloc,
        problem,
        whole,
        nodes,
        budget,
        relaxation,
        &mut member,
    )?;
    let Some(most) = limit(budget, &found, &left) else {
        halves.end(lent.idle);
        return Ok(Explored { best: found, left });
    };
    let less = Budget { most, ..budget };
    let next = explore_halves(rt, lent, left, less, relaxation, times)?;
    halves.end(lent.idle);
    Ok(or_best(next, found))
}

/// Explores the open nodes, each half of them by a thread of its own.
#[cycle(together)]
fn explore_halves<R: Threads + Wait + Sync>(
    rt: &R,
    lent: &Lent<'_>,
    nodes: Vec<OpenNode>,
    budget: Budget,
    relaxation: &Relaxation,
    times: usize,
) -> Result<Explored, AllocError>
    requires { ArePartsOf lent.now.problem.now lent.now.whole.now nodes.items }
    ensures { IfOk result
        (AreExplored lent.now.problem.now lent.now.whole.now nodes.items budget.most) }
{
    let Some(fewer) = times.checked_sub(1) else {
        return Ok(unexplored(nodes));
    };
    let (mine, theirs) = dealt(lent.alloc, lent.problem, nodes)?;
    let halves = Halves::both();
    let halves = &halves;
    // A closure says nothing of what lies behind two references, so each half is lent these anew.
    let Lent {
        alloc,
        problem,
        whole,
        best,
        idle,
    } = *lent;
    let here = move || -> Result<Explored, AllocError>
        requires { IsSync R.row × ArePartsOf problem.now whole.now mine.items }
        ensures { IfOk result
            (AreExplored problem.entry.now whole.entry.now mine.items budget.most) }
    {
        let lent = Lent {
            alloc,
            problem: &*problem,
            whole: &*whole,
            best: &*best,
            idle: &*idle,
        };
        explore_half(rt, &lent, mine, budget, relaxation, fewer, halves)
    };
    let there = move || -> Result<Explored, AllocError>
        requires { IsSync R.row × ArePartsOf problem.now whole.now theirs.items }
        ensures { IfOk result
            (AreExplored problem.entry.now whole.entry.now theirs.items budget.most) }
    {
        let lent = Lent {
            alloc,
            problem: &*problem,
            whole: &*whole,
            best: &*best,
            idle: &*idle,
        };
        explore_half(rt, &lent, theirs, budget, relaxation, fewer, halves)
    };
    let (here, there) = join(rt, here, there);
    both(here?, there?)
}

/// `explore_together` of one half, with a relaxation of its own.
#[cycle(together)]
fn explore_half<R: Threads + Wait + Sync>(
    rt: &R,
    lent: &Lent<'_>,
    nodes: Vec<OpenNode>,
    budget: Budget,
    relaxation: &Relaxation,
    times: usize,
    halves: &Halves,
) -> Result<Explored, AllocError>
    requires { ArePartsOf lent.now.problem.now lent.now.whole.now nodes.items }
    ensures { IfOk result
        (AreExplored lent.now.problem.now lent.now.whole.now nodes.items budget.most) }
{
    let mut own = relaxation.copy(lent.alloc)?;
    explore_together(rt, lent, nodes, budget, &mut own, times, halves)
}

/// Nothing is found, and all is left.
fn unexplored(nodes: Vec<OpenNode>) -> Explored
    ensures { (problem : PlainProblem) (whole : PlainRegion) (most : ℤ)
        → ArePartsOf problem whole nodes.items → AreExplored problem whole nodes.items most result }
{
    Explored {
        best: None,
        left: nodes,
    }
}

/// What is explored, with the best roster before if no better one was found.
pub(crate) fn or_best(explored: Explored, best: Option<Roster>) -> Explored
    ensures left { result.left.items ≡ explored.left.items }
    ensures best { MatchOption explored.best (result.best ≡ best) (λ found. result.best ≡ Some found) }
{
    let Explored { best: found, left } = explored;
    match found {
        Some(found) => Explored {
            best: Some(found),
            left,
        },
        None => Explored { best, left },
    }
}

/// The open nodes in two lists, in turn and in their order.
fn dealt(
    alloc: Global,
    problem: &Problem,
    nodes: Vec<OpenNode>,
) -> Result<(Vec<OpenNode>, Vec<OpenNode>), AllocError>
    requires { All (IsRegion problem.now) nodes.items }
    ensures { IfOk result (λ dealt.
        AreDealt problem.now nodes.items dealt.0.items dealt.1.items) }
{
    let mut nodes = nodes;
    let mut mine = Vec::new(alloc);
    let mut theirs = Vec::new(alloc);
    while let Some(node) = nodes.pop() {
        if mine.len() > theirs.len() {
            theirs.push(node)?;
        } else {
            mine.push(node)?;
        }
    }
    mine.reverse();
    theirs.reverse();
    Ok((mine, theirs))
}

/// What comes of two lists of open nodes.
fn both(here: Explored, there: Explored) -> Result<Explored, AllocError>
    ensures { IfOk result (λ both. (problem : PlainProblem) (whole : PlainRegion)
        (mine theirs : List PlainRegion) (most : ℤ)
        → AreExplored problem whole mine most here → AreExplored problem whole theirs most there
        → AreExplored problem whole (mine ++ theirs) most both) }
{
    let best = cheaper(here.best, there.best);
    let mut left = here.left;
    let mut more = there.left;
    left.append(&mut more)?;
    Ok(Explored { best, left })
}

/// The cheaper of two rosters, if there are both; the first if they cost the same.
fn cheaper(first: Option<Roster>, second: Option<Roster>) -> Option<Roster>
    ensures { result ≡ cheaper_of first second }
{
    match (first, second) {
        (Some(first), Some(second)) => {
            if second.cost < first.cost {
                return Some(second);
            }
            Some(first)
        }
        (Some(first), None) => Some(first),
        (None, second) => second,
    }
}
