//! The least rosters of single bases, which several threads find.

ghost use Rattle.std.specs.Prelude.{◌≡◌, ◌<◌, ◌^◌, ◌-◌, All, IfOk, length, pos};
ghost use Rattle.std.specs.Thread.{IsSync};
ghost use Rattle.roster_bases.specs.Bases.{only};
ghost use Rattle.roster_search_least.specs.Least.{IsLeastBelow};
ghost use Rattle.roster_search_least.specs.Parts.{AreBaseParts, IsInPart};
ghost use Rattle.roster_lines_table.specs.Person.{AreListed};

use crate::crew::Crew;
use crate::idle::Idle;
use roster_bases::{has_crew, is_person_of};
use roster_incumbent::Gate;
use roster_lines_table::Table;
use roster_model::limits::MOST_BASES;
use roster_problem::Problem;
use roster_search::{SeveralThreads, root_prices};
use roster_search_least::{LeastOfBase, LineBox, least_in, region_of_base};
use roster_search_regions::DualPrices;
use roster_values::Roster;
use std::alloc::{AllocError, Global};
use std::sync::Wait;
use std::sync::atomic::{AtomicUsize, Ordering};
use std::thread::{Threads, map_indices};

/// The bases that threads share out, how many of them are taken, and the threads that found none left.
#[derive(Drop)]
struct Bases<'a> {
    order: &'a [usize],
    taken: AtomicUsize,
    idle: Idle,
}

impl<'a> Bases<'a> {
    /// None of them is taken.
    fn new(order: &'a [usize]) -> Bases<'a> {
        Bases {
            order,
            taken: AtomicUsize::new(0),
            idle: Idle::nobody(),
        }
    }

    /// The next one, if one is left.
    fn take(&self) -> Option<usize> {
        let next = self.taken.fetch_add(1, Ordering::SeqCst);
        self.order.get(next).copied()
    }
}

/// The least rosters of bases, found by so many threads. What is missing is searched by the caller.
pub(crate) fn parts_by_threads<R: Threads + Wait + Sync, G: Gate + Sync>(
    rt: &R,
    alloc: Global,
    lines: &LineBox<'_>,
    threads: usize,
    gate: &G,
) -> Result<Vec<LeastOfBase>, AllocError>
    requires table { AreListed lines.now.problem.now lines.now.table.now }
    requires ranges { length lines.now.ranges.now ≡ length lines.now.table.now }
    requires threads { 0 < threads }
    ensures { IfOk result (λ parts.
        AreBaseParts lines.now.problem.now lines.now.table.now lines.now.ranges.now parts.items) }
{
    let order = by_size(alloc, lines.problem, lines.table)?;
    let bases = Bases::new(&order);
    let each = threads_a_base(lines.problem, threads);
    let turns = |worker: usize| -> Result<Vec<LeastOfBase>, AllocError>
        requires { IsSync R.row × AreListed lines.now.problem.now lines.now.table.now
            × (length lines.now.ranges.now ≡ length lines.now.table.now) × (0 < each) }
        ensures { IfOk result (λ parts. AreBaseParts lines.entry.now.problem.now
            lines.entry.now.table.now lines.entry.now.ranges.now parts.items) }
    { parts_in_turn(rt, alloc, each, lines, &bases, worker, gate) };
    let lists = map_indices(rt, alloc, threads, &turns)?;
    gathered(alloc, lines, lists)
}

/// All bases, those whose persons have the most lines first. No answer rests on the order.
fn by_size(alloc: Global, problem: &Problem, table: &Table) -> Result<Vec<usize>, AllocError>
    requires { AreListed problem.now table.now }
{
    let mut sizes: Vec<(usize, usize)> = Vec::new(alloc);
    for base in 0..MOST_BASES {
        sizes.push((lines_of_base(problem, table, base), base))?;
    }
    sizes.sort()?;
    let mut bases = Vec::new(alloc);
    for back in 0..sizes.len() {
        bases.push(sizes[sizes.len() - 1 - back].1)?;
    }
    Ok(bases)
}

/// How many lines the persons of the base have.
fn lines_of_base(problem: &Problem, table: &Table, base: usize) -> usize
    requires { AreListed problem.now table.now }
{
    let mut lines: usize = 0;
    for k in 0..problem.persons().len() {
        if is_person_of(problem, k, base) {
            lines = lines.wrapping_add(table.width(k));
        }
    }
    lines
}

/// How many threads look at the lines of one base, if so many share all bases.
fn threads_a_base(problem: &Problem, threads: usize) -> usize
    ensures { 0 < result }
{
    let mut bases: usize = 0;
    for base in 0..MOST_BASES {
        if has_crew(problem, base) {
            bases = bases.wrapping_add(1);
        }
    }
    if bases == 0 || threads <= bases {
        return 1;
    }
    (threads / bases).max(1)
}

/// The least rosters of the bases that nobody else has taken, one after another. Then the thread is idle.
///
/// It is no part of its callers: threads are started one within another, and each start would take as much of the stack
/// as a search.
#[inline(never)]
fn parts_in_turn<R: Threads + Wait + Sync, G: Gate>(
    rt: &R,
    alloc: Global,
    threads: usize,
    lines: &LineBox<'_>,
    bases: &Bases<'_>,
    worker: usize,
    gate: &G,
) -> Result<Vec<LeastOfBase>, AllocError>
    requires table { AreListed lines.now.problem.now lines.now.table.now }
    requires ranges { length lines.now.ranges.now ≡ length lines.now.table.now }
    requires threads { 0 < threads }
    ensures { IfOk result (λ parts.
        AreBaseParts lines.now.problem.now lines.now.table.now lines.now.ranges.now parts.items) }
{
    let mut parts = Vec::new(alloc);
    for _ in 0..bases.order.len() {
        let Some(base) = bases.take() else {
            break;
        };
        let mut crew = Crew::new(rt, &bases.idle, worker, gate);
        let least = least_of_base_by_threads(rt, alloc, threads, lines, base, &mut crew)?;
        parts.push((base, least))?;
    }
    bases.idle.add();
    Ok(parts)
}

/// The least roster in which the persons of one base have lines in their ranges and all others no pairing,
/// if there is one. So many threads look at the lines; those that have nothing to do help to search.
fn least_of_base_by_threads<R: Threads + Wait + Sync, G: Gate>(
    rt: &R,
    alloc: Global,
    threads: usize,
    lines: &LineBox<'_>,
    base: usize,
    crew: &mut Crew<'_, R, G>,
) -> Result<Option<Roster>, AllocError>
    requires table { AreListed lines.now.problem.now lines.now.table.now }
    requires ranges { length lines.now.ranges.now ≡ length lines.now.table.now }
    requires threads { 0 < threads }
    ensures { IfOk result (IsLeastBelow lines.now.problem.now
        (IsInPart lines.now.problem.now lines.now.table.now lines.now.ranges.now (only base)) (pos (2 ^ 63 - 1))) }
{
    let problem = lines.problem;
    let region = region_of_base(alloc, lines, base)?;
    let first = DualPrices::of_penalties(alloc, problem, &region)?;
    let looks = SeveralThreads::new(rt, threads);
    let root = root_prices(&looks, alloc, problem, &region, &first, i64::MAX)?;
    least_in(alloc, lines, base, region, root, crew)
}

/// All that the threads found; or that memory ran out for one of them.
fn gathered(
    alloc: Global,
    lines: &LineBox<'_>,
    lists: Vec<Result<Vec<LeastOfBase>, AllocError>>,
) -> Result<Vec<LeastOfBase>, AllocError>
    requires { All (λ parts. IfOk parts
        (λ parts. AreBaseParts lines.now.problem.now lines.now.table.now lines.now.ranges.now parts.items))
        lists.items }
    ensures { IfOk result (λ parts.
        AreBaseParts lines.now.problem.now lines.now.table.now lines.now.ranges.now parts.items) }
{
    let mut lists = lists;
    let mut all = Vec::new(alloc);
    while let Some(parts) = lists.pop() {
        let mut parts = parts?;
        all.append(&mut parts)?;
    }
    Ok(all)
}
