//! The pairs of all persons, by several threads.

ghost use Rattle.std.specs.Prelude.{◌≡◌, ◌<◌, IfOk, IsSome, Some, length, vec_len};
ghost use Rattle.roster_lines.specs.Listing.{AreAllPairs, ArePairs};
ghost use Rattle.roster_lines.specs.AllPairs.{AreJudged, IsJudged};

use crate::extend::parts_are_legal;
use crate::pairs::{Pairs, pairs_of};
use roster_legal::Judge;
use roster_problem::Problem;
use std::alloc::{AllocError, Global};
use std::thread::{Threads, for_each_mut};

/// What a thread finds of a person.
#[derive(Drop)]
pub(crate) struct Judged {
    /// The pairs, once a thread has looked for them.
    pub(crate) pairs: Option<Result<Pairs, AllocError>>,
}

/// The pairs of all persons, in book order, found by so many threads at most. They are the same for every
/// number of them.
pub fn all_pairs<R: Threads + Sync>(
    rt: &R,
    alloc: Global,
    problem: &Problem,
    workers: usize,
) -> Result<Vec<Pairs>, AllocError>
    requires { 0 < workers }
    ensures { IfOk result (λ pairs. AreAllPairs problem.now pairs.items) }
{
    let mut judged = unjudged(alloc, problem.persons().len())?;
    judge_all(rt, alloc, problem, workers, &mut judged);
    let pairs = pairs_in(alloc, problem, judged)?;
    Ok(pairs)
}

/// So many persons, of whom nothing is found yet.
fn unjudged(alloc: Global, count: usize) -> Result<Vec<Judged>, AllocError>
    ensures { IfOk result (λ judged. vec_len judged ≡ count) }
{
    let mut judged = Vec::new(alloc);
    judged.resize_with(count, || Judged { pairs: None })?;
    Ok(judged)
}

/// Finds the pairs of each person.
fn judge_all<R: Threads + Sync>(
    rt: &R,
    alloc: Global,
    problem: &Problem,
    workers: usize,
    judged: &mut [Judged],
)
    requires workers { 0 < workers }
    requires covers { length judged.old ≡ length problem.now.persons }
    ensures { AreJudged problem.now judged.new }
{
    let judge = |k: usize, one: &mut Judged|
        requires { k < length problem.now.persons }
        ensures { IsJudged problem.entry.now k one.new }
    {
        one.pairs = Some(pairs_at(alloc, problem, k));
    };
    for_each_mut(rt, judged, workers, &judge);
}

/// The pairs of person `k`.
fn pairs_at(alloc: Global, problem: &Problem, k: usize) -> Result<Pairs, AllocError>
    requires { k < length problem.now.persons }
    ensures { IfOk result (ArePairs problem.now k) }
{
    parts_are_legal(problem);
    let mut judge = Judge::new(alloc, problem);
    let pairs = pairs_of(alloc, &mut judge, problem, k)?;
    Ok(pairs)
}

/// The pairs that were found, one person after another.
fn pairs_in(alloc: Global, problem: &Problem, judged: Vec<Judged>) -> Result<Vec<Pairs>, AllocError>
    requires { AreJudged problem.now judged.items }
    ensures { IfOk result (λ pairs. AreAllPairs problem.now pairs.items) }
{
    let mut all = Vec::new(alloc);
    for one in judged {
        all.push(found(one)?)?;
    }
    Ok(all)
}

/// What a thread found of a person, once it has looked.
fn found(judged: Judged) -> Result<Pairs, AllocError>
    requires { IsSome judged.pairs }
    ensures { judged.pairs ≡ Some result }
{
    judged.pairs.unwrap()
}
