//! The roster of least key among all that workers found.

ghost use Rattle.std.specs.Prelude.{◌≡◌, ◌<◌, ◌≤◌, ◌↔◌, [], ℕ, All, IfOk, IsTrue, length, map};
ghost use Rattle.std.specs.Prelude.{slice_index_or};
ghost use Rattle.std.specs.Arc.{arc_value};
ghost use Rattle.roster_lines_table.specs.Person.{IsTableOf};
ghost use Rattle.roster_incumbent.specs.Kept.{IsEarlierOf};
ghost use Rattle.roster_subtreepool_spans.specs.Spans.{Span as PlainSpan};
ghost use Rattle.roster_combine_workers.specs.Parts.{Agree, AreSettled, IsBestKey, IsLeastOf};
ghost use Rattle.roster_combine_workers.specs.Parts.{IsLeastOfAll, span_of};
ghost use Rattle.roster_combine_workers.specs.Parts.{spans_by};

use crate::root::{first_known, search_root, widths_of};
use crate::span_search::SpanSearch;
use roster_cost::{comes_before, keys_are_in_order};
use roster_lines_table::Table;
use roster_problem::Problem;
use roster_subtreepool::{Closed, Settled};
use roster_subtreepool_spans::Span;
use roster_values::Roster;
use std::alloc::{AllocError, Global};
use std::sync::Arc;

/// The best roster, and whether the search for it had to begin again.
#[derive(Drop)]
pub struct Solved {
    /// The roster.
    pub roster: Arc<Roster>,
    /// How often all was searched again in one thread, since what the workers handed in didn't agree with the
    /// pool: 0 or 1.
    pub fallbacks: usize,
}

/// The best roster of all that workers found: `lists` has for each worker what it answered. If each list has
/// just the spans that the pool lists for its worker, and the pool was one over this table, the roster of
/// least key among them is the best of all. If not, all rosters are searched once more, and `fallbacks` is 1.
pub fn combine<F: SpanSearch>(
    alloc: Global,
    problem: &Problem,
    table: &Table,
    searcher: &F,
    lists: Vec<Vec<Settled>>,
    closed: Closed,
) -> Result<Solved, AllocError>
    requires table { IsTableOf problem.now table.now }
    requires searcher { F.task searcher.now ≡ record { problem = problem.now; table = table.now } }
    requires settled { All (AreSettled problem.now table.now) (map (λ list. list.items) lists.items) }
    ensures best { IfOk result (λ solved. IsBestKey problem.now (arc_value solved.roster)) }
    ensures agree { IfOk result (λ solved.
        Agree (map length table.now) (map (λ list. list.items) lists.items) closed → solved.fallbacks ≡ 0) }
    ensures differ { IfOk result (λ solved.
        ¬ Agree (map length table.now) (map (λ list. list.items) lists.items) closed → solved.fallbacks ≡ 1) }
    ensures once { IfOk result (λ solved. solved.fallbacks ≤ 1) }
{
    let widths = widths_of(alloc, problem, table)?;
    if agree(&widths, &lists, &closed) {
        let roster = least_agreed(alloc, problem, table, &lists, &closed)?;
        return Ok(Solved {
            roster,
            fallbacks: 0,
        });
    }
    solved_again(alloc, problem, table, searcher)
}

/// All rosters searched once more.
pub(crate) fn solved_again<F: SpanSearch>(
    alloc: Global,
    problem: &Problem,
    table: &Table,
    searcher: &F,
) -> Result<Solved, AllocError>
    requires table { IsTableOf problem.now table.now }
    requires searcher { F.task searcher.now ≡ record { problem = problem.now; table = table.now } }
    ensures best { IfOk result (λ solved. IsBestKey problem.now (arc_value solved.roster)) }
    ensures again { IfOk result (λ solved. solved.fallbacks ≡ 1) }
{
    let roster = search_root(alloc, problem, table, searcher)?;
    Ok(Solved {
        roster,
        fallbacks: 1,
    })
}

/// The best roster if there is nobody: the only one, which leaves all open.
pub fn solved_by_nobody(alloc: Global, problem: &Problem) -> Result<Solved, AllocError>
    requires { length problem.now.persons ≡ 0 }
    ensures best { IfOk result (λ solved. IsBestKey problem.now (arc_value solved.roster)) }
    ensures once { IfOk result (λ solved. solved.fallbacks ≡ 0) }
{
    let roster = first_known(alloc, problem)?;
    Ok(Solved {
        roster,
        fallbacks: 0,
    })
}

/// The least roster of lists that agree with the pool.
fn least_agreed(
    alloc: Global,
    problem: &Problem,
    table: &Table,
    lists: &[Vec<Settled>],
    closed: &Closed,
) -> Result<Arc<Roster>, AllocError>
    requires table { IsTableOf problem.now table.now }
    requires settled { All (AreSettled problem.now table.now) (map (λ list. list.items) lists.now) }
    requires agree { Agree (map length table.now) (map (λ list. list.items) lists.now) closed.now }
    ensures { IfOk result (λ best. IsBestKey problem.now (arc_value best)) }
{
    // Each list of the box lies in a finished span.
    let _ = closed.finished();
    let known = first_known(alloc, problem)?;
    let best = least_of(lists, known)?;
    Ok(best)
}

/// The least roster among those handed in and the known one.
fn least_of(lists: &[Vec<Settled>], known: Arc<Roster>) -> Result<Arc<Roster>, AllocError>
    ensures { IfOk result (λ best. IsLeastOfAll (map (λ list. list.items) lists.now) (length lists.now)
        (arc_value known) (arc_value best)) }
{
    keys_are_in_order();
    let mut best = known;
    for k in 0..lists.len() {
        best = least_in(&lists[k], best)?;
    }
    Ok(best)
}

/// The least roster among those of one worker and the known one.
fn least_in(list: &[Settled], known: Arc<Roster>) -> Result<Arc<Roster>, AllocError>
    ensures { IfOk result (λ best. IsLeastOf list.now (length list.now) (arc_value known) (arc_value best)) }
{
    keys_are_in_order();
    let mut best = known;
    for k in 0..list.len() {
        best = earlier_of(&list[k], best)?;
    }
    Ok(best)
}

/// The earlier of a part's roster and the known one; the known one if the keys are equal.
fn earlier_of(settled: &Settled, known: Arc<Roster>) -> Result<Arc<Roster>, AllocError>
    ensures { IfOk result (λ best. IsEarlierOf settled.now.best (arc_value known) (arc_value best)) }
{
    keys_are_in_order();
    if comes_before(&settled.best, &known) {
        let best = Arc::try_clone(&settled.best)?;
        return Ok(best);
    }
    Ok(known)
}

/// Whether what the workers handed in is just what the pool lists for them, and the pool has these widths.
fn agree(widths: &[usize], lists: &[Vec<Settled>], closed: &Closed) -> bool
    ensures { IsTrue result ↔ Agree widths.now (map (λ list. list.items) lists.now) closed.now }
{
    let finished = closed.finished();
    if !are_same(closed.widths(), widths) || !are_workers(lists.len(), finished) {
        return false;
    }
    are_lists_of(lists, finished)
}

/// Whether two lists of widths are the same.
fn are_same(a: &[usize], b: &[usize]) -> bool
    ensures { IsTrue result ↔ (a.now ≡ b.now) }
{
    a == b
}

/// Whether all who finished something are among so many workers.
fn are_workers(count: usize, finished: &[(usize, Span)]) -> bool
    ensures { IsTrue result ↔ All (λ (entry : ℕ × PlainSpan). entry.0 < count) finished.now }
{
    finished.iter().all(|entry| entry.0 < count)
}

/// Whether each list has just the spans that its worker finished.
fn are_lists_of(lists: &[Vec<Settled>], finished: &[(usize, Span)]) -> bool
    ensures { IsTrue result ↔ ((worker : ℕ) → worker < length lists.now
        → map span_of (slice_index_or (map (λ list. list.items) lists.now) worker [])
        ≡ spans_by worker finished.now) }
{
    for worker in 0..lists.len() {
        if !is_list_of(&lists[worker], worker, finished) {
            return false;
        }
    }
    true
}

/// Whether the list has just the spans that the worker finished, in order.
fn is_list_of(list: &[Settled], worker: usize, finished: &[(usize, Span)]) -> bool
    ensures { IsTrue result ↔ (map span_of list.now ≡ spans_by worker finished.now) }
{
    let mut next = 0;
    for k in 0..finished.len() {
        if finished[k].0 == worker {
            if next == list.len() {
                return false;
            }
            let settled = &list[next];
            if !is_same(&settled.span, &finished[k].1) {
                return false;
            }
            next += 1;
        }
    }
    next == list.len()
}

/// Whether two spans are the same.
fn is_same(a: &Span, b: &Span) -> bool
    ensures { IsTrue result ↔ (a.now ≡ b.now) }
{
    a.path.as_slice() == b.path.as_slice() && a.lo == b.lo && a.hi == b.hi
}
