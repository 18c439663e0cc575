//! The search of a span.

ghost use Rattle.std.specs.Prelude.{◌≡◌, ◌<◌, true, IfErr, IfOk, MatchBool, Some, length, unwrap_or};
ghost use Rattle.std.specs.Arc.{arc_value};
ghost use Rattle.roster_lines_table.specs.Person.{IsTableOf};
ghost use Rattle.roster_model.specs.Settled.{IsHeld, IsNotAfter, Settles};
ghost use Rattle.roster_bounds.specs.Chosen.{priced_table};
ghost use Rattle.roster_branchtree.specs.Spans.{AreLineNumbers};
ghost use Rattle.roster_subtreepool_spans.specs.Spans.{IsInSpan};

use crate::ranges::{node_of, ranges_of};
use crate::watch::{Watch, earlier_if};
use roster_bounds::Tables;
use roster_cost::Key;
use roster_incumbent::Sight;
use roster_lines_table::{Table, all_lines_are_some};
use roster_problem::Problem;
use roster_search::{Stop, least_of_box};
use roster_search_least::{Finder, LineBox};
use roster_search_relaxation::Relaxation;
use roster_subtreepool_spans::{Done, Piece, Span};
use roster_values::Roster;
use std::alloc::{AllocError, Global};
use std::sync::Arc;

/// Searches the span of the piece. The roster that it answers is legal, with its cost; its key is after
/// that of no legal roster in the span, and not after that of the known one.
///
/// It looks at the sight at its nodes `every`, twice `every` and so on, and never if that is 0; its
/// first node is the span's own, and it is met before anything may end the search. What it is shown may be
/// anything, and so may the span: a path that is too long, numbers that name no line, or a range with
/// nothing in it. If `every` is 0, the answer is the known roster or one of the span. The piece is
/// handed back if memory runs out.
pub fn search<S: Sight>(
    alloc: Global,
    problem: &Problem,
    table: &Table,
    tables: &Tables<'_>,
    piece: Piece,
    sight: &mut S,
    every: usize,
    known: &Arc<Roster>,
) -> Result<Done, (Piece, AllocError)>
    requires table { IsTableOf problem.now table.now }
    requires tables { tables.now ≡ priced_table problem.now table.now tables.now.prices }
    requires known { IsHeld problem.now (arc_value known.now) }
    ensures span { IfOk result (λ done. done.piece ≡ piece) }
    ensures settled { IfOk result (λ done. Settles problem.now (IsInSpan table.now piece)
        (λ places. every ≡ 0 → IsInSpan table.now piece places)
        (Some (arc_value known.now)) (arc_value done.best)) }
    ensures back { IfErr result (λ refused. refused.0 ≡ piece) }
{
    let known = match Arc::try_clone(known) {
        Ok(known) => known,
        Err(refused) => return Err((piece, refused)),
    };
    let mut watch = Watch::new(problem, table, sight, every, known);
    match best_of(alloc, problem, table, tables, piece.span(), &mut watch) {
        Ok(best) => Ok(Done { piece, best }),
        Err(refused) => Err((piece, refused)),
    }
}

/// The roster that the search of the span answers, with a watch that has seen nothing yet.
fn best_of<S: Sight>(
    alloc: Global,
    problem: &Problem,
    table: &Table,
    tables: &Tables<'_>,
    span: &Span,
    watch: &mut Watch<'_, S>,
) -> Result<Arc<Roster>, AllocError>
    requires table { IsTableOf problem.now table.now }
    requires tables { tables.now ≡ priced_table problem.now table.now tables.now.prices }
    requires watch { watch.old.problem ≡ problem.now }
    requires known { IsHeld problem.now watch.old.best }
    ensures { IfOk result (λ best. Settles problem.now (IsInSpan table.now span.now)
        (λ places. watch.old.every ≡ 0 → IsInSpan table.now span.now places)
        (Some watch.old.best) (arc_value best)) }
{
    watch.node(0, 0);
    let held = watch.best()?;
    if is_settled(alloc, tables, span, &held)? {
        return Ok(held);
    }
    let found = least_in(alloc, problem, table, span, &held, watch)?;
    let seen = watch.best()?;
    let best = earlier_if(alloc, found, seen)?;
    Ok(best)
}

/// Whether no legal roster of the span comes before the given one, as the tables know or the span's own node
/// shows; else the path is that of a node.
fn is_settled(
    alloc: Global,
    tables: &Tables<'_>,
    span: &Span,
    best: &Roster,
) -> Result<bool, AllocError>
    requires table { IsTableOf tables.now.problem tables.now.table }
    requires best { IsHeld tables.now.problem best.now }
    ensures { IfOk result (λ settled. MatchBool settled
        (IsNotAfter tables.now.problem (IsInSpan tables.now.table span.now) best.now)
        ((length span.now.path < length tables.now.problem.persons)
        × AreLineNumbers tables.now.table span.now.path)) }
{
    if tables.none_before(best) {
        return Ok(true);
    }
    let path = span.path.as_slice();
    if path.len() >= tables.problem().persons().len() {
        return Ok(true);
    }
    match node_of(alloc, tables, path)? {
        Some(node) => {
            if node.may_skip(&Key::of(best)) {
                return Ok(true);
            }
            Ok(false)
        }
        None => Ok(true),
    }
}

/// A roster of the span that comes before the given one and isn't after any of the span; or none, and then
/// the given one isn't after any of it.
fn least_in<F: Finder<Guide = Relaxation>>(
    alloc: Global,
    problem: &Problem,
    table: &Table,
    span: &Span,
    best: &Roster,
    finder: &mut F,
) -> Result<Option<Roster>, AllocError>
    requires finder { F.may_find }
    requires table { IsTableOf problem.now table.now }
    requires person { length span.now.path < length problem.now.persons }
    requires path { AreLineNumbers table.now span.now.path }
    requires best { IsHeld problem.now best.now }
    ensures settled { IfOk result (λ found. Settles problem.now (IsInSpan table.now span.now)
        (IsInSpan table.now span.now) (Some best.now) (unwrap_or found best.now)) }
    ensures goes_on { F.goes_on finder.old finder.new }
{
    all_lines_are_some();
    let ranges = ranges_of(alloc, problem, table, span)?;
    let lines = LineBox {
        problem,
        table,
        ranges: &ranges,
    };
    let found = least_of_box(alloc, &lines, best, finder)?;
    Ok(found)
}
