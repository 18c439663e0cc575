//! One search of all rosters.

ghost use Rattle.std.specs.Prelude.{◌≡◌, ◌<◌, ℕ, IfOk, List, Ok, length, map, replicate};
ghost use Rattle.std.specs.Arc.{arc_value};
ghost use Rattle.roster_lines_table.specs.Person.{IsTableOf};
ghost use Rattle.roster_model.specs.Rosters.{IsLegalRoster, key_of};
ghost use Rattle.roster_model.specs.Settled.{IsHeld};
ghost use Rattle.roster_subtreepool_spans.specs.Spans.{IsInSpan};
ghost use Rattle.roster_combine_workers.specs.Parts.{IsBestKey};

use crate::span_search::SpanSearch;
use roster_incumbent::{Sight, all_left};
use roster_lines_table::Table;
use roster_problem::Problem;
use roster_subtreepool_spans::{Done, Path, Piece, Span};
use roster_values::Roster;
use std::alloc::{AllocError, Global};
use std::sync::Arc;

/// Shows nothing.
#[derive(Drop)]
struct Nothing;

impl Sight for Nothing {
    fn look(&mut self) -> Option<Arc<Roster>> {
        None
    }
}

/// The legal roster of least cost, and among those the first in roster order.
pub(crate) fn search_root<F: SpanSearch>(
    alloc: Global,
    problem: &Problem,
    table: &Table,
    searcher: &F,
) -> Result<Arc<Roster>, AllocError>
    requires table { IsTableOf problem.now table.now }
    requires searcher { F.task searcher.now ≡ record { problem = problem.now; table = table.now } }
    ensures { IfOk result (λ best. IsBestKey problem.now (arc_value best)) }
{
    let known = first_known(alloc, problem)?;
    if problem.persons().is_empty() {
        return Ok(known);
    }
    let root = Piece::of(root_of(alloc, table));
    let Done { piece, best } = found(searcher.search(root, &mut Nothing, 0, &known))?;
    piece.forgo();
    Ok(best)
}

/// What a search found. If memory ran out, the piece is given up.
pub(crate) fn found(searched: Result<Done, (Piece, AllocError)>) -> Result<Done, AllocError>
    ensures { IfOk result (λ done. searched ≡ Ok done) }
{
    match searched {
        Ok(done) => Ok(done),
        Err((piece, refused)) => {
            piece.forgo();
            Err(refused)
        }
    }
}

/// The roster that leaves all open, with which each search begins.
pub fn first_known(alloc: Global, problem: &Problem) -> Result<Arc<Roster>, AllocError>
    ensures left { IfOk result (λ known. arc_value known ≡ key_of problem.now
        (replicate (length problem.now.pairings) (length problem.now.persons))) }
    ensures held { IfOk result (λ known. IsHeld problem.now (arc_value known)) }
{
    let known = all_left(alloc, problem)?;
    let known = Arc::new(alloc, known)?;
    Ok(known)
}

/// How many lines each person has.
pub(crate) fn widths_of(
    alloc: Global,
    problem: &Problem,
    table: &Table,
) -> Result<Vec<usize>, AllocError>
    requires { IsTableOf problem.now table.now }
    ensures { IfOk result (λ widths. widths.items ≡ map length table.now) }
{
    let mut widths = Vec::new(alloc);
    for k in 0..problem.persons().len() {
        widths.push(table.width(k))?;
    }
    Ok(widths)
}

/// The span of all lists of line numbers.
fn root_of(alloc: Global, table: &Table) -> Span
    requires { 0 < length table.now }
    ensures { (problem : Problem) → IsTableOf problem table.now
        → (places : List ℕ) → IsLegalRoster problem places → IsInSpan table.now result places }
{
    Span {
        path: Path::new(Vec::new(alloc)),
        lo: 0,
        hi: table.width(0),
    }
}
