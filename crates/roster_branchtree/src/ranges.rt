//! A span as the node of its path, and as a range of lines for each person.

ghost use Rattle.std.specs.Prelude.{◌≡◌, ◌<◌, ℕ, IfOk, List, MatchOption, length};
ghost use Rattle.roster_model.specs.Rosters.{IsLegalRoster};
ghost use Rattle.roster_lines_table.specs.Person.{IsTableOf};
ghost use Rattle.roster_bounds.specs.Chosen.{HasLines};
ghost use Rattle.roster_branchtree.specs.Spans.{range_at, AreLineNumbers, AreRangesOf};

use roster_bounds::{Node, Tables};
use roster_lines_table::Table;
use roster_problem::Problem;
use roster_subtreepool_spans::Span;
use std::alloc::{AllocError, Global};

/// The node of the path: of the legal rosters that give the first persons these lines. There is none if
/// a number is that of no line, or two lines share a pairing, and then there is no such roster.
pub(crate) fn node_of<'a>(
    alloc: Global,
    tables: &'a Tables<'a>,
    path: &[usize],
) -> Result<Option<Node<'a>>, AllocError>
    requires { length path.now < length tables.now.problem.persons }
    ensures { IfOk result (λ node. MatchOption node
        ((places : List ℕ) → IsLegalRoster tables.now.problem places
        → ¬ HasLines tables.now.table path.now places)
        (λ node. (node ≡ record { tables = tables.now; lines = path.now })
        × AreLineNumbers tables.now.table path.now)) }
{
    let table = tables.table();
    let mut node = Node::root(alloc, tables);
    for (k, i) in path.iter().enumerate() {
        if *i >= table.width(k) {
            return Ok(None);
        }
        match node.then(*i)? {
            Some(next) => node = next,
            None => return Ok(None),
        }
    }
    Ok(Some(node))
}

/// The ranges of lines that the span leaves the persons.
pub(crate) fn ranges_of(
    alloc: Global,
    problem: &Problem,
    table: &Table,
    span: &Span,
) -> Result<Vec<(usize, usize)>, AllocError>
    requires table { IsTableOf problem.now table.now }
    requires path { AreLineNumbers table.now span.now.path }
    ensures { IfOk result
        (λ ranges. AreRangesOf table.now span.now (length table.now) ranges.items) }
{
    let mut ranges = Vec::new(alloc);
    for k in 0..problem.persons().len() {
        ranges.push(range_of(table, span, k))?;
    }
    Ok(ranges)
}

/// The range of lines that the span leaves person `k`.
fn range_of(table: &Table, span: &Span, k: usize) -> (usize, usize)
    requires person { k < length table.now }
    requires path { AreLineNumbers table.now span.now.path }
    ensures { result ≡ range_at table.now span.now k }
{
    let width = table.lines(k).width();
    let path = span.path.as_slice();
    if k < path.len() {
        return (path[k], path[k] + 1);
    }
    if k == path.len() {
        return (span.lo, span.hi);
    }
    (0, width)
}
