//! Bases that threads settle before spans are searched.

ghost use Rattle.std.specs.Prelude.{◌≡◌, ◌<◌, IfOk, unwrap_or};
ghost use Rattle.std.specs.Arc.{arc_value};
ghost use Rattle.roster_lines_table.specs.Person.{IsTableOf};
ghost use Rattle.roster_model.specs.Settled.{IsHeld};
ghost use Rattle.roster_bounds.specs.Chosen.{priced_table};

use crate::books::{AS_EQUAL, EQUAL_SHARES};
use crate::spans::{Over, all_open, is, searched};
use roster_bounds::Tables;
use roster_branchtree::{Path, Sight, Span};
use roster_incumbent::Open;
use roster_lines::table_of;
use roster_lines_table::Table;
use roster_problem::Problem;
use roster_search_threads::search_bases;
use roster_test_books::problem_of;
use roster_values::Roster;
use std::alloc::{AllocError, Global};
use std::sync::{Arc, Wait};
use std::test::Fail;
use std::thread::Threads;

/// Shows nothing, and counts how often it was looked at.
#[derive(Drop)]
struct Looks {
    count: usize,
}

impl Sight for Looks {
    fn look(&mut self) -> Option<Arc<Roster>> {
        self.count = self.count.saturating_add(1);
        None
    }
}

/// What threads did before spans are searched, and what a search of all then does.
#[derive(Clone, Copy)]
struct Seen {
    // Whether the tables know that nothing comes before what is answered, and before leaving all open.
    none_before: [bool; 2],
    // Whether the search of all lists of line numbers answers the best roster, and its nodes.
    finds_best: bool,
    nodes: usize,
}

/// The better roster, if there is one, or the known one.
fn better_or(
    alloc: Global,
    better: Option<Roster>,
    known: &Arc<Roster>,
) -> Result<Arc<Roster>, AllocError>
    ensures { IfOk result (λ best. arc_value best ≡ unwrap_or better (arc_value known.now)) }
{
    match better {
        Some(better) => Ok(Arc::new(alloc, better)?),
        None => Ok(Arc::try_clone(known)?),
    }
}

/// The book of equal shares, whose bases so many threads search.
fn searched_by<R: Threads + Wait + Sync>(
    rt: &R,
    alloc: Global,
    threads: usize,
) -> Result<Seen, Fail>
    requires { 0 < threads }
{
    let problem = problem_of(alloc, EQUAL_SHARES)?;
    searched_over(rt, alloc, &problem, threads)
}

/// What so many threads do in this problem, and what a search of all then does.
fn searched_over<R: Threads + Wait + Sync>(
    rt: &R,
    alloc: Global,
    problem: &Problem,
    threads: usize,
) -> Result<Seen, Fail>
    requires { 0 < threads }
{
    let table = table_of(alloc, problem)?;
    let opening = all_open(alloc, problem, &table)?;
    searched_under(rt, alloc, problem, &table, &opening, threads)
}

/// The same from the roster that leaves all open.
fn searched_under<R: Threads + Wait + Sync>(
    rt: &R,
    alloc: Global,
    problem: &Problem,
    table: &Table,
    opening: &Arc<Roster>,
    threads: usize,
) -> Result<Seen, Fail>
    requires table { IsTableOf problem.now table.now }
    requires opening { IsHeld problem.now (arc_value opening.now) }
    requires threads { 0 < threads }
{
    let (best, tables) = informed(rt, alloc, problem, table, opening, threads)?;
    looked(alloc, problem, table, &tables, &best, opening)
}

/// The best roster that the threads find, and tables that know it.
fn informed<'a, R: Threads + Wait + Sync>(
    rt: &R,
    alloc: Global,
    problem: &'a Problem,
    table: &'a Table,
    opening: &Arc<Roster>,
    threads: usize,
) -> Result<(Arc<Roster>, Tables<'a>), AllocError>
    requires table { IsTableOf problem.now table.now }
    requires opening { IsHeld problem.now (arc_value opening.now) }
    requires threads { 0 < threads }
    ensures held { IfOk result (λ informed. IsHeld problem.now (arc_value informed.0)) }
    ensures tables { IfOk result (λ informed.
        informed.1 ≡ priced_table problem.now table.now informed.1.prices) }
{
    let better = search_bases(rt, alloc, problem, table, opening, threads, &Open)?;
    let best = better_or(alloc, better, opening)?;
    let tables = Tables::of_best(alloc, problem, table, Arc::try_clone(&best)?)?;
    Ok((best, tables))
}

/// What these tables know, and what the search of all lists of line numbers then does.
fn looked(
    alloc: Global,
    problem: &Problem,
    table: &Table,
    tables: &Tables<'_>,
    known: &Arc<Roster>,
    opening: &Arc<Roster>,
) -> Result<Seen, Fail>
    requires table { IsTableOf problem.now table.now }
    requires tables { tables.now ≡ priced_table problem.now table.now tables.now.prices }
    requires known { IsHeld problem.now (arc_value known.now) }
{
    let span = Span {
        path: Path::new(Vec::new(alloc)),
        lo: 0,
        hi: 216,
    };
    let mut looks = Looks { count: 0 };
    let over = Over {
        problem,
        table,
        tables,
    };
    let best = searched(alloc, over, span, &mut looks, 1, known)?;
    Ok(Seen {
        none_before: [tables.none_before(known), tables.none_before(opening)],
        finds_best: is(&best, AS_EQUAL, 4),
        nodes: looks.count,
    })
}

/// Whether all bases are settled: the best roster is known, and a search ends at its first node.
fn settles_all(seen: Seen) -> bool {
    seen.none_before == [true, false] && seen.finds_best && seen.nodes == 1
}

#[test]
fn one_thread_settles_all_bases(rt: HostRuntime) -> Result<(), Fail> {
    assert!(rt; settles_all(searched_by(&rt, rt.alloc(), 1)?));
    Ok(())
}

#[test]
fn several_threads_settle_all_bases(rt: HostRuntime) -> Result<(), Fail> {
    assert!(rt; settles_all(searched_by(&rt, rt.alloc(), 2)?));
    assert!(rt; settles_all(searched_by(&rt, rt.alloc(), 5)?));
    Ok(())
}
