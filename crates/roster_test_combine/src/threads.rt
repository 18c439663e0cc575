//! Searches by several threads.

ghost use Rattle.std.specs.Prelude.{◌<◌};

use crate::books::{NOBODY, ONE_PERSON, is};
use roster_combine::{Gate, Open, Solved, solve};
use roster_test_books::{BEST, TWO_DAYS, problem_of};
use std::alloc::Global;
use std::sync::Wait;
use std::test::Fail;
use std::thread::Threads;

/// What so many workers find in a book.
pub fn solved<R: Threads + Wait + Sync, G: Gate + Sync>(
    rt: &R,
    alloc: Global,
    book: &[u8],
    workers: usize,
    gate: &G,
) -> Result<Solved, Fail>
    requires { 0 < workers }
{
    let problem = problem_of(alloc, book)?;
    Ok(solve(rt, alloc, &problem, workers, gate)?)
}

/// Whether so many workers find the roster with these places, which costs 0, and nothing is searched again.
fn find<R: Threads + Wait + Sync>(
    rt: &R,
    alloc: Global,
    book: &[u8],
    workers: usize,
    places: &[u16],
) -> Result<bool, Fail>
    requires { 0 < workers }
{
    Ok(is(&solved(rt, alloc, book, workers, &Open)?, places, 0))
}

#[test]
fn any_number_of_workers_finds_the_best_roster(rt: HostRuntime) -> Result<(), Fail> {
    for workers in [1, 2, 3, 8, 64] {
        assert!(rt;
            find(&rt, rt.alloc(), TWO_DAYS, workers, BEST)?,
            "{workers} workers"
        );
    }
    Ok(())
}

#[test]
fn more_workers_than_lines_find_it(rt: HostRuntime) -> Result<(), Fail> {
    for workers in [1, 2, 5, 64] {
        assert!(rt;
            find(&rt, rt.alloc(), ONE_PERSON, workers, &[0, 0])?,
            "{workers} workers"
        );
    }
    Ok(())
}

#[test]
fn several_workers_for_nobody(rt: HostRuntime) -> Result<(), Fail> {
    assert!(rt; find(&rt, rt.alloc(), NOBODY, 2, &[])?);
    Ok(())
}
