//! The search beside the walk of lines and the plain search.

use crate::books::{book_of, problem_of_days};
use crate::random::random_problem;
use roster_combine::{Open, solve};
use roster_lines::table_of;
use roster_model::limits::MOST_PAIRINGS;
use roster_problem::{Problem, open_number};
use roster_test_books::problem_of;
use roster_test_reference::{solve_by_lines, solve_plainly};
use roster_values::Roster;
use std::alloc::Global;
use std::sync::Wait;
use std::test::Fail;
use std::thread::Threads;

/// Three pairings at one time for two persons. The last one is the cheapest to leave open.
const AT_ONE_TIME: &[u8] =
    b"period,2024-03\nbase,BAS,UTC0\ncrew,A,BAS,0,0,0\ncrew,B,BAS,0,0,0\npairing,P1,BAS,100\npairing,P2,BAS,50\npairing,P3,BAS,10\nduty,Q1,P,P1,BAS,2024-03-04T06:00Z,2024-03-04T14:00Z\nduty,Q2,P,P2,BAS,2024-03-04T08:00Z,2024-03-04T12:00Z\nduty,Q3,P,P3,BAS,2024-03-04T10:00Z,2024-03-04T11:00Z\n";

/// The second person is paid for the first of two pairings on different days, and the first one has
/// to be paid for the second.
const PAID: &[u8] =
    b"period,2024-03\nbase,BAS,UTC0\ncrew,A,BAS,0,0,0\ncrew,B,BAS,0,0,0\npairing,P1,BAS,100\npairing,P2,BAS,50\nduty,Q1,P,P1,BAS,2024-03-04T06:00Z,2024-03-04T14:00Z\nduty,Q2,P,P2,BAS,2024-03-06T06:00Z,2024-03-06T14:00Z\ncost,B,P1,-7\ncost,A,P2,3\n";

/// Two persons of two bases, each with a pairing of their own base, and a third pairing of the second
/// base an hour after the one before.
const TWO_BASES: &[u8] =
    b"period,2024-03\nbase,BAS,UTC0\nbase,GVA,UTC0\ncrew,A,BAS,0,0,0\ncrew,B,GVA,0,0,0\npairing,P1,BAS,100\npairing,P2,GVA,50\npairing,P3,GVA,60\nduty,Q1,P,P1,BAS,2024-03-04T06:00Z,2024-03-04T14:00Z\nduty,Q2,P,P2,GVA,2024-03-04T06:00Z,2024-03-04T14:00Z\nduty,Q3,P,P3,GVA,2024-03-04T15:00Z,2024-03-04T16:00Z\n";

/// A pairing, and nobody to fly it.
const NOBODY: &[u8] =
    b"period,2024-03\nbase,BAS,UTC0\npairing,P1,BAS,100\nduty,Q1,P,P1,BAS,2024-03-04T06:00Z,2024-03-04T14:00Z\n";

/// Whether the roster has these places and this cost.
fn is(roster: &Roster, places: &[u16], cost: i64) -> bool {
    roster.places.as_slice() == places && roster.cost == cost
}

/// Whether one worker finds this roster, at this cost.
fn is_solved<R: Threads + Wait + Sync>(
    rt: &R,
    alloc: Global,
    problem: &Problem,
    places: &[u16],
    cost: i64,
) -> Result<bool, Fail> {
    let solved = solve(rt, alloc, problem, 1, &Open)?;
    Ok(is(&solved.roster, places, cost))
}

/// Whether the walk of lines finds this roster, at this cost.
fn is_walked(alloc: Global, problem: &Problem, places: &[u16], cost: i64) -> Result<bool, Fail> {
    let table = table_of(alloc, problem)?;
    let walked = solve_by_lines(alloc, problem, &table)?;
    Ok(is(&walked, places, cost))
}

/// Whether the plain search finds this roster, at this cost.
fn is_plain(alloc: Global, problem: &Problem, places: &[u16], cost: i64) -> Result<bool, Fail> {
    let plain = solve_plainly(alloc, problem)?;
    Ok(is(&plain, places, cost))
}

/// Whether all searches find this roster, at this cost.
fn all_find<R: Threads + Wait + Sync>(
    rt: &R,
    alloc: Global,
    problem: &Problem,
    places: &[u16],
    cost: i64,
) -> Result<bool, Fail> {
    if !is_solved(rt, alloc, problem, places, cost)? {
        return Ok(false);
    }
    Ok(is_walked(alloc, problem, places, cost)? && is_plain(alloc, problem, places, cost)?)
}

/// The same of the problem of a book.
fn find<R: Threads + Wait + Sync>(
    rt: &R,
    alloc: Global,
    book: &[u8],
    places: &[u16],
    cost: i64,
) -> Result<bool, Fail> {
    let problem = problem_of(alloc, book)?;
    all_find(rt, alloc, &problem, places, cost)
}

#[test]
fn all_searches_find_the_same_roster(rt: HostRuntime) -> Result<(), Fail> {
    assert!(rt; find(&rt, rt.alloc(), AT_ONE_TIME, &[0, 1, 2], 10)?);
    assert!(rt; find(&rt, rt.alloc(), PAID, &[1, 1], -7)?);
    assert!(rt; find(&rt, rt.alloc(), TWO_BASES, &[0, 2, 1], 50)?);
    assert!(rt; find(&rt, rt.alloc(), NOBODY, &[0], 100)?);
    Ok(())
}

/// Whether the searches leave as many pairings as may be open if nobody is there.
fn leave_all_open<R: Threads + Wait + Sync>(rt: &R, alloc: Global) -> Result<bool, Fail> {
    let book = book_of(alloc, b"", &[4; MOST_PAIRINGS])?;
    find(rt, alloc, &book, &[0; MOST_PAIRINGS], MOST_PAIRINGS as i64)
}

/// Whether the first of as many pairings as may be, all at one time, is flown.
fn flies_the_first<R: Threads + Wait + Sync>(rt: &R, alloc: Global) -> Result<bool, Fail> {
    let problem = problem_of_days(alloc, &[4; MOST_PAIRINGS])?;
    let mut places = [1; MOST_PAIRINGS];
    places[0] = 0;
    is_solved(rt, alloc, &problem, &places, MOST_PAIRINGS as i64 - 1)
}

#[test]
fn searches_of_as_many_pairings_as_may_be(rt: HostRuntime) -> Result<(), Fail> {
    assert!(rt; leave_all_open(&rt, rt.alloc())?);
    assert!(rt; flies_the_first(&rt, rt.alloc())?);
    Ok(())
}

/// Whether all searches find the same roster.
fn all_agree<R: Threads + Wait + Sync>(
    rt: &R,
    alloc: Global,
    problem: &Problem,
) -> Result<bool, Fail> {
    let plain = solve_plainly(alloc, problem)?;
    let places = plain.places.as_slice();
    if !is_solved(rt, alloc, problem, places, plain.cost)? {
        return Ok(false);
    }
    is_walked(alloc, problem, places, plain.cost)
}

/// The same of the random book with this seed.
fn agree<R: Threads + Wait + Sync>(rt: &R, alloc: Global, seed: u64) -> Result<bool, Fail> {
    let problem = random_problem(alloc, seed)?;
    all_agree(rt, alloc, &problem)
}

#[test]
fn all_searches_agree_on_random_books(rt: HostRuntime) -> Result<(), Fail> {
    for seed in 0..400 {
        assert!(rt; agree(&rt, rt.alloc(), seed)?);
    }
    Ok(())
}

/// Whether the best roster flies a pairing and leaves one open.
fn mixes<R: Threads + Wait + Sync>(rt: &R, alloc: Global, problem: &Problem) -> Result<bool, Fail> {
    let nobody = open_number(problem);
    let solved = solve(rt, alloc, problem, 1, &Open)?;
    let places = solved.roster.places.as_slice();
    Ok(places.iter().any(|place| *place < nobody) && places.contains(&nobody))
}

/// The same of the random book with this seed.
fn is_mixed<R: Threads + Wait + Sync>(rt: &R, alloc: Global, seed: u64) -> Result<bool, Fail> {
    let problem = random_problem(alloc, seed)?;
    mixes(rt, alloc, &problem)
}

#[test]
fn random_books_fly_some_pairings_and_leave_some_open(rt: HostRuntime) -> Result<(), Fail> {
    let mut mixed: u32 = 0;
    for seed in 0..400 {
        mixed = mixed.wrapping_add(u32::from(is_mixed(&rt, rt.alloc(), seed)?));
    }
    assert!(rt; mixed >= 100);
    Ok(())
}
