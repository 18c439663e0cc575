//! The rules over a duty for each pairing that a book may have.

use roster_legal::{Judge, first_broken, is_legal, locked, merge};
use roster_model::limits::MOST_PAIRINGS;
use roster_problem::Problem;
use roster_test_books::{problem_of, set_of};
use roster_values::{Rule, Set};
use std::alloc::{AllocError, Global};
use std::process::Abort;
use std::test::Fail;

const DUTY: &[u8] = b",BAS,2024-03-04T06:00Z,2024-03-04T14:00Z\n";

/// The last digit of a number.
fn digit(n: usize) -> u8 {
    b'0' + (n % 10) as u8
}

/// Appends the parts one behind another.
fn push_all(book: &mut Vec<u8>, parts: &[&[u8]]) -> Result<(), AllocError> {
    for part in parts {
        book.extend_from_slice(part)?;
    }
    Ok(())
}

/// A book of one person, and as many pairings as may be, with a duty each, all at the same time.
fn long_book(alloc: Global) -> Result<Vec<u8>, AllocError> {
    let mut book = b"period,2024-03\nbase,BAS,UTC0\ncrew,A,BAS,0,0,0\n".to_vec(alloc)?;
    for p in 0..MOST_PAIRINGS {
        let name = [digit(p / 1000), digit(p / 100), digit(p / 10), digit(p)];
        push_all(
            &mut book,
            &[
                b"pairing,",
                &name,
                b",BAS,1\nduty,",
                &name,
                b",P,",
                &name,
                DUTY,
            ],
        )?;
    }
    Ok(book)
}

/// Judges the set of all pairings.
fn all_overlap(rt: &impl Abort, alloc: Global, problem: &Problem) -> Result<(), Fail> {
    let set = set_of(problem, &[0; MOST_PAIRINGS]).ok_or("a set")?;
    assert!(rt; problem.persons().len() == 1);
    assert!(rt; merge(alloc, problem, 0, &set)?.len() == MOST_PAIRINGS);
    let broken = first_broken(alloc, problem, 0, &set)?;
    assert!(rt; matches!(broken, Some(Rule::Overlap)));
    assert!(rt; !is_legal(alloc, problem, 0, &set)?);
    Ok(())
}

#[test]
fn as_many_duties_as_pairings(rt: HostRuntime) -> Result<(), Fail> {
    let book = long_book(rt.alloc())?;
    let problem = problem_of(rt.alloc(), &book)?;
    all_overlap(&rt, rt.alloc(), &problem)
}

// A has a fixed duty on 4 March, and P1 at the same time; P2 is two days later. B is of another base,
// and locked by what was flown in the year.
const LOCKED: &[u8] = b"period,2024-03
base,BAS,UTC0
base,GVA,UTC0
crew,A,BAS,0,0,0
crew,B,GVA,0,54001,0
pairing,P1,BAS,1
pairing,P2,BAS,1
duty,Q1,P,P1,BAS,2024-03-04T06:00Z,2024-03-04T14:00Z
duty,Q2,P,P2,BAS,2024-03-06T06:00Z,2024-03-06T14:00Z
duty,Q3,C,A,BAS,2024-03-04T08:00Z,2024-03-04T10:00Z
";

/// Judges P1 and P2 for A and then for B.
fn both_are_judged(rt: &impl Abort, alloc: Global, problem: &Problem) -> Result<(), Fail> {
    assert!(rt; problem.persons().len() == 2);
    let both = set_of(problem, &[0, 0]).ok_or("a set")?;
    let mut judge = Judge::new(alloc, problem);
    let first = judge.first_broken(0, &both)?;
    let second = judge.first_broken(1, &both)?;
    assert!(rt; first == Some(Rule::Overlap));
    assert!(rt; second == Some(Rule::Base));
    Ok(())
}

#[test]
fn a_judge_judges_sets_one_after_another(rt: HostRuntime) -> Result<(), Fail> {
    let problem = problem_of(rt.alloc(), LOCKED)?;
    both_are_judged(&rt, rt.alloc(), &problem)
}

/// Asks what locks A and B.
fn second_is_locked(rt: &impl Abort, alloc: Global, problem: &Problem) -> Result<(), Fail> {
    assert!(rt; problem.persons().len() == 2);
    assert!(rt; locked(alloc, problem, 0)?.is_none());
    assert!(rt; locked(alloc, problem, 1)? == Some(Rule::FlightYear));
    Ok(())
}

#[test]
fn carried_minutes_lock(rt: HostRuntime) -> Result<(), Fail> {
    let problem = problem_of(rt.alloc(), LOCKED)?;
    second_is_locked(&rt, rt.alloc(), &problem)
}
