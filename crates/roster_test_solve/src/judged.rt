//! Lines, which are judged with one pairing more, beside all sets judged from the first duty to the last.

ghost use Rattle.std.specs.Prelude.{◌≡◌, ◌<◌, All, IfOk, length};

use crate::random::random_problem;
use roster_legal::Judge;
use roster_lines::lines_of;
use roster_lines_table::Lines;
use roster_problem::Problem;
use roster_values::Set;
use std::alloc::{AllocError, Global};
use std::test::Fail;

/// How many books are made.
const BOOKS: u64 = 300;

/// The set of the pairings whose bits are set.
#[tactic(auto, using(roster_model::proofs::SetLemmas::places_of_number))]
fn set_of(alloc: Global, problem: &Problem, bits: usize) -> Result<Set, AllocError>
    ensures { IfOk result (λ set. All (λ p. p < length problem.now.pairings) set) }
{
    let mut places = vec![in alloc; 1; problem.pairings().len()]?;
    for p in 0..places.len() {
        places[p] = 1 - ((bits >> (p % 8)) & 1) as u16;
    }
    Ok(Set::of_places(&places, 0))
}

/// How many sets of person `k` are legal, if the lines are just those.
fn legal_sets(
    alloc: Global,
    problem: &Problem,
    k: usize,
    lines: &Lines,
) -> Result<Option<usize>, AllocError>
    requires { k < length problem.now.persons }
{
    let mut judge = Judge::new(alloc, problem);
    let mut legal = 0usize;
    for bits in 0..1 << (problem.pairings().len() % 8) {
        let set = set_of(alloc, problem, bits)?;
        let is_legal = judge.is_legal(k, &set)?;
        if lines.find(&set).is_some() != is_legal {
            return Ok(None);
        }
        legal = legal.saturating_add(usize::from(is_legal));
    }
    Ok(if legal == lines.width() {
        Some(legal)
    } else {
        None
    })
}

/// How many legal sets the persons have, if the lines of each person are just those.
fn all_legal_sets(alloc: Global, problem: &Problem) -> Result<Option<usize>, Fail> {
    let mut all = 0usize;
    for k in 0..problem.persons().len() {
        let lines = lines_of(alloc, problem, k)?;
        match legal_sets(alloc, problem, k, &lines)? {
            Some(legal) => all = all.saturating_add(legal),
            None => return Ok(None),
        }
    }
    Ok(Some(all))
}

/// The same of the book of this number.
fn in_book(alloc: Global, seed: u64) -> Result<Option<usize>, Fail> {
    let problem = random_problem(alloc, seed)?;
    all_legal_sets(alloc, &problem)
}

#[test]
fn lines_are_the_legal_sets(rt: HostRuntime) -> Result<(), Fail> {
    let mut all = 0usize;
    for seed in 0..BOOKS {
        let legal = in_book(rt.alloc(), seed)?;
        assert!(rt; legal.is_some());
        all = all.saturating_add(legal.unwrap_or(0));
    }
    assert!(rt; all > 1000, "persons have legal sets");
    Ok(())
}
