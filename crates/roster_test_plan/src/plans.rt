//! Plans of small books, and what their watcher is told.

use roster_bases::all_open;
use roster_cost::roster_cost;
use roster_plan::{Means, Phase, Planned, Watcher, plan};
use roster_problem::Problem;
use roster_test_books::{BEST, TWO_DAYS, problem_of};
use std::alloc::{AllocError, Global};
use std::test::Fail;
use std::thread::Threads;

/// Remembers what it was told.
#[derive(Drop)]
struct Told {
    costs: Vec<i64>,
    last: i64,
    left_out: Vec<(usize, usize)>,
    failed: bool,
}

impl Told {
    fn new(alloc: Global) -> Told {
        Told {
            costs: Vec::new(alloc),
            last: i64::MAX,
            left_out: Vec::new(alloc),
            failed: false,
        }
    }
}

impl Watcher for Told {
    fn tell(&mut self, _problem: &Problem, _base: Option<usize>, _step: Phase, planned: &Planned) {
        self.last = planned.roster.cost;
        self.failed = self.failed || self.costs.push(planned.roster.cost).is_err();
    }

    fn leave_out(&mut self, _problem: &Problem, p: usize, k: usize) {
        self.failed = self.failed || self.left_out.push((p, k)).is_err();
    }
}

/// The plan of the book with these places and means, if they are as many as its pairings, each of a person's
/// or open.
fn planned<R: Threads + Sync>(
    rt: &R,
    alloc: Global,
    given: &[u16],
    means: &Means,
    told: &mut Told,
) -> Result<Planned, Fail> {
    let problem = problem_of(alloc, TWO_DAYS).or(Err("a book"))?;
    let few = given
        .iter()
        .all(|x| usize::from(*x) <= problem.persons().len());
    if given.len() != problem.pairings().len() || !few || means.workers == 0 {
        return Err("places of the book")?;
    }
    Ok(plan(rt, alloc, &problem, given, means, told)?)
}

/// Nobody has a pairing of the book.
const OPEN: &[u16] = &[6, 6, 6, 6, 6, 6, 6, 6, 6, 6];

#[test]
fn a_small_book_has_its_best_roster_at_each_effort(rt: HostRuntime) -> Result<(), Fail> {
    for effort in 0..3 {
        let mut told = Told::new(rt.alloc());
        let means = Means::of_effort(effort, 1);
        let found = planned(&rt, rt.alloc(), OPEN, &means, &mut told)?;
        assert!(rt; found.is_best);
        assert!(rt; found.roster.cost == 0 && found.bound == 0);
        assert!(rt; found.roster.places.as_slice() == BEST);
        assert!(rt; told.last == 0 && !told.failed);
    }
    Ok(())
}

#[test]
fn several_workers_find_the_same(rt: HostRuntime) -> Result<(), Fail> {
    for workers in 1..5 {
        let mut told = Told::new(rt.alloc());
        let means = Means::of_effort(1, workers);
        let found = planned(&rt, rt.alloc(), OPEN, &means, &mut told)?;
        assert!(rt; found.roster.places.as_slice() == BEST);
    }
    Ok(())
}

#[test]
fn what_a_start_gives_is_kept_or_told(rt: HostRuntime) -> Result<(), Fail> {
    let mut told = Told::new(rt.alloc());
    let means = Means::of_effort(0, 1);
    // A has two pairings at one time: the second isn't kept.
    let given: &[u16] = &[0, 0, 6, 6, 6, 6, 6, 6, 6, 6];
    let found = planned(&rt, rt.alloc(), given, &means, &mut told)?;
    assert!(rt; told.left_out.as_slice() == [(1, 0)].as_slice());
    assert!(rt; found.roster.cost == 0);
    Ok(())
}

#[test]
fn what_is_told_never_becomes_dearer(rt: HostRuntime) -> Result<(), Fail> {
    let mut told = Told::new(rt.alloc());
    let means = Means::of_effort(1, 2);
    planned(&rt, rt.alloc(), OPEN, &means, &mut told)?;
    let mut least = i64::MAX;
    for cost in &told.costs {
        assert!(rt; *cost <= least);
        least = *cost;
    }
    assert!(rt; !told.failed);
    Ok(())
}

#[test]
fn nothing_flown_costs_all_penalties(rt: HostRuntime) -> Result<(), Fail> {
    let problem = problem_of(rt.alloc(), TWO_DAYS).or(Err("a book"))?;
    let places = all_open(rt.alloc(), &problem)?;
    assert!(rt; places.as_slice() == OPEN);
    if places.len() == problem.pairings().len() {
        assert!(rt; roster_cost(&problem, places.as_slice()) == 30);
    }
    Ok(())
}
