//! Searches under written schedules.

ghost use Rattle.std.specs.Prelude.{◌<◌};

use crate::books::{NOBODY, is};
use roster_combine::replay;
use roster_test_books::{BEST, TWO_DAYS, problem_of};
use roster_values::Step;
use std::alloc::{AllocError, Global};
use std::test::Fail;

/// How many schedules are made.
const SCHEDULES: u64 = 60;

/// How many steps each of them has.
const STEPS: usize = 40;

/// The worker takes the pending span at this place.
fn take(worker: usize, place: usize) -> Step {
    Step::Take { worker, place }
}

/// The worker halves its span.
fn halve(worker: usize) -> Step {
    Step::Halve { worker }
}

/// The worker's span goes down to the next person.
fn descend(worker: usize) -> Step {
    Step::Descend { worker }
}

/// The worker gives its span back.
fn back(worker: usize) -> Step {
    Step::Back { worker }
}

/// The worker searches its span.
fn search(worker: usize, every: usize) -> Step {
    Step::Search { worker, every }
}

/// Whether the search of the problem of six persons finds its best roster under this schedule.
fn finds(alloc: Global, steps: &[Step]) -> Result<bool, Fail> {
    let problem = problem_of(alloc, TWO_DAYS)?;
    Ok(is(&replay(alloc, &problem, steps)?, BEST, 0))
}

/// Whether the search of the problem of nobody finds its only roster under this schedule.
fn finds_nobody(alloc: Global, steps: &[Step]) -> Result<bool, Fail> {
    let problem = problem_of(alloc, NOBODY)?;
    Ok(is(&replay(alloc, &problem, steps)?, &[], 0))
}

#[test]
fn each_schedule_leads_to_the_best_roster(rt: HostRuntime) -> Result<(), Fail> {
    assert!(rt; finds(rt.alloc(), &[])?);
    let shared = [
        take(0, 0),
        halve(0),
        halve(0),
        take(1, 1),
        search(1, 0),
        take(1, 0),
        search(1, 1),
        search(0, 2),
    ];
    assert!(rt; finds(rt.alloc(), &shared)?);
    let deep = [
        take(0, 0),
        halve(0),
        halve(0),
        halve(0),
        halve(0),
        halve(0),
        descend(0),
        halve(0),
        search(0, 1),
    ];
    assert!(rt; finds(rt.alloc(), &deep)?);
    Ok(())
}

#[test]
fn spans_given_back_are_searched(rt: HostRuntime) -> Result<(), Fail> {
    let steps = [take(0, 0), halve(0), back(0), take(0, 1), search(0, 0)];
    assert!(rt; finds(rt.alloc(), &steps)?);
    Ok(())
}

#[test]
fn refused_steps_change_nothing(rt: HostRuntime) -> Result<(), Fail> {
    let steps = [
        halve(3),
        take(0, 5),
        take(0, 0),
        take(0, 0),
        descend(0),
        search(7, 0),
        back(7),
        back(0),
        take(64, 0),
        search(1_000_000, 1),
    ];
    assert!(rt; finds(rt.alloc(), &steps)?);
    Ok(())
}

#[test]
fn steps_of_nobody_are_refused(rt: HostRuntime) -> Result<(), Fail> {
    let steps = [take(0, 0), halve(0), descend(0), search(0, 1), back(0)];
    assert!(rt; finds_nobody(rt.alloc(), &steps)?);
    Ok(())
}

/// Numbers that look random, by a linear congruential generator.
#[derive(Drop)]
struct Numbers {
    state: u64,
}

impl Numbers {
    /// The next number, below the limit.
    fn below(&mut self, limit: usize) -> usize
        requires { 0 < limit }
        ensures { result < limit }
    {
        self.state = self
            .state
            .wrapping_mul(6_364_136_223_846_793_005)
            .wrapping_add(1_442_695_040_888_963_407);
        (self.state >> 33) as usize % limit
    }

    /// One of the first four workers, or now and then one that isn't there.
    fn worker(&mut self) -> usize {
        if self.below(16) == 0 {
            60 + self.below(8)
        } else {
            self.below(4)
        }
    }

    /// The next step.
    fn step(&mut self) -> Step {
        let worker = self.worker();
        match self.below(10) {
            0..=2 => take(worker, self.below(4)),
            3..=5 => halve(worker),
            6..=7 => descend(worker),
            8 => back(worker),
            _ => search(worker, self.below(3)),
        }
    }
}

/// A schedule that is put together at random.
fn random_steps(alloc: Global, seed: u64) -> Result<Vec<Step>, AllocError> {
    let mut numbers = Numbers { state: seed };
    let mut steps = Vec::new(alloc);
    for _ in 0..STEPS {
        steps.push(numbers.step())?;
    }
    Ok(steps)
}

/// Whether it finds it under a schedule that is put together at random.
fn finds_at_random(alloc: Global, seed: u64) -> Result<bool, Fail> {
    let steps = random_steps(alloc, seed)?;
    finds(alloc, &steps)
}

#[test]
fn random_schedules_lead_to_the_best_roster(rt: HostRuntime) -> Result<(), Fail> {
    for seed in 0..SCHEDULES {
        assert!(rt; finds_at_random(rt.alloc(), seed)?, "schedule {seed}");
    }
    Ok(())
}
