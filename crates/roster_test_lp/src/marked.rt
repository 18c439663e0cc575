//! Programs with forbidden columns.

use crate::programs::{Chance, SCALE, Shape, is_near, made, made_marks};
use roster_search_lp::Master;
use std::alloc::{AllocError, Global};
use std::process::Abort;
use std::test::Fail;

/// More than all that is allowed costs together: what costs so much less a half uses what is forbidden.
const FORBIDDEN: i64 = 1 << 50;

/// Solves it, with forbidden columns as dear as they must be.
fn solve_dearly(master: &mut Master) -> Result<(), AllocError> {
    master.solve()?;
    for _ in 0..8 {
        if !master.uses_forbidden() || !master.raise() {
            break;
        }
        master.solve()?;
    }
    Ok(())
}

/// Solves so many programs of a shape, marks each three times, and compares; then without marks again.
fn compare(
    rt: &impl Abort,
    alloc: Global,
    seed: u64,
    programs: usize,
    shape: Shape,
) -> Result<(), AllocError> {
    let mut chance = Chance(seed);
    let mut possible: usize = 0;
    let mut impossible: usize = 0;
    for _ in 0..programs {
        let program = made(alloc, &mut chance, shape)?;
        let mut master = program.master(alloc)?;
        for _ in 0..3 {
            let marks = made_marks(alloc, &mut chance, &program)?;
            master.mark(&marks.allowed, &marks.flown, &marks.left_open)?;
            master.count_open(marks.least, marks.most)?;
            solve_dearly(&mut master)?;
            let least = program.least(alloc, &marks, FORBIDDEN)?;
            if least.numerator < i128::from(FORBIDDEN / 2) {
                assert!(rt; is_near(master.value(), least, program.rows()));
                assert!(rt; !master.uses_forbidden());
                possible = possible.saturating_add(1);
            } else {
                // Prices pay more than any line costs, or something is used that may not be.
                let dearest = i64::from(SCALE).wrapping_mul(shape.units.min(1000) as i64);
                assert!(rt; master.uses_forbidden() || master.value() > dearest);
                impossible = impossible.saturating_add(1);
            }
        }
    }
    // Both kinds came.
    assert!(rt; possible > programs / 4);
    assert!(rt; impossible > programs / 4);
    Ok(())
}

#[test]
fn three_persons(rt: HostRuntime) -> Result<(), Fail> {
    let shape = Shape {
        persons: 3,
        pairings: 4,
        lines: 16,
        units: 30,
    };
    compare(&rt, rt.alloc(), 11, 250, shape)?;
    Ok(())
}

#[test]
fn five_persons(rt: HostRuntime) -> Result<(), Fail> {
    let shape = Shape {
        persons: 5,
        pairings: 6,
        lines: 40,
        units: 40,
    };
    compare(&rt, rt.alloc(), 12, 250, shape)?;
    Ok(())
}

#[test]
fn alike_costs(rt: HostRuntime) -> Result<(), Fail> {
    let shape = Shape {
        persons: 4,
        pairings: 5,
        lines: 30,
        units: 2,
    };
    compare(&rt, rt.alloc(), 13, 250, shape)?;
    Ok(())
}
