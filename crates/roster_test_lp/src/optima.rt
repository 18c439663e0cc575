//! Programs whose least cost is that in fractions.

use crate::programs::{Chance, Marks, Shape, are_limited, is_near, made};
use std::alloc::{AllocError, Global};
use std::process::Abort;
use std::test::Fail;

/// Solves so many programs of a shape, and compares.
fn compare(
    rt: &impl Abort,
    alloc: Global,
    seed: u64,
    programs: usize,
    shape: Shape,
) -> Result<(), AllocError> {
    let mut chance = Chance(seed);
    let marks = Marks::nothing(alloc);
    for _ in 0..programs {
        let program = made(alloc, &mut chance, shape)?;
        let mut master = program.master(alloc)?;
        master.solve()?;
        let least = program.least(alloc, &marks, 0)?;
        let is_least = is_near(master.value(), least, program.rows());
        assert!(rt; is_least);
        assert!(rt; program.is_within_duals(&master));
        assert!(rt; are_limited(&master));
        assert!(rt; !master.uses_forbidden());
    }
    Ok(())
}

#[test]
fn three_persons(rt: HostRuntime) -> Result<(), Fail> {
    let shape = Shape {
        persons: 3,
        pairings: 4,
        lines: 10,
        units: 30,
    };
    compare(&rt, rt.alloc(), 1, 1500, shape)?;
    Ok(())
}

#[test]
fn four_persons(rt: HostRuntime) -> Result<(), Fail> {
    let shape = Shape {
        persons: 4,
        pairings: 5,
        lines: 14,
        units: 30,
    };
    compare(&rt, rt.alloc(), 2, 1500, shape)?;
    Ok(())
}

#[test]
fn five_persons(rt: HostRuntime) -> Result<(), Fail> {
    let shape = Shape {
        persons: 5,
        pairings: 7,
        lines: 20,
        units: 50,
    };
    compare(&rt, rt.alloc(), 3, 1000, shape)?;
    Ok(())
}

#[test]
fn one_person(rt: HostRuntime) -> Result<(), Fail> {
    let shape = Shape {
        persons: 1,
        pairings: 6,
        lines: 14,
        units: 30,
    };
    compare(&rt, rt.alloc(), 4, 1500, shape)?;
    Ok(())
}

#[test]
fn alike_costs(rt: HostRuntime) -> Result<(), Fail> {
    let shape = Shape {
        persons: 4,
        pairings: 5,
        lines: 16,
        units: 3,
    };
    compare(&rt, rt.alloc(), 5, 1000, shape)?;
    Ok(())
}

#[test]
fn costs_of_nothing(rt: HostRuntime) -> Result<(), Fail> {
    let shape = Shape {
        persons: 4,
        pairings: 6,
        lines: 18,
        units: 1,
    };
    compare(&rt, rt.alloc(), 6, 1000, shape)?;
    Ok(())
}

#[test]
fn few_pairings(rt: HostRuntime) -> Result<(), Fail> {
    let shape = Shape {
        persons: 5,
        pairings: 2,
        lines: 10,
        units: 20,
    };
    compare(&rt, rt.alloc(), 7, 1500, shape)?;
    Ok(())
}

#[test]
fn many_lines(rt: HostRuntime) -> Result<(), Fail> {
    let shape = Shape {
        persons: 3,
        pairings: 6,
        lines: 40,
        units: 100,
    };
    compare(&rt, rt.alloc(), 8, 300, shape)?;
    Ok(())
}

#[test]
fn far_costs(rt: HostRuntime) -> Result<(), Fail> {
    let shape = Shape {
        persons: 4,
        pairings: 5,
        lines: 14,
        units: 100000,
    };
    compare(&rt, rt.alloc(), 9, 1000, shape)?;
    Ok(())
}

#[test]
fn six_persons(rt: HostRuntime) -> Result<(), Fail> {
    let shape = Shape {
        persons: 6,
        pairings: 8,
        lines: 30,
        units: 20,
    };
    compare(&rt, rt.alloc(), 10, 200, shape)?;
    Ok(())
}
