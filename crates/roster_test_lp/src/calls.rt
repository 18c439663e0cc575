//! Each public call, on numbers that are found by hand, and the same numbers again from the same calls.

use crate::programs::{Chance, SCALE, Shape, Small, made};
use roster_search_lp::{Allowed, Master};
use roster_values::Set;
use std::alloc::{AllocError, Global};
use std::process::Abort;
use std::test::Fail;

/// One unit in parts.
const UNIT: i64 = SCALE as i64;

/// A set of one pairing.
fn one(p: usize) -> Set {
    let mut set = Set::empty();
    if p < 512 {
        set.put(p);
    }
    set
}

/// A set of two pairings.
fn two(p: usize, q: usize) -> Set {
    let mut set = one(p);
    if q < 512 {
        set.put(q);
    }
    set
}

/// Two persons and two pairings at penalties of 10. The first has pairing 0 for 5, and both for 20; the
/// second has pairing 1 for 7.
fn pair(rt: &impl Abort, alloc: Global) -> Result<Master, AllocError> {
    let mut master = Master::new(alloc, &[0, 0], &[10 * UNIT, 10 * UNIT], SCALE)?;
    assert!(rt; master.persons() == 2);
    assert!(rt; master.add(0, &one(0), 5 * UNIT)?);
    assert!(rt; master.persons() == 2);
    assert!(rt; master.add(0, &two(0, 1), 20 * UNIT)?);
    assert!(rt; master.persons() == 2);
    assert!(rt; master.add(1, &one(1), 7 * UNIT)?);
    Ok(master)
}

#[test]
fn lines_are_found_again(rt: HostRuntime) -> Result<(), Fail> {
    let mut master = pair(&rt, rt.alloc())?;
    assert_eq!(rt; master.columns(), 11);
    assert!(rt; master.has(0, &two(0, 1)));
    assert!(rt; master.has(1, &Set::empty()));
    assert!(rt; !master.has(1, &one(0)));
    assert!(rt; !master.has(2, &one(0)));
    assert_eq!(rt; master.persons(), 2);
    assert!(rt; !master.add(0, &one(0), 3 * UNIT)?);
    assert_eq!(rt; master.columns(), 11);
    Ok(())
}

#[test]
fn each_has_a_line(rt: HostRuntime) -> Result<(), Fail> {
    let mut master = pair(&rt, rt.alloc())?;
    master.solve()?;
    assert_eq!(rt; master.value(), 12 * UNIT);
    assert_eq!(rt; master.prices().len(), 2);
    let mut paid = master.person_dual(0).saturating_add(master.person_dual(1));
    for price in master.prices() {
        paid = paid.saturating_add(*price);
    }
    assert_eq!(rt; paid, 12 * UNIT);
    let mut shares = [7; 3];
    master.put_shares(0, &mut shares);
    assert_eq!(rt; shares, [1000, 0, 0]);
    master.put_shares(1, &mut shares);
    assert_eq!(rt; shares, [0, 1000, 0]);
    assert_eq!(rt; master.open_share(0), 0);
    assert!(rt; !master.uses_forbidden());
    Ok(())
}

#[test]
fn marks_hold_until_the_next(rt: HostRuntime) -> Result<(), Fail> {
    let mut master = pair(&rt, rt.alloc())?;
    let nothing = Set::empty();
    // The second can't have pairing 1, so it is left open; if it must be flown, the first has both.
    let allowed = [
        Allowed {
            possible: two(0, 1),
            certain: nothing,
        },
        Allowed {
            possible: nothing,
            certain: nothing,
        },
    ];
    master.mark(&allowed, &nothing, &nothing)?;
    master.solve()?;
    assert_eq!(rt; master.value(), 15 * UNIT);
    assert_eq!(rt; master.open_share(1), 1000);
    master.mark(&allowed, &one(1), &nothing)?;
    master.solve()?;
    assert_eq!(rt; master.value(), 20 * UNIT);
    master.mark(&allowed, &nothing, &one(0))?;
    master.solve()?;
    assert_eq!(rt; master.value(), 20 * UNIT);
    assert_eq!(rt; master.open_share(0), 1000);
    master.mark(&[], &nothing, &nothing)?;
    master.solve()?;
    assert_eq!(rt; master.value(), 12 * UNIT);
    Ok(())
}

#[test]
fn dear_solutions_are_left(rt: HostRuntime) -> Result<(), Fail> {
    let mut master = pair(&rt, rt.alloc())?;
    master.solve()?;
    // Nobody may have pairing 1, which must be flown. Prices say so by just as much as a solution may cost.
    let nothing = Set::empty();
    let allowed = [
        Allowed {
            possible: one(0),
            certain: nothing,
        },
        Allowed {
            possible: nothing,
            certain: nothing,
        },
    ];
    master.begin(30 * UNIT)?;
    master.mark(&allowed, &one(1), &nothing)?;
    master.solve()?;
    assert!(rt; master.uses_forbidden());
    assert!(rt; master.value() > 29 * UNIT);
    assert!(rt; master.value() < 31 * UNIT);
    master.begin(i64::MAX)?;
    master.mark(&[], &nothing, &nothing)?;
    master.solve()?;
    assert_eq!(rt; master.value(), 12 * UNIT);
    assert!(rt; !master.uses_forbidden());
    Ok(())
}

#[test]
fn open_pairings_are_counted(rt: HostRuntime) -> Result<(), Fail> {
    let mut master = pair(&rt, rt.alloc())?;
    master.solve()?;
    assert_eq!(rt; master.open_count(), 0);
    assert_eq!(rt; master.count_dual(), 0);
    // The second pairing costs 3 more to leave open, and the first 5.
    master.count_open(1, 2)?;
    master.solve()?;
    assert_eq!(rt; master.value(), 15 * UNIT);
    assert_eq!(rt; master.open_count(), 1000);
    assert_eq!(rt; master.open_share(1), 1000);
    assert!(rt; master.count_dual() >= 3 * UNIT && master.count_dual() <= 5 * UNIT);
    master.count_open(2, 2)?;
    master.solve()?;
    assert_eq!(rt; master.value(), 20 * UNIT);
    master.count_open(0, 0)?;
    master.solve()?;
    assert_eq!(rt; master.value(), 12 * UNIT);
    assert!(rt; master.count_dual() <= 0);
    master.count_open(0, 2)?;
    master.solve()?;
    assert_eq!(rt; master.value(), 12 * UNIT);
    assert_eq!(rt; master.count_dual(), 0);
    Ok(())
}

#[test]
fn a_roster_to_begin_with(rt: HostRuntime) -> Result<(), Fail> {
    let mut master = pair(&rt, rt.alloc())?;
    assert_eq!(rt; master.persons(), 2);
    master.enter(0, &two(0, 1), 20 * UNIT)?;
    assert_eq!(rt; master.persons(), 2);
    master.enter(1, &one(0), UNIT)?;
    assert!(rt; master.has(1, &one(0)));
    assert_eq!(rt; master.columns(), 12);
    master.solve()?;
    assert_eq!(rt; master.value(), 11 * UNIT);
    Ok(())
}

/// A program of eight persons and sixteen pairings, or fewer, and 300 lines.
fn large(alloc: Global) -> Result<Small, AllocError> {
    let shape = Shape {
        persons: 8,
        pairings: 16,
        lines: 300,
        units: 60,
    };
    let mut chance = Chance(77);
    let mut program = made(alloc, &mut chance, shape)?;
    for _ in 0..20 {
        if program.lines.len() > 100 && program.rows() > 18 {
            break;
        }
        program = made(alloc, &mut chance, shape)?;
    }
    Ok(program)
}

#[test]
fn columns_that_nobody_uses_go(rt: HostRuntime) -> Result<(), Fail> {
    let program = large(rt.alloc())?;
    let mut master = program.master(rt.alloc())?;
    master.solve()?;
    let value = master.value();
    let columns = master.columns();
    assert!(rt; columns > 110);
    master.forget(rt.alloc(), columns)?;
    assert_eq!(rt; master.columns(), columns);
    master.forget(rt.alloc(), 60)?;
    assert_eq!(rt; master.columns(), 60);
    let mut left = 0;
    for line in &program.lines {
        if master.has(line.k, &line.set) {
            left += i32::from(left < 1000);
        }
    }
    assert_eq!(rt;
        usize::try_from(left)
            .unwrap_or(0)
            .saturating_add(program.rows())
            .saturating_add(2),
        60
    );
    master.solve()?;
    assert_eq!(rt; master.value(), value);
    for line in &program.lines {
        if line.k < master.persons() {
            master.add(line.k, &line.set, line.cost)?;
        }
    }
    assert_eq!(rt; master.columns(), columns);
    master.solve()?;
    assert_eq!(rt; master.value(), value);
    Ok(())
}

#[test]
fn the_same_calls_give_the_same_numbers(rt: HostRuntime) -> Result<(), Fail> {
    let program = large(rt.alloc())?;
    let mut one = program.master(rt.alloc())?;
    let mut other = program.master(rt.alloc())?;
    one.solve()?;
    other.solve()?;
    assert_eq!(rt; one.value(), other.value());
    assert!(rt; one.prices() == other.prices());
    Ok(())
}

#[test]
fn each_row_is_held_whole(rt: HostRuntime) -> Result<(), Fail> {
    let program = large(rt.alloc())?;
    let mut master = program.master(rt.alloc())?;
    master.solve()?;
    assert!(rt; program.is_within_duals(&master));
    let mut covers = [0_u32; 16];
    let mut shares = [0_u32; 16];
    for k in 0..program.idle.len() {
        master.put_shares(k, &mut shares);
        for (cover, share) in covers.iter_mut().zip(&shares) {
            *cover = cover.saturating_add(*share);
        }
    }
    for p in 0..program.penalties.len() {
        let cover = covers.get(p).copied().unwrap_or(0);
        // Each of a few shares is rounded.
        assert!(rt; cover.saturating_add(master.open_share(p)).abs_diff(1000) < 20);
    }
    Ok(())
}
