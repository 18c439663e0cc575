//! Programs without persons, pairings or anything to choose, and with costs far out.

use crate::programs::{Line, Marks, SCALE, Small, are_limited, is_near};
use roster_search_lp::Master;
use roster_values::Set;
use std::alloc::{AllocError, Global};
use std::test::Fail;

/// The set of the first so many pairings from a place on.
fn set_of(from: usize, count: usize) -> Set {
    let mut set = Set::empty();
    for p in from..from.saturating_add(count).min(512) {
        set.put(p);
    }
    set
}

#[test]
fn nobody_and_nothing(rt: HostRuntime) -> Result<(), Fail> {
    let mut master = Master::new(rt.alloc(), &[], &[], SCALE)?;
    master.solve()?;
    assert_eq!(rt; master.value(), 0);
    assert_eq!(rt; master.columns(), 4);
    assert_eq!(rt; master.person_dual(0), 0);
    assert_eq!(rt; master.open_share(0), 0);
    Ok(())
}

#[test]
fn persons_without_pairings(rt: HostRuntime) -> Result<(), Fail> {
    let mut master = Master::new(rt.alloc(), &[7, -3], &[], SCALE)?;
    master.solve()?;
    assert_eq!(rt; master.value(), 4);
    assert_eq!(rt; master.person_dual(1), -3);
    Ok(())
}

#[test]
fn pairings_without_persons(rt: HostRuntime) -> Result<(), Fail> {
    let mut master = Master::new(rt.alloc(), &[], &[7, 5], SCALE)?;
    master.solve()?;
    assert_eq!(rt; master.value(), 12);
    assert_eq!(rt; master.prices(), [7, 5].as_slice());
    assert_eq!(rt; master.open_share(1), 1000);
    Ok(())
}

#[test]
fn a_person_who_has_no_line(rt: HostRuntime) -> Result<(), Fail> {
    let mut master = Master::new(rt.alloc(), &[0, 0], &[1 << 20, 1 << 20], SCALE)?;
    assert_eq!(rt; master.persons(), 2);
    master.add(0, &set_of(0, 1), 1 << 10)?;
    master.solve()?;
    assert_eq!(rt; master.value(), (1 << 20) + (1 << 10));
    assert_eq!(rt; master.open_share(0), 0);
    assert_eq!(rt; master.open_share(1), 1000);
    Ok(())
}

#[test]
fn a_pairing_that_must_be_flown_and_that_nobody_can_have(rt: HostRuntime) -> Result<(), Fail> {
    let mut master = Master::new(rt.alloc(), &[0], &[1 << 20], SCALE)?;
    master.mark(&[], &set_of(0, 1), &Set::empty())?;
    master.solve()?;
    assert!(rt; master.uses_forbidden());
    for _ in 0..5 {
        assert!(rt; master.raise());
        master.solve()?;
        assert!(rt; master.uses_forbidden());
    }
    assert!(rt; !master.raise());
    master.mark(&[], &Set::empty(), &Set::empty())?;
    master.solve()?;
    assert!(rt; !master.uses_forbidden());
    assert_eq!(rt; master.value(), 1 << 20);
    Ok(())
}

/// A program of three persons and three pairings in which some lines cost so much.
fn far(alloc: Global, cost: i64) -> Result<Small, AllocError> {
    let mut program = Small {
        idle: vec![in alloc; 0; 3]?,
        penalties: vec![in alloc; 1 << 30; 3]?,
        lines: Vec::new(alloc),
    };
    for k in 0..3 {
        for count in 1..4 {
            let less = i64::from(SCALE).wrapping_mul(k as i64);
            program.lines.push(Line {
                k,
                set: set_of(0, count),
                cost: cost.wrapping_add(less),
            })?;
        }
    }
    Ok(program)
}

#[test]
fn costs_far_out(rt: HostRuntime) -> Result<(), Fail> {
    for bits in 30..52_u32 {
        let far_out = 1_i64.wrapping_shl(bits);
        for cost in [far_out, far_out.wrapping_neg()] {
            let program = far(rt.alloc(), cost)?;
            let mut master = program.master(rt.alloc())?;
            master.solve()?;
            let least = program.least(rt.alloc(), &Marks::nothing(rt.alloc()), 0)?;
            // What is computed in words has some 40 bits behind the point.
            let is_least = is_near(master.value(), least, 1 << 10);
            assert!(rt; is_least);
            assert!(rt; are_limited(&master));
        }
    }
    Ok(())
}

#[test]
fn costs_that_no_word_holds_twice(rt: HostRuntime) -> Result<(), Fail> {
    for cost in [i64::MAX, i64::MIN, i64::MAX - 1, i64::MIN + 1] {
        let mut master = Master::new(rt.alloc(), &[cost, 0], &[cost, cost], u32::MAX)?;
        assert_eq!(rt; master.persons(), 2);
        master.add(0, &set_of(0, 2), cost)?;
        assert_eq!(rt; master.persons(), 2);
        master.add(1, &set_of(1, 1), cost)?;
        master.solve()?;
        assert!(rt; are_limited(&master));
    }
    Ok(())
}

#[test]
fn counts_that_cannot_be_kept(rt: HostRuntime) -> Result<(), Fail> {
    let mut master = Master::new(rt.alloc(), &[0], &[1 << 20, 1 << 20], SCALE)?;
    master.count_open(0, 1)?;
    master.solve()?;
    assert!(rt; master.uses_forbidden());
    master.count_open(2, 1)?;
    master.solve()?;
    assert!(rt; master.uses_forbidden());
    master.count_open(9, 9)?;
    master.solve()?;
    assert!(rt; !master.uses_forbidden());
    assert_eq!(rt; master.value(), 1 << 21);
    Ok(())
}

#[test]
fn pairings_past_the_last(rt: HostRuntime) -> Result<(), Fail> {
    let mut master = Master::new(rt.alloc(), &[0], &[1 << 20], SCALE)?;
    assert_eq!(rt; master.persons(), 1);
    master.add(0, &set_of(0, 512), 0)?;
    master.solve()?;
    assert_eq!(rt; master.value(), 0);
    Ok(())
}
