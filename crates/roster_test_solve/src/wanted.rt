//! The lines that are wanted, beside all lines.

ghost use Rattle.std.specs.Prelude.{◌<◌, ◌≤◌, IfOk};
ghost use Rattle.roster_lines_table.specs.Person.{AreListed};

use crate::books::problem_of_days;
use crate::lines::{COSTS, TWO_DAYS, set_of};
use roster_lines::{
    Between, LinesFault, TableFault, Wanted, all_pairs, lines_between, lines_of, wanted_lines,
    wanted_table,
};
use roster_lines_table::{Lines, Table};
use roster_model::limits::MOST_LINES;
use roster_problem::Problem;
use roster_test_books::problem_of;
use roster_values::Set;
use std::alloc::Global;
use std::process::Abort;
use std::test::Fail;
use std::thread::Threads;

/// No line is wanted.
#[derive(Clone, Copy)]
struct Nothing;

impl Wanted for Nothing {
    ghost wants = { λ nothing problem k set. ⊥ };

    fn among(&self, alone: &Set) -> Set {
        *alone
    }

    fn goes_on(&self, _: &Problem, _: usize, _: &Set, _: usize, _: i64, _: u64) -> bool {
        false
    }
}

/// The lines of the first person between the two sets, no more than `most`, of a problem that is gone
/// then.
fn between(
    rt: &impl Abort,
    alloc: Global,
    problem: Problem,
    must: &[usize],
    may: &[usize],
    most: usize,
) -> Result<Lines, LinesFault>
    requires { (0 < most) × (most ≤ MOST_LINES) }
{
    assert!(rt; problem.persons().len() > 0);
    lines_between(alloc, &problem, 0, set_of(must), set_of(may), most)
}

/// Whether the two have the same sets at the same cost.
fn are_same(a: &Lines, b: &Lines) -> bool {
    if a.width() != b.width() {
        return false;
    }
    for i in 0..a.width() {
        if a.set(i) != b.set(i) || a.cost(i) != b.cost(i) {
            return false;
        }
    }
    true
}

/// Checks that the lines between nothing and all pairings of the two days are all lines.
fn are_all(rt: &impl Abort, alloc: Global, problem: &Problem) -> Result<(), Fail> {
    assert!(rt; problem.persons().len() == 1);
    let every = set_of(&[0, 1, 2, 3, 4, 5, 6, 7, 8, 9]);
    let lines = lines_between(alloc, problem, 0, set_of(&[]), every, MOST_LINES)?;
    let all = lines_of(alloc, problem, 0)?;
    assert!(rt; are_same(&lines, &all));
    Ok(())
}

#[test]
fn between_nothing_and_all_are_all_lines(rt: HostRuntime) -> Result<(), Fail> {
    let problem = problem_of_days(rt.alloc(), &TWO_DAYS)?;
    are_all(&rt, rt.alloc(), &problem)
}

/// Checks the lines that hold the eighth pairing, and may hold the first or the sixth, which is on the
/// day of the eighth. Those that hold none of the second day but the sixth are on the way.
fn go_by_the_sixth(rt: &impl Abort, lines: &Lines) {
    assert!(rt; lines.width() == 6);
    assert!(rt; lines.find(&set_of(&[])) == Some(0));
    assert!(rt; lines.find(&set_of(&[0])) == Some(1));
    assert!(rt; lines.find(&set_of(&[0, 5])) == Some(2));
    assert!(rt; lines.find(&set_of(&[0, 7])) == Some(3));
    assert!(rt; lines.find(&set_of(&[5])) == Some(4));
    assert!(rt; lines.find(&set_of(&[7])) == Some(5));
}

#[test]
fn lines_hold_what_they_must(rt: HostRuntime) -> Result<(), Fail> {
    let problem = problem_of_days(rt.alloc(), &TWO_DAYS)?;
    let lines = between(&rt, rt.alloc(), problem, &[7], &[0, 5], MOST_LINES)?;
    go_by_the_sixth(&rt, &lines);
    Ok(())
}

/// Checks the lines that hold the sixth pairing, and may hold the first or the last.
fn end_by_the_sixth(rt: &impl Abort, lines: &Lines) {
    assert!(rt; lines.width() == 4);
    assert!(rt; lines.find(&set_of(&[0, 5])) == Some(2));
    assert!(rt; lines.find(&set_of(&[5])) == Some(3));
}

#[test]
fn nothing_stands_behind_what_is_missing(rt: HostRuntime) -> Result<(), Fail> {
    let problem = problem_of_days(rt.alloc(), &TWO_DAYS)?;
    let lines = between(&rt, rt.alloc(), problem, &[5], &[0, 9], 4)?;
    end_by_the_sixth(&rt, &lines);
    Ok(())
}

#[test]
fn more_lines_than_so_many_are_not_listed(rt: HostRuntime) -> Result<(), Fail> {
    let problem = problem_of_days(rt.alloc(), &TWO_DAYS)?;
    let lines = between(&rt, rt.alloc(), problem, &[5], &[0, 9], 3);
    assert!(rt; matches!(lines, Err(LinesFault::TooMany)));
    Ok(())
}

/// Checks what the lines of A cost.
fn cost_as_among_all(rt: &impl Abort, lines: &Lines) {
    let costs = [1000, 47, 417, 490];
    assert!(rt; lines.width() == 4);
    for i in 0..4 {
        assert!(rt; lines.cost(i) == costs[i]);
    }
}

#[test]
fn lines_between_cost_what_they_do_among_all(rt: HostRuntime) -> Result<(), Fail> {
    let problem = problem_of(rt.alloc(), COSTS)?;
    let lines = between(&rt, rt.alloc(), problem, &[1], &[0], MOST_LINES)?;
    cost_as_among_all(&rt, &lines);
    Ok(())
}

/// The lines of the one person if nothing is wanted, of a problem that is gone then.
fn with_nothing(rt: &impl Abort, alloc: Global, problem: Problem) -> Result<Lines, LinesFault> {
    assert!(rt; problem.persons().len() == 1);
    wanted_lines(alloc, &problem, 0, &Nothing, 1)
}

#[test]
fn the_empty_line_is_there_if_nothing_is_wanted(rt: HostRuntime) -> Result<(), Fail> {
    let problem = problem_of_days(rt.alloc(), &TWO_DAYS)?;
    let lines = with_nothing(&rt, rt.alloc(), problem)?;
    assert!(rt; lines.width() == 1 && lines.set(0).is_empty());
    Ok(())
}

/// The table of the lines of the one person that hold the sixth pairing, and may hold the first and the
/// last, no more than `most`.
fn table_with_the_sixth<R: Abort + Threads + Sync>(
    rt: &R,
    alloc: Global,
    problem: &Problem,
    most: usize,
) -> Result<Table, TableFault>
    requires { (0 < most) × (most ≤ MOST_LINES) }
    ensures { IfOk result (AreListed problem.now) }
{
    assert!(rt; problem.persons().len() == 1);
    let wanted = [Between {
        must: set_of(&[5]),
        may: set_of(&[0, 9]),
    }];
    let pairs = all_pairs(rt, alloc, problem, 2)?;
    wanted_table(alloc, problem, &pairs, &wanted, most)
}

/// Checks the table of no more than four such lines.
fn has_the_sixth<R: Abort + Threads + Sync>(
    rt: &R,
    alloc: Global,
    problem: &Problem,
) -> Result<(), Fail> {
    assert!(rt; problem.persons().len() == 1);
    let table = table_with_the_sixth(rt, alloc, problem, 4)?;
    assert!(rt; table.width(0) == 4 && table.find(0, &set_of(&[0, 5])) == Some(2));
    Ok(())
}

#[test]
fn a_table_has_the_lines_that_are_wanted(rt: HostRuntime) -> Result<(), Fail> {
    let problem = problem_of_days(rt.alloc(), &TWO_DAYS)?;
    has_the_sixth(&rt, rt.alloc(), &problem)
}

#[test]
fn a_table_is_told_who_has_more_than_so_many(rt: HostRuntime) -> Result<(), Fail> {
    let problem = problem_of_days(rt.alloc(), &TWO_DAYS)?;
    let table = table_with_the_sixth(&rt, rt.alloc(), &problem, 3);
    assert!(rt; matches!(table, Err(TableFault::TooMany(0))));
    Ok(())
}
