//! The lines of persons, and their numbers.

ghost use Rattle.roster_lines_table.specs.Person.{IsTableOf};

use crate::books::{problem_of_days, problem_with};
use roster_lines::{LinesFault, TableFault, all_lines, lines_of, table_of};
use roster_lines_table::{
    Lines, SharedLines, Table, all_lines_are_some, few_are_not_crowded, has_numbers,
    nobody_is_crowded, one_list_of_lines, one_list_of_numbers,
};
use roster_model::limits::MOST_PAIRINGS;
use roster_problem::Problem;
use roster_test_books::problem_of;
use roster_values::Set;
use std::alloc::{AllocError, Global};
use std::process::Abort;
use std::test::Fail;
use std::thread::Threads;

/// Five pairings on one day, and five on the next.
pub const TWO_DAYS: [u8; 10] = [4, 4, 4, 4, 4, 5, 5, 5, 5, 5];

/// Eight pairings on the first day, and one on every other day after it: more than `MOST_LINES` sets.
const MANY: [u8; 23] = [
    1, 1, 1, 1, 1, 1, 1, 1, 3, 5, 7, 9, 11, 13, 15, 17, 19, 21, 23, 25, 27, 29, 31,
];

/// On those two days B is away on the first, and C on the second.
const THREE: &[u8] = b"crew,A,BAS,0,0,0
crew,B,BAS,0,0,0
crew,C,BAS,0,0,0
leave,B,2024-03-04T00:00Z,2024-03-05T00:00Z
leave,C,2024-03-05T00:00Z,2024-03-06T00:00Z
";

/// A and C are away for the month.
const FOUR: &[u8] = b"crew,A,BAS,0,0,0
crew,B,BAS,0,0,0
crew,C,BAS,0,0,0
crew,D,BAS,0,0,0
leave,A,2024-03-01T00:00Z,2024-04-01T00:00Z
leave,C,2024-03-01T00:00Z,2024-04-01T00:00Z
";

/// A has a target of 500 minutes, and B none, but a fixed duty with 60 minutes of flight. P1 flies 480
/// minutes, and P2 240. Each minute that a target is missed by costs 2.
pub const COSTS: &[u8] = b"period,2024-03
weight,2
base,BAS,UTC0
crew,A,BAS,500,0,0
crew,B,BAS,0,0,0
pairing,P1,BAS,100
pairing,P2,BAS,50
duty,Q1,P,P1,BAS,2024-03-04T06:00Z,2024-03-04T14:00Z
sector,Q1,O,2024-03-04T06:00Z,2024-03-04T14:00Z
duty,Q2,P,P2,BAS,2024-03-12T06:00Z,2024-03-12T14:00Z
sector,Q2,O,2024-03-12T08:00Z,2024-03-12T12:00Z
duty,Q3,C,B,BAS,2024-03-20T06:00Z,2024-03-20T10:00Z
sector,Q3,O,2024-03-20T07:00Z,2024-03-20T08:00Z
cost,A,P1,7
cost,A,P2,-30
";

/// The set of these pairings.
pub fn set_of(pairings: &[usize]) -> Set {
    let mut places = [1; MOST_PAIRINGS];
    for p in pairings {
        if *p < MOST_PAIRINGS {
            places[*p] = 0;
        }
    }
    Set::of_places(&places, 0)
}

/// Whether the line with this number is the one of these pairings.
fn stands(lines: &Lines, pairings: &[usize], number: usize) -> bool {
    lines.find(&set_of(pairings)) == Some(number)
}

/// Whether any number of threads makes the table that is made without them.
fn do_threads_agree<R: Threads + Sync>(
    rt: &R,
    alloc: Global,
    problem: &Problem,
) -> Result<bool, TableFault> {
    let table = table_of(alloc, problem)?;
    for workers in [1, 2, 3, 8, 64] {
        let shared = all_lines(rt, alloc, problem, workers)?;
        if !are_same(problem, &table, &shared) {
            return Ok(false);
        }
    }
    Ok(true)
}

/// Checks that they do.
fn threads_agree<R: Abort + Threads + Sync>(
    rt: &R,
    alloc: Global,
    problem: &Problem,
) -> Result<(), Fail> {
    assert!(rt; do_threads_agree(rt, alloc, problem)?);
    Ok(())
}

/// Whether two tables of the problem are the same.
fn are_same(problem: &Problem, a: &Table, b: &Table) -> bool
    requires a { IsTableOf problem.now a.now }
    requires b { IsTableOf problem.now b.now }
{
    for k in 0..problem.persons().len() {
        let width = a.width(k);
        if b.width(k) != width {
            return false;
        }
        for i in 0..width {
            if a.set(k, i) != b.set(k, i) || a.cost(k, i) != b.cost(k, i) {
                return false;
            }
        }
    }
    true
}

/// The lines of the first person, who is the only one, of a problem that is gone then.
fn first_lines(rt: &impl Abort, alloc: Global, problem: Problem) -> Result<Lines, LinesFault> {
    assert!(rt; problem.persons().len() == 1);
    lines_of(alloc, &problem, 0)
}

/// The lines of the one person of the book with pairings on these days.
fn lines_with(rt: &impl Abort, alloc: Global, days: &[u8]) -> Result<Lines, Fail> {
    let problem = problem_of_days(alloc, days)?;
    Ok(first_lines(rt, alloc, problem)?)
}

/// Checks that the lines are the one without a pairing, and each pairing alone.
fn are_alone(rt: &impl Abort, lines: &Lines) {
    assert!(rt; lines.width() == MOST_PAIRINGS + 1);
    assert!(rt; lines.set(0).is_empty());
    for i in 1..MOST_PAIRINGS + 1 {
        assert!(rt; lines.set(i) == set_of(&[i - 1]));
        assert!(rt; lines.run_of(i - 1) == (i, i + 1));
    }
}

#[test]
fn pairings_of_one_day_are_lines_alone(rt: HostRuntime) -> Result<(), Fail> {
    let lines = lines_with(&rt, rt.alloc(), &[4; MOST_PAIRINGS])?;
    are_alone(&rt, &lines);
    Ok(())
}

/// Checks the numbers of all lines of the two days.
fn are_in_order(rt: &impl Abort, lines: &Lines) {
    assert!(rt; lines.width() == 36);
    for i in 0..36 {
        assert!(rt; lines.find(&lines.set(i)) == Some(i));
    }
    for first in 0..5 {
        assert!(rt; stands(lines, &[first], 6 * first + 1));
        for second in 5..10 {
            assert!(rt; stands(lines, &[first, second], 6 * first + second - 3));
        }
    }
    for second in 5..10 {
        assert!(rt; stands(lines, &[second], second + 26));
    }
}

#[test]
fn lines_of_two_days(rt: HostRuntime) -> Result<(), Fail> {
    let lines = lines_with(&rt, rt.alloc(), &TWO_DAYS)?;
    are_in_order(&rt, &lines);
    Ok(())
}

#[test]
fn sets_that_are_no_lines_are_not_found(rt: HostRuntime) -> Result<(), Fail> {
    let lines = lines_with(&rt, rt.alloc(), &TWO_DAYS)?;
    assert!(rt; lines.find(&set_of(&[0, 1])).is_none());
    assert!(rt; lines.find(&set_of(&[0, 5, 6])).is_none());
    assert!(rt; lines.find(&set_of(&[10])).is_none());
    Ok(())
}

/// Checks where the lines of each least pairing of the two days stand.
fn stand_together(rt: &impl Abort, lines: &Lines) {
    for p in 0..5 {
        assert!(rt; lines.run_of(p) == (6 * p + 1, 6 * p + 7));
    }
    for p in 5..10 {
        assert!(rt; lines.run_of(p) == (p + 26, p + 27));
    }
    assert!(rt; lines.run_of(10) == (36, 36));
}

#[test]
fn lines_of_a_least_pairing_stand_together(rt: HostRuntime) -> Result<(), Fail> {
    let lines = lines_with(&rt, rt.alloc(), &TWO_DAYS)?;
    stand_together(&rt, &lines);
    Ok(())
}

/// Checks what the lines of A and of B cost.
fn table_costs(rt: &impl Abort, problem: &Problem, table: &Table)
    requires table { IsTableOf problem.now table.now }
{
    assert!(rt; problem.persons().len() == 2);
    let costs = [[1000, 47, 417, 490], [120, 1080, 1560, 600]];
    for k in 0..2 {
        assert!(rt; table.width(k) == 4);
        for i in 0..4 {
            assert!(rt; table.cost(k, i) == costs[k][i]);
        }
    }
}

/// Makes the table of A and B, and checks what their lines cost.
fn table_has_costs(rt: &impl Abort, alloc: Global, problem: &Problem) -> Result<(), Fail> {
    let table = table_of(alloc, problem)?;
    table_costs(rt, problem, &table);
    Ok(())
}

#[test]
fn lines_cost_their_units_and_the_missed_target(rt: HostRuntime) -> Result<(), Fail> {
    let problem = problem_of(rt.alloc(), COSTS)?;
    table_has_costs(&rt, rt.alloc(), &problem)
}

/// Checks which lines of the two days some of them go on from.
fn go_on(rt: &impl Abort, lines: &Lines) {
    assert!(rt; lines.width() == 36);
    assert!(rt; lines.cost(35) == 0);
    assert!(rt; lines.parent_and_last(1) == (0, 0));
    assert!(rt; lines.parent_and_last(2) == (1, 5));
    assert!(rt; lines.parent_and_last(35) == (0, 9));
}

/// Checks what rows of the two days have behind those before them.
fn have_behind(rt: &impl Abort, lines: &Lines) {
    let rows = lines.rows();
    assert!(rt; rows.len() == 36);
    assert!(rt; (rows[0].depth, rows[0].cost) == (0, 0));
    assert!(rt; (rows[1].depth, rows[1].last) == (1, 0));
    assert!(rt; (rows[2].depth, rows[2].last) == (2, 5));
    assert!(rt; (rows[6].depth, rows[6].last) == (2, 9));
    assert!(rt; (rows[7].depth, rows[7].last) == (1, 1));
    assert!(rt; (rows[35].depth, rows[35].last) == (1, 9));
}

#[test]
fn rows_have_their_last_pairing_behind_those_before(rt: HostRuntime) -> Result<(), Fail> {
    let lines = lines_with(&rt, rt.alloc(), &TWO_DAYS)?;
    have_behind(&rt, &lines);
    Ok(())
}

#[test]
fn lines_go_on_from_earlier_ones(rt: HostRuntime) -> Result<(), Fail> {
    let lines = lines_with(&rt, rt.alloc(), &TWO_DAYS)?;
    go_on(&rt, &lines);
    Ok(())
}

/// Checks the table of the one person of the two days.
fn has_lines(rt: &impl Abort, problem: &Problem, table: &Table)
    requires table { IsTableOf problem.now table.now }
{
    assert!(rt; problem.persons().len() == 1);
    assert!(rt; table.width(0) == 36);
    assert!(rt; table.lines(0).width() == 36);
    assert!(rt; table.set(0, 2) == set_of(&[0, 5]));
    assert!(rt; table.find(0, &set_of(&[9])) == Some(35));
    assert!(rt; table.run_of(0, 4) == (25, 31));
}

/// Makes that table, and checks it.
fn table_has_lines(rt: &impl Abort, alloc: Global, problem: &Problem) -> Result<(), Fail> {
    let table = table_of(alloc, problem)?;
    has_lines(rt, problem, &table);
    Ok(())
}

#[test]
fn a_table_has_the_lines_of_each_person(rt: HostRuntime) -> Result<(), Fail> {
    let problem = problem_of_days(rt.alloc(), &TWO_DAYS)?;
    table_has_lines(&rt, rt.alloc(), &problem)
}

/// A copy of the lines of the one person, whose table is gone.
fn beside(rt: &impl Abort, problem: &Problem, table: Table) -> Result<SharedLines, AllocError>
    requires table { IsTableOf problem.now table }
{
    assert!(rt; problem.persons().len() == 1);
    let lines = table.shared(0)?;
    lines.copy()
}

/// Checks how many lines are had beside the table of the two days.
fn are_had(rt: &impl Abort, alloc: Global, problem: &Problem) -> Result<(), Fail> {
    let table = table_of(alloc, problem)?;
    let lines = beside(rt, problem, table)?;
    assert!(rt; lines.lines().width() == 36);
    Ok(())
}

#[test]
fn lines_are_had_beside_their_table(rt: HostRuntime) -> Result<(), Fail> {
    let problem = problem_of_days(rt.alloc(), &TWO_DAYS)?;
    are_had(&rt, rt.alloc(), &problem)
}

#[test]
fn a_person_may_have_too_many_lines(rt: HostRuntime) -> Result<(), Fail> {
    let problem = problem_of_days(rt.alloc(), &MANY)?;
    assert!(rt; problem.persons().len() == 1);
    assert!(rt; matches!(table_of(rt.alloc(), &problem), Err(TableFault::TooMany(0))));
    Ok(())
}

/// Checks how many lines A, B and C have on the two days, by two threads.
fn have_widths<R: Abort + Threads + Sync>(
    rt: &R,
    alloc: Global,
    problem: &Problem,
) -> Result<(), TableFault> {
    assert!(rt; problem.persons().len() == 3);
    let table = all_lines(rt, alloc, problem, 2)?;
    assert!(rt; table.width(0) == 36 && table.width(1) == 6 && table.width(2) == 6);
    Ok(())
}

/// Checks that threads agree on the table, and what it has of A, B and C.
fn agree_on_three<R: Abort + Threads + Sync>(
    rt: &R,
    alloc: Global,
    problem: &Problem,
) -> Result<(), Fail> {
    have_widths(rt, alloc, problem)?;
    threads_agree(rt, alloc, problem)
}

#[test]
fn threads_make_the_same_table(rt: HostRuntime) -> Result<(), Fail> {
    let problem = problem_with(rt.alloc(), THREE, &TWO_DAYS)?;
    agree_on_three(&rt, rt.alloc(), &problem)
}

#[test]
fn threads_find_the_same_costs(rt: HostRuntime) -> Result<(), Fail> {
    let problem = problem_of(rt.alloc(), COSTS)?;
    threads_agree(&rt, rt.alloc(), &problem)
}

/// Checks that B is told, whatever the number of threads.
fn second_is_told<R: Abort + Threads + Sync>(rt: &R, alloc: Global, problem: &Problem) {
    assert!(rt; problem.persons().len() == 4);
    for workers in [1, 3, 64] {
        let shared = all_lines(rt, alloc, problem, workers);
        assert!(rt; matches!(shared, Err(TableFault::TooMany(1))));
    }
}

#[test]
fn the_first_person_with_too_many_lines_is_told(rt: HostRuntime) -> Result<(), Fail> {
    let problem = problem_with(rt.alloc(), FOUR, &MANY)?;
    second_is_told(&rt, rt.alloc(), &problem);
    Ok(())
}

#[test]
fn threads_may_have_nobody_to_work_for(rt: HostRuntime) -> Result<(), Fail> {
    let problem = problem_with(rt.alloc(), b"", &TWO_DAYS)?;
    assert!(rt; problem.persons().is_empty());
    assert!(rt; all_lines(&rt, rt.alloc(), &problem, 8).is_ok());
    Ok(())
}

#[test]
fn laws_of_lines_can_be_called() {
    one_list_of_lines();
    all_lines_are_some();
    few_are_not_crowded();
    nobody_is_crowded();
    has_numbers();
    one_list_of_numbers();
}
