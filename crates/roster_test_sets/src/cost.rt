//! What lines and rosters cost, by worked books, and the order of keys.

use roster_cost::{
    Key, cost_at, cost_without_pairings, fixed_flight, keys_are_in_order, line_cost,
    lines_are_near, one_pairing_more, order_of_keys, pairing_flight, roster_cost, shares_add_up,
    units_of_set,
};
use roster_problem::{Problem, has_throughout, open_number, put};
use roster_test_books::{problem_of, set_of};
use roster_values::{Places, Roster, Set};
use std::process::Abort;
use std::test::Fail;

// A has no target, and B one of the flight of P1. P1 flies 480 minutes in March, P2 none. Each minute
// that a target is missed by costs 1.
const BOOK: &[u8] = b"period,2024-03
weight,1
base,BAS,UTC0
crew,A,BAS,0,0,0
crew,B,BAS,480,0,0
pairing,P1,BAS,100
pairing,P2,BAS,50
duty,Q1,P,P1,BAS,2024-03-04T06:00Z,2024-03-04T14:00Z
sector,Q1,O,2024-03-04T06:00Z,2024-03-04T14:00Z
duty,Q2,P,P2,BAS,2024-03-12T06:00Z,2024-03-12T14:00Z
cost,A,P1,7
cost,B,P1,-3
";

/// Checks the lines without a pairing and with P1, and what they cost.
fn lines_cost(rt: &impl Abort, problem: &Problem) -> Result<(), Fail> {
    assert!(rt; problem.persons().len() == 2 && problem.pairings().len() == 2);
    let first = set_of(problem, &[0, 2]).ok_or("a set")?;
    assert!(rt; line_cost(problem, 0, &Set::empty()) == 0);
    assert!(rt; line_cost(problem, 1, &Set::empty()) == 480);
    assert!(rt; line_cost(problem, 0, &first) == 487);
    assert!(rt; line_cost(problem, 1, &first) == -3);
    Ok(())
}

#[test]
fn a_line_costs_its_units_and_the_missed_target(rt: HostRuntime) -> Result<(), Fail> {
    let problem = problem_of(rt.alloc(), BOOK)?;
    lines_cost(&rt, &problem)
}

/// Checks what B flies, and what it costs that B flies so much.
fn pairings_bring(rt: &impl Abort, problem: &Problem) {
    assert!(rt; problem.persons().len() == 2 && problem.pairings().len() == 2);
    let none = fixed_flight(problem, 1);
    assert!(rt; none == 0);
    assert!(rt; pairing_flight(problem, 1, 0) == 480);
    assert!(rt; pairing_flight(problem, 1, 1) == 0);
    assert!(rt; cost_at(problem, 1, 0, 0) == 480);
    assert!(rt; cost_at(problem, 1, -3, 480) == -3);
    assert!(rt; cost_at(problem, 1, -3, 500) == 17);
}

#[test]
fn a_line_costs_what_its_pairings_bring_one_by_one(rt: HostRuntime) -> Result<(), Fail> {
    let problem = problem_of(rt.alloc(), BOOK)?;
    pairings_bring(&rt, &problem);
    one_pairing_more();
    units_of_set();
    lines_are_near();
    Ok(())
}

/// Checks four rosters, and what they cost.
fn rosters_cost(rt: &impl Abort, problem: &Problem) {
    assert!(rt; problem.pairings().len() == 2);
    assert!(rt; open_number(problem) == 2);
    assert!(rt; cost_without_pairings(problem) == 480);
    assert!(rt; roster_cost(problem, &[2, 2]) == 630);
    assert!(rt; roster_cost(problem, &[0, 2]) == 1017);
    assert!(rt; roster_cost(problem, &[1, 2]) == 47);
    assert!(rt; roster_cost(problem, &[1, 0]) == -3);
}

#[test]
fn a_roster_costs_its_open_pairings_and_its_lines(rt: HostRuntime) -> Result<(), Fail> {
    let problem = problem_of(rt.alloc(), BOOK)?;
    rosters_cost(&rt, &problem);
    shares_add_up();
    Ok(())
}

#[test]
fn keys_are_compared_by_cost_and_then_by_place(rt: HostRuntime) -> Result<(), Fail> {
    let cheap = Key {
        cost: -3,
        places: &[1, 1],
    };
    let first = Key {
        cost: 47,
        places: &[0, 2],
    };
    let second = Key {
        cost: 47,
        places: &[1, 0],
    };
    assert!(rt; cheap < first && first < second && cheap <= cheap && second > cheap);
    assert!(rt; first == first && first != second && cheap != first);
    let roster = Roster {
        places: Places::new([0u16, 2].to_vec(rt.alloc())?),
        cost: 47,
    };
    assert!(rt; Key::of(&roster) == first);
    order_of_keys();
    keys_are_in_order();
    Ok(())
}

/// Puts the number of B at the place of P1.
fn number_is_put(rt: &impl Abort, problem: &Problem) -> Result<(), Fail> {
    assert!(rt; problem.pairings().len() == 2);
    let first = set_of(problem, &[0, 2]).ok_or("a set")?;
    let mut places = [2u16, 2];
    assert!(rt; has_throughout(&places, &first, 2));
    put(&mut places, &first, 1);
    assert!(rt; places == [1, 2]);
    assert!(rt; !has_throughout(&places, &first, 2));
    problem.is_sound();
    Ok(())
}

#[test]
fn a_number_is_put_at_the_places_of_a_set(rt: HostRuntime) -> Result<(), Fail> {
    let problem = problem_of(rt.alloc(), BOOK)?;
    number_is_put(&rt, &problem)
}
