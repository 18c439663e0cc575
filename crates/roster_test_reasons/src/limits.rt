//! The limits, and what is used of them. Day 35 of the window is 1 March.

use crate::books::is_told;
use roster_legal::merge;
use roster_legal_reasons::{Amount, MonthFlight, Reason, RunOfDays, standing};
use roster_problem::Problem;
use roster_test_books::{problem_of, set_of};
use roster_values::{Limit, Rule};
use std::alloc::Global;
use std::process::Abort;
use std::test::Fail;

/// A run of days over its limit.
fn run_over(limit: Limit, last: usize, minutes: u64, most: u64) -> Option<Reason> {
    let run = RunOfDays {
        last,
        minutes,
        most,
    };
    Some(Reason::Limit(limit, Amount::Run(run)))
}

/// The month's flight over its limit.
fn month_over(limit: Limit, carried: u64, flown: u64, most: u64) -> Option<Reason> {
    let month = MonthFlight {
        carried,
        flown,
        most,
    };
    Some(Reason::Limit(limit, Amount::Month(month)))
}

// Five duties of 11 hours, and on 10 March five hours and a minute more; three hours of Q1 lie on the 11th.
const DUTY7: &[u8] = b"period,2024-03
base,BAS,UTC0
crew,A,BAS,0,0,0
duty,F0,C,A,BAS,2024-03-04T06:00Z,2024-03-04T17:00Z
duty,F1,C,A,BAS,2024-03-05T06:00Z,2024-03-05T17:00Z
duty,F2,C,A,BAS,2024-03-06T06:00Z,2024-03-06T17:00Z
duty,F3,C,A,BAS,2024-03-07T06:00Z,2024-03-07T17:00Z
duty,F4,C,A,BAS,2024-03-08T06:00Z,2024-03-08T17:00Z
pairing,P1,BAS,100
duty,Q1,P,P1,BAS,2024-03-10T18:59Z,2024-03-11T03:00Z
";

#[test]
fn seven_days(rt: HostRuntime) -> Result<(), Fail> {
    let wanted = run_over(Limit::Duty7, 44, 3_601, 3_600);
    is_told(&rt, rt.alloc(), DUTY7, &[0], wanted)
}

/// Asks what is used of some limits: of 7 days the run that ends on 10 March, of 14 days the first that
/// holds all.
fn uses_are(rt: &impl Abort, alloc: Global, problem: &Problem) -> Result<(), Fail> {
    let set = set_of(problem, &[0]).ok_or("a set")?;
    assert!(rt; problem.persons().len() == 1);
    let list = merge(alloc, problem, 0, &set)?;
    let seven = standing(problem, 0, &list, Limit::Duty7);
    let most = RunOfDays {
        last: 44,
        minutes: 3_601,
        most: 3_600,
    };
    assert!(rt; seven == Amount::Run(most));
    assert!(rt; seven.left() == 0);
    let fourteen = standing(problem, 0, &list, Limit::Duty14);
    let all = RunOfDays {
        last: 45,
        minutes: 3_781,
        most: 6_600,
    };
    assert!(rt; fourteen == Amount::Run(all));
    assert!(rt; fourteen.left() == 2_819);
    Ok(())
}

#[test]
fn what_is_used_of_runs(rt: HostRuntime) -> Result<(), Fail> {
    let problem = problem_of(rt.alloc(), DUTY7)?;
    uses_are(&rt, rt.alloc(), &problem)
}

// 3300 minutes from 4 to 8 March, and 3301 from the 13th to the 17th.
const DUTY14: &[u8] = b"period,2024-03
base,BAS,UTC0
crew,A,BAS,0,0,0
pairing,P1,BAS,100
duty,Q1,P,P1,BAS,2024-03-04T06:00Z,2024-03-04T17:00Z
duty,Q2,P,P1,BAS,2024-03-05T06:00Z,2024-03-05T17:00Z
duty,Q3,P,P1,BAS,2024-03-06T06:00Z,2024-03-06T17:00Z
duty,Q4,P,P1,BAS,2024-03-07T06:00Z,2024-03-07T17:00Z
duty,Q5,P,P1,BAS,2024-03-08T06:00Z,2024-03-08T17:00Z
pairing,P2,BAS,100
duty,R1,P,P2,BAS,2024-03-13T06:00Z,2024-03-13T17:00Z
duty,R2,P,P2,BAS,2024-03-14T06:00Z,2024-03-14T17:00Z
duty,R3,P,P2,BAS,2024-03-15T06:00Z,2024-03-15T17:00Z
duty,R4,P,P2,BAS,2024-03-16T06:00Z,2024-03-16T17:00Z
duty,R5,P,P2,BAS,2024-03-17T06:00Z,2024-03-17T17:01Z
duty,R6,P,P2,BAS,2024-03-18T06:00Z,2024-03-18T10:00Z
";

#[test]
fn fourteen_days(rt: HostRuntime) -> Result<(), Fail> {
    let wanted = run_over(Limit::Duty14, 51, 6_601, 6_600);
    is_told(&rt, rt.alloc(), DUTY14, &[0, 0], wanted)
}

// From 4 to 31 March 20 duties of nine and a half hours, of which the last has a minute more.
const DUTY28: &[u8] = b"period,2024-03
base,BAS,UTC0
crew,A,BAS,0,0,0
pairing,P1,BAS,100
duty,Q1,P,P1,BAS,2024-03-04T06:00Z,2024-03-04T15:30Z
duty,Q2,P,P1,BAS,2024-03-05T06:00Z,2024-03-05T15:30Z
duty,Q3,P,P1,BAS,2024-03-06T06:00Z,2024-03-06T15:30Z
duty,Q4,P,P1,BAS,2024-03-07T06:00Z,2024-03-07T15:30Z
duty,Q5,P,P1,BAS,2024-03-08T06:00Z,2024-03-08T15:30Z
duty,Q6,P,P1,BAS,2024-03-11T06:00Z,2024-03-11T15:30Z
duty,Q7,P,P1,BAS,2024-03-12T06:00Z,2024-03-12T15:30Z
duty,Q8,P,P1,BAS,2024-03-13T06:00Z,2024-03-13T15:30Z
duty,Q9,P,P1,BAS,2024-03-14T06:00Z,2024-03-14T15:30Z
duty,Q10,P,P1,BAS,2024-03-15T06:00Z,2024-03-15T15:30Z
duty,Q11,P,P1,BAS,2024-03-18T06:00Z,2024-03-18T15:30Z
duty,Q12,P,P1,BAS,2024-03-19T06:00Z,2024-03-19T15:30Z
duty,Q13,P,P1,BAS,2024-03-20T06:00Z,2024-03-20T15:30Z
duty,Q14,P,P1,BAS,2024-03-21T06:00Z,2024-03-21T15:30Z
duty,Q15,P,P1,BAS,2024-03-22T06:00Z,2024-03-22T15:30Z
pairing,P2,BAS,100
duty,R1,P,P2,BAS,2024-03-27T06:00Z,2024-03-27T15:30Z
duty,R2,P,P2,BAS,2024-03-28T06:00Z,2024-03-28T15:30Z
duty,R3,P,P2,BAS,2024-03-29T06:00Z,2024-03-29T15:30Z
duty,R4,P,P2,BAS,2024-03-30T06:00Z,2024-03-30T15:30Z
duty,R5,P,P2,BAS,2024-03-31T06:00Z,2024-03-31T15:31Z
duty,R6,P,P2,BAS,2024-04-01T06:00Z,2024-04-01T10:00Z
";

#[test]
fn twenty_eight_days(rt: HostRuntime) -> Result<(), Fail> {
    let wanted = run_over(Limit::Duty28, 65, 11_401, 11_400);
    is_told(&rt, rt.alloc(), DUTY28, &[0, 0], wanted)
}

// 50 hours of flight from 4 to 6 March, and from 14 to 16 March 50 hours and a minute, of which 121 minutes
// lie on the 16th.
const FLIGHT28: &[u8] = b"period,2024-03
base,BAS,UTC0
crew,A,BAS,0,0,0
duty,F1,C,A,BAS,2024-03-04T00:00Z,2024-03-06T02:00Z
sector,F1,O,2024-03-04T00:00Z,2024-03-06T02:00Z
pairing,P1,BAS,100
duty,Q1,P,P1,BAS,2024-03-14T00:00Z,2024-03-16T02:01Z
sector,Q1,O,2024-03-14T00:00Z,2024-03-16T02:01Z
";

#[test]
fn flight_of_28_days(rt: HostRuntime) -> Result<(), Fail> {
    let wanted = run_over(Limit::Flight28, 50, 6_001, 6_000);
    is_told(&rt, rt.alloc(), FLIGHT28, &[0], wanted)
}

// Four hours of the sector lie in the month.
const YEAR: &[u8] = b"period,2024-03
base,BAS,UTC0
crew,A,BAS,0,53761,59760
pairing,P1,BAS,100
duty,Q1,P,P1,BAS,2024-03-31T20:00Z,2024-04-01T04:00Z
sector,Q1,O,2024-03-31T20:00Z,2024-04-01T04:00Z
";

#[test]
fn flight_of_the_year(rt: HostRuntime) -> Result<(), Fail> {
    let wanted = month_over(Limit::FlightYear, 53_761, 240, 54_000);
    is_told(&rt, rt.alloc(), YEAR, &[0], wanted)
}

#[test]
fn the_rule_of_a_reason() -> Result<(), Fail> {
    let told = month_over(Limit::FlightYear, 53_761, 240, 54_000).ok_or("a reason")?;
    if told.rule() == Rule::FlightYear {
        Ok(())
    } else {
        Err("the rule".into())
    }
}

// Of twelve months there is a minute too much, and of the year none.
const TWELVE: &[u8] = b"period,2024-03
base,BAS,UTC0
crew,A,BAS,0,53760,59761
pairing,P1,BAS,100
duty,Q1,P,P1,BAS,2024-03-31T20:00Z,2024-04-01T04:00Z
sector,Q1,O,2024-03-31T20:00Z,2024-04-01T04:00Z
";

#[test]
fn flight_of_twelve_months(rt: HostRuntime) -> Result<(), Fail> {
    let wanted = month_over(Limit::Flight12, 59_761, 240, 60_000);
    is_told(&rt, rt.alloc(), TWELVE, &[0], wanted)
}
