//! Duty and flight by local day, in runs of days and in the month, and their limits.

use crate::given::{duties, duty, list_of, march, name};
use roster_cumulative::{
    DutyList, ListLimits, Rule, cumulative_broken, duty_flight, duty_on, flight_on, greatest_duty,
    greatest_flight, month_flight,
};
use roster_instants::BaseDays;
use roster_problem::{Duty, Person, Sector};
use roster_values::Limit;
use std::process::Abort;

/// The list has these minutes of duty on these days.
fn has_duty(rt: &impl Abort, days: &BaseDays, list: &DutyList<'_>, rows: &[(usize, i64)]) {
    for (day, minutes) in rows {
        assert!(rt; *day < days.days());
        assert!(rt; duty_on(days, list, *day) == *minutes);
    }
}

#[test]
fn a_duty_is_divided_by_the_minute(rt: HostRuntime) {
    let days = march(&rt);
    let duties = duties(
        &rt,
        &[
            ("AMS", "2024-03-03T22:00Z", "2024-03-04T06:00Z"),
            ("AMS", "2024-03-20T12:00Z", "2024-03-22T12:00Z"),
            // Beside the one before it for eight hours.
            ("AMS", "2024-03-21T00:00Z", "2024-03-21T08:00Z"),
            // From before the window, and to after it.
            ("AMS", "2024-01-25T12:00Z", "2024-01-26T01:00Z"),
            ("AMS", "2024-04-14T23:00Z", "2024-04-15T12:00Z"),
        ],
    );
    let list = list_of(&rt, &duties, &[3, 0, 1, 2, 4]);
    has_duty(
        &rt,
        &days,
        &list,
        &[
            (0, 60),
            (1, 0),
            (36, 0),
            (37, 120),
            (38, 360),
            (39, 0),
            (54, 720),
            (55, 1440 + 480),
            (56, 720),
            (79, 60),
        ],
    );
}

/// The greatest duty of the list in 7, 14 and 28 days in a row.
fn has_greatest_duty(rt: &impl Abort, days: &BaseDays, list: &DutyList<'_>, minutes: [i64; 3]) {
    let [seven, fourteen, twenty_eight] = minutes;
    assert!(rt; greatest_duty(days, list, 7) == seven);
    assert!(rt; greatest_duty(days, list, 14) == fourteen);
    assert!(rt; greatest_duty(days, list, 28) == twenty_eight);
}

#[test]
fn runs_of_days(rt: HostRuntime) {
    let days = march(&rt);
    let duties = duties(
        &rt,
        &[
            // Five of eleven hours from 4 to 8 March, and five hours of the 10th: 60 hours in 7 days.
            ("AMS", "2024-03-04T06:00Z", "2024-03-04T17:00Z"),
            ("AMS", "2024-03-05T06:00Z", "2024-03-05T17:00Z"),
            ("AMS", "2024-03-06T06:00Z", "2024-03-06T17:00Z"),
            ("AMS", "2024-03-07T06:00Z", "2024-03-07T17:00Z"),
            ("AMS", "2024-03-08T06:00Z", "2024-03-08T17:00Z"),
            ("AMS", "2024-03-10T19:00Z", "2024-03-11T03:00Z"),
            // The first day of the first judged run of 7 days, and the day before it.
            ("AMS", "2024-02-24T06:00Z", "2024-02-24T10:00Z"),
            ("AMS", "2024-02-23T06:00Z", "2024-02-23T13:00Z"),
            // The last day that is judged, the day before it, and a day seven days before that day.
            ("AMS", "2024-04-14T06:00Z", "2024-04-14T08:00Z"),
            ("AMS", "2024-04-13T06:00Z", "2024-04-13T07:00Z"),
            ("AMS", "2024-04-06T06:00Z", "2024-04-06T07:00Z"),
        ],
    );
    let cases: &[(&[u16], [i64; 3])] = &[
        (&[0, 1, 2, 3, 4, 5], [3600, 3780, 3780]),
        (&[0, 1, 2, 3, 4], [3300, 3300, 3300]),
        (&[7, 6], [240, 660, 660]),
        (&[10, 9, 8], [180, 240, 240]),
        (&[], [0, 0, 0]),
    ];
    for &(positions, minutes) in cases {
        has_greatest_duty(&rt, &days, &list_of(&rt, &duties, positions), minutes);
    }
}

// What is flown in a duty of at most one sector.
#[derive(Clone, Copy)]
enum Flown {
    Nothing,
    Operated,
    Positioned,
}

/// A duty of at most one sector, which is as long as the duty.
fn flight<R: Abort + AllocGlobal>(rt: &R, flown: Flown, off: &str, on: &str) -> Duty {
    let mut duty = duty(rt, "AMS", off, on);
    let operates = match flown {
        Flown::Nothing => return duty,
        Flown::Operated => true,
        Flown::Positioned => false,
    };
    let sector = Sector {
        operates,
        off: duty.report,
        on: duty.release,
    };
    assert!(rt; duty.is_in_sequence(sector));
    duty.push_sector(sector).expect(rt, "memory");
    duty
}

/// Such duties.
fn flights<R: Abort + AllocGlobal>(rt: &R, rows: &[(Flown, &str, &str)]) -> Vec<Duty> {
    let mut duties = Vec::new(rt.alloc());
    for (flown, off, on) in rows {
        duties
            .push(flight(rt, *flown, off, on))
            .expect(rt, "memory");
    }
    duties
}

/// The list has these minutes of flight on these days.
fn has_flight(rt: &impl Abort, days: &BaseDays, list: &DutyList<'_>, rows: &[(usize, i64)]) {
    for (day, minutes) in rows {
        assert!(rt; *day < days.days());
        assert!(rt; flight_on(days, list, *day) == *minutes);
    }
}

/// The duties at these positions have these minutes of flight in the month.
fn have_flight(rt: &impl Abort, days: &BaseDays, duties: &[Duty], rows: &[(usize, i64)]) {
    for (k, minutes) in rows {
        assert!(rt; *k < duties.len());
        assert!(rt; duty_flight(days, &duties[*k]) == *minutes);
    }
}

#[test]
fn flight_is_that_of_operated_sectors(rt: HostRuntime) {
    let days = march(&rt);
    let duties = flights(
        &rt,
        &[
            // Across the midnight at which the month begins, and the one at which it ends.
            (Flown::Operated, "2024-02-29T22:00Z", "2024-03-01T01:00Z"),
            (Flown::Operated, "2024-03-31T23:00Z", "2024-04-01T02:00Z"),
            // Positioning, and a duty without a sector.
            (Flown::Positioned, "2024-03-10T06:00Z", "2024-03-10T09:00Z"),
            (Flown::Nothing, "2024-03-11T06:00Z", "2024-03-11T09:00Z"),
            // After the month.
            (Flown::Operated, "2024-04-10T06:00Z", "2024-04-10T16:00Z"),
        ],
    );
    let list = list_of(&rt, &duties, &[0, 2, 3, 1, 4]);
    has_flight(
        &rt,
        &days,
        &list,
        &[
            (34, 120),
            (35, 60),
            (44, 0),
            (45, 0),
            (65, 60),
            (66, 120),
            (75, 600),
        ],
    );
    assert!(rt; month_flight(&days, &list) == 120);
    assert!(rt; greatest_flight(&days, &list, 28) == 780);
    have_flight(
        &rt,
        &days,
        &duties,
        &[(0, 60), (1, 60), (2, 0), (3, 0), (4, 0)],
    );
}

/// A person who has flown so much in the year and in the eleven months before the month.
fn person(rt: &impl Abort, year: u32, eleven: u32) -> Person {
    Person {
        id: name(rt, "A"),
        base: 0,
        target: 0,
        year,
        eleven,
        row: 1,
    }
}

/// The first limit that such a person breaks with the duties at the positions.
fn first_broken<R: Abort + AllocGlobal>(
    rt: &R,
    days: &BaseDays,
    duties: &[Duty],
    positions: &[u16],
    year: u32,
    eleven: u32,
) -> Option<Rule> {
    let list = list_of(rt, duties, positions);
    cumulative_broken(days, &list, &person(rt, year, eleven))
}

#[test]
fn the_first_limit_that_is_broken(rt: HostRuntime) {
    let days = march(&rt);
    let duties = flights(
        &rt,
        &[
            // Four hours of flight.
            (Flown::Operated, "2024-03-04T06:00Z", "2024-03-04T10:00Z"),
            // 60 hours of duty, and a minute more.
            (Flown::Nothing, "2024-03-04T00:00Z", "2024-03-06T12:00Z"),
            (Flown::Nothing, "2024-03-04T00:00Z", "2024-03-06T12:01Z"),
            // With 50 hours it is 110 in 14 days.
            (Flown::Nothing, "2024-03-14T00:00Z", "2024-03-16T02:00Z"),
            (Flown::Nothing, "2024-03-14T00:00Z", "2024-03-16T02:01Z"),
            // With 60 hours and 20 more it is 190 in 28 days.
            (Flown::Nothing, "2024-03-21T00:00Z", "2024-03-23T12:00Z"),
            (Flown::Nothing, "2024-03-28T00:00Z", "2024-03-28T20:00Z"),
            (Flown::Nothing, "2024-03-28T00:00Z", "2024-03-28T20:01Z"),
            // Twice 50 hours of flight, and a minute more.
            (Flown::Operated, "2024-03-04T00:00Z", "2024-03-06T02:00Z"),
            (Flown::Operated, "2024-03-18T00:00Z", "2024-03-20T02:00Z"),
            (Flown::Operated, "2024-03-18T00:00Z", "2024-03-20T02:01Z"),
        ],
    );
    let cases: &[(&[u16], u32, u32, Option<Rule>)] = &[
        (&[], 54000, 60000, None),
        (&[0], 53760, 59760, None),
        (&[0], 53761, 59761, Some(Rule::FlightYear)),
        (&[0], 53760, 59761, Some(Rule::Flight12)),
        (&[1], 0, 0, None),
        (&[2], 60000, 0, Some(Rule::Duty7)),
        (&[1, 3], 0, 0, None),
        (&[1, 4], 0, 0, Some(Rule::Duty14)),
        (&[1, 3, 5, 6], 0, 0, None),
        (&[1, 3, 5, 7], 0, 0, Some(Rule::Duty28)),
        (&[8, 9], 0, 0, None),
        (&[8, 10], 0, 0, Some(Rule::Flight28)),
    ];
    for &(positions, year, eleven, broken) in cases {
        assert!(rt; first_broken(&rt, &days, &duties, positions, year, eleven) == broken);
    }
}

/// Asks for limits one after another.
fn are_judged(rt: &impl Abort, mut limits: ListLimits<'_>) {
    for &(limit, holds) in &[
        (Limit::Flight12, false),
        (Limit::Duty7, false),
        (Limit::FlightYear, true),
        (Limit::Flight28, true),
        (Limit::Duty28, true),
        (Limit::Duty14, true),
        (Limit::Flight12, false),
        (Limit::Duty28, true),
    ] {
        assert!(rt; limits.holds(limit) == holds);
    }
}

#[test]
fn limits_are_judged_in_any_order(rt: HostRuntime) {
    let days = march(&rt);
    let duties = flights(
        &rt,
        &[
            // 60 hours of duty and a minute, and 50 hours of flight two weeks later.
            (Flown::Nothing, "2024-03-04T00:00Z", "2024-03-06T12:01Z"),
            (Flown::Operated, "2024-03-18T00:00Z", "2024-03-20T02:00Z"),
        ],
    );
    let list = list_of(&rt, &duties, &[0, 1]);
    let person = person(&rt, 51000, 57001);
    are_judged(&rt, ListLimits::new(&days, &list, &person));
}
