//! The rules of rest and of days off.

use crate::given::{duties, duty, list_of, march, minute, name};
use roster_instants::BaseDays;
use roster_problem::{Base, Duty, DutyList};
use roster_restrules::{Times, days_ok, is_recurrent, recovery_ok, rest_needed, rest_ok};
use std::process::Abort;

/// A base in March 2024.
fn ams<R: Abort + AllocGlobal>(rt: &R) -> Base {
    Base {
        id: name(rt, "AMS"),
        days: march(rt),
    }
}

/// The rest that is needed between a duty at home with this release and the next one, at this station.
fn rest_before<R: Abort + AllocGlobal>(rt: &R, home: &Base, release: &str, station: &str) -> i64 {
    let prev = duty(rt, "AMS", "2024-03-04T06:00Z", release);
    let next = duty(rt, station, "2024-03-05T06:00Z", "2024-03-05T14:00Z");
    rest_needed(&prev, &next, home)
}

#[test]
fn the_rest_needed_is_the_greater(rt: HostRuntime) {
    let home = ams(&rt);
    let (short, middle, long) = (
        "2024-03-04T14:00Z",
        "2024-03-04T17:00Z",
        "2024-03-04T19:00Z",
    );
    let (at_home, away) = ("AMS", "BER");
    for &(release, station, minutes) in &[
        (short, at_home, 720),
        (short, away, 600),
        (middle, away, 660),
        (middle, at_home, 720),
        (long, at_home, 780),
        (long, away, 780),
    ] {
        assert!(rt; rest_before(&rt, &home, release, station) == minutes);
    }
}

/// Whether the list of the duties at the positions keeps the rest between neighbours.
fn keeps_rest<R: Abort + AllocGlobal>(
    rt: &R,
    home: &Base,
    duties: &[Duty],
    positions: &[u16],
) -> bool {
    rest_ok(&list_of(rt, duties, positions), home)
}

#[test]
fn neighbours_keep_their_rest(rt: HostRuntime) {
    let home = ams(&rt);
    let duties = duties(
        &rt,
        &[
            ("AMS", "2024-03-04T06:00Z", "2024-03-04T14:00Z"),
            // Twelve hours after the first, and a minute less.
            ("AMS", "2024-03-05T02:00Z", "2024-03-05T10:00Z"),
            ("AMS", "2024-03-05T01:59Z", "2024-03-05T10:00Z"),
            // Ten hours after the second, away from home, and a minute less.
            ("BER", "2024-03-05T20:00Z", "2024-03-06T04:00Z"),
            ("BER", "2024-03-05T19:59Z", "2024-03-06T04:00Z"),
            // Ten hours after the fourth, at home.
            ("AMS", "2024-03-06T14:00Z", "2024-03-06T16:00Z"),
        ],
    );
    let lists: &[(&[u16], bool)] = &[
        (&[], true),
        (&[4], true),
        (&[0, 1, 1], false),
        (&[0, 1, 3], true),
        (&[0, 1, 4], false),
        (&[0, 2, 3], false),
        (&[0, 1, 5], true),
        (&[1, 3, 5], false),
    ];
    for &(positions, is_kept) in lists {
        assert!(rt; keeps_rest(&rt, &home, &duties, positions) == is_kept);
    }
}

#[test]
fn recurrent_rests_have_their_length_and_nights(rt: HostRuntime) {
    let days = march(&rt);
    for &(from, to, is_recurrent_rest) in &[
        // 36 hours with two nights, and a minute less.
        ("2024-03-04T22:00Z", "2024-03-06T10:00Z", true),
        ("2024-03-04T22:00Z", "2024-03-06T09:59Z", false),
        // 36 hours with one night, of the first only two hours.
        ("2024-03-05T06:00Z", "2024-03-06T18:00Z", false),
        // Of the second night eight hours, and a minute less.
        ("2024-03-05T06:00Z", "2024-03-07T06:00Z", true),
        ("2024-03-05T06:00Z", "2024-03-07T05:59Z", false),
        // Of the first night eight hours, and a minute less.
        ("2024-03-05T00:00Z", "2024-03-06T12:00Z", true),
        ("2024-03-05T00:01Z", "2024-03-06T12:01Z", false),
        // The window's first and last night, with one outside the window, and with one within it.
        ("2024-01-25T20:00Z", "2024-01-27T09:00Z", false),
        ("2024-01-25T20:00Z", "2024-01-28T08:00Z", true),
        ("2024-04-13T20:00Z", "2024-04-15T12:00Z", false),
        ("2024-04-12T20:00Z", "2024-04-14T09:00Z", true),
        ("2024-03-06T10:00Z", "2024-03-04T22:00Z", false),
    ] {
        let found = is_recurrent(&days, minute(&rt, from), minute(&rt, to));
        assert!(rt; found == is_recurrent_rest, "{from} {to}");
    }
}

/// Whether the duty at the position alone keeps recovery, judged by its list, and by the times of all duties.
fn keeps_recovery<R: Abort + AllocGlobal>(
    rt: &R,
    days: &BaseDays,
    duties: &[Duty],
    position: u16,
) -> (bool, bool) {
    let times = Times::new(rt.alloc(), days, duties).expect(rt, "memory");
    assert!(rt; usize::from(position) < duties.len());
    let positions = Vec::from_slice(rt.alloc(), &[position]).expect(rt, "memory");
    let by_times = times.keep_recovery(&[position]);
    (
        recovery_ok(days, &DutyList::new(duties, positions)),
        by_times,
    )
}

#[test]
fn a_recurrent_rest_comes_each_week(rt: HostRuntime) {
    let days = march(&rt);
    let duties = duties(
        &rt,
        &[
            // 168 hours, and a minute more, in the month and to its start.
            ("AMS", "2024-03-04T06:00Z", "2024-03-11T06:00Z"),
            ("AMS", "2024-03-04T06:00Z", "2024-03-11T06:01Z"),
            ("AMS", "2024-02-22T23:59Z", "2024-03-01T00:00Z"),
            ("AMS", "2024-02-22T23:59Z", "2024-03-01T00:01Z"),
        ],
    );
    for (position, is_kept) in [(0, true), (1, false), (2, true), (3, false)] {
        assert!(rt; keeps_recovery(&rt, &days, &duties, position) == (is_kept, is_kept));
    }
}

/// Whether the list of the duties at the positions leaves two days off, twice.
fn has_days_off<R: Abort + AllocGlobal>(
    rt: &R,
    days: &BaseDays,
    duties: &[Duty],
    positions: &[u16],
) -> bool {
    days_ok(days, &list_of(rt, duties, positions))
}

#[test]
fn two_days_are_off_twice(rt: HostRuntime) {
    let days = march(&rt);
    let duties = duties(
        &rt,
        &[
            // All days but 1 to 4 March, which are off twice, also if the duty before ends as they begin.
            ("AMS", "2024-03-05T00:00Z", "2024-04-02T12:00Z"),
            ("AMS", "2024-02-28T12:00Z", "2024-03-01T00:00Z"),
            // A minute of 1, of 4 and of 2 March.
            ("AMS", "2024-02-29T12:00Z", "2024-03-01T00:01Z"),
            ("AMS", "2024-03-04T23:59Z", "2024-03-05T00:00Z"),
            ("AMS", "2024-03-02T12:00Z", "2024-03-02T12:01Z"),
            // All days but 28 to 31 March: days off after the month don't count.
            ("AMS", "2024-02-29T12:00Z", "2024-03-28T00:00Z"),
            ("AMS", "2024-02-29T12:00Z", "2024-03-28T00:01Z"),
            // A night of two days in the middle of the month.
            ("AMS", "2024-03-16T23:00Z", "2024-03-17T01:00Z"),
        ],
    );
    let lists: &[(&[u16], bool)] = &[
        (&[], true),
        (&[1, 0], true),
        (&[2, 0], false),
        (&[3, 0], false),
        (&[4, 0], false),
        (&[5], true),
        (&[6], false),
        (&[5, 0], false),
        (&[1, 7], true),
    ];
    for &(positions, is_kept) in lists {
        assert!(rt; has_days_off(&rt, &days, &duties, positions) == is_kept);
    }
}
