//! The days of zone texts.

use crate::given::minute;
use roster_instants::{BaseDays, Period, ZoneFault, read_minute};
use std::alloc::Global;
use std::process::Abort;

/// What a zone text gives for a month.
fn build(alloc: Global, rt: &impl Abort, zone: &str, month: &str) -> Result<BaseDays, ZoneFault> {
    let period = Period::read(month.as_bytes()).expect(rt, month);
    BaseDays::build(alloc, zone, period)
}

/// Why a zone text has no days in a month, if it has none.
fn fault(alloc: Global, rt: &impl Abort, zone: &str, month: &str) -> Option<ZoneFault> {
    build(alloc, rt, zone, month).err()
}

/// Checks rows of a zone: a month, a day of its window (35 is the first of the month), and the
/// instants of 00:00, 08:00 and 22:00 on that day.
fn check(alloc: Global, rt: &impl Abort, zone: &str, rows: &[&str]) {
    for row in rows {
        let cells = row.as_bytes();
        assert!(rt; cells.len() == 64, "{row}");
        let period = Period::read(&cells[..7]).expect(rt, row);
        let tens = usize::from(cells[8].saturating_sub(b'0'));
        let i = tens * 10 + usize::from(cells[9].saturating_sub(b'0'));
        let days = BaseDays::build(alloc, zone, period).expect(rt, row);
        assert!(rt; i < days.days());
        assert!(rt; Some(days.mid(i)) == read_minute(&cells[11..28]), "{row}");
        assert!(rt; Some(days.eight(i)) == read_minute(&cells[29..46]), "{row}");
        assert!(rt; Some(days.ten(i)) == read_minute(&cells[47..64]), "{row}");
    }
}

const LISBON: &str = "WET0WEST,M3.5.0/1,M10.5.0";

const SYDNEY: &str = "AEST-10AEDT,M10.1.0,M4.1.0/3";

const CHATHAM: &str = "<+1245>-12:45<+1345>,M9.5.0/2:45,M4.1.0/3:45";

const DUBLIN: &str = "IST-1GMT0,M10.5.0,M3.5.0/1";

const GODTHAB: &str = "WGT3WGST,M3.5.0/-2,M10.5.0/-1";

/// The instants of the ordinary rules are those of the C library.
#[test]
fn clocks_that_change_at_night(rt: HostRuntime) {
    check(
        rt.alloc(),
        &rt,
        "UTC0",
        &[
            "2024-03 00 2024-01-26T00:00Z 2024-01-26T08:00Z 2024-01-26T22:00Z",
            "2024-03 35 2024-03-01T00:00Z 2024-03-01T08:00Z 2024-03-01T22:00Z",
            "2024-03 79 2024-04-14T00:00Z 2024-04-14T08:00Z 2024-04-14T22:00Z",
        ],
    );
    check(
        rt.alloc(),
        &rt,
        LISBON,
        &[
            "2024-03 64 2024-03-30T00:00Z 2024-03-30T08:00Z 2024-03-30T22:00Z",
            "2024-03 65 2024-03-31T00:00Z 2024-03-31T07:00Z 2024-03-31T21:00Z",
            "2024-03 66 2024-03-31T23:00Z 2024-04-01T07:00Z 2024-04-01T21:00Z",
            "2024-10 60 2024-10-25T23:00Z 2024-10-26T07:00Z 2024-10-26T21:00Z",
            "2024-10 61 2024-10-26T23:00Z 2024-10-27T08:00Z 2024-10-27T22:00Z",
            "2024-10 62 2024-10-28T00:00Z 2024-10-28T08:00Z 2024-10-28T22:00Z",
        ],
    );
    check(
        rt.alloc(),
        &rt,
        SYDNEY,
        &[
            "2024-04 40 2024-04-05T13:00Z 2024-04-05T21:00Z 2024-04-06T11:00Z",
            "2024-04 41 2024-04-06T13:00Z 2024-04-06T22:00Z 2024-04-07T12:00Z",
            "2024-04 42 2024-04-07T14:00Z 2024-04-07T22:00Z 2024-04-08T12:00Z",
            "2024-10 39 2024-10-04T14:00Z 2024-10-04T22:00Z 2024-10-05T12:00Z",
            "2024-10 40 2024-10-05T14:00Z 2024-10-05T21:00Z 2024-10-06T11:00Z",
            "2024-10 41 2024-10-06T13:00Z 2024-10-06T21:00Z 2024-10-07T11:00Z",
        ],
    );
    check(
        rt.alloc(),
        &rt,
        CHATHAM,
        &[
            "2024-04 40 2024-04-05T10:15Z 2024-04-05T18:15Z 2024-04-06T08:15Z",
            "2024-04 41 2024-04-06T10:15Z 2024-04-06T19:15Z 2024-04-07T09:15Z",
        ],
    );
    check(
        rt.alloc(),
        &rt,
        "<+0330>-3:30",
        &["2024-03 35 2024-02-29T20:30Z 2024-03-01T04:30Z 2024-03-01T18:30Z"],
    );
    // summer time is the standard, and winter time lies behind it
    check(
        rt.alloc(),
        &rt,
        DUBLIN,
        &[
            "2024-03 65 2024-03-31T00:00Z 2024-03-31T07:00Z 2024-03-31T21:00Z",
            "2024-03 66 2024-03-31T23:00Z 2024-04-01T07:00Z 2024-04-01T21:00Z",
            "2024-10 61 2024-10-26T23:00Z 2024-10-27T08:00Z 2024-10-27T22:00Z",
            "2024-10 62 2024-10-28T00:00Z 2024-10-28T08:00Z 2024-10-28T22:00Z",
        ],
    );
    // hours past midnight: on the fourth Thursday plus 26 hours
    check(
        rt.alloc(),
        &rt,
        "IST-2IDT,M3.4.4/26,M10.5.0",
        &[
            "2024-03 62 2024-03-27T22:00Z 2024-03-28T06:00Z 2024-03-28T20:00Z",
            "2024-03 63 2024-03-28T22:00Z 2024-03-29T05:00Z 2024-03-29T19:00Z",
            "2024-03 64 2024-03-29T21:00Z 2024-03-30T05:00Z 2024-03-30T19:00Z",
        ],
    );
}

/// An hour that the clocks skip stands for the later instant, one that they show twice for the
/// earlier. If the C library has the hour at all, these are its instants.
#[test]
fn hours_in_a_gap_or_a_fold(rt: HostRuntime) {
    let midnight = "XXX3YYY,M10.3.0/0,M2.3.0/1";
    let morning = "AAA0BBB-2,M3.5.0/7,M10.5.0/10";
    // negative hours: 22:00 on the eve of the last Sunday is skipped, or shown twice
    check(
        rt.alloc(),
        &rt,
        GODTHAB,
        &[
            "2024-03 64 2024-03-30T03:00Z 2024-03-30T11:00Z 2024-03-31T01:00Z",
            "2024-03 65 2024-03-31T02:00Z 2024-03-31T10:00Z 2024-04-01T00:00Z",
            "2024-10 60 2024-10-26T02:00Z 2024-10-26T10:00Z 2024-10-27T00:00Z",
            "2024-10 61 2024-10-27T03:00Z 2024-10-27T11:00Z 2024-10-28T01:00Z",
        ],
    );
    // midnight: the day begins at 01:00, or at the first of two midnights
    check(
        rt.alloc(),
        &rt,
        midnight,
        &[
            "2024-10 54 2024-10-20T03:00Z 2024-10-20T10:00Z 2024-10-21T00:00Z",
            "2024-10 55 2024-10-21T02:00Z 2024-10-21T10:00Z 2024-10-22T00:00Z",
            "2024-02 52 2024-02-18T02:00Z 2024-02-18T11:00Z 2024-02-19T01:00Z",
            "2024-02 53 2024-02-19T03:00Z 2024-02-19T11:00Z 2024-02-20T01:00Z",
        ],
    );
    // 08:00
    check(
        rt.alloc(),
        &rt,
        morning,
        &[
            "2024-03 65 2024-03-31T00:00Z 2024-03-31T08:00Z 2024-03-31T20:00Z",
            "2024-10 61 2024-10-26T22:00Z 2024-10-27T06:00Z 2024-10-27T22:00Z",
        ],
    );
}

/// A day by its number, without and with 29 February: the clocks skip its first hour.
#[test]
fn rules_by_the_day_of_the_year(rt: HostRuntime) {
    let uncounted = "AAA-2BBB,J60/0,J305/0";
    let counted = "AAA-2BBB,59/0,304/0";
    check(
        rt.alloc(),
        &rt,
        uncounted,
        &[
            "2024-03 34 2024-02-28T22:00Z 2024-02-29T06:00Z 2024-02-29T20:00Z",
            "2024-03 35 2024-02-29T22:00Z 2024-03-01T05:00Z 2024-03-01T19:00Z",
            "2023-03 34 2023-02-27T22:00Z 2023-02-28T06:00Z 2023-02-28T20:00Z",
            "2023-03 35 2023-02-28T22:00Z 2023-03-01T05:00Z 2023-03-01T19:00Z",
        ],
    );
    check(
        rt.alloc(),
        &rt,
        counted,
        &[
            "2024-03 33 2024-02-27T22:00Z 2024-02-28T06:00Z 2024-02-28T20:00Z",
            "2024-03 34 2024-02-28T22:00Z 2024-02-29T05:00Z 2024-02-29T19:00Z",
            "2024-03 35 2024-02-29T21:00Z 2024-03-01T05:00Z 2024-03-01T19:00Z",
            "2023-03 34 2023-02-27T22:00Z 2023-02-28T06:00Z 2023-02-28T20:00Z",
            "2023-03 35 2023-02-28T22:00Z 2023-03-01T05:00Z 2023-03-01T19:00Z",
        ],
    );
}

/// A rule is judged year by year: daylight time that holds from the year's first moment begins with
/// a gap, and there midnight has the standard offset.
#[test]
fn daylight_time_all_year(rt: HostRuntime) {
    let zone = "EST5EDT,0/0,J365/25";
    check(
        rt.alloc(),
        &rt,
        zone,
        &[
            "2024-01 34 2023-12-31T04:00Z 2023-12-31T12:00Z 2024-01-01T02:00Z",
            "2024-01 35 2024-01-01T05:00Z 2024-01-01T12:00Z 2024-01-02T02:00Z",
            "2024-01 36 2024-01-02T04:00Z 2024-01-02T12:00Z 2024-01-03T02:00Z",
        ],
    );
}

/// The first and the last window, at the offsets farthest from UTC.
#[test]
fn the_first_and_the_last_month(rt: HostRuntime) {
    for &(zone, month, i, midnight) in &[
        ("UTC0", "2024-03", 80, "2024-04-15T00:00Z"),
        ("AAA-24:59", "1971-01", 0, "1970-11-25T23:01Z"),
        ("AAA24:59", "1971-01", 0, "1970-11-28T00:59Z"),
        ("AAA-24:59", "9997-12", 0, "9997-10-25T23:01Z"),
        ("AAA24:59", "9997-12", 80, "9998-01-16T00:59Z"),
        (SYDNEY, "9997-12", 35, "9997-11-30T13:00Z"),
        (LISBON, "9997-12", 80, "9998-01-15T00:00Z"),
    ] {
        let days = build(rt.alloc(), &rt, zone, month).expect(&rt, zone);
        assert!(rt; i <= days.days());
        assert!(rt; days.mid(i) == minute(&rt, midnight), "{zone} {month}");
    }
}

#[test]
fn zones_with_days(rt: HostRuntime) {
    for &(zone, month) in &[
        // names of three and of fifteen bytes, in angle brackets too
        ("ABC0", "2024-03"),
        ("ABCDEFGHIJKLMNO0", "2024-03"),
        ("<+ABCDEFGHIJKL-1>0", "2024-03"),
        // no whole minute, but not in this window
        ("AAA0BBB-0:59:30,M3.5.0,M10.5.0", "2024-01"),
        // clocks shifted by half a day, at an hour of the night
        ("AAA0BBB-12,M3.5.0/9,M10.5.0/20", "2024-03"),
    ] {
        assert!(rt; fault(rt.alloc(), &rt, zone, month).is_none(), "{zone}");
    }
}

#[test]
fn texts_that_are_no_zone(rt: HostRuntime) {
    for &zone in &[
        "",
        "UTC",
        "UTC0 ",
        " UTC0",
        "UTC0,",
        "UTC0\0",
        "UT0",
        "UTC26",
        "UTC0:60",
        "+00",
        "<+00>",
        "<+00",
        ":UTC0",
        "Europe/Lisbon",
        "2024-03-04T06:00Z",
        "ABCDEFGHIJKLMNOP0",
        "<+ABCDEFGHIJKLMNO>0",
        "EST5EDT",
        "EST5EDT,M3.2.0",
        "EST5EDT,M13.2.0,M11.1.0",
        "EST5EDT,M3.6.0,M11.1.0",
        "EST5EDT,M3.2.7,M11.1.0",
        "EST5EDT,M3.2.0/168,M11.1.0",
        "EST5EDT,J0,J305",
        "EST5EDT,366,10",
        "EST5EDT;M3.2.0;M11.1.0",
    ] {
        let told = fault(rt.alloc(), &rt, zone, "2024-03");
        assert!(rt; matches!(told, Some(ZoneFault::Refused)), "{zone}");
    }
}

#[test]
fn instants_that_are_no_whole_minutes(rt: HostRuntime) {
    for &(zone, month) in &[
        ("LMT-0:01:15", "2024-03"),
        ("LMT0:00:59", "1971-01"),
        ("AAA0BBB-0:59:30,M3.5.0,M10.5.0", "2024-03"),
        // only the end of the window: summer time begins at 23:00 of its last day
        ("AAA0BBB-0:59:30,J104/23,M10.5.0", "2023-03"),
        // these don't rise either
        ("AAA0BBB-24:00:30,M3.5.0/0,M10.5.0/12", "2024-03"),
    ] {
        let told = fault(rt.alloc(), &rt, zone, month);
        assert!(rt; matches!(told, Some(ZoneFault::NotMinutes)), "{zone}");
    }
}

#[test]
fn days_that_do_not_rise(rt: HostRuntime) {
    for &zone in &[
        // the whole of 31 March is skipped, so 1 April begins when it does
        "AAA0BBB-24,M3.5.0/0,M10.5.0/12",
        // its 22:00 is skipped, and stands for a later instant than the next midnight
        "AAA0BBB-15,M3.5.0/9,M10.5.0/20",
        // its 08:00 is skipped, and stands for a later instant than its 22:00
        "AAA0BBB-15,M3.5.0/7,M10.5.0/23",
    ] {
        let told = fault(rt.alloc(), &rt, zone, "2024-03");
        assert!(rt; matches!(told, Some(ZoneFault::NotRising)), "{zone}");
        assert!(rt; fault(rt.alloc(), &rt, zone, "2024-01").is_none(), "{zone}");
    }
}

#[test]
fn days_and_mornings_by_instants(rt: HostRuntime) {
    let days = build(rt.alloc(), &rt, LISBON, "2024-03").expect(&rt, LISBON);
    for &(text, day, mornings) in &[
        ("2024-01-25T23:59Z", None, 0),
        ("2024-01-26T00:00Z", Some(0), 0),
        ("2024-01-26T07:59Z", Some(0), 0),
        ("2024-01-26T08:00Z", Some(0), 1),
        ("2024-03-01T00:00Z", Some(35), 35),
        ("2024-03-30T23:59Z", Some(64), 65),
        ("2024-03-31T00:00Z", Some(65), 65),
        ("2024-03-31T06:59Z", Some(65), 65),
        ("2024-03-31T07:00Z", Some(65), 66),
        ("2024-03-31T22:59Z", Some(65), 66),
        ("2024-03-31T23:00Z", Some(66), 66),
        ("2024-04-14T22:59Z", Some(79), 80),
        ("2024-04-14T23:00Z", None, 80),
        ("2024-04-15T00:00Z", None, 80),
    ] {
        let instant = minute(&rt, text);
        assert!(rt; days.day_of(instant) == day, "{text}");
        assert!(rt; days.mornings_by(instant) == mornings, "{text}");
    }
}
