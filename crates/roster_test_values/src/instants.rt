//! Instants, months and days.

use crate::given::minute;
use roster_instants::{BaseDays, Period, common, read_minute};

#[test]
fn instants_are_read(rt: HostRuntime) {
    for &(text, minutes) in &[
        ("2024-03-04T06:00Z", 28_492_200),
        ("1970-01-01T00:00Z", 0),
        ("1970-01-02T00:01Z", 1441),
        ("2024-02-29T23:59Z", 28_487_519),
        ("2000-02-29T00:00Z", 15_863_040),
        ("9998-12-31T23:59Z", 4_222_846_079),
    ] {
        let minute = read_minute(text.as_bytes()).expect(&rt, text);
        assert!(rt; minute.get() == minutes, "{text}");
    }
}

#[test]
fn other_texts_are_no_instants(rt: HostRuntime) {
    for &text in &[
        "",
        "2024-02-30T06:00Z",
        "2023-02-29T06:00Z",
        "2100-02-29T06:00Z",
        "2024-04-31T06:00Z",
        "2024-13-04T06:00Z",
        "2024-00-04T06:00Z",
        "2024-03-00T06:00Z",
        "2024-03-04T24:00Z",
        "2024-03-04T06:60Z",
        "1969-12-31T23:59Z",
        "9999-01-01T00:00Z",
        "2024-03-04 06:00Z",
        "2024-03-04T06:00",
        "2024-03-04T06:00z",
        "2024-03-04T06:00Z ",
        "+024-03-04T06:00Z",
        "2024-03-04T+6:00Z",
        "2024-3-04T06:00Z",
    ] {
        assert!(rt; read_minute(text.as_bytes()).is_none(), "{text}");
    }
}

#[test]
fn months_are_read(rt: HostRuntime) {
    for &(text, year, month) in &[
        ("2024-03", 2024, 3),
        ("1971-01", 1971, 1),
        ("9997-12", 9997, 12),
    ] {
        let period = Period::read(text.as_bytes()).expect(&rt, text);
        assert!(rt; period.year() == year, "{text}");
        assert!(rt; period.month() == month, "{text}");
    }
    for &text in &[
        "2024-13", "2024-00", "1970-12", "9998-01", "2024-3", "2024-031", "2024/03", "+024-03", "",
    ] {
        assert!(rt; Period::read(text.as_bytes()).is_none(), "{text}");
    }
}

#[test]
fn the_shortest_and_the_last_window(rt: HostRuntime) {
    for &(text, month_days) in &[
        ("2024-03", 31),
        ("2023-02", 28),
        ("2024-02", 29),
        ("1971-01", 31),
        ("9997-12", 31),
    ] {
        let period = Period::read(text.as_bytes()).expect(&rt, text);
        let days = BaseDays::build(rt.alloc(), "UTC0", period).expect(&rt, text);
        assert!(rt; days.month_days() == month_days, "{text}");
        assert!(rt; days.days() == month_days + 49, "{text}");
        assert!(rt; days.month_start() == days.mid(35), "{text}");
        assert!(rt; days.month_end() == days.mid(35 + month_days), "{text}");
    }
}

#[test]
fn minutes_in_common(rt: HostRuntime) {
    let six = minute(&rt, "2024-03-04T06:00Z");
    let seven = minute(&rt, "2024-03-04T07:00Z");
    let nine = minute(&rt, "2024-03-04T09:00Z");
    let midnight = minute(&rt, "2024-03-05T00:00Z");
    for &(a, b, c, d, shared) in &[
        (six, nine, seven, midnight, 120),
        (seven, midnight, six, nine, 120),
        (six, midnight, seven, nine, 120),
        (seven, nine, six, midnight, 120),
        (six, seven, seven, nine, 0),
        (six, seven, nine, midnight, 0),
        (nine, midnight, six, seven, 0),
        (six, nine, six, nine, 180),
    ] {
        assert!(rt; a <= b);
        assert!(rt; c <= d);
        assert!(rt; common(a, b, c, d) == shared);
    }
}
