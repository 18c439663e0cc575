//! The roster of a report.

use crate::given::book;
use roster_desk_reports::{
    pairing_named, person_named, read_known_roster, read_report, read_roster,
};
use std::test::Fail;

#[test]
fn crew_lines_say_who_has_what(rt: HostRuntime) -> Result<(), Fail> {
    let problem = book(rt.alloc())?;
    let roster = [0u16, 1, 6, 6, 6, 1, 6, 6, 6, 6];
    let nothing = [6u16; 10];
    for &(text, places) in &[
        (
            "ROSTER 2024-03\nCOST 9\nCREW A 0 480 480 480 0 P1\nCREW B 0 0 0 0 0 P2 P6\nOPEN P3\n",
            &roster,
        ),
        (
            "PLAN 2024-03\nBOUND 0\nCREW B 1 2 3 4 5 P6 P2\nLOCKED F DUTY7\nCREW A 1 2 3 4 5 P1\n",
            &roster,
        ),
        (
            "\u{feff}\r\n ROSTER\t2024-03\r\n\r\nCREW A 00 1 2 3 99999999999 P1\r\nCREW B 0 0 0 0 0 P2 - P6",
            &roster,
        ),
        (
            "ROSTER 2024-03\nCREW B 0 0 0 0 0 P2\nCREW A 0 0 0 0 0 P1\nCREW B 0 0 0 0 0 P6\n",
            &roster,
        ),
        ("ROSTER 2024-03", &nothing),
        ("PLAN 2024-03\nCREW A 0 0 0 0 0 -\nOPEN P1\n", &nothing),
    ] {
        let found = read_roster(rt.alloc(), &problem, text.as_bytes())?;
        assert!(rt; found.as_slice() == places.as_slice(), "{text}");
        let known = read_known_roster(rt.alloc(), &problem, text.as_bytes())?;
        assert!(rt; known.as_slice() == places.as_slice(), "{text}");
    }
    Ok(())
}

#[test]
fn what_the_book_lacks_is_passed_over(rt: HostRuntime) -> Result<(), Fail> {
    let problem = book(rt.alloc())?;
    let text =
        b"ROSTER 2024-03\nCREW G 0 0 0 0 0 P1\nCREW A 0 0 0 0 0 P99 P2 p3\nCREW F 0 0 0 0 0 P10\n";
    let found = read_known_roster(rt.alloc(), &problem, text)?;
    let places = [6u16, 0, 6, 6, 6, 6, 6, 6, 6, 5];
    assert!(rt; found.as_slice() == places.as_slice());
    Ok(())
}

#[test]
fn a_report_is_read_without_a_book(rt: HostRuntime) -> Result<(), Fail> {
    let text = b"\n\nPLAN 1971-01\n\nCREW X 0 0 0 0 0 Y Z\nCREW X 0 0 0 0 0 -\n";
    let report = read_report(rt.alloc(), text)?;
    assert_eq!(rt; report.first, 3);
    assert!(rt; report.period.year() == 1971 && report.period.month() == 1);
    assert_eq!(rt; report.crew.len(), 2);
    assert_eq!(rt; report.crew[0].line, 5);
    assert!(rt; report.crew[0].person.as_bytes() == b"X".as_slice());
    assert_eq!(rt; report.crew[0].pairings.len(), 2);
    assert!(rt; report.crew[0].pairings[1].as_bytes() == b"Z".as_slice());
    assert_eq!(rt; report.crew[1].line, 6);
    assert!(rt; report.crew[1].pairings.is_empty());
    Ok(())
}

#[test]
fn names_are_found_in_the_book(rt: HostRuntime) -> Result<(), Fail> {
    let problem = book(rt.alloc())?;
    for &(name, place) in &[
        ("P1", Some(0)),
        ("P10", Some(9)),
        ("P11", None),
        ("P", None),
        ("p1", None),
        ("A", None),
        ("", None),
    ] {
        assert!(rt; pairing_named(&problem, name.as_bytes()) == place, "{name}");
    }
    for &(name, place) in &[
        ("A", Some(0)),
        ("F", Some(5)),
        ("G", None),
        ("a", None),
        ("A ", None),
        ("P1", None),
        ("", None),
    ] {
        assert!(rt; person_named(&problem, name.as_bytes()) == place, "{name}");
    }
    Ok(())
}
