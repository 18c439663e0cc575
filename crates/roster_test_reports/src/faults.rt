//! Reports that are refused.

use crate::given::{book, fault_of};
use roster_desk_reports::{
    ReportFault, Wrong, assigns_text, read_known_roster, read_report, read_roster, unknown_text,
};
use roster_model::limits::MOST_PAIRINGS;
use std::alloc::{AllocError, Global};
use std::test::Fail;

#[test]
fn lines_that_no_report_has_are_told(rt: HostRuntime) -> Result<(), Fail> {
    let problem = book(rt.alloc())?;
    for &(text, line, wrong) in &[
        ("", 1, Wrong::NoReport),
        ("\n \r\n", 1, Wrong::NoReport),
        ("CHECK 2024-03\n", 1, Wrong::NoReport),
        ("roster 2024-03\n", 1, Wrong::NoReport),
        ("ROSTER\n", 1, Wrong::NoReport),
        ("ROSTER 2024-03 A\n", 1, Wrong::NoReport),
        ("\nROSTER 2024-3\n", 2, Wrong::NoReport),
        ("CREW A 0 0 0 0 0 P1\nROSTER 2024-03\n", 1, Wrong::NoReport),
        ("ROSTER 2024-03\nCREWS\n", 2, Wrong::UnknownLine),
        ("ROSTER 2024-03\n\nROSTER 2024-03\n", 3, Wrong::UnknownLine),
        (
            "ROSTER 2024-03\ncrew A 0 0 0 0 0 P1\n",
            2,
            Wrong::UnknownLine,
        ),
        ("ROSTER 2024-03\nCREW\n", 2, Wrong::CrewForm),
        ("ROSTER 2024-03\nCREW A 0 0 0 0 0\n", 2, Wrong::CrewForm),
        ("ROSTER 2024-03\nCREW A 0 0 0 0 P1 P2\n", 2, Wrong::CrewForm),
        ("ROSTER 2024-03\nCREW A 0 0 -1 0 0 P1\n", 2, Wrong::CrewForm),
        ("ROSTER 2024-03\nCREW _A 0 0 0 0 0 P1\n", 2, Wrong::CrewForm),
        ("ROSTER 2024-03\nCREW - 0 0 0 0 0 P1\n", 2, Wrong::CrewForm),
        (
            "ROSTER 2024-03\nCREW A 0 0 0 0 0 P1,P2\n",
            2,
            Wrong::CrewForm,
        ),
        (
            "ROSTER 2024-03\nCREW A 0 0 0 0 0 P0123456789ABCDEF\n",
            2,
            Wrong::CrewForm,
        ),
        // Before what the book doesn't have.
        (
            "ROSTER 2024-04\nCREW G 0 0 0 0 0 P1\nCREW A\n",
            3,
            Wrong::CrewForm,
        ),
    ] {
        let fault = Some((line, wrong));
        let bytes = text.as_bytes();
        assert!(rt; fault_of(read_report(rt.alloc(), bytes)) == fault, "{text}");
        assert!(rt;
            fault_of(read_roster(rt.alloc(), &problem, bytes)) == fault,
            "{text}"
        );
        assert!(rt;
            fault_of(read_known_roster(rt.alloc(), &problem, bytes)) == fault,
            "{text}"
        );
        assert!(rt;
            fault_of(unknown_text(rt.alloc(), &problem, bytes)) == fault,
            "{text}"
        );
    }
    Ok(())
}

#[test]
fn lines_that_the_book_cannot_have_are_told(rt: HostRuntime) -> Result<(), Fail> {
    let problem = book(rt.alloc())?;
    for &(text, line, wrong, is_known) in &[
        ("ROSTER 2024-04\n", 1, Wrong::OtherMonth, true),
        (
            "\n\nPLAN 2023-03\nCREW G 0 0 0 0 0 -\n",
            3,
            Wrong::OtherMonth,
            true,
        ),
        (
            "ROSTER 2024-03\nCREW A 0 0 0 0 0 P1 P1\n",
            2,
            Wrong::GivenTwice,
            true,
        ),
        (
            "ROSTER 2024-03\nCREW A 0 0 0 0 0 P1\nCREW B 0 0 0 0 0 P2 P1\n",
            3,
            Wrong::GivenTwice,
            true,
        ),
        (
            "ROSTER 2024-03\n\nCREW G 0 0 0 0 0 -\n",
            3,
            Wrong::UnknownPerson,
            false,
        ),
        (
            "ROSTER 2024-03\nCREW a 0 0 0 0 0 P11\n",
            2,
            Wrong::UnknownPerson,
            false,
        ),
        (
            "ROSTER 2024-03\nCREW A 0 0 0 0 0 P1 P11\n",
            2,
            Wrong::UnknownPairing,
            false,
        ),
    ] {
        let bytes = text.as_bytes();
        assert!(rt; read_report(rt.alloc(), bytes).is_ok(), "{text}");
        assert!(rt; unknown_text(rt.alloc(), &problem, bytes).is_ok(), "{text}");
        let fault = Some((line, wrong));
        assert!(rt;
            fault_of(read_roster(rt.alloc(), &problem, bytes)) == fault,
            "{text}"
        );
        let known = fault_of(read_known_roster(rt.alloc(), &problem, bytes));
        assert!(rt; known == if is_known { fault } else { None }, "{text}");
    }
    Ok(())
}

/// A report whose one `CREW` line gives so many pairings.
fn of_pairings(alloc: Global, count: usize) -> Result<Vec<u8>, AllocError> {
    let mut text = Vec::from_slice(alloc, b"ROSTER 2024-03\nCREW A 0 0 0 0 0")?;
    for i in 0..count {
        let name = format!(in alloc; " X{i}")?;
        text.extend_from_slice(name.as_bytes())?;
    }
    Ok(text)
}

#[test]
fn a_report_has_as_many_pairings_as_a_book(rt: HostRuntime) -> Result<(), Fail> {
    let text = of_pairings(rt.alloc(), MOST_PAIRINGS)?;
    let report = read_report(rt.alloc(), text.as_slice())?;
    assert_eq!(rt; report.crew.len(), 1);
    assert_eq!(rt; report.crew[0].pairings.len(), MOST_PAIRINGS);
    let text = of_pairings(rt.alloc(), MOST_PAIRINGS + 1)?;
    let told = fault_of(read_report(rt.alloc(), text.as_slice()));
    assert!(rt; told == Some((2, Wrong::TooMany)));
    Ok(())
}

#[test]
fn records_of_a_pairing_twice_are_refused(rt: HostRuntime) -> Result<(), Fail> {
    for &(text, line) in &[
        ("ROSTER 2024-03\nCREW A 0 0 0 0 0 P1 P2 P1\n", 2),
        (
            "ROSTER 2024-03\nCREW A 0 0 0 0 0 P1\n\nCREW B 0 0 0 0 0 P1\n",
            4,
        ),
    ] {
        let report = read_report(rt.alloc(), text.as_bytes())?;
        let told = fault_of(assigns_text(rt.alloc(), &report));
        assert!(rt; told == Some((line, Wrong::GivenTwice)), "{text}");
    }
    Ok(())
}

#[test]
fn faults_are_told_in_a_sentence(rt: HostRuntime) -> Result<(), Fail> {
    for &(wrong, sentence) in &[
        (
            Wrong::NoReport,
            "line 4: a report begins with ROSTER or PLAN and a month",
        ),
        (Wrong::OtherMonth, "line 4: the book is of another month"),
        (
            Wrong::UnknownPairing,
            "line 4: the book has no such pairing",
        ),
        (Wrong::UnknownPerson, "line 4: the book has no such person"),
        (
            Wrong::GivenTwice,
            "line 4: a pairing is given a second time",
        ),
    ] {
        let fault = ReportFault::At { line: 4, wrong };
        let found = format!(in rt.alloc(); "{fault}")?;
        assert!(rt; found.as_str() == sentence, "{sentence}");
    }
    Ok(())
}
