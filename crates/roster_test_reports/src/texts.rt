//! Records made of a report, and what the book doesn't have of it.

use crate::given::book;
use roster_desk_reports::{assigns_text, read_report, unknown_text};
use std::test::Fail;

#[test]
fn reports_make_assign_records(rt: HostRuntime) -> Result<(), Fail> {
    for &(text, records) in &[
        ("PLAN 2024-03\n", ""),
        ("ROSTER 2024-03\nCREW A 0 0 0 0 0 -\nOPEN P1\n", ""),
        (
            "ROSTER 2024-03\nCREW B 0 0 0 0 0 P6 - P2\nCREW A 0 0 0 0 0 P1\n",
            "assign,P6,B\nassign,P2,B\nassign,P1,A\n",
        ),
        (
            "ROSTER 2024-03\nCREW ABCDEFGHIJKLMNOP 0 0 0 0 0 0-a_Z\n",
            "assign,0-a_Z,ABCDEFGHIJKLMNOP\n",
        ),
    ] {
        let report = read_report(rt.alloc(), text.as_bytes())?;
        let found = assigns_text(rt.alloc(), &report)?;
        assert!(rt; found.as_slice() == records.as_bytes(), "{text}");
    }
    Ok(())
}

#[test]
fn what_the_book_lacks_is_told(rt: HostRuntime) -> Result<(), Fail> {
    let problem = book(rt.alloc())?;
    for &(text, lines) in &[
        ("PLAN 2024-03\n", ""),
        (
            "ROSTER 2024-03\nCREW A 0 0 0 0 0 P1 P10\nCREW F 0 0 0 0 0 -\nOPEN P11\n",
            "",
        ),
        (
            "ROSTER 1999-03\nCREW A 0 0 0 0 0 P9 P11 P1\n",
            "not in the book: P11 of A\n",
        ),
        (
            "ROSTER 2024-03\nCREW G 0 0 0 0 0 P99\nCREW A 0 0 0 0 0 P99 P2 p3\nCREW H 0 0 0 0 0 -\n",
            "not in the book: person G\nnot in the book: P99 p3 of A\nnot in the book: person H\n",
        ),
    ] {
        let found = unknown_text(rt.alloc(), &problem, text.as_bytes())?;
        assert!(rt; found.as_slice() == lines.as_bytes(), "{text}");
    }
    Ok(())
}
