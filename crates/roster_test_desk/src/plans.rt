//! The command `plan` over files in memory.

ghost use Rattle.std.specs.Prelude.{◌≡◌, IfOk, IfSome, None};
ghost use Rattle.roster_model.specs.Answer.{records_of};
ghost use Rattle.roster_model.specs.Plans.{IsPlanned};

use crate::memory::{Full, One, Pages, Told, files_of};
use roster_desk_arguments::PlanLine;
use roster_desk_program::{Files, program};
use roster_watched::Watched;
use std::alloc::{AllocError, Global};
use std::process::{Abort, ExitCode};
use std::test::Fail;
use std::thread::Threads;

const BOOK: &[u8] =
    b"period,2024-03\nbase,BAS,UTC0\ncrew,A,BAS,0,0,0\ncrew,B,BAS,0,0,0\npairing,P1,BAS,100\n\
      duty,Q1,P,P1,BAS,2024-03-04T06:00Z,2024-03-04T14:00Z\n";

/// Of the best roster.
const REPORT: &[u8] =
    b"ROSTER 2024-03\nCOST 0\nCREW A 0 480 480 480 0 P1\nCREW B 0 0 0 0 0 -\nOPEN -\n";

/// What is written of a book without a record.
const LINE: &[u8] = b"FAULT 1 1\n";

/// A line that names this book and nothing else.
fn line_of(book: &str) -> PlanLine<'_>
    ensures { result.start ≡ None }
{
    PlanLine {
        book,
        effort: 1,
        workers: Some(1),
        sets: None,
        start: None,
        progress: false,
        keep: None,
    }
}

/// The plan of a book in memory. That its clause is proved shows that files in memory meet all that `program`
/// supposes of them.
fn text_of<R: Threads + Sync>(
    rt: &R,
    alloc: Global,
    book: &[u8],
) -> Result<Option<Vec<u8>>, AllocError>
    ensures { IfOk result (λ text. IfSome text (λ text. IsPlanned (records_of book.now) text.items)) }
{
    let mut files = Files::new(One { bytes: book });
    let mut writer = Watched::new(Vec::new(alloc));
    let mut errors = Watched::new(Vec::new(alloc));
    let mut told = Told::new();
    let line = line_of("book");
    let ended = program(
        rt,
        alloc,
        &line,
        &mut files,
        &mut writer,
        &mut errors,
        &mut told,
    );
    if ended == ExitCode::SUCCESS {
        return Ok(Some(Vec::from_slice(alloc, writer.inner().as_slice())?));
    }
    Ok(None)
}

#[test]
fn a_plan_is_written(rt: HostRuntime) -> Result<(), Fail> {
    let text = text_of(&rt, rt.alloc(), BOOK)?.ok_or("a text")?;
    assert!(rt; text.as_slice() == REPORT);
    Ok(())
}

/// The line over these files ends with this status, with so many plans that weren't kept, and writes and
/// tells this.
fn ends<R: Threads + Abort + AllocGlobal + Sync>(
    rt: &R,
    line: &PlanLine<'_>,
    pages: Pages<'_>,
    status: u8,
    written: &[u8],
    told: &[u8],
) {
    let mut files = Files::new(pages);
    let mut writer = Watched::new(Vec::new(rt.alloc()));
    let mut errors = Watched::new(Vec::new(rt.alloc()));
    let mut watcher = Told::new();
    let ended = program(
        rt,
        rt.alloc(),
        line,
        &mut files,
        &mut writer,
        &mut errors,
        &mut watcher,
    );
    assert!(rt; ended == ExitCode::from(status));
    assert!(rt; writer.inner().as_slice() == written);
    assert!(rt; errors.inner().as_slice() == told);
    assert!(rt; files.missed() == (status == 4));
    assert!(rt; watcher.ended < 2);
}

#[test]
fn a_plan_is_kept_and_begins_with_a_report(rt: HostRuntime) {
    let line = PlanLine {
        start: Some("report"),
        keep: Some("kept"),
        ..line_of("book")
    };
    ends(&rt, &line, files_of(BOOK, REPORT), 0, REPORT, b"");
}

#[test]
fn standard_input_is_a_book(rt: HostRuntime) {
    ends(&rt, &line_of("-"), files_of(BOOK, REPORT), 0, REPORT, b"");
}

#[test]
fn a_fault_is_written(rt: HostRuntime) {
    ends(&rt, &line_of("book"), files_of(b"", REPORT), 1, LINE, b"");
}

#[test]
fn a_report_is_refused(rt: HostRuntime) -> Result<(), Fail> {
    let line = PlanLine {
        start: Some("report"),
        ..line_of("book")
    };
    let told = b"error: report, line 1: a report begins with ROSTER or PLAN and a month\n";
    ends(&rt, &line, files_of(BOOK, LINE), 1, b"", told);
    let mut long = Vec::new(rt.alloc());
    for _ in 0..1_u32 << 20 {
        long.push(b' ')?;
    }
    let told = b"error: report is too long for a report\n";
    let long = files_of(BOOK, long.as_slice());
    ends(&rt, &line, long, 1, b"", told);
    Ok(())
}

#[test]
fn a_line_is_refused(rt: HostRuntime) {
    for path in ["book", "-", "./book"] {
        let line = PlanLine {
            keep: Some(path),
            ..line_of("book")
        };
        let told = b"error: a plan can't be kept in its book or in -\n";
        ends(&rt, &line, files_of(BOOK, REPORT), 2, b"", told);
    }
    let line = PlanLine {
        start: Some("-"),
        ..line_of("-")
    };
    let told = b"error: only one of the paths may be -\n";
    ends(&rt, &line, files_of(BOOK, REPORT), 2, b"", told);
}

#[test]
fn want_of_memory_is_told(rt: HostRuntime) {
    let line = PlanLine {
        keep: Some("unknown"),
        ..line_of("book")
    };
    let told = b"error: memory\n";
    ends(&rt, &line, files_of(BOOK, REPORT), 3, b"", told);
}

#[test]
fn a_file_that_fails_is_told(rt: HostRuntime) {
    let none = line_of("none");
    let told = b"error: none can't be opened\n";
    ends(&rt, &none, files_of(BOOK, REPORT), 4, b"", told);
    let line = PlanLine {
        start: Some("report"),
        ..line_of("book")
    };
    let mut broken = files_of(BOOK, REPORT);
    broken.broken = "report";
    let told = b"error: report can't be read\n";
    ends(&rt, &line, broken, 4, b"", told);
    let mut broken = files_of(BOOK, REPORT);
    broken.broken = "-";
    let told = b"error: read\n";
    ends(&rt, &line_of("-"), broken, 4, b"", told);
}

#[test]
fn a_plan_that_is_not_kept_is_told(rt: HostRuntime) {
    let line = PlanLine {
        keep: Some("another"),
        ..line_of("book")
    };
    ends(&rt, &line, files_of(BOOK, REPORT), 4, REPORT, b"");
}

#[test]
fn a_writer_that_fails_is_told(rt: HostRuntime) {
    let mut files = Files::new(files_of(BOOK, REPORT));
    let mut errors = Watched::new(Vec::new(rt.alloc()));
    let mut watcher = Told::new();
    let line = line_of("book");
    let ended = program(
        &rt,
        rt.alloc(),
        &line,
        &mut files,
        &mut Watched::new(Full),
        &mut errors,
        &mut watcher,
    );
    assert!(rt; ended == ExitCode::from(4) && !files.missed());
    assert!(rt; errors.inner().as_slice() == b"error: write\n".as_slice());
}
