//! The commands that write a book, or tables of one.

use crate::carried::{carry_shares_input, is_into_nothing, put_files, read_carry_files};
use crate::ending::{LINE_REFUSED, ended, inputs_shared, tell_text, unread_input, untold_ended};
use crate::inputs::{read_book_at, read_report_at};
use crate::tables::read_files;
use roster_desk_answers::{CarryFiles, carry_on, mend, write_book};
use roster_desk_arguments::{BookLine, CarryLine, RepairLine};
use roster_desk_folder::TableFile;
use roster_desk_program::STANDARD_INPUT;
use roster_desk_run::Status;
use roster_watched::Watched;
use std::io;
use std::process::ExitCode;

/// Writes the book of a repair.
pub(crate) fn answer_repair(rt: &HostRuntime, line: &RepairLine<'_>) -> ExitCode {
    if line.book == STANDARD_INPUT && line.report == STANDARD_INPUT {
        return inputs_shared(rt);
    }
    let book = match read_book_at(rt, line.book) {
        Ok(book) => book,
        Err(fault) => return unread_input(rt, fault),
    };
    let report = match read_report_at(rt, line.report) {
        Ok(report) => report,
        Err(fault) => return unread_input(rt, fault),
    };
    let mut writer = Watched::new(io::writer(rt));
    match mend(
        rt.alloc(),
        line,
        book.as_slice(),
        report.as_slice(),
        &mut writer,
    ) {
        Ok(mended) => {
            if mended.status == Status::Answered {
                tell_text(rt, mended.notes.as_slice());
            }
            ended(rt, mended.status)
        }
        Err(untold) => untold_ended(rt, &untold),
    }
}

/// Writes the book of the tables of a folder.
pub(crate) fn answer_book(rt: &HostRuntime, line: &BookLine<'_>) -> ExitCode {
    let report = match line.start {
        Some(path) => read_report_at(rt, path),
        None => Ok(Vec::new(rt.alloc())),
    };
    let report = match report {
        Ok(report) => report,
        Err(fault) => return unread_input(rt, fault),
    };
    let files = match read_files(rt, line.folder) {
        Ok(Some(files)) => files,
        Ok(None) => return Status::ReadFailed.exit_code(),
        Err(_) => return ended(rt, Status::Memory),
    };
    let mut writer = Watched::new(io::writer(rt));
    match write_book(rt.alloc(), line, &files, report.as_slice(), &mut writer) {
        Ok(made) => {
            tell_text(rt, made.notes.as_slice());
            ended(rt, made.status)
        }
        Err(untold) => untold_ended(rt, &untold),
    }
}

/// Writes the next month's book, or tables of it.
pub(crate) fn answer_carry(rt: &HostRuntime, line: &CarryLine<'_>) -> ExitCode {
    if carry_shares_input(line) {
        return inputs_shared(rt);
    }
    if is_into_nothing(line) {
        let _ = eprintln!(rt; "error: --into wants the path of a folder");
        return ExitCode::from(LINE_REFUSED);
    }
    let book = match read_book_at(rt, line.book) {
        Ok(book) => book,
        Err(fault) => return unread_input(rt, fault),
    };
    let report = match read_report_at(rt, line.report) {
        Ok(report) => report,
        Err(fault) => return unread_input(rt, fault),
    };
    let flown = match line.flown {
        Some(path) => match read_book_at(rt, path) {
            Ok(flown) => Some(flown),
            Err(fault) => return unread_input(rt, fault),
        },
        None => None,
    };
    match read_carry_files(rt, line.into, flown) {
        Ok(Some(files)) => carry(rt, line, book.as_slice(), report.as_slice(), &files),
        Ok(None) => Status::ReadFailed.exit_code(),
        Err(_) => ended(rt, Status::Memory),
    }
}

/// Writes the next month's book, or tables of it, of what was read.
fn carry(
    rt: &HostRuntime,
    line: &CarryLine<'_>,
    book: &[u8],
    report: &[u8],
    files: &CarryFiles,
) -> ExitCode {
    let mut writer = Watched::new(io::writer(rt));
    match carry_on(rt.alloc(), line, book, report, files, &mut writer) {
        Ok(carried) => {
            tell_text(rt, carried.notes.as_slice());
            if is_put(rt, line, carried.files.as_slice()) {
                ended(rt, carried.status)
            } else {
                Status::WriteFailed.exit_code()
            }
        }
        Err(untold) => untold_ended(rt, &untold),
    }
}

/// Puts the files into the folder of the line, if it names one. Whether that could be done; if not, it is
/// told.
fn is_put(rt: &HostRuntime, line: &CarryLine<'_>, files: &[TableFile]) -> bool {
    let Some(folder) = line.into else {
        return true;
    };
    if let Ok(true) = put_files(rt, folder, files) {
        return true;
    }
    let _ = eprintln!(rt; "error: the tables of {folder} can't be written");
    false
}
