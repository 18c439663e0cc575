//! What the paths of a command line hold.

use roster_desk_answers::{FileRead, Inputs};
use roster_desk_arguments::{Question, TellLine};
use roster_desk_program::{MOST_REPORT_BYTES, STANDARD_INPUT};
use std::alloc::Global;
use std::fs::File;
use std::io;
use std::io::Read;

/// Why an input wasn't read.
#[derive(Clone, Copy)]
pub(crate) enum InputFault<'a> {
    /// The file at the path can't be opened.
    Unopened(&'a str),
    /// The file at the path is too long for a report.
    TooLong(&'a str),
    /// The file at the path can't be read, as a folder.
    Unread(&'a str),
    /// Memory ran out.
    Memory,
}

/// The fault for an error of the device at the path.
fn failed<'a>(error: &io::Error, path: &'a str) -> InputFault<'a> {
    match error.kind() {
        io::ErrorKind::OutOfMemory => InputFault::Memory,
        _ => InputFault::Unread(path),
    }
}

/// The bytes of the reader up to its end, which is of the path.
pub(crate) fn all_of<R: Read + Drop>(
    alloc: Global,
    mut reader: R,
    path: &str,
) -> Result<Vec<u8>, InputFault<'_>> {
    let mut bytes = Vec::new(alloc);
    match reader.read_to_end(&mut bytes) {
        Ok(_) => Ok(bytes),
        Err(error) => Err(failed(&error, path)),
    }
}

/// The first bytes at the path, so many at most.
fn read_path<'a>(rt: &HostRuntime, path: &'a str, most: u64) -> Result<Vec<u8>, InputFault<'a>> {
    if path == STANDARD_INPUT {
        return all_of(rt.alloc(), rt.reader().take(most), path);
    }
    match File::open(rt, path) {
        Ok(file) => all_of(rt.alloc(), file.take(most), path),
        Err(error) if error.kind() == io::ErrorKind::OutOfMemory => Err(InputFault::Memory),
        Err(_) => Err(InputFault::Unopened(path)),
    }
}

/// The bytes of the book at the path.
pub(crate) fn read_book_at<'a>(rt: &HostRuntime, path: &'a str) -> Result<Vec<u8>, InputFault<'a>> {
    read_path(rt, path, u64::MAX)
}

/// The bytes of the report at the path.
pub(crate) fn read_report_at<'a>(
    rt: &HostRuntime,
    path: &'a str,
) -> Result<Vec<u8>, InputFault<'a>> {
    let bytes = read_path(rt, path, MOST_REPORT_BYTES)?;
    if bytes.len() as u64 >= MOST_REPORT_BYTES {
        return Err(InputFault::TooLong(path));
    }
    Ok(bytes)
}

/// The path of the other report, if there is one.
fn other_path<'a>(line: &TellLine<'a>) -> Option<&'a str> {
    match line.question {
        Question::Differences { other } | Question::Changed { other } => Some(other),
        _ => None,
    }
}

/// The path of the table that tells what persons are called, if there is one.
fn names_path<'a>(line: &TellLine<'a>) -> Option<&'a str> {
    match line.question {
        Question::Table(table) => table.names,
        Question::Chart { names } => names,
        _ => None,
    }
}

/// Whether more than one path is standard input. No question has names and another report.
pub(crate) fn shares_input(line: &TellLine<'_>) -> bool {
    let book = line.book == STANDARD_INPUT;
    let report = line.report == Some(STANDARD_INPUT);
    let third = other_path(line).or(names_path(line)) == Some(STANDARD_INPUT);
    book && (report || third) || report && third
}

/// The bytes of all inputs of the line.
pub(crate) fn read_inputs<'a>(
    rt: &HostRuntime,
    line: &TellLine<'a>,
) -> Result<Inputs<'a>, InputFault<'a>> {
    let book = read_book_at(rt, line.book)?;
    let report = match line.report {
        Some(path) => Some(FileRead {
            path,
            bytes: read_report_at(rt, path)?,
        }),
        None => None,
    };
    let other = match other_path(line) {
        Some(path) => read_report_at(rt, path)?,
        None => Vec::new(rt.alloc()),
    };
    let names = match names_path(line) {
        Some(path) => Some(FileRead {
            path,
            bytes: read_book_at(rt, path)?,
        }),
        None => None,
    };
    Ok(Inputs {
        book,
        report,
        other,
        names,
    })
}
