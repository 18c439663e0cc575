//! What is carried into the next month: the files that it takes, and those that get it.

use crate::tables::{Found, find_table};
use roster_desk_answers::CarryFiles;
use roster_desk_arguments::CarryLine;
use roster_desk_folder::TableFile;
use roster_desk_program::STANDARD_INPUT;
use roster_desk_sheets::Table;
use std::alloc::AllocError;
use std::fs;
use std::fs::File;
use std::io::Write;

/// The tables that get what is carried.
const CARRIED: [Table; 4] = [
    Table::CarriedActivities,
    Table::CarriedSectors,
    Table::CarriedLeave,
    Table::CarriedFlown,
];

/// A ledger without rows.
const NO_ROWS: &[u8] = b"PERSON,MONTH,FLIGHT\n";

/// Whether more than one path is standard input.
pub(crate) fn carry_shares_input(line: &CarryLine<'_>) -> bool {
    let book = line.book == STANDARD_INPUT;
    let report = line.report == STANDARD_INPUT;
    let flown = line.flown == Some(STANDARD_INPUT);
    book && (report || flown) || report && flown
}

/// Whether the line names a folder that has no name: the root of all files would be meant.
pub(crate) fn is_into_nothing(line: &CarryLine<'_>) -> bool {
    line.into == Some("")
}

/// The tables of the folder that were carried before; none if one can't be read, as standard error was told.
fn read_old(rt: &HostRuntime, folder: &str) -> Result<Option<Vec<TableFile>>, AllocError> {
    let mut old = Vec::new(rt.alloc());
    for &table in &CARRIED {
        match find_table(rt, folder, table)? {
            Found::Bytes(bytes) => old.push(TableFile { table, bytes })?,
            Found::Nothing => {}
            Found::Told => return Ok(None),
        }
    }
    Ok(Some(old))
}

/// The ledger of the folder: one without rows, if it has none; none if it can't be read, as standard error
/// was told.
fn read_own_ledger(rt: &HostRuntime, folder: &str) -> Result<Option<Vec<u8>>, AllocError> {
    match find_table(rt, folder, Table::Flown)? {
        Found::Bytes(bytes) => Ok(Some(bytes)),
        Found::Nothing => Ok(Some(Vec::from_slice(rt.alloc(), NO_ROWS)?)),
        Found::Told => Ok(None),
    }
}

/// The files that are needed besides the book, the report and the ledger that the line names, if it does;
/// none if one can't be read, as standard error was told.
pub(crate) fn read_carry_files(
    rt: &HostRuntime,
    into: Option<&str>,
    flown: Option<Vec<u8>>,
) -> Result<Option<CarryFiles>, AllocError> {
    let Some(folder) = into else {
        let old = Vec::new(rt.alloc());
        return Ok(Some(CarryFiles { flown, old }));
    };
    let Some(old) = read_old(rt, folder)? else {
        return Ok(None);
    };
    if flown.is_some() {
        return Ok(Some(CarryFiles { flown, old }));
    }
    match read_own_ledger(rt, folder)? {
        Some(bytes) => Ok(Some(CarryFiles {
            flown: Some(bytes),
            old,
        })),
        None => Ok(None),
    }
}

/// The path of a table's file in the folder, and of the new file beside it.
fn paths_of(rt: &HostRuntime, folder: &str, table: Table) -> Result<(String, String), AllocError> {
    let file = table.file();
    let path = format!(in rt.alloc(); "{folder}/{file}")?;
    let part = format!(in rt.alloc(); "{folder}/{file}.part")?;
    Ok((path, part))
}

/// Writes the bytes to a new file at the path. Whether that could be done.
fn is_written(rt: &HostRuntime, path: &str, bytes: &[u8]) -> bool {
    match File::create(rt, path) {
        Ok(mut file) => file.write_all(bytes).is_ok() && file.flush().is_ok(),
        Err(_) => false,
    }
}

/// Puts the files into the folder: each is written to a new file, and these take their places if all are
/// whole. Whether that could be done. If memory runs out, no file is made.
pub(crate) fn put_files(
    rt: &HostRuntime,
    folder: &str,
    files: &[TableFile],
) -> Result<bool, AllocError> {
    let mut paths = Vec::new(rt.alloc());
    for file in files {
        paths.push(paths_of(rt, folder, file.table)?)?;
    }
    let mut done = true;
    for (file, paths) in files.iter().zip(&paths) {
        done = done && is_written(rt, paths.1.as_str(), file.bytes.as_slice());
    }
    for (path, part) in &paths {
        done = done && fs::rename(rt, part.as_str(), path.as_str()).is_ok();
        if !done {
            let _ = fs::remove_file(rt, part.as_str());
        }
    }
    Ok(done)
}
