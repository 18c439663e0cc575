//! The files of a folder of tables, and the zone files of the machine that they name.

use crate::ending::tell_text;
use crate::inputs::{InputFault, all_of};
use roster_desk_folder::{Files, TableFile, ZoneFile, zone_names};
use roster_desk_sheets::{Table, push_field};
use std::alloc::AllocError;
use std::fs::File;
use std::io::Read;
use std::{fs, io};

/// Where the machine has its zone files.
const ZONES: &str = "/usr/share/zoneinfo";

/// How the name of a table's file ends.
const END: &[u8] = b".csv";

/// No zone file has so many bytes.
const MOST_ZONE_FILE_BYTES: u64 = 1 << 20;

/// What has come of reading the file of a table.
#[derive(Drop)]
pub(crate) enum Found {
    /// It holds these bytes.
    Bytes(Vec<u8>),
    /// There is none, and needn't be.
    Nothing,
    /// It can't be read, as standard error was told.
    Told,
}

/// Tells that the file at the path can't be opened or read.
fn tell(rt: &HostRuntime, path: &str, what: &str) -> Found {
    let _ = eprintln!(rt; "error: {path} can't be {what}");
    Found::Told
}

/// Whether anything is there, as a link that leads nowhere.
fn is_there(rt: &HostRuntime, path: &str) -> bool {
    fs::symlink_metadata(rt, path).is_ok()
}

/// The file of the table in the folder.
pub(crate) fn find_table(
    rt: &HostRuntime,
    folder: &str,
    table: Table,
) -> Result<Found, AllocError> {
    let file = table.file();
    let path = format!(in rt.alloc(); "{folder}/{file}")?;
    let file = match File::open(rt, path.as_str()) {
        Ok(file) => file,
        Err(error) => {
            return match error.kind() {
                io::ErrorKind::OutOfMemory => Err(AllocError),
                io::ErrorKind::NotFound if !table.is_needed() && !is_there(rt, path.as_str()) => {
                    Ok(Found::Nothing)
                }
                _ => Ok(tell(rt, path.as_str(), "opened")),
            };
        }
    };
    match all_of(rt.alloc(), file, path.as_str()) {
        Ok(bytes) => Ok(Found::Bytes(bytes)),
        Err(InputFault::Memory) => Err(AllocError),
        Err(_) => Ok(tell(rt, path.as_str(), "read")),
    }
}

/// What the zone file of the name holds; none if there is no such file.
fn read_zone_file(rt: &HostRuntime, name: &str) -> Result<Option<Vec<u8>>, AllocError> {
    let path = format!(in rt.alloc(); "{ZONES}/{name}")?;
    let file = match File::open(rt, path.as_str()) {
        Ok(file) => file,
        Err(error) if error.kind() == io::ErrorKind::OutOfMemory => return Err(AllocError),
        Err(_) => return Ok(None),
    };
    match all_of(rt.alloc(), file.take(MOST_ZONE_FILE_BYTES), path.as_str()) {
        Ok(bytes) => Ok(Some(bytes)),
        Err(InputFault::Memory) => Err(AllocError),
        Err(_) => Ok(None),
    }
}

/// The zone files that the tables name, as far as the machine has them.
fn read_zone_files(rt: &HostRuntime, tables: &[TableFile]) -> Result<Vec<ZoneFile>, AllocError> {
    let mut zones: Vec<ZoneFile> = Vec::new(rt.alloc());
    for name in zone_names(rt.alloc(), tables)? {
        if zones.iter().any(|zone| zone.name == name) {
            continue;
        }
        if let Some(bytes) = read_zone_file(rt, name.as_str())? {
            zones.push(ZoneFile { name, bytes })?;
        }
    }
    Ok(zones)
}

/// The tables that the folder has; none if one can't be read. Each such one is told.
fn read_tables(rt: &HostRuntime, folder: &str) -> Result<Option<Vec<TableFile>>, AllocError> {
    let mut tables = Vec::new(rt.alloc());
    let mut is_told = false;
    for &table in &Table::ALL {
        match find_table(rt, folder, table)? {
            Found::Bytes(bytes) => tables.push(TableFile { table, bytes })?,
            Found::Nothing => {}
            Found::Told => is_told = true,
        }
    }
    if is_told { Ok(None) } else { Ok(Some(tables)) }
}

/// Whether a file of the name looks like a table, and is none that a folder may have.
fn is_other(name: &str) -> bool {
    let bytes = name.as_bytes();
    let end = &bytes[bytes.len().saturating_sub(END.len())..];
    end.eq_ignore_ascii_case(END) && !Table::ALL.iter().any(|table| table.file() == name)
}

/// The names of the folder's other files that look like tables, in order.
fn others_in(rt: &HostRuntime, folder: &str) -> Result<Vec<String>, AllocError> {
    let mut others = Vec::new(rt.alloc());
    let Ok(entries) = fs::read_dir(rt, folder) else {
        return Ok(others);
    };
    for entry in entries {
        let Ok(entry) = entry else {
            continue;
        };
        let name = entry.file_name();
        if is_other(name) {
            others.push(String::from_str(rt.alloc(), name)?)?;
        }
    }
    others.sort_unstable();
    Ok(others)
}

/// Tells each of them: whoever misses a table may have given it another name.
fn tell_others(rt: &HostRuntime, folder: &str) -> Result<(), AllocError> {
    for name in others_in(rt, folder)? {
        let mut shown = Vec::new(rt.alloc());
        push_field(rt.alloc(), &mut shown, name.as_bytes())?;
        shown.extend_from_slice(b": passed over, since no table has this name\n")?;
        tell_text(rt, shown.as_slice());
    }
    Ok(())
}

/// The files of the folder, and the zone files that they name; none if a file can't be read, as standard
/// error was told.
pub(crate) fn read_files(rt: &HostRuntime, folder: &str) -> Result<Option<Files>, AllocError> {
    tell_others(rt, folder)?;
    let Some(tables) = read_tables(rt, folder)? else {
        return Ok(None);
    };
    let zones = read_zone_files(rt, tables.as_slice())?;
    Ok(Some(Files { tables, zones }))
}
