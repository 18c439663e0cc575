//! What is wrong with cells, and what is wanted of them.

ghost use Rattle.std.specs.Prelude.{◌≡◌, ◌==◌, ◌<◌, ◌≤◌, OnOk};

use crate::shown::push_field;
use crate::tables::{Column, Table};
use std::alloc::{AllocError, Global};
use std::marker::Model;

/// The mistakes that are kept, at most; others are only counted.
pub const MOST_MISTAKES: usize = 100;

/// Where a mistake is.
#[derive(Clone, Copy)]
pub struct Place {
    /// The table.
    pub table: Table,
    /// The line of its file, from 1.
    pub line: usize,
    /// The column.
    pub column: Column,
}

/// What is wrong with a cell.
#[derive(Drop)]
struct Mistake {
    place: Place,
    // What stands there, so that it can be shown.
    has: Vec<u8>,
    wanted: String,
}

/// What is wrong with the tables of a folder. Clauses see how many mistakes are kept, which are
/// [`MOST_MISTAKES`] at most.
#[derive(Drop)]
pub struct Mistakes {
    kept: Vec<Mistake>,
    // How many aren't kept.
    more: usize,
}

impl Model for Mistakes {
    ghost use Rattle.std.specs.Prelude.{ℕ, ◌≤◌, vec_len};
    ghost use Rattle.roster_desk_sheets.specs.declared.mistakes.TheConstants.{MOST_MISTAKES};

    ghost Value = { ℕ };

    ghost view = { λ m. vec_len m.kept };

    ghost invariant = { λ m. vec_len m.kept ≤ MOST_MISTAKES };
}

impl Mistakes {
    /// No mistake.
    pub fn none(alloc: Global) -> Mistakes
        ensures { result ≡ 0 }
    {
        Mistakes {
            kept: Vec::new(alloc),
            more: 0,
        }
    }

    /// Whether there is none.
    pub fn is_empty(&self) -> bool
        ensures { result ≡ (self.now == 0) }
    {
        self.kept.is_empty()
    }

    /// Whether one of those that are kept is of the cell.
    pub fn has(&self, place: Place) -> bool {
        self.kept.iter().any(|mistake| {
            mistake.place.table == place.table
                && mistake.place.line == place.line
                && mistake.place.column == place.column
        })
    }

    /// Keeps one more, or counts it if enough are kept.
    pub fn push(
        &mut self,
        alloc: Global,
        place: Place,
        has: &[u8],
        wanted: &str,
    ) -> Result<(), AllocError>
        ensures told { OnOk result (0 < self.new) }
        ensures keeps { self.old ≤ self.new }
    {
        if self.kept.len() >= MOST_MISTAKES {
            self.more = self.more.saturating_add(1);
            return Ok(());
        }
        let mut shown = Vec::new(alloc);
        push_field(alloc, &mut shown, has)?;
        let wanted = String::from_str(alloc, wanted)?;
        self.kept.push(Mistake {
            place,
            has: shown,
            wanted,
        })?;
        Ok(())
    }

    /// A line for each that is kept, and how many there are besides. The folder's path stands before the
    /// names of files.
    pub fn text(&self, alloc: Global, folder: &str) -> Result<Vec<u8>, AllocError> {
        self.text_in(alloc, folder, None)
    }

    /// The same, if a table has a path of its own.
    pub fn text_with(
        &self,
        alloc: Global,
        folder: &str,
        table: Table,
        path: &str,
    ) -> Result<Vec<u8>, AllocError> {
        self.text_in(alloc, folder, Some((table, path)))
    }

    /// The lines, with the path of the table that isn't in the folder, if there is one.
    fn text_in(
        &self,
        alloc: Global,
        folder: &str,
        outside: Option<(Table, &str)>,
    ) -> Result<Vec<u8>, AllocError> {
        let mut out = Vec::new(alloc);
        for mistake in &self.kept {
            let path = path_of(alloc, folder, outside, mistake.place.table)?;
            push_mistake(alloc, &mut out, path.as_str(), mistake)?;
        }
        if self.more > 0 {
            let more = self.more;
            let line = format!(in alloc; "error: {more} more mistakes\n")?;
            out.extend_from_slice(line.as_bytes())?;
        }
        Ok(out)
    }
}

/// The path of the table's file.
fn path_of(
    alloc: Global,
    folder: &str,
    outside: Option<(Table, &str)>,
    table: Table,
) -> Result<String, AllocError> {
    match outside {
        Some((other, path)) if other == table => return String::from_str(alloc, path),
        _ => {}
    }
    let file = table.file();
    format!(in alloc; "{folder}/{file}")
}

/// Appends the line of a mistake in the file at the path.
fn push_mistake(
    alloc: Global,
    out: &mut Vec<u8>,
    path: &str,
    mistake: &Mistake,
) -> Result<(), AllocError> {
    let Place { line, column, .. } = mistake.place;
    let column = column.name();
    let head = format!(in alloc; "error: {path}, line {line}, {column}: has ")?;
    out.extend_from_slice(head.as_bytes())?;
    if mistake.has.is_empty() {
        out.extend_from_slice(b"nothing")?;
    } else {
        out.extend_from_slice(mistake.has.as_slice())?;
    }
    out.extend_from_slice(b"; wanted ")?;
    out.extend_from_slice(mistake.wanted.as_bytes())?;
    out.extend_from_slice(b"\n")
}
