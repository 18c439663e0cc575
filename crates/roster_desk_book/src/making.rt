//! The book.

ghost use Rattle.std.specs.Prelude.{◌≡◌, ◌<◌, IfOk, IfSome, None};
ghost use Rattle.roster_model.specs.Answer.{records_of};
ghost use Rattle.roster_model.specs.Faults.{first_fault};
ghost use Rattle.roster_model.specs.Record.{Check};

use crate::asked::Asked;
use crate::costs::push_costs;
use crate::crew::{push_bases, push_crew};
use crate::draft::Draft;
use crate::judged::judged;
use crate::leave::push_leaves;
use crate::pairings::{push_activities, push_pairings};
use crate::taken::{Taken, find_taken, tell_asked};
use roster_desk_fault::Kind;
use roster_desk_folder::{Cells, Files, Sheets, Tables, read_sheets, read_tables};
use roster_desk_sheets::{Column, Mistakes, Place, Table};
use std::alloc::{AllocError, Global};

/// What is made of the tables of a folder.
#[derive(Drop)]
pub struct Answer {
    /// The book; none if something is wrong with the tables.
    pub book: Option<Vec<u8>>,
    /// What is wrong with the tables.
    pub mistakes: Mistakes,
    /// A line for each table with columns that are passed over.
    pub passed_over: Vec<u8>,
}

/// The records of the book.
fn draft_of(
    alloc: Global,
    asked: &Asked<'_>,
    tables: &Tables,
    taken: &Taken,
) -> Result<Draft, AllocError> {
    let mut draft = Draft::new(alloc);
    let place = Place {
        table: Table::Pairings,
        line: 1,
        column: Column::Rows,
    };
    draft.push(Kind::Period, place, &[b"period", asked.month().as_bytes()])?;
    push_bases(&mut draft, asked, tables)?;
    push_crew(&mut draft, asked, tables, taken)?;
    push_leaves(&mut draft, asked, tables, taken)?;
    push_activities(&mut draft, asked, tables, taken)?;
    push_pairings(&mut draft, tables, taken)?;
    push_costs(&mut draft, tables, taken)?;
    Ok(draft)
}

/// A line for each table with columns that are passed over.
fn passed_over(alloc: Global, sheets: &Sheets) -> Result<Vec<u8>, AllocError> {
    let mut out = Vec::new(alloc);
    for &table in &Table::ALL {
        let Some(sheet) = sheets.of(table) else {
            continue;
        };
        let names = sheet.passed_over(alloc)?;
        if !names.is_empty() {
            let file = table.file();
            let head = format!(in alloc; "{file}: passed over ")?;
            out.extend_from_slice(head.as_bytes())?;
            out.extend_from_slice(names.as_slice())?;
            out.extend_from_slice(b"\n")?;
        }
    }
    Ok(out)
}

/// The book of what is asked, from the files of a folder. It is given only if nothing is wrong with the
/// tables, and then no record has a fault; if not, something is told.
pub fn make_book(alloc: Global, asked: &Asked<'_>, files: &Files) -> Result<Answer, AllocError>
    ensures good { IfOk result (λ answer. IfSome answer.book
        (λ text. first_fault Check (records_of text.items) ≡ None)) }
    ensures told { IfOk result (λ answer. answer.book ≡ None → 0 < answer.mistakes) }
{
    let mut mistakes = Mistakes::none(alloc);
    let sheets = read_sheets(alloc, files.tables.as_slice(), &mut mistakes)?;
    let mut cells = Cells { alloc, mistakes };
    let tables = read_tables(&mut cells, &sheets, files.zones.as_slice())?;
    let taken = find_taken(asked, &tables, &mut cells)?;
    let Cells {
        alloc: _,
        mut mistakes,
    } = cells;
    tell_asked(alloc, asked, &tables, &taken, &mut mistakes)?;
    let draft = draft_of(alloc, asked, &tables, &taken)?;
    draft.tell_limits(&mut mistakes)?;
    let book = judged(alloc, &sheets, draft.finish()?, &mut mistakes)?;
    let passed_over = passed_over(alloc, &sheets)?;
    Ok(Answer {
        book,
        mistakes,
        passed_over,
    })
}
