//! What is likely a mistake in a book that has no fault.

ghost use Rattle.std.specs.Prelude.{ℕ, IfOk, List, OnOk};
ghost use Rattle.roster_desk_fault.specs.Told.{IsOfWord};

use crate::rows::{Record, push_record};
use roster_desk_words::push_all;
use std::alloc::{AllocError, Global};

/// How many warnings of one word are told, at most.
const MOST_OF_A_WORD: usize = 5;

/// What is likely a mistake in a record.
#[derive(Drop)]
pub(crate) struct Warning {
    /// The place of the record.
    pub(crate) at: usize,
    /// Why it is told.
    pub(crate) why: String,
}

/// Puts a warning of the record at the place behind the others.
pub(crate) fn warn(
    warnings: &mut Vec<Warning>,
    alloc: Global,
    at: usize,
    why: &str,
) -> Result<(), AllocError> {
    let why = String::from_str(alloc, why)?;
    warnings.push(Warning { at, why })?;
    Ok(())
}

/// What is said of a warning: its record, and why it is told.
fn said_of(alloc: Global, row: &Record, warning: &Warning) -> Result<Vec<u8>, AllocError> {
    let line = row.line();
    let mut out = Vec::new(alloc);
    let head = format!(in alloc; "  line    {line}\n  record  ")?;
    out.extend_from_slice(head.as_bytes())?;
    push_record(alloc, &mut out, row)?;
    push_all(&mut out, &[b"\n  why     ", warning.why.as_bytes(), b"\n"])?;
    Ok(out)
}

/// Appends a warning with its record.
fn push_warning(
    alloc: Global,
    out: &mut Vec<u8>,
    rows: &[Record],
    word: &str,
    warning: &Warning,
) -> Result<(), AllocError>
    ensures { OnOk result (IsOfWord word.now out.old.items → IsOfWord word.now out.new.items) }
{
    let Some(row) = rows.get(warning.at) else {
        return Ok(());
    };
    let number = (warning.at + 1).to_string(alloc)?;
    let said = said_of(alloc, row, warning)?;
    push_all(
        out,
        &[
            b"WARN ",
            number.as_bytes(),
            b" ",
            word.as_bytes(),
            b"\n",
            said.as_slice(),
        ],
    )?;
    Ok(())
}

/// Appends how many more warnings there are, if any is told.
fn push_more(alloc: Global, out: &mut Vec<u8>, more: usize) -> Result<(), AllocError>
    ensures { OnOk result ((word : List ℕ) → IsOfWord word out.old.items → IsOfWord word out.new.items) }
{
    if more == 0 || out.is_empty() {
        return Ok(());
    }
    let line = format!(in alloc; "  more    {more} other records, in the same way\n")?;
    out.extend_from_slice(line.as_bytes())?;
    Ok(())
}

/// The first warnings of a word, and how many more there are.
pub(crate) fn warnings_text(
    alloc: Global,
    rows: &[Record],
    word: &str,
    warnings: &[Warning],
) -> Result<Vec<u8>, AllocError>
    ensures { IfOk result (λ text. IsOfWord word.now text.items) }
{
    let mut out = Vec::new(alloc);
    for (n, warning) in warnings.iter().enumerate() {
        if n < MOST_OF_A_WORD {
            push_warning(alloc, &mut out, rows, word, warning)?;
        }
    }
    push_more(
        alloc,
        &mut out,
        warnings.len().saturating_sub(MOST_OF_A_WORD),
    )?;
    Ok(out)
}
