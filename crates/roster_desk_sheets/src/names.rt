//! What persons are called.

ghost use Rattle.std.specs.Prelude.{◌≡◌, ◌<◌, [], IfOk, IfSome, length};
ghost use Rattle.roster_desk_sheets.specs.Called.{called_in, place_called};

use crate::mistakes::Mistakes;
use crate::sheet::{Entry, read_sheet};
use crate::shown::is_shown;
use crate::tables::{Column, Table};
use std::alloc::{AllocError, Global};

/// The bytes that a name may have, at most.
const MOST_NAME: usize = 80;

/// What is wanted of a name.
const WANTED: &str =
    "1 to 80 bytes of UTF-8 without control characters, of which the first is none of = + - @";

/// What a person is called.
#[derive(Drop)]
pub struct Called {
    /// The person's code, as a book has it.
    pub code: Vec<u8>,
    /// The name.
    pub name: Vec<u8>,
}

/// What persons are called, each once.
#[derive(Drop)]
pub struct Names {
    /// The persons who have a name.
    pub called: Vec<Called>,
}

/// The place of the code's entry, if there is one.
#[tactic(auto, unfolding(crate::specs::Called::place_called))]
fn place_of(called: &[Called], code: &[u8]) -> Option<usize>
    ensures value { result ≡ place_called code.now called.now }
    ensures within { IfSome result (λ i. i < length called.now) }
{
    called
        .iter()
        .position(|entry| entry.code.as_slice() == code)
}

impl Names {
    /// Nobody has a name.
    pub fn none(alloc: Global) -> Names
        ensures { result.called.items ≡ [] }
    {
        Names {
            called: Vec::new(alloc),
        }
    }

    /// What the person of the code is called; the code itself if the person has no name.
    pub fn of(&self, alloc: Global, code: &[u8]) -> Result<Vec<u8>, AllocError>
        ensures { IfOk result (λ name. name.items ≡ called_in self.now.called.items code.now) }
    {
        match place_of(self.called.as_slice(), code) {
            Some(i) => Vec::from_slice(alloc, self.called[i].name.as_slice()),
            None => Vec::from_slice(alloc, code),
        }
    }
}

/// Whether the text can be a name: a spreadsheet would take one that begins so for a formula.
fn is_name(text: &[u8]) -> bool {
    let is_formula = matches!(text.first(), Some(b'=' | b'+' | b'-' | b'@'));
    !text.is_empty() && text.len() <= MOST_NAME && !is_formula && is_shown(text)
}

/// Puts the name of a row behind the others.
fn push_name(
    alloc: Global,
    names: &mut Names,
    entry: Entry<'_>,
    mistakes: &mut Mistakes,
) -> Result<(), AllocError> {
    let (code, name) = (entry.get(Column::Person), entry.get(Column::Name));
    if place_of(names.called.as_slice(), code).is_some() {
        return entry.tell(alloc, mistakes, Column::Person, "each person once");
    }
    if !is_name(name) {
        return entry.tell(alloc, mistakes, Column::Name, WANTED);
    }
    let code = Vec::from_slice(alloc, code)?;
    let name = Vec::from_slice(alloc, name)?;
    names.called.push(Called { code, name })?;
    Ok(())
}

/// The names in the bytes of a table. What is wrong with it is told.
pub fn read_names(
    alloc: Global,
    bytes: &[u8],
    mistakes: &mut Mistakes,
) -> Result<Names, AllocError> {
    let sheet = read_sheet(alloc, Table::Names, bytes, mistakes)?;
    let mut names = Names::none(alloc);
    for i in 0..sheet.len() {
        if let Some(entry) = sheet.entry(i) {
            push_name(alloc, &mut names, entry, mistakes)?;
        }
    }
    Ok(names)
}
