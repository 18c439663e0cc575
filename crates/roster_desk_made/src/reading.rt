//! The text that is made, as a book.

ghost use Rattle.std.specs.Prelude.{◌≡◌, IfErr, IfOk, None};
ghost use Rattle.roster_model.specs.Answer.{records_of};
ghost use Rattle.roster_model.specs.Faults.{first_fault};
ghost use Rattle.roster_model.specs.Problem.{problem_of};
ghost use Rattle.roster_model.specs.Record.{Check};
ghost use Rattle.roster_book.specs.Reading.{TellsFirst};
ghost use Rattle.roster_desk_made.specs.Made.{IsRead, TellsFault, TellsText};

use crate::unmade::Unmade;
use roster_book::{Book, BookFault, Command, read_book};
use roster_problem::Problem;
use roster_watched::Watched;
use std::alloc::Global;

/// A book without a fault that was made.
#[derive(Drop)]
pub struct MadeBook {
    /// Its text.
    pub text: Vec<u8>,
    /// What it asks to be rostered.
    pub problem: Problem,
}

/// The book that is read from the text.
fn read(alloc: Global, text: &[u8]) -> Result<Book, BookFault>
    ensures faultless { IfOk result (λ _. first_fault Check (records_of text.now) ≡ None) }
    ensures problem { IfOk result (λ book. book.problem ≡ problem_of (records_of text.now)) }
    ensures fault { IfErr result (TellsFirst Check (records_of text.now)) }
{
    let mut reader = Watched::new(text);
    read_book(alloc, &mut reader, Command::Check)
}

/// The text, and what it asks to be rostered, if it is a book without a fault.
pub fn book_of(alloc: Global, text: Vec<u8>) -> Result<MadeBook, Unmade>
    ensures text { IfOk result (λ made. made.text ≡ text) }
    ensures read { IfOk result IsRead }
    ensures fault { IfErr result TellsFault }
    ensures told { IfErr result (TellsText text.items) }
{
    match read(alloc, &text) {
        Ok(book) => Ok(MadeBook {
            text,
            problem: book.problem,
        }),
        Err(BookFault::At { row, code }) => Err(Unmade::At { text, row, code }),
        Err(BookFault::Memory) => Err(Unmade::Memory),
        // Bytes in memory are no device that fails.
        Err(BookFault::Device) => Err(Unmade::Unlike),
    }
}
