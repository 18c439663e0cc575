//! A text that is a book in which a pairing breaks off.

ghost use Rattle.std.specs.Prelude.{◌<◌, IfErr, IfOk, length};
ghost use Rattle.roster_desk_made.specs.Made.{IsRead, TellsFault};
ghost use Rattle.roster_desk_repair.specs.Made.{IsBroken};

use crate::keeping::Off;
use crate::writing::broken_text;
use roster_desk_made::{MadeBook, Unmade, book_of};
use roster_desk_repair_judged::{Break, is_broken_off};
use roster_desk_reports::pairing_named;
use roster_model::limits::MOST_NAME_BYTES;
use roster_problem::Problem;
use std::alloc::{AllocError, Global};

/// What is left of a name if a number is put behind it.
const HEAD_BYTES: usize = MOST_NAME_BYTES - 3;

/// A book in which what is left of a pairing is another's.
#[derive(Drop)]
pub struct BrokenBook {
    /// Its text.
    pub text: Vec<u8>,
    /// What it asks to be rostered.
    pub problem: Problem,
    /// What is called so: what is left, if that is a pairing, and the duty that brings somebody there.
    pub name: Vec<u8>,
}

/// Whether the book has neither a pairing nor a duty of the name.
fn is_free(book: &Problem, name: &[u8]) -> bool {
    let duties = book.duties();
    pairing_named(book, name).is_none() && !duties.iter().any(|duty| duty.id.as_bytes() == name)
}

/// The name with a number behind it that the book doesn't have yet, if one is free.
fn free_name(alloc: Global, book: &Problem, name: &[u8]) -> Result<Vec<u8>, AllocError> {
    let (head, _) = name.split_at(name.len().min(HEAD_BYTES));
    for number in 2..100u32 {
        let tail = format!(in alloc; "-{number}")?;
        let mut free = Vec::from_slice(alloc, head)?;
        free.extend_from_slice(tail.as_bytes())?;
        if is_free(book, &free) {
            return Ok(free);
        }
    }
    Vec::from_slice(alloc, name)
}

/// The book that was read, if it is the one in which the pairing breaks off.
fn broken(book: &Problem, off: &Break, name: Vec<u8>, read: MadeBook) -> Result<BrokenBook, Unmade>
    requires pairing { off.now.pairing < length book.now.pairings }
    requires read { IsRead read }
    ensures broken { IfOk result (IsBroken book.now off.now) }
    ensures fault { IfErr result TellsFault }
{
    let MadeBook { text, problem } = read;
    if !is_broken_off(book, off, &name, &problem) {
        return Err(Unmade::Unlike);
    }
    Ok(BrokenBook {
        text,
        problem,
        name,
    })
}

/// The book, whose bytes are the text, in which a pairing breaks off. None is given if it would have a fault,
/// as a duty that brings somebody there too late.
pub fn break_off(
    alloc: Global,
    text: &[u8],
    book: &Problem,
    off: &Break,
) -> Result<BrokenBook, Unmade>
    requires { off.now.pairing < length book.now.pairings }
    ensures broken { IfOk result (IsBroken book.now off.now) }
    ensures fault { IfErr result TellsFault }
{
    let name = free_name(alloc, book, book.pairing(off.pairing).id.as_bytes())?;
    let left = Off {
        book,
        broken: off,
        name: &name,
    };
    let text = broken_text(alloc, text, &left)?;
    match book_of(alloc, text) {
        Ok(read) => broken(book, off, name, read),
        Err(why) => Err(why),
    }
}
