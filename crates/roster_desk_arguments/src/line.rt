//! What the words of the command line ask for.

ghost use Rattle.std.specs.Prelude.{◌≡◌, ◌≢◌, [], IfErr, IfOk, map, string_bytes};
ghost use Rattle.clap.specs.Words.{fault_of, HasKind, Kinds};
ghost use Rattle.roster_desk_arguments.specs.Commands.{desk_app};
ghost use Rattle.roster_desk_arguments.specs.Line.{Asks, NamesMemory, TellsKind};

use crate::asked::asked;
use crate::commands::desk;
use clap::error::ErrorKind;
use std::alloc::{AllocError, Global};

/// What the words ask for.
#[derive(Drop)]
pub enum Line<'a> {
    /// A plan of a book.
    Plan(PlanLine<'a>),
    /// What is told of a roster of a book.
    Tell(TellLine<'a>),
    /// The `assign` records of the report at this path, or `-`.
    Assigns(&'a str),
    /// What is told of the records of a book.
    Page(PageLine<'a>),
    /// A repair of a book.
    Repair(RepairLine<'a>),
    /// A book of the tables of a folder.
    Book(BookLine<'a>),
    /// What the next month has of this one.
    Carry(CarryLine<'a>),
}

/// A plan of a book.
#[derive(Drop)]
pub struct PlanLine<'a> {
    /// The path of the book, or `-`.
    pub book: &'a str,
    /// How much is to be tried, from 0 to 9.
    pub effort: u32,
    /// How many threads may share the work; none if the machine says it.
    pub workers: Option<usize>,
    /// How many legal sets a person may have in one step, from 1 to 200000; none if effort says it.
    pub sets: Option<usize>,
    /// The path of the report that gives the roster to begin with, or `-`; none if the book gives it.
    pub start: Option<&'a str>,
    /// Whether standard error is told what is known on the way, though it is no terminal.
    pub progress: bool,
    /// The path of the file that keeps the plan on the way, if one does.
    pub keep: Option<&'a str>,
}

/// What is told of a roster of a book.
#[derive(Clone, Copy)]
pub struct TellLine<'a> {
    /// What is asked.
    pub question: Question<'a>,
    /// The path of the book, or `-`.
    pub book: &'a str,
    /// The path of the report that gives the roster, or `-`; none if the book gives it.
    pub report: Option<&'a str>,
}

/// What is asked of a roster.
#[derive(Clone, Copy)]
pub enum Question<'a> {
    /// Who could have a pairing, and why others mustn't.
    Why {
        /// The name of the pairing, if one is named.
        pairing: Option<&'a str>,
        /// The name of the person, if one is named.
        person: Option<&'a str>,
        /// Whether each person and each open pairing have a line.
        all: bool,
    },
    /// How near to each limit persons are.
    Limits {
        /// The name of the person, if one is named.
        person: Option<&'a str>,
    },
    /// Its rows.
    Table(TableLine<'a>),
    /// A picture of it.
    Chart {
        /// The path of the table that tells what persons are called, or `-`, if there is one.
        names: Option<&'a str>,
    },
    /// What differs from it in another roster.
    Differences {
        /// The path of the report that gives the other roster, or `-`.
        other: &'a str,
    },
    /// Whose month differs in another roster, and on which days.
    Changed {
        /// The path of the report that gives the other roster, or `-`.
        other: &'a str,
    },
}

/// The rows of a roster, and how they are written.
#[derive(Clone, Copy)]
pub struct TableLine<'a> {
    /// Whether there is one for each person, in place of one for each pairing, duty and leave.
    pub persons: bool,
    /// Whether semicolons part their cells, in place of commas.
    pub semicolon: bool,
    /// Whether a byte order mark stands before them.
    pub bom: bool,
    /// The path of the table that tells what persons are called, or `-`, if there is one.
    pub names: Option<&'a str>,
}

/// What is to be told of the records of a book.
#[derive(Clone, Copy)]
pub enum Page {
    /// Their faults.
    Fault,
    /// What is likely a mistake in them, if they have no fault.
    Warn,
    /// The book with fair targets, if they have no fault.
    Fair,
}

/// What is told of the records of a book.
#[derive(Clone, Copy)]
pub struct PageLine<'a> {
    /// The path of the book, or `-`.
    pub book: &'a str,
    /// What is to be told.
    pub page: Page,
}

/// A repair of a book.
#[derive(Drop)]
pub struct RepairLine<'a> {
    /// The path of the book, or `-`.
    pub book: &'a str,
    /// The path of the report that was published, or `-`.
    pub report: &'a str,
    /// The text of the instant at which the repair begins.
    pub from: &'a str,
    /// What it costs that a pairing moves, from 0 to `MOST_UNITS` cost units.
    pub change: usize,
    /// The text of what short notice is and what it costs, if one is given.
    pub notice: Option<&'a str>,
    /// The texts of pairings that break off, and of what becomes of what is left of them.
    pub broken: Vec<&'a str>,
}

/// A book of the tables of a folder.
#[derive(Drop)]
pub struct BookLine<'a> {
    /// The path of the folder.
    pub folder: &'a str,
    /// The text of the month.
    pub month: &'a str,
    /// The names of the bases that the book is to have; all if there is none.
    pub bases: Vec<&'a str>,
    /// The rank of whom the book is to have, if one is named.
    pub rank: Option<&'a str>,
    /// What each minute costs by which a target is missed, from 0 to `MOST_UNITS` cost units, if it is given.
    pub weight: Option<usize>,
    /// The path of the report whose roster the book is to give, or `-`, if there is one.
    pub start: Option<&'a str>,
}

/// What the next month has of this one.
#[derive(Clone, Copy)]
pub struct CarryLine<'a> {
    /// The path of the book of this month, or `-`.
    pub book: &'a str,
    /// The path of the report that was published, or `-`.
    pub report: &'a str,
    /// The path of the table of what persons have flown, if there is one.
    pub flown: Option<&'a str>,
    /// The path of the folder whose tables get it, in place of records on standard output.
    pub into: Option<&'a str>,
}

/// Why the words ask for nothing.
#[derive(Drop)]
pub enum LineFault {
    /// They are refused, or ask for help, as `clap`'s error tells.
    Refused(clap::Error),
    /// Memory ran out.
    Memory,
}

impl From<AllocError> for LineFault {
    ghost use Rattle.std.specs.Prelude.{◌≡◌};
    ghost use Rattle.roster_desk_arguments.specs.declared.line.LineFault.TheVariants.{Memory};

    ghost from_gives = { λ _ e. e ≡ Memory };

    fn from(_e: AllocError) -> LineFault {
        LineFault::Memory
    }
}

/// What the words ask for. The first word is the program's name.
pub fn read_line<'a>(alloc: Global, words: &'a [String]) -> Result<Line<'a>, LineFault>
    ensures asked { IfOk result (Asks (map string_bytes words.entry.now)) }
    ensures faultless { IfOk result (λ _. fault_of desk_app (map string_bytes words.entry.now) ≡ []) }
    ensures refused { IfErr result NamesMemory }
    // What clap refuses, it refuses for one of its own reasons.
    ensures kind { fault_of desk_app (map string_bytes words.entry.now) ≢ []
        → IfErr result (TellsKind (fault_of desk_app (map string_bytes words.entry.now))) }
    // If it takes the words, only want of memory can come.
    ensures taken { fault_of desk_app (map string_bytes words.entry.now) ≡ []
        → IfErr result (λ fault. fault ≡ LineFault.Memory) }
{
    let mut command = desk(alloc)?;
    let matches = match command.try_get_matches_from_mut(words) {
        Ok(matches) => matches,
        Err(error) => return Err(refusal(error)),
    };
    match asked(alloc, &matches)? {
        Some(line) => Ok(line),
        None => Err(LineFault::Refused(command.error(
            ErrorKind::InvalidSubcommand,
            "unknown command",
        )?)),
    }
}

/// clap's want of memory by its own name.
fn refusal(error: clap::Error) -> LineFault
    ensures named { NamesMemory result }
    ensures kept { (kinds : Kinds) → HasKind kinds error → TellsKind kinds result }
{
    match error.kind() {
        ErrorKind::OutOfMemory => LineFault::Memory,
        _ => LineFault::Refused(error),
    }
}
