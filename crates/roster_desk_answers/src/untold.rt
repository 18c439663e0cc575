//! Why nothing is told.

ghost use Rattle.std.specs.Prelude.{◌≡◌};
ghost use Rattle.roster_desk_answers.specs.Refusing.{untold_of};

use roster_desk_given::Unknown;
use roster_desk_reports::ReportFault;
use std::alloc::AllocError;

/// Why nothing was told, if that isn't the book's fault.
#[derive(Drop)]
pub enum Untold<'a> {
    /// The book doesn't have a name that is asked for.
    Unknown(Unknown),
    /// The report at the path gives no roster of the book.
    Report {
        /// The path.
        path: &'a str,
        /// What is wrong with the report.
        fault: ReportFault,
    },
    /// A value of the command line is none: the sentence says which.
    Words(&'static str),
    /// The book that is made would have the faults that the text tells.
    Faulty(Vec<u8>),
    /// The book that is made wouldn't ask for what is meant.
    Unlike,
    /// Something is wrong with the table of names, as the text tells.
    Names(Vec<u8>),
    /// Memory ran out.
    Memory,
}

impl<'a> From<AllocError> for Untold<'a> {
    ghost use Rattle.std.specs.Prelude.{◌≡◌};
    ghost use Rattle.roster_desk_answers.specs.declared.untold.Untold.TheVariants as untolds;

    ghost from_gives = { λ _ untold. untold ≡ untolds.Memory };

    fn from(_error: AllocError) -> Untold<'a> {
        Untold::Memory
    }
}

impl<'a> From<Unknown> for Untold<'a> {
    ghost use Rattle.std.specs.Prelude.{◌≡◌};
    ghost use Rattle.roster_desk_answers.specs.declared.untold.Untold.TheVariants as untolds;

    ghost from_gives = { λ unknown untold. untold ≡ untolds.Unknown unknown };

    fn from(unknown: Unknown) -> Untold<'a> {
        Untold::Unknown(unknown)
    }
}

/// What is told of a fault of the report at the path.
pub(crate) fn refused<'a>(path: &'a str, fault: ReportFault) -> Untold<'a>
    ensures { result ≡ untold_of path.entry fault }
{
    match fault {
        ReportFault::Memory => Untold::Memory,
        fault => Untold::Report { path, fault },
    }
}
