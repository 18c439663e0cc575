//! What is wrong with a report.

use std::alloc::{AllocError, AllocFailed};
use thiserror::Error;

/// What is wrong with a line of a report.
#[derive(Clone, Copy, Debug, PartialEq, Eq, Error)]
pub enum Wrong {
    /// It is the first one, and not that of a report or a plan.
    #[error("a report begins with ROSTER or PLAN and a month")]
    NoReport,
    /// The report is of another month than the book.
    #[error("the book is of another month")]
    OtherMonth,
    /// Its first word is none that a report has there.
    #[error("no line of a report begins so")]
    UnknownLine,
    /// A person's line isn't of its form.
    #[error("a CREW line has a name, five numbers, and pairings or -")]
    CrewForm,
    /// There are more pairings than a book may have.
    #[error("a book may not have so many pairings")]
    TooMany,
    /// A pairing was given before.
    #[error("a pairing is given a second time")]
    GivenTwice,
    /// The book has no person of the name.
    #[error("the book has no such person")]
    UnknownPerson,
    /// The book has no pairing of a name.
    #[error("the book has no such pairing")]
    UnknownPairing,
}

/// Why a report gives no roster.
#[derive(Debug, Drop, Error)]
pub enum ReportFault {
    /// What is wrong with its line at this number, from 1.
    #[error("line {line}: {wrong}")]
    At {
        /// The number of the line, blank ones counted.
        line: usize,
        /// What is wrong with it.
        wrong: Wrong,
    },
    /// Memory ran out.
    #[error("out of memory")]
    Memory,
}

impl From<AllocError> for ReportFault {
    ghost use Rattle.std.specs.Prelude.{◌≡◌};
    ghost use Rattle.roster_desk_reports.specs.declared.fault.ReportFault.TheVariants.{Memory};

    ghost from_gives = { λ _ e. e ≡ Memory };

    fn from(_error: AllocError) -> ReportFault {
        ReportFault::Memory
    }
}

impl<T: Drop> From<AllocFailed<T>> for ReportFault {
    ghost use Rattle.std.specs.Prelude.{◌≡◌};
    ghost use Rattle.roster_desk_reports.specs.declared.fault.ReportFault.TheVariants.{Memory};

    ghost from_gives = { λ _ e. e ≡ Memory };

    fn from(_error: AllocFailed<T>) -> ReportFault {
        ReportFault::Memory
    }
}
