//! A book, and what is told of a report.

use roster_book::BookFault;
use roster_desk_reports::{ReportFault, Wrong};
use roster_problem::Problem;
use roster_test_books::{TWO_DAYS, problem_of};
use std::alloc::Global;

/// The book of March 2024: the persons are A to F, and the pairings P1 to P10.
pub(crate) fn book(alloc: Global) -> Result<Problem, BookFault> {
    problem_of(alloc, TWO_DAYS)
}

/// The line and what is wrong with it, if the report is refused.
pub(crate) fn fault_of<T: Drop>(told: Result<T, ReportFault>) -> Option<(usize, Wrong)> {
    match told {
        Err(ReportFault::At { line, wrong }) => Some((line, wrong)),
        _ => None,
    }
}
