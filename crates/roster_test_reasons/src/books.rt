//! Reasons asked for.

use roster_legal_reasons::{Reason, first_reason, reason};
use roster_test_books::{problem_of, set_of};
use roster_values::Set;
use std::alloc::Global;
use std::process::Abort;
use std::test::Fail;

/// Asks why the first person of the book mustn't have the pairings at whose places the list has 0.
pub fn is_told(
    rt: &impl Abort,
    alloc: Global,
    book: &[u8],
    places: &[u16],
    wanted: Option<Reason>,
) -> Result<(), Fail> {
    let problem = problem_of(alloc, book)?;
    let set = set_of(&problem, places).ok_or("a set")?;
    assert!(rt; !problem.persons().is_empty());
    let told = reason(alloc, &problem, 0, &set)?;
    assert!(rt; told == wanted);
    Ok(())
}

/// Asks what locks the first person of the book.
pub fn is_locked(
    rt: &impl Abort,
    alloc: Global,
    book: &[u8],
    wanted: Option<Reason>,
) -> Result<(), Fail> {
    let problem = problem_of(alloc, book)?;
    assert!(rt; !problem.persons().is_empty());
    let told = first_reason(alloc, &problem, 0, &Set::empty())?;
    assert!(rt; told == wanted);
    Ok(())
}
