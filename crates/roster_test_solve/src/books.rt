//! Books of a crew and of pairings by their days.

use roster_problem::Problem;
use roster_test_books::problem_of;
use std::alloc::{AllocError, Global};
use std::test::Fail;

/// One person.
const ONE: &[u8] = b"crew,A,BAS,0,0,0
";

/// The last digit of a number.
fn digit(n: usize) -> u8 {
    b'0' + (n % 10) as u8
}

/// A book of this crew, and a pairing with one duty on each of these days of March, at the same hours.
pub fn book_of(alloc: Global, crew: &[u8], days: &[u8]) -> Result<Vec<u8>, AllocError> {
    let mut book = b"period,2024-03\nbase,BAS,UTC0\n".to_vec(alloc)?;
    book.extend_from_slice(crew)?;
    for (p, day) in days.iter().enumerate() {
        let name = [digit(p / 100), digit(p / 10), digit(p)];
        let day = [digit(usize::from(*day / 10)), digit(usize::from(*day))];
        let parts: [&[u8]; 11] = [
            b"pairing,P",
            &name,
            b",BAS,1\nduty,D",
            &name,
            b",P,P",
            &name,
            b",BAS,2024-03-",
            &day,
            b"T06:00Z,2024-03-",
            &day,
            b"T14:00Z\n",
        ];
        for part in parts {
            book.extend_from_slice(part)?;
        }
    }
    Ok(book)
}

/// The problem of the book of this crew, and of pairings on these days.
pub fn problem_with(alloc: Global, crew: &[u8], days: &[u8]) -> Result<Problem, Fail> {
    let book = book_of(alloc, crew, days)?;
    Ok(problem_of(alloc, &book)?)
}

/// The problem of that book with one person.
pub fn problem_of_days(alloc: Global, days: &[u8]) -> Result<Problem, Fail> {
    problem_with(alloc, ONE, days)
}
