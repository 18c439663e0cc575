//! Books that are put together at random, from a seed: few persons, few pairings, and many ties.

ghost use Rattle.std.specs.Prelude.{◌<◌};

use roster_problem::Problem;
use roster_test_books::problem_of;
use std::alloc::{AllocError, Global};
use std::test::Fail;

/// Numbers that look random, by a linear congruential generator.
#[derive(Drop)]
struct Numbers {
    state: u64,
}

impl Numbers {
    /// The next number, below the limit.
    fn below(&mut self, limit: u32) -> u32
        requires { 0 < limit }
        ensures { result < limit }
    {
        self.state = self
            .state
            .wrapping_mul(6_364_136_223_846_793_005)
            .wrapping_add(1_442_695_040_888_963_407);
        (self.state >> 33) as u32 % limit
    }

    /// One of four numbers.
    fn one_of(&mut self, choices: [i32; 4]) -> i32 {
        choices[self.below(4) as usize]
    }

    /// The name of one of the two bases, mostly the first.
    fn base(&mut self) -> &'static str {
        if self.below(3) == 0 { "GVA" } else { "BAS" }
    }
}

/// Each other day of March from the 9th on.
const BUSY_DAYS: [u32; 12] = [9, 11, 13, 15, 17, 19, 21, 23, 25, 27, 29, 31];

/// The end of a row: from one full hour to another, on a day of March.
fn push_hours(
    alloc: Global,
    book: &mut String,
    day: u32,
    from: u32,
    to: u32,
) -> Result<(), AllocError> {
    book.push_str(&format!(in alloc;
        ",2024-03-{day:02}T{from:02}:00Z,2024-03-{day:02}T{to:02}:00Z\n"
    )?)
}

/// A short fixed duty of person `k` on each other day from 9 March on, so that there are no days off in a
/// row after the 8th.
fn push_busy_days(alloc: Global, book: &mut String, k: u32, base: &str) -> Result<(), AllocError> {
    for day in BUSY_DAYS {
        book.push_str(&format!(in alloc; "duty,B{k}x{day},C,C{k},{base}")?)?;
        push_hours(alloc, book, day, 10, 12)?;
    }
    Ok(())
}

/// A person, who may be locked by what was flown in the year, may have leave on 4 March, may have a
/// fixed duty on 6 March, and may be busy later in the month.
fn push_person(
    alloc: Global,
    book: &mut String,
    numbers: &mut Numbers,
    k: u32,
) -> Result<(), AllocError> {
    let base = numbers.base();
    let target = numbers.one_of([0, 240, 480, 600]);
    let year = numbers.one_of([0, 53_000, 53_500, 54_001]);
    book.push_str(&format!(in alloc; "crew,C{k},{base},{target},{year},0\n")?)?;
    if numbers.below(4) == 0 {
        book.push_str(&format!(in alloc; "leave,C{k},2024-03-04T00:00Z,2024-03-05T00:00Z\n")?)?;
    }
    if numbers.below(4) == 0 {
        book.push_str(&format!(in alloc; "duty,F{k},C,C{k},{base}")?)?;
        push_hours(alloc, book, 6, 8, 16)?;
    }
    if numbers.below(2) == 0 {
        push_busy_days(alloc, book, k, base)?;
    }
    Ok(())
}

/// A duty of four or eight hours, which may have a sector as long.
fn push_duty(
    alloc: Global,
    book: &mut String,
    numbers: &mut Numbers,
    p: u32,
    station: &str,
) -> Result<(), AllocError> {
    let day = numbers.below(4) + 4;
    let report = numbers.below(2) + 4 * numbers.below(2) + 6;
    let release = report + 4 * numbers.below(2) + 4;
    book.push_str(&format!(in alloc; "duty,D{p},P,P{p},{station}")?)?;
    push_hours(alloc, book, day, report, release)?;
    if numbers.below(2) == 0 {
        book.push_str(&format!(in alloc; "sector,D{p},O")?)?;
        push_hours(alloc, book, day, report, release)?;
    }
    Ok(())
}

/// What a pairing costs with some of the persons.
fn push_costs(
    alloc: Global,
    book: &mut String,
    numbers: &mut Numbers,
    p: u32,
    persons: u32,
) -> Result<(), AllocError> {
    for k in 0..persons {
        if numbers.below(3) == 0 {
            let units = numbers.one_of([-7, 0, 1, 2]);
            book.push_str(&format!(in alloc; "cost,C{k},P{p},{units}\n")?)?;
        }
    }
    Ok(())
}

/// A pairing of one duty, and what it costs with some of the persons.
fn push_pairing(
    alloc: Global,
    book: &mut String,
    numbers: &mut Numbers,
    p: u32,
    persons: u32,
) -> Result<(), AllocError> {
    let base = numbers.base();
    let penalty = numbers.one_of([0, 1, 1, 100]);
    book.push_str(&format!(in alloc; "pairing,P{p},{base},{penalty}\n")?)?;
    push_duty(alloc, book, numbers, p, base)?;
    push_costs(alloc, book, numbers, p, persons)
}

/// The weight, and the rows of one to three persons and of one to five pairings.
fn push_rows(alloc: Global, book: &mut String, seed: u64) -> Result<(), AllocError> {
    let mut numbers = Numbers { state: seed };
    let weight = numbers.one_of([0, 0, 1, 3]);
    book.push_str(&format!(in alloc; "weight,{weight}\n")?)?;
    let persons = numbers.below(3) + 1;
    let pairings = numbers.below(5) + 1;
    for k in 0..persons {
        push_person(alloc, book, &mut numbers, k)?;
    }
    for p in 0..pairings {
        push_pairing(alloc, book, &mut numbers, p, persons)?;
    }
    Ok(())
}

/// A book without a fault, of one to three persons and one to five pairings.
fn random_book(alloc: Global, seed: u64) -> Result<String, AllocError> {
    let mut book = String::from_str(alloc, "period,2024-03\nbase,BAS,UTC0\nbase,GVA,UTC0\n")?;
    push_rows(alloc, &mut book, seed)?;
    Ok(book)
}

/// The problem of such a book.
pub fn random_problem(alloc: Global, seed: u64) -> Result<Problem, Fail> {
    let book = random_book(alloc, seed)?;
    Ok(problem_of(alloc, book.as_bytes())?)
}
