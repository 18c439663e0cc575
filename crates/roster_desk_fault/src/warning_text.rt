//! The warnings of a book in words.

ghost use Rattle.std.specs.Prelude.{◌≡◌, IfOk};
ghost use Rattle.roster_desk_words.specs.Parts.{AreParts};
ghost use Rattle.roster_desk_fault.specs.Told.{IsOfWord, IsWarnText, or_none};

use crate::alike::{stations, twins};
use crate::homes::homes;
use crate::likely::{free_months, long_duties, nights};
use crate::numbers::{hours, positioning, targets, years};
use crate::rests::{fixed_rests, layovers, short_rests};
use crate::rows::{Record, read_rows};
use crate::sums::{flown_hours, histories, penalties, shares, weights};
use crate::warning::{Warning, warnings_text};
use crate::zones::zones;
use std::alloc::{AllocError, Global};

/// What is looked for.
#[derive(Clone, Copy)]
enum Sign {
    Zone,
    Night,
    Year,
    Target,
    Hours,
    LongDuty,
    Positioning,
    FreeMonth,
    ShortRest,
    Station,
    Twin,
    Flown,
    Weight,
    Penalty,
    Share,
    History,
    FixedRest,
    Layover,
    Home,
}

/// All signs in the order in which they are told, each with the word that its warnings have.
const SIGNS: [(Sign, &str); 19] = [
    (Sign::Zone, "ZONE"),
    (Sign::Night, "NIGHT"),
    (Sign::Year, "YEAR"),
    (Sign::Target, "TARGET"),
    (Sign::Hours, "HOURS"),
    (Sign::LongDuty, "LONGDUTY"),
    (Sign::Positioning, "POSITIONING"),
    (Sign::FreeMonth, "FREEMONTH"),
    (Sign::ShortRest, "REST"),
    (Sign::Station, "STATION"),
    (Sign::Twin, "TWIN"),
    (Sign::Flown, "ELEVEN"),
    (Sign::Weight, "WEIGHT"),
    (Sign::Penalty, "PENALTY"),
    (Sign::Share, "SHARE"),
    (Sign::History, "HISTORY"),
    (Sign::FixedRest, "FIXED"),
    (Sign::Layover, "AWAY"),
    (Sign::Home, "HOME"),
];

impl Sign {
    /// The warnings of it.
    fn warnings(self, alloc: Global, rows: &[Record]) -> Result<Vec<Warning>, AllocError> {
        match self {
            Sign::Zone => zones(alloc, rows),
            Sign::Night => nights(alloc, rows),
            Sign::Year => years(alloc, rows),
            Sign::Target => targets(alloc, rows),
            Sign::Hours => hours(alloc, rows),
            Sign::LongDuty => long_duties(alloc, rows),
            Sign::Positioning => positioning(alloc, rows),
            Sign::FreeMonth => free_months(alloc, rows),
            Sign::ShortRest => short_rests(alloc, rows),
            Sign::Station => stations(alloc, rows),
            Sign::Twin => twins(alloc, rows),
            Sign::Flown => flown_hours(alloc, rows),
            Sign::Weight => weights(alloc, rows),
            Sign::Penalty => penalties(alloc, rows),
            Sign::Share => shares(alloc, rows),
            Sign::History => histories(alloc, rows),
            Sign::FixedRest => fixed_rests(alloc, rows),
            Sign::Layover => layovers(alloc, rows),
            Sign::Home => homes(alloc, rows),
        }
    }
}

/// The warnings of these signs, each under its word.
fn signs_text(alloc: Global, rows: &[Record], signs: &[(Sign, &str)]) -> Result<Vec<u8>, AllocError>
    ensures { IfOk result (λ text. AreParts (λ sign. IsOfWord sign.1.now) signs.now text.items) }
{
    let mut out = Vec::new(alloc);
    for (sign, word) in signs {
        let warnings = sign.warnings(alloc, rows)?;
        let text = warnings_text(alloc, rows, word, &warnings)?;
        out.extend_from_slice(text.as_slice())?;
    }
    Ok(out)
}

/// What is told, or the line that stands for no warning.
fn or_none(told: Vec<u8>) -> Result<Vec<u8>, AllocError>
    ensures { IfOk result (λ text. text.items ≡ or_none told.items) }
{
    if !told.is_empty() {
        return Ok(told);
    }
    let mut out = told;
    out.extend_from_slice(b"NO WARNING\n")?;
    Ok(out)
}

/// What is likely a mistake in the book in the bytes, in which no record has a fault. It is valid UTF-8.
pub fn warn_text(alloc: Global, bytes: &[u8]) -> Result<Vec<u8>, AllocError>
    ensures { IfOk result (λ text. IsWarnText text.items) }
{
    let rows = read_rows(alloc, bytes)?;
    let told = signs_text(alloc, &rows, &SIGNS)?;
    let text = or_none(told)?;
    Ok(text)
}
