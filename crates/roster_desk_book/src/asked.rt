//! Of which month, bases and rank a book is.

use jiff::civil::Date;
use roster_desk_times::read_month;
use roster_model::limits::{FIRST_MONTH_YEAR, LAST_MONTH_YEAR};

/// Of which month, bases and rank a book is.
#[derive(Drop)]
pub struct Asked<'a> {
    // The month as a book writes it, and its first date.
    month: &'a str,
    first: Date,
    // Of all bases if there is none.
    bases: &'a [&'a str],
    rank: Option<&'a str>,
}

/// Whether a book may be of the year.
fn is_year(year: i16) -> bool {
    (FIRST_MONTH_YEAR as i16..=LAST_MONTH_YEAR as i16).contains(&year)
}

impl<'a> Asked<'a> {
    /// What is asked, if the first text is a month as `2024-06`, of the years 1971 to 9997. With no base
    /// those of all bases are taken.
    pub fn new(month: &'a str, bases: &'a [&'a str], rank: Option<&'a str>) -> Option<Asked<'a>> {
        let first = read_month(month.as_bytes())?;
        if !is_year(first.year()) {
            return None;
        }
        Some(Asked {
            month,
            first,
            bases,
            rank,
        })
    }

    /// The month as a book writes it.
    pub(crate) fn month(&self) -> &'a str {
        self.month
    }

    /// The first date of the month.
    pub(crate) fn first(&self) -> Date {
        self.first
    }

    /// The bases that are asked for; all if there is none.
    pub(crate) fn bases(&self) -> &'a [&'a str] {
        self.bases
    }

    /// The rank that is asked for.
    pub(crate) fn rank(&self) -> Option<&'a str> {
        self.rank
    }

    /// Whether the base is asked for.
    pub(crate) fn has_base(&self, base: &[u8]) -> bool {
        self.bases.is_empty() || self.bases.iter().any(|asked| asked.as_bytes() == base)
    }

    /// Whether the rank is asked for.
    pub(crate) fn has_rank(&self, rank: &[u8]) -> bool {
        match self.rank {
            Some(asked) => asked.as_bytes() == rank,
            None => true,
        }
    }
}
