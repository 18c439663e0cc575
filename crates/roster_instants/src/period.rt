//! Months.

ghost use Rattle.std.specs.Prelude.{◌≡◌, ◌≤◌, pos};
ghost use Rattle.roster_model.specs.Calendar.{period_of};

use crate::text::{has_shape, is_in_range, number_at};
use roster_model::limits::{FIRST_MONTH_YEAR, LAST_MONTH_YEAR};
use std::marker::Model;

/// A month of a year, from 1971-01 to 9997-12, which the type keeps.
#[derive(Clone, Copy)]
pub struct Period {
    year: i16,
    month: i8,
}

impl Model for Period {
    ghost use Rattle.std.specs.Prelude.{◌≤ℤ◌, pos, unsigned_abs};
    ghost use Rattle.roster_model.specs.declared.limits.TheConstants.{FIRST_MONTH_YEAR, LAST_MONTH_YEAR};
    ghost use Rattle.roster_model.specs.Calendar.{Period as Month};

    ghost Value = { Month };

    ghost view = { λ p. record { year = unsigned_abs p.year; month = unsigned_abs p.month } };

    ghost invariant = { λ p. (pos FIRST_MONTH_YEAR ≤ℤ p.year) × (p.year ≤ℤ pos LAST_MONTH_YEAR)
        × (pos 1 ≤ℤ p.month) × (p.month ≤ℤ pos 12) };

    ghost inverse = { λ m. record { year = pos m.year; month = pos m.month } };
}

impl Period {
    /// The month that a text `YYYY-MM` spells, of the years 1971 to 9997.
    pub fn read(text: &[u8]) -> Option<Period>
        ensures { result ≡ period_of text.now }
    {
        if !has_shape(b"0000-00", text) {
            return None;
        }
        let year = number_at(text, 0, 4);
        let month = number_at(text, 5, 7);
        if !is_in_range(FIRST_MONTH_YEAR, LAST_MONTH_YEAR, year) || !is_in_range(1, 12, month) {
            return None;
        }
        Some(Period {
            year: year as i16,
            month: month as i8,
        })
    }

    /// The year, from 1971 to 9997.
    pub fn year(self) -> i16
        ensures value { result ≡ pos self.year }
        ensures from { FIRST_MONTH_YEAR ≤ self.year }
        ensures to { self.year ≤ LAST_MONTH_YEAR }
    {
        self.year
    }

    /// The month, from 1 to 12.
    pub fn month(self) -> i8
        ensures value { result ≡ pos self.month }
        ensures from { 1 ≤ self.month }
        ensures to { self.month ≤ 12 }
    {
        self.month
    }
}
