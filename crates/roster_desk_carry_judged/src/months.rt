//! Months that follow one another.

ghost use Rattle.std.specs.Prelude.{◌≡◌, ◌≤◌, IsTrue};
ghost use Rattle.roster_desk_carry_judged.specs.Months as spec;

use roster_instants::Period;

/// Its year.
fn year_of(month: Period) -> u32
    ensures value { result ≡ month.year }
    ensures bound { result ≤ 9997 }
{
    month.year() as u32
}

/// Its month, from 1 to 12.
pub(crate) fn month_of(month: Period) -> u32
    ensures value { result ≡ month.month }
    ensures bound { result ≤ 12 }
{
    month.month() as u32
}

/// The number of a month, in which each month is one more than the one before it.
fn month_number(month: Period) -> u32
    ensures value { result ≡ spec.month_number month }
    ensures bound { result ≤ 200_000 }
{
    year_of(month) * 12 + month_of(month)
}

/// Whether the other month is the one after this one.
pub(crate) fn is_next(this: Period, other: Period) -> bool
    ensures { IsTrue result → other ≡ spec.next_month this }
{
    if month_of(this) == 12 {
        month_of(other) == 1 && year_of(other) == year_of(this) + 1
    } else {
        month_of(other) == month_of(this) + 1 && year_of(other) == year_of(this)
    }
}

/// Whether the other month is before this one.
fn is_before(this: Period, other: Period) -> bool
    ensures { result ≡ spec.is_before this other }
{
    month_number(other) < month_number(this)
}

/// The year of the month after it.
fn next_year(this: Period) -> u32
    ensures { result ≡ (spec.next_month this).year }
{
    if month_of(this) == 12 {
        year_of(this) + 1
    } else {
        year_of(this)
    }
}

/// Whether the other month is before this one, and of the calendar year of the month after this one.
pub(crate) fn is_of_year(this: Period, other: Period) -> bool
    ensures { result ≡ spec.is_of_year this other }
{
    is_before(this, other) && year_of(other) == next_year(this)
}

/// Whether it is one of the ten before this one.
pub(crate) fn is_of_ten(this: Period, other: Period) -> bool
    ensures { result ≡ spec.is_of_ten this other }
{
    is_before(this, other) && month_number(this) <= month_number(other) + 10
}
