//! Costs in parts of a cost unit.

ghost use Rattle.std.specs.Prelude.{◌≡◌, ◌*ℤ◌, ◌-ℤ◌, pos};
ghost use Rattle.roster_cost.specs.Amounts.{IsWithin, most_extra};

use crate::choice::MOST_EXTRA;

/// So many times the number.
pub(crate) fn times(scale: u32, number: i64) -> i64
    requires { IsWithin MOST_EXTRA (pos scale *ℤ number) }
    ensures { result ≡ pos scale *ℤ number }
{
    i64::from(scale) * number
}

/// How far the first number is above the second.
pub(crate) fn above(number: i64, other: i64) -> i64
    requires { IsWithin most_extra (number -ℤ other) }
    ensures { result ≡ number -ℤ other }
{
    number - other
}
