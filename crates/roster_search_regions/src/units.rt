//! What divides the costs of all rosters.

ghost use Rattle.std.specs.Prelude.{◌≡◌, ◌<◌, ◌≤◌, ℕ, All, get_or, length, pos};
ghost use Rattle.std.specs.Int.{IsGcd};
ghost use Prim.Native.Nat.{◌∣◌};
ghost use Rattle.roster_cost.specs.Amounts.{IsWithin, most_extra};
ghost use Rattle.roster_lines_table.specs.Person.{lines_at, AreListed};
ghost use Rattle.roster_search_regions.specs.Building.{extra_in, AreDividedBefore};

use crate::build::above_first;
use crate::choice::MOST_UNIT;
use roster_cost::lines_are_near;
use roster_lines_table::{Lines, Table};
use roster_problem::Problem;

/// The greatest common divisor of two numbers. It takes one step if the first divides the second.
fn common(unit: u64, amount: u64) -> u64
    ensures { IsGcd amount unit result }
{
    let mut divisor = amount;
    let mut rest = unit;
    while rest != 0 {
        let next = divisor % rest;
        divisor = rest;
        rest = next;
    }
    divisor
}

/// What divides all penalties.
fn unit_of_penalties(problem: &Problem) -> u64
    ensures { All (λ pairing. result ∣ pairing.penalty) problem.now.pairings }
{
    let mut unit = 0;
    for p in 0..problem.pairings().len() {
        unit = common(unit, u64::from(problem.pairing(p).penalty));
    }
    unit
}

/// What divides the number, and what each of the first so many lines costs more than the first one, or less.
fn unit_of_lines(lines: &Lines, most: usize, unit: u64) -> u64
    requires near { All (λ entry. IsWithin most_extra (extra_in lines.now entry)) lines.now }
    ensures number { result ∣ unit }
    ensures lines { AreDividedBefore result most lines.now }
{
    let mut divisor = unit;
    for i in 0..most.min(lines.width()) {
        if divisor == 1 {
            return 1;
        }
        divisor = common(divisor, above_first(lines, i).unsigned_abs());
    }
    divisor
}

/// A number of cost units that divides each penalty, and what each line before the end of its person's range
/// costs more than the empty one, or less.
pub(crate) fn unit_of(problem: &Problem, table: &Table, ranges: &[(usize, usize)]) -> u64
    requires table { AreListed problem.now table.now }
    requires ranges { length ranges.now ≡ length table.now }
    ensures some { 0 < result }
    ensures most { result ≤ MOST_UNIT }
    ensures penalties { All (λ pairing. result ∣ pairing.penalty) problem.now.pairings }
    ensures lines { (k : ℕ) → k < length problem.now.persons
        → AreDividedBefore result (get_or ranges.now k (0, 0)).1 (lines_at table.now k) }
{
    problem.is_sound();
    lines_are_near();
    let mut unit = unit_of_penalties(problem);
    for k in 0..problem.persons().len() {
        unit = unit_of_lines(table.lines(k), ranges[k].1, unit);
    }
    if unit == 0 || unit > MOST_UNIT {
        return 1;
    }
    unit
}
