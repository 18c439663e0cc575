//! The minutes of judged runs of days.

ghost use Rattle.std.specs.Prelude.{◌≡◌, ◌-◌, ◌≤◌, slice_index};
ghost use Rattle.std.specs.List.{range_with_len, sum_by};
ghost use Rattle.roster_model.specs.Sums as sums;
ghost use Rattle.roster_cumulative.specs.Table.{IsLight, most_in_run};

use roster_instants::BaseDays;
use roster_model::limits::{DAYS_BEFORE, MOST_DAYS, MOST_DUTIES};

/// The minutes of the `n` days before day `end`.
pub(crate) fn run_before(table: &[u64; MOST_DAYS], n: usize, end: usize) -> u64
    requires run { n ≤ end }
    requires least { n ≤ DAYS_BEFORE }
    requires window { end ≤ MOST_DAYS }
    requires light { IsLight MOST_DUTIES table.now }
    ensures value { result ≡ sum_by (slice_index table.now) (range_with_len (end - n) n) }
    ensures bound { result ≤ most_in_run }
{
    let mut total = 0;
    for i in end - n..end {
        total += table[i];
    }
    total
}

/// The most minutes of a judged run of `n` days: one whose last day is of the month or after it.
/// From one run to the next a day is added, and the first one dropped.
pub(crate) fn greatest_run(days: &BaseDays, table: &[u64; MOST_DAYS], n: usize) -> u64
    requires run { n ≤ DAYS_BEFORE }
    requires light { IsLight MOST_DUTIES table.now }
    ensures value { result ≡ sums.greatest_run (slice_index table.now) days.now n }
    ensures bound { result ≤ most_in_run }
{
    let mut run = run_before(table, n, DAYS_BEFORE);
    let mut greatest: u64 = 0;
    for last in DAYS_BEFORE..days.days() {
        run = run + table[last] - table[last - n];
        greatest = greatest.max(run);
    }
    greatest
}
