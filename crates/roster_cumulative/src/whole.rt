//! The minutes of whole duties, on whatever days they are.

ghost use Rattle.std.specs.Prelude.{◌≡◌, ◌≤◌, ◌↔◌, ℕ, IsTrue};
ghost use Rattle.std.specs.List.{sum_by};
ghost use Rattle.roster_model.specs.Rules.Limits.{KeepsLimit};
ghost use Rattle.roster_model.specs.Sums.{on_day};
ghost use Rattle.roster_cumulative.specs.Table.{minutes_in_all, minutes_of};

use crate::sums::flight_between;
use crate::table::{Measure, shared};
use roster_instants::BaseDays;
use roster_model::limits::{DAYS_BEFORE, LAST_INSTANT, MOST_DAYS};
use roster_problem::{Duty, DutyList};

/// What the duty has of the measure from its report to its release.
fn whole_of(duty: &Duty, measure: Measure) -> u64
    ensures value { result ≡ minutes_in_all measure duty.now }
    ensures most { (from to : ℕ) → minutes_of measure duty.now from to ≤ result }
    ensures bound { result ≤ LAST_INSTANT }
{
    prove!(duty.release.get() <= LAST_INSTANT as i64);
    match measure {
        Measure::Duty => shared(duty.report, duty.release, duty.report, duty.release),
        Measure::Flight => flight_between(duty, duty.report, duty.release),
    }
}

/// What the duties of the list have of the measure in all. Between no two instants do they have more.
fn whole_of_list(list: &DutyList, measure: Measure) -> u64
    ensures value { result ≡ sum_by (minutes_in_all measure) list.now }
    ensures most { (from to : ℕ)
        → sum_by (λ duty. minutes_of measure duty from to) list.now ≤ result }
{
    let mut total = 0;
    for k in 0..list.len() {
        total += whole_of(list.duty(k), measure);
    }
    total
}

/// Whether all duties of the list have at most so many minutes, and so each judged run of `n` days. It
/// sums no day.
pub(crate) fn keeps_whole(
    days: &BaseDays,
    list: &DutyList,
    measure: Measure,
    n: usize,
    most: u64,
) -> bool
    requires { n ≤ DAYS_BEFORE }
    ensures value { IsTrue result ↔ (sum_by (minutes_in_all measure) list.now ≤ most) }
    ensures runs { IsTrue result
        → KeepsLimit (on_day (minutes_of measure) days.now list.now) days.now n most }
{
    prove!(days.days() <= MOST_DAYS);
    whole_of_list(list, measure) <= most
}
