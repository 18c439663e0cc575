//! Whether the duties are those of a duty list that lie in the next window.

ghost use Rattle.std.specs.Prelude.{◌≡◌, ◌<◌, ◌≤◌, IfOk, IsTrue, drop, length, map};
ghost use Rattle.std.specs.List.{filter};
ghost use Rattle.roster_model.specs.Places.{set_of};
ghost use Rattle.roster_model.specs.Rules.{duty_list};
ghost use Rattle.roster_model.specs.Window as window;
ghost use Rattle.roster_desk_carry_judged.specs.Carried as spec;
ghost use Rattle.roster_desk_carry_judged.specs.Carried.{bare};

use roster_desk_same::are_same_sectors;
use roster_instants::{BaseDays, Minute};
use roster_legal::merge;
use roster_problem::{Duty, DutyList, Problem};
use roster_values::Set;
use std::alloc::{AllocError, Global};

/// The duties of person `k` with the roster, by report: the fixed ones and those of the person's pairings.
#[tactic(auto, using(roster_model::proofs::SetLemmas::places_of_number))]
pub fn duties_in<'a>(
    alloc: Global,
    problem: &'a Problem,
    places: &[u16],
    k: usize,
) -> Result<DutyList<'a>, AllocError>
    requires covers { length places.now ≡ length problem.now.pairings }
    requires person { k < length problem.now.persons }
    ensures { IfOk result (λ list. list ≡ duty_list problem.now k (set_of k places.now)) }
{
    problem.is_sound();
    merge(alloc, problem, k, &Set::of_places(places, k))
}

/// The instant at which the window's day begins; that of the day behind the last one is its end.
fn midnight(days: &BaseDays, day: usize) -> Minute
    requires { day ≤ length days.now.eight }
    ensures { result ≡ window.midnight days.now day }
{
    days.mid(day)
}

/// Whether the duty lies in the window.
fn lies_in(days: &BaseDays, duty: &Duty) -> bool
    ensures { result ≡ spec.lies_in days.now duty.now }
{
    midnight(days, 0) <= duty.report && duty.release <= midnight(days, days.days())
}

/// Whether both duties happen alike.
fn is_same_duty(before: &Duty, after: &Duty) -> bool
    ensures { IsTrue result → bare after.now ≡ bare before.now }
{
    after.station.as_bytes() == before.station.as_bytes()
        && after.report == before.report
        && after.release == before.release
        && are_same_sectors(before.sectors.as_slice(), after.sectors.as_slice())
}

/// Whether the other list, from place `j` on, has just those duties of the list, from place `i` on, that lie
/// in the window.
#[tactic(auto, using(crate::proofs::Lists::drop_at))]
pub(crate) fn are_carried(
    days: &BaseDays,
    list: &DutyList<'_>,
    i: usize,
    other: &DutyList<'_>,
    j: usize,
) -> bool
    requires from { i ≤ length list.now }
    requires to { j ≤ length other.now }
    ensures { IsTrue result → map bare (drop j other.now)
        ≡ map bare (filter (spec.lies_in days.now) (drop i list.now)) }
{
    if i == list.len() {
        return j == other.len();
    }
    let duty = list.duty(i);
    if !lies_in(days, duty) {
        return are_carried(days, list, i + 1, other, j);
    }
    j < other.len()
        && is_same_duty(duty, other.duty(j))
        && are_carried(days, list, i + 1, other, j + 1)
}
