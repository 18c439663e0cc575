//! The rest between two duties.

ghost use Rattle.std.specs.Prelude.{◌≡◌, ◌-◌, ◌≤◌, ◌↔◌, ◌||◌, true, IsTrue, max, pos};
ghost use Rattle.roster_model.specs.Rules.Rest as model;
ghost use Rattle.roster_model.specs.Rules.Rest.{IsRested, KeepsRest};

use roster_model::limits::LAST_INSTANT;
use roster_model::profile::{REST_AT_HOME, REST_AWAY};
use roster_problem::{Base, Duty, DutyList, Holder};

/// The least rest before a duty for a person with this home, in minutes.
fn least_rest(home: &Base, next: &Duty) -> i64
    ensures { result ≡ pos (model.least_rest home.now next.now) }
{
    if next.station.as_bytes() == home.id.as_bytes() {
        i64::from(REST_AT_HOME)
    } else {
        i64::from(REST_AWAY)
    }
}

/// The rest in minutes that a person with this home needs between two duties: as long as the one
/// before it, and at least 12 hours if the next reports at home, 10 hours elsewhere.
pub fn rest_needed(prev: &Duty, next: &Duty, home: &Base) -> i64
    ensures value { result
        ≡ pos (max (prev.now.release - prev.now.report) (model.least_rest home.now next.now)) }
    ensures bound { max (prev.now.release - prev.now.report) (model.least_rest home.now next.now)
        ≤ LAST_INSTANT }
{
    let worked = prev.release.get() - prev.report.get();
    worked.max(least_rest(home, next))
}

/// Whether such a rest lies between the two duties.
fn is_rested(home: &Base, prev: &Duty, next: &Duty) -> bool
    ensures { IsTrue result ↔ IsRested home.now prev.now next.now }
{
    prev.release.get() + rest_needed(prev, next, home) <= next.report.get()
}

/// Whether the duty belongs to a pairing.
fn is_of_pairing(duty: &Duty) -> bool
    ensures { result ≡ model.is_of_pairing duty.now.holder }
{
    match duty.holder {
        Holder::Pairing(_) => true,
        Holder::Person(_) => false,
    }
}

/// Whether the rest between the two duties, if one is due, is long enough.
fn keeps_rest(home: &Base, prev: &Duty, next: &Duty) -> bool
    ensures { IsTrue result ↔ ((model.is_of_pairing prev.now.holder
        || model.is_of_pairing next.now.holder) ≡ true → IsRested home.now prev.now next.now) }
{
    let is_due = is_of_pairing(prev) || is_of_pairing(next);
    !is_due || is_rested(home, prev, next)
}

/// Whether between any two neighbours of the list, of which at least one belongs to a pairing, lies
/// the rest that a person with this home needs.
pub fn rest_ok(list: &DutyList, home: &Base) -> bool
    ensures { IsTrue result ↔ KeepsRest home.now list.now }
{
    for i in 1..list.len() {
        if !keeps_rest(home, list.duty(i - 1), list.duty(i)) {
            return false;
        }
    }
    true
}
