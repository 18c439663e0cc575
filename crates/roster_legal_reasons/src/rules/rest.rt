//! Rests that are too short.

ghost use Rattle.std.specs.Prelude.{◌≡◌, ◌-◌, ◌||◌, true, max, MatchOption};
ghost use Rattle.roster_model.specs.Rules.Rest as model;
ghost use Rattle.roster_model.specs.Rules.Rest.{IsRested, KeepsRest};
ghost use Rattle.roster_legal_reasons.specs.Reasons.Rest.{IsFirstShortRest, IsShortBetween};

use roster_problem::{Base, Duty, DutyList, Holder};
use roster_restrules::rest_needed;

/// A rest that is too short.
#[derive(Clone, Copy, PartialEq, Eq)]
pub struct ShortRest {
    /// The duty before it; the next one of the list comes after it.
    pub before: usize,
    /// The minutes of rest that there are.
    pub rest: u64,
    /// The minutes of rest that are needed, more than there are.
    pub needed: u64,
}

/// The minutes of rest between the two duties.
fn rest_between(prev: &Duty, next: &Duty) -> u64
    ensures { result ≡ next.now.report - prev.now.release }
{
    let minutes = next.report.get() - prev.release.get();
    minutes.max(0) as u64
}

/// The minutes of rest that are needed between the two duties.
fn needed_between(prev: &Duty, next: &Duty, home: &Base) -> u64
    ensures { result
        ≡ max (prev.now.release - prev.now.report) (model.least_rest home.now next.now) }
{
    rest_needed(prev, next, home) as u64
}

/// Whether the duty belongs to a pairing.
fn is_of_pairing(duty: &Duty) -> bool
    ensures { result ≡ model.is_of_pairing duty.now.holder }
{
    match duty.holder {
        Holder::Pairing(_) => true,
        Holder::Person(_) => false,
    }
}

/// The rest between two neighbours of the list, of which the first is at place `before`, if a rest is
/// due and there is too little of it.
fn short_rest(home: &Base, prev: &Duty, next: &Duty, before: usize) -> Option<ShortRest>
    ensures { MatchOption result
        ((model.is_of_pairing prev.now.holder || model.is_of_pairing next.now.holder) ≡ true
        → IsRested home.now prev.now next.now)
        (IsShortBetween home.now prev.now next.now before) }
{
    let is_due = is_of_pairing(prev) || is_of_pairing(next);
    if !is_due {
        return None;
    }
    let rest = rest_between(prev, next);
    let needed = needed_between(prev, next, home);
    if needed <= rest {
        return None;
    }
    Some(ShortRest {
        before,
        rest,
        needed,
    })
}

/// The first rest between neighbours of the list that is due and too short.
pub(crate) fn first_short_rest(list: &DutyList, home: &Base) -> Option<ShortRest>
    ensures { MatchOption result (KeepsRest home.now list.now)
        (IsFirstShortRest home.now list.now) }
{
    for i in 1..list.len() {
        if let Some(short) = short_rest(home, list.duty(i - 1), list.duty(i), i - 1) {
            return Some(short);
        }
    }
    None
}
