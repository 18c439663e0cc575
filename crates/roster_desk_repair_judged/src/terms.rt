//! What a planner says of a repair.

ghost use Rattle.std.specs.Prelude.{◌≡◌, ◌+◌, ◌≤◌, ◌<◌};
ghost use Rattle.roster_model.specs.declared.limits.TheConstants.{LAST_INSTANT};
ghost use Rattle.roster_model.specs.records.Duty.{is_held_by_pairing};
ghost use Rattle.roster_desk_repair_terms.specs.Fixed as spec;
ghost use Rattle.roster_desk_repair_judged.specs.Terms as asked;

use roster_instants::Minute;
use roster_problem::{Duty, Holder, Problem};

/// When a repair begins, and what it costs that pairings move.
#[derive(Clone, Copy)]
pub struct Terms {
    /// When it begins: pairings that report before it stay.
    pub from: Minute,
    /// The minutes from then on that are short notice.
    pub notice: u32,
    /// What it costs that a pairing moves that reports within the notice, in cost units.
    pub short: u32,
    /// What it costs that another one moves.
    pub change: u32,
}

/// The minutes since 1970-01-01T00:00Z.
pub(crate) fn minutes(at: Minute) -> u64
    ensures value { result ≡ at }
    ensures bound { result ≤ LAST_INSTANT }
{
    at.get() as u64
}

/// Whether the duty is one of the pairing at place `p`.
pub(crate) fn is_of(duty: &Duty, p: usize) -> bool
    ensures { result ≡ is_held_by_pairing p duty.now.holder }
{
    match duty.holder {
        Holder::Pairing(q) => q == p,
        Holder::Person(_) => false,
    }
}

/// Whether a duty of the pairing at place `p` reports before the instant, in minutes since
/// 1970-01-01T00:00Z.
pub(crate) fn reports_before(problem: &Problem, instant: u64, p: usize) -> bool
    ensures { result ≡ spec.reports_before problem.now.duties instant p }
{
    problem
        .duties()
        .iter()
        .any(|duty| is_of(duty, p) && minutes(duty.report) < instant)
}

/// What it costs that the pairing at place `p` moves, in cost units.
pub fn price_at(problem: &Problem, terms: &Terms, p: usize) -> u32
    ensures { result ≡ asked.price_at problem.now terms.now p }
{
    let end = minutes(terms.from) + u64::from(terms.notice);
    if reports_before(problem, end, p) {
        terms.short
    } else {
        terms.change
    }
}
