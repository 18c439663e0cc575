//! When a pairing begins and ends, and since when no recurrent rest lies before its end.

ghost use Rattle.std.specs.Prelude.{◌≡◌, ◌<◌, ◌≤◌, ◌↔◌, [], IsTrue, MatchOption, Some, All, length, slice_get};
ghost use Rattle.roster_model.specs.declared.limits.TheConstants.{LAST_INSTANT};
ghost use Rattle.roster_problem.specs.Duties.{picked};
ghost use Rattle.roster_plan_bound.specs.Spans.{own_duties, GoesOn, IsSolid, IsSpan};

use roster_model::profile::RECURRENT_REST;
use roster_problem::{Duty, Problem};

/// A pairing as the recovery rule sees it. All instants are minutes, counted as those of duties.
#[derive(Clone, Copy)]
pub(crate) struct Span {
    /// The report of its first duty.
    pub(crate) report: u64,
    /// The release of its last duty.
    pub(crate) release: u64,
    /// The report of its first duty if it is solid, and else that of its last duty: no recurrent rest lies
    /// between this and the release.
    pub(crate) begin: u64,
    /// Whether none of its duties reports before the release of the one before it, or when a recurrent rest
    /// may lie between them.
    pub(crate) solid: bool,
}

/// The span of the pairing at place `p`; none if it has no duty.
pub(crate) fn span_of(problem: &Problem, p: usize) -> Option<Span>
    requires { p < length problem.now.pairings }
    ensures { MatchOption result (own_duties problem.now p ≡ []) (IsSpan problem.now p) }
{
    let duties = problem.duties();
    let positions = problem.duties_of(p);
    if positions.is_empty() {
        return None;
    }
    let first = duty_at(duties, positions, 0);
    let last = duty_at(duties, positions, positions.len() - 1);
    let solid = is_solid(duties, positions);
    let begin = if solid { first } else { last };
    Some(Span {
        report: report_of(first),
        release: release_of(last),
        begin: report_of(begin),
        solid,
    })
}

/// Whether something that begins at `report` does so after the release, but before a recurrent rest is over.
pub(crate) fn goes_on(release: u64, report: u64) -> bool
    ensures { IsTrue result ↔ GoesOn release report }
{
    release <= report && report - release < u64::from(RECURRENT_REST)
}

/// Whether each of the duties at the positions goes on after the one before it.
fn is_solid(duties: &[Duty], positions: &[u16]) -> bool
    requires { All (λ i. i < length duties.now) positions.now }
    ensures { IsTrue result ↔ IsSolid (picked duties.now positions.now) }
{
    for i in 1..positions.len() {
        let release = release_of(duty_at(duties, positions, i - 1));
        let report = report_of(duty_at(duties, positions, i));
        if !goes_on(release, report) {
            return false;
        }
    }
    true
}

/// The duty at the i-th of the positions.
fn duty_at<'a>(duties: &'a [Duty], positions: &[u16], i: usize) -> &'a Duty
    requires within { All (λ i. i < length duties.now) positions.now }
    requires inside { i < length positions.now }
    ensures { slice_get (picked duties.now positions.now) i ≡ Some result.now }
{
    &duties[usize::from(positions[i])]
}

/// When it reports.
fn report_of(duty: &Duty) -> u64
    ensures { result ≡ duty.now.report }
{
    duty.report.get() as u64
}

/// When it ends.
fn release_of(duty: &Duty) -> u64
    ensures value { result ≡ duty.now.release }
    ensures early { result ≤ LAST_INSTANT }
{
    duty.release.get() as u64
}
