//! The pairings of a person in order of time: which may follow one another, and by when a rest is due.

ghost use Rattle.std.specs.Prelude.{◌≡◌, ◌<◌, ◌≤◌, ◌↔◌, ℕ, true, All, IfOk, IfSome, IsTrue, Some, length};
ghost use Rattle.std.specs.Prelude.{slice_get, slice_index};
ghost use Rattle.roster_model.specs.Calendar.{month_start};
ghost use Rattle.roster_model.specs.Problem.{home_of};
ghost use Rattle.roster_model.specs.Rules.{is_among};
ghost use Rattle.roster_lines.specs.Listing.{ArePairs};
ghost use Rattle.roster_plan_bound.specs.Drafts.{AreSpans, Fits, IsWhole};
ghost use Rattle.roster_plan_bound.specs.Timelines.{need_behind, need_first, IsTimeline, MayEnd};

use crate::days_off::{DaysOff, off_at_start, offs_of};
use crate::draft::draft_of;
use crate::loads::room_of;
use crate::parts::MOST_FLIGHT;
use crate::span::{Span, span_of};
use roster_legal::part_of_legal_is_legal;
use roster_lines::Pairs;
use roster_model::limits::{LAST_INSTANT, MOST_PAIRINGS};
use roster_problem::Problem;
use roster_values::Set;
use std::alloc::{AllocError, Global};

/// For a person: the pairings that are legal alone by their report, which later ones may follow which, and
/// the instants from which on the duties up to a pairing's end may lie without a recurrent rest: its classes.
#[derive(Drop)]
pub(crate) struct Timeline {
    /// The pairings that are legal alone.
    pub(crate) alone: Set,
    /// The same by their report.
    pub(crate) order: Vec<usize>,
    /// Where each pairing stands there.
    pub(crate) ranks: Vec<usize>,
    /// For each pairing those of a later rank that are legal with it.
    pub(crate) later: Vec<Set>,
    /// Of these the ones before which there is no room for a recurrent rest.
    pub(crate) unrested: Vec<Set>,
    /// The instant of each class, in minutes, as many as pairings are legal alone.
    pub(crate) begins: Vec<u64>,
    /// The class of each pairing that begins after a recurrent rest.
    pub(crate) classes: Vec<usize>,
    /// The first class from which on each pairing ends in time.
    pub(crate) lows: Vec<usize>,
    /// For no pair of days off that has to come, for one and for two: for each pairing a rank from which on
    /// all may follow it, after a recurrent rest and these days off.
    pub(crate) far: Vec<Vec<usize>>,
    /// By when there may have been days off after each pairing.
    pub(crate) offs: Vec<DaysOff>,
    /// By when there may have been days off before any pairing.
    pub(crate) start: DaysOff,
    /// The minutes of flight of each pairing.
    pub(crate) flights: Vec<u64>,
    /// What each pairing takes of one sum that limits judge, and what fixed duties leave of it, in minutes.
    pub(crate) loads: Vec<u64>,
    pub(crate) spare_load: u64,
}

impl Timeline {
    /// How many of so many pairs of days off still have to come when pairing `q` begins behind pairing `p`.
    pub(crate) fn need_behind(&self, p: usize, q: usize, need: usize) -> usize
        requires { (p < length self.now.offs.items) × (q < length self.now.offs.items) }
        ensures { result ≡ need_behind self.now p q need }
    {
        self.offs[p].left(need, self.offs[q].from)
    }

    /// How many pairs of days off still have to come when pairing `q` begins as the first one.
    pub(crate) fn need_first(&self, q: usize) -> usize
        requires { q < length self.now.offs.items }
        ensures { result ≡ need_first self.now q }
    {
        self.start.left(2, self.offs[q].from)
    }

    /// Whether so many pairs of days off may come behind pairing `p` before the month ends.
    pub(crate) fn may_end(&self, p: usize, need: usize) -> bool
        requires { p < length self.now.offs.items }
        ensures { IsTrue result ↔ MayEnd self.now p need }
    {
        self.offs[p].left(need, LAST_INSTANT) == 0
    }
}

/// The timeline of person `k`, whose pairs are known; none if a pairing has no duty or more flight than
/// tables are made for.
pub(crate) fn timeline_of(
    alloc: Global,
    problem: &Problem,
    k: usize,
    pairs: &Pairs,
) -> Result<Option<Timeline>, AllocError>
    requires person { k < length problem.now.persons }
    requires pairs { ArePairs problem.now k pairs.now }
    ensures { IfOk result (λ found. IfSome found (IsTimeline problem.now k)) }
{
    part_of_legal_is_legal();
    problem.is_sound();
    let Some(spans) = spans_of(alloc, problem)? else {
        return Ok(None);
    };
    let offs = offs_of(alloc, problem, k, &spans)?;
    let start = off_at_start(alloc, problem, k)?;
    let room = room_of(alloc, problem, k, &pairs.alone)?;
    let timeline = draft_of(
        alloc,
        pairs,
        &spans,
        offs,
        start,
        month_start_of(problem, k),
        room,
    )?;
    if !is_whole(&timeline, &spans) {
        return Ok(None);
    }
    Ok(Some(timeline))
}

/// When the month of person `k` begins, in minutes.
fn month_start_of(problem: &Problem, k: usize) -> u64
    requires { k < length problem.now.persons }
    ensures { result ≡ month_start (home_of problem.now k).days }
{
    problem.days_of(k).month_start().get() as u64
}

/// The span of each pairing; none if one has no duty.
fn spans_of(alloc: Global, problem: &Problem) -> Result<Option<Vec<Span>>, AllocError>
    ensures { IfOk result (λ found. IfSome found (λ spans. AreSpans problem.now spans.items)) }
{
    let mut spans = Vec::new(alloc);
    for p in 0..problem.pairings().len() {
        let Some(span) = span_of(problem, p) else {
            return Ok(None);
        };
        spans.push(span)?;
    }
    Ok(Some(spans))
}

/// Whether each pairing that is legal alone has its place and its class, only these are in order, and no
/// flight is more than tables are made for.
fn is_whole(timeline: &Timeline, spans: &[Span]) -> bool
    requires places { (p : ℕ) → is_among timeline.now.alone p ≡ true → p < length spans.now }
    requires ranks { length timeline.now.ranks.items ≡ length spans.now }
    requires classes { length timeline.now.classes.items ≡ length spans.now }
    ensures { IsTrue result → IsWhole timeline.now spans.now }
{
    timeline.order.len() <= MOST_PAIRINGS
        && are_known(&timeline.alone, &timeline.order)
        && are_few(&timeline.flights)
        && each_fits(timeline, spans)
}

/// Whether all of the list are in the set.
fn are_known(alone: &Set, order: &[usize]) -> bool
    ensures { IsTrue result → All (λ p. is_among alone.now p ≡ true) order.now }
{
    order.iter().all(|p| alone.has(*p))
}

/// Whether no flight is more than tables are made for.
fn are_few(flights: &[u64]) -> bool
    ensures { IsTrue result → All (λ flight. flight ≤ MOST_FLIGHT) flights.now }
{
    flights.iter().all(|flight| *flight <= MOST_FLIGHT)
}

/// Whether each pairing that is legal alone has its place and its class.
fn each_fits(timeline: &Timeline, spans: &[Span]) -> bool
    requires places { (p : ℕ) → is_among timeline.now.alone p ≡ true → p < length spans.now }
    requires ranks { length timeline.now.ranks.items ≡ length spans.now }
    requires classes { length timeline.now.classes.items ≡ length spans.now }
    ensures { IsTrue result → (p : ℕ) → is_among timeline.now.alone p ≡ true → Fits timeline.now spans.now p }
{
    let mut from = 0;
    while let Some(p) = timeline.alone.first_from(from) {
        if !fits(timeline, spans, p) {
            return false;
        }
        from = p + 1;
    }
    true
}

/// Whether a pairing stands at its rank, and its class is the begin of its span.
fn fits(timeline: &Timeline, spans: &[Span], p: usize) -> bool
    requires inside { p < length spans.now }
    requires ranks { length timeline.now.ranks.items ≡ length spans.now }
    requires classes { length timeline.now.classes.items ≡ length spans.now }
    ensures { IsTrue result → Fits timeline.now spans.now p }
{
    stands_at(&timeline.order, timeline.ranks[p], p)
        && begins_at(&timeline.begins, timeline.classes[p], spans[p].begin)
}

/// Whether the pairing stands at that rank.
fn stands_at(order: &[usize], rank: usize, p: usize) -> bool
    ensures { IsTrue result → slice_get order.now rank ≡ Some p }
{
    rank < order.len() && order[rank] == p
}

/// Whether the class begins then.
fn begins_at(begins: &[u64], class: usize, begin: u64) -> bool
    ensures { IsTrue result → (class < length begins.now) × (slice_index begins.now class ≡ begin) }
{
    class < begins.len() && begins[class] == begin
}
