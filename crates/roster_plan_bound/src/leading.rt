//! What stands behind a pairing brings at least so much, by what each pairing that may follow it leads to.
//!
//! It is one before which a recurrent rest may lie, or one before which none lies, so that the class stays.

ghost use Rattle.std.specs.Prelude.{◌≡◌, ◌<◌, ◌≤◌, ◌+◌, ◌+ℤ◌, ◌≤ℤ◌, ◌⊎◌, ℕ, ℤ, pos, true, false, All, IfOk};
ghost use Rattle.std.specs.Prelude.{Some, length, slice_get};
ghost use Rattle.roster_model.specs.Rules.{is_among};
ghost use Rattle.roster_cost.specs.Amounts.{IsWithin};
ghost use Rattle.roster_plan_bound.specs.declared.rows_behind.OwedRows.{OwedRows as PlainRows};
ghost use Rattle.roster_plan_bound.specs.Behinds.{lowest, row_at, row_for, AreBehind, IsBase, IsLed};
ghost use Rattle.roster_plan_bound.specs.Behinds.{IsRowBehind};
ghost use Rattle.roster_plan_bound.specs.Chains.{value_at};
ghost use Rattle.roster_plan_bound.specs.Timelines.{class_of, later_than, low_of, need_behind, rank_of};
ghost use Rattle.roster_plan_bound.specs.Timelines.{unrested_after, AreValued, MayEnd};

use crate::behind::{Behind, Valued};
use crate::parts::MOST_BEHIND;
use crate::rows_behind::{BehindRow, HIGHEST, brought};
use crate::timeline::Timeline;
use roster_legal::part_of_legal_is_legal;
use std::alloc::{AllocError, Global};

/// What stands behind pairing `p`, if so many pairs of days off still have to come.
pub(crate) fn row_behind(
    alloc: Global,
    valued: &Valued<'_>,
    behind: &Behind,
    p: usize,
    need: usize,
) -> Result<BehindRow, AllocError>
    requires valued { AreValued valued.now.problem.now valued.now.person valued.now.timeline.now valued.now.values.now }
    requires alone { is_among valued.now.timeline.now.alone p ≡ true }
    requires behind { AreBehind valued.now.problem.now valued.now.person valued.now.timeline.now
        valued.now.values.now behind.now }
    ensures { IfOk result (IsRowBehind valued.now.problem.now valued.now.person valued.now.timeline.now
        valued.now.values.now p need) }
{
    part_of_legal_is_legal();
    valued.problem.is_sound();
    let far = far_from(valued.timeline, p, need);
    let base = base_of(valued, behind, p, need, far);
    let row = row_of(alloc, valued, behind, p, need, far, base)?;
    Ok(row)
}

/// What stands behind pairing `p` at least, whose rank it is: nothing, one that is far, or one before which a
/// recurrent rest may lie.
fn base_of(valued: &Valued<'_>, behind: &Behind, p: usize, need: usize, until: usize) -> i64
    requires valued { AreValued valued.now.problem.now valued.now.person valued.now.timeline.now valued.now.values.now }
    requires place { is_among valued.now.timeline.now.alone p ≡ true }
    requires behind { AreBehind valued.now.problem.now valued.now.person valued.now.timeline.now
        valued.now.values.now behind.now }
    requires until { until ≤ length valued.now.timeline.now.order.items }
    ensures { IsBase valued.now.timeline.now valued.now.values.now behind.now p need until result }
{
    let timeline = valued.timeline;
    let mut base = end_or_far(valued, behind, p, need, until);
    for s in rank_behind(valued, p)..until {
        base = rested_by(valued, behind, p, timeline.order[s], need, base);
    }
    base
}

/// The first rank behind that of pairing `p`.
fn rank_behind(valued: &Valued<'_>, p: usize) -> usize
    requires valued { AreValued valued.now.problem.now valued.now.person valued.now.timeline.now valued.now.values.now }
    requires place { is_among valued.now.timeline.now.alone p ≡ true }
    ensures { result ≡ rank_of valued.now.timeline.now p + 1 }
{
    valued.timeline.ranks[p] + 1
}

/// What it brings that nothing stands behind pairing `p`, if a path may end there, or that something of that
/// rank or a later one does.
fn end_or_far(valued: &Valued<'_>, behind: &Behind, p: usize, need: usize, until: usize) -> i64
    requires valued { AreValued valued.now.problem.now valued.now.person valued.now.timeline.now valued.now.values.now }
    requires place { p < length valued.now.problem.now.pairings }
    requires behind { AreBehind valued.now.problem.now valued.now.person valued.now.timeline.now
        valued.now.values.now behind.now }
    ensures end { MayEnd valued.now.timeline.now p need → result ≤ℤ pos 0 }
    ensures tail { until < length valued.now.timeline.now.order.items → (tail : ℤ)
        → slice_get behind.now.tails.items until ≡ Some tail → result ≤ℤ tail }
    ensures within { IsWithin MOST_BEHIND result }
{
    let end = end_at(valued, p, need);
    if until >= valued.timeline.order.len() {
        return end;
    }
    lesser(behind.tails[until], end)
}

/// What it brings that nothing stands behind pairing `p`: the most if a path can't end there.
fn end_at(valued: &Valued<'_>, p: usize, need: usize) -> i64
    requires valued { AreValued valued.now.problem.now valued.now.person valued.now.timeline.now valued.now.values.now }
    requires place { p < length valued.now.problem.now.pairings }
    ensures end { MayEnd valued.now.timeline.now p need → result ≤ℤ pos 0 }
    ensures within { IsWithin MOST_BEHIND result }
{
    if valued.timeline.may_end(p, need) {
        return 0;
    }
    HIGHEST
}

/// The base, or what pairing `q` leads to, if it may follow pairing `p` after a recurrent rest and brings
/// less.
fn rested_by(
    valued: &Valued<'_>,
    behind: &Behind,
    p: usize,
    q: usize,
    need: usize,
    base: i64,
) -> i64
    requires valued { AreValued valued.now.problem.now valued.now.person valued.now.timeline.now valued.now.values.now }
    requires place { p < length valued.now.problem.now.pairings }
    requires other { q < length valued.now.problem.now.pairings }
    requires behind { AreBehind valued.now.problem.now valued.now.person valued.now.timeline.now
        valued.now.values.now behind.now }
    requires base { IsWithin MOST_BEHIND base }
    ensures kept { result ≤ℤ base }
    ensures rested { is_among (later_than valued.now.timeline.now p) q ≡ true
        → is_among (unrested_after valued.now.timeline.now p) q ≡ false → (rows : PlainRows) (amount : ℤ)
        → slice_get behind.now.rows.items q ≡ Some rows → lowest ≤ℤ amount
        → (value_at valued.now.values.now q
        +ℤ row_at (row_for rows (need_behind valued.now.timeline.now p q need))
        (class_of valued.now.timeline.now q)) ≤ℤ amount
        → result ≤ℤ amount }
    ensures within { IsWithin MOST_BEHIND result }
{
    let timeline = valued.timeline;
    if !timeline.later[p].has(q) || timeline.unrested[p].has(q) {
        return base;
    }
    let left = timeline.need_behind(p, q, need);
    lesser(base, through(valued, behind, q, left, timeline.classes[q]))
}

/// The row of pairing `p`, with that base.
fn row_of(
    alloc: Global,
    valued: &Valued<'_>,
    behind: &Behind,
    p: usize,
    need: usize,
    until: usize,
    base: i64,
) -> Result<BehindRow, AllocError>
    requires valued { AreValued valued.now.problem.now valued.now.person valued.now.timeline.now valued.now.values.now }
    requires place { is_among valued.now.timeline.now.alone p ≡ true }
    requires behind { AreBehind valued.now.problem.now valued.now.person valued.now.timeline.now
        valued.now.values.now behind.now }
    requires until { until ≤ length valued.now.timeline.now.order.items }
    requires base { IsBase valued.now.timeline.now valued.now.values.now behind.now p need until base }
    ensures { IfOk result
        (λ row. IsLed valued.now.timeline.now valued.now.values.now behind.now p need until base row) }
{
    let timeline = valued.timeline;
    // A later class than the pairing's own is never asked for.
    let last = timeline.classes[p];
    let mut row = BehindRow::of(alloc, base, last + 1)?;
    for s in rank_behind(valued, p)..until {
        let q = timeline.order[s];
        if timeline.unrested[p].has(q) {
            lower_by(valued, behind, p, q, need, &mut row);
        }
    }
    Ok(row)
}

/// Lowers the row of pairing `p` to what pairing `q` leads to, before which no recurrent rest lies.
fn lower_by(
    valued: &Valued<'_>,
    behind: &Behind,
    p: usize,
    q: usize,
    need: usize,
    row: &mut BehindRow,
)
    requires valued { AreValued valued.now.problem.now valued.now.person valued.now.timeline.now valued.now.values.now }
    requires place { p < length valued.now.problem.now.pairings }
    requires other { q < length valued.now.problem.now.pairings }
    requires behind { AreBehind valued.now.problem.now valued.now.person valued.now.timeline.now
        valued.now.values.now behind.now }
    requires within { All (IsWithin MOST_BEHIND) row.old }
    ensures kept { (class : ℕ) → row_at row.new class ≤ℤ row_at row.old class }
    ensures led { (class : ℕ) (after : PlainRows) (amount : ℤ)
        → slice_get behind.now.rows.items q ≡ Some after
        → low_of valued.now.timeline.now q ≤ class → class ≤ class_of valued.now.timeline.now p
        → lowest ≤ℤ amount
        → (value_at valued.now.values.now q
        +ℤ row_at (row_for after (need_behind valued.now.timeline.now p q need)) class) ≤ℤ amount
        → row_at row.new class ≤ℤ amount }
    ensures within { All (IsWithin MOST_BEHIND) row.new }
{
    let timeline = valued.timeline;
    let left = timeline.need_behind(p, q, need);
    let (low, high) = (timeline.lows[q], timeline.classes[p]);
    row.lower(behind.rows[q].row(left), valued.values[q], low, high);
}

/// What pairing `q` brings, and its row has for a class.
pub(crate) fn through(
    valued: &Valued<'_>,
    behind: &Behind,
    q: usize,
    need: usize,
    class: usize,
) -> i64
    requires valued { AreValued valued.now.problem.now valued.now.person valued.now.timeline.now valued.now.values.now }
    requires place { q < length valued.now.problem.now.pairings }
    requires behind { AreBehind valued.now.problem.now valued.now.person valued.now.timeline.now
        valued.now.values.now behind.now }
    ensures least { (rows : PlainRows) (amount : ℤ) → slice_get behind.now.rows.items q ≡ Some rows
        → lowest ≤ℤ amount → (value_at valued.now.values.now q +ℤ row_at (row_for rows need) class) ≤ℤ amount
        → result ≤ℤ amount }
    ensures within { IsWithin MOST_BEHIND result }
{
    brought(valued.values[q], behind.rows[q].row(need).at(class))
}

/// The rank from which on all that may follow pairing `p` begins after a recurrent rest and so many pairs of
/// days off, as far as is known.
fn far_from(timeline: &Timeline, p: usize, need: usize) -> usize
    ensures { result ≤ length timeline.now.order.items }
{
    let len = timeline.order.len();
    match timeline.far.get(need) {
        Some(far) => match far.get(p) {
            Some(rank) if *rank <= len => *rank,
            _ => len,
        },
        None => len,
    }
}

/// The lesser one.
pub(crate) fn lesser(amount: i64, other: i64) -> i64
    requires amount { IsWithin MOST_BEHIND amount }
    requires other { IsWithin MOST_BEHIND other }
    ensures first { result ≤ℤ amount }
    ensures second { result ≤ℤ other }
    ensures one { (result ≡ amount) ⊎ (result ≡ other) }
    ensures within { IsWithin MOST_BEHIND result }
{
    if other < amount { other } else { amount }
}
