//! What may stand behind a pairing brings at least so much.
//!
//! A table over pairings, classes and pairs of days off has for each the least that stands behind the
//! pairing, if no recurrent rest has been since the instant of the class, and so many pairs of days off still
//! have to come. It looks at no more than two neighbours at a time, so no legal set brings less. Each amount
//! is right at any time, and the lowest before anything is known: the table only gets better.

ghost use Rattle.std.specs.Prelude.{◌≡◌, ◌<◌, ◌≤◌, ◌+◌, ◌+ℤ◌, ◌≤ℤ◌, ℕ, ℤ, true, All, IfOk, OnOk, length};
ghost use Rattle.std.specs.Prelude.{Some, slice_get, pos, [], ◌⊎◌};
ghost use Rattle.roster_model.specs.Rules.{is_among};
ghost use Rattle.roster_cost.specs.Amounts.{IsWithin};
ghost use Rattle.roster_plan_bound.specs.Behinds.{lowest, row_at, row_for, AreBehind, AreRowsBehind};
ghost use Rattle.roster_plan_bound.specs.Behinds.{IsBegunBehind, IsFirstAt, IsRowBehind, IsTailBehind};
ghost use Rattle.roster_plan_bound.specs.Chains.{value_at};
ghost use Rattle.roster_plan_bound.specs.Timelines.{class_of, AreValued};

use crate::leading::{lesser, row_behind, through};
use crate::parts::MOST_BEHIND;
use crate::rows_behind::{BehindRow, LOWEST, OwedRows, brought};
use crate::timeline::Timeline;
use roster_legal::part_of_legal_is_legal;
use roster_problem::Problem;
use std::alloc::{AllocError, Global};

/// For each pairing rows, which have for each class the least that stands behind it; for each rank the least
/// that begins there or behind; and what any path brings at least.
#[derive(Drop)]
pub(crate) struct Behind {
    pub(crate) rows: Vec<OwedRows>,
    pub(crate) tails: Vec<i64>,
    pub(crate) begun: i64,
}

/// What a table is made of: a person's timeline, and what each pairing brings.
#[derive(Clone, Copy)]
pub(crate) struct Valued<'a> {
    pub(crate) problem: &'a Problem,
    pub(crate) person: usize,
    pub(crate) timeline: &'a Timeline,
    pub(crate) values: &'a [i64],
}

/// The table of a timeline and what each pairing brings.
pub(crate) fn behind_of(alloc: Global, valued: &Valued<'_>) -> Result<Behind, AllocError>
    requires { AreValued valued.now.problem.now valued.now.person valued.now.timeline.now valued.now.values.now }
    ensures { IfOk result
        (AreBehind valued.now.problem.now valued.now.person valued.now.timeline.now valued.now.values.now) }
{
    let count = valued.timeline.order.len();
    let mut behind = unknown(alloc, valued)?;
    for back in 0..count {
        learn(alloc, valued, &mut behind, count - 1 - back)?;
    }
    behind.begun = begun_of(valued, &behind);
    Ok(behind)
}

/// Nothing is known but what stands behind all.
fn unknown(alloc: Global, valued: &Valued<'_>) -> Result<Behind, AllocError>
    requires { AreValued valued.now.problem.now valued.now.person valued.now.timeline.now valued.now.values.now }
    ensures { IfOk result
        (AreBehind valued.now.problem.now valued.now.person valued.now.timeline.now valued.now.values.now) }
{
    part_of_legal_is_legal();
    valued.problem.is_sound();
    let rows = no_rows(alloc, valued.problem.pairings().len())?;
    let tails = no_tails(alloc, valued.timeline.order.len())?;
    Ok(Behind {
        rows,
        tails,
        begun: LOWEST,
    })
}

/// So many empty rows.
fn no_rows(alloc: Global, count: usize) -> Result<Vec<OwedRows>, AllocError>
    ensures covers { IfOk result (λ rows. length rows.items ≡ count) }
    ensures none { IfOk result (λ rows. All (λ row. (need : ℕ) → row_for row need ≡ []) rows.items) }
{
    let mut rows = Vec::new(alloc);
    for _ in 0..count {
        rows.push(OwedRows::empty(alloc))?;
    }
    Ok(rows)
}

/// The lowest amount for so many ranks, and nothing for the one behind.
fn no_tails(alloc: Global, count: usize) -> Result<Vec<i64>, AllocError>
    ensures longer { IfOk result (λ tails. length tails.items ≡ count + 1) }
    ensures none { IfOk result (λ tails. (from : ℕ) (tail : ℤ) → slice_get tails.items from ≡ Some tail
        → ((tail ≡ lowest) ⊎ ((from ≡ count) × (tail ≡ pos 0)))) }
{
    let mut tails = vec![in alloc; LOWEST; count]?;
    tails.push(0)?;
    Ok(tails)
}

/// Learns what stands behind the pairing of that rank, and what begins there.
fn learn(
    alloc: Global,
    valued: &Valued<'_>,
    behind: &mut Behind,
    rank: usize,
) -> Result<(), AllocError>
    requires valued { AreValued valued.now.problem.now valued.now.person valued.now.timeline.now valued.now.values.now }
    requires rank { rank < length valued.now.timeline.now.order.items }
    requires behind { AreBehind valued.now.problem.now valued.now.person valued.now.timeline.now
        valued.now.values.now behind.old }
    ensures { OnOk result (AreBehind valued.now.problem.now valued.now.person valued.now.timeline.now
        valued.now.values.now behind.new) }
{
    let p = pairing_at(valued, rank);
    let rows = rows_behind(alloc, valued, behind, p)?;
    let tail = tail_of(valued, behind, rank, p, &rows.none);
    put(valued, behind, rank, p, rows, tail);
    Ok(())
}

/// The pairing that stands at the rank.
fn pairing_at(valued: &Valued<'_>, rank: usize) -> usize
    requires valued { AreValued valued.now.problem.now valued.now.person valued.now.timeline.now valued.now.values.now }
    requires rank { rank < length valued.now.timeline.now.order.items }
    ensures place { result < length valued.now.problem.now.pairings }
    ensures alone { is_among valued.now.timeline.now.alone result ≡ true }
    ensures stands { slice_get valued.now.timeline.now.order.items rank ≡ Some result }
{
    valued.timeline.order[rank]
}

/// What stands behind pairing `p`, for each number of pairs of days off that still have to come.
fn rows_behind(
    alloc: Global,
    valued: &Valued<'_>,
    behind: &Behind,
    p: usize,
) -> Result<OwedRows, AllocError>
    requires valued { AreValued valued.now.problem.now valued.now.person valued.now.timeline.now valued.now.values.now }
    requires alone { is_among valued.now.timeline.now.alone p ≡ true }
    requires behind { AreBehind valued.now.problem.now valued.now.person valued.now.timeline.now
        valued.now.values.now behind.now }
    ensures { IfOk result (AreRowsBehind valued.now.problem.now valued.now.person valued.now.timeline.now
        valued.now.values.now p) }
{
    let none = row_behind(alloc, valued, behind, p, 0)?;
    let one = row_behind(alloc, valued, behind, p, 1)?;
    let two = row_behind(alloc, valued, behind, p, 2)?;
    Ok(OwedRows { none, one, two })
}

/// What begins at the rank at which pairing `p` stands, whose row is known, or behind it.
fn tail_of(valued: &Valued<'_>, behind: &Behind, rank: usize, p: usize, row: &BehindRow) -> i64
    requires valued { AreValued valued.now.problem.now valued.now.person valued.now.timeline.now valued.now.values.now }
    requires place { p < length valued.now.problem.now.pairings }
    requires stands { slice_get valued.now.timeline.now.order.items rank ≡ Some p }
    requires rank { rank < length valued.now.timeline.now.order.items }
    requires behind { AreBehind valued.now.problem.now valued.now.person valued.now.timeline.now
        valued.now.values.now behind.now }
    requires row { IsRowBehind valued.now.problem.now valued.now.person valued.now.timeline.now
        valued.now.values.now p 0 row.now }
    ensures { IsTailBehind valued.now.problem.now valued.now.person valued.now.timeline.now valued.now.values.now
        rank result }
{
    part_of_legal_is_legal();
    valued.problem.is_sound();
    lesser(behind.tails[rank + 1], led(valued, p, row))
}

/// What pairing `p` brings, and what stands behind it after a recurrent rest.
fn led(valued: &Valued<'_>, p: usize, row: &BehindRow) -> i64
    requires valued { AreValued valued.now.problem.now valued.now.person valued.now.timeline.now valued.now.values.now }
    requires place { p < length valued.now.problem.now.pairings }
    requires row { All (IsWithin MOST_BEHIND) row.now }
    ensures least { (amount : ℤ) → lowest ≤ℤ amount
        → (value_at valued.now.values.now p +ℤ row_at row.now (class_of valued.now.timeline.now p)) ≤ℤ amount
        → result ≤ℤ amount }
    ensures within { IsWithin MOST_BEHIND result }
{
    brought(valued.values[p], row.at(valued.timeline.classes[p]))
}

/// Puts the rows of pairing `p` and the tail of the rank into the table.
fn put(valued: &Valued<'_>, behind: &mut Behind, rank: usize, p: usize, rows: OwedRows, tail: i64)
    requires place { p < length valued.now.problem.now.pairings }
    requires rank { rank < length valued.now.timeline.now.order.items }
    requires behind { AreBehind valued.now.problem.now valued.now.person valued.now.timeline.now
        valued.now.values.now behind.old }
    requires rows { AreRowsBehind valued.now.problem.now valued.now.person valued.now.timeline.now
        valued.now.values.now p rows }
    requires tail { IsTailBehind valued.now.problem.now valued.now.person valued.now.timeline.now
        valued.now.values.now rank tail }
    ensures { AreBehind valued.now.problem.now valued.now.person valued.now.timeline.now valued.now.values.now
        behind.new }
{
    behind.tails[rank] = tail;
    behind.rows[p] = rows;
}

/// What any path brings: the empty one, or one that begins with some pairing.
fn begun_of(valued: &Valued<'_>, behind: &Behind) -> i64
    requires valued { AreValued valued.now.problem.now valued.now.person valued.now.timeline.now valued.now.values.now }
    requires behind { AreBehind valued.now.problem.now valued.now.person valued.now.timeline.now
        valued.now.values.now behind.now }
    ensures begun { IsBegunBehind valued.now.problem.now valued.now.person valued.now.timeline.now
        valued.now.values.now result }
    ensures within { IsWithin MOST_BEHIND result }
{
    part_of_legal_is_legal();
    valued.problem.is_sound();
    let mut begun = 0;
    for rank in 0..valued.timeline.order.len() {
        let q = pairing_at(valued, rank);
        begun = lesser(begun, first_at(valued, behind, q));
    }
    begun
}

/// What a path brings at least of which pairing `q` is the first one.
fn first_at(valued: &Valued<'_>, behind: &Behind, q: usize) -> i64
    requires valued { AreValued valued.now.problem.now valued.now.person valued.now.timeline.now valued.now.values.now }
    requires place { q < length valued.now.problem.now.pairings }
    requires behind { AreBehind valued.now.problem.now valued.now.person valued.now.timeline.now
        valued.now.values.now behind.now }
    ensures least { IsFirstAt valued.now.timeline.now valued.now.values.now behind.now q result }
    ensures within { IsWithin MOST_BEHIND result }
{
    let timeline = valued.timeline;
    let need = timeline.need_first(q);
    through(valued, behind, q, need, timeline.classes[q])
}
