//! Whether the leave is what reaches into the next window.

ghost use Rattle.std.specs.Prelude.{◌≡◌, IsTrue, map};
ghost use Rattle.std.specs.List.{filter};
ghost use Rattle.roster_problem.specs.Duties.{picked};
ghost use Rattle.roster_desk_carry_judged.specs.Carried as spec;
ghost use Rattle.roster_desk_carry_judged.specs.Carried.{part_in, span_of};

use roster_instants::{BaseDays, Minute};
use roster_problem::Leave;

/// When the part of the leave that lies in the window begins.
fn begin_in(days: &BaseDays, leave: &Leave) -> Minute
    ensures { result ≡ (part_in days.now leave.now).0 }
{
    let start = days.mid(0);
    if leave.from < start {
        start
    } else {
        leave.from
    }
}

/// When it ends.
fn end_in(days: &BaseDays, leave: &Leave) -> Minute
    ensures { result ≡ (part_in days.now leave.now).1 }
{
    let end = days.mid(days.days());
    if end < leave.to { end } else { leave.to }
}

/// Whether a minute of the leave lies in the window.
fn reaches_into(days: &BaseDays, leave: &Leave) -> bool
    ensures { result ≡ spec.reaches_into days.now leave.now }
{
    begin_in(days, leave) < end_in(days, leave)
}

/// Whether the other leave is the part of the leave that lies in the window.
fn is_part(days: &BaseDays, leave: &Leave, other: &Leave) -> bool
    ensures { IsTrue result → span_of other.now ≡ part_in days.now leave.now }
{
    other.from == begin_in(days, leave) && other.to == end_in(days, leave)
}

/// Whether the leaves at the other positions are just the parts in the window of those at the positions.
pub(crate) fn are_parts(
    days: &BaseDays,
    leaves: &[Leave],
    positions: &[u16],
    next: &[Leave],
    others: &[u16],
) -> bool
    ensures { IsTrue result → map span_of (picked next.now others.now)
        ≡ map (part_in days.now) (filter (spec.reaches_into days.now) (picked leaves.now positions.now)) }
{
    let Some((position, later)) = positions.split_first() else {
        return others.is_empty();
    };
    let Some(leave) = leaves.get(usize::from(*position)) else {
        return false;
    };
    if !reaches_into(days, leave) {
        return are_parts(days, leaves, later, next, others);
    }
    let Some((other, rest)) = others.split_first() else {
        return false;
    };
    let Some(part) = next.get(usize::from(*other)) else {
        return false;
    };
    is_part(days, leave, part) && are_parts(days, leaves, later, next, rest)
}
