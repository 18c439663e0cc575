//! Whether the duties are those of the book, with the fixed ones.

ghost use Rattle.std.specs.Prelude.{◌≡◌, ◌≤◌, IsTrue, map, option_map};
ghost use Rattle.roster_problem.specs.View.{holder_of};
ghost use Rattle.roster_desk_repair_terms.specs.Fixed as spec;
ghost use Rattle.roster_desk_repair_terms.specs.Fixed.{kept_duties, unrowed};

use roster_desk_same::are_same_sectors;
use roster_problem::{Duty, Holder};

/// How many of the pairings before place `p` are rostered anew.
fn rank(fixed: &[Option<u16>], p: usize) -> usize
    ensures value { result ≡ spec.rank fixed.now p }
    ensures bound { result ≤ p }
{
    match fixed.split_first() {
        None => 0,
        Some((first, later)) => {
            if p == 0 {
                0
            } else {
                rank(later, p - 1) + usize::from(first.is_none())
            }
        }
    }
}

/// Who holds a duty of this holder in the repaired book; none if nobody does. Who is no person is nobody.
fn kept_holder(nobody: u16, fixed: &[Option<u16>], holder: Holder) -> Option<Holder>
    ensures { option_map holder_of result ≡ spec.kept_holder nobody fixed.now (holder_of holder) }
{
    let Holder::Pairing(p) = holder else {
        return Some(holder);
    };
    match fixed.get(p) {
        None => None,
        Some(None) => Some(Holder::Pairing(rank(fixed, p))),
        Some(Some(number)) => {
            if *number < nobody {
                Some(Holder::Person(usize::from(*number)))
            } else {
                None
            }
        }
    }
}

/// Whether the duty is the other one with this holder.
pub(crate) fn is_kept(before: &Duty, after: &Duty, holder: Holder) -> bool
    ensures { IsTrue result
        → unrowed after.now ≡ record before.now { holder = holder_of holder; row = 0 } }
{
    after.holder == holder
        && after.id.as_bytes() == before.id.as_bytes()
        && after.station.as_bytes() == before.station.as_bytes()
        && after.report == before.report
        && after.release == before.release
        && are_same_sectors(before.sectors.as_slice(), after.sectors.as_slice())
}

/// Whether the duties are those of the book with the holders that they keep.
pub(crate) fn are_kept(nobody: u16, fixed: &[Option<u16>], before: &[Duty], after: &[Duty]) -> bool
    ensures { IsTrue result → map unrowed after.now ≡ kept_duties nobody fixed.now before.now }
{
    match before.split_first() {
        None => after.is_empty(),
        Some((duty, others)) => match kept_holder(nobody, fixed, duty.holder) {
            None => are_kept(nobody, fixed, others, after),
            Some(holder) => match after.split_first() {
                None => false,
                Some((same, rest)) => {
                    is_kept(duty, same, holder) && are_kept(nobody, fixed, others, rest)
                }
            },
        },
    }
}
