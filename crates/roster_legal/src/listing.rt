//! The duty list of a person.

ghost use Rattle.std.specs.Prelude.{◌≡◌, ◌<◌, ℕ, [], IfOk, All, length, nat_eq};
ghost use Rattle.std.specs.List.{IsDistinct};
ghost use Rattle.roster_model.specs.Rules.{duty_list, is_among, is_listed};
ghost use Rattle.roster_problem.specs.Duties.{AreTimed, IsInOrder, passes_at};

use roster_problem::{DutyList, Problem};
use roster_values::Set;
use std::alloc::{AllocError, Global};

/// The duty list of person `k` with the set: their fixed duties and those of the pairings in the set.
/// It looks at no other duty.
pub fn merge<'a>(
    alloc: Global,
    problem: &'a Problem,
    k: usize,
    set: &Set,
) -> Result<DutyList<'a>, AllocError>
    requires person { k < length problem.now.persons }
    requires places { All (λ p. p < length problem.now.pairings) set.now }
    ensures value { IfOk result (λ list. list ≡ duty_list problem.now k set.now) }
    ensures ordered { IfOk result IsInOrder }
    ensures timed { IfOk result AreTimed }
{
    merge_in(Vec::new(alloc), problem, k, set)
}

/// The same in memory that is there already, which grows if it is too small.
pub(crate) fn merge_in<'a>(
    memory: Vec<u16>,
    problem: &'a Problem,
    k: usize,
    set: &Set,
) -> Result<DutyList<'a>, AllocError>
    requires empty { memory.items ≡ [] }
    requires person { k < length problem.now.persons }
    requires places { All (λ p. p < length problem.now.pairings) set.now }
    ensures value { IfOk result (λ list. list ≡ duty_list problem.now k set.now) }
    ensures ordered { IfOk result IsInOrder }
    ensures timed { IfOk result AreTimed }
{
    let duties = problem.duties();
    let mut positions = positions_in(memory, problem, k, set)?;
    positions.sort_unstable();
    Ok(DutyList::new(duties, positions))
}

/// The positions of the fixed duties of person k, and of those of the pairings in the set, one pairing
/// after another.
fn positions_in(
    memory: Vec<u16>,
    problem: &Problem,
    k: usize,
    set: &Set,
) -> Result<Vec<u16>, AllocError>
    requires empty { memory.items ≡ [] }
    requires person { k < length problem.now.persons }
    requires places { All (λ p. p < length problem.now.pairings) set.now }
    ensures distinct { IfOk result (λ positions. IsDistinct nat_eq positions.items) }
    ensures members { IfOk result (λ positions. (i : ℕ) → is_among positions.items i
        ≡ passes_at (λ duty. is_listed k set.now duty.holder) problem.now.duties i) }
{
    let mut positions = memory;
    positions.extend_from_slice(problem.fixed(k))?;
    let mut from = 0;
    while let Some(p) = set.first_from(from) {
        positions.extend_from_slice(problem.duties_of(p))?;
        from = p + 1;
    }
    Ok(positions)
}
