//! Rosters of bases, put together.

ghost use Rattle.std.specs.Prelude.{◌≡◌, IfOk, length};
ghost use Rattle.roster_model.specs.Plans as plans;
ghost use Rattle.roster_bases.specs.Bases.{only};
ghost use Rattle.roster_bases.specs.United.{unite};

use crate::members::is_pairing_of;
use roster_problem::{Problem, open_number};
use roster_values::Roster;
use std::alloc::{AllocError, Global};

/// The places of the roster that leaves all open.
pub fn all_open(alloc: Global, problem: &Problem) -> Result<Vec<u16>, AllocError>
    ensures { IfOk result (λ places. places.items ≡ plans.all_open problem.now) }
{
    let places = vec![in alloc; open_number(problem); problem.pairings().len()]?;
    Ok(places)
}

/// What the part has at the pairings of the base, and the places at the others.
pub fn united(
    alloc: Global,
    problem: &Problem,
    base: usize,
    part: &Roster,
    places: &[u16],
) -> Result<Vec<u16>, AllocError>
    requires part { length part.now.places ≡ length problem.now.pairings }
    requires places { length places.now ≡ length problem.now.pairings }
    ensures { IfOk result (λ united. united.items
        ≡ unite problem.now (only base) part.now.places places.now) }
{
    let own = part.places.as_slice();
    let mut united = Vec::new(alloc);
    for (p, number) in places.iter().enumerate() {
        united.push(if is_pairing_of(problem, p, base) {
            own[p]
        } else {
            *number
        })?;
    }
    Ok(united)
}
