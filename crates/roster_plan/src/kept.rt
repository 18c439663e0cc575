//! What is legal of a given roster.

ghost use Rattle.std.specs.Prelude.{◌≡◌, ◌<◌, ◌≤◌, All, IfOk, length};
ghost use Rattle.roster_model.specs.Plans.{IsKeptOf};
ghost use Rattle.roster_model.specs.Rosters.{IsLegalRoster};
ghost use Rattle.roster_plan.specs.Kept.{IsKeptNext};

use roster_legal::Judge;
use roster_problem::{Problem, open_number};
use roster_values::Set;
use std::alloc::{AllocError, Global};

/// What is kept of a given list of places: its pairings in book order, each if it is legal with what the
/// same person keeps of those before it.
pub(crate) fn kept(alloc: Global, problem: &Problem, given: &[u16]) -> Result<Vec<u16>, AllocError>
    requires covers { length given.now ≡ length problem.now.pairings }
    requires numbers { All (λ x. x ≤ length problem.now.persons) given.now }
    ensures legal { IfOk result (λ kept. IsLegalRoster problem.now kept.items) }
    ensures kept { IfOk result (λ kept. IsKeptOf problem.now given.now kept.items) }
{
    problem.is_sound();
    let mut judge = Judge::new(alloc, problem);
    let mut kept = Vec::new(alloc);
    for number in given {
        let next = next_kept(&mut judge, problem, &kept, *number)?;
        kept.push(next)?;
    }
    Ok(kept)
}

/// The number that is kept of the one given, behind those that were kept so far: the same, or open.
fn next_kept(
    judge: &mut Judge<'_>,
    problem: &Problem,
    kept: &[u16],
    number: u16,
) -> Result<u16, AllocError>
    requires judge { judge.old ≡ problem.now }
    requires more { length kept.now < length problem.now.pairings }
    requires number { number ≤ length problem.now.persons }
    ensures next { IfOk result (IsKeptNext problem.now kept.now number) }
    ensures judge { judge.new ≡ problem.now }
{
    problem.is_sound();
    let nobody = open_number(problem);
    if number >= nobody {
        return Ok(number);
    }
    let k = usize::from(number);
    let mut set = Set::of_places(kept, k);
    set.put(kept.len());
    if judge.is_legal(k, &set)? {
        Ok(number)
    } else {
        Ok(nobody)
    }
}
