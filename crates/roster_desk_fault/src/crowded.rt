//! Persons with more legal sets of pairings than `solve` lists.

ghost use Rattle.std.specs.Prelude.{◌<◌, ◌↔◌, ℕ, IfOk, IsTrue, MatchOption, length};
ghost use Rattle.roster_model.specs.Lines.{IsCrowded, IsFirstCrowded};

use roster_lines::{LinesFault, lines_of};
use roster_lines_table::few_are_not_crowded;
use roster_problem::Problem;
use std::alloc::{AllocError, Global};

/// Whether person `k` has more than `MOST_LINES` legal sets.
fn is_crowded(alloc: Global, problem: &Problem, k: usize) -> Result<bool, AllocError>
    requires { k < length problem.now.persons }
    ensures { IfOk result (λ crowded. IsTrue crowded ↔ IsCrowded problem.now k) }
{
    few_are_not_crowded();
    match lines_of(alloc, problem, k) {
        Ok(_) => Ok(false),
        Err(LinesFault::TooMany) => Ok(true),
        Err(LinesFault::Memory) => Err(AllocError),
    }
}

/// The first person who has more than `MOST_LINES` legal sets, if there is one.
pub(crate) fn first_crowded(alloc: Global, problem: &Problem) -> Result<Option<usize>, AllocError>
    ensures { IfOk result (λ found. MatchOption found
        ((k : ℕ) → k < length problem.now.persons → ¬ IsCrowded problem.now k)
        (IsFirstCrowded problem.now)) }
{
    for k in 0..problem.persons().len() {
        if is_crowded(alloc, problem, k)? {
            return Ok(Some(k));
        }
    }
    Ok(None)
}
