//! The reason for a set.

ghost use Rattle.std.specs.Prelude.{◌<◌, All, IfOk, MatchOption, length};
ghost use Rattle.roster_model.specs.Rules as model;
ghost use Rattle.roster_model.specs.Rules.{Holds, IsLegal};
ghost use Rattle.roster_legal_reasons.specs.Reasons.{IsReason};

use crate::rules::{Reason, reason_for};
use roster_legal::{first_broken, merge};
use roster_problem::Problem;
use roster_values::Set;
use std::alloc::{AllocError, Global};

/// What first breaks the first rule that person `k` breaks with the set, if there is one. Of the empty set it
/// tells what locks the person.
pub fn first_reason(
    alloc: Global,
    problem: &Problem,
    k: usize,
    set: &Set,
) -> Result<Option<Reason>, AllocError>
    requires person { k < length problem.now.persons }
    requires places { All (λ p. p < length problem.now.pairings) set.now }
    ensures { IfOk result (λ reason. MatchOption reason
        ((rule : model.Rule) → Holds problem.now k set.now rule)
        (IsReason problem.now k set.now)) }
{
    match first_broken(alloc, problem, k, set)? {
        Some(rule) => {
            let list = merge(alloc, problem, k, set)?;
            Ok(reason_for(problem, k, set, &list, rule))
        }
        None => Ok(None),
    }
}

/// Why person `k` mustn't have the set, if it isn't legal: the first rule that is broken, and what first
/// breaks it.
pub fn reason(
    alloc: Global,
    problem: &Problem,
    k: usize,
    set: &Set,
) -> Result<Option<Reason>, AllocError>
    requires person { k < length problem.now.persons }
    requires places { All (λ p. p < length problem.now.pairings) set.now }
    ensures { IfOk result (λ reason. MatchOption reason (IsLegal problem.now k set.now)
        (λ told. (¬ IsLegal problem.now k set.now) × IsReason problem.now k set.now told)) }
{
    if set.is_empty() {
        return Ok(None);
    }
    first_reason(alloc, problem, k, set)
}
