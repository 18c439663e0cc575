//! What is said of each person: what locks them, and what they break.

ghost use Rattle.std.specs.Prelude.{◌≡◌, ◌<◌, ◌≤◌, ◌++◌, length, map, option_map, IfOk, OnOk};
ghost use Rattle.roster_model.specs.Places.{set_of};
ghost use Rattle.roster_model.specs.Rosters.{AreVerdicts};
ghost use Rattle.roster_model.specs.Rules.{AreLocks, IsVerdict};
ghost use Rattle.roster_model.specs.Texts as texts;
ghost use Rattle.roster_values.specs.View.{rule_of};

use crate::words::{end_line, push_word};
use roster_legal::{first_broken, locked};
use roster_model::limits::MOST_PAIRINGS;
use roster_problem::{Person, Problem};
use roster_values::{Rule, Set};
use std::alloc::{AllocError, Global};

/// What locks each person, in book order.
#[tactic(auto, using(crate::proofs::OfPersons::SaidBefore_none))]
pub(crate) fn locks_of(alloc: Global, problem: &Problem) -> Result<Vec<Option<Rule>>, AllocError>
    ensures { IfOk result
        (λ locks. AreLocks problem.now (map (option_map rule_of) locks.items)) }
{
    let count = problem.persons().len();
    let mut locks = Vec::with_capacity(alloc, count)?;
    for k in 0..count {
        locks.push(locked(alloc, problem, k)?)?;
    }
    Ok(locks)
}

/// What person `k` breaks with their set: nothing if the set is legal, which the empty set is.
fn verdict_of(
    alloc: Global,
    problem: &Problem,
    places: &[u16],
    k: usize,
) -> Result<Option<Rule>, AllocError>
    requires person { k < length problem.now.persons }
    requires covers { length places.now ≡ length problem.now.pairings }
    requires limit { length places.now ≤ MOST_PAIRINGS }
    ensures { IfOk result (λ verdict.
        IsVerdict problem.now k (set_of k places.now) (option_map rule_of verdict)) }
{
    let set = Set::of_places(places, k);
    if set.is_empty() {
        return Ok(None);
    }
    first_broken(alloc, problem, k, &set)
}

/// What each person breaks with their set, in book order.
#[tactic(auto, using(crate::proofs::OfPersons::SaidBefore_none))]
pub(crate) fn verdicts_of(
    alloc: Global,
    problem: &Problem,
    places: &[u16],
) -> Result<Vec<Option<Rule>>, AllocError>
    requires { length places.now ≡ length problem.now.pairings }
    ensures { IfOk result (λ verdicts.
        AreVerdicts problem.now places.now (map (option_map rule_of) verdicts.items)) }
{
    let count = problem.persons().len();
    let mut verdicts = Vec::with_capacity(alloc, count)?;
    for k in 0..count {
        verdicts.push(verdict_of(alloc, problem, places, k)?)?;
    }
    Ok(verdicts)
}

/// Appends the line of the rule that locks a person, if one does.
pub(crate) fn push_lock(
    out: &mut Vec<u8>,
    person: &Person,
    lock: Option<Rule>,
) -> Result<(), AllocError>
    ensures { OnOk result (out.new.items
        ≡ out.old.items ++ texts.lock_line person.now (option_map rule_of lock)) }
{
    let Some(rule) = lock else {
        return Ok(());
    };
    out.extend_from_slice(b"LOCKED")?;
    push_word(out, person.id.as_bytes())?;
    push_word(out, rule.word().as_bytes())?;
    end_line(out)
}

/// The word of the rule that a person breaks, and of one who breaks none.
fn verdict_word(verdict: Option<Rule>) -> &'static str
    ensures { result.now ≡ texts.verdict_word (option_map rule_of verdict) }
{
    match verdict {
        None => "OK",
        Some(rule) => rule.word(),
    }
}

/// Appends the line of what a person breaks.
pub(crate) fn push_verdict(
    out: &mut Vec<u8>,
    person: &Person,
    verdict: Option<Rule>,
) -> Result<(), AllocError>
    ensures { OnOk result (out.new.items
        ≡ out.old.items ++ texts.verdict_line person.now (option_map rule_of verdict)) }
{
    out.extend_from_slice(b"CREW")?;
    push_word(out, person.id.as_bytes())?;
    push_word(out, verdict_word(verdict).as_bytes())?;
    end_line(out)
}
