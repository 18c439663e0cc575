//! What flight costs at the end of a chain: a target that is missed by more or less.

ghost use Rattle.std.specs.Prelude.{◌≡◌, ◌<◌, ◌≤◌, ◌+◌, ◌-◌, ◌*◌, ◌-ℤ◌, ◌*ℤ◌, pos, All, IfOk, length};
ghost use Rattle.roster_model.specs.Problem.{target_of, weight_of};
ghost use Rattle.roster_cost.specs.Amounts.{IsWithin, most_flight};
ghost use Rattle.roster_plan_bound.specs.Networks.{missed_at, AreTerms};

use crate::parts::{MOST_COUNTED, MOST_TARGET_TERM, PARTS};
use roster_cost::fixed_flight;
use roster_model::limits::MOST_MINUTES;
use roster_problem::Problem;
use std::alloc::{AllocError, Global};

/// States tell apart so many minutes of flight above the target, if they can.
const BEYOND: u64 = 20 * 60;

/// What each state brings at the end. The last one stands for as much flight or more.
pub(crate) fn terms_of(
    alloc: Global,
    problem: &Problem,
    k: usize,
    step: u64,
) -> Result<Vec<i64>, AllocError>
    requires person { k < length problem.now.persons }
    requires step { 0 < step }
    requires short { step ≤ 5 }
    ensures terms { IfOk result (λ terms. AreTerms problem.now k step terms.items) }
    ensures some { IfOk result (λ terms. 0 < length terms.items) }
    ensures within { IfOk result (λ terms. All (IsWithin MOST_TARGET_TERM) terms.items) }
{
    let fixed = fixed_flight(problem, k);
    let last = last_state(problem, k, fixed, step);
    let mut terms = Vec::new(alloc);
    for f in 0..last {
        terms.push(term(problem, k, fixed, f * step))?;
    }
    terms.push(last_term(problem, k, fixed, last * step))?;
    Ok(terms)
}

/// How many steps of flight are told apart: a little more than the target asks for.
fn last_state(problem: &Problem, k: usize, fixed: u64, step: u64) -> u64
    requires person { k < length problem.now.persons }
    requires step { 0 < step }
    ensures { result * step ≤ MOST_COUNTED }
{
    let person = problem.person(k);
    let minutes = u64::from(person.target)
        .saturating_sub(fixed)
        .saturating_add(BEYOND);
    let counted = if minutes < MOST_COUNTED {
        minutes
    } else {
        MOST_COUNTED
    };
    counted / step
}

/// What it brings to end with so many minutes of flight more than the fixed ones.
fn term(problem: &Problem, k: usize, fixed: u64, more: u64) -> i64
    requires person { k < length problem.now.persons }
    requires fixed { fixed ≤ most_flight }
    requires more { more ≤ MOST_COUNTED }
    ensures value { result ≡ missed_at problem.now k (fixed + more) -ℤ missed_at problem.now k fixed }
    ensures within { IsWithin MOST_TARGET_TERM result }
{
    let target = u64::from(problem.person(k).target);
    weighed(
        problem,
        (fixed + more).abs_diff(target),
        fixed.abs_diff(target),
    )
}

/// What it brings at least to end with so many minutes of flight more than the fixed ones, or with more.
fn last_term(problem: &Problem, k: usize, fixed: u64, more: u64) -> i64
    requires person { k < length problem.now.persons }
    requires fixed { fixed ≤ most_flight }
    requires more { more ≤ MOST_COUNTED }
    ensures value { result
        ≡ (pos PARTS *ℤ pos (weight_of problem.now * ((fixed + more) - target_of problem.now k)))
        -ℤ missed_at problem.now k fixed }
    ensures within { IsWithin MOST_TARGET_TERM result }
{
    let persons = problem.persons();
    let person = &persons[k];
    let target = u64::from(person.target);
    weighed(
        problem,
        (fixed + more).saturating_sub(target),
        fixed.abs_diff(target),
    )
}

/// What it costs more to miss a target by so many minutes than by so many others, in parts of a cost unit.
fn weighed(problem: &Problem, missed: u64, before: u64) -> i64
    requires more { missed ≤ before + 2 * MOST_MINUTES }
    requires less { before ≤ missed + 2 * MOST_MINUTES }
    ensures value { result ≡ (pos PARTS *ℤ pos (weight_of problem.now * missed))
        -ℤ (pos PARTS *ℤ pos (weight_of problem.now * before)) }
    ensures within { IsWithin MOST_TARGET_TERM result }
{
    if missed < before {
        -(weighed_minutes(problem, before - missed))
    } else {
        weighed_minutes(problem, missed - before)
    }
}

/// What so many minutes cost by which a target is missed, in parts of a cost unit.
fn weighed_minutes(problem: &Problem, minutes: u64) -> i64
    requires { minutes ≤ 2 * MOST_MINUTES }
    ensures value { result ≡ pos (PARTS * (weight_of problem.now * minutes)) }
    ensures within { IsWithin MOST_TARGET_TERM result }
{
    (PARTS * (u64::from(problem.weight()) * minutes)) as i64
}
