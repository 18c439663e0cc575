//! How near to each limit each person is.

ghost use Rattle.std.specs.Prelude.{◌≡◌, ◌++◌, ◌<◌, IfOk, OnOk, length};
ghost use Rattle.roster_desk_words.specs.Limits as spec;
ghost use Rattle.roster_desk_words.specs.Limits.{AreLimitLines, IsLimitLine, IsLimitsText};
ghost use Rattle.roster_desk_words.specs.Limits.{limit_text, use_text};
ghost use Rattle.roster_desk_words.specs.Parts.{AreParts};

use crate::sentences::counted;
use crate::words::{day, person_name, push_all, push_time};
use roster_desk_given::duties_with;
use roster_instants::BaseDays;
use roster_legal_reasons::{Amount, standing};
use roster_problem::{DutyList, Problem};
use roster_values::Limit;
use std::alloc::{AllocError, Global};

/// Appends how much is used of the limit.
fn push_use(
    alloc: Global,
    out: &mut Vec<u8>,
    problem: &Problem,
    days: &BaseDays,
    limit: Limit,
    amount: Amount,
) -> Result<(), AllocError>
    ensures { OnOk result (out.new.items
        ≡ out.old.items ++ use_text problem.now.period days.now.month_days limit amount) }
{
    match amount {
        Amount::Run(run) => {
            let to = day(alloc, problem.period(), days.month_days(), run.last)?;
            push_time(alloc, out, run.minutes, counted(limit))?;
            push_all(out, &[to.as_bytes(), b" of "])?;
            push_time(alloc, out, run.most, b"")
        }
        Amount::Month(month) => {
            push_time(alloc, out, month.flown, b" of flight in the month and ")?;
            push_time(alloc, out, month.carried, b" before it of ")?;
            push_time(alloc, out, month.most, b"")
        }
    }
}

/// Appends how much of a limit the person uses, which is the amount, and what is left.
pub fn push_limit(
    alloc: Global,
    out: &mut Vec<u8>,
    problem: &Problem,
    k: usize,
    limit: Limit,
    amount: Amount,
) -> Result<(), AllocError>
    requires { k < length problem.now.persons }
    ensures { OnOk result (out.new.items ≡ out.old.items ++ limit_text problem.now k limit amount) }
{
    push_all(out, &[person_name(problem, k), b" "])?;
    out.extend_from_slice(limit.rule().word().as_bytes())?;
    out.extend_from_slice(b": ")?;
    push_use(alloc, out, problem, problem.days_of(k), limit, amount)?;
    out.extend_from_slice(b", ")?;
    push_time(alloc, out, amount.left(), b" left")
}

/// The line of a limit of person `k`, who has the duties of the list.
fn line_of(
    alloc: Global,
    problem: &Problem,
    k: usize,
    list: &DutyList,
    limit: Limit,
) -> Result<Vec<u8>, AllocError>
    requires { k < length problem.now.persons }
    ensures { IfOk result (λ line. IsLimitLine problem.now list.now k limit line.items) }
{
    let amount = standing(problem, k, list, limit);
    let mut line = Vec::new(alloc);
    push_limit(alloc, &mut line, problem, k, limit, amount)?;
    line.push(b'\n')?;
    Ok(line)
}

/// The lines of these limits of person `k`, who has the duties of the list.
fn lines_of(
    alloc: Global,
    problem: &Problem,
    k: usize,
    list: &DutyList,
    limits: &[Limit],
) -> Result<Vec<u8>, AllocError>
    requires { k < length problem.now.persons }
    ensures { IfOk result (λ text. AreParts (IsLimitLine problem.now list.now k) limits.now text.items) }
{
    let mut out = Vec::new(alloc);
    for limit in limits {
        let line = line_of(alloc, problem, k, list, *limit)?;
        out.extend_from_slice(line.as_slice())?;
    }
    Ok(out)
}

/// The lines of person `k`, one for each limit; none if the person isn't meant.
fn person_text(
    alloc: Global,
    problem: &Problem,
    places: &[u16],
    k: usize,
    is_meant: bool,
) -> Result<Vec<u8>, AllocError>
    requires covers { length places.now ≡ length problem.now.pairings }
    requires person { k < length problem.now.persons }
    ensures { IfOk result (λ text. AreLimitLines is_meant problem.now places.now k text.items) }
{
    if !is_meant {
        return Ok(Vec::new(alloc));
    }
    let list = duties_with(alloc, problem, places, k)?;
    lines_of(alloc, problem, k, &list, &Limit::ALL)
}

/// Whether the person is the one that is named, or none is.
fn is_meant(named: Option<usize>, k: usize) -> bool
    ensures { result ≡ spec.is_meant named k }
{
    match named {
        Some(named) => named == k,
        None => true,
    }
}

/// For each person, or the one that is named by a place, a line for each limit: how much of it is used with
/// the roster, and what is left. The places are the roster, which needn't be legal.
pub fn limits_text(
    alloc: Global,
    problem: &Problem,
    places: &[u16],
    person: Option<usize>,
) -> Result<Vec<u8>, AllocError>
    requires { length places.now ≡ length problem.now.pairings }
    ensures { IfOk result (λ text. IsLimitsText problem.now places.now person text.items) }
{
    let mut out = Vec::new(alloc);
    for k in 0..problem.persons().len() {
        let text = person_text(alloc, problem, places, k, is_meant(person, k))?;
        out.extend_from_slice(text.as_slice())?;
    }
    Ok(out)
}
