//! What differs between two rosters.

ghost use Rattle.std.specs.Prelude.{◌≡◌, ◌<◌, ◌++◌, IfOk, OnOk, length};
ghost use Rattle.std.specs.List.{flat_map, range_with_len};
ghost use Rattle.roster_desk_tables.specs.Differences as spec;
ghost use Rattle.roster_desk_tables.specs.Differences.{HasPerson, HavePersons, IsDifference, change_line};
ghost use Rattle.roster_desk_tables.specs.Differences.{cost_line, costs_line, counts_line, holder_name};
ghost use Rattle.roster_desk_tables.specs.Differences.{minutes_line, move_line, with_sums};

use crate::sums::{Sums, sums_of};
use roster_cost::roster_cost;
use roster_desk_words::{pairing_name, push_all, time};
use roster_problem::Problem;
use std::alloc::{AllocError, Global};

/// What stands for who has a pairing that is open.
const NOBODY: &[u8] = b"nobody";

/// The name of the person of this number, or the word for nobody.
fn holder(problem: &Problem, number: u16) -> &[u8]
    ensures { result.now ≡ holder_name problem.now number }
{
    match problem.persons().get(usize::from(number)) {
        Some(person) => person.id.as_bytes(),
        None => NOBODY,
    }
}

/// Whether another person has the pairing at place `p`.
fn is_other(before: &[u16], after: &[u16], p: usize) -> bool
    requires before { p < length before.now }
    requires after { p < length after.now }
    ensures { result ≡ spec.is_other before.now after.now p }
{
    before[p] != after[p]
}

/// Appends the line of the pairing at place `p` if another person has it.
fn push_move(
    out: &mut Vec<u8>,
    problem: &Problem,
    before: &[u16],
    after: &[u16],
    p: usize,
) -> Result<(), AllocError>
    requires before { p < length before.now }
    requires after { p < length after.now }
    ensures { OnOk result
        (out.new.items ≡ out.old.items ++ move_line problem.now before.now after.now p) }
{
    if !is_other(before, after, p) {
        return Ok(());
    }
    let name = pairing_name(problem, p);
    let (from, to) = (holder(problem, before[p]), holder(problem, after[p]));
    push_all(out, &[name, b" moves from ", from, b" to ", to, b"\n"])
}

/// Appends a line for each pairing that another person has, in book order.
#[tactic(auto, using(crate::proofs::Steps::lines_more))]
fn push_moves(
    out: &mut Vec<u8>,
    problem: &Problem,
    before: &[u16],
    after: &[u16],
) -> Result<(), AllocError>
    requires { length before.now ≡ length after.now }
    ensures { OnOk result (out.new.items ≡ out.old.items
        ++ flat_map (move_line problem.now before.now after.now) (range_with_len 0 (length before.now))) }
{
    for p in 0..before.len() {
        push_move(out, problem, before, after, p)?;
    }
    Ok(())
}

/// Whether person `k` has the pairing at place `p` by one of the rosters only.
pub(crate) fn is_moved_at(before: &[u16], after: &[u16], k: usize, p: usize) -> bool
    requires before { p < length before.now }
    requires after { p < length after.now }
    ensures { result ≡ spec.is_moved_at before.now after.now k p }
{
    let had = usize::from(before[p]) == k;
    let has = usize::from(after[p]) == k;
    if had { !has } else { has }
}

/// Whether person `k` has a pairing by one of the rosters only.
#[tactic(auto, using(crate::proofs::Steps::none_more))]
fn is_moved(before: &[u16], after: &[u16], k: usize) -> bool
    requires { length before.now ≡ length after.now }
    ensures { result ≡ spec.is_moved before.now after.now k }
{
    for p in 0..before.len() {
        if is_moved_at(before, after, k, p) {
            return true;
        }
    }
    false
}

/// How many pairings another person has.
#[tactic(auto, using(crate::proofs::Steps::count_passed, crate::proofs::Steps::count_failed))]
fn moved_pairings(before: &[u16], after: &[u16]) -> usize
    requires { length before.now ≡ length after.now }
    ensures { result ≡ spec.moved_pairings before.now after.now }
{
    let mut count = 0usize;
    for p in 0..before.len() {
        if is_other(before, after, p) {
            count += 1;
        }
    }
    count
}

/// How many of so many persons have others.
#[tactic(auto, using(crate::proofs::Steps::count_passed, crate::proofs::Steps::count_failed))]
fn moved_persons(persons: usize, before: &[u16], after: &[u16]) -> usize
    requires { length before.now ≡ length after.now }
    ensures { result ≡ spec.moved_persons persons before.now after.now }
{
    let mut count = 0usize;
    for k in 0..persons {
        if is_moved(before, after, k) {
            count += 1;
        }
    }
    count
}

/// Appends how many pairings another person has, and how many persons have others.
fn push_counts(
    alloc: Global,
    out: &mut Vec<u8>,
    problem: &Problem,
    before: &[u16],
    after: &[u16],
) -> Result<(), AllocError>
    requires { length before.now ≡ length after.now }
    ensures { OnOk result
        (out.new.items ≡ out.old.items ++ counts_line problem.now before.now after.now) }
{
    let pairings = moved_pairings(before, after).to_string(alloc)?;
    let persons = moved_persons(problem.persons().len(), before, after).to_string(alloc)?;
    push_all(
        out,
        &[
            pairings.as_bytes(),
            b" pairings and ",
            persons.as_bytes(),
            b" persons change\n",
        ],
    )?;
    Ok(())
}

/// Appends a line that tells an amount before and after.
fn push_change(
    out: &mut Vec<u8>,
    whose: &[u8],
    what: &[u8],
    before: &[u8],
    after: &[u8],
) -> Result<(), AllocError>
    ensures { OnOk result
        (out.new.items ≡ out.old.items ++ change_line whose.now what.now before.now after.now) }
{
    push_all(
        out,
        &[whose, b" ", what, b": ", before, b" to ", after, b"\n"],
    )
}

/// Appends a line for an amount of minutes if it differs.
fn push_minutes(
    alloc: Global,
    out: &mut Vec<u8>,
    whose: &[u8],
    what: &str,
    before: i64,
    after: i64,
) -> Result<(), AllocError>
    ensures { OnOk result
        (out.new.items ≡ out.old.items ++ minutes_line whose.now what.now before after) }
{
    if before == after {
        return Ok(());
    }
    let from = time(alloc, before.unsigned_abs())?;
    let to = time(alloc, after.unsigned_abs())?;
    push_change(out, whose, what.as_bytes(), from.as_bytes(), to.as_bytes())
}

/// Appends a line for an amount of cost units if it differs.
fn push_cost(
    alloc: Global,
    out: &mut Vec<u8>,
    whose: &[u8],
    before: i64,
    after: i64,
) -> Result<(), AllocError>
    ensures { OnOk result (out.new.items ≡ out.old.items ++ cost_line whose.now before after) }
{
    if before == after {
        return Ok(());
    }
    let from = before.to_string(alloc)?;
    let to = after.to_string(alloc)?;
    push_change(out, whose, b"COST", from.as_bytes(), to.as_bytes())
}

/// Appends a line for each amount that differs.
fn push_sums(
    alloc: Global,
    out: &mut Vec<u8>,
    whose: &[u8],
    before: &Sums,
    after: &Sums,
) -> Result<(), AllocError>
    ensures { OnOk result
        (out.new.items ≡ with_sums out.old.items whose.now before.now after.now) }
{
    push_cost(alloc, out, whose, before.cost, after.cost)?;
    push_minutes(alloc, out, whose, "FLIGHT", before.flight, after.flight)?;
    push_minutes(alloc, out, whose, "DUTY7", before.duty7, after.duty7)?;
    push_minutes(alloc, out, whose, "DUTY14", before.duty14, after.duty14)?;
    push_minutes(alloc, out, whose, "DUTY28", before.duty28, after.duty28)?;
    push_minutes(
        alloc,
        out,
        whose,
        "FLIGHT28",
        before.flight28,
        after.flight28,
    )?;
    Ok(())
}

/// Appends the lines of person `k`.
fn push_person(
    alloc: Global,
    out: &mut Vec<u8>,
    problem: &Problem,
    before: &[u16],
    after: &[u16],
    k: usize,
) -> Result<(), AllocError>
    requires before { length before.now ≡ length problem.now.pairings }
    requires after { length after.now ≡ length problem.now.pairings }
    requires person { k < length problem.now.persons }
    ensures { OnOk result (HasPerson problem.now before.now after.now k out.old.items out.new.items) }
{
    let old = sums_of(alloc, problem, before, k)?;
    let new = sums_of(alloc, problem, after, k)?;
    let name = problem.person(k).id.as_bytes();
    push_sums(alloc, out, name, &old, &new)?;
    Ok(())
}

/// Appends the lines of all persons.
fn push_persons(
    alloc: Global,
    out: &mut Vec<u8>,
    problem: &Problem,
    before: &[u16],
    after: &[u16],
) -> Result<(), AllocError>
    requires before { length before.now ≡ length problem.now.pairings }
    requires after { length after.now ≡ length problem.now.pairings }
    ensures { OnOk result (HavePersons problem.now before.now after.now
        (length problem.now.persons) out.old.items out.new.items) }
{
    for k in 0..problem.persons().len() {
        push_person(alloc, out, problem, before, after, k)?;
    }
    Ok(())
}

/// Appends what both rosters cost.
fn push_costs(
    alloc: Global,
    out: &mut Vec<u8>,
    problem: &Problem,
    before: &[u16],
    after: &[u16],
) -> Result<(), AllocError>
    requires before { length before.now ≡ length problem.now.pairings }
    requires after { length after.now ≡ length problem.now.pairings }
    ensures { OnOk result
        (out.new.items ≡ out.old.items ++ costs_line problem.now before.now after.now) }
{
    let from = roster_cost(problem, before).to_string(alloc)?;
    let to = roster_cost(problem, after).to_string(alloc)?;
    push_change(out, b"ROSTER", b"COST", from.as_bytes(), to.as_bytes())
}

/// What differs between two rosters: a line for each pairing that another person has, a line for each
/// number of a person that differs, what both rosters cost, and how many pairings and persons these are. The
/// places are the rosters, which needn't be legal.
pub fn differences_text(
    alloc: Global,
    problem: &Problem,
    before: &[u16],
    after: &[u16],
) -> Result<Vec<u8>, AllocError>
    requires before { length before.now ≡ length problem.now.pairings }
    requires after { length after.now ≡ length problem.now.pairings }
    ensures { IfOk result (λ text. IsDifference problem.now before.now after.now text.items) }
{
    let mut out = Vec::new(alloc);
    push_moves(&mut out, problem, before, after)?;
    push_persons(alloc, &mut out, problem, before, after)?;
    push_costs(alloc, &mut out, problem, before, after)?;
    push_counts(alloc, &mut out, problem, before, after)?;
    Ok(out)
}
