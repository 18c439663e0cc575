//! Whose month differs between two rosters, and on which days.

ghost use Rattle.std.specs.Prelude.{◌≡◌, ◌<◌, ◌^◌, IfOk, OnOk, length, string_bytes};
ghost use Rattle.std.specs.List.{count_by, list_any, range_with_len};
ghost use Rattle.roster_desk_tables.specs.Changed as spec;
ghost use Rattle.roster_desk_tables.specs.Changed.{days_of, HasDate, HasLine, HaveDates, IsChange};
ghost use Rattle.roster_desk_tables.specs.Changed.{IsDate, MayHaveDate, MayHaveLine};

use crate::differences::is_moved_at;
use jiff_core::civil::Date;
use roster_desk_words::{date, push_all};
use roster_instants::{Minute, Period};
use roster_model::limits::DAYS_BEFORE;
use roster_problem::{Duty, Holder, Problem};
use std::alloc::{AllocError, Global};

/// Whether the duty is of a pairing that person `k` has by one of the rosters only.
fn is_of_moved(before: &[u16], after: &[u16], k: usize, duty: &Duty) -> bool
    requires { length before.now ≡ length after.now }
    ensures { result ≡ spec.is_of_moved before.now after.now k duty.now.holder }
{
    match duty.holder {
        Holder::Pairing(p) => p < before.len() && is_moved_at(before, after, k, p),
        Holder::Person(_) => false,
    }
}

/// Whether such a duty shares a minute with the day from one instant to the other.
fn is_touched_in(
    problem: &Problem,
    before: &[u16],
    after: &[u16],
    k: usize,
    from: Minute,
    to: Minute,
) -> bool
    requires { length before.now ≡ length after.now }
    ensures { result ≡ list_any (spec.touches before.now after.now k from to) problem.now.duties }
{
    problem.duties().iter().any(|duty| {
        is_of_moved(before, after, k, duty) && duty.report < to && from < duty.release
    })
}

/// Whether such a duty touches day `i` of the window, by the clocks of person `k`.
fn is_touched(problem: &Problem, before: &[u16], after: &[u16], k: usize, i: usize) -> bool
    requires same { length before.now ≡ length after.now }
    requires person { k < length problem.now.persons }
    requires day { i < length (days_of problem.now k).eight }
    ensures { result ≡ spec.is_touched problem.now before.now after.now k i }
{
    let days = problem.days_of(k);
    is_touched_in(problem, before, after, k, days.mid(i), days.mid(i + 1))
}

/// Whether such a duty touches any day of the window.
#[tactic(auto, using(crate::proofs::Steps::none_more))]
fn is_changed(problem: &Problem, before: &[u16], after: &[u16], k: usize) -> bool
    requires same { length before.now ≡ length after.now }
    requires person { k < length problem.now.persons }
    ensures { result ≡ spec.is_changed problem.now before.now after.now k }
{
    for i in 0..problem.days_of(k).days() {
        if is_touched(problem, before, after, k, i) {
            return true;
        }
    }
    false
}

/// The number of day `i` of the window round the month; 1 January 1970 has number 0.
fn number_of_day(period: Period, i: usize) -> i64
    requires { i < 2 ^ 32 }
    ensures { result ≡ spec.number_of_day period i }
{
    let first = Date::constrain(period.year(), period.month() as u8, 1);
    i64::from(first.to_unix_epoch_day()) + i as i64 - DAYS_BEFORE as i64
}

/// The date of day `i` of the window round the month; `-` if the calendar doesn't have the day.
fn day_text(alloc: Global, period: Period, i: usize) -> Result<String, AllocError>
    requires { i < 2 ^ 32 }
    ensures { IfOk result (λ text. IsDate (spec.number_of_day period i) (string_bytes text)) }
{
    match Date::from_unix_epoch_day(number_of_day(period, i)) {
        Ok(found) => date(alloc, found.year, found.month, usize::from(found.day)),
        Err(_) => String::from_str(alloc, "-"),
    }
}

/// Appends the date of day `i`.
fn push_day(alloc: Global, out: &mut Vec<u8>, problem: &Problem, i: usize) -> Result<(), AllocError>
    requires { i < 2 ^ 32 }
    ensures { OnOk result (HasDate problem.now i out.old.items out.new.items) }
{
    let date = day_text(alloc, problem.period(), i)?;
    push_all(out, &[b" ", date.as_bytes()])?;
    Ok(())
}

/// Appends the date of day `i` if it is touched.
fn push_date(
    alloc: Global,
    out: &mut Vec<u8>,
    problem: &Problem,
    i: usize,
    is_touched: bool,
) -> Result<(), AllocError>
    requires { i < 2 ^ 32 }
    ensures { OnOk result (MayHaveDate is_touched problem.now i out.old.items out.new.items) }
{
    if !is_touched {
        return Ok(());
    }
    push_day(alloc, out, problem, i)
}

/// Appends the dates of the days that are touched.
fn push_dates(
    alloc: Global,
    out: &mut Vec<u8>,
    problem: &Problem,
    before: &[u16],
    after: &[u16],
    k: usize,
) -> Result<(), AllocError>
    requires same { length before.now ≡ length after.now }
    requires person { k < length problem.now.persons }
    ensures { OnOk result (HaveDates problem.now before.now after.now k
        (length (days_of problem.now k).eight) out.old.items out.new.items) }
{
    for i in 0..problem.days_of(k).days() {
        let touched = is_touched(problem, before, after, k, i);
        push_date(alloc, out, problem, i, touched)?;
    }
    Ok(())
}

/// Appends the line of person `k`.
fn push_line(
    alloc: Global,
    out: &mut Vec<u8>,
    problem: &Problem,
    before: &[u16],
    after: &[u16],
    k: usize,
) -> Result<(), AllocError>
    requires same { length before.now ≡ length after.now }
    requires person { k < length problem.now.persons }
    ensures { OnOk result (HasLine problem.now before.now after.now k out.old.items out.new.items) }
{
    push_all(out, &[problem.person(k).id.as_bytes(), b" changes on"])?;
    push_dates(alloc, out, problem, before, after, k)?;
    out.extend_from_slice(b"\n")
}

/// Appends the line of person `k` if the person's month differs.
fn push_changed(
    alloc: Global,
    out: &mut Vec<u8>,
    problem: &Problem,
    before: &[u16],
    after: &[u16],
    k: usize,
    is_changed: bool,
) -> Result<(), AllocError>
    requires same { length before.now ≡ length after.now }
    requires person { k < length problem.now.persons }
    ensures { OnOk result (MayHaveLine is_changed problem.now before.now after.now k
        out.old.items out.new.items) }
{
    if !is_changed {
        return Ok(());
    }
    push_line(alloc, out, problem, before, after, k)
}

/// How many persons' months differ.
#[tactic(auto, using(crate::proofs::Steps::count_passed, crate::proofs::Steps::count_failed))]
fn changed_persons(problem: &Problem, before: &[u16], after: &[u16]) -> usize
    requires { length before.now ≡ length after.now }
    ensures { result ≡ count_by (spec.is_changed problem.now before.now after.now)
        (range_with_len 0 (length problem.now.persons)) }
{
    let mut count = 0usize;
    for k in 0..problem.persons().len() {
        if is_changed(problem, before, after, k) {
            count += 1;
        }
    }
    count
}

/// Whose month differs between two rosters: a line for each such person with the dates, by the clocks of the
/// home base, that a duty touches which the person has by one of them only; and how many persons these are.
/// The places are the rosters, which needn't be legal.
pub fn changed_text(
    alloc: Global,
    problem: &Problem,
    before: &[u16],
    after: &[u16],
) -> Result<Vec<u8>, AllocError>
    requires before { length before.now ≡ length problem.now.pairings }
    requires after { length after.now ≡ length problem.now.pairings }
    ensures { IfOk result (λ text. IsChange problem.now before.now after.now text.items) }
{
    let mut out = Vec::new(alloc);
    for k in 0..problem.persons().len() {
        let differs = is_changed(problem, before, after, k);
        push_changed(alloc, &mut out, problem, before, after, k, differs)?;
    }
    let count = changed_persons(problem, before, after).to_string(alloc)?;
    push_all(&mut out, &[count.as_bytes(), b" persons change\n"])?;
    Ok(out)
}
