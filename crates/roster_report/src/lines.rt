//! The lines of a report.

ghost use Rattle.std.specs.Prelude.{◌≡◌, ◌≤◌, ◌<◌, ◌∷◌, [], ◌++◌, Some, length, slice_get, string_bytes};
ghost use Rattle.std.specs.Prelude.{codes, map, option_map, IfOk, OnOk};
ghost use Rattle.std.specs.Fmt.{decimal, signed_decimal};
ghost use Rattle.roster_model.specs.Problem.{home_of};
ghost use Rattle.roster_model.specs.Places.{set_of, open_number};
ghost use Rattle.roster_model.specs.Rules.{duty_list};
ghost use Rattle.roster_model.specs.Texts as texts;
ghost use Rattle.roster_model.specs.Texts.{line_of, names_of};
ghost use Rattle.roster_values.specs.View.{rule_of};
ghost use Rattle.roster_report.specs.Words.{further};

use crate::names::push_names;
use crate::said::{push_lock, push_verdict};
use crate::words::{end_line, push_number, push_signed, push_word};
use roster_cumulative::{greatest_duty, greatest_flight, month_flight};
use roster_instants::{BaseDays, Period};
use roster_legal::merge;
use roster_model::limits::MOST_PAIRINGS;
use roster_model::profile::{LONG_RUN, MIDDLE_RUN, SHORT_RUN};
use roster_problem::{DutyList, Person, Problem};
use roster_values::{Rule, Set};
use std::alloc::{AllocError, Global};

/// The month as `YYYY-MM`.
fn period_text(alloc: Global, period: Period) -> Result<String, AllocError>
    ensures { IfOk result (λ text. string_bytes text ≡ texts.period_text period) }
{
    let year = period.year();
    let month = period.month() as u8;
    let (tens, ones) = (month / 10, month % 10);
    format!(in alloc; "{year}-{tens}{ones}")
}

/// Appends the line of the month, behind the word that tells what follows.
pub(crate) fn push_heading(
    alloc: Global,
    out: &mut Vec<u8>,
    word: &[u8],
    period: Period,
) -> Result<(), AllocError>
    ensures { OnOk result (out.new.items
        ≡ out.old.items ++ line_of (word.now ∷ texts.period_text period ∷ [])) }
{
    let month = period_text(alloc, period)?;
    out.extend_from_slice(word)?;
    push_word(out, month.as_bytes())?;
    end_line(out)
}

/// Appends a line of one amount, in cost units, behind the word that tells what it is.
pub(crate) fn push_amount(
    alloc: Global,
    out: &mut Vec<u8>,
    word: &[u8],
    amount: i64,
) -> Result<(), AllocError>
    ensures { OnOk result (out.new.items
        ≡ out.old.items ++ line_of (word.now ∷ signed_decimal amount ∷ [])) }
{
    out.extend_from_slice(word)?;
    push_signed(alloc, out, amount)?;
    end_line(out)
}

/// How many numbers a person's line has.
const NUMBERS: usize = 5;

/// The numbers of the line of a person with these duties and days, in minutes.
fn numbers_of(list: &DutyList, days: &BaseDays) -> [u64; NUMBERS]
    ensures { result ≡ texts.numbers_of days.now list.now }
{
    [
        month_flight(days, list) as u64,
        greatest_duty(days, list, SHORT_RUN) as u64,
        greatest_duty(days, list, MIDDLE_RUN) as u64,
        greatest_duty(days, list, LONG_RUN) as u64,
        greatest_flight(days, list, LONG_RUN) as u64,
    ]
}

/// The numbers of the line of person `k`.
fn numbers_of_person(
    alloc: Global,
    problem: &Problem,
    places: &[u16],
    k: usize,
) -> Result<[u64; NUMBERS], AllocError>
    requires person { k < length problem.now.persons }
    requires covers { length places.now ≡ length problem.now.pairings }
    requires limit { length places.now ≤ MOST_PAIRINGS }
    ensures { let list = duty_list problem.now k (set_of k places.now) in
        IfOk result (λ numbers. numbers ≡ texts.numbers_of (home_of problem.now k).days list) }
{
    let set = Set::of_places(places, k);
    let list = merge(alloc, problem, k, &set)?;
    Ok(numbers_of(&list, problem.days_of(k)))
}

/// Appends numbers, each behind a word.
fn push_numbers(alloc: Global, out: &mut Vec<u8>, numbers: &[u64]) -> Result<(), AllocError>
    ensures { OnOk result
        (out.new.items ≡ out.old.items ++ further (map decimal numbers.now)) }
{
    for number in numbers {
        push_number(alloc, out, *number)?;
    }
    Ok(())
}

/// Appends the line of person `k`.
fn push_crew(
    alloc: Global,
    out: &mut Vec<u8>,
    problem: &Problem,
    places: &[u16],
    k: usize,
    person: &Person,
) -> Result<(), AllocError>
    requires covers { length places.now ≡ length problem.now.pairings }
    requires limit { length places.now ≤ MOST_PAIRINGS }
    requires person { slice_get problem.now.persons k ≡ Some person.now }
    ensures { OnOk result (out.new.items
        ≡ out.old.items ++ texts.crew_line problem.now (set_of k places.now) k person.now) }
{
    let numbers = numbers_of_person(alloc, problem, places, k)?;
    out.extend_from_slice(b"CREW")?;
    push_word(out, person.id.as_bytes())?;
    push_numbers(alloc, out, &numbers)?;
    push_names(out, problem, places, k)?;
    end_line(out)
}

/// Appends the lines of all persons, in book order, each with what locks them.
#[tactic(auto, unfolding(roster_model::specs::Texts::crew_lines))]
fn push_crews(
    alloc: Global,
    out: &mut Vec<u8>,
    problem: &Problem,
    locks: &[Option<Rule>],
    places: &[u16],
) -> Result<(), AllocError>
    requires covers { length places.now ≡ length problem.now.pairings }
    requires locks { length locks.now ≡ length problem.now.persons }
    ensures { OnOk result (out.new.items ≡ out.old.items
        ++ texts.crew_lines problem.now (map (option_map rule_of) locks.now) places.now) }
{
    for (k, person) in problem.persons().iter().enumerate() {
        push_crew(alloc, out, problem, places, k, person)?;
        push_lock(out, person, locks[k])?;
    }
    Ok(())
}

/// Appends the lines of what all persons break, in book order, each with what locks them.
#[tactic(auto, unfolding(roster_model::specs::Texts::verdict_lines))]
pub(crate) fn push_verdicts(
    out: &mut Vec<u8>,
    problem: &Problem,
    locks: &[Option<Rule>],
    verdicts: &[Option<Rule>],
) -> Result<(), AllocError>
    requires locks { length locks.now ≡ length problem.now.persons }
    requires verdicts { length verdicts.now ≡ length problem.now.persons }
    ensures { OnOk result (out.new.items ≡ out.old.items ++ texts.verdict_lines problem.now
        (map (option_map rule_of) locks.now) (map (option_map rule_of) verdicts.now)) }
{
    for (k, person) in problem.persons().iter().enumerate() {
        push_verdict(out, person, verdicts[k])?;
        push_lock(out, person, locks[k])?;
    }
    Ok(())
}

/// Appends the line of the pairings that are left open.
fn push_open(out: &mut Vec<u8>, problem: &Problem, places: &[u16]) -> Result<(), AllocError>
    requires { length places.now ≡ length problem.now.pairings }
    ensures { let left_open = set_of (open_number problem.now) places.now in
        OnOk result (out.new.items ≡ out.old.items
        ++ line_of (codes "OPEN" ∷ names_of problem.now left_open)) }
{
    out.extend_from_slice(b"OPEN")?;
    push_names(out, problem, places, problem.persons().len())?;
    end_line(out)
}

/// Appends who flies what: the lines of all persons, each with what locks them, and the line of the
/// pairings that are left open.
pub(crate) fn push_roster(
    alloc: Global,
    out: &mut Vec<u8>,
    problem: &Problem,
    locks: &[Option<Rule>],
    places: &[u16],
) -> Result<(), AllocError>
    requires covers { length places.now ≡ length problem.now.pairings }
    requires locks { length locks.now ≡ length problem.now.persons }
    ensures { OnOk result (out.new.items ≡ out.old.items
        ++ texts.roster_lines problem.now (map (option_map rule_of) locks.now) places.now) }
{
    push_crews(alloc, out, problem, locks, places)?;
    push_open(out, problem, places)
}
