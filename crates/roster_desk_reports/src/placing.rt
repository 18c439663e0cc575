//! The roster that a report gives of a book.

ghost use Rattle.std.specs.Prelude.{◌≡◌, ◌<◌, ◌≤◌, ◌++◌, ℕ, List, [], All, IfErr, IfOk, None, OnOk, Some};
ghost use Rattle.std.specs.Prelude.{length, map, slice_get};
ghost use Rattle.std.specs.Option.{option_or};
ghost use Rattle.roster_desk_reports.specs.Faults.{IsTold, fault_of_report, given_fault, is_month_of, month_fault};
ghost use Rattle.roster_desk_reports.specs.Faults.{name_fault, names_fault, placing_fault};
ghost use Rattle.roster_desk_reports.specs.Given.{AreTaken, GivesPairing, Grows, HasAll, HasFirst, HasGiven};
ghost use Rattle.roster_desk_reports.specs.Given.{HasNames, HasPairing, IsAmongNames, IsGiven, IsGivenFirst};
ghost use Rattle.roster_desk_reports.specs.Given.{IsPairing};
ghost use Rattle.roster_desk_reports.specs.Text.{given_by_line, given_by_text, numbered_by_line};

use crate::fault::{ReportFault, Wrong};
use crate::named::{pairing_named, person_named};
use crate::report::{CrewLine, Report, read_report};
use roster_instants::Period;
use roster_problem::{Problem, open_number};
use roster_values::{Name, Places};
use std::alloc::{AllocError, Global};

/// Whether the month is the book's.
fn is_month_of(problem: &Problem, month: Period) -> bool
    ensures { result ≡ is_month_of problem.now month }
{
    let own = problem.period();
    month.year() == own.year() && month.month() == own.month()
}

/// Puts the pairing of the name at the number of a person.
fn put_pairing(problem: &Problem, places: &mut [u16], number: u16, name: &Name) -> Result<(), Wrong>
    requires covers { length places.old ≡ length problem.now.pairings }
    requires person { number < length problem.now.persons }
    requires numbers { All (λ x. x ≤ length problem.now.persons) places.old }
    ensures has { OnOk result (HasPairing problem.now places.new number name.now) }
    ensures grows { OnOk result (Grows problem.now
        (λ p k. (k ≡ number) × IsPairing problem.now name.now p) places.old places.new) }
    // What is wrong with the name behind those of the pairings that are given.
    ensures sound { OnOk result ((before : List (List ℕ)) → AreTaken problem.now places.old before
        → name_fault problem.now before name.now ≡ None) }
    ensures fault { IfErr result (λ wrong. (before : List (List ℕ))
        → AreTaken problem.now places.old before
        → name_fault problem.now before name.now ≡ Some wrong) }
{
    let Some(p) = pairing_named(problem, name.as_bytes()) else {
        return Err(Wrong::UnknownPairing);
    };
    if places[p] != open_number(problem) {
        return Err(Wrong::GivenTwice);
    }
    places[p] = number;
    Ok(())
}

/// Puts the pairings of the names at the number of a person.
fn put_names(
    problem: &Problem,
    places: &mut [u16],
    number: u16,
    names: &[Name],
) -> Result<(), Wrong>
    requires covers { length places.old ≡ length problem.now.pairings }
    requires person { number < length problem.now.persons }
    requires numbers { All (λ x. x ≤ length problem.now.persons) places.old }
    ensures has { OnOk result
        (HasNames problem.now places.new number names.now (length names.now)) }
    ensures grows { OnOk result (Grows problem.now (λ p k. (k ≡ number)
        × IsAmongNames problem.now names.now (length names.now) p) places.old places.new) }
    ensures taken { OnOk result ((before : List (List ℕ)) → AreTaken problem.now places.old before
        → (names_fault problem.now before names.now ≡ None)
        × AreTaken problem.now places.new (before ++ names.now)) }
    ensures fault { IfErr result (λ wrong. (before : List (List ℕ))
        → AreTaken problem.now places.old before
        → names_fault problem.now before names.now ≡ Some wrong) }
{
    for i in 0..names.len() {
        if let Err(wrong) = put_pairing(problem, places, number, &names[i]) {
            return Err(wrong);
        }
    }
    Ok(())
}

/// Puts the pairings of a line at the number of its person.
fn put_line(problem: &Problem, places: &mut [u16], crew: &CrewLine) -> Result<(), Wrong>
    requires covers { length places.old ≡ length problem.now.pairings }
    requires numbers { All (λ x. x ≤ length problem.now.persons) places.old }
    ensures has { OnOk result (HasGiven problem.now places.new (given_by_line crew.now)) }
    ensures grows { OnOk result (Grows problem.now
        (GivesPairing problem.now (given_by_line crew.now)) places.old places.new) }
    ensures taken { OnOk result ((before : List (List ℕ)) → AreTaken problem.now places.old before
        → (given_fault problem.now before (given_by_line crew.now) ≡ None)
        × AreTaken problem.now places.new (before ++ (given_by_line crew.now).1)) }
    ensures fault { IfErr result (λ wrong. (before : List (List ℕ))
        → AreTaken problem.now places.old before
        → given_fault problem.now before (given_by_line crew.now) ≡ Some wrong) }
{
    problem.is_sound();
    let Some(k) = person_named(problem, crew.person.as_bytes()) else {
        return Err(Wrong::UnknownPerson);
    };
    put_names(problem, places, k as u16, crew.pairings.as_slice())
}

/// Puts the pairings of the lines at the numbers of their persons.
fn put_lines(problem: &Problem, places: &mut [u16], lines: &[CrewLine]) -> Result<(), ReportFault>
    requires covers { length places.old ≡ length problem.now.pairings }
    requires numbers { All (λ x. x ≤ length problem.now.persons) places.old }
    ensures has { OnOk result
        (HasFirst problem.now places.new (map given_by_line lines.now) (length lines.now)) }
    ensures grows { OnOk result (Grows problem.now (IsGivenFirst problem.now
        (map given_by_line lines.now) (length lines.now)) places.old places.new) }
    ensures sound { OnOk result ((before : List (List ℕ)) → AreTaken problem.now places.old before
        → placing_fault problem.now before (map numbered_by_line lines.now) ≡ None) }
    ensures fault { IfErr result (λ fault. (before : List (List ℕ))
        → AreTaken problem.now places.old before
        → IsTold (placing_fault problem.now before (map numbered_by_line lines.now)) fault) }
{
    for i in 0..lines.len() {
        let crew = &lines[i];
        if let Err(wrong) = put_line(problem, places, crew) {
            let line = crew.line;
            return Err(ReportFault::At { line, wrong });
        }
    }
    Ok(())
}

/// A roster in which each pairing is open.
fn open_places(alloc: Global, problem: &Problem) -> Result<Vec<u16>, AllocError>
    ensures covers { IfOk result
        (λ places. length places.items ≡ length problem.now.pairings) }
    ensures numbers { IfOk result
        (λ places. All (λ x. x ≤ length problem.now.persons) places.items) }
    ensures nobody { IfOk result (λ places. All (λ x. x ≡ length problem.now.persons)
        places.items) }
{
    vec![in alloc; open_number(problem); problem.pairings().len()]
}

/// The roster that a report gives of a book: for each pairing in book order the number of its person, or
/// the number of persons if the report gives it to nobody.
pub(crate) fn places_of(
    alloc: Global,
    problem: &Problem,
    report: &Report,
) -> Result<Places, ReportFault>
    ensures covers { IfOk result (λ places. length places ≡ length problem.now.pairings) }
    ensures numbers { IfOk result
        (λ places. All (λ x. x ≤ length problem.now.persons) places) }
    // Each person of a line is in the book, and so is each of the line's pairings, which is theirs.
    ensures has { IfOk result (λ places. HasAll problem.now places
        (map given_by_line report.now.crew.items)) }
    // Who has a pairing has it by a line.
    ensures given { IfOk result (λ places. (p k : ℕ) → k < length problem.now.persons
        → slice_get places p ≡ Some k
        → IsGiven problem.now (map given_by_line report.now.crew.items) p k) }
    ensures sound { IfOk result (λ _. option_or
        (month_fault problem.now (Some (report.now.period, report.now.first)))
        (placing_fault problem.now [] (map numbered_by_line report.now.crew.items)) ≡ None) }
    ensures fault { IfErr result (IsTold (option_or
        (month_fault problem.now (Some (report.now.period, report.now.first)))
        (placing_fault problem.now [] (map numbered_by_line report.now.crew.items)))) }
{
    if !is_month_of(problem, report.period) {
        let (line, wrong) = (report.first, Wrong::OtherMonth);
        return Err(ReportFault::At { line, wrong });
    }
    let mut places = open_places(alloc, problem)?;
    if let Err(fault) = put_lines(problem, &mut places, report.crew.as_slice()) {
        return Err(fault);
    }
    Ok(Places::new(places))
}

/// The roster that the text of a report gives of a book, in the same form, or what is wrong with the first
/// line that has something wrong: of those that can't be of any report before those that aren't of the book.
pub fn read_roster(alloc: Global, problem: &Problem, text: &[u8]) -> Result<Places, ReportFault>
    ensures covers { IfOk result (λ places. length places ≡ length problem.now.pairings) }
    ensures numbers { IfOk result
        (λ places. All (λ x. x ≤ length problem.now.persons) places) }
    // Each person of a `CREW` line is in the book, and so is each of its pairings, which is theirs.
    ensures has { IfOk result
        (λ places. HasAll problem.now places (given_by_text text.now)) }
    // Who has a pairing has it by a `CREW` line.
    ensures given { IfOk result (λ places. (p k : ℕ) → k < length problem.now.persons
        → slice_get places p ≡ Some k → IsGiven problem.now (given_by_text text.now) p k) }
    // It is refused exactly for what is wrong, memory aside.
    ensures sound { IfOk result (λ _. fault_of_report problem.now text.now ≡ None) }
    ensures fault { IfErr result (IsTold (fault_of_report problem.now text.now)) }
{
    match read_report(alloc, text) {
        Ok(report) => places_of(alloc, problem, &report),
        Err(fault) => Err(fault),
    }
}
