//! The roster that a report of another book gives, as far as the book has its persons and pairings.

ghost use Rattle.std.specs.Prelude.{◌≡◌, ◌<◌, ◌≤◌, ℕ, [], All, IfErr, IfOk, None, Some, is_some, length, map};
ghost use Rattle.std.specs.Prelude.{filter, slice_get};
ghost use Rattle.std.specs.Option.{option_or};
ghost use Rattle.roster_model.specs.Record.{place_named};
ghost use Rattle.roster_desk_reports.specs.Faults.{IsTold};
ghost use Rattle.roster_desk_reports.specs.Given.{HasAll, IsGiven};
ghost use Rattle.roster_desk_reports.specs.Known.{fault_of_known, is_there, known_by_text, known_names};
ghost use Rattle.roster_desk_reports.specs.Known.{known_numbered};
ghost use Rattle.roster_desk_reports.specs.Text.{numbered_by_line};

use crate::fault::ReportFault;
use crate::named::{pairing_named, person_named};
use crate::placing::places_of;
use crate::report::{CrewLine, Report, read_report};
use roster_problem::Problem;
use roster_values::{Name, Places};
use std::alloc::{AllocError, Global};

/// The names of pairings that the book has.
fn known(alloc: Global, problem: &Problem, names: Vec<Name>) -> Result<Vec<Name>, AllocError>
    ensures { IfOk result (λ known. known.items ≡ known_names problem.now names.items) }
{
    let mut known = Vec::new(alloc);
    for name in names {
        if pairing_named(problem, name.as_bytes()).is_some() {
            known.push(name)?;
        }
    }
    Ok(known)
}

/// The line with those of its pairings that the book has.
fn known_line(alloc: Global, problem: &Problem, crew: CrewLine) -> Result<CrewLine, AllocError>
    ensures { IfOk result (λ line. numbered_by_line line
        ≡ known_numbered problem.now (numbered_by_line crew)) }
{
    let pairings = known(alloc, problem, crew.pairings)?;
    Ok(CrewLine {
        line: crew.line,
        person: crew.person,
        pairings,
    })
}

/// The lines of the book's persons, with those of their pairings that the book has.
fn known_crew(
    alloc: Global,
    problem: &Problem,
    lines: Vec<CrewLine>,
) -> Result<Vec<CrewLine>, AllocError>
    ensures { IfOk result (λ known. map numbered_by_line known.items
        ≡ map (λ crew. known_numbered problem.now (numbered_by_line crew))
        (filter (λ crew. is_there problem.now crew.person) lines.items)) }
{
    let mut known = Vec::new(alloc);
    for crew in lines {
        if person_named(problem, crew.person.as_bytes()).is_some() {
            known.push(known_line(alloc, problem, crew)?)?;
        }
    }
    Ok(known)
}

/// The roster that the text of a report gives of a book, as `read_roster` tells it, but that persons and
/// pairings which the book doesn't have are passed over: the report may be one of the book as it was.
/// `unknown_text` tells them.
pub fn read_known_roster(
    alloc: Global,
    problem: &Problem,
    text: &[u8],
) -> Result<Places, ReportFault>
    ensures covers { IfOk result (λ places. length places ≡ length problem.now.pairings) }
    ensures numbers { IfOk result
        (λ places. All (λ x. x ≤ length problem.now.persons) places) }
    // Each of the book's pairings that a `CREW` line of one of its persons gives is theirs.
    ensures has { IfOk result
        (λ places. HasAll problem.now places (known_by_text problem.now text.now)) }
    // Who has a pairing has it by a `CREW` line.
    ensures given { IfOk result (λ places. (p k : ℕ) → k < length problem.now.persons
        → slice_get places p ≡ Some k
        → IsGiven problem.now (known_by_text problem.now text.now) p k) }
    // It is refused exactly for what is wrong, memory aside.
    ensures sound { IfOk result (λ _. fault_of_known problem.now text.now ≡ None) }
    ensures fault { IfErr result (IsTold (fault_of_known problem.now text.now)) }
{
    match read_report(alloc, text) {
        Ok(report) => {
            let crew = known_crew(alloc, problem, report.crew)?;
            let report = Report {
                period: report.period,
                first: report.first,
                crew,
            };
            places_of(alloc, problem, &report)
        }
        Err(fault) => Err(fault),
    }
}
