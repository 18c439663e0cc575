//! What a report has and the book doesn't.

ghost use Rattle.std.specs.Prelude.{◌≡◌, ◌++◌, IfErr, IfOk, map, OnOk};
ghost use Rattle.std.specs.List.{flat_map, list_all};
ghost use Rattle.roster_desk_reports.specs.Faults.{IsTold, fault_of_text};
ghost use Rattle.roster_desk_reports.specs.Known.{is_known, unknown_line, unknown_name, unknown_of};
ghost use Rattle.roster_desk_reports.specs.Text.{given_by_line, given_by_text};

use crate::fault::ReportFault;
use crate::named::{pairing_named, person_named};
use crate::report::{CrewLine, Report, read_report};
use roster_problem::Problem;
use roster_values::Name;
use std::alloc::{AllocError, Global};

/// Whether the book has all pairings of the names.
fn has_all(problem: &Problem, names: &[Name]) -> bool
    ensures { result ≡ list_all (is_known problem.now) names.now }
{
    names
        .iter()
        .all(|name| pairing_named(problem, name.as_bytes()).is_some())
}

/// Appends the name of a pairing and a blank, if the book doesn't have it.
fn push_name(out: &mut Vec<u8>, problem: &Problem, pairing: &Name) -> Result<(), AllocError>
    ensures { OnOk result (out.new.items ≡ out.old.items ++ unknown_name problem.now pairing.now) }
{
    if pairing_named(problem, pairing.as_bytes()).is_some() {
        return Ok(());
    }
    out.extend_from_slice(pairing.as_bytes())?;
    out.push(b' ')?;
    Ok(())
}

/// Appends those of the names that the book doesn't have.
fn push_names(out: &mut Vec<u8>, problem: &Problem, names: &[Name]) -> Result<(), AllocError>
    ensures { OnOk result
        (out.new.items ≡ out.old.items ++ flat_map (unknown_name problem.now) names.now) }
{
    for i in 0..names.len() {
        push_name(out, problem, &names[i])?;
    }
    Ok(())
}

/// Appends a line of the pairings of the `CREW` line that the book doesn't have, if there are some.
fn push_line(out: &mut Vec<u8>, problem: &Problem, crew: &CrewLine) -> Result<(), AllocError>
    ensures { OnOk result (out.new.items
        ≡ out.old.items ++ unknown_line problem.now (given_by_line crew.now)) }
{
    if has_all(problem, crew.pairings.as_slice()) {
        return Ok(());
    }
    out.extend_from_slice(b"not in the book: ")?;
    push_names(out, problem, crew.pairings.as_slice())?;
    out.extend_from_slice(b"of ")?;
    out.extend_from_slice(crew.person.as_bytes())?;
    out.push(b'\n')?;
    Ok(())
}

/// Appends what the book doesn't have of a `CREW` line: the person, or else pairings.
fn push_crew(out: &mut Vec<u8>, problem: &Problem, crew: &CrewLine) -> Result<(), AllocError>
    ensures { OnOk result
        (out.new.items ≡ out.old.items ++ unknown_of problem.now (given_by_line crew.now)) }
{
    if person_named(problem, crew.person.as_bytes()).is_some() {
        return push_line(out, problem, crew);
    }
    out.extend_from_slice(b"not in the book: person ")?;
    out.extend_from_slice(crew.person.as_bytes())?;
    out.push(b'\n')?;
    Ok(())
}

/// What the book doesn't have of the report.
fn unknown_in(alloc: Global, problem: &Problem, report: &Report) -> Result<Vec<u8>, AllocError>
    ensures { IfOk result (λ out. out.items
        ≡ flat_map (unknown_of problem.now) (map given_by_line report.now.crew.items)) }
{
    let mut out = Vec::new(alloc);
    for i in 0..report.crew.len() {
        push_crew(&mut out, problem, &report.crew[i])?;
    }
    Ok(out)
}

/// A line for each person of the report whom the book doesn't have, and for each other one who has pairings by it
/// that the book doesn't have, in the order of the report.
pub fn unknown_text(alloc: Global, problem: &Problem, text: &[u8]) -> Result<Vec<u8>, ReportFault>
    ensures text { IfOk result (λ out. out.items ≡ flat_map (unknown_of problem.now) (given_by_text text.now)) }
    // It is refused as `read_report` refuses it.
    ensures fault { IfErr result (IsTold (fault_of_text text.now)) }
{
    let report = read_report(alloc, text)?;
    Ok(unknown_in(alloc, problem, &report)?)
}
