//! The `assign` records that make a report's roster.

ghost use Rattle.std.specs.Prelude.{◌≡◌, ◌++◌, ◌||◌, [], IfErr, IfOk, None, OnOk, map};
ghost use Rattle.std.specs.List.{flat_map, list_any};
ghost use Rattle.std.specs.Str.{bytes_eq};
ghost use Rattle.roster_desk_reports.specs.Faults.{IsTold, IsWrongAt, is_given, records_fault, twice_fault};
ghost use Rattle.roster_desk_reports.specs.Text.{assign_record, assigns_of, given_by_line};

use crate::fault::{ReportFault, Wrong};
use crate::report::{CrewLine, Report};
use roster_values::Name;
use std::alloc::{AllocError, Global};

/// Whether the names are the same.
fn is_same(name: &Name, other: &Name) -> bool
    ensures { result ≡ bytes_eq name.now other.now }
{
    name.as_bytes() == other.as_bytes()
}

/// Whether the names have this one.
fn is_among(names: &[Name], name: &Name) -> bool
    ensures { result ≡ list_any (bytes_eq name.now) names.now }
{
    names.iter().any(|other| is_same(name, other))
}

/// Whether a line before has the name.
fn was_given(before: &[CrewLine], name: &Name) -> bool
    ensures { result ≡ is_given before.now name.now }
{
    before
        .iter()
        .any(|crew| is_among(crew.pairings.as_slice(), name))
}

/// Whether a line or a name before is the same as the name.
fn is_twice(lines: &[CrewLine], before: &[Name], name: &Name) -> bool
    ensures { result ≡ (is_given lines.now name.now || list_any (bytes_eq name.now) before.now) }
{
    was_given(lines, name) || is_among(before, name)
}

/// Appends the records of a line.
fn push_line(out: &mut Vec<u8>, before: &[CrewLine], crew: &CrewLine) -> Result<(), ReportFault>
    ensures records { OnOk result
        (out.new.items ≡ out.old.items ++ assigns_of (given_by_line crew.now)) }
    ensures sound { OnOk result (twice_fault before.now [] crew.now.pairings.items ≡ None) }
    ensures fault { IfErr result
        (IsWrongAt crew.now.line (twice_fault before.now [] crew.now.pairings.items)) }
{
    let names = crew.pairings.as_slice();
    for i in 0..names.len() {
        let name = &names[i];
        if is_twice(before, &names[..i], name) {
            let (line, wrong) = (crew.line, Wrong::GivenTwice);
            return Err(ReportFault::At { line, wrong });
        }
        push_record(out, name, &crew.person)?;
    }
    Ok(())
}

/// Appends the record that gives the pairing to the person.
fn push_record(out: &mut Vec<u8>, pairing: &Name, person: &Name) -> Result<(), AllocError>
    ensures { OnOk result
        (out.new.items ≡ out.old.items ++ assign_record person.now pairing.now) }
{
    out.extend_from_slice(b"assign,")?;
    out.extend_from_slice(pairing.as_bytes())?;
    out.push(b',')?;
    out.extend_from_slice(person.as_bytes())?;
    out.push(b'\n')?;
    Ok(())
}

/// A line `assign,PAIRING,PERSON` for each pairing of each person, in the order of the report, or what is
/// wrong with the first line that gives a pairing a second time.
pub fn assigns_text(alloc: Global, report: &Report) -> Result<Vec<u8>, ReportFault>
    ensures records { IfOk result (λ out. out.items
        ≡ flat_map assigns_of (map given_by_line report.now.crew.items)) }
    // It is refused exactly for a pairing that is given a second time, memory aside.
    ensures sound { IfOk result (λ _. records_fault [] report.now.crew.items ≡ None) }
    ensures fault { IfErr result (IsTold (records_fault [] report.now.crew.items)) }
{
    let mut out = Vec::new(alloc);
    let lines = report.crew.as_slice();
    for i in 0..lines.len() {
        if let Err(fault) = push_line(&mut out, &lines[..i], &lines[i]) {
            return Err(fault);
        }
    }
    Ok(out)
}
