//! The text that tells what is asked of a roster.

ghost use Rattle.std.specs.Prelude.{◌≡◌, [], IfErr, IfOk, is_some, length, None, Some, true};
ghost use Rattle.roster_desk_reports.specs.Known.{fault_of_known};
ghost use Rattle.roster_desk_answers.specs.Refusing.{MayTell, RefusesReport};
ghost use Rattle.roster_desk_answers.specs.Told.{ChangesBy, DiffersBy, HasPairing, HasPerson};
ghost use Rattle.roster_desk_answers.specs.Told.{IsPersonsPage, IsRosterOf};
ghost use Rattle.roster_desk_answers.specs.Told.{IsTold, IsUntold, MisreadsNames, MissesName, Tells, TellsLimits};
ghost use Rattle.roster_desk_answers.specs.Told.{Withholds, fault_in};

use crate::telling::{Inputs, is_difference};
use crate::untold::{Untold, refused};
use roster_book::Book;
use roster_desk_arguments::{Question, TableLine};
use roster_desk_chart::{Words, chart_text};
use roster_desk_given::{Asked, Zones, find, read_zones};
use roster_desk_reports::{ReportFault, read_known_roster, read_roster};
use roster_desk_sheets::{Look, Mistakes, Names, Table, read_names};
use roster_desk_tables::{Sheet, changed_text, differences_text, persons_table, roster_table};
use roster_desk_words::{Teller, limits_text};
use roster_problem::Problem;
use roster_values::Places;
use std::alloc::{AllocError, Global};

/// The roster that the report gives of the book. A difference may be one of reports of the book as it was,
/// so it passes over persons and pairings that the book doesn't have.
fn places_in(
    alloc: Global,
    over: bool,
    problem: &Problem,
    report: &[u8],
) -> Result<Places, ReportFault>
    ensures roster { IfOk result (IsRosterOf over problem.now report.now) }
    ensures fault { IfErr result (MayTell (λ told. fault_in over problem.now report.now ≡ Some told)) }
{
    if over {
        read_known_roster(alloc, problem, report)
    } else {
        read_roster(alloc, problem, report)
    }
}

/// So it is with the report at the path.
fn given<'a>(
    alloc: Global,
    over: bool,
    problem: &Problem,
    path: &'a str,
    report: &[u8],
) -> Result<Places, Untold<'a>>
    ensures roster { IfOk result (IsRosterOf over problem.now report.now) }
    ensures refused { IfErr result
        (RefusesReport path.now (λ told. fault_in over problem.now report.now ≡ Some told)) }
{
    match places_in(alloc, over, problem, report) {
        Ok(places) => Ok(places),
        Err(fault) => Err(refused(path, fault)),
    }
}

/// The text that tells what is asked of a book in which no record has a fault: of the roster that the
/// report gives if one was read, and else of the book's own.
pub(crate) fn text<'a>(
    alloc: Global,
    question: Question<'a>,
    inputs: &Inputs<'a>,
    book: &Book,
) -> Result<Vec<u8>, Untold<'a>>
    requires { length book.now.assigned ≡ length book.now.problem.pairings }
    ensures told { IfOk result (λ text.
        IsTold question.entry inputs.now book.now.problem book.now.assigned text.items) }
    ensures untold { IfErr result (IsUntold question.entry inputs.now book.now.problem) }
{
    let problem = &book.problem;
    match &inputs.report {
        Some(report) => {
            let over = is_difference(question);
            let places = given(alloc, over, problem, report.path, &report.bytes)?;
            told(alloc, question, inputs, problem, places.as_slice())
        }
        None => told(alloc, question, inputs, problem, book.assigned.as_slice()),
    }
}

/// The text that tells what is asked of the roster.
fn told<'a>(
    alloc: Global,
    question: Question<'a>,
    inputs: &Inputs<'a>,
    problem: &Problem,
    places: &[u16],
) -> Result<Vec<u8>, Untold<'a>>
    requires { length places.now ≡ length problem.now.pairings }
    ensures tells { IfOk result
        (λ text. Tells problem.now places.now inputs.now question.entry text.items) }
    ensures untold { IfErr result (Withholds problem.now inputs.now question.entry) }
{
    match question {
        Question::Why {
            pairing,
            person,
            all,
        } => why_of(alloc, inputs, problem, places, pairing, person, all),
        Question::Limits { person } => limits_of(alloc, problem, places, person),
        Question::Table(line) => table_of(alloc, line, inputs, problem, places),
        Question::Chart { .. } => chart_of(alloc, inputs, problem, places),
        Question::Differences { other } => differences(alloc, inputs, problem, places, other),
        Question::Changed { other } => changed(alloc, inputs, problem, places, other),
    }
}

/// The text that tells why pairings are open, of the pairing and the person that are named.
fn why_of<'a>(
    alloc: Global,
    inputs: &Inputs<'a>,
    problem: &Problem,
    places: &[u16],
    pairing: Option<&str>,
    person: Option<&str>,
    all: bool,
) -> Result<Vec<u8>, Untold<'a>>
    requires { length places.now ≡ length problem.now.pairings }
    ensures pairing { IfOk result (λ _. HasPairing problem.now pairing.entry) }
    ensures person { IfOk result (λ _. HasPerson problem.now person.entry) }
    ensures untold { IfErr result (MissesName problem.now pairing.entry person.entry) }
{
    let found = find(problem, pairing, person)?;
    let zones = read_zones(alloc, inputs.book.as_slice())?;
    Ok(why(alloc, problem, places, &zones, found, all)?)
}

/// The text that tells why pairings are open: each line of what is asked for if all are wanted or a person is
/// named, and else who is nearest.
fn why(
    alloc: Global,
    problem: &Problem,
    places: &[u16],
    zones: &Zones,
    asked: Asked,
    all: bool,
) -> Result<Vec<u8>, AllocError>
    requires { length places.now ≡ length problem.now.pairings }
{
    let teller = Teller::new(alloc, problem, zones, places);
    if all || asked.person.is_some() {
        return teller.why_text(asked);
    }
    match asked.pairing {
        Some(p) if p < places.len() => teller.pairing_text(p),
        _ => teller.open_text(),
    }
}

/// The text that tells how near to each limit persons are, or the one that is named.
fn limits_of<'a>(
    alloc: Global,
    problem: &Problem,
    places: &[u16],
    person: Option<&str>,
) -> Result<Vec<u8>, Untold<'a>>
    requires { length places.now ≡ length problem.now.pairings }
    ensures limits { IfOk result (λ text.
        TellsLimits problem.now places.now person.entry text.items) }
    ensures untold { IfErr result (MissesName problem.now None person.entry) }
{
    let found = find(problem, None, person)?;
    Ok(limits_text(alloc, problem, places, found.person)?)
}

/// What persons are called by the table among the inputs; nobody has a name if there is none.
fn names_of<'a>(alloc: Global, inputs: &Inputs<'a>) -> Result<Names, Untold<'a>>
    ensures none { inputs.now.names ≡ None → IfOk result (λ names. names.called.items ≡ []) }
    ensures untold { IfErr result (MisreadsNames (is_some inputs.now.names)) }
{
    let Some(file) = &inputs.names else {
        return Ok(Names::none(alloc));
    };
    let mut mistakes = Mistakes::none(alloc);
    let names = read_names(alloc, file.bytes.as_slice(), &mut mistakes)?;
    if mistakes.is_empty() {
        return Ok(names);
    }
    Err(Untold::Names(mistakes.text_with(alloc, "", Table::Names, file.path)?))
}

/// The rows of the roster, as the line wants them.
fn table_of<'a>(
    alloc: Global,
    line: TableLine<'a>,
    inputs: &Inputs<'a>,
    problem: &Problem,
    places: &[u16],
) -> Result<Vec<u8>, Untold<'a>>
    requires { length places.now ≡ length problem.now.pairings }
    ensures table { IfOk result (λ text. line.entry.persons ≡ true
        → IsPersonsPage problem.now places.now line.entry (is_some inputs.now.names) text.items) }
    ensures untold { IfErr result (MisreadsNames (is_some inputs.now.names)) }
{
    let names = names_of(alloc, inputs)?;
    let sheet = Sheet {
        look: Look {
            semicolon: line.semicolon,
            mark: line.bom,
        },
        names: if inputs.names.is_some() {
            Some(&names)
        } else {
            None
        },
    };
    if line.persons {
        return Ok(persons_table(alloc, problem, places, sheet)?);
    }
    let zones = read_zones(alloc, inputs.book.as_slice())?;
    Ok(roster_table(alloc, problem, places, &zones, sheet)?)
}

/// The page of the roster.
fn chart_of<'a>(
    alloc: Global,
    inputs: &Inputs<'a>,
    problem: &Problem,
    places: &[u16],
) -> Result<Vec<u8>, Untold<'a>>
    requires { length places.now ≡ length problem.now.pairings }
    ensures { IfErr result (MisreadsNames (is_some inputs.now.names)) }
{
    let zones = read_zones(alloc, inputs.book.as_slice())?;
    let names = names_of(alloc, inputs)?;
    let words = Words {
        zones: &zones,
        names: &names,
    };
    Ok(chart_text(alloc, problem, places, words)?)
}

/// The text that tells what differs between the roster and that of the other report, which is at the path.
fn differences<'a>(
    alloc: Global,
    inputs: &Inputs<'a>,
    problem: &Problem,
    places: &[u16],
    other: &'a str,
) -> Result<Vec<u8>, Untold<'a>>
    requires { length places.now ≡ length problem.now.pairings }
    ensures differ { IfOk result (λ text.
        DiffersBy problem.now places.now inputs.now.other.items text.items) }
    ensures refused { IfErr result (RefusesReport other.now
        (λ told. fault_of_known problem.now inputs.now.other.items ≡ Some told)) }
{
    let after = given(alloc, true, problem, other, &inputs.other)?;
    Ok(differences_text(alloc, problem, places, after.as_slice())?)
}

/// The text that tells whose month differs between them.
fn changed<'a>(
    alloc: Global,
    inputs: &Inputs<'a>,
    problem: &Problem,
    places: &[u16],
    other: &'a str,
) -> Result<Vec<u8>, Untold<'a>>
    requires { length places.now ≡ length problem.now.pairings }
    ensures change { IfOk result (λ text.
        ChangesBy problem.now places.now inputs.now.other.items text.items) }
    ensures refused { IfErr result (RefusesReport other.now
        (λ told. fault_of_known problem.now inputs.now.other.items ≡ Some told)) }
{
    let after = given(alloc, true, problem, other, &inputs.other)?;
    Ok(changed_text(alloc, problem, places, after.as_slice())?)
}
