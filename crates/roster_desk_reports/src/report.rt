//! What a report says, and how it is read.

ghost use Rattle.std.specs.Prelude.{◌≡◌, ◌<◌, ◌+◌, ◌++◌, ◌∷◌, ◌||◌, [], IfErr, IfOk, OnOk, IsTrue, Option};
ghost use Rattle.std.specs.Prelude.{None, Some, true, false, drop, is_some, length, map, not, option_map};
ghost use Rattle.std.specs.List.{list_all};
ghost use Rattle.std.specs.Option.{option_or};
ghost use Rattle.roster_model.specs.Form.{is_identifier};
ghost use Rattle.roster_desk_reports.specs.Faults as faults;
ghost use Rattle.roster_desk_reports.specs.Faults.{Heading, IsTold, IsWrongAt, fault_behind, fault_of_text};
ghost use Rattle.roster_desk_reports.specs.Faults.{first_fault, form_fault, heading_at, heading_from};
ghost use Rattle.roster_desk_reports.specs.Faults.{heading_of, is_blank, is_crew_form, line_fault, month_in};
ghost use Rattle.roster_desk_reports.specs.Faults.{other_fault, pairings_in};
ghost use Rattle.roster_desk_reports.specs.Text as spec;
ghost use Rattle.roster_desk_reports.specs.Text.{given_by, given_from, is_crew, name_of, names_of};
ghost use Rattle.roster_desk_reports.specs.Text.{numbered_by_line, numbered_by_text, texts, word_at};

use crate::fault::{ReportFault, Wrong};
use crate::words::{are_numbers, is_crew, lines_of, without_mark, words_of};
use roster_instants::Period;
use roster_model::limits::MOST_PAIRINGS;
use roster_values::Name;
use std::alloc::Global;

/// Where the names of pairings begin in a `CREW` line: behind the word, the person and five numbers.
const FIRST_NAME: usize = 7;

/// Where its numbers begin.
const FIRST_NUMBER: usize = 2;

/// The word that stands for no pairing.
const NOBODY: &[u8] = b"-";

/// What a `CREW` line says.
#[derive(Drop)]
pub struct CrewLine {
    /// The number of the line, from 1.
    pub line: usize,
    /// The person.
    pub person: Name,
    /// The pairings of the person, in the order of the line.
    pub pairings: Vec<Name>,
}

/// What a report says of who has which pairing.
#[derive(Drop)]
pub struct Report {
    /// The month.
    pub period: Period,
    /// The number of the line that gives the month, from 1.
    pub first: usize,
    /// The `CREW` lines, in the order of the report.
    pub crew: Vec<CrewLine>,
}

/// What the lines read so far say.
#[derive(Drop)]
struct ReportDraft {
    // The month and the number of its line, when there was a line.
    heading: Option<(Period, usize)>,
    crew: Vec<CrewLine>,
    // How many pairings the lines have.
    pairings: usize,
}

/// The month of a report's first line, if it is one.
fn heading(words: &[&[u8]]) -> Option<Period>
    ensures { result ≡ month_in (texts words.now) }
{
    if words.len() != 2 {
        return None;
    }
    if words[0] == b"ROSTER".as_slice() || words[0] == b"PLAN".as_slice() {
        Period::read(words[1])
    } else {
        None
    }
}

/// Whether a report may have a line with this first word that isn't a person's.
fn is_known(word: &[u8]) -> bool
    ensures { result ≡ faults.is_known word.now }
{
    word == b"COST".as_slice()
        || word == b"BOUND".as_slice()
        || word == b"LOCKED".as_slice()
        || word == b"OPEN".as_slice()
}

/// Whether the words behind a person's name are numbers, as many as a `CREW` line has.
fn has_numbers(words: &[&[u8]]) -> bool
    ensures value { result ≡ faults.has_numbers (texts words.now) }
    ensures long { IsTrue result → 7 < length words.now }
{
    words.len() > FIRST_NAME && are_numbers(&words[FIRST_NUMBER..FIRST_NAME])
}

/// The fault at a line.
fn at(line: usize, wrong: Wrong) -> ReportFault
    ensures { result ≡ ReportFault.At line wrong }
{
    ReportFault::At { line, wrong }
}

/// Puts the word behind the names, if it is one; `-` is none.
fn push_name(names: &mut Vec<Name>, line: usize, word: &[u8]) -> Result<(), ReportFault>
    ensures given { OnOk result (names.new.items ≡ names.old.items ++ name_of word.now) }
    ensures form { OnOk result (list_all is_identifier (name_of word.now) ≡ true) }
    ensures fault { IfErr result
        (IsWrongAt line (form_fault (list_all is_identifier (name_of word.now)))) }
{
    if word == NOBODY {
        return Ok(());
    }
    let Some(name) = Name::new(word) else {
        return Err(at(line, Wrong::CrewForm));
    };
    names.push(name)?;
    Ok(())
}

/// The names among the words, or what is wrong with the line at this number.
fn names(alloc: Global, line: usize, words: &[&[u8]]) -> Result<Vec<Name>, ReportFault>
    ensures given { IfOk result
        (λ names. names.items ≡ names_of (texts words.now)) }
    ensures form { IfOk result (λ _. list_all is_identifier (names_of (texts words.now)) ≡ true) }
    ensures fault { IfErr result (IsWrongAt line (form_fault
        (list_all is_identifier (names_of (texts words.now))))) }
{
    let mut names = Vec::new(alloc);
    for word in words {
        if let Err(fault) = push_name(&mut names, line, word) {
            return Err(fault);
        }
    }
    Ok(names)
}

/// What the words of a `CREW` line say.
fn crew_line(alloc: Global, line: usize, words: &[&[u8]]) -> Result<CrewLine, ReportFault>
    ensures person { IfOk result
        (λ crew. crew.person ≡ word_at (texts words.now) 1) }
    ensures pairings { IfOk result (λ crew. crew.pairings.items
        ≡ names_of (drop 7 (texts words.now))) }
    ensures number { IfOk result (λ crew. crew.line ≡ line) }
    ensures form { IfOk result (λ _. is_crew_form (texts words.now) ≡ true) }
    ensures fault { IfErr result (IsWrongAt line (form_fault (is_crew_form (texts words.now)))) }
{
    if !has_numbers(words) {
        return Err(at(line, Wrong::CrewForm));
    }
    let Some(person) = Name::new(words[1]) else {
        return Err(at(line, Wrong::CrewForm));
    };
    let pairings = names(alloc, line, &words[FIRST_NAME..])?;
    Ok(CrewLine {
        line,
        person,
        pairings,
    })
}

impl ReportDraft {
    /// Takes the words of the first line that isn't blank, which is no `CREW` line.
    fn begin(&mut self, line: usize, words: &[&[u8]]) -> Result<(), ReportFault>
        ensures same { OnOk result
            ((self.new.crew ≡ self.old.crew) × (self.new.pairings ≡ self.old.pairings)) }
        ensures heading { OnOk result (self.new.heading
            ≡ option_map (λ month. (month, line)) (month_in (texts words.now))) }
        ensures begun { OnOk result (is_some self.new.heading ≡ true) }
        ensures sound { OnOk result (fault_behind None self.old.pairings words.now ≡ None) }
        ensures fault { IfErr result (IsWrongAt line (fault_behind None self.old.pairings words.now)) }
    {
        match heading(words) {
            Some(period) => {
                self.heading = Some((period, line));
                Ok(())
            }
            None => Err(at(line, Wrong::NoReport)),
        }
    }

    /// Takes the words of a `CREW` line.
    fn take_crew(&mut self, alloc: Global, line: usize, words: &[&[u8]]) -> Result<(), ReportFault>
        requires { is_crew (texts words.now) ≡ true }
        ensures given { OnOk result (map numbered_by_line self.new.crew.items
            ≡ map numbered_by_line self.old.crew.items
            ++ map (λ given. (line, given)) (given_by (texts words.now))) }
        ensures same { OnOk result
            ((self.new.heading ≡ self.old.heading) × (is_some self.old.heading ≡ true)) }
        ensures count { OnOk result (self.new.pairings ≡ self.old.pairings + pairings_in (texts words.now)) }
        ensures sound { OnOk result (fault_behind self.old.heading self.old.pairings words.now ≡ None) }
        ensures fault { IfErr result
            (IsWrongAt line (fault_behind self.old.heading self.old.pairings words.now)) }
    {
        if self.heading.is_none() {
            return Err(at(line, Wrong::NoReport));
        }
        let crew = crew_line(alloc, line, words)?;
        self.pairings = self.pairings.saturating_add(crew.pairings.len());
        if self.pairings > MOST_PAIRINGS {
            return Err(at(line, Wrong::TooMany));
        }
        self.crew.push(crew)?;
        Ok(())
    }

    /// Takes the words of a line that is no `CREW` line, and not blank.
    fn take_other(&mut self, line: usize, words: &[&[u8]]) -> Result<(), ReportFault>
        requires some { 0 < length words.now }
        requires other { is_crew (texts words.now) ≡ false }
        ensures same { OnOk result
            ((self.new.crew ≡ self.old.crew) × (self.new.pairings ≡ self.old.pairings)) }
        ensures heading { OnOk result ((later : Option Heading) → option_or self.new.heading later
            ≡ option_or self.old.heading (option_map (λ month. (month, line)) (month_in (texts words.now)))) }
        ensures begun { OnOk result (is_some self.new.heading ≡ true) }
        ensures sound { OnOk result (fault_behind self.old.heading self.old.pairings words.now ≡ None) }
        ensures fault { IfErr result
            (IsWrongAt line (fault_behind self.old.heading self.old.pairings words.now)) }
    {
        if self.heading.is_none() {
            return self.begin(line, words);
        }
        if is_known(words[0]) {
            Ok(())
        } else {
            Err(at(line, Wrong::UnknownLine))
        }
    }

    /// Takes the line at this number.
    fn take(&mut self, alloc: Global, line: usize, text: &[u8]) -> Result<(), ReportFault>
        ensures given { OnOk result (map numbered_by_line self.new.crew.items
            ≡ map numbered_by_line self.old.crew.items
            ++ map (λ given. (line, given)) (given_by (spec.words_of text.now))) }
        ensures heading { OnOk result ((later : Option Heading) → option_or self.new.heading later
            ≡ option_or self.old.heading (heading_at (spec.words_of text.now) line later)) }
        ensures begun { OnOk result (is_some self.new.heading
            ≡ (is_some self.old.heading || not (is_blank (spec.words_of text.now)))) }
        ensures count { OnOk result (self.new.pairings
            ≡ self.old.pairings + pairings_in (spec.words_of text.now)) }
        ensures sound { OnOk result (line_fault (is_some self.old.heading) self.old.pairings
            (spec.words_of text.now) ≡ None) }
        ensures fault { IfErr result (IsWrongAt line (line_fault (is_some self.old.heading)
            self.old.pairings (spec.words_of text.now))) }
    {
        let words = words_of(alloc, text)?;
        if words.is_empty() {
            return Ok(());
        }
        if is_crew(&words) {
            self.take_crew(alloc, line, &words)
        } else {
            self.take_other(line, &words)
        }
    }

    /// Takes the lines.
    fn take_all(&mut self, alloc: Global, lines: &[&[u8]]) -> Result<(), ReportFault>
        ensures given { OnOk result (map numbered_by_line self.new.crew.items
            ≡ map numbered_by_line self.old.crew.items
            ++ given_from 1 (texts lines.now)) }
        ensures heading { OnOk result (option_or self.new.heading None
            ≡ option_or self.old.heading (heading_from 1 (texts lines.now))) }
        ensures sound { OnOk result (first_fault (is_some self.new.heading) self.new.pairings
            (length lines.now + 1) []
            ≡ first_fault (is_some self.old.heading) self.old.pairings 1
            (texts lines.now)) }
        ensures fault { IfErr result (IsTold (first_fault (is_some self.old.heading)
            self.old.pairings 1 (texts lines.now))) }
    {
        for i in 0..lines.len() {
            if let Err(fault) = self.take(alloc, i + 1, lines[i]) {
                return Err(fault);
            }
        }
        Ok(())
    }

    /// The report of the lines.
    fn finish(self) -> Result<Report, ReportFault>
        ensures crew { IfOk result (λ report. report.crew ≡ self.crew) }
        ensures heading { IfOk result (λ report. self.heading ≡ Some (report.period, report.first)) }
        ensures fault { IfErr result
            (λ fault. (self.heading ≡ None) × IsWrongAt 1 (Some Wrong.NoReport) fault) }
    {
        match self.heading {
            Some((period, first)) => Ok(Report {
                period,
                first,
                crew: self.crew,
            }),
            None => Err(at(1, Wrong::NoReport)),
        }
    }
}

/// Reads a report, or tells what is wrong with the first line that can't be one of a report.
pub fn read_report(alloc: Global, text: &[u8]) -> Result<Report, ReportFault>
    // The `CREW` lines, with their numbers.
    ensures given { IfOk result
        (λ report. map numbered_by_line report.crew.items ≡ numbered_by_text text.now) }
    // The month of the first line that isn't blank.
    ensures month { IfOk result
        (λ report. heading_of text.now ≡ Some (report.period, report.first)) }
    // It is refused exactly for what is wrong, memory aside.
    ensures sound { IfOk result (λ _. fault_of_text text.now ≡ None) }
    ensures fault { IfErr result (IsTold (fault_of_text text.now)) }
{
    let mut draft = ReportDraft {
        heading: None,
        crew: Vec::new(alloc),
        pairings: 0,
    };
    let lines = lines_of(alloc, without_mark(text))?;
    draft.take_all(alloc, &lines)?;
    draft.finish()
}
