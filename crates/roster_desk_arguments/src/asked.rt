//! What the matches of the command line ask for.

ghost use Rattle.std.specs.Prelude.{◌≡◌, ◌≢◌, ℕ, [], codes, false, true, IfOk, IfSome, IsSomeAnd, List, map, None};
ghost use Rattle.std.specs.Prelude.{Some, is_some, option_map, unwrap_or};
ghost use Rattle.clap.specs.ValueTests.{is_unsigned_in};
ghost use Rattle.clap.specs.Words.{all_of, first_of, found_of, one_of, rows_of, subcommand_rows_of};
ghost use Rattle.clap.specs.Words.{Row};
ghost use Rattle.roster_desk_arguments.specs.Line.{number_spelled, spelling, spelling_of_page};
ghost use Rattle.roster_desk_arguments.specs.Line.{spelling_of_question, AsksIn, HasNames, IsFlagIn};
ghost use Rattle.roster_desk_arguments.specs.Line.{IsNumberIn, IsWhole};

use crate::line::{
    BookLine, CarryLine, Line, Page, PageLine, PlanLine, Question, RepairLine, TableLine, TellLine,
};
use clap::ArgMatches;
use roster_model::limits::MOST_UNITS;
use std::alloc::{AllocError, Global};

/// How much is tried if nothing is said of it.
const USUAL_EFFORT: u32 = 5;

/// What it costs that a pairing moves if nothing is said of it, in cost units.
const USUAL_CHANGE: usize = 500;

/// The command in the matches.
pub(crate) fn asked<'a>(
    alloc: Global,
    matches: &ArgMatches<'a>,
) -> Result<Option<Line<'a>>, AllocError>
    ensures asks { IfOk result (λ asked. IfSome asked (λ line. (rows : List Row)
        × (subcommand_rows_of matches.now ≡ Some (spelling line, rows)) × AsksIn rows line)) }
    ensures some { IsSomeAnd (subcommand_rows_of matches.now) (λ found. IsWhole found.0 found.1)
        → IfOk result (λ asked. is_some asked ≡ true) }
{
    let Some((command, found)) = matches.subcommand() else {
        return Ok(None);
    };
    match command {
        "book" => made(alloc, found),
        "repair" => repaired(alloc, found),
        _ => Ok(asked_of(command, found)),
    }
}

/// The command of the name, if it keeps no list.
fn asked_of<'a>(command: &str, found: &ArgMatches<'a>) -> Option<Line<'a>>
    ensures named { IfSome result (λ line. spelling line ≡ command.now) }
    ensures asks { IfSome result (AsksIn (rows_of (found_of found.now))) }
    ensures some { IsWhole command.now (rows_of (found_of found.now)) → command.now ≢ codes "book"
        → command.now ≢ codes "repair" → is_some result ≡ true }
{
    match command {
        "plan" => planned(found),
        "why" => why(found),
        "limits" => limits(found),
        "table" => table(found),
        "chart" => chart(found),
        "diff" => differences(found),
        "assigns" => assigns(found),
        "fault" => of_records(found, Page::Fault),
        "warn" => of_records(found, Page::Warn),
        "fair" => of_records(found, Page::Fair),
        "carry" => carried(found),
        _ => None,
    }
}

/// The value of the argument in the matches, if it has one.
fn value<'a>(found: &ArgMatches<'a>, name: &str) -> Option<&'a str>
    ensures { option_map (λ text. text.now) result ≡ first_of name.now (rows_of (found_of found.now)) }
{
    found.get_str(name)
}

/// All values of the argument in the matches.
fn values<'a>(alloc: Global, found: &ArgMatches<'a>, name: &str) -> Result<Vec<&'a str>, AllocError>
    ensures { IfOk result (λ texts. map (λ text. text.now) texts.items
        ≡ unwrap_or (all_of name.now (rows_of (found_of found.now))) []) }
{
    match found.get_strs(name) {
        Some(texts) => Vec::from_slice(alloc, texts),
        None => Ok(Vec::new(alloc)),
    }
}

/// The number that is the value of the argument in the matches, if it has one.
fn number(found: &ArgMatches<'_>, name: &str) -> Option<usize>
    ensures given { (low high : ℕ) (text : List ℕ) → one_of name.now (rows_of (found_of found.now)) ≡ Some text
        → is_unsigned_in low high text ≡ true → result ≡ Some (number_spelled text) }
    ensures left_out { one_of name.now (rows_of (found_of found.now)) ≡ None → result ≡ None }
{
    found.get_one::<usize>(name)
}

/// Whether the flag is given in the matches.
fn flag(found: &ArgMatches<'_>, name: &str) -> bool
    ensures { IsFlagIn (rows_of (found_of found.now)) name.now result }
{
    found.get_flag(name)
}

/// How much is tried, by the matches.
fn effort(found: &ArgMatches<'_>) -> u32
    ensures { IsNumberIn (rows_of (found_of found.now)) (codes "effort") 0 9 USUAL_EFFORT result }
{
    match number(found, "effort") {
        Some(effort) if effort <= 9 => effort as u32,
        _ => USUAL_EFFORT,
    }
}

/// The plan in the matches.
fn planned<'a>(found: &ArgMatches<'a>) -> Option<Line<'a>>
    ensures named { IfSome result (λ line. spelling line ≡ codes "plan") }
    ensures asks { IfSome result (AsksIn (rows_of (found_of found.now))) }
    ensures some { is_some (first_of (codes "book") (rows_of (found_of found.now))) ≡ true
        → is_some result ≡ true }
{
    let book = value(found, "book")?;
    let effort = effort(found);
    let workers = number(found, "workers");
    let sets = number(found, "sets");
    let start = value(found, "start");
    let progress = flag(found, "progress");
    let keep = value(found, "keep");
    Some(Line::Plan(PlanLine {
        book,
        effort,
        workers,
        sets,
        start,
        progress,
        keep,
    }))
}

/// The question that `why` in the matches asks.
fn why<'a>(found: &ArgMatches<'a>) -> Option<Line<'a>>
    ensures named { IfSome result (λ line. spelling line ≡ codes "why") }
    ensures asks { IfSome result (AsksIn (rows_of (found_of found.now))) }
    ensures some { is_some (first_of (codes "book") (rows_of (found_of found.now))) ≡ true
        → is_some result ≡ true }
{
    let pairing = value(found, "pairing");
    let person = value(found, "person");
    let all = flag(found, "all");
    told(
        found,
        Question::Why {
            pairing,
            person,
            all,
        },
    )
}

/// The question that `limits` in the matches asks.
fn limits<'a>(found: &ArgMatches<'a>) -> Option<Line<'a>>
    ensures named { IfSome result (λ line. spelling line ≡ codes "limits") }
    ensures asks { IfSome result (AsksIn (rows_of (found_of found.now))) }
    ensures some { is_some (first_of (codes "book") (rows_of (found_of found.now))) ≡ true
        → is_some result ≡ true }
{
    let person = value(found, "person");
    told(found, Question::Limits { person })
}

/// The question that `diff` in the matches asks.
fn differences<'a>(found: &ArgMatches<'a>) -> Option<Line<'a>>
    ensures named { IfSome result (λ line. spelling line ≡ codes "diff") }
    ensures asks { IfSome result (AsksIn (rows_of (found_of found.now))) }
    ensures some { is_some (first_of (codes "book") (rows_of (found_of found.now))) ≡ true
        → is_some (first_of (codes "other") (rows_of (found_of found.now))) ≡ true
        → is_some result ≡ true }
{
    let other = value(found, "other")?;
    told(found, question_of_other(found, other))
}

/// What the lines of `diff` in the matches tell of the other roster.
fn question_of_other<'a>(found: &ArgMatches<'a>, other: &'a str) -> Question<'a>
    requires { first_of (codes "other") (rows_of (found_of found.now)) ≡ Some other.now }
    ensures named { spelling_of_question result ≡ codes "diff" }
    ensures asks { HasNames (rows_of (found_of found.now)) result }
{
    if flag(found, "persons") {
        Question::Changed { other }
    } else {
        Question::Differences { other }
    }
}

/// The question that `table` in the matches asks.
fn table<'a>(found: &ArgMatches<'a>) -> Option<Line<'a>>
    ensures named { IfSome result (λ line. spelling line ≡ codes "table") }
    ensures asks { IfSome result (AsksIn (rows_of (found_of found.now))) }
    ensures some { is_some (first_of (codes "book") (rows_of (found_of found.now))) ≡ true
        → is_some result ≡ true }
{
    let persons = flag(found, "persons");
    let semicolon = flag(found, "semicolon");
    let bom = flag(found, "bom");
    let names = value(found, "names");
    told(
        found,
        Question::Table(TableLine {
            persons,
            semicolon,
            bom,
            names,
        }),
    )
}

/// The question that `chart` in the matches asks.
fn chart<'a>(found: &ArgMatches<'a>) -> Option<Line<'a>>
    ensures named { IfSome result (λ line. spelling line ≡ codes "chart") }
    ensures asks { IfSome result (AsksIn (rows_of (found_of found.now))) }
    ensures some { is_some (first_of (codes "book") (rows_of (found_of found.now))) ≡ true
        → is_some result ≡ true }
{
    let names = value(found, "names");
    told(found, Question::Chart { names })
}

/// The question, of the book and the report in the matches.
fn told<'a>(found: &ArgMatches<'a>, question: Question<'a>) -> Option<Line<'a>>
    requires { HasNames (rows_of (found_of found.now)) question }
    ensures named { IfSome result (λ line. spelling line ≡ spelling_of_question question.entry) }
    ensures asks { IfSome result (AsksIn (rows_of (found_of found.now))) }
    ensures some { is_some (first_of (codes "book") (rows_of (found_of found.now))) ≡ true
        → is_some result ≡ true }
{
    let book = value(found, "book")?;
    let report = value(found, "report");
    Some(Line::Tell(TellLine {
        question,
        book,
        report,
    }))
}

/// The report in the matches, of which `assign` records are wanted.
fn assigns<'a>(found: &ArgMatches<'a>) -> Option<Line<'a>>
    ensures named { IfSome result (λ line. spelling line ≡ codes "assigns") }
    ensures asks { IfSome result (AsksIn (rows_of (found_of found.now))) }
    ensures some { is_some (first_of (codes "report") (rows_of (found_of found.now))) ≡ true
        → is_some result ≡ true }
{
    let report = value(found, "report")?;
    Some(Line::Assigns(report))
}

/// The book in the matches, and what is to be told of it.
fn of_records<'a>(found: &ArgMatches<'a>, page: Page) -> Option<Line<'a>>
    ensures named { IfSome result (λ line. spelling line ≡ spelling_of_page page) }
    ensures asks { IfSome result (AsksIn (rows_of (found_of found.now))) }
    ensures some { is_some (first_of (codes "book") (rows_of (found_of found.now))) ≡ true
        → is_some result ≡ true }
{
    let book = value(found, "book")?;
    Some(Line::Page(PageLine { book, page }))
}

/// What it costs that a pairing moves, by the matches.
fn change(found: &ArgMatches<'_>) -> usize
    ensures { IsNumberIn (rows_of (found_of found.now)) (codes "change") 0 MOST_UNITS USUAL_CHANGE result }
{
    number(found, "change").unwrap_or(USUAL_CHANGE)
}

/// The repair in the matches.
fn repaired<'a>(alloc: Global, found: &ArgMatches<'a>) -> Result<Option<Line<'a>>, AllocError>
    ensures named { IfOk result (λ made. IfSome made (λ line. spelling line ≡ codes "repair")) }
    ensures asks { IfOk result (λ made. IfSome made (AsksIn (rows_of (found_of found.now)))) }
    ensures some { is_some (first_of (codes "book") (rows_of (found_of found.now))) ≡ true
        → is_some (first_of (codes "report") (rows_of (found_of found.now))) ≡ true
        → is_some (first_of (codes "from") (rows_of (found_of found.now))) ≡ true
        → IfOk result (λ made. is_some made ≡ true) }
{
    let (Some(book), Some(report)) = (value(found, "book"), value(found, "report")) else {
        return Ok(None);
    };
    let Some(from) = value(found, "from") else {
        return Ok(None);
    };
    let change = change(found);
    let notice = value(found, "notice");
    let broken = values(alloc, found, "broken")?;
    Ok(Some(Line::Repair(RepairLine {
        book,
        report,
        from,
        change,
        notice,
        broken,
    })))
}

/// The book in the matches.
fn made<'a>(alloc: Global, found: &ArgMatches<'a>) -> Result<Option<Line<'a>>, AllocError>
    ensures named { IfOk result (λ made. IfSome made (λ line. spelling line ≡ codes "book")) }
    ensures asks { IfOk result (λ made. IfSome made (AsksIn (rows_of (found_of found.now)))) }
    ensures some { is_some (first_of (codes "folder") (rows_of (found_of found.now))) ≡ true
        → is_some (first_of (codes "month") (rows_of (found_of found.now))) ≡ true
        → IfOk result (λ made. is_some made ≡ true) }
{
    let (Some(folder), Some(month)) = (value(found, "folder"), value(found, "month")) else {
        return Ok(None);
    };
    let bases = values(alloc, found, "base")?;
    let rank = value(found, "rank");
    let weight = number(found, "weight");
    let start = value(found, "start");
    Ok(Some(Line::Book(BookLine {
        folder,
        month,
        bases,
        rank,
        weight,
        start,
    })))
}

/// What is carried, in the matches.
fn carried<'a>(found: &ArgMatches<'a>) -> Option<Line<'a>>
    ensures named { IfSome result (λ line. spelling line ≡ codes "carry") }
    ensures asks { IfSome result (AsksIn (rows_of (found_of found.now))) }
    ensures some { is_some (first_of (codes "book") (rows_of (found_of found.now))) ≡ true
        → is_some (first_of (codes "report") (rows_of (found_of found.now))) ≡ true
        → is_some result ≡ true }
{
    let book = value(found, "book")?;
    let report = value(found, "report")?;
    let flown = value(found, "flown");
    let into = value(found, "into");
    Some(Line::Carry(CarryLine {
        book,
        report,
        flown,
        into,
    }))
}
