//! The commands that write a book, or records of one.

ghost use Rattle.std.specs.Prelude.{◌≡◌, codes, false, IfOk};
ghost use Rattle.clap.specs.Words.{app_of, rule_of};
ghost use Rattle.clap.specs.declared.builder.command.Command.TheViews as views;
ghost use Rattle.roster_desk_arguments.specs.Commands.{begun_repair_app, book_app, carry_app, lists_rule};
ghost use Rattle.roster_desk_arguments.specs.Commands.{month_app, number_rule, repair_app, usual_rule};
ghost use Rattle.roster_model.specs.declared.limits.TheConstants.{MOST_UNITS};

use crate::args::{book, command, demanded, lists, named, needed, needed_report, number, with};
use clap::{Arg, Command};
use roster_model::limits::MOST_UNITS;
use std::alloc::{AllocError, Global};

/// What it costs that a pairing moves.
fn change<'a>(alloc: Global) -> Arg<'a>
    ensures rule { rule_of result ≡ usual_rule (codes "change") 0 MOST_UNITS (codes "500") }
    ensures local { result.global ≡ false }
{
    let help = "What it costs that a pairing moves from who has it, in cost units";
    number(alloc, "change", 0, MOST_UNITS.into(), "UNITS", help).default_value("500")
}

/// `repair`, with its book and report, and when it begins.
fn begun_repair<'a>(alloc: Global) -> Result<Command<'a>, AllocError>
    ensures app { IfOk result (λ c. app_of c ≡ begun_repair_app) }
    ensures local { IfOk result (λ c. (views.out-Command c).has_globals ≡ false) }
{
    let repair = command(
        alloc,
        "repair",
        "Writes the book of a month's rest: what was flown is fixed, and moves cost something",
        "Examples:
  roster-desk repair --from 2024-06-12T06:00Z book.csv plan.txt > rest.csv
  roster-desk repair --from 2024-06-12T06:00Z --change 800 --notice 2d:2000 book.csv plan.txt
  roster-desk repair --from 2024-06-12T06:00Z --broken OUT-BACK:ANNA book.csv plan.txt",
    );
    let repair = with(Ok(repair), book(alloc));
    let repair = with(repair, needed_report(alloc, "report"));
    with(
        repair,
        demanded(
            alloc,
            "from",
            "INSTANT",
            "An instant in UTC, as 2024-06-12T06:00Z: what reports before it stays",
        ),
    )
}

/// A pairing that breaks off.
fn broken<'a>(alloc: Global) -> Arg<'a>
    ensures rule { rule_of result ≡ lists_rule (codes "broken") }
    ensures local { result.global ≡ false }
{
    let help =
        "A pairing that breaks off, and who has the rest or the times of a duty that brings somebody there, \
                as P7:BEN or P7:2024-06-12T16:00Z/2024-06-12T19:00Z; more than one may be named";
    lists(alloc, "broken", "PAIRING:REST", help)
}

/// `repair`, with what moves cost, and what breaks off, too.
pub(crate) fn repair<'a>(alloc: Global) -> Result<Command<'a>, AllocError>
    ensures app { IfOk result (λ c. app_of c ≡ repair_app) }
    ensures local { IfOk result (λ c. (views.out-Command c).has_globals ≡ false) }
{
    let repair = with(begun_repair(alloc), change(alloc));
    let notice = named(
        alloc,
        "notice",
        "TIME:UNITS",
        "What it costs instead if the pairing reports within this time, as 2d:2000 or 36h:2000",
    );
    let repair = with(repair, notice);
    with(repair, broken(alloc))
}

/// What each minute costs by which a target is missed.
fn weight<'a>(alloc: Global) -> Arg<'a>
    ensures rule { rule_of result ≡ number_rule (codes "weight") 0 MOST_UNITS }
    ensures local { result.global ≡ false }
{
    let help = "What each minute costs by which a person's flight misses the target; without it, 0";
    number(alloc, "weight", 0, MOST_UNITS.into(), "UNITS", help)
}

/// `book`, with its folder and month.
fn month<'a>(alloc: Global) -> Result<Command<'a>, AllocError>
    ensures app { IfOk result (λ c. app_of c ≡ month_app) }
    ensures local { IfOk result (λ c. (views.out-Command c).has_globals ≡ false) }
{
    let month = command(
        alloc,
        "book",
        "Writes the book of a month from tables of a crew system, or tells what is wrong with them",
        "Examples:
  roster-desk book --month 2024-06 --rank CP tables > june.csv
  roster-desk book --month 2024-06 --base ZRH --base LIS --rank CP --weight 2 tables > june.csv",
    );
    let folder = "The path of a folder with bases.csv, crew.csv, pairings.csv and other tables";
    let month = with(Ok(month), needed(alloc, "folder", "FOLDER", folder));
    with(
        month,
        demanded(alloc, "month", "YYYY-MM", "The month, as 2024-06"),
    )
}

/// `book`, with what of the tables it takes, too.
pub(crate) fn made_book<'a>(alloc: Global) -> Result<Command<'a>, AllocError>
    ensures app { IfOk result (λ c. app_of c ≡ book_app) }
    ensures local { IfOk result (λ c. (views.out-Command c).has_globals ≡ false) }
{
    let base = lists(
        alloc,
        "base",
        "BASE",
        "Only this base; more than one may be named",
    );
    let book = with(month(alloc), base);
    let rank = named(
        alloc,
        "rank",
        "RANK",
        "Only persons and pairings of this rank",
    );
    let book = with(book, rank);
    let book = with(book, weight(alloc));
    let start = named(
        alloc,
        "start",
        "REPORT",
        "A report or plan of this month, or -, whose roster the book gives",
    );
    with(book, start)
}

/// `carry`, with its book and report, and where it reads and writes tables.
pub(crate) fn carry<'a>(alloc: Global) -> Result<Command<'a>, AllocError>
    ensures app { IfOk result (λ c. app_of c ≡ carry_app) }
    ensures local { IfOk result (λ c. (views.out-Command c).has_globals ≡ false) }
{
    let carry = command(
        alloc,
        "carry",
        "Writes what the next month has of this one: duties, leave, and minutes of flight",
        "Examples:
  roster-desk carry --flown flown.csv book.csv plan.txt > records.csv
  roster-desk carry --flown flown.csv --into tables book.csv plan.txt",
    );
    let carry = with(Ok(carry), book(alloc));
    let carry = with(carry, needed_report(alloc, "report"));
    let flown = named(
        alloc,
        "flown",
        "FILE",
        "The path of the table of what persons have flown, month by month",
    );
    let carry = with(carry, flown);
    let into = named(
        alloc,
        "into",
        "FOLDER",
        "A folder whose tables get it, in place of records on standard output",
    );
    with(carry, into)
}
