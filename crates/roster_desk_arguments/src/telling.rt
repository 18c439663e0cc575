//! The commands that tell of a roster, a report or a book.

ghost use Rattle.std.specs.Prelude.{◌≡◌, false, IfOk};
ghost use Rattle.clap.specs.Words.{app_of};
ghost use Rattle.clap.specs.declared.builder.command.Command.TheViews as views;
ghost use Rattle.roster_desk_arguments.specs.Commands.{assigns_app, begun_table_app, begun_why_app, chart_app};
ghost use Rattle.roster_desk_arguments.specs.Commands.{diff_app, fair_app, fault_app, limits_app, table_app};
ghost use Rattle.roster_desk_arguments.specs.Commands.{warn_app, why_app};

use crate::args::{book, command, flag, named, names, needed_report, report, with};
use clap::Command;
use std::alloc::{AllocError, Global};

/// `why`, with its book and report.
fn begun_why<'a>(alloc: Global) -> Result<Command<'a>, AllocError>
    ensures app { IfOk result (λ c. app_of c ≡ begun_why_app) }
    ensures local { IfOk result (λ c. (views.out-Command c).has_globals ≡ false) }
{
    let why = command(
        alloc,
        "why",
        "Tells of each open pairing who could have it at what cost, or what stands in the way",
        "Examples:
  roster-desk why book.csv plan.txt
  roster-desk why --pairing OUT-BACK book.csv plan.txt
  roster-desk why --pairing OUT-BACK --person ANNA book.csv plan.txt",
    );
    let why = with(Ok(why), book(alloc));
    with(why, report(alloc))
}

/// `why`, with what it may be asked of, too.
pub(crate) fn why<'a>(alloc: Global) -> Result<Command<'a>, AllocError>
    ensures app { IfOk result (λ c. app_of c ≡ why_app) }
    ensures local { IfOk result (λ c. (views.out-Command c).has_globals ≡ false) }
{
    let help =
        "Only this pairing, open or not: a line for each person of its base, the nearest first";
    let why = with(begun_why(alloc), named(alloc, "pairing", "PAIRING", help));
    let why = with(why, named(alloc, "person", "PERSON", "Only this person"));
    let help = "A line for each person and each open pairing, in book order";
    with(why, flag(alloc, "all", help))
}

/// `limits`, with its book and report, and whom it may be asked of.
pub(crate) fn limits<'a>(alloc: Global) -> Result<Command<'a>, AllocError>
    ensures app { IfOk result (λ c. app_of c ≡ limits_app) }
    ensures local { IfOk result (λ c. (views.out-Command c).has_globals ≡ false) }
{
    let limits = command(
        alloc,
        "limits",
        "Tells how much of each limit each person uses, and what is left",
        "Examples:
  roster-desk limits book.csv plan.txt
  roster-desk limits --person ANNA book.csv plan.txt",
    );
    let limits = with(Ok(limits), book(alloc));
    let limits = with(limits, report(alloc));
    with(limits, named(alloc, "person", "PERSON", "Only this person"))
}

/// `table`, with its book and report, and what its rows are.
fn begun_table<'a>(alloc: Global) -> Result<Command<'a>, AllocError>
    ensures app { IfOk result (λ c. app_of c ≡ begun_table_app) }
    ensures local { IfOk result (λ c. (views.out-Command c).has_globals ≡ false) }
{
    let table = command(
        alloc,
        "table",
        "Writes CSV for a spreadsheet: who has which pairings, duties and leaves, and when",
        "Examples:
  roster-desk table book.csv plan.txt > table.csv
  roster-desk table --persons book.csv plan.txt > persons.csv
  roster-desk table --semicolon --bom --names names.csv book.csv plan.txt > named.csv",
    );
    let table = with(Ok(table), book(alloc));
    let table = with(table, report(alloc));
    with(
        table,
        flag(alloc, "persons", "A row for each person, with sums"),
    )
}

/// `table`, with how its rows are written, too.
pub(crate) fn table<'a>(alloc: Global) -> Result<Command<'a>, AllocError>
    ensures app { IfOk result (λ c. app_of c ≡ table_app) }
    ensures local { IfOk result (λ c. (views.out-Command c).has_globals ≡ false) }
{
    let help =
        "Semicolons between cells, as a spreadsheet wants them where numbers have a decimal comma";
    let table = with(begun_table(alloc), flag(alloc, "semicolon", help));
    let help = "A byte order mark first, by which a spreadsheet knows UTF-8";
    let table = with(table, flag(alloc, "bom", help));
    with(table, names(alloc))
}

/// `chart`, with its book and report, and what persons are called in it.
pub(crate) fn chart<'a>(alloc: Global) -> Result<Command<'a>, AllocError>
    ensures app { IfOk result (λ c. app_of c ≡ chart_app) }
    ensures local { IfOk result (λ c. (views.out-Command c).has_globals ≡ false) }
{
    let chart = command(
        alloc,
        "chart",
        "Draws the roster as a page for a browser",
        "Examples:
  roster-desk chart book.csv plan.txt > chart.html
  roster-desk chart --names names.csv book.csv plan.txt > named.html",
    );
    let chart = with(Ok(chart), book(alloc));
    let chart = with(chart, report(alloc));
    with(chart, names(alloc))
}

/// `diff`, with its book and its two reports, and what its lines tell.
pub(crate) fn diff<'a>(alloc: Global) -> Result<Command<'a>, AllocError>
    ensures app { IfOk result (λ c. app_of c ≡ diff_app) }
    ensures local { IfOk result (λ c. (views.out-Command c).has_globals ≡ false) }
{
    let diff = command(
        alloc,
        "diff",
        "Tells which pairings move from one roster to another, and what that changes",
        "Examples:
  roster-desk diff book.csv plan.txt better.txt
  roster-desk diff --persons book.csv plan.txt better.txt",
    );
    let diff = with(Ok(diff), book(alloc));
    let diff = with(diff, needed_report(alloc, "report"));
    let diff = with(diff, needed_report(alloc, "other"));
    with(
        diff,
        flag(
            alloc,
            "persons",
            "Only whose month differs, and on which days",
        ),
    )
}

/// `assigns`, with its report.
pub(crate) fn assigns<'a>(alloc: Global) -> Result<Command<'a>, AllocError>
    ensures app { IfOk result (λ c. app_of c ≡ assigns_app) }
    ensures local { IfOk result (λ c. (views.out-Command c).has_globals ≡ false) }
{
    let assigns = command(
        alloc,
        "assigns",
        "Writes the assign records that give a book the roster of a report or plan",
        "Examples:
  roster-desk assigns plan.txt > assigns.csv",
    );
    with(Ok(assigns), needed_report(alloc, "report"))
}

/// `fault`, with its book.
pub(crate) fn fault<'a>(alloc: Global) -> Result<Command<'a>, AllocError>
    ensures app { IfOk result (λ c. app_of c ≡ fault_app) }
    ensures local { IfOk result (λ c. (views.out-Command c).has_globals ≡ false) }
{
    let fault = command(
        alloc,
        "fault",
        "Tells which records of a refused book have faults, and what is wanted in their fields",
        "Examples:
  roster-desk fault book.csv",
    );
    with(Ok(fault), book(alloc))
}

/// `warn`, with its book.
pub(crate) fn warn<'a>(alloc: Global) -> Result<Command<'a>, AllocError>
    ensures app { IfOk result (λ c. app_of c ≡ warn_app) }
    ensures local { IfOk result (λ c. (views.out-Command c).has_globals ≡ false) }
{
    let warn = command(
        alloc,
        "warn",
        "Tells what is likely a mistake in a book without a fault",
        "Examples:
  roster-desk warn book.csv",
    );
    with(Ok(warn), book(alloc))
}

/// `fair`, with its book.
pub(crate) fn fair<'a>(alloc: Global) -> Result<Command<'a>, AllocError>
    ensures app { IfOk result (λ c. app_of c ≡ fair_app) }
    ensures local { IfOk result (λ c. (views.out-Command c).has_globals ≡ false) }
{
    let fair = command(
        alloc,
        "fair",
        "Writes the book with its targets scaled to what there is to fly at each base, to the minute",
        "Examples:
  roster-desk fair book.csv > fair.csv",
    );
    with(Ok(fair), book(alloc))
}
