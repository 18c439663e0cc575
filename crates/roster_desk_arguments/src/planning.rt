//! The command `plan`.

ghost use Rattle.std.specs.Prelude.{◌≡◌, ◌∷◌, [], codes, false, IfOk};
ghost use Rattle.clap.specs.Words.{app_of, rule_of};
ghost use Rattle.clap.specs.declared.builder.command.Command.TheViews as views;
ghost use Rattle.roster_desk_arguments.specs.Commands.{bounded_plan_app, number_rule, plan_app, usual_rule};
ghost use Rattle.roster_model.specs.declared.limits.TheConstants.{MOST_LINES, MOST_WORKERS};

use crate::args::{book, command, flag, named, number, with};
use clap::{Arg, Command};
use roster_model::limits::{MOST_LINES, MOST_WORKERS};
use std::alloc::{AllocError, Global};

/// How much is tried.
fn effort<'a>(alloc: Global) -> Arg<'a>
    ensures rule { rule_of result ≡ usual_rule (codes "effort") 0 9 (codes "5") }
    ensures local { result.global ≡ false }
{
    let help = "How much is tried, from 0 to 9: more takes longer";
    number(alloc, "effort", 0, 9, "N", help).default_value("5")
}

/// How many threads may share the work.
fn workers<'a>(alloc: Global) -> Arg<'a>
    ensures rule { rule_of result ≡ number_rule (codes "workers") 1 MOST_WORKERS }
    ensures local { result.global ≡ false }
{
    let help =
        "How many threads may share the work; one for each processor if it isn't given. The plan is the same for any number";
    number(alloc, "workers", 1, MOST_WORKERS.into(), "N", help)
}

/// How many legal sets a person may have in a step.
fn sets<'a>(alloc: Global) -> Arg<'a>
    ensures rule { rule_of result ≡ number_rule (codes "sets") 1 MOST_LINES }
    ensures local { result.global ≡ false }
{
    let help =
        "How many legal sets a person may have in one step, and eight times as many in a gap";
    number(alloc, "sets", 1, MOST_LINES as u64, "N", help)
}

/// `plan`, with its book and what it may take.
fn bounded_plan<'a>(alloc: Global) -> Result<Command<'a>, AllocError>
    ensures app { IfOk result (λ c. app_of c ≡ bounded_plan_app) }
    ensures local { IfOk result (λ c. (views.out-Command c).has_globals ≡ false) }
{
    let plan = command(
        alloc,
        "plan",
        "Writes a legal roster of the book, however large it is, and a bound of its cost",
        "Examples:
  roster-desk plan book.csv > plan.txt
  roster-desk plan --effort 9 --start plan.txt --keep better.txt book.csv
  roster-desk plan --receipt plan.receipt book.csv > plan.txt
  roster-desk again plan.receipt

A receipt has what gives the bytes of the plan again, and `again` tells whether they come. The script
roster-desk takes both.",
    );
    let plan = with(Ok(plan), book(alloc));
    let plan = with(plan, effort(alloc));
    let plan = with(plan, workers(alloc));
    with(plan, sets(alloc))
}

/// `plan`, with its start, and what is told and kept on the way, too.
pub(crate) fn plan<'a>(alloc: Global) -> Result<Command<'a>, AllocError>
    ensures app { IfOk result (λ c. app_of c ≡ plan_app) }
    ensures local { IfOk result (λ c. (views.out-Command c).has_globals ≡ false) }
{
    let start = named(
        alloc,
        "start",
        "REPORT",
        "A report or plan to begin with, or -; what isn't legal of it is left out",
    );
    let plan = with(bounded_plan(alloc), start);
    let progress = flag(
        alloc,
        "progress",
        "Standard error is told what is known so far, as a terminal always is",
    );
    let plan = with(plan, progress);
    let keep = named(
        alloc,
        "keep",
        "FILE",
        "A file that has the best plan so far, also if Ctrl-C breaks the run off",
    );
    with(plan, keep)
}
