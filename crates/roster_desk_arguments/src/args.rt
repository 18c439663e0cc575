//! Arguments, and commands that have them, on `clap`.

ghost use Rattle.std.specs.Prelude.{◌≡◌, codes, false, IfOk};
ghost use Rattle.clap.specs.Words.{App, Rule, app_of, new_app, rule_of, with_rule};
ghost use Rattle.clap.specs.declared.builder.command.Command.TheViews as views;
ghost use Rattle.roster_desk_arguments.specs.Commands.{book_rule, demanded_rule, flag_rule, lists_rule};
ghost use Rattle.roster_desk_arguments.specs.Commands.{named_rule, needed_rule, number_rule, placed_rule};
ghost use Rattle.roster_desk_arguments.specs.Commands.{report_rule};

use clap::{Arg, ArgAction, Command, builder};
use std::alloc::{AllocError, Global};

/// A value that may stand at its place.
pub(crate) fn placed<'a>(alloc: Global, id: &'a str, name: &'a str, help: &'a str) -> Arg<'a>
    ensures rule { rule_of result ≡ placed_rule id.entry.now }
    ensures local { result.global ≡ false }
{
    Arg::new(alloc, id).value_name(name).help(help)
}

/// A value that stands at its place.
pub(crate) fn needed<'a>(alloc: Global, id: &'a str, name: &'a str, help: &'a str) -> Arg<'a>
    ensures rule { rule_of result ≡ needed_rule id.entry.now }
    ensures local { result.global ≡ false }
{
    placed(alloc, id, name, help).required(true)
}

/// A value that may stand behind its name.
pub(crate) fn named<'a>(alloc: Global, id: &'a str, name: &'a str, help: &'a str) -> Arg<'a>
    ensures rule { rule_of result ≡ named_rule id.entry.now }
    ensures local { result.global ≡ false }
{
    placed(alloc, id, name, help).long(id)
}

/// A value that stands behind its name.
pub(crate) fn demanded<'a>(alloc: Global, id: &'a str, name: &'a str, help: &'a str) -> Arg<'a>
    ensures rule { rule_of result ≡ demanded_rule id.entry.now }
    ensures local { result.global ≡ false }
{
    named(alloc, id, name, help).required(true)
}

/// Values, each of which stands behind the name.
pub(crate) fn lists<'a>(alloc: Global, id: &'a str, name: &'a str, help: &'a str) -> Arg<'a>
    ensures rule { rule_of result ≡ lists_rule id.entry.now }
    ensures local { result.global ≡ false }
{
    named(alloc, id, name, help).action(ArgAction::Append)
}

/// A name that may stand there, without a value.
pub(crate) fn flag<'a>(alloc: Global, id: &'a str, help: &'a str) -> Arg<'a>
    ensures rule { rule_of result ≡ flag_rule id.entry.now }
    ensures local { result.global ≡ false }
{
    Arg::new(alloc, id)
        .long(id)
        .action(ArgAction::SetTrue)
        .help(help)
}

/// A number between two that may stand behind its name.
pub(crate) fn number<'a>(
    alloc: Global,
    id: &'a str,
    low: u64,
    high: u64,
    name: &'a str,
    help: &'a str,
) -> Arg<'a>
    ensures rule { rule_of result ≡ number_rule id.entry.now low high }
    ensures local { result.global ≡ false }
{
    named(alloc, id, name, help).value_parser(builder::ValueParser::unsigned(low, high))
}

/// The book, which most commands have.
pub(crate) fn book<'a>(alloc: Global) -> Arg<'a>
    ensures rule { rule_of result ≡ book_rule }
    ensures local { result.global ≡ false }
{
    let help = "The book's path, or - for standard input";
    needed(alloc, "book", "BOOK", help)
}

/// The report that gives the roster, which a command may have.
pub(crate) fn report<'a>(alloc: Global) -> Arg<'a>
    ensures rule { rule_of result ≡ report_rule }
    ensures local { result.global ≡ false }
{
    let help =
        "The path of a report or plan that gives the roster, or -; without it the book gives it";
    placed(alloc, "report", "REPORT", help)
}

/// A report that a command has.
pub(crate) fn needed_report<'a>(alloc: Global, id: &'a str) -> Arg<'a>
    ensures rule { rule_of result ≡ needed_rule id.entry.now }
    ensures local { result.global ≡ false }
{
    let help = "The path of a report or plan, or - for standard input";
    needed(alloc, id, "REPORT", help)
}

/// The table that tells what persons are called, which a command may have.
pub(crate) fn names<'a>(alloc: Global) -> Arg<'a>
    ensures rule { rule_of result ≡ named_rule (codes "names") }
    ensures local { result.global ≡ false }
{
    let help = "The path of a table PERSON,NAME that tells what persons are called, or -";
    named(alloc, "names", "FILE", help)
}

/// A command without arguments so far, and with examples of it.
pub(crate) fn command<'a>(
    alloc: Global,
    name: &'a str,
    about: &'a str,
    examples: &'a str,
) -> Command<'a>
    ensures app { app_of result ≡ new_app name.entry.now }
    ensures local { (views.out-Command result).has_globals ≡ false }
{
    Command::new(alloc, name).about(about).after_help(examples)
}

/// The command with one argument more, if it could be made.
pub(crate) fn with<'a>(
    command: Result<Command<'a>, AllocError>,
    arg: Arg<'a>,
) -> Result<Command<'a>, AllocError>
    requires command { IfOk command (λ c. (views.out-Command c).has_globals ≡ false) }
    requires arg { arg.global ≡ false }
    ensures app { (of : App) (rule : Rule) → IfOk command.entry (λ c. app_of c ≡ of)
        → rule_of arg.entry ≡ rule → IfOk result (λ c. app_of c ≡ with_rule of rule) }
    ensures local { IfOk result (λ c. (views.out-Command c).has_globals ≡ false) }
{
    command?.arg(arg)
}
