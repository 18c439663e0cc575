//! The command line.

ghost use Rattle.std.specs.Prelude.{◌≡◌, ◌≢◌, ◌≤◌, ℕ, List, true, false, IfOk, IfErr, Some, map, []};
ghost use Rattle.clap.specs.Words.{app_of, takes, fault_of, kind_of, new_app, with_subcommand};
ghost use Rattle.clap.specs.Words.{HasKind, Kinds};
ghost use Rattle.roster_cli_arguments.specs.Line.{roster_app, command_name, demanding_app, number_spelled};
ghost use Rattle.roster_cli_arguments.specs.Line.{solve_app, spelling, workers_asked, HasWorkers, NamesMemory};
ghost use Rattle.roster_cli_arguments.specs.Line.{TellsKind};
ghost use Rattle.roster_values.specs.declared.command.Command as asked;
ghost use Rattle.clap.specs.declared.builder.command.Command.TheViews as views;

use clap::error::ErrorKind;
use roster_model::limits::MOST_WORKERS;
use roster_values::Command;
use std::alloc::{AllocError, Global};
use std::convert::AsStr;
use thiserror::Error;

/// The version of the program; the file VERSION has it too.
const VERSION: &str = "1.0.0";

/// Why a command line gave no command.
#[derive(Debug, Drop, Error)]
pub enum LineFault {
    /// The words are refused, or ask for help or the version, as `clap`'s error tells.
    #[error("{0}")]
    Refused(clap::Error),
    /// Memory ran out.
    #[error("memory")]
    Memory,
}

impl From<AllocError> for LineFault {
    ghost use Rattle.std.specs.Prelude.{◌≡◌};
    ghost use Rattle.roster_cli_arguments.specs.declared.line.LineFault.TheVariants.{Memory};

    ghost from_gives = { λ _ e. e ≡ Memory };

    fn from(_e: AllocError) -> LineFault {
        LineFault::Memory
    }
}

/// `solve`, with the number of its workers.
fn solve<'a>(alloc: Global) -> Result<clap::Command<'a>, AllocError>
    ensures app { IfOk result (λ c. app_of c ≡ solve_app) }
    ensures local { IfOk result (λ c. (views.out-Command c).has_globals ≡ false) }
{
    let workers = clap::Arg::new(alloc, "workers")
        .long("workers")
        .value_name("N")
        .value_parser(clap::builder::ValueParser::unsigned(1, MOST_WORKERS.into()))
        .default_value("1")
        .help("How many workers may search: the answer is the same for any number");
    clap::Command::new(alloc, "solve")
        .about("Writes the best roster of the book on standard input")
        .override_usage("roster solve [OPTIONS] < BOOK")
        .arg(workers)
}

/// The program's command line with `solve` as its only command.
fn solver<'a>(alloc: Global) -> Result<clap::Command<'a>, AllocError>
    ensures app { IfOk result (λ c. app_of c ≡ with_subcommand demanding_app solve_app.top) }
    ensures local { IfOk result (λ c. (views.out-Command c).has_globals ≡ false) }
{
    let solve = solve(alloc)?;
    clap::Command::new(alloc, "roster")
        .about("Rosters airline crew by those rules of ORO.FTL that it judges")
        .version(VERSION)
        .subcommand_required(true)
        .subcommand(solve)
}

/// The command line with one command more, which has no arguments: its name, what it does, and how it is
/// used.
fn with_command<'a>(
    alloc: Global,
    line: clap::Command<'a>,
    name: &'a str,
    about: &'a str,
    usage: &'a str,
) -> Result<clap::Command<'a>, AllocError>
    requires { (views.out-Command line).has_globals ≡ false }
    ensures app { IfOk result
        (λ c. app_of c ≡ with_subcommand (app_of line.entry) (new_app name.now).top) }
    ensures local { IfOk result (λ c. (views.out-Command c).has_globals ≡ false) }
{
    let command = clap::Command::new(alloc, name)
        .about(about)
        .override_usage(usage);
    line.subcommand(command)
}

/// The program's command line.
fn roster<'a>(alloc: Global) -> Result<clap::Command<'a>, AllocError>
    ensures app { IfOk result (λ c. app_of c ≡ roster_app) }
    ensures local { IfOk result (λ c. (views.out-Command c).has_globals ≡ false) }
{
    let checker = with_command(
        alloc,
        solver(alloc)?,
        "check",
        "Judges the roster that the book on standard input gives",
        "roster check < BOOK",
    )?;
    with_command(
        alloc,
        checker,
        "replay",
        "Writes the best roster of the book on standard input, which may give steps of a search",
        "roster replay < BOOK",
    )
}

/// The number of workers in the matches of `solve`.
fn workers(matches: &clap::ArgMatches<'_>) -> usize
    requires { (text : List ℕ) × HasWorkers matches.now text }
    ensures value { (text : List ℕ) → HasWorkers matches.now text → result ≡ number_spelled text }
    ensures low { 1 ≤ result }
    ensures high { result ≤ MOST_WORKERS }
{
    let Some(found) = matches.subcommand_matches("solve") else {
        unreachable!()
    };
    let Some(number) = found.get_one::<usize>("workers") else {
        unreachable!()
    };
    number
}

/// The command that the words ask for, and the number of workers: what the words give to `solve`, from 1 to
/// 64, and else 1. The first word is the program's name.
pub fn read_line<'a, S: AsStr>(alloc: Global, words: &'a [S]) -> Result<(Command, usize), LineFault>
    ensures command { IfOk result (λ line.
        command_name (map S.text words.entry.now) ≡ Some (spelling line.0)) }
    ensures workers { IfOk result (λ line.
        line.1 ≡ workers_asked line.0 (map S.text words.entry.now)) }
    ensures limited { IfOk result (λ line. (1 ≤ line.1) × (line.1 ≤ MOST_WORKERS)) }
    ensures faultless { IfOk result (λ _. fault_of roster_app (map S.text words.entry.now) ≡ []) }
    ensures refused { IfErr result NamesMemory }
    // What clap refuses, it refuses for one of its own reasons.
    ensures kind { fault_of roster_app (map S.text words.entry.now) ≢ []
        → IfErr result (TellsKind (fault_of roster_app (map S.text words.entry.now))) }
    // If clap takes the words and they name a command, only want of memory can come.
    ensures taken { (command : asked.Command) → takes roster_app (map S.text words.entry.now) ≡ true
        → command_name (map S.text words.entry.now) ≡ Some (spelling command)
        → IfErr result (λ e. e ≡ LineFault.Memory) }
{
    let mut command = roster(alloc)?;
    let matches = match command.try_get_matches_from_mut(words) {
        Ok(matches) => matches,
        Err(error) => return Err(refusal(error)),
    };
    match matches.subcommand_name() {
        Some("solve") => Ok((Command::Solve, workers(&matches))),
        Some("check") => Ok((Command::Check, 1)),
        Some("replay") => Ok((Command::Replay, 1)),
        _ => Err(LineFault::Refused(command.error(
            ErrorKind::InvalidSubcommand,
            "unknown command",
        )?)),
    }
}

/// clap's want of memory by its own name.
fn refusal(error: clap::Error) -> LineFault
    ensures memory { kind_of error ≡ ErrorKind.OutOfMemory → result ≡ LineFault.Memory }
    ensures same { kind_of error ≢ ErrorKind.OutOfMemory → result ≡ LineFault.Refused error }
    ensures named { NamesMemory result }
    ensures kept { (kinds : Kinds) → HasKind kinds error → TellsKind kinds result }
{
    match error.kind() {
        ErrorKind::OutOfMemory => LineFault::Memory,
        _ => LineFault::Refused(error),
    }
}
