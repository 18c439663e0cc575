//! The command line, on `clap`.

ghost use Rattle.std.specs.Prelude.{◌≡◌, false, IfOk};
ghost use Rattle.clap.specs.Words.{App, app_of, with_subcommand};
ghost use Rattle.clap.specs.declared.builder.command.Command.TheViews as views;
ghost use Rattle.roster_desk_arguments.specs.Commands.{checker_app, demanding_app, desk_app, planner_app};
ghost use Rattle.roster_desk_arguments.specs.Commands.{shower_app, writer_app};

use crate::args::command;
use crate::months::{carry, made_book, repair};
use crate::planning::plan;
use crate::telling::{assigns, chart, diff, fair, fault, limits, table, warn, why};
use clap::Command;
use std::alloc::{AllocError, Global};

/// The command line with one command more, if both could be made.
fn with_command<'a>(
    line: Result<Command<'a>, AllocError>,
    command: Result<Command<'a>, AllocError>,
) -> Result<Command<'a>, AllocError>
    requires line { IfOk line (λ l. (views.out-Command l).has_globals ≡ false) }
    requires command { IfOk command (λ c. (views.out-Command c).has_globals ≡ false) }
    ensures app { (of more : App) → IfOk line.entry (λ l. app_of l ≡ of)
        → IfOk command.entry (λ c. app_of c ≡ more)
        → IfOk result (λ c. app_of c ≡ with_subcommand of more.top) }
    ensures local { IfOk result (λ c. (views.out-Command c).has_globals ≡ false) }
{
    let command = command?;
    line?.subcommand(command)
}

/// The program's command line, which has to have a command.
fn bare<'a>(alloc: Global) -> Command<'a>
    ensures app { app_of result ≡ demanding_app }
    ensures local { (views.out-Command result).has_globals ≡ false }
{
    let line = command(
        alloc,
        "roster-desk",
        "Helps a planner with the books of roster",
        "The script roster-desk has the command `again` too: see plan --help",
    );
    line.subcommand_required(true)
}

/// That with the commands that plan, and that tell of one roster in words.
fn planner<'a>(alloc: Global) -> Result<Command<'a>, AllocError>
    ensures app { IfOk result (λ c. app_of c ≡ planner_app) }
    ensures local { IfOk result (λ c. (views.out-Command c).has_globals ≡ false) }
{
    let line = with_command(Ok(bare(alloc)), plan(alloc));
    let line = with_command(line, why(alloc));
    with_command(line, limits(alloc))
}

/// That with the commands that show rosters.
fn shower<'a>(alloc: Global) -> Result<Command<'a>, AllocError>
    ensures app { IfOk result (λ c. app_of c ≡ shower_app) }
    ensures local { IfOk result (λ c. (views.out-Command c).has_globals ≡ false) }
{
    let line = with_command(planner(alloc), table(alloc));
    let line = with_command(line, chart(alloc));
    with_command(line, diff(alloc))
}

/// That with the commands that tell of records.
fn checker<'a>(alloc: Global) -> Result<Command<'a>, AllocError>
    ensures app { IfOk result (λ c. app_of c ≡ checker_app) }
    ensures local { IfOk result (λ c. (views.out-Command c).has_globals ≡ false) }
{
    let line = with_command(shower(alloc), assigns(alloc));
    let line = with_command(line, fault(alloc));
    with_command(line, warn(alloc))
}

/// That with the commands that write a book of this month.
fn writer<'a>(alloc: Global) -> Result<Command<'a>, AllocError>
    ensures app { IfOk result (λ c. app_of c ≡ writer_app) }
    ensures local { IfOk result (λ c. (views.out-Command c).has_globals ≡ false) }
{
    let line = with_command(checker(alloc), repair(alloc));
    let line = with_command(line, made_book(alloc));
    with_command(line, fair(alloc))
}

/// The program's command line.
pub(crate) fn desk<'a>(alloc: Global) -> Result<Command<'a>, AllocError>
    ensures app { IfOk result (λ c. app_of c ≡ desk_app) }
    ensures local { IfOk result (λ c. (views.out-Command c).has_globals ≡ false) }
{
    with_command(writer(alloc), carry(alloc))
}
