//! What standard error is told.

ghost use Rattle.std.specs.Prelude.{◌≡◌, ◌++◌, ◌∷◌, [], Some, codes};
ghost use Rattle.roster_report.specs.Writing.{TellsLine};
ghost use Rattle.roster_desk_program.specs.Ending.{named_text};
ghost use Rattle.roster_desk_program.specs.Program.{TellsEnding};

use crate::ending::Ending;
use roster_report::{tell_line, tell_text};
use roster_watched::Watched;
use std::io::Write;

/// Tells how the plan ended, but for the line of a report that is refused.
pub(crate) fn tell<E: Write>(ending: Ending<'_>, errors: &mut Watched<E>)
    ensures { TellsEnding E.contents ending.entry errors.old errors.new }
{
    match ending {
        Ending::Planned | Ending::Faulty | Ending::StartRefused { .. } => {}
        Ending::Unkept | Ending::Forgotten => {}
        Ending::TooLong(path) => tell_named(path, " is too long for a report", errors),
        Ending::Unopened(path) => tell_named(path, " can't be opened", errors),
        Ending::Unread(path) => tell_named(path, " can't be read", errors),
        Ending::InPlace => tell_line("error: a plan can't be kept in its book or in -", errors),
        Ending::Shared => tell_line("error: only one of the paths may be -", errors),
        Ending::Memory => tell_line("error: memory", errors),
        Ending::InputUnread => tell_line("error: read", errors),
        Ending::Unwritten => tell_line("error: write", errors),
    }
}

/// Tells a path and what is wrong with it, as a line.
fn tell_named<E: Write>(path: &str, wrong: &str, errors: &mut Watched<E>)
    ensures { TellsLine E.contents (Some (named_text path.now wrong.now)) errors.old errors.new }
{
    tell_text("error: ", errors);
    tell_text(path, errors);
    tell_line(wrong, errors);
}
