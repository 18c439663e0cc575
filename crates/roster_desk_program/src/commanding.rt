//! The command `plan`, with what standard error is told and the exit status.

ghost use Rattle.std.specs.Prelude.{◌≡◌, ◌≤◌, ◌⊎◌, ◌↔◌, true, false};
ghost use Rattle.std.specs.Process.{exit_status};
ghost use Rattle.roster_book.specs.Reading.{OfTold};
ghost use Rattle.roster_watched.specs.Watch.{has_failed, inner_of, is_flushed};
ghost use Rattle.roster_report.specs.Writing.{Writes};
ghost use Rattle.roster_desk_run.specs.Run.{IsPlanOfBook};
ghost use Rattle.roster_desk_program.specs.Ending.{HasCause, IsEnding, IsMissed, IsWrongLine, OfReport, TellsPath};
ghost use Rattle.roster_desk_program.specs.Ending.{KeepsInPlace, SharesInput, start_of};
ghost use Rattle.roster_desk_program.specs.Files.{has_missed, shelf_of};
ghost use Rattle.roster_desk_program.specs.Keeping.{IsLent, keep_of};
ghost use Rattle.roster_desk_program.specs.Program.{EndsAs, TellsEnding};

use crate::ending::Ending;
use crate::files::{Files, Shelf};
use crate::keeping::Keeping;
use crate::planning::plan_line;
use crate::telling::tell;
use roster_desk_arguments::PlanLine;
use roster_desk_run::Starter;
use roster_plan::Watcher;
use roster_watched::Watched;
use std::alloc::Global;
use std::io::Write;
use std::process::ExitCode;
use std::thread::Threads;

/// Plans the book of the line, tells `errors` why there is no plan, and gives the exit status. If `errors`
/// fails, the status is the same.
pub fn program<T: Threads + Sync, S: Shelf, W: Write, E: Write, P: Watcher + Starter + Keeping>(
    rt: &T,
    alloc: Global,
    line: &PlanLine<'_>,
    files: &mut Files<S>,
    writer: &mut Watched<W>,
    errors: &mut Watched<E>,
    watcher: &mut P,
) -> ExitCode
    requires files_good { has_missed files.old ≡ false }
    requires writer_open { has_failed writer.old ≡ false }

    // It ends as a plan may: what was written of the bytes at the line's paths, why none was asked for, which
    // file is told and for what cause, and what standard error is told.
    ensures ended { EndsAs (exit_status result) (λ ending. OfReport (λ report. IsEnding W.contents
        (S.bytes_at (shelf_of files.old) line.now.book.now) report writer.old writer.new ending)
        (S.bytes_at (shelf_of files.old)) (start_of line.now)
        × IsWrongLine (S.may_take (shelf_of files.old)) line.now ending
        × TellsPath (S.bytes_at (shelf_of files.old)) line.now ending
        × HasCause (S.must_open (shelf_of files.old)) S.Keep.has_refused ending
        × TellsEnding E.contents ending errors.old errors.new) }
    // Status 0: a plan of the book's bytes, begun with the report's, was written whole and flushed.
    ensures answered { exit_status result ≡ 0 → OfReport (λ report. OfTold (λ records.
        Writes (IsPlanOfBook report records)
        (W.contents (inner_of writer.old)) (W.contents (inner_of writer.new)))
        (S.bytes_at (shelf_of files.old) line.now.book.now))
        (S.bytes_at (shelf_of files.old)) (start_of line.now) }
    ensures flushed { exit_status result ≡ 0 → is_flushed writer.new ≡ true }
    // For a line that is refused nothing was read.
    ensures unasked { exit_status result ≡ 2 → (files.new ≡ files.old) × (writer.new ≡ writer.old) }
    // A line that names one file twice is refused. Memory may run out first.
    ensures in_place { KeepsInPlace (S.must_take (shelf_of files.old)) line.now
        → (exit_status result ≡ 2) ⊎ (exit_status result ≡ 3) }
    ensures shared { SharesInput line.now → (exit_status result ≡ 2) ⊎ (exit_status result ≡ 3) }
    ensures memory { exit_status result ≡ 3 → writer.new ≡ writer.old }
    // Only the file in which the line keeps the plan is lent, if it names one, and only for texts of known
    // plans.
    ensures lent { IsLent S.lends (keep_of line.now) (shelf_of files.old) (shelf_of files.new) }
    // A failure is told if it happened, and only then.
    ensures failed { (exit_status result ≡ 4)
        ↔ ((has_missed files.new ≡ true) ⊎ (has_failed writer.new ≡ true)) }
    ensures limited { exit_status result ≤ 4 }
{
    let ending = plan_line(rt, alloc, line, files, writer, watcher);
    tell(ending, errors);
    if let (Some(path), Ending::StartRefused { line, wrong }) = (line.start, ending) {
        let _ = writeln!(errors, "error: {path}, line {line}: {wrong}");
    }
    ending.exit_code()
}
