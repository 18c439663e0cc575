//! The plan of a line, and how that ends.

ghost use Rattle.std.specs.Prelude.{◌≡◌, ◌≢◌, ◌⊎◌, IfOk, option_map, true, false};
ghost use Rattle.roster_watched.specs.Watch.{has_failed};
ghost use Rattle.roster_desk_program.specs.Ending.{EndsRun, HasCause, IsEnding, IsMissed, IsOfBook, IsUnread};
ghost use Rattle.roster_desk_program.specs.Ending.{IsWrongLine, KeepsInPlace, OfReport, SharesInput, TellsPath, start_of};
ghost use Rattle.roster_desk_program.specs.Files.{has_missed, shelf_of};
ghost use Rattle.roster_desk_program.specs.Keeping.{IsLent, is_lost, keep_of};

use crate::ending::Ending;
use crate::files::{Files, STANDARD_INPUT, Shelf, Unread};
use crate::keeping::{Keeper, Keeping, Kept, KeptFile};
use crate::means::{means_of, processors};
use roster_desk_arguments::PlanLine;
use roster_desk_run::{Starter, Status, run};
use roster_plan::Watcher;
use roster_watched::Watched;
use std::alloc::{AllocError, Global};
use std::io::Write;
use std::thread::Threads;

/// Plans the book of the line, from the roster of its report if it names one, and keeps what is known on the
/// way if the line says where. The watcher is told what is known, too.
pub fn plan_line<'a, T: Threads + Sync, S: Shelf, W: Write, P: Watcher + Starter + Keeping>(
    rt: &T,
    alloc: Global,
    line: &PlanLine<'a>,
    files: &mut Files<S>,
    writer: &mut Watched<W>,
    watcher: &mut P,
) -> Ending<'a>
    requires files_good { has_missed files.old ≡ false }
    requires writer_open { has_failed writer.old ≡ false }

    // What was written of the book at the line's path, and of the report at its other path.
    ensures ends { OfReport (λ report. IsEnding W.contents
        (S.bytes_at (shelf_of files.old) line.now.book.now) report writer.old writer.new result)
        (S.bytes_at (shelf_of files.old)) (start_of line.now) }
    // Why no plan was asked for. Then no file was opened.
    ensures wrong { IsWrongLine (S.may_take (shelf_of files.old)) line.now result }
    ensures unopened { (result ≡ Ending.InPlace → files.new ≡ files.old)
        × (result ≡ Ending.Shared → files.new ≡ files.old) }
    // A line that names one file twice is refused. Memory may run out first.
    ensures in_place { KeepsInPlace (S.must_take (shelf_of files.old)) line.now
        → (result ≡ Ending.InPlace) ⊎ (result ≡ Ending.Memory) }
    ensures shared { SharesInput line.now
        → (result ≡ Ending.InPlace) ⊎ (result ≡ Ending.Shared) ⊎ (result ≡ Ending.Memory) }
    // Which file is told, and that it is too long.
    ensures path { TellsPath (S.bytes_at (shelf_of files.old)) line.now result }
    // No file is told as failed that is known to be there.
    ensures cause { HasCause (S.must_open (shelf_of files.old)) S.Keep.has_refused result }
    // Only the file in which the line keeps the plan is lent, if it names one, and only for texts of known
    // plans.
    ensures lent { IsLent S.lends (keep_of line.now) (shelf_of files.old) (shelf_of files.new) }
    // A file's failure is told if it happened, and only then; but a writer's is told first.
    ensures missed { IsMissed result → has_missed files.new ≡ true }
    ensures tells { has_missed files.new ≡ true
        → (IsMissed result) ⊎ (result ≡ Ending.Unwritten) }
{
    match keeps_in_place(line, files) {
        Ok(false) => {}
        Ok(true) => return Ending::InPlace,
        Err(AllocError) => return Ending::Memory,
    }
    let Some(path) = line.start else {
        return plan_from(rt, alloc, line, None, files, writer, watcher);
    };
    if line.book == STANDARD_INPUT && path == STANDARD_INPUT {
        return Ending::Shared;
    }
    match files.read_report(alloc, path) {
        Ok(report) => plan_from(
            rt,
            alloc,
            line,
            Some(report.as_slice()),
            files,
            writer,
            watcher,
        ),
        Err(Unread::Unopened) => Ending::Unopened(path),
        Err(Unread::Broken) => unread(path),
        Err(Unread::TooLong) => Ending::TooLong(path),
        Err(Unread::Memory) => Ending::Memory,
    }
}

/// Whether the file that is to keep the plan, if there is one, is standard input or takes the book's place.
fn keeps_in_place<S: Shelf>(line: &PlanLine<'_>, files: &Files<S>) -> Result<bool, AllocError>
    ensures yes { IfOk result (λ yes. yes ≡ true
        → KeepsInPlace (S.may_take (shelf_of files.now)) line.now) }
    ensures no { IfOk result (λ yes. yes ≡ false
        → ¬ KeepsInPlace (S.must_take (shelf_of files.now)) line.now) }
{
    let Some(path) = line.keep else {
        return Ok(false);
    };
    if path == STANDARD_INPUT || path == line.book {
        return Ok(true);
    }
    files.takes(path, line.book)
}

/// Plans the book of the line, from the roster of the report if there is one.
fn plan_from<'a, T: Threads + Sync, S: Shelf, W: Write, P: Watcher + Starter + Keeping>(
    rt: &T,
    alloc: Global,
    line: &PlanLine<'a>,
    report: Option<&[u8]>,
    files: &mut Files<S>,
    writer: &mut Watched<W>,
    watcher: &mut P,
) -> Ending<'a>
    requires files_good { has_missed files.old ≡ false }
    requires writer_open { has_failed writer.old ≡ false }
    ensures ends { IsEnding W.contents (S.bytes_at (shelf_of files.old) line.now.book.now)
        (option_map (λ bytes. bytes.now) report.entry) writer.old writer.new result }
    ensures of_book { IsOfBook line.now result }
    ensures cause { HasCause (S.must_open (shelf_of files.old)) S.Keep.has_refused result }
    ensures lent { IsLent S.lends (keep_of line.now) (shelf_of files.old) (shelf_of files.new) }
    ensures missed { IsMissed result → has_missed files.new ≡ true }
    ensures tells { has_missed files.new ≡ true
        → (IsMissed result) ⊎ (result ≡ Ending.Unwritten) }
{
    let mut reader = match files.open(line.book) {
        Ok(reader) => reader,
        Err(Unread::Memory) => return Ending::Memory,
        Err(_) => return Ending::Unopened(line.book),
    };
    let Ok(slot) = files.lend(line.keep) else {
        return Ending::Memory;
    };
    let means = means_of(line, processors(rt));
    let mut keeper = Keeper {
        alloc,
        file: file_of(line, slot),
        watcher: &mut *watcher,
    };
    let status = run(rt, alloc, &means, report, &mut reader, writer, &mut keeper);
    let kept = keeper.state();
    drop(keeper);
    watcher.finish();
    files.close(&reader);
    files.count(kept);
    ending_of(line, status, kept)
}

/// The file in which the line keeps the plan, if there is a slot for it.
fn file_of<'a, K: Drop>(line: &PlanLine<'a>, slot: Option<K>) -> Option<KeptFile<'a, K>> {
    match (line.keep, slot) {
        (Some(path), Some(slot)) => Some(KeptFile {
            path,
            slot,
            is_short: false,
        }),
        _ => None,
    }
}

/// How a run ends over the line's book that ended with this status, with what became of the file that keeps
/// the plan.
fn ending_of<'a>(line: &PlanLine<'a>, status: Status, kept: Kept) -> Ending<'a>
    ensures run { EndsRun status result }
    ensures of_book { IsOfBook line.now result }
    ensures unkept { result ≡ Ending.Unkept → kept ≡ Kept.Refused }
    ensures missed { IsMissed result → (is_lost kept ≡ true) ⊎ (status ≡ Status.ReadFailed) }
    ensures tells { (is_lost kept ≡ true) ⊎ (status ≡ Status.ReadFailed)
        → (IsMissed result) ⊎ (result ≡ Ending.Unwritten) }
{
    match (status, kept) {
        (Status::ReadFailed, _) => unread(line.book),
        (Status::WriteFailed | Status::Closed, _) => Ending::Unwritten,
        (_, Kept::Refused) => Ending::Unkept,
        (_, Kept::Short) => Ending::Forgotten,
        (Status::Memory, Kept::Fine) => Ending::Memory,
        (Status::Answered, Kept::Fine) => Ending::Planned,
        (Status::Refused, Kept::Fine) => Ending::Faulty,
        (Status::StartRefused { line, wrong }, Kept::Fine) => Ending::StartRefused { line, wrong },
    }
}

/// The file at the path, or standard input, can't be read.
fn unread(path: &str) -> Ending<'_>
    ensures { IsUnread path.now result }
{
    if path == STANDARD_INPUT {
        return Ending::InputUnread;
    }
    Ending::Unread(path)
}
