//! A run: a book is read, and its one answer written.

ghost use Rattle.std.specs.Prelude.{◌≡◌, ◌≢◌, ◌↔◌, ◌<◌, ◌≤◌, All, IsErrOf, OnOk, length, true, false};
ghost use Rattle.std.specs.Prelude.{ℕ, IfErr, IfOk, None, option_map, slice_get, Some};
ghost use Rattle.roster_model.specs.Answer.{IsRefusal};
ghost use Rattle.roster_model.specs.Plans.{IsPlanReport};
ghost use Rattle.roster_model.specs.Record.{Check};
ghost use Rattle.roster_model.specs.Settled.{IsHeld};
ghost use Rattle.roster_book.specs.Reading.{OfTold};
ghost use Rattle.roster_plan.specs.Planned.{IsKnown};
ghost use Rattle.roster_watched.specs.Watch.{inner_of, has_failed, is_flushed};
ghost use Rattle.roster_report.specs.Writing.{Writes, WritesPart};
ghost use Rattle.roster_desk_reports.specs.Faults.{IsTold};
ghost use Rattle.roster_desk_reports.specs.Given.{HasAll, IsGiven};
ghost use Rattle.roster_desk_reports.specs.Known.{fault_of_known, known_by_text};
ghost use Rattle.roster_desk_run.specs.Run.{IsAnswerTo, IsFaultLine, IsKnownText, IsPlanFrom, IsPlanOfBook};
ghost use Rattle.roster_desk_run.specs.Run.{IsStartFault, IsStartRefused, IsTextOf, RefusesStart};

use roster_book::{Book, BookFault, Command, Watched, read_book};
use roster_desk_given::Status;
use roster_desk_reports::{ReportFault, read_known_roster, unknown_text};
use roster_plan::{Means, Planned, Watcher, plan};
use roster_problem::Problem;
use roster_report::{TextFault, write_fault, write_plan, write_report};
use roster_values::Places;
use std::alloc::Global;
use std::io::{Read, Write};
use std::thread::Threads;

/// Who is told of a start before the plan begins.
pub trait Starter {
    /// The lines tell which persons and pairings of a report the book doesn't have, as `unknown_text` does.
    fn pass_over(&mut self, lines: &[u8]);
}

/// Reads a book to its end or to its first fault, plans it with these means at most, and writes the one
/// answer. The plan begins with the roster that the report gives, if there is one, and else with the book's
/// assignments. The watcher is told what is known on the way; whatever it does, the answer is one of these.
/// The status tells if that could not be done.
pub fn run<T: Threads + Sync, R: Read, W: Write, P: Watcher + Starter>(
    rt: &T,
    alloc: Global,
    means: &Means,
    report: Option<&[u8]>,
    reader: &mut Watched<R>,
    writer: &mut Watched<W>,
    watcher: &mut P,
) -> Status
    requires workers { 0 < means.now.workers }
    requires reader_open { has_failed reader.old ≡ false }
    requires writer_open { has_failed writer.old ≡ false }

    // A plan of the book in the bytes that the reader told, or the report of its best roster; of some book
    // if its bytes aren't known.
    ensures answered { result ≡ Status.Answered → OfTold (λ records.
        Writes (IsPlanOfBook (option_map (λ bytes. bytes.now) report.entry) records)
        (W.contents (inner_of writer.old)) (W.contents (inner_of writer.new)))
        (R.remaining (inner_of reader.old)) }
    // The line of the first fault in those bytes, as a check tells it.
    ensures refused { result ≡ Status.Refused → OfTold (λ records. Writes (IsRefusal Check records)
        (W.contents (inner_of writer.old)) (W.contents (inner_of writer.new)))
        (R.remaining (inner_of reader.old)) }
    // The first bytes of one of them.
    ensures part { result ≡ Status.WriteFailed
        → OfTold (λ records. WritesPart (IsAnswerTo (option_map (λ bytes. bytes.now) report.entry) records)
        (W.contents (inner_of writer.old)) (W.contents (inner_of writer.new)))
        (R.remaining (inner_of reader.old)) }

    // Nothing is kept back.
    ensures flushed { (result ≡ Status.Answered → is_flushed writer.new ≡ true)
        × (result ≡ Status.Refused → is_flushed writer.new ≡ true) }

    // A device's failure is told if it happened, and only then.
    ensures read_failed { (result ≡ Status.ReadFailed) ↔ (has_failed reader.new ≡ true) }
    ensures write_failed { (result ≡ Status.WriteFailed) ↔ (has_failed writer.new ≡ true) }

    // Nothing was written.
    ensures memory { result ≡ Status.Memory → writer.new ≡ writer.old }
    ensures unread_unwritten { result ≡ Status.ReadFailed → writer.new ≡ writer.old }
    ensures start_refused { IsStartRefused result → writer.new ≡ writer.old }

    // Only a report is refused so, for what is wrong with it as one of the book, which has no fault.
    ensures start_wrong { IsStartRefused result
        → OfTold (IsStartFault (option_map (λ bytes. bytes.now) report.entry) result)
        (R.remaining (inner_of reader.old)) }

    // It is for others to say that a reader has stopped.
    ensures others { result ≢ Status.Closed }
{
    match read_book(alloc, reader, Command::Check) {
        Ok(book) => answer(rt, alloc, means, report, &book, writer, watcher),
        Err(BookFault::At { row, code }) => refuse(alloc, row, code, writer),
        Err(BookFault::Device) => Status::ReadFailed,
        Err(BookFault::Memory) => Status::Memory,
    }
}

/// Writes the line of a fault.
fn refuse<W: Write>(alloc: Global, row: usize, code: u8, writer: &mut Watched<W>) -> Status
    requires { has_failed writer.old ≡ false }
    ensures refused { result ≡ Status.Refused → Writes (IsFaultLine row code)
        (W.contents (inner_of writer.old)) (W.contents (inner_of writer.new)) }
    ensures part { result ≡ Status.WriteFailed → WritesPart (IsFaultLine row code)
        (W.contents (inner_of writer.old)) (W.contents (inner_of writer.new)) }
    ensures write_failed { (result ≡ Status.WriteFailed) ↔ (has_failed writer.new ≡ true) }
    ensures flushed { result ≡ Status.Refused → is_flushed writer.new ≡ true }
    ensures memory { result ≡ Status.Memory → writer.new ≡ writer.old }
    ensures start_refused { ¬ IsStartRefused result }
    ensures others { (result ≢ Status.Answered) × (result ≢ Status.ReadFailed) × (result ≢ Status.Closed) }
{
    match write_fault(alloc, row, code, writer) {
        Ok(()) => Status::Refused,
        Err(TextFault::Memory) => Status::Memory,
        Err(TextFault::Device) => Status::WriteFailed,
    }
}

/// The roster that the report gives, as `read_known_roster` does. What it passes over is told.
fn start_of<P: Starter>(
    alloc: Global,
    problem: &Problem,
    report: &[u8],
    starter: &mut P,
) -> Result<Places, ReportFault>
    ensures covers { IfOk result (λ places. length places ≡ length problem.now.pairings) }
    ensures numbers { IfOk result
        (λ places. All (λ x. x ≤ length problem.now.persons) places) }
    ensures has { IfOk result
        (λ places. HasAll problem.now places (known_by_text problem.now report.now)) }
    ensures given { IfOk result (λ places. (p k : ℕ) → k < length problem.now.persons
        → slice_get places p ≡ Some k
        → IsGiven problem.now (known_by_text problem.now report.now) p k) }
    ensures sound { IfOk result (λ _. fault_of_known problem.now report.now ≡ None) }
    ensures fault { IfErr result (IsTold (fault_of_known problem.now report.now)) }
{
    match read_known_roster(alloc, problem, report) {
        Ok(places) => {
            // What was read once is read again, so nothing but memory can be wanting.
            let unknown = unknown_text(alloc, problem, report)?;
            starter.pass_over(unknown.as_slice());
            Ok(places)
        }
        Err(fault) => Err(fault),
    }
}

/// Plans a book in which no record has a fault, and writes what was found.
fn answer<T: Threads + Sync, W: Write, P: Watcher + Starter>(
    rt: &T,
    alloc: Global,
    means: &Means,
    report: Option<&[u8]>,
    book: &Book,
    writer: &mut Watched<W>,
    watcher: &mut P,
) -> Status
    requires workers { 0 < means.now.workers }
    requires open { has_failed writer.old ≡ false }
    requires covers { length book.now.assigned ≡ length book.now.problem.pairings }
    requires numbers { All (λ x. x ≤ length book.now.problem.persons) book.now.assigned }
    ensures answered { result ≡ Status.Answered → Writes
        (IsPlanFrom (option_map (λ bytes. bytes.now) report.entry) book.now.problem book.now.assigned)
        (W.contents (inner_of writer.old)) (W.contents (inner_of writer.new)) }
    ensures part { result ≡ Status.WriteFailed → WritesPart
        (IsPlanFrom (option_map (λ bytes. bytes.now) report.entry) book.now.problem book.now.assigned)
        (W.contents (inner_of writer.old)) (W.contents (inner_of writer.new)) }
    ensures write_failed { (result ≡ Status.WriteFailed) ↔ (has_failed writer.new ≡ true) }
    ensures flushed { result ≡ Status.Answered → is_flushed writer.new ≡ true }
    ensures memory { result ≡ Status.Memory → writer.new ≡ writer.old }
    ensures start_refused { IsStartRefused result → writer.new ≡ writer.old }
    ensures start_wrong { IsStartRefused result
        → RefusesStart book.now.problem (option_map (λ bytes. bytes.now) report.entry) result }
    ensures others { (result ≢ Status.Refused) × (result ≢ Status.ReadFailed) × (result ≢ Status.Closed) }
{
    let problem = &book.problem;
    let Some(report) = report else {
        let start = book.assigned.as_slice();
        return answer_from(rt, alloc, means, problem, start, writer, watcher);
    };
    match start_of(alloc, problem, report, watcher) {
        Ok(start) => answer_from(rt, alloc, means, problem, start.as_slice(), writer, watcher),
        Err(ReportFault::At { line, wrong }) => Status::StartRefused { line, wrong },
        Err(ReportFault::Memory) => Status::Memory,
    }
}

/// Writes a plan that begins with these places.
fn answer_from<T: Threads + Sync, W: Write, P: Watcher>(
    rt: &T,
    alloc: Global,
    means: &Means,
    problem: &Problem,
    start: &[u16],
    writer: &mut Watched<W>,
    watcher: &mut P,
) -> Status
    requires workers { 0 < means.now.workers }
    requires open { has_failed writer.old ≡ false }
    requires covers { length start.now ≡ length problem.now.pairings }
    requires numbers { All (λ x. x ≤ length problem.now.persons) start.now }
    ensures answered { result ≡ Status.Answered → Writes (IsPlanReport problem.now start.now)
        (W.contents (inner_of writer.old)) (W.contents (inner_of writer.new)) }
    ensures part { result ≡ Status.WriteFailed → WritesPart (IsPlanReport problem.now start.now)
        (W.contents (inner_of writer.old)) (W.contents (inner_of writer.new)) }
    ensures write_failed { (result ≡ Status.WriteFailed) ↔ (has_failed writer.new ≡ true) }
    ensures flushed { result ≡ Status.Answered → is_flushed writer.new ≡ true }
    ensures memory { result ≡ Status.Memory → writer.new ≡ writer.old }
    ensures start_refused { ¬ IsStartRefused result }
    ensures others { (result ≢ Status.Refused) × (result ≢ Status.ReadFailed) × (result ≢ Status.Closed) }
{
    let Ok(planned) = plan(rt, alloc, problem, start, means, watcher) else {
        return Status::Memory;
    };
    match write_planned(alloc, problem, &planned, writer) {
        Ok(()) => Status::Answered,
        Err(TextFault::Memory) => Status::Memory,
        Err(TextFault::Device) => Status::WriteFailed,
    }
}

/// Writes what is known of a plan: the report of its roster if that is the best one, and else its lines with
/// the bound.
pub fn write_known<W: Write>(
    alloc: Global,
    problem: &Problem,
    planned: &Planned,
    writer: &mut Watched<W>,
) -> Result<(), TextFault>
    requires open { has_failed writer.old ≡ false }
    requires known { IsKnown problem.now planned.now }
    ensures written { OnOk result (Writes (IsKnownText problem.now)
        (W.contents (inner_of writer.old)) (W.contents (inner_of writer.new))) }
    ensures holds { OnOk result (has_failed writer.new ≡ false) }
    ensures flushed { OnOk result (is_flushed writer.new ≡ true) }
    ensures memory { IsErrOf result TextFault.Memory → writer.new ≡ writer.old }
    ensures device { IsErrOf result TextFault.Device → has_failed writer.new ≡ true }
    ensures prefix { IsErrOf result TextFault.Device → WritesPart (IsKnownText problem.now)
        (W.contents (inner_of writer.old)) (W.contents (inner_of writer.new)) }
{
    write_planned(alloc, problem, planned, writer)
}

/// Writes a plan: the report of its roster if that is the best one, and else its lines with the bound. That
/// the one is the best and the other a bound is the word of whoever gives them.
fn write_planned<W: Write>(
    alloc: Global,
    problem: &Problem,
    planned: &Planned,
    writer: &mut Watched<W>,
) -> Result<(), TextFault>
    requires open { has_failed writer.old ≡ false }
    requires held { IsHeld problem.now planned.now.roster }
    ensures written { OnOk result (Writes (IsTextOf problem.now planned.now)
        (W.contents (inner_of writer.old)) (W.contents (inner_of writer.new))) }
    ensures holds { OnOk result (has_failed writer.new ≡ false) }
    ensures flushed { OnOk result (is_flushed writer.new ≡ true) }
    ensures memory { IsErrOf result TextFault.Memory → writer.new ≡ writer.old }
    ensures device { IsErrOf result TextFault.Device → has_failed writer.new ≡ true }
    ensures prefix { IsErrOf result TextFault.Device → WritesPart (IsTextOf problem.now planned.now)
        (W.contents (inner_of writer.old)) (W.contents (inner_of writer.new)) }
{
    if planned.is_best {
        return write_report(alloc, problem, &planned.roster, writer);
    }
    write_plan(alloc, problem, &planned.roster, planned.bound, writer)
}
