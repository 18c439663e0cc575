//! The report of a roster.

ghost use Rattle.std.specs.Prelude.{◌≡◌, false, true, length, IfOk, OnOk, IsErrOf};
ghost use Rattle.roster_watched.specs.Watch.{inner_of, has_failed, is_flushed};
ghost use Rattle.roster_model.specs.Costs.{cost_of};
ghost use Rattle.roster_model.specs.Texts.{IsReportOf};
ghost use Rattle.roster_report.specs.Writing.{Writes, WritesPart};

use crate::device::write_whole;
use crate::fault::TextFault;
use crate::lines::{push_amount, push_heading, push_roster};
use crate::said::locks_of;
use roster_problem::Problem;
use roster_values::Roster;
use roster_watched::Watched;
use std::alloc::{AllocError, Global};
use std::io::Write;

/// Writes the report of a roster: a line of the month, one of the cost, one for each person and one
/// more for each who is locked, and one of the pairings that are left open.
pub fn write_report<W: Write>(
    alloc: Global,
    problem: &Problem,
    roster: &Roster,
    writer: &mut Watched<W>,
) -> Result<(), TextFault>
    requires open { has_failed writer.old ≡ false }
    requires covers { length roster.now.places ≡ length problem.now.pairings }
    requires cost { roster.now.cost ≡ cost_of problem.now roster.now.places }
    ensures written { OnOk result (Writes (IsReportOf problem.now roster.now.places)
        (W.contents (inner_of writer.old)) (W.contents (inner_of writer.new))) }
    ensures holds { OnOk result (has_failed writer.new ≡ false) }
    ensures flushed { OnOk result (is_flushed writer.new ≡ true) }
    ensures memory { IsErrOf result TextFault.Memory → writer.new ≡ writer.old }
    ensures device { IsErrOf result TextFault.Device → has_failed writer.new ≡ true }
    ensures prefix { IsErrOf result TextFault.Device
        → WritesPart (IsReportOf problem.now roster.now.places)
        (W.contents (inner_of writer.old)) (W.contents (inner_of writer.new)) }
{
    let text = report(alloc, problem, roster)?;
    write_whole(&text, writer)
}

fn report(alloc: Global, problem: &Problem, roster: &Roster) -> Result<Vec<u8>, AllocError>
    requires covers { length roster.now.places ≡ length problem.now.pairings }
    requires cost { roster.now.cost ≡ cost_of problem.now roster.now.places }
    ensures { IfOk result (λ text. IsReportOf problem.now roster.now.places text.items) }
{
    let places = roster.places.as_slice();
    let locks = locks_of(alloc, problem)?;
    let mut text = Vec::new(alloc);
    push_heading(alloc, &mut text, b"ROSTER", problem.period())?;
    push_amount(alloc, &mut text, b"COST", roster.cost)?;
    push_roster(alloc, &mut text, problem, &locks, places)?;
    Ok(text)
}
