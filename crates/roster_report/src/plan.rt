//! The plan of a month: a roster, and a number that no roster costs less than.

ghost use Rattle.std.specs.Prelude.{◌≡◌, false, true, length, IfOk, OnOk, IsErrOf};
ghost use Rattle.roster_watched.specs.Watch.{inner_of, has_failed, is_flushed};
ghost use Rattle.roster_model.specs.Costs.{cost_of};
ghost use Rattle.roster_model.specs.Texts.{IsPlanOf};
ghost use Rattle.roster_report.specs.Writing.{Writes, WritesPart};

use crate::device::write_whole;
use crate::fault::TextFault;
use crate::lines::{push_amount, push_heading, push_roster};
use crate::said::locks_of;
use roster_problem::Problem;
use roster_values::Roster;
use roster_watched::Watched;
use std::alloc::{AllocError, Global};
use std::io::Write;

/// Writes a plan: the lines of the roster's report, and behind its cost a line of the bound, in cost
/// units. That the bound is one is the word of whoever gives it.
pub fn write_plan<W: Write>(
    alloc: Global,
    problem: &Problem,
    roster: &Roster,
    bound: i64,
    writer: &mut Watched<W>,
) -> Result<(), TextFault>
    requires open { has_failed writer.old ≡ false }
    requires covers { length roster.now.places ≡ length problem.now.pairings }
    requires cost { roster.now.cost ≡ cost_of problem.now roster.now.places }
    ensures written { OnOk result (Writes (IsPlanOf problem.now bound roster.now.places)
        (W.contents (inner_of writer.old)) (W.contents (inner_of writer.new))) }
    ensures holds { OnOk result (has_failed writer.new ≡ false) }
    ensures flushed { OnOk result (is_flushed writer.new ≡ true) }
    ensures memory { IsErrOf result TextFault.Memory → writer.new ≡ writer.old }
    ensures device { IsErrOf result TextFault.Device → has_failed writer.new ≡ true }
    ensures prefix { IsErrOf result TextFault.Device
        → WritesPart (IsPlanOf problem.now bound roster.now.places)
        (W.contents (inner_of writer.old)) (W.contents (inner_of writer.new)) }
{
    let text = plan_text(alloc, problem, roster, bound)?;
    write_whole(&text, writer)
}

fn plan_text(
    alloc: Global,
    problem: &Problem,
    roster: &Roster,
    bound: i64,
) -> Result<Vec<u8>, AllocError>
    requires covers { length roster.now.places ≡ length problem.now.pairings }
    requires cost { roster.now.cost ≡ cost_of problem.now roster.now.places }
    ensures { IfOk result (λ text. IsPlanOf problem.now bound roster.now.places text.items) }
{
    let places = roster.places.as_slice();
    let locks = locks_of(alloc, problem)?;
    let mut text = Vec::new(alloc);
    push_heading(alloc, &mut text, b"PLAN", problem.period())?;
    push_amount(alloc, &mut text, b"COST", roster.cost)?;
    push_amount(alloc, &mut text, b"BOUND", bound)?;
    push_roster(alloc, &mut text, problem, &locks, places)?;
    Ok(text)
}
