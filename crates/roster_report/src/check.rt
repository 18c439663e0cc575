//! What a check says of a roster.

ghost use Rattle.std.specs.Prelude.{◌≡◌, ◌≤◌, false, true, length, All, IfOk, OnOk, IsErrOf};
ghost use Rattle.roster_watched.specs.Watch.{inner_of, has_failed, is_flushed};
ghost use Rattle.roster_model.specs.Texts.{IsCheckOf};
ghost use Rattle.roster_report.specs.Writing.{Writes, WritesPart};

use crate::device::write_whole;
use crate::fault::TextFault;
use crate::lines::{push_amount, push_heading, push_verdicts};
use crate::said::{locks_of, verdicts_of};
use roster_cost::roster_cost;
use roster_problem::Problem;
use roster_watched::Watched;
use std::alloc::{AllocError, Global};
use std::io::Write;

/// Writes what a check says of a roster, which may be illegal: a line of the month, one of the cost, and
/// one for each person, which tells the first rule that they break with their set, and one more for each
/// who is locked. The places are a number for each pairing: that of a person, or of nobody.
pub fn write_check<W: Write>(
    alloc: Global,
    problem: &Problem,
    places: &[u16],
    writer: &mut Watched<W>,
) -> Result<(), TextFault>
    requires open { has_failed writer.old ≡ false }
    requires covers { length places.now ≡ length problem.now.pairings }
    requires numbers { All (λ x. x ≤ length problem.now.persons) places.now }
    ensures written { OnOk result (Writes (IsCheckOf problem.now places.now)
        (W.contents (inner_of writer.old)) (W.contents (inner_of writer.new))) }
    ensures holds { OnOk result (has_failed writer.new ≡ false) }
    ensures flushed { OnOk result (is_flushed writer.new ≡ true) }
    ensures memory { IsErrOf result TextFault.Memory → writer.new ≡ writer.old }
    ensures device { IsErrOf result TextFault.Device → has_failed writer.new ≡ true }
    ensures prefix { IsErrOf result TextFault.Device
        → WritesPart (IsCheckOf problem.now places.now)
        (W.contents (inner_of writer.old)) (W.contents (inner_of writer.new)) }
{
    let text = check(alloc, problem, places)?;
    write_whole(&text, writer)
}

fn check(alloc: Global, problem: &Problem, places: &[u16]) -> Result<Vec<u8>, AllocError>
    requires covers { length places.now ≡ length problem.now.pairings }
    requires numbers { All (λ x. x ≤ length problem.now.persons) places.now }
    ensures { IfOk result (λ text. IsCheckOf problem.now places.now text.items) }
{
    let locks = locks_of(alloc, problem)?;
    let verdicts = verdicts_of(alloc, problem, places)?;
    let mut text = Vec::new(alloc);
    push_heading(alloc, &mut text, b"CHECK", problem.period())?;
    push_amount(alloc, &mut text, b"COST", roster_cost(problem, places))?;
    let (locked, broken) = (locks.as_slice(), verdicts.as_slice());
    push_verdicts(&mut text, problem, locked, broken)?;
    Ok(text)
}
