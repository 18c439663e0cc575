//! The line of a fault.

ghost use Rattle.std.specs.Prelude.{◌≡◌, false, true, IfOk, OnOk, IsErrOf, string_bytes};
ghost use Rattle.std.specs.Io.KnownBytes.{Appends};
ghost use Rattle.roster_watched.specs.Watch.{inner_of, has_failed, is_flushed};
ghost use Rattle.roster_model.specs.Texts.{fault_text};
ghost use Rattle.roster_report.specs.Writing.{AppendsPrefix};

use crate::device::write_whole;
use crate::fault::TextFault;
use roster_watched::Watched;
use std::alloc::{AllocError, Global};
use std::io::Write;

/// Writes the line of a fault: the number of the record from 1, and what is wrong with it.
pub fn write_fault<W: Write>(
    alloc: Global,
    row: usize,
    code: u8,
    writer: &mut Watched<W>,
) -> Result<(), TextFault>
    requires open { has_failed writer.old ≡ false }
    ensures written { OnOk result (Appends (W.contents (inner_of writer.old))
        (W.contents (inner_of writer.new)) (fault_text (record { row = row; code = code }))) }
    ensures holds { OnOk result (has_failed writer.new ≡ false) }
    ensures flushed { OnOk result (is_flushed writer.new ≡ true) }
    ensures memory { IsErrOf result TextFault.Memory → writer.new ≡ writer.old }
    ensures device { IsErrOf result TextFault.Device → has_failed writer.new ≡ true }
    ensures prefix { IsErrOf result TextFault.Device → AppendsPrefix
        (W.contents (inner_of writer.old)) (W.contents (inner_of writer.new))
        (fault_text (record { row = row; code = code })) }
{
    let line = fault_line(alloc, row, code)?;
    write_whole(line.as_bytes(), writer)
}

#[tactic(auto, unfolding(roster_model::specs::Texts::fault_text))]
fn fault_line(alloc: Global, row: usize, code: u8) -> Result<String, AllocError>
    ensures { IfOk result (λ line. string_bytes line
        ≡ fault_text (record { row = row; code = code })) }
{
    format!(in alloc; "FAULT {row} {code}\n")
}
