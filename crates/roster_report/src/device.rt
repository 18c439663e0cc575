//! What a writer takes of a text, and writing one whole.

ghost use Rattle.std.specs.Prelude.{◌≡◌, false, true, not, OnOk, OnErr};
ghost use Rattle.std.specs.Io.KnownBytes.{Appends};
ghost use Rattle.roster_watched.specs.Watch.{inner_of, has_failed, is_flushed};
ghost use Rattle.roster_report.specs.Writing.{AppendsPrefix};

use crate::fault::TextFault;
use roster_watched::Watched;
use std::io::Write;

/// Writes the whole text, and then flushes. An interrupted write is a failure too.
pub(crate) fn write_whole<W: Write>(text: &[u8], writer: &mut Watched<W>) -> Result<(), TextFault>
    requires open { has_failed writer.old ≡ false }
    ensures written { OnOk result (Appends (W.contents (inner_of writer.old))
        (W.contents (inner_of writer.new)) text.now) }
    ensures holds { OnOk result (has_failed writer.new ≡ false) }
    ensures flushed { OnOk result (is_flushed writer.new ≡ true) }
    ensures device { OnErr result (result ≡ Err TextFault.Device) }
    ensures failed { OnErr result (has_failed writer.new ≡ true) }
    ensures prefix { OnErr result (AppendsPrefix (W.contents (inner_of writer.old))
        (W.contents (inner_of writer.new)) text.now) }
{
    if !takes(text, writer) {
        return Err(TextFault::Device);
    }
    match writer.flush() {
        Ok(()) => Ok(()),
        Err(_) => Err(TextFault::Device),
    }
}

/// Whether the writer took the bytes; an interrupted write is a failure too.
pub(crate) fn takes<W: Write>(text: &[u8], writer: &mut Watched<W>) -> bool
    requires { has_failed writer.old ≡ false }
    ensures taken { result ≡ true → Appends (W.contents (inner_of writer.old))
        (W.contents (inner_of writer.new)) text.now }
    ensures part { AppendsPrefix (W.contents (inner_of writer.old))
        (W.contents (inner_of writer.new)) text.now }
    ensures failed { has_failed writer.new ≡ not result }
{
    let mut taken = 0;
    while taken < text.len() {
        match writer.write(&text[taken..]) {
            Ok(more) if more > 0 => taken += more,
            _ => return false,
        }
    }
    true
}
