//! A text that is written, and how that ends.

ghost use Rattle.std.specs.Prelude.{◌≡◌, OnErr, OnOk, true};
ghost use Rattle.std.specs.Io.KnownBytes.{Appends};
ghost use Rattle.roster_watched.specs.Watch.{has_failed, inner_of, is_flushed};
ghost use Rattle.roster_report.specs.Writing.{AppendsPrefix};
ghost use Rattle.roster_desk_answers.specs.Ending.{Ends, Nothing};

use roster_desk_given::Status;
use roster_watched::Watched;
use std::io;
use std::io::Write;

/// Writes the whole text, and then flushes. An interrupted write is a failure too.
pub(crate) fn write<W: Write>(text: &[u8], writer: &mut Watched<W>) -> Status
    ensures { Ends W.contents (λ written. written ≡ text.now) Nothing writer.old writer.new result }
{
    match give_whole(text, writer) {
        Ok(()) => Status::Answered,
        Err(error) if error.kind() == io::ErrorKind::BrokenPipe => Status::Closed,
        Err(_) => Status::WriteFailed,
    }
}

/// Gives the writer the bytes, as far as it takes them, and then flushes.
fn give_whole<W: Write>(text: &[u8], writer: &mut Watched<W>) -> io::Result<()>
    ensures written { OnOk result (Appends (W.contents (inner_of writer.old))
        (W.contents (inner_of writer.new)) text.now) }
    ensures flushed { OnOk result (is_flushed writer.new ≡ true) }
    ensures goes { OnOk result (has_failed writer.new ≡ has_failed writer.old) }
    ensures part { OnErr result (AppendsPrefix (W.contents (inner_of writer.old))
        (W.contents (inner_of writer.new)) text.now) }
    ensures failed { OnErr result (has_failed writer.new ≡ true) }
{
    give(text, writer)?;
    writer.flush()
}

/// Gives the writer the bytes, as far as it takes them.
fn give<W: Write>(text: &[u8], writer: &mut Watched<W>) -> io::Result<()>
    ensures taken { OnOk result (Appends (W.contents (inner_of writer.old))
        (W.contents (inner_of writer.new)) text.now) }
    ensures goes { OnOk result (has_failed writer.new ≡ has_failed writer.old) }
    ensures part { AppendsPrefix (W.contents (inner_of writer.old))
        (W.contents (inner_of writer.new)) text.now }
    ensures failed { OnErr result (has_failed writer.new ≡ true) }
{
    let mut taken = 0;
    while taken < text.len() {
        match writer.write(&text[taken..]) {
            Ok(more) if more > 0 => taken += more,
            Ok(_) => return Err(io::Error::from(io::ErrorKind::WriteZero)),
            Err(error) => return Err(error),
        }
    }
    Ok(())
}
