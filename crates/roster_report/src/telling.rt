//! Telling a writer a text or a line, as far as it takes it.

ghost use Rattle.std.specs.Prelude.{◌≡◌, Some};
ghost use Rattle.roster_report.specs.Writing.{TellsLine, TellsText};

use crate::device::takes;
use roster_watched::Watched;
use std::io::Write;

/// Tells a text as a line, if the writer hasn't failed. Whether all of it went out the writer knows.
pub fn tell_line<E: Write>(text: &str, errors: &mut Watched<E>)
    ensures { TellsLine E.contents (Some text.now) errors.old errors.new }
{
    tell_text(text, errors);
    tell_text("\n", errors);
}

/// Tells a text, if the writer hasn't failed. Whether all of it went out the writer knows.
pub fn tell_text<E: Write>(text: &str, errors: &mut Watched<E>)
    ensures { TellsText E.contents text.now errors.old errors.new }
{
    if errors.failed() {
        return;
    }
    takes(text.as_bytes(), errors);
}
