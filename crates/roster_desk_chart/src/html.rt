//! Text of a page.

ghost use Rattle.std.specs.Prelude.{◌≡◌, ◌++◌, OnOk};
ghost use Rattle.std.specs.List.{flat_map};
ghost use Rattle.roster_desk_chart.specs.Markup.{shown_as};

use roster_desk_words::push_all;
use std::alloc::{AllocError, Global};

/// Appends a byte of text so that it is no markup.
#[tactic(auto, unfolding(crate::specs::Markup::shown_as))]
fn push_byte(out: &mut Vec<u8>, byte: u8) -> Result<(), AllocError>
    ensures { OnOk result (out.new.items ≡ out.old.items ++ shown_as byte) }
{
    match byte {
        b'&' => out.extend_from_slice(b"&amp;"),
        b'<' => out.extend_from_slice(b"&lt;"),
        b'>' => out.extend_from_slice(b"&gt;"),
        b'"' => out.extend_from_slice(b"&quot;"),
        b'\'' => out.extend_from_slice(b"&#39;"),
        other => out.extend_from_slice(&[other]),
    }
}

/// Appends text so that it is no markup, in an element or in an attribute in double quotes.
pub(crate) fn push_text(out: &mut Vec<u8>, text: &[u8]) -> Result<(), AllocError>
    ensures { OnOk result (out.new.items ≡ out.old.items ++ flat_map shown_as text.now) }
{
    for byte in text {
        push_byte(out, *byte)?;
    }
    Ok(())
}

/// A number of hundredths of a percent as in `12.05%`.
pub(crate) fn percent(alloc: Global, share: u64) -> Result<String, AllocError> {
    let (whole, rest) = (share / 100, share % 100);
    format!(in alloc; "{whole}.{rest:02}%")
}

/// Something that is drawn in a row: where it begins and how wide it is, in hundredths of a percent.
#[derive(Clone, Copy)]
pub(crate) struct Place {
    pub(crate) left: u64,
    pub(crate) width: u64,
}

/// Appends what an element begins with: its tag, its class, where it is, and what it tells.
pub(crate) fn push_open(
    alloc: Global,
    out: &mut Vec<u8>,
    tag: &[u8],
    place: Place,
    title: &[u8],
) -> Result<(), AllocError> {
    let left = percent(alloc, place.left)?;
    let width = percent(alloc, place.width)?;
    push_all(out, &[b"<", tag, b" style=\"left:", left.as_bytes()])?;
    push_all(out, &[b";width:", width.as_bytes(), b"\" title=\""])?;
    push_text(out, title)?;
    out.extend_from_slice(b"\">")
}
