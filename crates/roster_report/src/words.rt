//! What is appended to a line: words, numbers, and its end.

ghost use Rattle.std.specs.Prelude.{◌≡◌, ◌∷◌, [], ◌++◌, OnOk};
ghost use Rattle.std.specs.Fmt.{decimal, signed_decimal};
ghost use Rattle.roster_report.specs.Words.{spaced};

use std::alloc::{AllocError, Global};

/// Appends a word behind another.
pub(crate) fn push_word(out: &mut Vec<u8>, word: &[u8]) -> Result<(), AllocError>
    ensures { OnOk result (out.new.items ≡ out.old.items ++ spaced word.now) }
{
    out.push(b' ')?;
    out.extend_from_slice(word)
}

/// Appends a number behind a word.
pub(crate) fn push_number(alloc: Global, out: &mut Vec<u8>, number: u64) -> Result<(), AllocError>
    ensures { OnOk result (out.new.items ≡ out.old.items ++ spaced (decimal number)) }
{
    let digits = number.to_string(alloc)?;
    push_word(out, digits.as_bytes())
}

/// Appends a number that may be negative behind a word.
pub(crate) fn push_signed(alloc: Global, out: &mut Vec<u8>, number: i64) -> Result<(), AllocError>
    ensures { OnOk result (out.new.items ≡ out.old.items ++ spaced (signed_decimal number)) }
{
    let digits = number.to_string(alloc)?;
    push_word(out, digits.as_bytes())
}

/// Ends the line.
pub(crate) fn end_line(out: &mut Vec<u8>) -> Result<(), AllocError>
    ensures { OnOk result (out.new.items ≡ out.old.items ++ 10 ∷ []) }
{
    out.push(b'\n')?;
    Ok(())
}
