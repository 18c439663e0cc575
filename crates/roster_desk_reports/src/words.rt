//! The words of a line.

ghost use Rattle.std.specs.Prelude.{◌≡◌, IfOk};
ghost use Rattle.std.specs.Char.{is_ascii_digit};
ghost use Rattle.std.specs.List.{list_all};
ghost use Rattle.roster_desk_reports.specs.Text as spec;

use std::alloc::{AllocError, Global};

/// The byte order mark, which some editors put before a text.
const MARK: &[u8] = b"\xef\xbb\xbf";

/// The text without the byte order mark before it, if it has one.
pub(crate) fn without_mark(text: &[u8]) -> &[u8]
    ensures { result.now ≡ spec.text_of text.now }
{
    text.strip_prefix(MARK).unwrap_or(text)
}

/// The lines of a text.
pub(crate) fn lines_of<'a>(alloc: Global, text: &'a [u8]) -> Result<Vec<&'a [u8]>, AllocError>
    ensures { IfOk result (λ lines. spec.texts lines.items ≡ spec.lines_of text.now) }
{
    text.split(|byte| *byte == b'\n').collect(alloc)
}

/// The words of a line, which blanks part. A carriage return is one.
pub(crate) fn words_of<'a>(alloc: Global, line: &'a [u8]) -> Result<Vec<&'a [u8]>, AllocError>
    ensures { IfOk result (λ words. spec.texts words.items ≡ spec.words_of line.now) }
{
    line.split(|byte| byte.is_ascii_whitespace())
        .filter(|word| !word.is_empty())
        .collect(alloc)
}

/// Whether the words are those of a `CREW` line.
pub(crate) fn is_crew(words: &[&[u8]]) -> bool
    ensures { result ≡ spec.is_crew (spec.texts words.now) }
{
    match words.first() {
        Some(word) => *word == b"CREW".as_slice(),
        None => false,
    }
}

/// Whether the word is a number, without a sign.
fn is_number(word: &[u8]) -> bool
    ensures { result ≡ list_all is_ascii_digit word.now }
{
    word.iter().all(|byte| byte.is_ascii_digit())
}

/// Whether each word is one.
pub(crate) fn are_numbers(words: &[&[u8]]) -> bool
    ensures { result ≡ list_all (λ word. list_all is_ascii_digit word.now) words.now }
{
    words.iter().all(|word| is_number(word))
}
