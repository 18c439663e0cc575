//! Identifiers.

ghost use Rattle.std.specs.Prelude.{◌≡◌, ◌≤◌, true, false, IsTrue, MatchOption, length};
ghost use Rattle.std.specs.List.{list_all};
ghost use Rattle.roster_model.specs.Form as form;

use roster_model::limits::MOST_NAME_BYTES;
use std::marker::Model;

/// An identifier of a book, of the form that `is_identifier` tells, which the type keeps.
#[derive(Drop)]
pub struct Name {
    bytes: [u8; MOST_NAME_BYTES],
    len: usize,
}

impl Model for Name {
    ghost use Rattle.std.specs.Prelude.{◌≡◌, ◌≤◌, List, ℕ, take, true};
    ghost use Rattle.roster_model.specs.declared.limits.TheConstants.{MOST_NAME_BYTES};
    ghost use Rattle.roster_model.specs.Form.{is_identifier};

    ghost Value = { List ℕ };

    ghost view = { λ n. take n.len n.bytes };

    ghost invariant = { λ n. (n.len ≤ MOST_NAME_BYTES)
        × (is_identifier (take n.len n.bytes) ≡ true) };
}

impl Name {
    /// The text as an identifier, if it is of the form.
    pub fn new(text: &[u8]) -> Option<Name>
        ensures { MatchOption result (form.is_identifier text.now ≡ false)
            (λ name. (form.is_identifier text.now ≡ true) × (name ≡ text.now)) }
    {
        if !is_identifier(text) {
            return None;
        }
        let mut bytes = [0; MOST_NAME_BYTES];
        bytes[..text.len()].copy_from_slice(text);
        Some(Name {
            bytes,
            len: text.len(),
        })
    }

    /// The bytes of the identifier.
    pub fn as_bytes(&self) -> &[u8]
        ensures value { result.now ≡ self.now }
        ensures form { form.is_identifier result.now ≡ true }
    {
        &self.bytes[..self.len]
    }
}

fn has_identifier_bytes(text: &[u8]) -> bool
    ensures { result ≡ list_all form.is_identifier_byte text.now }
{
    text.iter()
        .all(|c| c.is_ascii_alphanumeric() || *c == b'_' || *c == b'-')
}

/// Whether the text is 1 to [`MOST_NAME_BYTES`] ASCII letters, digits, `_` and `-`, the first a letter
/// or a digit.
#[tactic(auto, unfolding(roster_model::specs::Form::is_identifier))]
pub fn is_identifier(text: &[u8]) -> bool
    ensures value { result ≡ form.is_identifier text.now }
    ensures length { IsTrue result → length text.now ≤ MOST_NAME_BYTES }
{
    (1..=MOST_NAME_BYTES).contains(&text.len())
        && text[0].is_ascii_alphanumeric()
        && has_identifier_bytes(text)
}
