//! The entries of tables by their names.

ghost use Rattle.std.specs.Prelude.{◌≡◌, ◌<◌, IfSome, length};
ghost use Rattle.std.specs.Str.{bytes_eq};
ghost use Rattle.roster_model.specs.Record.{place_named};
ghost use Rattle.roster_book.specs.Keys.{key_of_name, keys_of};

use roster_problem::{Base, Duty, Pairing, Person};
use roster_values::Name;

/// An entry of a table, whose name no other entry of the table has.
pub(crate) trait Named {
    ghost use Rattle.std.specs.Prelude.{List, ℕ};

    ghost id_of: { Self → List ℕ };

    /// Its name.
    fn name(&self) -> &Name
        ensures { result.now ≡ id_of self.now };
}

impl Named for Base {
    ghost id_of = { λ base. base.id };

    fn name(&self) -> &Name {
        &self.id
    }
}

impl Named for Person {
    ghost id_of = { λ person. person.id };

    fn name(&self) -> &Name {
        &self.id
    }
}

impl Named for Pairing {
    ghost id_of = { λ pairing. pairing.id };

    fn name(&self) -> &Name {
        &self.id
    }
}

impl Named for Duty {
    ghost id_of = { λ duty. duty.id };

    fn name(&self) -> &Name {
        &self.id
    }
}

/// Whether the text is the name. The names of a table mostly begin alike, so the last bytes are
/// compared before the others.
#[tactic(auto, using(crate::proofs::Names::last_tells))]
fn is_name(name: &Name, text: &[u8]) -> bool
    ensures { result ≡ bytes_eq name.now text.now }
{
    let bytes = name.as_bytes();
    bytes.last().copied() == text.last().copied() && bytes == text
}

/// The place of the entry with the name.
#[tactic(auto, unfolding(roster_model::specs::Record::place_named))]
pub(crate) fn place_of<T: Named>(entries: &[T], name: &[u8]) -> Option<usize>
    ensures value { result ≡ place_named T.id_of name.now entries.now }
    ensures within { IfSome result (λ place. place < length entries.now) }
{
    entries.iter().position(|entry| is_name(entry.name(), name))
}

/// A name's key: its last eight bytes as a number, by which most names of a table are told apart.
#[tactic(auto, unfolding(crate::specs::Keys::key_of_name))]
pub(crate) fn key_of(name: &[u8]) -> u64
    ensures { result ≡ key_of_name name.now }
{
    name.iter()
        .fold(0, |key, byte| (key << 8) | u64::from(*byte))
}

/// The place of the entry with the name, by the keys of the entries' names: of an entry with another
/// key only the key is read.
pub(crate) fn place_by_key<T: Named>(keys: &[u64], entries: &[T], name: &[u8]) -> Option<usize>
    requires { keys.now ≡ keys_of T.id_of entries.now }
    ensures value { result ≡ place_named T.id_of name.now entries.now }
    ensures within { IfSome result (λ place. place < length entries.now) }
{
    let key = key_of(name);
    for place in 0..keys.len() {
        if keys[place] == key && is_name(entries[place].name(), name) {
            return Some(place);
        }
    }
    None
}
