//! Sets of pairings.

ghost use Rattle.std.specs.Prelude.{◌≡◌, ◌+◌, ◌*◌, ◌^◌, ◌<◌, ◌≤◌, ◌↔◌, ◌&&◌, ◌||◌, ◌==◌, ◌++◌, ◌∷◌, ℕ, true};
ghost use Rattle.std.specs.Prelude.{false, [], IsTrue, IsOkAnd, IfSome, MatchOption, All, length};
ghost use Rattle.std.specs.List.Sorted.{IsStrictlyIncreasing};
ghost use Rattle.roster_model.specs.Rules.{is_among};
ghost use Rattle.roster_model.specs.Places.{set_of};
ghost use Rattle.roster_values.specs.Set.{has_bit, places_from, with_place, IsFirstBit, IsFirstInWord};

use roster_model::limits::MOST_PAIRINGS;
use std::alloc::AllocError;
use std::marker::Model;

/// How many words of 64 bits a set has.
const SET_WORDS: usize = (MOST_PAIRINGS + 63) / 64;

/// A set of pairings by their places, each below `MOST_PAIRINGS`. Contracts see it as the ascending
/// list of its places.
#[derive(Clone, Copy)]
pub struct Set {
    words: [u64; SET_WORDS],
}

impl Model for Set {
    ghost use Rattle.std.specs.Prelude.{List, ℕ};

    ghost Value = { List ℕ };

    ghost use Rattle.roster_values.specs.Set.{places_in, words_of, IsSet};
    ghost use Rattle.roster_values.specs.Bits.{fields_back};

    ghost view = { λ s. places_in s.words };

    ghost invariant = { λ s. IsSet s.words };

    ghost inverse = { λ set. record { words = words_of set } };

    ghost inverse_ok = { fields_back };
}

impl PartialEq for Set {
    ghost use Rattle.std.specs.Str.{bytes_eq};
    ghost use Rattle.std.specs.Cmp.{partial_equiv_from_equiv};
    ghost use Rattle.std.specs.Cmp.Lexicographic.{nat_list_eq_equiv};

    ghost eq = { bytes_eq };

    ghost laws = { partial_equiv_from_equiv nat_list_eq_equiv };

    fn eq(&self, other: &Set) -> bool {
        self.words == other.words
    }
}

impl Eq for Set {
    ghost use Rattle.std.specs.Cmp.Lexicographic.{nat_list_eq_equiv};

    ghost laws = { nat_list_eq_equiv };
}

impl Set {
    /// The set with no pairing.
    pub fn empty() -> Set
        ensures { result ≡ [] }
    {
        Set {
            words: [0; SET_WORDS],
        }
    }

    /// Whether it has no pairing.
    pub fn is_empty(&self) -> bool
        ensures { IsTrue result ↔ (self.now ≡ []) }
    {
        self.first_from(0).is_none()
    }

    /// Whether the pairing at place `p` is in it.
    pub fn has(&self, p: usize) -> bool
        ensures value { result ≡ is_among self.now p }
        ensures ascending { IsStrictlyIncreasing self.now }
        ensures places { All (λ q. q < MOST_PAIRINGS) self.now }
    {
        p < MOST_PAIRINGS && has_bit(&self.words, p)
    }

    /// The set with the pairing at place `p` in it. It takes no memory, and is never refused.
    pub fn with(&self, p: usize) -> Result<Set, AllocError>
        requires { p < MOST_PAIRINGS }
        ensures value { IsOkAnd result (λ set. set ≡ with_place p self.now) }
        ensures members { IsOkAnd result
            (λ set. (q : ℕ) → is_among set q ≡ (is_among self.now q || p == q)) }
        ensures last { All (λ q. q < p) self.now
            → IsOkAnd result (λ set. set ≡ self.now ++ p ∷ []) }
    {
        let mut set = *self;
        set.put(p);
        Ok(set)
    }

    /// Puts the pairing at place `p` into it. It takes no memory.
    pub fn put(&mut self, p: usize)
        requires { p < MOST_PAIRINGS }
        ensures value { self.new ≡ with_place p self.old }
        ensures members { (q : ℕ) → is_among self.new q ≡ (is_among self.old q || p == q) }
        ensures last { All (λ q. q < p) self.old → self.new ≡ self.old ++ p ∷ [] }
    {
        set_bit(&mut self.words, p);
    }

    /// Whether some pairing is in both.
    pub fn meets(&self, other: &Set) -> bool
        ensures { IsTrue result
            ↔ ((p : ℕ) × (is_among self.now p ≡ true) × (is_among other.now p ≡ true)) }
    {
        for i in 0..SET_WORDS {
            if self.words[i] & other.words[i] != 0 {
                return true;
            }
        }
        false
    }

    /// The pairings that are in both.
    pub fn and(&self, other: &Set) -> Set
        ensures { (p : ℕ) → is_among result p ≡ (is_among self.now p && is_among other.now p) }
    {
        let mut words = self.words;
        keep_bits(&mut words, &other.words);
        Set { words }
    }

    /// The pairings that are in one of them.
    pub fn or(&self, other: &Set) -> Set
        ensures { (p : ℕ) → is_among result p ≡ (is_among self.now p || is_among other.now p) }
    {
        let mut words = self.words;
        add_bits(&mut words, &other.words);
        Set { words }
    }

    /// The least place at or after `from` whose pairing is in it. To go over all places in ascending
    /// order, begin from 0, and go on from one after each place.
    pub fn first_from(&self, from: usize) -> Option<usize>
        ensures rest { MatchOption result (places_from from self.now ≡ [])
            (λ p. places_from from self.now ≡ p ∷ places_from (p + 1) self.now) }
        ensures place { IfSome result
            (λ p. (from ≤ p) × (p < MOST_PAIRINGS) × (is_among self.now p ≡ true)) }
        ensures least { MatchOption result ((q : ℕ) → from ≤ q → is_among self.now q ≡ false)
            (λ p. (q : ℕ) → from ≤ q → q < p → is_among self.now q ≡ false) }
        ensures whole { places_from 0 self.now ≡ self.now }
        ensures ascending { IsStrictlyIncreasing self.now }
    {
        first_bit(&self.words, from)
    }

    /// The set of the places at which the list has the number.
    pub fn of_places(places: &[u16], number: usize) -> Set
        requires { length places.now ≤ MOST_PAIRINGS }
        ensures { result ≡ set_of number places.now }
    {
        let mut set = Set::empty();
        for (p, place) in places.iter().enumerate() {
            if usize::from(*place) == number {
                set.put(p);
            }
        }
        set
    }
}

/// Whether bit `p` is set; bit 0 is the lowest of the first word.
fn has_bit(words: &[u64; SET_WORDS], p: usize) -> bool
    requires { p < MOST_PAIRINGS }
    ensures { result ≡ has_bit words.now p }
{
    (words[p / 64] >> (p % 64)) & 1 == 1
}

/// Sets bit `p`.
fn set_bit(words: &mut [u64; SET_WORDS], p: usize)
    requires { p < MOST_PAIRINGS }
    ensures bits { (q : ℕ) → has_bit words.new q ≡ (has_bit words.old q || p == q) }
    ensures fits { All (λ word. word < 2 ^ 64) words.old → All (λ word. word < 2 ^ 64) words.new }
{
    words[p / 64] |= 1 << (p % 64);
}

/// Keeps the bits that are set in the others too.
fn keep_bits(words: &mut [u64; SET_WORDS], others: &[u64; SET_WORDS])
    ensures bits { (p : ℕ) → has_bit words.new p ≡ (has_bit words.old p && has_bit others.now p) }
    ensures fits { All (λ word. word < 2 ^ 64) words.old → All (λ word. word < 2 ^ 64) others.now
        → All (λ word. word < 2 ^ 64) words.new }
{
    for i in 0..SET_WORDS {
        words[i] &= others[i];
    }
}

/// Sets the bits that are set in the others.
fn add_bits(words: &mut [u64; SET_WORDS], others: &[u64; SET_WORDS])
    ensures bits { (p : ℕ) → has_bit words.new p ≡ (has_bit words.old p || has_bit others.now p) }
    ensures fits { All (λ word. word < 2 ^ 64) words.old → All (λ word. word < 2 ^ 64) others.now
        → All (λ word. word < 2 ^ 64) words.new }
{
    for i in 0..SET_WORDS {
        words[i] |= others[i];
    }
}

/// The first bit at or after bit `from` that is set, if one is.
fn first_bit(words: &[u64; SET_WORDS], from: usize) -> Option<usize>
    ensures { IsFirstBit words.now from result }
{
    let word = from / 64;
    if word >= SET_WORDS {
        return None;
    }
    if let Some(bit) = first_in_word(words[word], from % 64) {
        return Some(word * 64 + bit);
    }
    first_in_words(words, word + 1)
}

/// The first bit of the words from this one on that is set, if one is.
fn first_in_words(words: &[u64; SET_WORDS], word: usize) -> Option<usize>
    requires { word ≤ SET_WORDS }
    ensures { IsFirstBit words.now (word * 64) result }
{
    for i in word..SET_WORDS {
        if let Some(bit) = first_in_word(words[i], 0) {
            return Some(i * 64 + bit);
        }
    }
    None
}

/// The first bit of the word at or after bit `from`, if one is set.
fn first_in_word(word: u64, from: usize) -> Option<usize>
    requires { from < 64 }
    ensures { IsFirstInWord word from result }
{
    let rest = word >> from;
    if rest == 0 {
        return None;
    }
    Some(from + rest.trailing_zeros() as usize)
}
