//! Parts of the box of all lists of line numbers.

ghost use Rattle.std.specs.Prelude.{◌≡◌};

use std::marker::Model;

/// Line numbers of the first persons. Contracts see them as a list.
#[derive(Drop)]
pub struct Path {
    numbers: Vec<usize>,
}

impl Model for Path {
    ghost use Rattle.std.specs.Prelude.{List, ℕ};

    ghost Value = { List ℕ };

    ghost view = { λ p. p.numbers.items };
}

impl Path {
    /// The numbers in the vector.
    pub fn new(numbers: Vec<usize>) -> Path
        ensures { result ≡ numbers.items }
    {
        Path { numbers }
    }

    /// The numbers, from the first person's on.
    pub fn as_slice(&self) -> &[usize]
        ensures { result.now ≡ self.now }
    {
        &self.numbers
    }

    /// Gives the vector back.
    pub fn into_vec(self) -> Vec<usize>
        ensures { result.items ≡ self }
    {
        self.numbers
    }
}

/// The lists of line numbers that begin with the path and go on with a number in the range. Plain data:
/// the numbers needn't be those of lines, nor the path no longer than there are persons.
#[derive(Drop)]
pub struct Span {
    /// The line numbers of the first persons.
    pub path: Path,
    /// The first line number of the next person.
    pub lo: usize,
    /// The number behind the last one.
    pub hi: usize,
}

impl Model for Span {
    ghost use Rattle.roster_subtreepool_spans.specs.Spans as model;

    ghost Value = { model.Span };

    ghost view = { λ s. record { path = s.path; lo = s.lo; hi = s.hi } };
}
