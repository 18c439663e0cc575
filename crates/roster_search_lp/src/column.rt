//! A column of a linear program.

/// The row of a column that isn't basic.
pub(crate) const NOWHERE: usize = usize::MAX;

/// What it is to use a column.
#[derive(Clone, Copy)]
pub(crate) enum Kind {
    /// This person has the line.
    Line(usize),
    /// The pairing at this place is left open.
    Open(usize),
    /// Fewer pairings are open than a row counts.
    Fewer(Count),
    /// More pairings are open than a row counts.
    More(Count),
}

/// Which count of open pairings a row has.
#[derive(Clone, Copy)]
pub(crate) enum Count {
    /// How many are open at least.
    Least,
    /// How many are open at most.
    Most,
}

/// A column of ones, or of minus ones.
#[derive(Clone, Copy)]
pub(crate) struct Column {
    pub(crate) kind: Kind,
    /// In parts of a cost unit.
    pub(crate) cost: i64,
    /// The row where it is basic, or `NOWHERE`.
    pub(crate) row: usize,
    /// Whether it may not be used.
    pub(crate) is_forbidden: bool,
    /// Whether it has minus ones.
    pub(crate) is_negative: bool,
    /// Where its rows stand in the list of all columns' rows.
    pub(crate) first: usize,
    pub(crate) end: usize,
}

impl Column {
    /// The person whose line it is, if it is one.
    pub(crate) fn person(&self) -> Option<usize> {
        match self.kind {
            Kind::Line(k) => Some(k),
            _ => None,
        }
    }

    /// Whether it is a line of person `k`.
    pub(crate) fn is_line_of(&self, k: usize) -> bool {
        match self.kind {
            Kind::Line(person) => person == k,
            _ => false,
        }
    }
}
