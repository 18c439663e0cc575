//! What the program is asked to do.

/// What the program is asked to do.
#[derive(Clone, Copy, PartialEq, Eq)]
pub enum Command {
    /// Find the best roster of the book.
    Solve,
    /// Judge the roster that the book gives.
    Check,
    /// Find the best roster of the book, which may give the steps of a search.
    Replay,
}
