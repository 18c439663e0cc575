//! What a region may be parted by.

/// What a region may be parted by.
#[derive(Clone, Copy)]
pub enum Split {
    /// Whether a person has a pairing: the person's place and the pairing's.
    Holder(usize, usize),
    /// Whether the pairing at this place is flown or left open.
    Flown(usize),
    /// Whether at most so many pairings are open, or more.
    Count(usize),
}
