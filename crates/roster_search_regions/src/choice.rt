//! Steps in the tree of a person's lines.

/// How many parts a cost unit is counted in, at most.
pub const MOST_SCALE: u32 = 16384;

/// What divides the costs of all rosters, at most, in cost units.
pub const MOST_UNIT: u64 = 1 << 62;

/// What a line costs more than the empty one, or less, at most, in parts of a cost unit.
pub(crate) const MOST_EXTRA: u64 = 1 << 52;

/// A dual price, at most, and below 0, in parts of a cost unit.
pub(crate) const MOST_DUAL_PRICE: u64 = 1 << 42;

/// What lines cost more than the empty one, or less, and penalties, if a cost unit has several parts: dual
/// prices are about as large, and one that is cut off at `MOST_DUAL_PRICE` says nothing.
pub(crate) const FAIR_DUAL_PRICE: u64 = MOST_DUAL_PRICE / 4;

/// What a line costs more than the empty one less the prices of its pairings, at most, and below 0, in parts
/// of a cost unit.
pub const MOST_VALUE: u64 = 1 << 53;

/// A line of a person, by what it has behind the one before: its first pairings are as many of those of
/// the choice before as its depth says, less one, and then comes its last.
#[derive(Clone, Copy)]
pub struct Choice {
    /// What the line costs more than the empty one, in parts of a cost unit. It says nothing if the
    /// choice isn't live.
    pub extra: i64,
    /// How many pairings the line has.
    pub depth: u16,
    /// The last of them; nothing at the empty line.
    pub last: u16,
    /// Whether the line is allowed. Those that are not stand on the way to others.
    pub live: bool,
}

// There may be millions of them.
const _: () = prove!(size_of::<Choice>() <= 16);
