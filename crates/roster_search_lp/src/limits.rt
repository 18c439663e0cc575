//! How far dual prices go, and shares.

/// A dual price, at most, and below 0, in parts of a cost unit.
pub const MOST_DUAL: u64 = 1 << 42;

/// A whole share: so many thousandths.
pub const MOST_SHARE: u32 = 1000;
