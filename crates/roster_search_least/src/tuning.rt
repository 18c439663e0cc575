//! Numbers that were found by measuring, and what was measured. They may be others: nothing that a search
//! answers rests on them, only how long it takes.

/// How much larger each step of the cost that is asked for is than the one before. Five dense books of 12
/// to 20 crew and 7 or 10 days had 4,000 nodes with 4, and 1,700 with this.
pub(crate) const STEP_GROWTH: i64 = 2;

/// A step is at least one in so many of what lies between the costs that are known.
pub(crate) const STEPS_OF_GAP: i64 = 256;

/// If more lies between, no roster is known.
pub(crate) const MOST_GAP: i64 = 1 << 50;
