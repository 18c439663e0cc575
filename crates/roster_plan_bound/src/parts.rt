//! Amounts in parts of a cost unit.

/// How many parts a cost unit is counted in.
pub const PARTS: u64 = 64;

/// A price, at most, and below 0, in parts of a cost unit.
pub(crate) const MOST_PLAN_PRICE: u64 = 1 << 38;

/// What a pairing brings to a chain, at most, and below 0: its units, less its price.
pub(crate) const MOST_CHAIN_VALUE: u64 = 1 << 39;

/// What a state of flight brings at the end of a chain, at most, and below 0.
pub(crate) const MOST_TARGET_TERM: u64 = 1 << 53;

/// The least reduced cost of a person, at most, and below 0: a term, and the values of all pairings.
pub(crate) const MOST_LEAST: u64 = 1 << 54;

/// What a table has beside its pairings at a worth within the weight, at most, and below 0.
pub(crate) const MOST_FIXED: u64 = 3 << 52;

/// More than any row has, on either side: two such amounts fit a word.
pub(crate) const MOST_AMOUNT: u64 = 1 << 60;

/// The minutes of flight that states tell apart, at most.
pub(crate) const MOST_COUNTED: u64 = 1 << 15;

/// The sum of what all persons and pairings bring to a bound, at most, and below 0.
pub(crate) const MOST_SUM: u64 = 1 << 62;

/// The minutes of flight of a pairing that tables are made for, at most.
pub(crate) const MOST_FLIGHT: u64 = 1 << 16;

/// What a pairing brings to a table at most, and below 0, if flight counts.
pub(crate) const MOST_STEP: u64 = 1 << 51;

/// What all pairings together bring to a table, at most, and below 0.
pub(crate) const MOST_BEHIND: u64 = 1 << 60;

/// What a minute of flight is worth to a table, at most, and below 0.
pub(crate) const MOST_WORTH: u64 = 1 << 34;

/// What a minute of the sum that is watched costs in a table, at most.
pub(crate) const MOST_TOLL: u64 = 1 << 33;

/// What a pairing takes of that sum, at most, in minutes.
pub(crate) const MOST_LOAD: u64 = 65_535;

/// What pairings bring with their tolls, at most, and below 0.
pub(crate) const MOST_LADEN: u64 = 1 << 50;

/// What a table has beside its pairings, at most, and below 0.
pub(crate) const MOST_BESIDE: u64 = 1 << 55;

/// By how many minutes fixed flight is beyond a target that tables are made for, at most, and below it.
pub(crate) const MOST_SHORT: u64 = 1 << 17;
