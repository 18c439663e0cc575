//! Numbers that decide how exact the program is and how long it takes. Nothing that is proved rests on them.

/// Entries of a column that are no greater, in parts of a whole, end no step: a pivot on them would spoil
/// the inverse.
pub(crate) const LEAST_PIVOT: i64 = 1 << 20;

/// Numbers nearer to 0 than this count as 0.
pub(crate) const LEAST_ENTRY: i64 = 1 << 12;

/// What rows need more than a whole, at least.
pub(crate) const LEAST_MORE: i64 = 1 << 22;

/// And a number of so many bits beside that.
pub(crate) const MORE_BITS: u32 = 23;

/// So many columns enter, at most, before all are looked at again.
pub(crate) const COLUMNS_A_ROUND: usize = 60;

/// After so many pivots the inverse is made anew.
pub(crate) const PIVOTS_AN_INVERSE: usize = 200;

/// An inverse to go back to had so many pivots at most: else each way from there would have to make it anew.
pub(crate) const MOST_PIVOTS_KEPT: usize = 100;

/// It costs so many times the greatest cost to use what is forbidden.
pub(crate) const FORBIDDEN_FACTOR: u64 = 4;

/// It becomes four times as dear so often, at most, once it has become dear.
pub(crate) const MOST_RAISES: u32 = 4;

/// About a thousandth of a whole: less of a column counts as nothing.
pub(crate) const LEAST_USED: i64 = 1 << 30;

/// Less than this of a column counts as nothing that it is wrong to use.
pub(crate) const LEAST_WRONG: u64 = 1 << 16;

/// Entries of a row that are no greater, in parts of a whole, end no step in which its column leaves.
pub(crate) const LEAST_DUAL_PIVOT: i64 = 1 << 24;

/// Duals move so many times along a row at most, in parts of a whole.
pub(crate) const MOST_FAR: i64 = 1 << 52;

/// So often forbidden columns leave the basis, and others enter it, in turn, at most.
pub(crate) const MOST_TURNS: usize = 8;

/// What a row weighs to begin with, and at least. Where all rows weigh the same there are half as many steps
/// again.
pub(crate) const ONE_WEIGHT: u64 = 1 << 8;

/// What a row weighs at most.
pub(crate) const MOST_WEIGHT: u64 = 1 << 60;

/// A column enters if it is cheaper than its price by one in so many parts of a cost unit.
pub(crate) const TOLERANCE_PART: i64 = 1024;
