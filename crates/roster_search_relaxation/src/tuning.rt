//! Numbers that were found by measuring, and what was measured. Each may be another one: nothing that a
//! search answers rests on them, only how long it takes.

/// A linear program has so many rows at most: a step takes as long as the rows, squared.
pub(crate) const MOST_ROWS: usize = 400;

/// It begins with so many lines of each person.
pub(crate) const FIRST_LINES_A_PERSON: usize = 20;

/// So many lines of each person are added after a look, at most.
pub(crate) const LINES_A_PERSON: usize = 6;

/// A line is added if it is cheaper than its person's dual price by a part of what lies between two costs:
/// one of so many.
pub(crate) const NEW_PART_OF_GRAIN: i64 = 512;

/// What a solution costs counts less a part of what lies between two costs, one of so many, in judging
/// whether a cost lies between it and the bound.
pub(crate) const NEAR_PART_OF_GRAIN: i64 = 64;

/// With more columns than this, and 8 for each row, the dearest are left out until this and 2 for each row
/// are left.
pub(crate) const MOST_COLUMNS: usize = 2_000;

/// The share of a person's lines in the solution, in thousandths, that a pairing best has to be settled next.
pub(crate) const BEST_SHARE_OF_LINES: u32 = 700;

/// Less of a share counts as settled.
pub(crate) const LEAST_SHARE: u32 = 20;

/// More of a share counts as settled.
pub(crate) const MOST_SHARE_OF_LINES: u32 = 980;

/// What weighs against a choice, in thousandths: each person who can have the pairing, and each doubling of
/// the lines.
pub(crate) const SHARE_PER_PERSON: u32 = 30;

/// See `SHARE_PER_PERSON`.
pub(crate) const SHARE_PER_DOUBLING: u32 = 15;

/// If the solution leaves so many pairings open, all in all, and no more than so large a part of one more, in
/// thousandths, their number counts as settled.
pub(crate) const LEAST_PART_OPEN: u64 = 30;

/// Or so large a part at least.
pub(crate) const MOST_PART_OPEN: u64 = 970;

/// A search goes by what branches brought once it has visited so many nodes.
pub(crate) const NODES_TO_LEARN: u32 = 200;

/// Of so many persons and pairings at most, those that weigh least by shares.
pub(crate) const MOST_PICKS: usize = 12;

/// Each side counts as if it had brought so many times before what sides bring on an average.
pub(crate) const EXPECTED_TIMES: u64 = 2;

/// What a branch promises counts half for so much that weighs against it, in thousandths.
pub(crate) const WEIGHT_A_HALF: u32 = 100;
