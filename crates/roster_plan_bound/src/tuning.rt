//! Numbers that were found by measuring. Each may be another one: no bound rests on them, only how good it
//! is. Amounts for a month whose penalties are some thousand units: for a dearer one those of reach, near,
//! softness and stride are as many times as much (`dearness`), but for the least reach, softness and stride.

/// One, in shares.
pub(crate) const ONE: i64 = 1 << 16;

/// How many labels of one look become columns, at most, and in a dive.
pub(crate) const MOST_COLUMNS: usize = 200;

pub(crate) const FEW_COLUMNS: usize = 120;

/// How far above the least one a set is listed at first, at least and at most, in parts of a cost unit.
pub(crate) const FIRST_REACH: i64 = 200 * 64;

pub(crate) const LEAST_REACH: i64 = 32;

pub(crate) const MOST_REACH: i64 = 2000 * 64;

/// How many steps of a moving price a part of a cost unit has.
pub(crate) const FINE: i64 = 1 << 8;

/// How many columns are worth a thread of its own, each time that prices move by them: threads start so often
/// between two looks.
pub(crate) const COLUMNS_FOR_A_THREAD: usize = 2000;

/// How often prices move by the columns before they are looked at again, at least and at most: more often if
/// the looks before said little.
pub(crate) const FEWEST_PRICE_STEPS: u32 = 300;

pub(crate) const MOST_PRICE_STEPS: u32 = 1600;

/// How often columns are chosen anew that are near enough to the least to move prices.
pub(crate) const STEPS_A_CHOICE: u32 = 30;

/// They are no further above it than so many times the softness, past which weights are nothing, but so far
/// at least, and beside that the stride, but no more of it than so much; in parts of a cost unit.
pub(crate) const NEAR_SOFTNESSES: i64 = 24;

pub(crate) const LEAST_NEAR: i64 = 40 * 64;

pub(crate) const MOST_NEAR_STRIDE: i64 = 60 * 64;

/// Where shares of columns are counted, they are at one of so many steps.
pub(crate) const STEPS_A_COUNT: u32 = 5;

/// How many steps a sketch has. Covers are so soft at first that one of so many parts is what lies between
/// prices and penalties, but no less than at the first look. Nothing holds prices of a sketch near the first
/// ones.
pub(crate) const SKETCH_STEPS: u32 = 400;

pub(crate) const RANGES: i64 = 64;

pub(crate) const MOST_STRIDE_OF_SKETCH: i64 = 1 << 60;

/// Softness at first, where looks have long said little, at least, and how many steps it stays that say no
/// more, in parts of a cost unit.
pub(crate) const FIRST_SOFTNESS: i64 = 60 * 64;

pub(crate) const SOFTEST_LATE: i64 = 32;

pub(crate) const LEAST_SOFTNESS: i64 = 3;

pub(crate) const PATIENCE: u32 = 5;

/// How far prices move at first from those of the best bound, at least and at most, in parts of a cost unit.
pub(crate) const FIRST_STRIDE: i64 = 30 * 64;

pub(crate) const LEAST_STRIDE: i64 = 3 * 64;

pub(crate) const MOST_STRIDE: i64 = 600 * 64;

/// At most so far too: one of so many parts of the most units, below 0 or above, that anybody's pairing has.
pub(crate) const STRIDES_OF_UNITS: i64 = 8;

/// So many looks in a row that say much less leave softness as it is.
pub(crate) const MOST_LACKING: i32 = 2;

/// After so many looks in a row that say neither more nor less in whole cost units the bound is as good as it
/// gets.
pub(crate) const MOST_IDLE: u32 = 12;

/// From how many sets a search goes on that shows the least, at most, for each look that claims before it,
/// and in the end.
pub(crate) const VISITS_A_LOOK: u32 = 4_000;

pub(crate) const MOST_VISITS: u32 = 100_000;

/// If the crew likely can't fly all: at the first prices one of so many parts of all flight stays open.
pub(crate) const OPEN_PARTS: [u64; 4] = [2, 4, 8, 16];

/// How many looks there are at most before what they claim is shown.
pub(crate) const MOST_TRUST: u32 = 16;

/// How much flight a person could have in a day, about, if limits left it, in minutes.
pub(crate) const MOST_FLOWN_A_DAY: u64 = 300;

/// How often tables at nearer tolls of the sum that is watched are made before a search that shows the least.
pub(crate) const FINER_TOLLS: u32 = 4;

/// How often tables at nearer worths of a minute of flight are made before such a search.
pub(crate) const FINER_WORTHS: u32 = 2;

/// How many lines of a person are known, at most, and how many of them stay if there are more.
pub(crate) const MOST_KNOWN: usize = 500;

pub(crate) const MOST_KEPT: usize = 300;

/// How far the worth of a minute of flight moves from one look to the next: so many of such steps, at least
/// and at most, are the weight of the target.
pub(crate) const FEWEST_WORTH_STEPS: i64 = 8;

pub(crate) const MOST_WORTH_STEPS: i64 = 32;

/// If a search doesn't come to its end: how often half of what is open is claimed, at most.
pub(crate) const MOST_CLAIMS: u32 = 3;

/// How many labels a person has, about, and how many end with one pairing, at least and at most.
pub(crate) const MOST_LABELS: usize = 6000;

pub(crate) const FEWEST_LABELS: usize = 8;

pub(crate) const MOST_LABELS_AT_ONE: usize = 40;

/// How many sets are judged at most for each column that is wanted, and how many a search lists.
pub(crate) const LISTED_A_COLUMN: usize = 4;

pub(crate) const MOST_LISTED: usize = 800;

/// If prices let a person have no more than one of so many pairings, labels need no tables.
pub(crate) const MANY_BARRED: usize = 4;

/// Each label is judged from the next look on if more of the cheapest ones break a rule than one of so many.
pub(crate) const MANY_BROKEN: usize = 4;

/// Labels reach further or less far at the next look if less than so many of them are that cheap, or more.
pub(crate) const FEWEST_LISTED: usize = 60;

pub(crate) const MANY_LISTED: usize = 200;

/// How far prices move in a dive from one look to the next, how soft covers are at first, in parts of a cost
/// unit, and how often prices move.
pub(crate) const DIVE_STRIDE: i64 = 60 * 64;

pub(crate) const DIVE_SOFTNESS: i64 = 20 * 64;

pub(crate) const DIVE_STEPS: u32 = 150;

/// How soft covers are at first where shares are counted, in parts of a cost unit.
pub(crate) const COUNTED_SOFTNESS: i64 = 5 * 64;

/// How many looks there are each time that some got their columns.
pub(crate) const LOOKS_A_DIVE: u32 = 4;

/// A share that is as good as all, in parts of `ONE`.
pub(crate) const SURE_SHARE: i64 = ONE * 17 / 20;

/// Who has less gets no column as long as others have more.
pub(crate) const LEAST_DIVE_SHARE: i64 = ONE * 3 / 10;

/// A path that isn't yet cheap enough to count is judged if this divides how many pairings it has room for.
pub(crate) const JUDGED_AT: usize = 3;
