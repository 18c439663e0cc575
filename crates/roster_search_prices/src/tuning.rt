//! Numbers that were found by measuring, and what was measured. Each may be another one: nothing that a
//! search answers rests on them, only how long it takes. 'Shares', 'months', 'dense' and 'ties' are the
//! made-up books of `bench`; nodes are calls of `find` for all books of a kind.

/// Prices count only lines closer to the least once no cover is further from a whole than this, in parts
/// of 65536. If the mean cover decides at a root, prices freeze before they are good: 7,100 nodes for ten
/// `full` months, 1,300 with this.
pub(crate) const NEAR_COVER: u64 = 2_000;

/// So many steps in a row at a root may lift the bound by less than a part in `FAIR_RISE` of what is
/// missing. With 20, two dense books of 20 crew took ten times the nodes.
pub(crate) const ROOT_PATIENCE: u32 = 40;

/// So many at a node: 20 took twice the nodes on shares.
pub(crate) const NODE_PATIENCE: u32 = 8;

/// See `ROOT_PATIENCE`.
pub(crate) const FAIR_RISE: i64 = 64;

/// What a step is divided by: a logarithm has 16 binary places, and prices count lines by halvings of 2^5
/// parts, so 2048 would be a whole step. As a line has several pairings, whole steps go too far: with them
/// the bound of `shares 8 2` came to 3 in 1,500 steps, and with this to 25 of 26 in 109.
pub(crate) const DAMPING: i64 = 3_072;

/// Fixing is worth its time once the bound has risen by a part in so many of what was missing.
pub(crate) const FIXING_RISE: i64 = 4;

/// A node with fewer lines fixes after its first look in any case, as it is cheap, and what follows for
/// pairings is drawn sooner: without that a dense book of 20 crew took twice as long. One with more fixes if
/// some line goes: else `ties 16 4 14`, whose lines are all near the least, took three times as long.
pub(crate) const FEW_LINES_AT_A_NODE: usize = 20_000;

/// Lines lose half their weight at twice a person's share of the gap between bound and room, or before:
/// a halving has 2^5 parts, so softness is at most the share's logarithm less this. Without such a limit
/// seven of 25 shares and eight of 36 dense books don't end in 3 s; with it all end within 0.2 s.
pub(crate) const GAP_DOUBLINGS: u32 = 4;

/// A root with more than twice as many lines takes its first steps on about so many of them.
pub(crate) const SAMPLE_LINES: usize = 20_000;

/// How many steps it takes on them. With 16 a month of 20 crew needed a tenth more looks at all lines.
pub(crate) const SAMPLE_STEPS: u32 = 24;

/// Lines count as near the least of their person if they weigh more than after so many halvings. With 12
/// `full` months take 5 of a hundred longer, and dense books up to 20; with 7 it is much as with this.
pub(crate) const NEAR_HALVINGS: i64 = 9;

/// About one in so many of a person's lines counts as near at most, and `FEW_NEAR_LINES` more: the reach is
/// cut to a quarter until it is so, `MOST_CUTS` times at most, and then all lines count. Without that the
/// lists of 128 crew of one base with 196,527 lines each took 260 MB.
pub(crate) const NEAR_PART: usize = 12;

/// See `NEAR_PART`.
pub(crate) const FEW_NEAR_LINES: usize = 4_096;

/// See `NEAR_PART`.
pub(crate) const MOST_CUTS: usize = 8;

/// Whether lines are so few is told from one in so many: to count them all took a tenth of the time of 127
/// crew with 196,527 lines each. It is odd, so that it doesn't go in step with lines that have a pairing and
/// lines that don't.
pub(crate) const VALUES_A_SAMPLE: usize = 17;

/// So many looks at near lines come before the next one at all, at first and at most: twice as many as
/// before if no other line had become the least, else half as many.
pub(crate) const LEAST_NEAR_LOOKS: u32 = 8;

/// See `LEAST_NEAR_LOOKS`.
pub(crate) const MOST_NEAR_LOOKS: u32 = 32;

/// After so many lists in a row that hadn't all that counted, looks are at all lines for good, if those are
/// few. If pairings are alike, as in `ties 12 5 6`, too many lines are as near as the least: a list of some
/// of them lacks some pairing, whose price then goes astray.
pub(crate) const MOST_MISLED: u32 = 3;

/// See `MOST_MISLED`.
pub(crate) const FEW_LINES_TO_LOOK_AT: usize = 250_000;

/// How often all persons choose again when a roster is rounded, at most.
pub(crate) const MOST_CHOOSING: usize = 20;

/// The share of a person's lines, of 10, that a pairing best has to be settled next: a person who has it in
/// most of the good lines likely gets it, and much follows if not.
pub(crate) const BEST_SHARE: u64 = 7;

/// What weighs against a choice, in parts of 65536: each person who can have the pairing, and each doubling
/// of the lines.
pub(crate) const PER_PERSON: u64 = 2_000;

/// See `PER_PERSON`.
pub(crate) const PER_DOUBLING: u64 = 1_000;
