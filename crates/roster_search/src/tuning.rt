//! Numbers that were found by measuring, and what was measured. Each may be another one: nothing that a
//! search answers rests on them, only how long it takes.

/// How often prices move before a search, at most. With 150 there were 4,400 nodes for six dense books of
/// 20 crew and 7 days, and 630 with twice as many.
pub(crate) const ROOT_STEPS: usize = 300;

/// How often they move, at most, if a linear program is solved then.
pub(crate) const STEPS_OF_FEW_ROWS: usize = 30;

/// And if it has more rows than few: good prices to begin with save half of its steps.
pub(crate) const STEPS_OF_MANY_ROWS: usize = 80;

/// See `STEPS_OF_MANY_ROWS`.
pub(crate) const FEW_ROWS: usize = 150;

/// How often a linear program is solved at a node, at most.
pub(crate) const MOST_SOLUTIONS: usize = 100;

/// After so many of these steps a roster is rounded again, unless the look is at a sample. With 8 a `full`
/// month takes 1 of a hundred longer, and with 16 a `large` one took a third longer.
pub(crate) const STEPS_A_ROUNDING: usize = 12;

/// With more lines than this a root fixes nothing: to write the lines that are left takes as long as some
/// looks at all of them, and few of those come.
pub(crate) const FEW_LINES_TO_FIX: usize = 100_000;

/// How often prices move at a node, at most. With none or 5 there were a hundred times the nodes.
pub(crate) const NODE_STEPS: usize = 20;

/// With more lines than this a node fixes by the prices of the node above before it looks: of 25 million
/// lines (127 crew of `bench/crowd`) that takes 0.1 s if nothing goes, where a look takes 0.4 s.
pub(crate) const MANY_LINES: usize = 20_000;

/// After this step a roster is rounded, and after the last one.
pub(crate) const FIRST_ROUNDING: usize = 1;
