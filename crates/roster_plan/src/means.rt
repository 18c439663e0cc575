//! What a plan may take.

ghost use Rattle.std.specs.Prelude.{◌≡◌, ◌<◌, ◌≤◌};

use roster_model::limits::MOST_LINES;

/// The most effort.
pub(crate) const MOST_EFFORT: u32 = 9;

/// How many lines a person may have at effort 0, and as many more with each effort more.
const LINES_AN_EFFORT: usize = 4096;

/// How many lines a person may have in a neighbourhood.
const LINES_NEARBY: usize = 4096;

/// How many times as many lines a person may have in a gap.
const TIMES_IN_A_GAP: usize = 8;

/// How many lines all persons may have in a gap.
const LINES_IN_A_GAP: usize = 6_000_000;

/// How many lines nodes may have to look at in one search at effort 0. Each effort more doubles them.
const FEWEST_WORK: u64 = 1 << 19;

/// How many pairs of a person and a pairing looks at prices go through at effort 0, about; each takes some
/// hundreds of microseconds. Each effort more doubles them.
const FEWEST_PAIRS: u64 = 1 << 15;

/// What a plan may take. It is the same plan for any number of workers.
#[derive(Clone, Copy)]
pub struct Means {
    /// How much is tried, from 0 to 9: each one more doubles what a search of a base or of gaps may look at,
    /// and adds changes of a run, neighbourhoods and looks at prices. What is more counts as 9.
    pub effort: u32,
    /// So many threads at most, and one at least, share what is done for
    /// each person, runs of changes, and searches.
    pub workers: usize,
    /// So many legal sets at most a person may have in one step, from 1 to 200000; less counts as 1, and more
    /// as 200000. If somebody has more, that base, gap or neighbourhood isn't searched. In a gap it is eight
    /// times as many, but 200000 at most, and six million of all persons; in a neighbourhood 4096 at most.
    pub most_sets: usize,
}

impl Means {
    /// Of an effort, with as many legal sets as it allows: 4096 at effort 0, and as many more with each
    /// effort more.
    pub fn of_effort(effort: u32, workers: usize) -> Means
        ensures effort { result.effort ≡ effort }
        ensures workers { result.workers ≡ workers }
        ensures sets { (0 < result.most_sets) × (result.most_sets ≤ MOST_LINES) }
    {
        Means {
            effort,
            workers,
            most_sets: sets_of(effort),
        }
    }

    /// How many efforts there are up to this one.
    pub(crate) fn efforts(&self) -> u32 {
        self.effort.min(MOST_EFFORT).saturating_add(1)
    }

    /// The same with another effort: with as many legal sets as that allows if these are as many as this one
    /// allows, else with as many as these.
    pub(crate) fn at(&self, effort: u32) -> Means
        ensures workers { result.workers ≡ self.now.workers }
    {
        let usual = Means::of_effort(effort, self.workers);
        if self.most_sets == sets_of(self.effort) {
            return usual;
        }
        Means {
            most_sets: self.most_sets,
            ..usual
        }
    }

    /// How many lines a person may have where all are listed.
    pub(crate) fn lines(&self) -> usize
        ensures { (0 < result) × (result ≤ MOST_LINES) }
    {
        self.most_sets.clamp(1, MOST_LINES)
    }

    /// How many lines a person may have where those of a gap are listed, of so many persons.
    pub(crate) fn lines_in_gap(&self, persons: usize) -> usize
        ensures { (0 < result) × (result ≤ MOST_LINES) }
    {
        self.most_sets
            .saturating_mul(TIMES_IN_A_GAP)
            .min(LINES_IN_A_GAP / persons.max(1))
            .clamp(1, MOST_LINES)
    }

    /// How many lines a person may have in a neighbourhood.
    pub(crate) fn lines_nearby(&self) -> usize
        ensures { (0 < result) × (result ≤ MOST_LINES) }
    {
        self.most_sets.clamp(1, LINES_NEARBY)
    }

    /// How many pairs of a person and a pairing looks at prices go through.
    pub(crate) fn pairs(&self) -> u64 {
        FEWEST_PAIRS << self.effort.min(MOST_EFFORT)
    }

    /// How many lines nodes may have to look at in one search of all lines of a base, or of those of the gaps
    /// of all bases.
    pub(crate) fn work(&self) -> u64 {
        FEWEST_WORK << self.effort.min(MOST_EFFORT)
    }
}

/// How many legal sets of a person an effort allows.
fn sets_of(effort: u32) -> usize
    ensures { (0 < result) × (result ≤ MOST_LINES) }
{
    let effort = if effort < MOST_EFFORT {
        effort
    } else {
        MOST_EFFORT
    };
    LINES_AN_EFFORT * (effort as usize + 1)
}
