//! How often prices are looked at, and how many threads share that.

ghost use Rattle.std.specs.Prelude.{◌<◌};

use crate::apart::Gap;
use crate::means::{MOST_EFFORT, Means};
use crate::parts::{BasePlan, is_open};
use roster_bases::{count_of_pairings, count_of_persons};
use roster_model::limits::MOST_BASES;
use roster_problem::Problem;

/// How often prices of a base are looked at, at most, at effort 0, and how often more at each effort more.
const FEWEST_LOOKS: u32 = 8;

const LOOKS_AN_EFFORT: u32 = 12;

/// There are more if they are cheap: as many as take one of so many parts of the time that there is for
/// pairs, but no more than so many.
const PART_FOR_CHEAP: u64 = 8;

const MOST_LOOKS: u64 = 1000;

/// How many threads share the bases, and how many the persons of each: all workers the one or the other,
/// whichever looks sooner at the persons of all bases that aren't done.
pub(crate) fn shares(workers: usize, gaps: &[Gap<'_>]) -> (usize, usize)
    requires { 0 < workers }
    ensures { (0 < result.0) × (0 < result.1) }
{
    // Each thread has so many bases, one behind another.
    let run = gaps.len().div_ceil(workers).max(1);
    let (mut in_run, mut longest, mut in_turn) = (0usize, 0usize, 0usize);
    for i in 0..gaps.len() {
        if i % run == 0 {
            in_run = 0;
        }
        let gap = &gaps[i];
        if !gap.priced.is_done(gap.cost) {
            in_run = in_run.wrapping_add(gap.crew);
            in_turn = in_turn.wrapping_add(gap.crew.div_ceil(workers));
        }
        longest = longest.max(in_run);
    }
    if longest <= in_turn {
        (workers, 1)
    } else {
        (1, workers)
    }
}

/// How often an effort and those before it look at the prices of each base that isn't settled: more often the
/// greater it is, if there is time for so many pairs, and more often still if a look goes through few.
pub(crate) fn looks_of(problem: &Problem, parts: &[BasePlan], means: &Means) -> u32 {
    let effort = if means.effort < MOST_EFFORT {
        means.effort
    } else {
        MOST_EFFORT
    };
    let looks = FEWEST_LOOKS + LOOKS_AN_EFFORT * effort;
    let in_time = means.pairs() / pairs_of(problem, parts).max(1);
    let cheap = (in_time / PART_FOR_CHEAP).min(MOST_LOOKS);
    in_time.min(cheap.max(u64::from(looks))) as u32
}

/// How many pairs a look goes through: each person of those bases, with each pairing of the same base.
fn pairs_of(problem: &Problem, parts: &[BasePlan]) -> u64 {
    let mut pairs: u64 = 0;
    for base in 0..MOST_BASES {
        if is_open(parts, base) {
            let crew = count_of_persons(problem, base) as u64;
            let pairings = count_of_pairings(problem, base) as u64;
            pairs = pairs.wrapping_add(crew.wrapping_mul(pairings));
        }
    }
    pairs
}
