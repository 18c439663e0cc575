//! How dear the pairings of a month are. Nothing rests on it.

use roster_problem::Problem;

/// What a pairing costs that stays open, about, in the months that the numbers of `tuning` were found with,
/// in cost units.
const USUAL_PENALTY: u64 = 8_192;

/// No month counts as dearer than so many times that.
const MOST_DEARNESS: u64 = 1 << 20;

/// How many times as dear it is as in those months to leave a pairing open, in the mean; 1 at least.
pub(crate) fn dearness(problem: &Problem) -> i64 {
    let mut sum: u64 = 0;
    for pairing in problem.pairings() {
        sum = sum.wrapping_add(u64::from(pairing.penalty));
    }
    let count = problem.pairings().len().max(1) as u64;
    (sum / count / USUAL_PENALTY).clamp(1, MOST_DEARNESS) as i64
}

/// The most units, below 0 or above, that a person has for a pairing.
pub(crate) fn most_units(problem: &Problem) -> i64 {
    let mut most: i64 = 0;
    for k in 0..problem.persons().len() {
        for p in 0..problem.pairings().len() {
            most = most.max(problem.units(k, p).saturating_abs());
        }
    }
    most
}
