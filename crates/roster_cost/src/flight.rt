//! The month's flight of a person, put together from that of the fixed duties and of pairings.

ghost use Rattle.std.specs.Prelude.{◌≡◌, ◌<◌, ◌≤◌, ◌*◌, [], ℕ, All, List, length};
ghost use Rattle.roster_model.specs.Costs.{flight_of};
ghost use Rattle.roster_model.specs.Problem.{home_of};
ghost use Rattle.roster_model.specs.Rules.{duty_list};
ghost use Rattle.roster_model.specs.Sums.{month_flight};
ghost use Rattle.roster_problem.specs.Duties.{picked};
ghost use Rattle.roster_cost.specs.Amounts.{minutes_of_pairing, most_flight};

use roster_cumulative::{duty_flight, flight_of_duties, flight_of_set};
use roster_model::limits::{MOST_DUTIES, MOST_MONTH_MINUTES};
use roster_problem::Problem;
use roster_values::Set;

/// The flight of the duties at the positions, by the days of person `k`.
fn flight_at(problem: &Problem, k: usize, positions: &[u16]) -> u64
    requires person { k < length problem.now.persons }
    requires within { All (λ i. i < length problem.now.duties) positions.now }
    requires few { length positions.now ≤ MOST_DUTIES }
    ensures { result ≡ month_flight (home_of problem.now k).days
        (picked problem.now.duties positions.now) }
{
    flight_of_duties();
    let days = problem.days_of(k);
    let duties = problem.duties();
    let mut minutes = 0;
    for position in positions {
        minutes += duty_flight(days, &duties[usize::from(*position)]) as u64;
    }
    minutes
}

/// The minutes of flight of the fixed duties of person `k` in the month, which are those of the empty
/// set.
pub fn fixed_flight(problem: &Problem, k: usize) -> u64
    requires { k < length problem.now.persons }
    ensures value { result ≡ flight_of problem.now k [] }
    ensures bound { (set : List ℕ) → flight_of problem.now k set
        ≤ length (duty_list problem.now k set) * MOST_MONTH_MINUTES }
    ensures most { (set : List ℕ) → flight_of problem.now k set ≤ most_flight }
{
    flight_of_duties();
    prove!(problem.duties().len() <= MOST_DUTIES);
    prove!(problem.days_of(k).month_days() <= 31);
    flight_at(problem, k, problem.fixed(k))
}

/// The minutes of flight of the duties of the pairing at place `p` in the month, by the days of person
/// `k`. They are what the pairing brings to a set that doesn't have it.
pub fn pairing_flight(problem: &Problem, k: usize, p: usize) -> u64
    requires person { k < length problem.now.persons }
    requires pairing { p < length problem.now.pairings }
    ensures { result ≡ minutes_of_pairing problem.now k p }
{
    flight_at(problem, k, problem.duties_of(p))
}

/// The minutes of flight of person `k` in the month with the set, fixed duties included.
pub(crate) fn set_flight(problem: &Problem, k: usize, set: &Set) -> u64
    requires person { k < length problem.now.persons }
    requires places { All (λ p. p < length problem.now.pairings) set.now }
    ensures value { result ≡ flight_of problem.now k set.now }
    ensures bound { result ≤ length (duty_list problem.now k set.now) * MOST_MONTH_MINUTES }
    ensures most { result ≤ most_flight }
{
    flight_of_set();
    let mut minutes = fixed_flight(problem, k);
    let mut from = 0;
    while let Some(p) = set.first_from(from) {
        minutes += pairing_flight(problem, k, p);
        from = p + 1;
    }
    minutes
}
