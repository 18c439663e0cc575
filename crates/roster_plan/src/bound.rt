//! What no roster of a base costs less than.

ghost use Rattle.std.specs.Prelude.{◌<◌, ◌≤ℤ◌, ◌^◌, List, ℕ, length, pos};
ghost use Rattle.roster_model.specs.Costs.{missed_target, missed_targets};
ghost use Rattle.roster_model.specs.Places.{set_of};
ghost use Rattle.roster_cost.specs.Amounts.{most_line_cost};
ghost use Rattle.roster_lines.specs.Listing.{AreAllPairs};
ghost use Rattle.roster_bases.specs.Bases.{only};
ghost use Rattle.roster_bases.specs.Homes.{IsHome, IsHomeBound};
ghost use Rattle.roster_plan.specs.Floors.{IsFloor, IsFloorOf};

use roster_bases::is_person_of;
use roster_cost::line_cost;
use roster_legal::part_of_legal_is_legal;
use roster_lines::Pairs;
use roster_problem::Problem;
use roster_values::Set;

/// More than all persons can miss of their targets, in cost units.
const MOST_MISSED: i64 = 1 << 60;

/// A number that no legal roster in which only persons of the base fly costs less than, in cost units: each
/// pairing costs its penalty, or the units of a person who can fly it. Persons of other bases miss their
/// targets by what their fixed duties leave of them; those of the base miss them by nothing or more.
pub(crate) fn lower_bound(problem: &Problem, pairs: &[Pairs], base: usize) -> i64
    requires { AreAllPairs problem.now pairs.now }
    ensures { IsHomeBound problem.now (only base) result }
{
    problem.is_sound();
    part_of_legal_is_legal();
    let mut bound = missed_by_others(problem, base);
    let mut p = problem.pairings().len();
    while p > 0 {
        p -= 1;
        bound += floor(problem, pairs, base, p);
    }
    bound
}

/// What persons of other bases cost at least, who fly nothing.
fn missed_by_others(problem: &Problem, base: usize) -> i64
    ensures below { (places : List ℕ) → IsHome problem.now (only base) places
        → result ≤ℤ missed_targets problem.now places }
    ensures low { pos 0 ≤ℤ result }
    ensures high { result ≤ℤ pos (2 ^ 60) }
{
    let mut missed = 0;
    for k in 0..problem.persons().len() {
        missed = (missed + missed_by(problem, base, k)).min(MOST_MISSED);
    }
    missed
}

/// What person `k` costs who flies nothing; nothing if the person is of the base.
fn missed_by(problem: &Problem, base: usize, k: usize) -> i64
    requires { k < length problem.now.persons }
    ensures below { (places : List ℕ) → IsHome problem.now (only base) places
        → result ≤ℤ pos (missed_target problem.now k (set_of k places)) }
    ensures low { pos 0 ≤ℤ result }
    ensures high { result ≤ℤ pos most_line_cost }
{
    if is_person_of(problem, k, base) {
        return 0;
    }
    line_cost(problem, k, &Set::empty())
}

/// What the pairing at place `p` costs at least: its penalty, or the units of a person of the base for whom
/// it is legal alone. A set that isn't legal is part of none that is.
fn floor(problem: &Problem, pairs: &[Pairs], base: usize, p: usize) -> i64
    requires pairs { AreAllPairs problem.now pairs.now }
    requires pairing { p < length problem.now.pairings }
    ensures { IsFloor problem.now base p result }
{
    problem.is_sound();
    let mut least = i64::from(problem.pairing(p).penalty);
    for k in 0..problem.persons().len() {
        least = lower(problem, pairs, base, k, p, least);
    }
    least
}

/// The least so far, or the units of person `k` with the pairing if they are fewer, it is legal alone, and
/// the person is of the base.
fn lower(problem: &Problem, pairs: &[Pairs], base: usize, k: usize, p: usize, least: i64) -> i64
    requires pairs { AreAllPairs problem.now pairs.now }
    requires person { k < length problem.now.persons }
    requires pairing { p < length problem.now.pairings }
    ensures { IsFloorOf problem.now base k p least result }
{
    let units = problem.units(k, p);
    if units >= least || !is_person_of(problem, k, base) || !pairs[k].alone.has(p) {
        return least;
    }
    units
}
