//! What a roster gives to a person.

ghost use Rattle.std.specs.Prelude.{◌≡◌, ◌<◌, All, IfOk, MatchOption, length};
ghost use Rattle.roster_model.specs.Rules.{Holds, Rule, duty_list};
ghost use Rattle.roster_model.specs.Places.{set_of};
ghost use Rattle.roster_legal_reasons.specs.Reasons.{IsReason};

use roster_legal::merge;
use roster_legal_reasons::{Reason, first_reason};
use roster_problem::{DutyList, Problem};
use roster_values::Set;
use std::alloc::{AllocError, Global};

/// The pairings of person `k` with the roster.
#[tactic(auto, using(roster_model::proofs::SetLemmas::places_of_number))]
pub fn set_with(problem: &Problem, places: &[u16], k: usize) -> Set
    requires { length places.now ≡ length problem.now.pairings }
    ensures value { result ≡ set_of k places.now }
    ensures places { All (λ p. p < length problem.now.pairings) result }
{
    problem.is_sound();
    Set::of_places(places, k)
}

/// The duties of person `k` with the roster, by report: the fixed ones and those of the person's pairings.
pub fn duties_with<'a>(
    alloc: Global,
    problem: &'a Problem,
    places: &[u16],
    k: usize,
) -> Result<DutyList<'a>, AllocError>
    requires covers { length places.now ≡ length problem.now.pairings }
    requires person { k < length problem.now.persons }
    ensures { IfOk result (λ list. list ≡ duty_list problem.now k (set_of k places.now)) }
{
    merge(alloc, problem, k, &set_with(problem, places, k))
}

/// What first breaks the first rule that person `k` breaks with the roster, if there is one. If it gives the
/// person nothing, that is what locks the person.
pub fn broken_with(
    alloc: Global,
    problem: &Problem,
    places: &[u16],
    k: usize,
) -> Result<Option<Reason>, AllocError>
    requires covers { length places.now ≡ length problem.now.pairings }
    requires person { k < length problem.now.persons }
    ensures { IfOk result (λ reason. MatchOption reason
        ((rule : Rule) → Holds problem.now k (set_of k places.now) rule)
        (IsReason problem.now k (set_of k places.now))) }
{
    first_reason(alloc, problem, k, &set_with(problem, places, k))
}
