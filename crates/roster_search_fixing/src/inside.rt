//! Whether a roster is in a region.

ghost use Rattle.std.specs.Prelude.{◌≡◌, ◌≤◌, ◌↔◌, All, IfOk, IsTrue, length};
ghost use Rattle.roster_search_regions.specs.Regions.{open_in, IsIn, IsRegion};
ghost use Rattle.roster_search_fixing.specs.Inside.{AreChosen, AreStatesKept, IsCountKept};

use roster_problem::{Problem, open_number};
use roster_search_regions::{Region, is_same};
use roster_values::Set;
use std::alloc::{AllocError, Global};

/// Whether each number is a person's or the one for open.
fn are_numbers(problem: &Problem, places: &[u16]) -> bool
    ensures { IsTrue result ↔ All (λ x. x ≤ length problem.now.persons) places.now }
{
    let nobody = open_number(problem);
    places.iter().all(|place| *place <= nobody)
}

/// Whether each person has one of their lines.
fn are_chosen(
    alloc: Global,
    problem: &Problem,
    region: &Region,
    places: &[u16],
) -> Result<bool, AllocError>
    requires region { IsRegion problem.now region.now }
    requires covers { length places.now ≡ length problem.now.pairings }
    ensures { IfOk result
        (λ chosen. IsTrue chosen ↔ AreChosen problem.now region.now places.now) }
{
    problem.is_sound();
    for k in 0..problem.persons().len() {
        let set = Set::of_places(places, k);
        if !region.offers(alloc, k, &set)? {
            return Ok(false);
        }
    }
    Ok(true)
}

/// Whether pairings are open that must be, and none that must not.
fn are_states_kept(problem: &Problem, region: &Region, places: &[u16]) -> bool
    requires { length places.now ≡ length problem.now.pairings }
    ensures { IsTrue result ↔ AreStatesKept problem.now region.now places.now }
{
    problem.is_sound();
    let open = Set::of_places(places, usize::from(open_number(problem)));
    is_same(&region.left_open().and(&open), region.left_open()) && !region.flown().meets(&open)
}

/// How many pairings are open in the places.
fn open_count(problem: &Problem, places: &[u16]) -> usize
    ensures { result ≡ open_in problem.now places.now }
{
    let nobody = open_number(problem);
    places.iter().filter(|place| **place == nobody).count()
}

/// Whether no fewer pairings are open than may be, and no more.
fn is_count_kept(problem: &Problem, region: &Region, places: &[u16]) -> bool
    ensures { IsTrue result ↔ IsCountKept problem.now region.now places.now }
{
    let open = open_count(problem, places);
    region.least_open() <= open && open <= region.most_open()
}

/// Whether the list of places is in the region; any list may be asked for.
pub fn is_in(
    alloc: Global,
    problem: &Problem,
    region: &Region,
    places: &[u16],
) -> Result<bool, AllocError>
    requires { IsRegion problem.now region.now }
    ensures { IfOk result (λ inside. IsTrue inside ↔ IsIn problem.now region.now places.now) }
{
    if places.len() != problem.pairings().len() {
        return Ok(false);
    }
    if !are_numbers(problem, places) {
        return Ok(false);
    }
    if !are_states_kept(problem, region, places) {
        return Ok(false);
    }
    if !is_count_kept(problem, region, places) {
        return Ok(false);
    }
    let chosen = are_chosen(alloc, problem, region, places)?;
    Ok(chosen)
}
