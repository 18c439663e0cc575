//! Rosters that are rounded from prices.

ghost use Rattle.std.specs.Prelude.{◌≡◌, ◌<◌, IfOk, IfSome, length};
ghost use Rattle.roster_search_regions.specs.Regions.{IsRegion};

use crate::near::NearLines;
use crate::tuning::MOST_CHOOSING;
use roster_problem::{Problem, open_number};
use roster_search_regions::{ChoiceList, PersonLines, Region, number_at, scaled_penalty, value_of};
use std::alloc::{AllocError, Global};

/// What a pairing earns that must not be open.
const MUST: i64 = 1 << 50;

/// What each person has on the way to a roster, by the number of its choice.
#[derive(Drop)]
struct Rounding {
    chosen: Vec<usize>,
    nobody: u16,
    // By depth: the prices of the pairings on the way.
    sums: Vec<i64>,
}

/// A roster that is near the best at these prices and seems to cost no more than the room: persons choose
/// one after the other, from the one at place `turn` on, and then again as long as one of them saves
/// something by it. None if no line is left for a person, or if it costs more. Nothing is promised
/// of the places but how many they are. The room is as in `Ascent::look`.
pub fn rounded(
    alloc: Global,
    problem: &Problem,
    region: &Region,
    prices: &[i64],
    room: i64,
    turn: usize,
) -> Result<Option<Vec<u16>>, AllocError>
    requires { IsRegion problem.now region.now }
    ensures { IfOk result (λ places. IfSome places
        (λ places. length places.items ≡ length problem.now.pairings)) }
{
    let all = NearLines::all(alloc);
    rounded_among(alloc, problem, region, &all, prices, room, turn)
}

/// `rounded`, if persons choose among the lines that count.
pub(crate) fn rounded_among(
    alloc: Global,
    problem: &Problem,
    region: &Region,
    near: &NearLines,
    prices: &[i64],
    room: i64,
    turn: usize,
) -> Result<Option<Vec<u16>>, AllocError>
    requires { IsRegion problem.now region.now }
    ensures { IfOk result (λ places. IfSome places
        (λ places. length places.items ≡ length problem.now.pairings)) }
{
    let mut places = vec![in alloc; open_number(problem); problem.pairings().len()]?;
    let mut draft = Rounding::new(alloc, problem)?;
    if !draft.choose_all(problem, region, near, prices, turn, &mut places) {
        return Ok(None);
    }
    let savings = savings(alloc, problem, region)?;
    draft.improve(problem, region, near, &savings, turn, &mut places);
    if draft.cost(problem, region, near, &places) > room {
        return Ok(None);
    }
    Ok(Some(places))
}

/// What each pairing saves that isn't left open.
fn savings(alloc: Global, problem: &Problem, region: &Region) -> Result<Vec<i64>, AllocError> {
    let mut savings = Vec::new(alloc);
    for p in 0..problem.pairings().len() {
        let saved = if region.is_flown(p) {
            MUST
        } else {
            scaled_penalty(problem, region.scale(), p)
        };
        savings.push(saved)?;
    }
    Ok(savings)
}

/// The number in turn after so many others.
fn in_turn(turn: usize, step: usize, count: usize) -> usize
    requires { step < count }
    ensures { result < count }
{
    (turn % count).wrapping_add(step) % count
}

impl Rounding {
    /// Nobody has anything.
    fn new(alloc: Global, problem: &Problem) -> Result<Rounding, AllocError> {
        Ok(Rounding {
            chosen: vec![in alloc; 0; problem.persons().len()]?,
            nobody: open_number(problem),
            sums: vec![in alloc; 0; problem.pairings().len().saturating_add(1)]?,
        })
    }

    /// What the places cost, in parts of a cost unit, without what empty lines cost.
    fn cost(&self, problem: &Problem, region: &Region, near: &NearLines, places: &[u16]) -> i64
        requires { IsRegion problem.now region.now }
    {
        let mut cost: i64 = 0;
        for k in 0..problem.persons().len() {
            let choices = near.choices(region, k);
            let chosen = self.chosen_by(k);
            if chosen < choices.len() {
                cost = cost.wrapping_add(choices.at(chosen).extra);
            }
        }
        for (p, place) in places.iter().enumerate() {
            if *place == self.nobody {
                cost = cost.wrapping_add(scaled_penalty(problem, region.scale(), p));
            }
        }
        cost
    }

    /// Each person takes a line of what is left, those with one line first. False if there is none.
    fn choose_all(
        &mut self,
        problem: &Problem,
        region: &Region,
        near: &NearLines,
        prices: &[i64],
        turn: usize,
        places: &mut [u16],
    ) -> bool
        requires { IsRegion problem.now region.now }
    {
        let count = problem.persons().len();
        for k in 0..count {
            if region.width(k) == 1 && !self.choose(region, near, prices, k, places) {
                return false;
            }
        }
        for step in 0..count {
            let k = in_turn(turn, step, count);
            if region.width(k) != 1 && !self.choose(region, near, prices, k, places) {
                return false;
            }
        }
        true
    }

    /// Person `k` takes the line of least value of what is left. False if there is none.
    fn choose(
        &mut self,
        region: &Region,
        near: &NearLines,
        prices: &[i64],
        k: usize,
        places: &mut [u16],
    ) -> bool
        requires { k < length region.now.choices }
    {
        let choices = near.choices(region, k);
        match self.best_choice(&choices, prices, k, places) {
            Some(i) => {
                self.take(&choices, i, k, places);
                true
            }
            None => false,
        }
    }

    /// The choice that person `k` has taken.
    fn chosen_by(&self, k: usize) -> usize {
        if k < self.chosen.len() {
            self.chosen[k]
        } else {
            0
        }
    }

    /// Persons choose again, until nobody saves anything by it.
    fn improve(
        &mut self,
        problem: &Problem,
        region: &Region,
        near: &NearLines,
        savings: &[i64],
        turn: usize,
        places: &mut [u16],
    )
        requires { IsRegion problem.now region.now }
    {
        for _round in 0..MOST_CHOOSING {
            if !self.improve_once(problem, region, near, savings, turn, places) {
                return;
            }
        }
    }

    /// Each person chooses again. Whether somebody saved something.
    fn improve_once(
        &mut self,
        problem: &Problem,
        region: &Region,
        near: &NearLines,
        savings: &[i64],
        turn: usize,
        places: &mut [u16],
    ) -> bool
        requires { IsRegion problem.now region.now }
    {
        let count = problem.persons().len();
        let mut saved = false;
        for step in 0..count {
            let k = in_turn(turn, step, count);
            if region.width(k) > 1 && self.choose_again(region, near, savings, k, places) {
                saved = true;
            }
        }
        saved
    }

    /// Person `k` chooses again. Whether something is saved by it.
    fn choose_again(
        &mut self,
        region: &Region,
        near: &NearLines,
        savings: &[i64],
        k: usize,
        places: &mut [u16],
    ) -> bool
        requires { k < length region.now.choices }
    {
        let choices = near.choices(region, k);
        let chosen = self.chosen_by(k);
        let Some(i) = self.best_choice(&choices, savings, k, places) else {
            return false;
        };
        if value_at(&choices, savings, i) >= value_at(&choices, savings, chosen) {
            return false;
        }
        put(&choices, chosen, self.nobody, places);
        self.take(&choices, i, k, places);
        true
    }

    /// Person `k` takes the line of choice `i`.
    fn take(&mut self, choices: &PersonLines<'_>, i: usize, k: usize, places: &mut [u16]) {
        if k < self.chosen.len() {
            self.chosen[k] = i;
        }
        let number = k.min(usize::from(self.nobody)) as u16;
        put(choices, i, number, places);
    }

    /// The choice of least value among those whose pairings nobody else has.
    fn best_choice(
        &mut self,
        choices: &PersonLines<'_>,
        prices: &[i64],
        k: usize,
        places: &[u16],
    ) -> Option<usize> {
        match choices.rows() {
            Some(rows) => self.best_in(&rows.copy(), prices, k, places),
            None => self.best_in(&choices.written(), prices, k, places),
        }
    }

    /// The choice of least value in a list.
    fn best_in<L: ChoiceList>(
        &mut self,
        choices: &L,
        prices: &[i64],
        k: usize,
        places: &[u16],
    ) -> Option<usize> {
        best_of(choices, prices, k, self.nobody, places, &mut self.sums)
    }
}

/// The choice of least value in a list among those whose pairings nobody but person `k` has. The sums are
/// those on the way, by depth.
fn best_of<L: ChoiceList>(
    choices: &L,
    prices: &[i64],
    k: usize,
    nobody: u16,
    places: &[u16],
    sums: &mut [i64],
) -> Option<usize> {
    let mut best = None;
    let mut least = i64::MAX;
    // Choices deeper than this go on from one whose pairing somebody else has.
    let mut free = usize::MAX;
    for i in 0..choices.count() {
        let choice = choices.choice(i);
        let depth = usize::from(choice.depth);
        if depth > free {
            continue;
        }
        free = usize::MAX;
        if depth > 0 && is_taken(places, usize::from(choice.last), k, nobody) {
            free = depth;
            continue;
        }
        let value = value_of(&choice, prices, sums);
        if choice.live && value < least {
            least = value;
            best = Some(i);
        }
    }
    best
}

/// Puts the number at the pairings of the line of choice `i`.
fn put(choices: &PersonLines<'_>, i: usize, number: u16, places: &mut [u16]) {
    let mut depth = depth_at(choices, i);
    for back in 0..choices.len() {
        if depth == 0 || back > i {
            return;
        }
        if depth_at(choices, i - back) == depth {
            let p = last_at(choices, i - back);
            if p < places.len() {
                places[p] = number;
            }
            depth -= 1;
        }
    }
}

/// Whether somebody else than person `k` has the pairing at place `p`.
fn is_taken(places: &[u16], p: usize, k: usize, nobody: u16) -> bool {
    if p >= places.len() {
        return false;
    }
    let place = places[p];
    place != nobody && usize::from(place) != k
}

/// The depth of choice `i`, or 0 past the last.
fn depth_at(choices: &PersonLines<'_>, i: usize) -> u16 {
    choices.at(i).depth
}

/// The last pairing of choice `i`, or 0 past the last.
fn last_at(choices: &PersonLines<'_>, i: usize) -> usize {
    usize::from(choices.at(i).last)
}

/// The value of the line of choice `i`.
fn value_at(choices: &PersonLines<'_>, prices: &[i64], i: usize) -> i64 {
    let mut value = choices.at(i).extra;
    let mut depth = depth_at(choices, i);
    for back in 0..choices.len() {
        if depth == 0 || back > i {
            return value;
        }
        if depth_at(choices, i - back) == depth {
            value = value.wrapping_sub(number_at(prices, last_at(choices, i - back)));
            depth -= 1;
        }
    }
    value
}
