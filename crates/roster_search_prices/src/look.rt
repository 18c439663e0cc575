//! A look at the lines of persons at some prices: the least value, and which pairings the best lines hold.

ghost use Rattle.std.specs.Prelude.{◌<◌, length};
ghost use Rattle.roster_search_regions.specs.Regions.{IsRegion};

use crate::near::NearLines;
use crate::picking::lines_within;
use crate::powers::halved;
use crate::scope::Scope;
use crate::tuning::{FEW_NEAR_LINES, MOST_CUTS, NEAR_PART, VALUES_A_SAMPLE};
use roster_problem::Problem;
use roster_search_regions::{
    Choice, ChoiceList, DualPrices, PersonLines, Region, number_at, value_of,
};
use std::alloc::{AllocError, Global};

/// One whole, of which covers are parts.
pub(crate) const WHOLE: u64 = 65_536;

/// What a look is taken at: the prices, the persons and pairings that are left, and how far above the least
/// of its person a line is listed, if any is.
#[derive(Clone, Copy)]
pub(crate) struct Aim<'a> {
    pub(crate) prices: &'a DualPrices,
    pub(crate) scope: &'a Scope,
    pub(crate) reach: Option<i64>,
}

/// Some lines of person `k`, as a tree.
#[derive(Drop)]
pub(crate) struct List {
    pub(crate) k: usize,
    pub(crate) choices: Vec<Choice>,
}

/// How often each pairing is held by the lines that were looked at, if each person spreads over their
/// lines: the nearer to the least the value of a line is, the greater is its share. The other lists are
/// kept from one look to the next, for their memory.
#[derive(Drop)]
pub(crate) struct Look {
    covers: Vec<u64>,
    values: Vec<i64>,
    // By depth: the prices of the pairings on the way, and the weights of the lines below.
    sums: Vec<i64>,
    weights: Vec<u64>,
    // By pairing: the weights of a person's lines that hold it.
    masses: Vec<u64>,
    // The least values of the persons that were looked at, in all.
    bound: i64,
    // How far a line's value is above the least of its person, at most.
    spread: i64,
    // Lines that were near the least.
    lists: Vec<List>,
    // Whether memory ran out.
    failed: bool,
}

impl Look {
    /// Nothing was looked at, in a problem of so many pairings.
    pub(crate) fn new(alloc: Global, pairings: usize) -> Result<Look, AllocError> {
        // No line is deeper than there are pairings, and below the deepest one there is nothing.
        let depths = pairings.saturating_add(2);
        Ok(Look {
            covers: vec![in alloc; 0; pairings]?,
            values: Vec::new(alloc),
            sums: vec![in alloc; 0; depths]?,
            weights: vec![in alloc; 0; depths]?,
            masses: vec![in alloc; 0; pairings]?,
            bound: 0,
            spread: 0,
            lists: Vec::new(alloc),
            failed: false,
        })
    }

    /// Begins anew, for these pairings.
    pub(crate) fn clear(&mut self, pairings: &[usize]) {
        for p in pairings {
            if *p < self.covers.len() {
                self.covers[*p] = 0;
            }
        }
        self.bound = 0;
        self.spread = 0;
        self.failed = false;
    }

    /// Looks anew at every so many-th of the persons in the scope, from a turn on. If a reach is given, it
    /// lists the lines that are within it of the least. It takes note if memory runs out.
    pub(crate) fn at_every(
        &mut self,
        alloc: Global,
        problem: &Problem,
        region: &Region,
        aim: Aim<'_>,
        turn: usize,
        turns: usize,
    )
        requires region { IsRegion problem.now region.now }
        requires turns { 0 < turns }
    {
        self.clear(aim.scope.pairings());
        for (i, k) in aim.scope.persons().iter().enumerate() {
            if i % turns == turn && *k < problem.persons().len() {
                let looked = self.at_person(alloc, region, aim, *k);
                if looked.is_err() {
                    self.failed = true;
                }
            }
        }
    }

    /// Looks at the lines of person `k`.
    fn at_person(
        &mut self,
        alloc: Global,
        region: &Region,
        aim: Aim<'_>,
        k: usize,
    ) -> Result<(), AllocError>
        requires { k < length region.now.choices }
    {
        let all = PersonLines::All(region.choices(k));
        let (prices, softness) = (aim.prices.prices(), aim.prices.softness());
        let least = self.add(&all, aim.scope, prices, softness)?;
        self.bound = self.bound.wrapping_add(least);
        if let Some(reach) = aim.reach {
            let few = self.values.len() / NEAR_PART + FEW_NEAR_LINES;
            let choices = match most_of_few(&self.values, least, reach, few) {
                Some(most) => lines_within(alloc, &all, &self.values, most)?,
                None => Vec::new(alloc),
            };
            self.lists.push(List { k, choices })?;
        }
        Ok(())
    }

    /// Looks anew at the lines that count of each person in the scope.
    pub(crate) fn at_near(
        &mut self,
        problem: &Problem,
        region: &Region,
        prices: &DualPrices,
        scope: &Scope,
        near: &NearLines,
    ) -> Result<(), AllocError>
        requires { IsRegion problem.now region.now }
    {
        self.clear(scope.pairings());
        for k in scope.persons() {
            if *k < problem.persons().len() {
                let choices = near.choices(region, *k);
                let least = self.add(&choices, scope, prices.prices(), prices.softness())?;
                self.bound = self.bound.wrapping_add(least);
            }
        }
        Ok(())
    }

    /// Adds what another look found.
    pub(crate) fn join(&mut self, other: &Look, scope: &Scope) {
        for p in scope.pairings() {
            if *p < self.covers.len() {
                self.covers[*p] = self.covers[*p].saturating_add(other.cover(*p));
            }
        }
        self.bound = self.bound.wrapping_add(other.bound);
        self.spread = self.spread.max(other.spread);
        self.failed = self.failed || other.failed;
    }

    /// How many lists it has made.
    pub(crate) fn listed(&self) -> usize {
        self.lists.len()
    }

    /// One of the lists that it has made.
    pub(crate) fn next_list(&mut self) -> Option<List> {
        self.lists.pop()
    }

    /// The least values of all persons that it looked at, in all.
    pub(crate) fn bound(&self) -> i64 {
        self.bound
    }

    /// How far the value of a line is above the least one of its person, at most.
    pub(crate) fn spread(&self) -> i64 {
        self.spread
    }

    /// Tells whether memory ran out.
    pub(crate) fn whole(&self) -> Result<(), AllocError> {
        if self.failed {
            return Err(AllocError);
        }
        Ok(())
    }

    /// How often the pairing at place `p` is held, in parts of a whole.
    pub(crate) fn cover(&self, p: usize) -> u64 {
        if p < self.covers.len() {
            self.covers[p]
        } else {
            0
        }
    }

    /// Adds what a person's lines hold at the prices, and gives the least value of a line.
    pub(crate) fn add(
        &mut self,
        choices: &PersonLines<'_>,
        scope: &Scope,
        prices: &[i64],
        softness: u32,
    ) -> Result<i64, AllocError> {
        match choices.rows() {
            Some(rows) => self.add_list(&rows.copy(), scope, prices, softness),
            None => self.add_list(&choices.written(), scope, prices, softness),
        }
    }

    /// Adds what the lines of a list hold.
    fn add_list<L: ChoiceList>(
        &mut self,
        choices: &L,
        scope: &Scope,
        prices: &[i64],
        softness: u32,
    ) -> Result<i64, AllocError> {
        self.values.resize(choices.count(), 0)?;
        let (least, greatest) = read_values(choices, prices, &mut self.sums, &mut self.values);
        self.spread = self.spread.max(greatest.wrapping_sub(least));
        let (weights, masses) = (&mut self.weights, &mut self.masses);
        let total = weigh(choices, &self.values, least, softness, weights, masses);
        self.share(total, scope.pairings());
        Ok(least)
    }

    /// Adds the parts that the masses of these pairings are of the total.
    fn share(&mut self, total: u64, pairings: &[usize]) {
        let part = total / WHOLE + 1;
        for p in pairings {
            let p = *p;
            if p < self.covers.len() && p < self.masses.len() && self.masses[p] > 0 {
                self.covers[p] = self.covers[p].saturating_add(self.masses[p] / part);
                self.masses[p] = 0;
            }
        }
        // The weights of all others have been handed on.
        if self.weights.len() > 1 {
            self.weights[1] = 0;
        }
    }
}

/// Reads the value of each choice, and gives the least and the greatest of a line. The sums are those on the
/// way, by depth.
fn read_values<L: ChoiceList>(
    choices: &L,
    prices: &[i64],
    sums: &mut [i64],
    values: &mut [i64],
) -> (i64, i64) {
    let mut least = i64::MAX;
    let mut greatest = i64::MIN;
    for i in 0..values.len() {
        let choice = choices.choice(i);
        let value = value_of(&choice, prices, sums);
        values[i] = value;
        if choice.live {
            least = least.min(value);
            greatest = greatest.max(value);
        }
    }
    (least, greatest)
}

/// Weighs the choices from the last to the first, and gives the weight of all lines.
fn weigh<L: ChoiceList>(
    choices: &L,
    values: &[i64],
    least: i64,
    softness: u32,
    weights: &mut [u64],
    masses: &mut [u64],
) -> u64 {
    let mut total: u64 = 0;
    let count = values.len();
    for back in 0..count {
        let i = count - 1 - back;
        let choice = choices.choice(i);
        let weight = if choice.live {
            halved(values[i].wrapping_sub(least).unsigned_abs(), softness)
        } else {
            0
        };
        total = total.wrapping_add(weight);
        climb(&choice, weight, weights, masses);
    }
    total
}

/// Adds the weight to those of the lines below the choice, and hands them on to the one above.
#[inline]
fn climb(choice: &Choice, weight: u64, weights: &mut [u64], masses: &mut [u64]) {
    let depth = usize::from(choice.depth);
    let last = usize::from(choice.last);
    if depth == 0 || depth + 1 >= weights.len() || last >= masses.len() {
        return;
    }
    let all = weight.wrapping_add(weights[depth + 1]);
    // So it is with most lines, once prices are good.
    if all == 0 {
        return;
    }
    weights[depth + 1] = 0;
    weights[depth] = weights[depth].wrapping_add(all);
    masses[last] = masses[last].wrapping_add(all);
}

/// The most that a value may be to be within this reach of the least, or within a shorter one if too many
/// are; none if they are too many even then.
fn most_of_few(values: &[i64], least: i64, reach: i64, few: usize) -> Option<i64> {
    let mut reach = reach;
    for _ in 0..MOST_CUTS {
        let most = least.saturating_add(reach);
        if are_few_within(values, most, few) {
            return Some(most);
        }
        reach /= 4;
    }
    None
}

/// Whether no more than about so few of the values are at most so much, as far as some of them tell.
fn are_few_within(values: &[i64], most: i64, few: usize) -> bool {
    let mut count: usize = 0;
    for some in values.chunks(VALUES_A_SAMPLE) {
        if let Some(value) = some.first() {
            count = count.wrapping_add(usize::from(*value <= most));
        }
    }
    count <= few.div_ceil(VALUES_A_SAMPLE)
}
