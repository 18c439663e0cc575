//! Lines that cost little at some prices.

ghost use Rattle.std.specs.Prelude.{◌<◌, ◌≤◌, length};
ghost use Rattle.roster_search_regions.specs.Regions.{IsRegion};

use crate::program_rows::put_row;
use roster_model::limits::MOST_PAIRINGS;
use roster_problem::Problem;
use roster_search_regions::{Choice, ChoiceList, PersonLines, Region, value_of};
use roster_values::Set;
use std::alloc::{AllocError, Global};

/// A line that was found: the row of its person, the rows of its pairings, and what it costs more than the
/// empty one, in parts of a cost unit.
#[derive(Clone, Copy)]
pub(crate) struct FoundLine {
    pub(crate) row: usize,
    pub(crate) set: Set,
    pub(crate) extra: i64,
    // What is left of that without the prices of its pairings.
    value: i64,
}

/// Which lines are sought: those of the persons in the list, the cheapest of each whose value is below the
/// person's limit, and so many at most. Pairings have the rows that stand at their places.
#[derive(Clone, Copy)]
pub(crate) struct Sought<'a> {
    pub(crate) persons: &'a [usize],
    pub(crate) limits: &'a [i64],
    pub(crate) rows: &'a [usize],
    pub(crate) most: usize,
}

/// Looks through lines, and keeps what it finds.
#[derive(Drop)]
pub(crate) struct Seeker {
    // By depth: the prices of the pairings on the way, and the pairings.
    sums: Vec<i64>,
    path: Vec<u16>,
    // The cheapest lines of the person that is looked at, the cheapest first.
    best: Vec<FoundLine>,
    found: Vec<FoundLine>,
    // The least values of the persons that were looked at, in all.
    bound: i64,
    // Whether memory ran out.
    failed: bool,
}

impl Seeker {
    /// Nothing was looked at, in a problem of so many pairings.
    pub(crate) fn new(alloc: Global, pairings: usize) -> Result<Seeker, AllocError> {
        let depths = pairings.saturating_add(2);
        Ok(Seeker {
            sums: vec![in alloc; 0; depths]?,
            path: vec![in alloc; 0; depths]?,
            best: Vec::new(alloc),
            found: Vec::new(alloc),
            bound: 0,
            failed: false,
        })
    }

    /// The least values of the persons that were looked at, in all.
    pub(crate) fn bound(&self) -> i64 {
        self.bound
    }

    /// What was found.
    pub(crate) fn found(&self) -> &[FoundLine] {
        &self.found
    }

    /// Tells whether memory ran out.
    pub(crate) fn whole(&self) -> Result<(), AllocError> {
        if self.failed {
            return Err(AllocError);
        }
        Ok(())
    }

    /// Looks anew at every so many-th of the persons, from a turn on. It takes note if memory runs out.
    pub(crate) fn at_every(
        &mut self,
        problem: &Problem,
        region: &Region,
        prices: &[i64],
        sought: Sought<'_>,
        turn: usize,
        turns: usize,
    )
        requires region { IsRegion problem.now region.now }
        requires turns { 0 < turns }
    {
        self.found.clear();
        self.bound = 0;
        self.failed = false;
        for (row, k) in sought.persons.iter().enumerate() {
            if row % turns == turn && *k < problem.persons().len() {
                self.at_person(region, prices, sought, row, *k);
            }
        }
    }

    /// Looks at the lines of person `k`, who has this row.
    fn at_person(
        &mut self,
        region: &Region,
        prices: &[i64],
        sought: Sought<'_>,
        row: usize,
        k: usize,
    )
        requires { k < length region.now.choices }
    {
        let choices = PersonLines::All(region.choices(k));
        self.best.clear();
        let least = match choices.rows() {
            Some(list) => self.seek(&list.copy(), prices, sought, row),
            None => self.seek(&choices.written(), prices, sought, row),
        };
        match least {
            Ok(least) => self.bound = self.bound.saturating_add(least),
            Err(_) => self.failed = true,
        }
        if self.found.extend_from_slice(&self.best).is_err() {
            self.failed = true;
        }
    }

    /// Looks at the lines of a list, and gives the least value of one.
    fn seek<L: ChoiceList>(
        &mut self,
        choices: &L,
        prices: &[i64],
        sought: Sought<'_>,
        row: usize,
    ) -> Result<i64, AllocError> {
        let mut least = i64::MAX;
        let mut limit = match sought.limits.get(row) {
            Some(limit) => *limit,
            None => i64::MIN,
        };
        for i in 0..choices.count() {
            let choice = choices.choice(i);
            let value = value_of(&choice, prices, &mut self.sums);
            step(&choice, &mut self.path);
            if choice.live && value < least {
                least = value;
            }
            if choice.live && value < limit {
                limit = self.keep(&choice, value, limit, sought, row)?;
            }
        }
        Ok(least)
    }

    /// Keeps the line of the choice to which the path leads. It gives what the value of the next one is to be
    /// below.
    fn keep(
        &mut self,
        choice: &Choice,
        value: i64,
        limit: i64,
        sought: Sought<'_>,
        row: usize,
    ) -> Result<i64, AllocError> {
        if self.best.len() >= sought.most {
            self.best.pop();
        }
        let line = FoundLine {
            row,
            set: set_of(&self.path, usize::from(choice.depth), sought.rows),
            extra: choice.extra,
            value,
        };
        let at = place_for(&self.best, value);
        self.best.insert(at, line)?;
        if self.best.len() < sought.most {
            return Ok(limit);
        }
        match self.best.last() {
            Some(dearest) => Ok(dearest.value),
            None => Ok(limit),
        }
    }
}

/// Where a line of this value belongs among those of ascending values.
fn place_for(lines: &[FoundLine], value: i64) -> usize
    ensures { result ≤ length lines.now }
{
    for (at, line) in lines.iter().enumerate() {
        if line.value > value {
            return at;
        }
    }
    lines.len()
}

/// Goes on to a choice.
#[inline]
fn step(choice: &Choice, path: &mut [u16]) {
    let depth = usize::from(choice.depth);
    if depth < path.len() {
        path[depth] = choice.last;
    }
}

/// The rows of the pairings on the way to a choice of this depth.
fn set_of(path: &[u16], depth: usize, rows: &[usize]) -> Set {
    let mut set = Set::empty();
    for at in 1..depth.saturating_add(1) {
        if at < path.len() {
            put_row(&mut set, rows, usize::from(path[at]));
        }
    }
    set
}

/// What the line of just these pairings costs more than the empty one, if it is among the choices.
pub(crate) fn extra_of(choices: &PersonLines<'_>, set: &Set) -> Option<i64> {
    let size = pairings_in(set);
    // Choices deeper than this go on from one that has another pairing.
    let mut within = usize::MAX;
    for i in 0..choices.len() {
        let choice = choices.at(i);
        let depth = usize::from(choice.depth);
        if depth > within {
            continue;
        }
        within = usize::MAX;
        if depth > 0 && !set.has(usize::from(choice.last)) {
            within = depth;
        } else if choice.live && depth == size {
            return Some(choice.extra);
        }
    }
    None
}

/// How many pairings are in the set.
fn pairings_in(set: &Set) -> usize {
    let mut size: usize = 0;
    for p in 0..MOST_PAIRINGS {
        if set.has(p) {
            size = size.wrapping_add(1);
        }
    }
    size
}
