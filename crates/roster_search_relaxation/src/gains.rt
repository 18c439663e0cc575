//! What branches on a person and a pairing brought: by how much their sides raised the bound.

use crate::relaxation::Relaxation;
use crate::tuning::{EXPECTED_TIMES, NODES_TO_LEARN, WEIGHT_A_HALF};
use roster_search_regions::Split;
use std::alloc::{AllocError, Global};

/// One side of a branch, and the bound of what was parted.
#[derive(Clone, Copy)]
pub struct Side {
    /// What it was parted by.
    pub branch: Split,
    /// Whether it is the first side: the person has the pairing.
    pub is_first: bool,
    /// The bound of what was parted, in parts of a cost unit, as `Relaxation::bound` tells it.
    pub bound: i64,
}

/// What one side brought so far, in parts of a cost unit.
#[derive(Clone, Copy)]
struct Gain {
    sum: u64,
    times: u32,
}

/// Nothing yet.
const NO_GAIN: Gain = Gain { sum: 0, times: 0 };

impl Gain {
    /// One more.
    fn add(&mut self, gain: u64) {
        self.sum = self.sum.saturating_add(gain);
        self.times = self.times.saturating_add(1);
    }

    /// What it brings, likely: the mean, where `expected` was brought a few times before.
    fn likely(&self, expected: u64) -> u64 {
        let sum = self
            .sum
            .saturating_add(expected.saturating_mul(EXPECTED_TIMES));
        sum / u64::from(self.times).saturating_add(EXPECTED_TIMES).max(1)
    }
}

/// What was learned of all branches.
#[derive(Drop)]
pub(crate) struct Gains {
    // By place: those of having the pairing, and of not having it.
    first: Vec<Gain>,
    other: Vec<Gain>,
    // Those of all places.
    all_first: Gain,
    all_other: Gain,
    // How many nodes there were.
    nodes: u32,
}

impl Gains {
    /// Nothing is known of so many places.
    pub(crate) fn new(alloc: Global, places: usize) -> Result<Gains, AllocError> {
        Ok(Gains {
            first: vec![in alloc; NO_GAIN; places]?,
            other: vec![in alloc; NO_GAIN; places]?,
            all_first: NO_GAIN,
            all_other: NO_GAIN,
            nodes: 0,
        })
    }

    /// The same, for another thread.
    pub(crate) fn copy(&self) -> Result<Gains, AllocError> {
        Ok(Gains {
            first: self.first.clone()?,
            other: self.other.clone()?,
            ..*self
        })
    }

    /// Whether the search has become so long that it is worth to go by them.
    pub(crate) fn are_worth(&self) -> bool {
        self.nodes >= NODES_TO_LEARN
    }

    /// Takes note of what a side brought.
    fn add(&mut self, place: usize, is_first: bool, gain: u64) {
        if place >= self.first.len() || place >= self.other.len() {
            return;
        }
        if is_first {
            self.first[place].add(gain);
            self.all_first.add(gain);
        } else {
            self.other[place].add(gain);
            self.all_other.add(gain);
        }
    }

    /// How good it is to branch on a place: both gains multiplied, and half of it for so much weight against
    /// it.
    pub(crate) fn promise(&self, place: usize, weight: u32) -> u128 {
        if place >= self.first.len() || place >= self.other.len() {
            return 0;
        }
        let first = self.first[place].likely(self.all_first.likely(1));
        let other = self.other[place].likely(self.all_other.likely(1));
        let both = u128::from(first).wrapping_mul(u128::from(other));
        both >> (weight / WEIGHT_A_HALF).min(100)
    }
}

impl Relaxation {
    /// A node more was visited: a side of a branch, which has this bound.
    pub fn learn(&mut self, side: Side, bound: i64) {
        self.gains.nodes = self.gains.nodes.saturating_add(1);
        let Split::Holder(k, p) = side.branch else {
            return;
        };
        if let Some(place) = self.place_of(k, p) {
            let gain = bound.saturating_sub(side.bound).max(0);
            self.gains.add(place, side.is_first, gain.unsigned_abs());
        }
    }

    /// The place of person `k` and the pairing at place `p`, if they have rows.
    fn place_of(&self, k: usize, p: usize) -> Option<usize> {
        let column = self.row_of(p)?;
        for (row, person) in self.persons.iter().enumerate() {
            if *person == k {
                return Some(self.place(row, column));
            }
        }
        None
    }

    /// The place of the person and the pairing of these rows.
    pub(crate) fn place(&self, row: usize, column: usize) -> usize {
        row.saturating_mul(self.pairings.len())
            .saturating_add(column)
    }

    /// The branch on a place.
    pub(crate) fn branch_at(&self, place: usize) -> Split {
        let pairings = self.pairings.len().max(1);
        let (row, column) = (place / pairings, place % pairings);
        match (self.persons.get(row), self.pairings.get(column)) {
            (Some(k), Some(p)) => Split::Holder(*k, *p),
            _ => Split::Holder(0, 0),
        }
    }
}
