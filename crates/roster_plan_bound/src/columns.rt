//! Columns: the legal sets of a person that cost little at some prices. Nothing rests on them.

use crate::lists::{amount_at, place_at};
use crate::softness::{share_of, weight_of};
use crate::tuning::{FINE, FIRST_REACH, MOST_COLUMNS};
use roster_values::Set;
use std::alloc::{AllocError, Global};

/// What a look at a person begins with, learned by the ones before.
#[derive(Clone, Copy)]
pub(crate) struct Hints {
    /// How far above the least one sets are to be listed, in parts of a cost unit.
    pub(crate) reach: i64,
    /// How dear the month is.
    pub(crate) dear: i64,
    /// Whether each label is judged: cheap ones often broke a rule that labels don't know of.
    pub(crate) is_strict: bool,
    /// What a minute of flight is worth to the table that last said most, in parts of a cost unit.
    pub(crate) worth: i64,
    /// How far the other tables are from it; nothing before the first ones.
    pub(crate) step: i64,
    /// Whether tables with tolls are made: a search didn't come to its end.
    pub(crate) is_tolled: bool,
    /// The toll of the table that last said most, in parts of a cost unit.
    pub(crate) toll: i64,
    /// How far other tolls are from it; nothing before the first ones.
    pub(crate) toll_step: i64,
    /// How many sets are to be listed, at most.
    pub(crate) wanted: usize,
}

impl Hints {
    /// Those of the first look in a month so dear.
    fn first(dear: i64) -> Hints {
        Hints {
            reach: FIRST_REACH.wrapping_mul(dear),
            dear,
            is_strict: false,
            worth: 0,
            step: 0,
            is_tolled: false,
            toll: 0,
            toll_step: 0,
            wanted: MOST_COLUMNS,
        }
    }
}

/// The legal sets of one person that are known, one behind another.
#[derive(Drop)]
pub(crate) struct Columns {
    // For each column what it costs without prices, in parts of a cost unit, and where its pairings end.
    costs: Vec<i64>,
    ends: Vec<usize>,
    places: Vec<u16>,
    /// What the next look at the person begins with.
    pub(crate) hints: Hints,
}

impl Columns {
    /// None so far.
    pub(crate) fn new(alloc: Global) -> Columns {
        Columns {
            costs: Vec::new(alloc),
            ends: Vec::new(alloc),
            places: Vec::new(alloc),
            hints: Hints::first(1),
        }
    }

    /// None so far, in a month so dear.
    pub(crate) fn of_dear(alloc: Global, dear: i64) -> Columns {
        let mut columns = Columns::new(alloc);
        columns.hints = Hints::first(dear);
        columns
    }

    /// How many there are.
    pub(crate) fn len(&self) -> usize {
        self.costs.len()
    }

    /// Adds one, by its pairings and what it costs without prices.
    pub(crate) fn push(&mut self, places: &[u16], cost: i64) -> Result<(), AllocError> {
        self.places.extend_from_slice(places)?;
        self.end(cost)
    }

    /// Adds the one whose pairings are in the set, and what it costs at the prices.
    pub(crate) fn push_gain(
        &mut self,
        set: &Set,
        gain: i64,
        prices: &[i64],
    ) -> Result<(), AllocError> {
        let start = self.places.len();
        add_places(&mut self.places, set)?;
        let mut cost = gain;
        for j in start..self.places.len() {
            cost = cost.wrapping_add(amount_at(prices, place_at(&self.places, j)));
        }
        self.end(cost)
    }

    /// Ends the one whose pairings stand behind those of the others.
    fn end(&mut self, cost: i64) -> Result<(), AllocError> {
        self.ends.push(self.places.len())?;
        self.costs.push(cost)?;
        Ok(())
    }

    /// Where the pairings of column `i` begin and end.
    fn range(&self, i: usize) -> (usize, usize) {
        let start = if i == 0 { 0 } else { end_at(&self.ends, i - 1) };
        (start, end_at(&self.ends, i))
    }

    /// What column `i` costs beyond the prices of its pairings.
    pub(crate) fn value(&self, i: usize, prices: &[i64]) -> i64 {
        self.beyond(i, amount_at(&self.costs, i), prices)
    }

    /// The same for prices in finer steps than parts.
    fn fine_value(&self, i: usize, prices: &[i64]) -> i64 {
        self.beyond(i, amount_at(&self.costs, i).wrapping_mul(FINE), prices)
    }

    /// What is left of the cost of column i without the prices of its pairings.
    fn beyond(&self, i: usize, cost: i64, prices: &[i64]) -> i64 {
        let (start, end) = self.range(i);
        let mut value = cost;
        for j in start..end {
            value = value.wrapping_sub(amount_at(prices, place_at(&self.places, j)));
        }
        value
    }

    /// How many cost no more than so much at the prices.
    pub(crate) fn within(&self, prices: &[i64], most: i64) -> usize {
        (0..self.len())
            .filter(|i| self.value(*i, prices) <= most)
            .count()
    }

    /// Adds the columns of another list that it hasn't.
    pub(crate) fn join(&mut self, others: &Columns) -> Result<(), AllocError> {
        for i in 0..others.len() {
            let cost = amount_at(&others.costs, i);
            if !self.has(others.places(i), cost) {
                self.push(others.places(i), cost)?;
            }
        }
        Ok(())
    }

    /// What the cheapest one costs beyond the prices; nothing if none costs less than that.
    pub(crate) fn least_value(&self, prices: &[i64]) -> i64 {
        let mut least: i64 = 0;
        for i in 0..self.len() {
            least = least.min(self.value(i, prices));
        }
        least
    }

    /// Whether it has the column.
    fn has(&self, places: &[u16], cost: i64) -> bool {
        (0..self.len()).any(|i| amount_at(&self.costs, i) == cost && self.places(i) == places)
    }

    /// The first one, and those that cost least at the prices, no more than so many.
    pub(crate) fn cheapest(
        &self,
        alloc: Global,
        prices: &[i64],
        most: usize,
    ) -> Result<Columns, AllocError> {
        let limit = self.value_behind(alloc, prices, most)?;
        let mut kept = Columns::new(alloc);
        kept.hints = self.hints;
        for i in 0..self.len() {
            if i == 0 || self.value(i, prices) < limit {
                kept.push(self.places(i), amount_at(&self.costs, i))?;
            }
        }
        Ok(kept)
    }

    /// Those that cost no more than so much above the least at the prices; both are in finer steps than
    /// parts.
    pub(crate) fn near(
        &self,
        alloc: Global,
        prices: &[i64],
        within: i64,
    ) -> Result<Columns, AllocError> {
        let mut values = Vec::new(alloc);
        let most = self.values(&mut values, prices)?.saturating_add(within);
        let mut near = Columns::new(alloc);
        for i in 0..self.len() {
            if amount_at(&values, i) <= most {
                near.push(self.places(i), amount_at(&self.costs, i))?;
            }
        }
        Ok(near)
    }

    /// What the one costs behind so many that cost less.
    fn value_behind(&self, alloc: Global, prices: &[i64], many: usize) -> Result<i64, AllocError> {
        let mut values = Vec::new(alloc);
        for i in 0..self.len() {
            values.push(self.value(i, prices))?;
        }
        values.sort_unstable();
        match values.get(many) {
            Some(value) => Ok(*value),
            None => Ok(i64::MAX),
        }
    }

    /// The pairings of column `i`.
    pub(crate) fn places(&self, i: usize) -> &[u16] {
        let (start, end) = self.range(i);
        match self.places.get(start..end) {
            Some(places) => places,
            None => &[],
        }
    }

    /// Adds to the covers of pairings the shares of the columns, which are larger the nearer a column is to
    /// the least. What that costs.
    pub(crate) fn cover(
        &self,
        values: &mut Vec<i64>,
        prices: &[i64],
        softness: i64,
        covers: &mut [i64],
    ) -> Result<i64, AllocError> {
        let least = self.values(values, prices)?;
        let sum = weighed(values, least, softness);
        for i in 0..self.len() {
            let share = share_of(amount_at(values, i), sum);
            if share > 0 {
                self.add(i, share, covers);
            }
        }
        Ok(least)
    }

    /// The share of each column, as covers count it.
    pub(crate) fn weigh(
        &self,
        shares: &mut Vec<i64>,
        prices: &[i64],
        softness: i64,
    ) -> Result<(), AllocError> {
        let least = self.values(shares, prices)?;
        let sum = weighed(shares, least, softness);
        for i in 0..shares.len() {
            shares[i] = share_of(shares[i], sum);
        }
        Ok(())
    }

    /// The same columns.
    pub(crate) fn copy(&self, alloc: Global) -> Result<Columns, AllocError> {
        let mut copy = Columns::new(alloc);
        copy.hints = self.hints;
        copy.costs.extend_from_slice(&self.costs)?;
        copy.ends.extend_from_slice(&self.ends)?;
        copy.places.extend_from_slice(&self.places)?;
        Ok(copy)
    }

    /// The value of each column, and the least.
    fn values(&self, values: &mut Vec<i64>, prices: &[i64]) -> Result<i64, AllocError> {
        values.clear();
        let mut least = i64::MAX;
        for i in 0..self.len() {
            let value = self.fine_value(i, prices);
            least = least.min(value);
            values.push(value)?;
        }
        Ok(least)
    }

    /// Adds the share to the covers of the pairings of column i.
    fn add(&self, i: usize, share: i64, covers: &mut [i64]) {
        let (start, end) = self.range(i);
        for j in start..end {
            let p = place_at(&self.places, j);
            if p < covers.len() {
                covers[p] = covers[p].wrapping_add(share);
            }
        }
    }
}

/// The values become weights; their sum.
fn weighed(values: &mut [i64], least: i64, softness: i64) -> i64 {
    let mut sum: i64 = 0;
    for i in 0..values.len() {
        let weight = weight_of(values[i].wrapping_sub(least), softness);
        values[i] = weight;
        sum = sum.wrapping_add(weight);
    }
    sum
}

/// Adds the pairings of the set.
fn add_places(places: &mut Vec<u16>, set: &Set) -> Result<(), AllocError> {
    let mut from = 0;
    while let Some(p) = set.first_from(from) {
        places.push(p as u16)?;
        from = p + 1;
    }
    Ok(())
}

fn end_at(ends: &[usize], i: usize) -> usize {
    match ends.get(i) {
        Some(end) => *end,
        None => 0,
    }
}
