//! A restricted master of set partitioning.

ghost use Rattle.std.specs.Prelude.{◌≡◌, ◌<◌, ◌≤◌, ◌&&◌, ◌∷◌, [], IfOk, OnOk, length, nat_lt, not, replicate};
ghost use Rattle.roster_search_lp.specs.Programs.{has_set, sets_of, with_line, AreDuals, IsDual};

use crate::columns::Columns;
use crate::fixed::times;
use crate::limits::{MOST_DUAL, MOST_SHARE};
use crate::person_sets::PersonSets;
use crate::simplex::Simplex;
use roster_values::Set;
use std::alloc::{AllocError, Global};
use std::marker::Model;

/// A linear program over some lines of persons, and its dual prices: each person has one line, or parts of
/// several that make up one, and each pairing is held once or open, in parts too. Costs are in parts of a
/// cost unit. Contracts see for each person the sets of pairings of the lines, the empty one first, and the
/// dual prices of pairings. That these are good prices, or any price is that of an optimum, isn't promised.
#[derive(Drop)]
pub struct Master {
    persons: Vec<PersonSets>,
    prices: Vec<i64>,
    pub(crate) simplex: Simplex,
}

impl Model for Master {
    ghost use Rattle.roster_search_lp.specs.Programs.{AreDuals, Program};

    ghost Value = { Program };

    ghost view = { λ m. record { lines = m.persons.items; prices = m.prices.items } };

    ghost invariant = { λ m. AreDuals m.prices.items };
}

/// The amount, or the nearest that a dual price may be.
fn limited(amount: i64) -> i64
    ensures { IsDual result }
{
    amount.clamp(-(MOST_DUAL as i64), MOST_DUAL as i64)
}

/// For each of so many persons the empty line alone.
fn empty_lines(alloc: Global, persons: usize) -> Result<Vec<PersonSets>, AllocError>
    ensures { IfOk result (λ sets. sets.items ≡ replicate persons ([] ∷ [])) }
{
    let mut sets = Vec::with_capacity(alloc, persons)?;
    for _ in 0..persons {
        sets.push(PersonSets::new(alloc)?)?;
    }
    Ok(sets)
}

/// The same sets of each person.
fn copy_all(alloc: Global, persons: &[PersonSets]) -> Result<Vec<PersonSets>, AllocError>
    ensures { IfOk result (λ copies. copies.items ≡ persons.now) }
{
    let mut copies = Vec::with_capacity(alloc, persons.len())?;
    for sets in persons {
        copies.push(sets.copy()?)?;
    }
    Ok(copies)
}

impl Master {
    /// A program of the empty lines of persons, which cost so much, and of open pairings at these penalties:
    /// all in parts of a cost unit, of which it has so many.
    pub fn new(
        alloc: Global,
        idle: &[i64],
        penalties: &[i64],
        scale: u32,
    ) -> Result<Master, AllocError>
        ensures lines { IfOk result
            (λ master. master.lines ≡ replicate (length idle.now) ([] ∷ [])) }
        ensures prices { IfOk result (λ master. length master.prices ≡ length penalties.now) }
    {
        let mut master = Master {
            persons: empty_lines(alloc, idle.len())?,
            prices: vec![in alloc; 0; penalties.len()]?,
            simplex: Simplex::new(alloc, idle, penalties, scale)?,
        };
        master.take_prices();
        Ok(master)
    }

    /// The same program, as it was left by the last solution.
    pub fn copy(&self, alloc: Global) -> Result<Master, AllocError>
        ensures { IfOk result (λ copy. copy ≡ self.now) }
    {
        let prices = Vec::from_slice(alloc, self.prices.as_slice())?;
        let persons = copy_all(alloc, &self.persons)?;
        let simplex = self.simplex.copy(alloc)?;
        Ok(Master {
            persons,
            prices,
            simplex,
        })
    }

    /// How many persons there are.
    pub fn persons(&self) -> usize
        ensures { result ≡ length self.now.lines }
    {
        self.persons.len()
    }

    /// Whether it has person `k`'s line of these pairings.
    pub fn has(&self, k: usize, set: &Set) -> bool
        ensures { result ≡ (nat_lt k (length self.now.lines)
            && has_set set.now (sets_of self.now.lines k)) }
    {
        k < self.persons.len() && self.persons[k].has(set)
    }

    /// Adds person `k`'s line of these pairings, which costs so much, if it isn't there. Whether it wasn't.
    pub fn add(&mut self, k: usize, set: &Set, cost: i64) -> Result<bool, AllocError>
        requires { k < length self.old.lines }
        ensures lines { OnOk result (self.new.lines ≡ with_line k set.now self.old.lines) }
        ensures prices { self.new.prices ≡ self.old.prices }
        ensures is_new { IfOk result
            (λ is_new. is_new ≡ not (has_set set.now (sets_of self.old.lines k))) }
    {
        if !self.persons[k].put(set)? {
            return Ok(false);
        }
        self.simplex.add_line(k, set, cost)?;
        Ok(true)
    }

    /// How many columns there are: lines, and open pairings.
    pub fn columns(&self) -> usize {
        self.simplex.columns().len()
    }

    /// How many columns have entered the basis so far: how much work it was.
    pub fn steps(&self) -> u64 {
        self.simplex.steps()
    }

    /// Begins with a roster: adds this line of person `k`, and has it used as far as it can be, whatever it
    /// costs. With a good roster that saves a third of the steps to the first prices.
    pub fn enter(&mut self, k: usize, set: &Set, cost: i64) -> Result<(), AllocError>
        requires { k < length self.old.lines }
        ensures lines { OnOk result (self.new.lines ≡ with_line k set.now self.old.lines) }
        ensures prices { self.new.prices ≡ self.old.prices }
    {
        self.add(k, set, cost)?;
        if let Some(c) = self.simplex.columns().line(k, set) {
            self.simplex.enter(c)?;
        }
        Ok(())
    }

    /// Begins with another part of all rosters, of which none is sought that costs more than the limit, in
    /// parts of a cost unit. At first any may be.
    pub fn begin(&mut self, limit: i64) -> Result<(), AllocError>
        ensures { self.new ≡ self.old }
    {
        self.simplex.begin(limit)
    }

    /// Looks for the least cost, and then has the dual prices that show it; where it takes very many steps
    /// it ends sooner.
    pub fn solve(&mut self) -> Result<(), AllocError>
        ensures lines { self.new.lines ≡ self.old.lines }
        ensures prices { length self.new.prices ≡ length self.old.prices }
    {
        self.simplex.solve()?;
        self.take_prices();
        Ok(())
    }

    /// Takes over the dual prices of the pairings' rows.
    fn take_prices(&mut self)
        ensures lines { self.new.lines ≡ self.old.lines }
        ensures prices { length self.new.prices ≡ length self.old.prices }
    {
        put_duals(&mut self.prices, &self.simplex);
    }

    /// The dual price of each pairing by the last solution, in parts of a cost unit.
    pub fn prices(&self) -> &[i64]
        ensures value { result.now ≡ self.now.prices }
        ensures limits { AreDuals result.now }
    {
        &self.prices
    }

    /// The dual price of person `k` by the last solution, in parts of a cost unit: about what the line costs
    /// less the prices of its pairings, for each line that is used. It is 0 past the last.
    pub fn person_dual(&self, k: usize) -> i64
        ensures { IsDual result }
    {
        if k >= self.persons.len() {
            return 0;
        }
        limited(self.simplex.dual(k))
    }

    /// What the last solution costs, in parts of a cost unit.
    pub fn value(&self) -> i64 {
        self.simplex.value()
    }

    /// How large a part of the last solution it is to leave the pairing at place `p` open, in thousandths.
    pub fn open_share(&self, p: usize) -> u32
        ensures { result ≤ MOST_SHARE }
    {
        if p >= self.prices.len() {
            return 0;
        }
        thousandths(self.simplex.amount(self.simplex.row_of(p)))
    }

    /// How many pairings the last solution leaves open, in thousandths; it may be a part of one.
    pub fn open_count(&self) -> u64 {
        let mut amount: i64 = 0;
        for p in 0..self.prices.len() {
            amount = amount.saturating_add(self.simplex.amount(self.simplex.row_of(p)));
        }
        times(amount, i64::from(MOST_SHARE)).max(0).unsigned_abs()
    }

    /// Has at least so many pairings open, and at most so many, from the next solution on. At first any
    /// number may be open.
    pub fn count_open(&mut self, least: usize, most: usize) -> Result<(), AllocError>
        ensures { self.new ≡ self.old }
    {
        self.simplex.put_counts(least, most)
    }

    /// What one open pairing more is paid by the last solution, since so many must be open, or costs, since
    /// no more may be: in parts of a cost unit.
    pub fn count_dual(&self) -> i64
        ensures { IsDual result }
    {
        limited(self.simplex.count_dual())
    }

    /// How large a part of person `k`'s lines in the last solution has each pairing, in thousandths.
    pub fn put_shares(&self, k: usize, shares: &mut [u32])
        ensures { length shares.new ≡ length shares.old }
    {
        shares.fill(0);
        for row in 0..self.simplex.size() {
            if let Some(set) = self.simplex.columns().set_of(k, self.simplex.basic(row)) {
                let share = thousandths(self.simplex.amount_in(row));
                add_share(shares, set, share);
            }
        }
    }

    /// Leaves out the dearest columns that the solution doesn't use, until so many columns are left or none
    /// is unused; the empty lines and the open pairings stay.
    pub fn forget(&mut self, alloc: Global, most: usize) -> Result<(), AllocError>
        ensures persons { length self.new.lines ≡ length self.old.lines }
        ensures prices { self.new.prices ≡ self.old.prices }
    {
        if self.columns() <= most {
            return Ok(());
        }
        self.simplex.forget(alloc, most)?;
        let mut persons = empty_lines(alloc, self.persons.len())?;
        put_lines(&mut persons, self.simplex.columns())?;
        self.persons = persons;
        Ok(())
    }
}

/// Puts the lines among these columns into the sets of their persons.
fn put_lines(persons: &mut [PersonSets], columns: &Columns) -> Result<(), AllocError>
    ensures { length persons.new ≡ length persons.old }
{
    for (column, set) in columns.all().iter().zip(columns.sets()) {
        if let Some(k) = column.person() {
            if k < persons.len() {
                persons[k].put(set)?;
            }
        }
    }
    Ok(())
}

/// Takes over the dual prices of the pairings' rows.
fn put_duals(prices: &mut [i64], simplex: &Simplex)
    requires { AreDuals prices.old }
    ensures { AreDuals prices.new }
{
    for p in 0..prices.len() {
        let row = simplex.row_of(p);
        prices[p] = limited(simplex.dual(row));
    }
}

/// An amount in parts of a whole, in thousandths from 0 to a whole.
fn thousandths(amount: i64) -> u32
    ensures { result ≤ MOST_SHARE }
{
    let share = times(amount, i64::from(MOST_SHARE));
    share.clamp(0, i64::from(MOST_SHARE)) as u32
}

/// Adds the share to those of the pairings of a set.
fn add_share(shares: &mut [u32], set: &Set, share: u32)
    ensures { length shares.new ≡ length shares.old }
{
    for p in 0..shares.len() {
        if set.has(p) {
            shares[p] = shares[p].saturating_add(share);
        }
    }
}
