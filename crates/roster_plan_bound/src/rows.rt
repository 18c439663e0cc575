//! Rows of least values of chains, for each state of flight.

ghost use Rattle.std.specs.Prelude.{◌≡◌, ◌≢◌, ◌<◌, ◌≤◌, ◌+◌, ◌-◌, ◌*◌, ◌+ℤ◌, ◌≤ℤ◌, [], ℕ, true, false};
ghost use Rattle.std.specs.Prelude.{All, IfOk, IfSome, List, MatchOption, OnOk, length};
ghost use Rattle.roster_model.specs.Rules.{is_among};
ghost use Rattle.roster_cost.specs.Amounts.{IsWithin};
ghost use Rattle.roster_plan_bound.specs.Chains.{followers_of, next_state as plain_next_state, value_at, IsRow};
ghost use Rattle.roster_plan_bound.specs.Chains.{IsTail};
ghost use Rattle.roster_plan_bound.specs.Networks.{AreRows, AreSoFar, IsNetwork};

use crate::network::Network;
use crate::parts::{MOST_AMOUNT, MOST_CHAIN_VALUE, MOST_TARGET_TERM};
use roster_legal::part_of_legal_is_legal;
use roster_model::limits::MOST_PAIRINGS;
use roster_problem::Problem;
use roster_values::Set;
use std::alloc::{AllocError, Global};
use std::marker::Model;

/// The chains of a person: the network that they go along, and what each pairing brings.
#[derive(Clone, Copy)]
pub(crate) struct Chains<'a> {
    pub(crate) problem: &'a Problem,
    pub(crate) person: usize,
    pub(crate) network: &'a Network,
    pub(crate) values: &'a [i64],
}

/// For each state of flight a value. Contracts see their list.
#[derive(Drop)]
pub(crate) struct ChainRow {
    values: Vec<i64>,
}

impl Model for ChainRow {
    ghost use Rattle.std.specs.Prelude.{List, ℤ};

    ghost Value = { List ℤ };

    ghost view = { λ r. r.values.items };
}

impl ChainRow {
    /// The row of those values.
    fn of(alloc: Global, values: &[i64]) -> Result<ChainRow, AllocError>
        ensures { IfOk result (λ row. row ≡ values.now) }
    {
        let mut copy = Vec::new(alloc);
        copy.extend_from_slice(values)?;
        Ok(ChainRow { values: copy })
    }

    /// The values of all states.
    pub(crate) fn all(&self) -> &[i64]
        ensures { result.now ≡ self.now }
    {
        &self.values
    }

    /// The value in state 0.
    pub(crate) fn first(&self) -> i64
        requires { 0 < length self.now }
        ensures { result ≡ value_at self.now 0 }
    {
        self.values[0]
    }

    /// The value in a state; nothing in one that isn't there.
    pub(crate) fn at(&self, state: usize) -> i64 {
        match self.values.get(state) {
            Some(value) => *value,
            None => 0,
        }
    }

    /// Lowers each state to what a pairing brings that has so many steps of flight, and what the row behind
    /// that pairing has there.
    fn relax(&mut self, after: &ChainRow, value: i64, step: usize)
        requires same { length after.now ≡ length self.old }
        requires value { IsWithin MOST_CHAIN_VALUE value }
        requires after { All (IsWithin MOST_AMOUNT) after.now }
        ensures same { length self.new ≡ length self.old }
        ensures kept { (f : ℕ) → f < length self.old → value_at self.new f ≤ℤ value_at self.old f }
        ensures through { (f : ℕ) → f < length self.old → value_at self.new f
            ≤ℤ (value +ℤ value_at after.now (plain_next_state (length self.old) f step)) }
        ensures within { (most : ℕ) → All (IsWithin most) after.now
            → All (IsWithin (most + MOST_CHAIN_VALUE)) self.old → All (IsWithin (most + MOST_CHAIN_VALUE)) self.new }
    {
        relax(&mut self.values, &after.values, value, step)
    }
}

/// So many steps of flight more than state `f` has, but no state past the last.
pub(crate) fn next_state(states: usize, f: usize, step: usize) -> usize
    requires { f < states }
    ensures value { result ≡ plain_next_state states f step }
    ensures inside { result < states }
{
    if step < states - f {
        f + step
    } else {
        states - 1
    }
}

/// `ChainRow::relax` for slices.
fn relax(row: &mut [i64], after: &[i64], value: i64, step: usize)
    requires same { length after.now ≡ length row.old }
    requires value { IsWithin MOST_CHAIN_VALUE value }
    requires after { All (IsWithin MOST_AMOUNT) after.now }
    ensures same { length row.new ≡ length row.old }
    ensures kept { (f : ℕ) → f < length row.old → value_at row.new f ≤ℤ value_at row.old f }
    ensures through { (f : ℕ) → f < length row.old → value_at row.new f
        ≤ℤ (value +ℤ value_at after.now (plain_next_state (length row.old) f step)) }
    ensures within { (most : ℕ) → All (IsWithin most) after.now
        → All (IsWithin (most + MOST_CHAIN_VALUE)) row.old → All (IsWithin (most + MOST_CHAIN_VALUE)) row.new }
{
    for f in 0..row.len() {
        relax_at(row, after, value, step, f);
    }
}

/// Lowers state `f` of the row.
fn relax_at(row: &mut [i64], after: &[i64], value: i64, step: usize, f: usize)
    requires inside { f < length row.old }
    requires same { length after.now ≡ length row.old }
    requires value { IsWithin MOST_CHAIN_VALUE value }
    requires after { All (IsWithin MOST_AMOUNT) after.now }
    ensures same { length row.new ≡ length row.old }
    ensures kept { value_at row.new f ≤ℤ value_at row.old f }
    ensures through { value_at row.new f
        ≤ℤ (value +ℤ value_at after.now (plain_next_state (length row.old) f step)) }
    ensures others { (g : ℕ) → g ≢ f → value_at row.new g ≡ value_at row.old g }
    ensures within { (most : ℕ) → All (IsWithin most) after.now
        → All (IsWithin (most + MOST_CHAIN_VALUE)) row.old → All (IsWithin (most + MOST_CHAIN_VALUE)) row.new }
{
    let next = next_state(row.len(), f, step);
    lower(row, f, led(after, value, next));
}

/// Lowers state `f` of the row to the value.
fn lower(row: &mut [i64], f: usize, value: i64)
    requires { f < length row.old }
    ensures same { length row.new ≡ length row.old }
    ensures here { (value_at row.new f ≤ℤ value) × (value_at row.new f ≤ℤ value_at row.old f) }
    ensures others { (g : ℕ) → g ≢ f → value_at row.new g ≡ value_at row.old g }
    ensures within { (most : ℕ) → IsWithin most value → All (IsWithin most) row.old
        → All (IsWithin most) row.new }
{
    if value < row[f] {
        row[f] = value;
    }
}

/// What a pairing brings, and the row behind it has in state `f`.
pub(crate) fn led(after: &[i64], value: i64, f: usize) -> i64
    requires inside { f < length after.now }
    requires value { IsWithin MOST_CHAIN_VALUE value }
    requires after { All (IsWithin MOST_AMOUNT) after.now }
    ensures value { result ≡ value +ℤ value_at after.now f }
    ensures within { (most : ℕ) → All (IsWithin most) after.now
        → IsWithin (most + MOST_CHAIN_VALUE) result }
{
    value + after[f]
}

/// The row of each pairing, that of the last one first: the least that chains bring which may follow it.
///
/// From some place on all pairings may follow a pairing that any chain may begin with. What these bring at
/// least is one row, the tail from that place, for all pairings before it.
pub(crate) fn rows_of(alloc: Global, chains: &Chains<'_>) -> Result<Vec<ChainRow>, AllocError>
    requires network { IsNetwork chains.now.problem.now chains.now.person chains.now.network.now }
    requires covers { length chains.now.values.now ≡ length chains.now.problem.now.pairings }
    requires values { All (IsWithin MOST_CHAIN_VALUE) chains.now.values.now }
    ensures rows { IfOk result (λ rows.
        AreRows chains.now.problem.now chains.now.network.now chains.now.values.now rows.items) }
    ensures all { IfOk result (λ rows. length rows.items ≡ length chains.now.problem.now.pairings) }
{
    let mut rows = Vec::new(alloc);
    let mut tails = tails_of_end(alloc, chains)?;
    for back in 0..chains.problem.pairings().len() {
        add_row(alloc, chains, &mut rows, &mut tails, back)?;
    }
    Ok(rows)
}

/// The tail behind all pairings alone.
fn tails_of_end(alloc: Global, chains: &Chains<'_>) -> Result<Vec<ChainRow>, AllocError>
    requires network { IsNetwork chains.now.problem.now chains.now.person chains.now.network.now }
    ensures { IfOk result (λ tails.
        AreSoFar chains.now.problem.now chains.now.network.now chains.now.values.now [] tails.items 0) }
{
    let end = end_of_all(alloc, chains)?;
    let mut tails = Vec::new(alloc);
    tails.push(end)?;
    Ok(tails)
}

/// Adds the row of the pairing behind which there are so many others, and the tail from it on.
fn add_row(
    alloc: Global,
    chains: &Chains<'_>,
    rows: &mut Vec<ChainRow>,
    tails: &mut Vec<ChainRow>,
    back: usize,
) -> Result<(), AllocError>
    requires network { IsNetwork chains.now.problem.now chains.now.person chains.now.network.now }
    requires covers { length chains.now.values.now ≡ length chains.now.problem.now.pairings }
    requires values { All (IsWithin MOST_CHAIN_VALUE) chains.now.values.now }
    requires some { back < length chains.now.problem.now.pairings }
    requires so_far { AreSoFar chains.now.problem.now chains.now.network.now chains.now.values.now
        rows.old.items tails.old.items back }
    ensures { OnOk result (AreSoFar chains.now.problem.now chains.now.network.now chains.now.values.now
        rows.new.items tails.new.items (back + 1)) }
{
    part_of_legal_is_legal();
    let (problem, network) = (chains.problem, chains.network);
    problem.is_sound();
    let count = problem.pairings().len();
    let p = count - 1 - back;
    let followers = network.followers[p];
    let from = all_from(&network.first, &followers, p, count);
    let tail = &tails[count - from];
    let row = row_behind(alloc, chains, rows, &followers, tail, from)?;
    let longer = longer_tail(alloc, chains, &tails[back], &row, p)?;
    rows.push(row)?;
    tails.push(longer)?;
    Ok(())
}

/// The place behind the last pairing after `p` that a chain may begin with and that may not follow `p`.
fn all_from(first: &Set, followers: &Set, p: usize, count: usize) -> usize
    requires inside { p < count }
    requires places { (q : ℕ) → is_among first.now q ≡ true → q < count }
    ensures place { (p < result) × (result ≤ count) }
    ensures follow { (q : ℕ) → result ≤ q → is_among first.now q ≡ true → is_among followers.now q ≡ true }
    ensures last { p + 1 < result → (q : ℕ) × (result ≡ q + 1)
        × (is_among first.now q ≡ true) × (is_among followers.now q ≡ false) }
{
    let mut from = p + 1;
    let mut next = p + 1;
    while let Some(q) = first.first_from(next) {
        from = from_behind(followers, q, from);
        next = q + 1;
    }
    from
}

/// The place behind `q`, or the one from before if `q` may follow.
fn from_behind(followers: &Set, q: usize, from: usize) -> usize
    requires { q < MOST_PAIRINGS }
    ensures follows { is_among followers.now q ≡ true → result ≡ from }
    ensures apart { is_among followers.now q ≡ false → result ≡ q + 1 }
{
    if followers.has(q) { from } else { q + 1 }
}

/// The tail behind all pairings: what each state brings at the end.
pub(crate) fn end_of_all(alloc: Global, chains: &Chains<'_>) -> Result<ChainRow, AllocError>
    requires network { IsNetwork chains.now.problem.now chains.now.person chains.now.network.now }
    ensures tail { IfOk result
        (IsTail chains.now.network.now chains.now.values.now (length chains.now.problem.now.pairings)) }
    ensures within { IfOk result (All (IsWithin MOST_TARGET_TERM)) }
{
    let end = ChainRow::of(alloc, &chains.network.terms)?;
    Ok(end)
}

/// The tail from pairing `p` on, whose row is known, as is the tail behind it.
fn longer_tail(
    alloc: Global,
    chains: &Chains<'_>,
    tail: &ChainRow,
    row: &ChainRow,
    p: usize,
) -> Result<ChainRow, AllocError>
    requires network { IsNetwork chains.now.problem.now chains.now.person chains.now.network.now }
    requires place { p < length chains.now.problem.now.pairings }
    requires covers { length chains.now.values.now ≡ length chains.now.problem.now.pairings }
    requires values { All (IsWithin MOST_CHAIN_VALUE) chains.now.values.now }
    requires tail { IsTail chains.now.network.now chains.now.values.now (p + 1) tail.now }
    requires row { IsRow chains.now.network.now chains.now.values.now
        (followers_of chains.now.network.now.followers.items p) row.now }
    requires few { All (IsWithin MOST_AMOUNT) row.now }
    ensures tail { IfOk result (IsTail chains.now.network.now chains.now.values.now p) }
    ensures within { IfOk result (λ longer. (most : ℕ) → All (IsWithin most) row.now
        → All (IsWithin (most + MOST_CHAIN_VALUE)) tail.now → All (IsWithin (most + MOST_CHAIN_VALUE)) longer) }
{
    let mut longer = ChainRow::of(alloc, tail.all())?;
    if chains.network.first.has(p) {
        longer.relax(row, chains.values[p], chains.network.steps[p]);
    }
    Ok(longer)
}

/// The row of chains whose first pairing is one of the set. Those before a place have rows; the tail is that
/// from there on.
pub(crate) fn row_behind(
    alloc: Global,
    chains: &Chains<'_>,
    rows: &[ChainRow],
    first: &Set,
    tail: &ChainRow,
    until: usize,
) -> Result<ChainRow, AllocError>
    requires network { IsNetwork chains.now.problem.now chains.now.person chains.now.network.now }
    requires covers { length chains.now.values.now ≡ length chains.now.problem.now.pairings }
    requires values { All (IsWithin MOST_CHAIN_VALUE) chains.now.values.now }
    requires rows { AreRows chains.now.problem.now chains.now.network.now chains.now.values.now rows.now }
    requires alone { (q : ℕ) → is_among first.now q ≡ true → is_among chains.now.network.now.first q ≡ true }
    requires done { (q : ℕ) → is_among first.now q ≡ true → q < until
        → length chains.now.problem.now.pairings - 1 - q < length rows.now }
    requires tail { IsTail chains.now.network.now chains.now.values.now until tail.now }
    requires near { All (IsWithin (MOST_TARGET_TERM + (length rows.now + 1) * MOST_CHAIN_VALUE)) tail.now }
    ensures row { IfOk result (IsRow chains.now.network.now chains.now.values.now first.now) }
    ensures within { IfOk result (λ row.
        All (IsWithin (MOST_TARGET_TERM + (length rows.now + 1) * MOST_CHAIN_VALUE)) row) }
{
    let (problem, network, values) = (chains.problem, chains.network, chains.values);
    problem.is_sound();
    let count = problem.pairings().len();
    let mut row = ChainRow::of(alloc, tail.all())?;
    let mut from = 0;
    while let Some(q) = first_between(first, from, until) {
        row.relax(&rows[count - 1 - q], values[q], network.steps[q]);
        from = q + 1;
    }
    Ok(row)
}

/// The least place of the set from a place on and before another one.
fn first_between(set: &Set, from: usize, until: usize) -> Option<usize>
    ensures place { IfSome result
        (λ p. (from ≤ p) × (p < until) × (is_among set.now p ≡ true)) }
    ensures least { MatchOption result
        ((q : ℕ) → from ≤ q → q < until → is_among set.now q ≡ false)
        (λ p. (q : ℕ) → from ≤ q → q < p → is_among set.now q ≡ false) }
{
    match set.first_from(from) {
        Some(p) if p < until => Some(p),
        _ => None,
    }
}
