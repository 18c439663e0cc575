//! What stands behind a pairing brings at least so much: amounts for each class, and for each number of pairs
//! of days off that still have to come.

ghost use Rattle.std.specs.Prelude.{◌≡◌, ◌<◌, ◌≤◌, ◌+ℤ◌, ◌≤ℤ◌, ℕ, ℤ, [], All, IfOk, length};
ghost use Rattle.roster_cost.specs.Amounts.{IsWithin};
ghost use Rattle.roster_plan_bound.specs.Behinds.{lowest, row_at, row_for};

use crate::parts::{MOST_BEHIND, MOST_STEP};
use std::alloc::{AllocError, Global};
use std::marker::Model;

/// Less than any pairings bring.
pub(crate) const LOWEST: i64 = -(MOST_BEHIND as i64);

/// The most that any pairings bring.
pub(crate) const HIGHEST: i64 = MOST_BEHIND as i64;

/// For each class an amount, or the lowest one if there is none. Contracts see the list.
#[derive(Drop)]
pub(crate) struct BehindRow {
    amounts: Vec<i64>,
}

impl Model for BehindRow {
    ghost use Rattle.std.specs.Prelude.{List, ℤ};

    ghost Value = { List ℤ };

    ghost view = { λ r. r.amounts.items };
}

impl BehindRow {
    /// No amounts.
    fn empty(alloc: Global) -> BehindRow
        ensures { result ≡ [] }
    {
        BehindRow {
            amounts: Vec::new(alloc),
        }
    }

    /// The same amount for so many classes.
    pub(crate) fn of(alloc: Global, amount: i64, classes: usize) -> Result<BehindRow, AllocError>
        requires { IsWithin MOST_BEHIND amount }
        ensures value { IfOk result (λ row. (class : ℕ) → row_at row class ≤ℤ amount) }
        ensures within { IfOk result (All (IsWithin MOST_BEHIND)) }
    {
        let amounts = vec![in alloc; amount; classes]?;
        Ok(BehindRow { amounts })
    }

    /// The amount of a class.
    pub(crate) fn at(&self, class: usize) -> i64
        ensures value { result ≡ row_at self.now class }
        ensures within { All (IsWithin MOST_BEHIND) self.now → IsWithin MOST_BEHIND result }
    {
        match self.amounts.get(class) {
            Some(amount) => *amount,
            None => LOWEST,
        }
    }

    /// Lowers a class to the amount.
    fn lower_at(&mut self, class: usize, amount: i64)
        requires inside { class < length self.old }
        requires amount { IsWithin MOST_BEHIND amount }
        requires within { All (IsWithin MOST_BEHIND) self.old }
        ensures same { length self.new ≡ length self.old }
        ensures here { row_at self.new class ≤ℤ amount }
        ensures kept { (other : ℕ) → row_at self.new other ≤ℤ row_at self.old other }
        ensures within { All (IsWithin MOST_BEHIND) self.new }
    {
        if amount < self.amounts[class] {
            self.amounts[class] = amount;
        }
    }

    /// Lowers the classes from one to another to what a pairing brings, and the row behind it has there.
    pub(crate) fn lower(&mut self, after: &BehindRow, value: i64, low: usize, high: usize)
        requires value { IsWithin MOST_STEP value }
        requires after { All (IsWithin MOST_BEHIND) after.now }
        requires within { All (IsWithin MOST_BEHIND) self.old }
        ensures kept { (class : ℕ) → row_at self.new class ≤ℤ row_at self.old class }
        ensures led { (class : ℕ) (amount : ℤ) → low ≤ class → class ≤ high → lowest ≤ℤ amount
            → (value +ℤ row_at after.now class) ≤ℤ amount → row_at self.new class ≤ℤ amount }
        ensures within { All (IsWithin MOST_BEHIND) self.new }
    {
        let len = self.amounts.len();
        let until = if high < len { high + 1 } else { len };
        for class in low..until {
            self.lower_at(class, brought(value, after.at(class)));
        }
    }
}

/// The rows of a pairing: if no pair of days off still has to come, if one has, and if two have.
#[derive(Drop)]
pub(crate) struct OwedRows {
    pub(crate) none: BehindRow,
    pub(crate) one: BehindRow,
    pub(crate) two: BehindRow,
}

impl OwedRows {
    /// Rows without amounts.
    pub(crate) fn empty(alloc: Global) -> OwedRows
        ensures { (need : ℕ) → row_for result need ≡ [] }
    {
        OwedRows {
            none: BehindRow::empty(alloc),
            one: BehindRow::empty(alloc),
            two: BehindRow::empty(alloc),
        }
    }

    /// The row if so many pairs of days off still have to come.
    pub(crate) fn row(&self, need: usize) -> &BehindRow
        ensures { result.now ≡ row_for self.now need }
    {
        match need {
            0 => &self.none,
            1 => &self.one,
            _ => &self.two,
        }
    }
}

/// What a pairing brings, and what stands behind it.
pub(crate) fn brought(value: i64, after: i64) -> i64
    requires value { IsWithin MOST_STEP value }
    requires after { IsWithin MOST_BEHIND after }
    ensures least { (amount : ℤ) → lowest ≤ℤ amount → (value +ℤ after) ≤ℤ amount → result ≤ℤ amount }
    ensures within { IsWithin MOST_BEHIND result }
{
    (value + after).clamp(LOWEST, MOST_BEHIND as i64)
}
