//! Tables at what a minute of flight is worth.

ghost use Rattle.std.specs.Prelude.{◌≡◌, ◌<◌, ◌≤◌, ◌*◌, ◌+ℤ◌, ◌*ℤ◌, ◌≤ℤ◌, ℕ, pos, neg_ℤ};
ghost use Rattle.std.specs.Prelude.{All, IfOk, Some, length, slice_get, slice_index};
ghost use Rattle.roster_cost.specs.Amounts.{IsWithin};
ghost use Rattle.roster_plan_bound.specs.declared.rows_behind.OwedRows.{OwedRows};
ghost use Rattle.roster_plan_bound.specs.Behinds.{row_at, row_for};
ghost use Rattle.roster_plan_bound.specs.Chains.{value_at};

use crate::behind::Behind;
use crate::parts::{
    MOST_BEHIND, MOST_BESIDE, MOST_FLIGHT, MOST_LADEN, MOST_STEP, MOST_SUM, MOST_WORTH, PARTS,
};
use roster_model::limits::{MOST_PAIRINGS, MOST_WEIGHT};
use std::alloc::{AllocError, Global};

/// A table at what a minute of flight costs, and one of a load, its toll. What the target costs beside it at
/// least, without the toll of all load that may be.
#[derive(Drop)]
pub(crate) struct WorthTable {
    pub(crate) worth: i64,
    pub(crate) toll: i64,
    pub(crate) fixed: i64,
    pub(crate) behind: Behind,
}

impl WorthTable {
    /// The same as `begun`, whatever the table has.
    pub(crate) fn begun_at_most(&self) -> i64 {
        self.behind.begun.wrapping_add(self.fixed)
    }

    /// What any path brings at least.
    pub(crate) fn begun(&self) -> i64
        requires begun { IsWithin MOST_BEHIND self.now.behind.begun }
        requires fixed { IsWithin MOST_BESIDE self.now.fixed }
        ensures { result ≡ self.now.behind.begun +ℤ self.now.fixed }
    {
        self.behind.begun + self.fixed
    }

    /// What a path brings at least that begins with pairings of that value, their tolls included, and that
    /// flight, of which `q` is the last one.
    pub(crate) fn ahead(&self, value: i64, flight: u64, q: usize, class: usize, need: usize) -> i64
        requires pairing { q < length self.now.behind.rows.items }
        requires value { IsWithin MOST_LADEN value }
        requires flight { flight ≤ MOST_PAIRINGS * MOST_FLIGHT }
        requires worth { IsWithin MOST_WORTH self.now.worth }
        requires fixed { IsWithin MOST_BESIDE self.now.fixed }
        requires rows { All (λ rows. All (IsWithin MOST_BEHIND) (row_for rows need))
            self.now.behind.rows.items }
        ensures value { (rows : OwedRows) → slice_get self.now.behind.rows.items q ≡ Some rows
            → result ≡ value +ℤ (self.now.worth *ℤ pos flight) +ℤ self.now.fixed
            +ℤ row_at (row_for rows need) class }
        ensures within { IsWithin MOST_SUM result }
    {
        value + self.worth * flight as i64 + self.fixed + self.behind.rows[q].row(need).at(class)
    }
}

/// The nearest worth that may be: no more than the weight, on either side, or any above it if flight is
/// scarce.
pub(crate) fn near_worth(worth: i64, weight: i64, is_scarce: bool) -> i64
    requires { (pos 0 ≤ℤ weight) × (weight ≤ℤ pos (PARTS * MOST_WEIGHT)) }
    ensures small { IsWithin MOST_WORTH result }
    ensures weighed { neg_ℤ weight ≤ℤ result }
{
    let near = weight.min(MOST_WORTH as i64);
    worth.clamp(-near, most_worth(near, is_scarce))
}

/// The greatest worth that may be, if this is the greatest one within the weight.
fn most_worth(near: i64, is_scarce: bool) -> i64
    requires { near ≤ℤ pos MOST_WORTH }
    ensures { (near ≤ℤ result) × (result ≤ℤ pos MOST_WORTH) }
{
    if is_scarce { MOST_WORTH as i64 } else { near }
}

/// What each pairing brings if each minute of flight costs so much.
pub(crate) fn worth_values(
    alloc: Global,
    units: &[i64],
    flights: &[u64],
    worth: i64,
) -> Result<Vec<i64>, AllocError>
    requires covers { length flights.now ≡ length units.now }
    requires units { All (IsWithin MOST_LADEN) units.now }
    requires flights { All (λ flight. flight ≤ MOST_FLIGHT) flights.now }
    requires worth { IsWithin MOST_WORTH worth }
    ensures covers { IfOk result (λ values. length values.items ≡ length units.now) }
    ensures each { IfOk result (λ values. (p : ℕ) → p < length units.now
        → value_at values.items p ≡ value_at units.now p +ℤ (worth *ℤ pos (slice_index flights.now p))) }
    ensures within { IfOk result (λ values. All (IsWithin MOST_STEP) values.items) }
{
    let mut values = Vec::new(alloc);
    for p in 0..units.len() {
        values.push(worth_value(units[p], flights[p], worth))?;
    }
    Ok(values)
}

/// What a pairing of so much flight brings if each minute costs so much.
fn worth_value(units: i64, flight: u64, worth: i64) -> i64
    requires units { IsWithin MOST_LADEN units }
    requires flight { flight ≤ MOST_FLIGHT }
    requires worth { IsWithin MOST_WORTH worth }
    ensures value { result ≡ units +ℤ (worth *ℤ pos flight) }
    ensures within { IsWithin MOST_STEP result }
{
    units + worth * flight as i64
}
