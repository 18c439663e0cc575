//! What loads cost by the minute. Limits leave a person only so much of the sum that loads are parts of, so
//! what a minute of it is said to cost comes back as often as there are such minutes.

ghost use Rattle.std.specs.Prelude.{◌≡◌, ◌<◌, ◌≤◌, ◌*◌, ◌+ℤ◌, ◌-ℤ◌, ◌*ℤ◌, ◌≤ℤ◌, ℕ, pos};
ghost use Rattle.std.specs.Prelude.{All, IfOk, length, slice_index};
ghost use Rattle.roster_cost.specs.Amounts.{IsWithin};
ghost use Rattle.roster_plan_bound.specs.Chains.{value_at};

use crate::parts::{MOST_BESIDE, MOST_CHAIN_VALUE, MOST_LADEN, MOST_LEAST, MOST_LOAD, MOST_TOLL};
use roster_model::limits::MOST_PAIRINGS;
use std::alloc::{AllocError, Global};

/// The nearest toll that may be: none below 0.
pub(crate) fn near_toll(toll: i64) -> i64
    ensures some { pos 0 ≤ℤ result }
    ensures few { result ≤ℤ pos MOST_TOLL }
{
    toll.clamp(0, MOST_TOLL as i64)
}

/// What each pairing brings if each minute of its load costs so much.
pub(crate) fn laden_values(
    alloc: Global,
    units: &[i64],
    loads: &[u64],
    toll: i64,
) -> Result<Vec<i64>, AllocError>
    requires covers { length loads.now ≡ length units.now }
    requires units { All (IsWithin MOST_CHAIN_VALUE) units.now }
    requires loads { All (λ load. load ≤ MOST_LOAD) loads.now }
    requires toll { IsWithin MOST_TOLL toll }
    ensures covers { IfOk result (λ values. length values.items ≡ length units.now) }
    ensures each { IfOk result (λ values. (p : ℕ) → p < length units.now
        → value_at values.items p ≡ value_at units.now p +ℤ (toll *ℤ pos (slice_index loads.now p))) }
    ensures within { IfOk result (λ values. All (IsWithin MOST_LADEN) values.items) }
{
    let mut values = Vec::new(alloc);
    for p in 0..units.len() {
        values.push(laden(units[p], loads[p], toll))?;
    }
    Ok(values)
}

/// What is brought if each minute of so much load costs so much.
pub(crate) fn laden(value: i64, load: u64, toll: i64) -> i64
    requires value { IsWithin (MOST_PAIRINGS * MOST_CHAIN_VALUE) value }
    requires load { load ≤ MOST_LOAD }
    requires toll { IsWithin MOST_TOLL toll }
    ensures value { result ≡ value +ℤ (toll *ℤ pos load) }
    ensures within { IsWithin MOST_LADEN result }
{
    value + toll * load as i64
}

/// What is left without what all load that may be costs by the toll.
pub(crate) fn less_toll(fixed: i64, toll: i64, spare: u64) -> i64
    requires fixed { IsWithin MOST_LEAST fixed }
    requires toll { IsWithin MOST_TOLL toll }
    requires spare { spare ≤ MOST_LOAD }
    ensures value { result ≡ fixed -ℤ (toll *ℤ pos spare) }
    ensures within { IsWithin MOST_BESIDE result }
{
    fixed - toll * spare as i64
}
