//! A legal roster of any month with its cost, and a number that no roster costs less than.
//!
//! `plan` answers every problem, also one with far more legal sets than can be listed. Nobody flies a pairing
//! of another base, so each base is planned apart. If it has few legal sets, they are searched whole. Else
//! `plan` begins with what is legal of a given roster, improves it by a fixed number of random changes, then
//! by searches of neighbourhoods. Prices bound what the base costs, rosters are made of what they know, and
//! what costs little more is searched. All this is done for each effort from 0 on, and goes on from what less
//! effort found. `plan` promises neither the best roster nor a near one: each step keeps the roster legal,
//! and the result is the earliest of what is kept of the given one, of no pairings at all, and of what was
//! found. In reading order:
//!
//! - `kept`: what is legal of a given roster
//! - `means`: what a plan may take
//! - `lent`: what all steps of a plan are lent
//! - `known`: what is known of a plan
//! - `watching`: who is told that while the plan is made
//! - `bound`: what no roster of a base costs less than
//! - `parts`: what is known of each base, and the plan that they make
//! - `months`: what is known of a month while it is planned
//! - `nearby`: neighbourhoods of a roster, searched whole
//! - `together`: neighbourhoods that several threads search at once
//! - `runs`: runs of changes, which several threads do at once
//! - `exact`: the best roster of a base, if its bound is near enough to what it costs
//! - `dives`: rosters of columns
//! - `whole`: bases with few legal sets, each searched whole
//! - `looks`: how often prices are looked at, and how many threads share that
//! - `apart`: bases of which not all lines can be searched, bounded by prices
//! - `planning`: the plan
#![tactic(auto)]

mod apart;
mod bound;
mod dives;
mod exact;
mod kept;
mod known;
mod lent;
mod looks;
mod means;
mod months;
mod nearby;
mod parts;
mod planning;
mod runs;
mod together;
mod watching;
mod whole;

pub use known::Planned;
pub use means::Means;
pub use planning::plan;
pub use watching::{Phase, Watcher};
