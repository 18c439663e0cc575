//! What lines and rosters cost, and the order of rosters.
//!
//! `line_cost` is what a person's set of pairings costs, and `roster_cost` what a list of places
//! does, legal or not: each fits an `i64` by the limits of a book. `cost_without_pairings` is what persons
//! cost before they are given any. `cost_at` is `line_cost` for who
//! goes from a set to one with a pairing more, and adds up units and flight on the way. `Key` has the
//! order of rosters. No call takes memory. In reading order:
//!
//! - `flight`: the flight of fixed duties, pairings and sets
//! - `line`: what a line costs
//! - `roster`: what a roster costs
//! - `key`: rosters by cost, and then by their lists
//! - `laws`: what follows from the definitions
#![tactic(auto)]

mod flight;
mod key;
mod laws;
mod line;
mod roster;

pub use flight::{fixed_flight, pairing_flight};
pub use key::{Key, comes_before};
pub use laws::{
    keys_are_in_order, lines_are_near, one_pairing_more, order_of_keys, priced_shares_add_up,
    shares_add_up, units_of_set,
};
pub use line::{cost_at, line_cost};
pub use roster::{cost_without_pairings, roster_cost};
