//! Bases, each apart: persons, pairings and rosters of a base.
//!
//! No legal set of a person has a pairing of another base, so bases share neither persons nor pairings. What
//! two legal rosters have at different bases, put together, is a legal roster (`united`), its cost adds up, and
//! which of two is earlier is decided at each base alone (`laws`). So each base can be searched, bounded and
//! planned by rosters in which only its persons fly. In reading order:
//!
//! - `members`: the persons and the pairings of a base
//! - `uniting`: rosters of bases, put together
//! - `laws`: what follows from the definitions
#![tactic(auto)]

mod laws;
mod members;
mod uniting;

pub use laws::{each_pairing_at_home, united_costs_add_up, united_is_legal, united_keeps_order};
pub use members::{
    base_of_pairing, base_of_person, count_of_pairings, count_of_persons, has_crew, is_pairing_of,
    is_person_of, persons_of,
};
pub use uniting::{all_open, united};
