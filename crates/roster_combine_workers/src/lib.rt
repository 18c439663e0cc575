//! Workers that search for one best roster together, whatever searches their spans.
//!
//! Workers take spans from a pool and have them searched (`SpanSearch`); what they find is put together in
//! the end. Or one thread does what a schedule says of all workers. In reading order:
//!
//! - `span_search`: what searches spans
//! - `root`: one search of all rosters
//! - `team`: what workers of one run share
//! - `watcher`: looks of a worker's search, at a gate
//! - `working`: what a worker does
//! - `combining`: the least of all that workers found
//! - `crew`: workers in threads of their own
//! - `stage`: a pool in which one thread does what a schedule says
//! - `laws`: the least that was handed in is the best
#![tactic(auto)]

mod combining;
mod crew;
mod laws;
mod root;
mod span_search;
mod stage;
mod team;
mod watcher;
mod working;

pub use combining::{Solved, combine, solved_by_nobody};
pub use crew::work_together;
pub use laws::least_handed_in_is_best;
pub use root::first_known;
pub use roster_incumbent::{Gate, Open, Point};
pub use span_search::SpanSearch;
pub use stage::replay_steps;
pub use team::Team;
pub use working::work;
