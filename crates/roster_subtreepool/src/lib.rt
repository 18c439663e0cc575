//! A pool of spans that workers share: who has which part of the box of all lists of line numbers.
//!
//! A `PoolState` keeps which spans are pending, in a worker's hand and finished, and what happened to it.
//! Its state is the replay of its history, whoever did what and in whatever order; and after any history
//! each list of the box lies in just one span. So what is finished at rest is the whole box, each part once.
//! A `Pool` is such a state behind a lock. In reading order:
//!
//! - `event`: what happens to a pool
//! - `fault`: what a pool refuses
//! - `board`: where each span is
//! - `share`: how many spans a worker has finished
//! - `settled`: a span, and the roster by which it is settled
//! - `pool_state`: a state, and the events that led to it
//! - `closed`: what a pool at rest leaves
//! - `pool`: a state that several workers share
//! - `laws`: each list lies in one span
#![tactic(auto)]

mod board;
mod closed;
mod event;
mod fault;
mod laws;
mod pool;
mod pool_state;
mod settled;
mod share;

pub use closed::Closed;
pub use event::Event;
pub use fault::PoolFault;
pub use laws::{counts_what_lies_in, each_list_in_one_span};
pub use pool::Pool;
pub use pool_state::PoolState;
pub use settled::Settled;
pub use share::Share;
