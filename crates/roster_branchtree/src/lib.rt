//! A search of a span that ends with a settled roster, whatever it is shown on the way.
//!
//! `search` answers a legal roster that isn't after any legal roster of the span, nor after the known one; it
//! looks at a `Sight` now and then, whose answers it trusts in nothing. In reading order:
//!
//! - `ranges`: a span as a range of lines for each person
//! - `watch`: what is seen on the way
//! - `searching`: the search itself
#![tactic(auto)]

mod ranges;
mod searching;
mod watch;

pub use roster_incumbent::{Sight, all_left, check};
pub use roster_subtreepool_spans::{Done, Path, Piece, Span};
pub use searching::search;
