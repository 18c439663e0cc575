//! What a search and a pool of its parts share: spans, and who has to search them.
//!
//! A `Span` is a part of the box of all lists of line numbers. A `Piece` holds one until it is spent, and a
//! `Done` one that is settled, with the roster that settles it. In reading order:
//!
//! - `span`: a part of the box
//! - `piece`: a span that someone has to search, and one that is settled
#![tactic(auto)]

mod piece;
mod span;

pub use piece::{Done, Piece};
pub use span::{Path, Span};
