//! How dual prices of pairings move, and rosters that are rounded from them: what makes a search short. No
//! answer of a search rests on them, since any prices give a bound that holds, and a rounded roster is
//! tested. So the contracts say little: places are as many as pairings. Bounds that are told are estimates.
//! In reading order:
//!
//! - `tuning`: the numbers that decide how long a search takes
//! - `powers`: powers of two and logarithms
//! - `scope`: what is left to decide in a region
//! - `picking`: some of a person's lines, as a tree of their own
//! - `near`: the lines that count at some prices
//! - `look`: how often each pairing is held by the best lines
//! - `ascent`: prices on their way up
//! - `looking`: looks at lines, which tell the bound that prices give
//! - `branching`: which choice of a person to settle next
//! - `rounding`: rosters by prices
#![tactic(auto)]

mod ascent;
mod branching;
mod look;
mod looking;
mod near;
mod picking;
mod powers;
mod rounding;
mod scope;
mod tuning;

pub use ascent::Ascent;
pub use branching::branch;
pub use rounding::rounded;
