//! A linear program over lines of a region: its dual prices give bounds that come close to what rosters cost,
//! and its shares say which choice to settle next. No answer of a search rests on them. In reading order:
//!
//! - `tuning`: the numbers that decide how long a search takes
//! - `program_rows`: which persons and pairings have rows in a linear program
//! - `seeking`: lines that cost little at some prices
//! - `relaxation`: a linear program over some lines of a region, whose dual prices are good ones
//! - `beginning`: the lines that it begins with, and a part of the region that it goes on with
//! - `ending`: when it is solved no more
//! - `relaxing`: what several threads do for it, and what it says of shares
//! - `gains`: what branches brought so far
//! - `shares`: which choice of a person to settle next, by its shares
#![tactic(auto)]

mod beginning;
mod ending;
mod gains;
mod program_rows;
mod relaxation;
mod relaxing;
mod seeking;
mod shares;
mod tuning;

pub use gains::Side;
pub use relaxation::Relaxation;
pub use shares::branch_by_shares;
