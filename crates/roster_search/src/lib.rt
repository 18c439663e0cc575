//! The least roster of a box of lines.
//!
//! `least_of_box` answers the least legal roster of a box if it is before a known one; `least_within` is
//! given up after so much work. `explore` is what drives all searches from node to node, by one thread; a
//! `Stop` may end it. Each base is searched apart; `roster_search_threads` has several threads do so, by the
//! parts that are public here. In reading order:
//!
//! - `boxes`: the least roster of a box, united from those of its bases
//! - `limited`: a search that is given up once it has done so much work
//! - `parts`: the least roster of one base
//! - `root`: prices to begin with
//! - `rise`: how they rise
//! - `looks`: who looks at lines for that
//! - `finding`: one thread that finds a roster that costs no more than it may
//! - `exploring`: open nodes of which the last one is visited first
//! - `stop`: who is told of the nodes of a search, and may end it
//! - `visiting`: what is still to be searched, and what comes of it
//! - `parting`: what a region is parted by, and its two sides
//! - `room`: what rosters of a region may cost
//! - `refining`: a region made smaller by good prices
//! - `rising`: a region made smaller by prices that rise
//! - `tuning`: the numbers that decide how long a search takes
#![tactic(auto)]

mod boxes;
mod exploring;
mod finding;
mod limited;
mod looks;
mod parting;
mod parts;
mod refining;
mod rise;
mod rising;
mod room;
mod root;
mod stop;
mod tuning;
mod visiting;

pub use boxes::{least_of_box, least_with};
pub use exploring::{Explored, explore, first_nodes, limit};
pub use finding::find;
pub use limited::{Searched, least_within};
pub use looks::{Looks, SeveralThreads};
pub use root::root_prices;
pub use stop::{Never, Stop};
pub use visiting::OpenNode;
