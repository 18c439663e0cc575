//! What no roster of a base costs less than, however many legal sets there are.
//!
//! In a roster of a base only its persons fly, so the pairings of other bases are open. At any prices of
//! pairings it costs the reduced costs of its lines, and the price or the penalty of each pairing. Of each
//! person labels find lines that cost little, and the least of them is a claim. Tables say what may stand
//! behind a pairing at least, by the rests and days off that are still due, and a search that they lead shows
//! the claim: it finds no line that costs less. A table of chains, of which each pairing is legal with the
//! one before, says less, and serves gaps. In reading order:
//!
//! - `parts`: amounts in parts of a cost unit
//! - `network`: which pairings may follow one another
//! - `span`: when a pairing begins and ends, as the recovery rule sees it
//! - `timeline`: the pairings of a person in order of time
//! - `days_off`: by when there may have been days off
//! - `loads`: what pairings take of a sum that limits judge
//! - `draft`: the tables of a timeline
//! - `rows_behind`: amounts for each class
//! - `leading`: what stands behind one pairing
//! - `behind`: what the pairings that may stand behind one bring at least
//! - `values`: what each pairing brings to a person at some prices
//! - `spare`: the flight that limits leave a person
//! - `target`: what the target of a person costs
//! - `tolls`: what loads cost by the minute
//! - `worths`: tables at what a minute of flight is worth
//! - `prospect`: what the paths of a person bring at some prices
//! - `terms`: what flight costs at the end of a chain
//! - `rows`: the table of chains
//! - `columns`: legal sets that are known
//! - `seek`: a search for the path that brings the least
//! - `labels`: legal sets that cost little, found in order of time
//! - `sets`: what legal sets bring at least
//! - `team`: threads that share what is done for each person
//! - `persons`: looks at each person of a base, shared among threads
//! - `pricing`: what prices say of the rosters of a base
//! - `prices`: prices of pairings, within their limits
//! - `covered`: the pairings of a base, which are to be covered
//! - `softness`: weights and logarithms in whole numbers
//! - `way`: prices on their way to those at which known columns cost the most
//! - `portions`: what the columns of some persons cover, shared among threads
//! - `master`: the best prices for the legal sets that are known
//! - `sketched`: a person in a sketch of a base
//! - `sketch`: prices of a sketch, which move far in a moment
//! - `start`: the prices that looks begin with
//! - `pace`: how prices move from one look to the next
//! - `rising`: prices that say more and more, and a file for what is claimed of them
//! - `dive`: rosters of columns
//! - `own_cost`: what persons of a roster cost
//! - `choosing`: who is next to get a column
//! - `gap`: lines that a roster may have which costs little more than a bound
//! - `lists`: what stands at a place of a list
//! - `tuning`: the numbers that decide how good a bound is
//! - `dearness`: by how much they are multiplied
#![tactic(auto)]

mod behind;
mod choosing;
mod columns;
mod covered;
mod days_off;
mod dearness;
mod dive;
mod draft;
mod gap;
mod labels;
mod leading;
mod lists;
mod loads;
mod master;
mod network;
mod own_cost;
mod pace;
mod parts;
mod persons;
mod portions;
mod prices;
mod pricing;
mod prospect;
mod rising;
mod rows;
mod rows_behind;
mod seek;
mod sets;
mod sketch;
mod sketched;
mod softness;
mod span;
mod spare;
mod start;
mod target;
mod team;
mod terms;
mod timeline;
mod tolls;
mod tuning;
mod values;
mod way;
mod worths;

pub use dive::DivePlan;
pub use parts::PARTS;
pub use pricing::Pricing;
pub use rising::PricedBound;
pub use team::Team;
