//! Tests of lines and of searches: what no clause says, and each public call that no book of `data/`
//! reaches. A crate with tests of its own would be proved twice. In reading order:
//!
//! - `books`: books of a crew and of pairings by their days
//! - `judged`: lines beside all sets that are judged from the first duty to the last
//! - `lines`: the lines of persons, and their numbers
//! - `random`: books that are put together at random
//! - `wanted`: the lines that are wanted, beside all lines
//! - `searches`: the search beside the walk of lines and the plain search
#![tactic(auto)]

#[cfg(test)]
mod books;
#[cfg(test)]
mod judged;
#[cfg(test)]
mod lines;
#[cfg(test)]
mod random;
#[cfg(test)]
mod searches;
#[cfg(test)]
mod wanted;
