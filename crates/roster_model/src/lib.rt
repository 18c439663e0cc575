//! What a roster is: the records of a book, its first fault, the problem that it gives, the rules,
//! costs, the best roster and the texts.
//!
//! This crate has no functions: its constants are the limits and the rules' numbers, and the rest is
//! definitions in `specs`.
//! In reading order:
//!
//! - `limits`: how many, how long and how much, each number once
//! - `profile`: the numbers of the rules
//! - `Form`: what the bytes of a field must look like
//! - `Calendar`: instants, periods, and the days round a month
//! - `Clocks`: what the clocks show by a zone text
//! - `Zone`: the local days that a base's zone text stands for
//! - `Window`: what lies in the window of a base
//! - `Record`: records, their kinds, and the tables that are gathered from them
//! - `Code`: what may be wrong with a record, by its number
//! - `records`: for each kind its columns, what it adds, and what may be wrong with it
//! - `Problem`: what is to be rostered
//! - `Busy`: when persons are busy
//! - `Faults`: the code of a record, and the first fault of all
//! - `Sums`: duty and flight by local day, in runs of days, and in the month
//! - `Rules`: which sets of pairings are legal for a person
//! - `Places`: who flies what
//! - `Costs`: what sets and rosters cost
//! - `Rosters`: legal rosters, and their order
//! - `Lines`: the legal sets of a person, in order
//! - `Settled`: the best roster, what a search says of some rosters, and what no roster costs less than
//! - `Texts`: the lines that are written
//! - `Answer`: the records of the bytes, and the text that answers them
//! - `Plans`: the plan that answers the records of a month which is too large to be solved
#![tactic(auto)]

pub mod limits;
pub mod profile;
