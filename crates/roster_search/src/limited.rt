//! A search that is given up once it has done so much work.

ghost use Rattle.std.specs.Prelude.{IfOk};
ghost use Rattle.roster_lines_table.specs.Person.{AreListed};
ghost use Rattle.roster_search.specs.Limited.{IsSearched};

use crate::finding::find;
use crate::looks::OneThread;
use crate::root::root_prices;
use crate::stop::Stop;
use roster_lines_table::Table;
use roster_problem::Problem;
use roster_search_least::{Budget, Finder, least_of_region, whole};
use roster_search_regions::{DualPrices, Region};
use roster_search_relaxation::Relaxation;
use roster_values::Roster;
use std::alloc::{AllocError, Global};
use std::sync::Arc;

/// What comes of a search that may be given up.
#[derive(Drop)]
pub enum Searched {
    /// The least roster, if one costs less than the limit.
    Settled(Option<Roster>),
    /// The work was done before that was known.
    GivenUp,
}

/// The least roster in which each person has a line of the table, with its cost, if one costs less than the
/// limit. It begins with these prices of the pairings, in so many parts of a cost unit: any will do, and good
/// ones make it short. It is given up once nodes have had so many lines to look at: work is counted, never
/// time, so each run comes to the same. For that it is one thread's: in which order several visit nodes, and
/// so which work they do, is no rule's.
///
/// Bases aren't searched apart here, since the limit is one of them all.
pub fn least_within(
    alloc: Global,
    problem: &Problem,
    table: &Table,
    prices: &[i64],
    parts: u32,
    limit: i64,
    work: u64,
) -> Result<Searched, AllocError>
    requires { AreListed problem.now table.now }
    ensures { IfOk result (IsSearched problem.now table.now limit) }
{
    let ranges = whole(alloc, problem, table)?;
    let region = Region::of_ranges(alloc, problem, table, &ranges)?;
    let first = DualPrices::of_parts(alloc, problem, &region, prices, parts)?;
    let root = root_prices(&OneThread, alloc, problem, &region, &first, limit)?;
    let mut patience = Patience::new(work);
    let found = least_of_region(alloc, problem, region, root, limit, &mut patience);
    match found {
        Ok(found) => Ok(Searched::Settled(found)),
        Err(_) if patience.is_over => Ok(Searched::GivenUp),
        Err(error) => Err(error),
    }
}

/// Ends a search once its nodes had so many lines to look at, and then `is_over` says that it was no want of
/// memory; a `Finder` of one thread.
#[derive(Drop)]
struct Patience {
    left: u64,
    is_over: bool,
}

impl Patience {
    /// A thread that has so much work to do.
    fn new(work: u64) -> Patience {
        Patience {
            left: work,
            is_over: false,
        }
    }
}

impl Stop for Patience {
    ghost goes_on = { λ old new. Unit };

    fn node(&mut self, lines: usize, _others: usize) -> bool {
        match self.left.checked_sub(lines as u64) {
            Some(left) => {
                self.left = left;
                true
            }
            None => {
                self.is_over = true;
                false
            }
        }
    }

    fn shown(&mut self) -> Option<Arc<Roster>> {
        None
    }

    fn found(&mut self, _roster: &Roster) {}

    ghost stays = { λ now. tt };

    ghost follows = { λ old mid new first then. tt };
}

impl Finder for Patience {
    type Guide = Relaxation;

    ghost may_find = { Unit };

    ghost goes_on = { λ old new. Unit };

    fn find(
        &mut self,
        alloc: Global,
        problem: &Problem,
        region: Region,
        prices: &DualPrices,
        relaxation: &mut Relaxation,
        budget: Budget,
    ) -> Result<Option<Roster>, AllocError> {
        find(alloc, problem, region, prices, relaxation, budget, self)
    }

    ghost stays = { λ now. tt };

    ghost follows = { λ old mid new first then. tt };
}
