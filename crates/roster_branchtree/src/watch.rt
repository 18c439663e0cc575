//! What is seen on the way of a search.

ghost use Rattle.std.specs.Prelude.{◌≡◌, ◌<◌, true, IfOk, IfSome, IsTrue, MatchOption};
ghost use Rattle.std.specs.Arc.{arc_value};
ghost use Rattle.roster_lines_table.specs.Person.{IsTableOf};
ghost use Rattle.roster_model.specs.Rosters.{key_le};
ghost use Rattle.roster_model.specs.Settled.{IsHeld};
ghost use Rattle.roster_incumbent.specs.Kept.{IsEarlierOf};

use roster_cost::{comes_before, keys_are_in_order};
use roster_incumbent::{Sight, is_held};
use roster_lines_table::Table;
use roster_problem::Problem;
use roster_search::{Stop, find};
use roster_search_least::{Budget, Finder};
use roster_search_regions::{DualPrices, Region};
use roster_search_relaxation::Relaxation;
use roster_values::Roster;
use std::alloc::{AllocError, Global};
use std::marker::Model;
use std::sync::Arc;

/// Counts the nodes of a search, and looks at a sight at each node whose number `every` divides; never if
/// that is 0. It ends no search. It has the earliest legal roster of those that it began with and has seen.
#[derive(Drop)]
pub(crate) struct Watch<'a, S> {
    problem: &'a Problem,
    table: &'a Table,
    sight: &'a mut S,
    every: usize,
    // The nodes until the next look; 0 if there is none.
    left: usize,
    best: Arc<Roster>,
}

impl<'a, S> Model for Watch<'a, S> {
    ghost use Rattle.std.specs.Prelude.{◌≤◌};
    ghost use Rattle.std.specs.Arc.{arc_value};
    ghost use Rattle.roster_lines_table.specs.Person.{IsTableOf};
    ghost use Rattle.roster_branchtree.specs.Shown.{Watched};

    ghost Value = { Watched };

    ghost view = { λ w. record { problem = w.problem.now; every = w.every; best = arc_value w.best } };

    ghost invariant = { λ w. IsTableOf w.problem.now w.table.now × (w.left ≤ w.every) };
}

impl<'a, S: Sight> Watch<'a, S> {
    /// A watch that begins with this roster.
    pub(crate) fn new(
        problem: &'a Problem,
        table: &'a Table,
        sight: &'a mut S,
        every: usize,
        best: Arc<Roster>,
    ) -> Watch<'a, S>
        requires { IsTableOf problem.now table.now }
        ensures { result ≡ record { problem = problem.now; every = every; best = arc_value best } }
    {
        Watch {
            problem,
            table,
            sight,
            every,
            left: every,
            best,
        }
    }

    /// The earliest roster so far.
    pub(crate) fn best(&self) -> Result<Arc<Roster>, AllocError>
        ensures { IfOk result (λ best. arc_value best ≡ self.now.best) }
    {
        Arc::try_clone(&self.best)
    }

    /// Counts one more node, and tells whether it is one to look at.
    fn is_due(&mut self) -> bool
        ensures same { self.new ≡ self.old }
        ensures sighted { IsTrue result → 0 < self.old.every }
    {
        if self.left > 1 {
            self.left -= 1;
            return false;
        }
        self.left = self.every;
        self.every > 0
    }

    /// What is shown now, if that is a legal roster with its cost that comes before the best one.
    fn seen(&mut self) -> Option<Arc<Roster>>
        ensures same { self.new ≡ self.old }
        ensures earlier { IfSome result (λ shown. IsHeld self.old.problem (arc_value shown)
            × (key_le (arc_value shown) self.old.best ≡ true)) }
    {
        let shown = self.sight.look()?;
        if comes_before(&shown, &self.best) && is_held(self.problem, self.table, &shown) {
            return Some(shown);
        }
        None
    }
}

impl<'a, S: Sight> Stop for Watch<'a, S> {
    ghost use Rattle.roster_branchtree.specs.Shown.{KeepsWatch};
    ghost use Rattle.roster_branchtree.specs.Watching.{keeps_nothing, keeps_then};

    ghost goes_on = { KeepsWatch };

    fn node(&mut self, _lines: usize, _others: usize) -> bool {
        if self.is_due() {
            if let Some(shown) = self.seen() {
                self.best = shown;
            }
        }
        true
    }

    fn shown(&mut self) -> Option<Arc<Roster>> {
        None
    }

    fn found(&mut self, _roster: &Roster) {}

    ghost stays = { keeps_nothing };

    ghost follows = { keeps_then };
}

impl<'a, S: Sight> Finder for Watch<'a, S> {
    type Guide = Relaxation;

    ghost use Rattle.roster_branchtree.specs.Shown.{KeepsWatch};
    ghost use Rattle.roster_branchtree.specs.Watching.{keeps_nothing, keeps_then};

    ghost may_find = { Unit };

    ghost goes_on = { KeepsWatch };

    fn find(
        &mut self,
        alloc: Global,
        problem: &Problem,
        region: Region,
        prices: &DualPrices,
        relaxation: &mut Relaxation,
        budget: Budget,
    ) -> Result<Option<Roster>, AllocError> {
        find(alloc, problem, region, prices, relaxation, budget, self)
    }

    ghost stays = { keeps_nothing };

    ghost follows = { keeps_then };
}

/// The earlier of a roster, if there is one, and another; the other one if the keys are equal.
pub(crate) fn earlier_if(
    alloc: Global,
    roster: Option<Roster>,
    other: Arc<Roster>,
) -> Result<Arc<Roster>, AllocError>
    ensures { IfOk result (λ best. MatchOption roster (arc_value best ≡ arc_value other)
        (λ roster. IsEarlierOf roster (arc_value other) (arc_value best))) }
{
    match roster {
        Some(roster) => Ok(earlier_of(alloc, roster, other)?),
        None => Ok(other),
    }
}

/// The earlier of two rosters; the second if the keys are equal.
fn earlier_of(alloc: Global, roster: Roster, other: Arc<Roster>) -> Result<Arc<Roster>, AllocError>
    ensures { IfOk result (λ best. IsEarlierOf roster (arc_value other) (arc_value best)) }
{
    keys_are_in_order();
    if comes_before(&roster, &other) {
        return Ok(Arc::new(alloc, roster)?);
    }
    Ok(other)
}
