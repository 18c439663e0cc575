//! Spans that are searched by branch and bound.

ghost use Rattle.std.specs.Prelude.{◌≡◌, ◌+◌, ◌≤◌, All, IfOk, length, map, vec_len};
ghost use Rattle.std.specs.Arc.{arc_value};
ghost use Rattle.roster_lines_table.specs.Person.{IsTableOf};
ghost use Rattle.roster_bounds.specs.Chosen.{priced_table};
ghost use Rattle.roster_combine_workers.specs.Parts.{Agree, AreSettled, IsBestKey};

use roster_bounds::{Tables, choose_tables};
use roster_branchtree::search;
use roster_combine_workers::{Gate, Solved, SpanSearch, Team};
use roster_incumbent::{Incumbent, Sight};
use roster_lines_table::Table;
use roster_problem::Problem;
use roster_subtreepool::{Closed, Pool, Settled, Share};
use roster_subtreepool_spans::{Done, Piece};
use roster_values::Roster;
use std::alloc::{AllocError, Global};
use std::marker::Model;
use std::sync::ledger::Ledger;
use std::sync::{Arc, Wait};

/// What a search of spans by branch and bound looks things up in. Contracts see it as the problem and its
/// table of lines.
#[derive(Drop)]
pub(crate) struct Branching<'a> {
    alloc: Global,
    problem: &'a Problem,
    table: &'a Table,
    tables: &'a Tables<'a>,
}

impl<'a> Model for Branching<'a> {
    ghost use Rattle.std.specs.Prelude.{◌≡◌};
    ghost use Rattle.roster_lines_table.specs.Person.{IsTableOf};
    ghost use Rattle.roster_bounds.specs.Chosen.{priced_table};
    ghost use Rattle.roster_combine_workers.specs.Parts.{Task};

    ghost Value = { Task };

    ghost view = { λ b. record { problem = b.problem.now; table = b.table.now } };

    ghost invariant = { λ b. IsTableOf b.problem.now b.table.now
        × (b.tables.now ≡ priced_table b.problem.now b.table.now b.tables.now.prices) };
}

impl<'a> Branching<'a> {
    /// A search of all rosters of the table's lines.
    pub(crate) fn new(
        alloc: Global,
        problem: &'a Problem,
        table: &'a Table,
        tables: &'a Tables<'a>,
    ) -> Branching<'a>
        requires table { IsTableOf problem.now table.now }
        requires tables { tables.now ≡ priced_table problem.now table.now tables.now.prices }
        ensures { result ≡ record { problem = problem.now; table = table.now } }
    {
        Branching {
            alloc,
            problem,
            table,
            tables,
        }
    }
}

impl<'a> SpanSearch for Branching<'a> {
    ghost task = { λ now. now };

    fn none_before(&self, best: &Roster) -> bool {
        self.tables.none_before(best)
    }

    fn search<S: Sight>(
        &self,
        piece: Piece,
        sight: &mut S,
        every: usize,
        known: &Arc<Roster>,
    ) -> Result<Done, (Piece, AllocError)> {
        search(
            self.alloc,
            self.problem,
            self.table,
            self.tables,
            piece,
            sight,
            every,
            known,
        )
    }
}

/// `roster_combine_workers::work`, whose spans are searched by branch and bound with these tables.
pub fn work<R: Wait, L: Ledger, G: Gate>(
    rt: &R,
    alloc: Global,
    problem: &Problem,
    table: &Table,
    tables: &Tables<'_>,
    pool: &Pool<L>,
    incumbent: &Incumbent,
    worker: usize,
    share: &mut Share<L>,
    gate: &G,
) -> Result<Vec<Settled>, AllocError>
    requires table { IsTableOf problem.now table.now }
    requires tables { tables.now ≡ priced_table problem.now table.now tables.now.prices }
    ensures settled { IfOk result (λ list. AreSettled problem.now table.now list.items) }
    ensures counted { IfOk result (λ list. share.new ≡ share.old + vec_len list) }
{
    let searcher = Branching::new(alloc, problem, table, tables);
    let team = Team::new(rt, alloc, problem, table, &searcher, gate);
    roster_combine_workers::work(&team, pool, incumbent, worker, share)
}

/// `roster_combine_workers::combine`, which searches by branch and bound if what workers handed in doesn't
/// agree with the pool. The tables for that are made first, so want of memory may be told though all agrees.
pub fn combine(
    alloc: Global,
    problem: &Problem,
    table: &Table,
    lists: Vec<Vec<Settled>>,
    closed: Closed,
) -> Result<Solved, AllocError>
    requires table { IsTableOf problem.now table.now }
    requires settled { All (AreSettled problem.now table.now) (map (λ list. list.items) lists.items) }
    ensures best { IfOk result (λ solved. IsBestKey problem.now (arc_value solved.roster)) }
    ensures agree { IfOk result (λ solved.
        Agree (map length table.now) (map (λ list. list.items) lists.items) closed → solved.fallbacks ≡ 0) }
    ensures differ { IfOk result (λ solved.
        ¬ Agree (map length table.now) (map (λ list. list.items) lists.items) closed → solved.fallbacks ≡ 1) }
    ensures once { IfOk result (λ solved. solved.fallbacks ≤ 1) }
{
    let tables = choose_tables(alloc, problem, table)?;
    let searcher = Branching::new(alloc, problem, table, &tables);
    roster_combine_workers::combine(alloc, problem, table, &searcher, lists, closed)
}
