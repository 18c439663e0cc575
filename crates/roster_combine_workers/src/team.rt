//! What workers of one run share.

ghost use Rattle.std.specs.Prelude.{◌≡◌};
ghost use Rattle.roster_lines_table.specs.Person.{IsTableOf};

use crate::span_search::SpanSearch;
use roster_lines_table::Table;
use roster_problem::Problem;
use std::alloc::Global;
use std::marker::Model;

/// What workers of one run are lent: what they wait by, memory, the problem and its table of lines, what
/// searches their spans, and a gate that each of them passes. Contracts see it as the problem and the table.
#[derive(Drop)]
pub struct Team<'a, R, F: SpanSearch, G> {
    pub(crate) rt: &'a R,
    pub(crate) alloc: Global,
    pub(crate) problem: &'a Problem,
    pub(crate) table: &'a Table,
    pub(crate) searcher: &'a F,
    pub(crate) gate: &'a G,
}

impl<'a, R, F: SpanSearch, G> Model for Team<'a, R, F, G> {
    ghost use Rattle.std.specs.Prelude.{◌≡◌};
    ghost use Rattle.roster_lines_table.specs.Person.{IsTableOf};
    ghost use Rattle.roster_combine_workers.specs.Parts.{Task};

    ghost Value = { Task };

    ghost view = { λ t. record { problem = t.problem.now; table = t.table.now } };

    ghost invariant = { λ t. IsTableOf t.problem.now t.table.now
        × (F.task t.searcher.now ≡ record { problem = t.problem.now; table = t.table.now }) };
}

impl<'a, R, F: SpanSearch, G> Team<'a, R, F, G> {
    /// A team whose searcher is one of this problem and table.
    pub fn new(
        rt: &'a R,
        alloc: Global,
        problem: &'a Problem,
        table: &'a Table,
        searcher: &'a F,
        gate: &'a G,
    ) -> Team<'a, R, F, G>
        requires table { IsTableOf problem.now table.now }
        requires searcher { F.task searcher.now ≡ record { problem = problem.now; table = table.now } }
        ensures { result ≡ record { problem = problem.now; table = table.now } }
    {
        Team {
            rt,
            alloc,
            problem,
            table,
            searcher,
            gate,
        }
    }
}
