//! Searches of spans under sights that show wrong rosters.

ghost use Rattle.std.specs.Prelude.{◌≡◌, IfOk};
ghost use Rattle.std.specs.Arc.{arc_value};
ghost use Rattle.roster_lines_table.specs.Person.{IsTableOf};
ghost use Rattle.roster_model.specs.Settled.{IsHeld};
ghost use Rattle.roster_bounds.specs.Chosen.{priced_table};

use crate::books::ONE_OF_TWO;
use roster_bounds::{Tables, choose_tables};
use roster_branchtree::{Done, Path, Piece, Sight, Span, all_left, check, search};
use roster_lines::table_of;
use roster_lines_table::Table;
use roster_problem::Problem;
use roster_test_books::{BEST, TWO_DAYS, problem_of};
use roster_values::{Places, Roster};
use std::alloc::{AllocError, Global};
use std::sync::Arc;
use std::test::Fail;

/// Shows the same roster each time.
#[derive(Drop)]
struct Shows<'a> {
    alloc: Global,
    places: &'a [u16],
    cost: i64,
}

impl Sight for Shows<'_> {
    fn look(&mut self) -> Option<Arc<Roster>> {
        shared(self.alloc, self.places, self.cost).ok()
    }
}

/// A roster, right or wrong.
fn roster(alloc: Global, places: &[u16], cost: i64) -> Result<Roster, AllocError> {
    Ok(Roster {
        places: Places::new(places.to_vec(alloc)?),
        cost,
    })
}

/// The same, so that it can be shared.
pub(crate) fn shared(alloc: Global, places: &[u16], cost: i64) -> Result<Arc<Roster>, AllocError> {
    Ok(Arc::new(alloc, roster(alloc, places, cost)?)?)
}

/// The roster that leaves all open, which `check` takes.
pub(crate) fn all_open(alloc: Global, problem: &Problem, table: &Table) -> Result<Arc<Roster>, Fail>
    requires { IsTableOf problem.now table.now }
    ensures { IfOk result (λ known. IsHeld problem.now (arc_value known)) }
{
    let known = all_left(alloc, problem)?;
    if check(problem, table, &known)? {
        return Ok(Arc::new(alloc, known)?);
    }
    Err("leaving all open is legal")?
}

/// A problem, its lines, and the tables over which they are searched.
#[derive(Clone, Copy)]
pub(crate) struct Over<'a> {
    pub(crate) problem: &'a Problem,
    pub(crate) table: &'a Table,
    pub(crate) tables: &'a Tables<'a>,
}

/// What the search of this span answers.
pub(crate) fn searched<S: Sight>(
    alloc: Global,
    over: Over<'_>,
    span: Span,
    sight: &mut S,
    every: usize,
    known: &Arc<Roster>,
) -> Result<Arc<Roster>, AllocError>
    requires table { IsTableOf over.problem.now over.table.now }
    requires tables { over.tables.now
        ≡ priced_table over.problem.now over.table.now over.tables.now.prices }
    requires known { IsHeld over.problem.now (arc_value known.now) }
{
    let Over {
        problem,
        table,
        tables,
    } = over;
    let piece = Piece::of(span);
    match search(alloc, problem, table, tables, piece, sight, every, known) {
        Ok(Done { piece, best }) => {
            piece.forgo();
            Ok(best)
        }
        Err((piece, refused)) => {
            piece.forgo();
            Err(refused)
        }
    }
}

/// The search over these tables, which knows the roster that leaves all open.
fn found_under<S: Sight>(
    alloc: Global,
    over: Over<'_>,
    span: Span,
    sight: &mut S,
    every: usize,
) -> Result<Arc<Roster>, Fail>
    requires table { IsTableOf over.problem.now over.table.now }
    requires tables { over.tables.now
        ≡ priced_table over.problem.now over.table.now over.tables.now.prices }
{
    let known = all_open(alloc, over.problem, over.table)?;
    Ok(searched(alloc, over, span, sight, every, &known)?)
}

/// The search in this problem.
fn found_over<S: Sight>(
    alloc: Global,
    problem: &Problem,
    path: &[usize],
    lo: usize,
    hi: usize,
    sight: &mut S,
    every: usize,
) -> Result<Arc<Roster>, Fail> {
    let table = table_of(alloc, problem)?;
    let tables = choose_tables(alloc, problem, &table)?;
    let over = Over {
        problem,
        table: &table,
        tables: &tables,
    };
    let span = Span {
        path: Path::new(path.to_vec(alloc)?),
        lo,
        hi,
    };
    found_under(alloc, over, span, sight, every)
}

/// The search of a span of this book.
fn found_in<S: Sight>(
    alloc: Global,
    book: &[u8],
    path: &[usize],
    lo: usize,
    hi: usize,
    sight: &mut S,
    every: usize,
) -> Result<Arc<Roster>, Fail> {
    let problem = problem_of(alloc, book)?;
    found_over(alloc, &problem, path, lo, hi, sight, every)
}

/// What the search of this span answers with so many nodes from look to look, if a roster is shown
/// with these places and this cost. It knows the roster that leaves all open.
fn found(
    alloc: Global,
    path: &[usize],
    lo: usize,
    hi: usize,
    every: usize,
    places: [u16; 2],
    cost: i64,
) -> Result<Arc<Roster>, Fail> {
    let mut sight = Shows {
        alloc,
        places: &places,
        cost,
    };
    found_in(alloc, ONE_OF_TWO, path, lo, hi, &mut sight, every)
}

/// Whether the roster has these places and this cost.
pub(crate) fn is(roster: &Arc<Roster>, places: &[u16], cost: i64) -> bool {
    roster.places.as_slice() == places && roster.cost == cost
}

#[test]
fn an_illegal_roster_is_shown(rt: HostRuntime) -> Result<(), Fail> {
    assert!(rt; is(&found(rt.alloc(), &[], 0, 3, 1, [0, 0], 0)?, &[0, 1], 100));
    Ok(())
}

#[test]
fn a_roster_of_a_wrong_cost_is_shown(rt: HostRuntime) -> Result<(), Fail> {
    assert!(rt; is(&found(rt.alloc(), &[], 0, 3, 1, [1, 0], 0)?, &[0, 1], 100));
    Ok(())
}

#[test]
fn a_good_roster_is_shown(rt: HostRuntime) -> Result<(), Fail> {
    assert!(rt; is(&found(rt.alloc(), &[], 0, 1, 1, [0, 1], 100)?, &[0, 1], 100));
    assert!(rt; is(&found(rt.alloc(), &[], 0, 1, 0, [0, 1], 100)?, &[1, 1], 200));
    Ok(())
}

#[test]
fn spans_without_rosters(rt: HostRuntime) -> Result<(), Fail> {
    assert!(rt;
        is(
            &found(rt.alloc(), &[99], 5, 2, 0, [0, 1], 100)?,
            &[1, 1],
            200
        )
    );
    assert!(rt; is(&found(rt.alloc(), &[], 5, 2, 0, [0, 1], 100)?, &[1, 1], 200));
    Ok(())
}

/// The path leads past the last person, so the span's own node is the only one.
#[test]
fn the_first_node_is_the_span_s_own(rt: HostRuntime) -> Result<(), Fail> {
    for (every, places, cost) in [(1, [0, 1], 100), (2, [1, 1], 200)] {
        let best = found(rt.alloc(), &[99], 5, 2, every, [0, 1], 100)?;
        assert!(rt; is(&best, &places, cost), "every {every}");
    }
    Ok(())
}

/// What the search of all lists of line numbers answers in the problem of two days, with a look at each node.
pub(crate) fn found_in_two_days<S: Sight>(
    alloc: Global,
    sight: &mut S,
) -> Result<Arc<Roster>, Fail> {
    found_in(alloc, TWO_DAYS, &[], 0, 36, sight, 1)
}

#[test]
fn rosters_of_no_use_are_shown(rt: HostRuntime) -> Result<(), Fail> {
    let none: &[u16] = &[];
    let of_another_book: &[u16] = &[0];
    let one_too_many: &[u16] = &[1, 0, 2, 3, 4, 0, 1, 2, 3, 4, 0];
    let above_all: &[u16] = &[7; 10];
    for places in [none, of_another_book, one_too_many, above_all, BEST] {
        for cost in [i64::MIN, 0] {
            let alloc = rt.alloc();
            let mut sight = Shows {
                alloc,
                places,
                cost,
            };
            let best = found_in_two_days(alloc, &mut sight)?;
            assert!(rt; is(&best, BEST, 0));
        }
    }
    Ok(())
}

/// Whether `check` takes these places at this cost.
fn is_taken(alloc: Global, problem: &Problem, places: &[u16], cost: i64) -> Result<bool, Fail> {
    let roster = roster(alloc, places, cost)?;
    let table = table_of(alloc, problem)?;
    Ok(check(problem, &table, &roster)?)
}

/// The same in the book of one person.
fn are_taken(alloc: Global, places: &[u16], cost: i64) -> Result<bool, Fail> {
    let problem = problem_of(alloc, ONE_OF_TWO)?;
    is_taken(alloc, &problem, places, cost)
}

/// Whether `check` takes them at one of these costs, least and greatest numbers among them.
fn are_ever_taken(alloc: Global, places: &[u16]) -> Result<bool, Fail> {
    for cost in [i64::MIN, -1, 0, 99, 101, 200, i64::MAX] {
        if are_taken(alloc, places, cost)? {
            return Ok(true);
        }
    }
    Ok(false)
}

#[test]
fn rosters_checked(rt: HostRuntime) -> Result<(), Fail> {
    let legal: &[u16] = &[1, 0];
    let both_with_one: &[u16] = &[0, 0];
    let short: &[u16] = &[1];
    let long: &[u16] = &[1, 0, 1];
    let above_all: &[u16] = &[2, 0];
    for places in [legal, both_with_one, short, long, above_all] {
        assert!(rt; !are_ever_taken(rt.alloc(), places)?);
        assert!(rt; are_taken(rt.alloc(), places, 100)? == (places == legal));
    }
    Ok(())
}

#[test]
fn a_piece_has_its_span(rt: HostRuntime) -> Result<(), Fail> {
    let piece = Piece::of(Span {
        path: Path::new([7, 8].to_vec(rt.alloc())?),
        lo: 3,
        hi: 2,
    });
    let kept = piece.span().path.as_slice() == [7, 8].as_slice() && piece.span().lo == 3;
    piece.forgo();
    assert!(rt; kept);
    let path = Path::new([7].to_vec(rt.alloc())?).into_vec();
    assert!(rt; path.as_slice() == [7].as_slice());
    Ok(())
}
