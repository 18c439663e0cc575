//! What a worker hands in, and what lists come to.

ghost use Rattle.std.specs.Prelude.{◌≡◌, All, IfOk, IfSome, List, map};
ghost use Rattle.roster_model.specs.Problem.{Problem as PlainProblem};
ghost use Rattle.roster_lines_table.specs.Entries.{Entry};
ghost use Rattle.roster_lines_table.specs.Person.{IsTableOf};
ghost use Rattle.roster_bounds.specs.Chosen.{priced_table};
ghost use Rattle.roster_combine_workers.specs.Parts.{AreSettled};

use crate::books::is;
use roster_bounds::{Tables, choose_tables};
use roster_branchtree::{Span, all_left};
use roster_combine::{Open, Solved, combine, work};
use roster_incumbent::Incumbent;
use roster_lines::table_of;
use roster_lines_table::Table;
use roster_problem::Problem;
use roster_subtreepool::{Closed, Pool, PoolState, Settled};
use roster_test_books::{BEST, TWO_DAYS, problem_of};
use std::alloc::{AllocError, Global};
use std::marker::Brand;
use std::sync::ledger::{Blank, Ledger};
use std::sync::{Arc, Wait};
use std::test::Fail;

/// How many lines each person of `TWO_DAYS` has.
const WIDTHS: [usize; 6] = [36, 36, 36, 36, 36, 36];

/// What a lone worker hands in, and what the pool leaves. None if the pool isn't at rest.
fn worked<L: Ledger, R: Wait>(
    rt: &R,
    alloc: Global,
    problem: &Problem,
    table: &Table,
    blank: Blank,
) -> Result<Option<(Vec<Settled>, Closed)>, AllocError>
    requires table { IsTableOf problem.now table.now }
    requires name { blank.name ≡ L.name }
    requires parts { blank.parts ≡ L.parts }
    requires one_each { blank.parts ≡ 1 }
    ensures { IfOk result (λ worked. IfSome worked (λ worked.
        AreSettled problem.now table.now worked.0.items)) }
{
    let incumbent = Incumbent::new(Arc::new(alloc, all_left(alloc, problem)?)?);
    let tables = choose_tables(alloc, problem, table)?;
    worked_with::<L, R>(rt, alloc, problem, table, &tables, &incumbent, blank)
}

/// The same with these tables and this incumbent.
fn worked_with<L: Ledger, R: Wait>(
    rt: &R,
    alloc: Global,
    problem: &Problem,
    table: &Table,
    tables: &Tables<'_>,
    incumbent: &Incumbent,
    blank: Blank,
) -> Result<Option<(Vec<Settled>, Closed)>, AllocError>
    requires table { IsTableOf problem.now table.now }
    requires tables { tables.now ≡ priced_table problem.now table.now tables.now.prices }
    requires name { blank.name ≡ L.name }
    requires parts { blank.parts ≡ L.parts }
    requires one_each { blank.parts ≡ 1 }
    ensures { IfOk result (λ worked. IfSome worked (λ worked.
        AreSettled problem.now table.now worked.0.items)) }
{
    let (state, mut shares) = match PoolState::<L>::start(alloc, &WIDTHS, 1, blank) {
        Ok(started) => started,
        Err((_, refused)) => return Err(refused),
    };
    let pool = Pool::new(state);
    let list = work(
        rt,
        alloc,
        problem,
        table,
        tables,
        &pool,
        incumbent,
        0,
        &mut shares[0],
        &Open,
    )?;
    match pool.into_state().close(shares) {
        Ok(closed) => Ok(Some((list, closed))),
        Err(_) => Ok(None),
    }
}

/// Whether the spans are the same.
fn are_same(first: &Span, second: &Span) -> bool {
    first.path.as_slice() == second.path.as_slice()
        && first.lo == second.lo
        && first.hi == second.hi
}

/// Whether the list has just the spans that the pool lists for worker 0, and some.
fn has_spans(list: &[Settled], closed: &Closed) -> bool {
    let finished = closed.finished();
    if list.is_empty() || finished.len() != list.len() || closed.count() != list.len() {
        return false;
    }
    for (k, settled) in list.iter().enumerate() {
        let (worker, span) = &finished[k];
        if *worker != 0 || !are_same(span, &settled.span) {
            return false;
        }
    }
    true
}

/// Whether a lone worker hands in just what the pool lists.
fn are_listed<L: Ledger, R: Wait>(
    rt: &R,
    alloc: Global,
    problem: &Problem,
    table: &Table,
    blank: Blank,
) -> Result<bool, AllocError>
    requires table { IsTableOf problem.now table.now }
    requires name { blank.name ≡ L.name }
    requires parts { blank.parts ≡ L.parts }
    requires one_each { blank.parts ≡ 1 }
{
    match worked::<L, R>(rt, alloc, problem, table, blank)? {
        Some((list, closed)) => Ok(has_spans(&list, &closed)),
        None => Ok(false),
    }
}

/// The same in the book of two days.
fn hands_in_what_is_listed<L: Ledger, R: Wait>(
    rt: &R,
    alloc: Global,
    blank: Blank,
) -> Result<bool, Fail>
    requires name { blank.name ≡ L.name }
    requires parts { blank.parts ≡ L.parts }
    requires one_each { blank.parts ≡ 1 }
{
    let problem = problem_of(alloc, TWO_DAYS)?;
    let table = table_of(alloc, &problem)?;
    Ok(are_listed::<L, R>(rt, alloc, &problem, &table, blank)?)
}

/// For whom worker 0's list is handed in.
#[derive(Clone, Copy)]
enum Handed {
    /// For itself.
    First,
    /// For worker 1, with an empty list for worker 0.
    Second,
    /// For nobody: there are no lists.
    Nobody,
}

/// The lists that are handed in.
fn lists_of(
    alloc: Global,
    handed: Handed,
    list: Vec<Settled>,
) -> Result<Vec<Vec<Settled>>, AllocError>
    ensures { IfOk result (λ lists. (problem : PlainProblem) (table : List (List Entry))
        → AreSettled problem table list.items
        → All (AreSettled problem table) (map (λ list. list.items) lists.items)) }
{
    let mut lists = Vec::new(alloc);
    match handed {
        Handed::First => lists.push(list)?,
        Handed::Second => {
            lists.push(Vec::new(alloc))?;
            lists.push(list)?;
        }
        Handed::Nobody => {}
    }
    Ok(lists)
}

/// What the list comes to.
fn put_together(
    alloc: Global,
    problem: &Problem,
    table: &Table,
    handed: Handed,
    list: Vec<Settled>,
    closed: Closed,
) -> Result<Solved, AllocError>
    requires table { IsTableOf problem.now table.now }
    requires settled { AreSettled problem.now table.now list.items }
{
    let lists = lists_of(alloc, handed, list)?;
    combine(alloc, problem, table, lists, closed)
}

/// What the list of a lone worker comes to, if its pool is at rest.
fn combined_over<L: Ledger, R: Wait>(
    rt: &R,
    alloc: Global,
    problem: &Problem,
    table: &Table,
    handed: Handed,
    blank: Blank,
) -> Result<Solved, Fail>
    requires table { IsTableOf problem.now table.now }
    requires name { blank.name ≡ L.name }
    requires parts { blank.parts ≡ L.parts }
    requires one_each { blank.parts ≡ 1 }
{
    match worked::<L, R>(rt, alloc, problem, table, blank)? {
        Some((list, closed)) => Ok(put_together(alloc, problem, table, handed, list, closed)?),
        None => Err("a pool at rest")?,
    }
}

/// The same in the book of two days.
fn combined<L: Ledger, R: Wait>(
    rt: &R,
    alloc: Global,
    handed: Handed,
    blank: Blank,
) -> Result<Solved, Fail>
    requires name { blank.name ≡ L.name }
    requires parts { blank.parts ≡ L.parts }
    requires one_each { blank.parts ≡ 1 }
{
    let problem = problem_of(alloc, TWO_DAYS)?;
    let table = table_of(alloc, &problem)?;
    combined_over::<L, R>(rt, alloc, &problem, &table, handed, blank)
}

#[test]
fn a_lone_worker_hands_in_what_the_pool_lists(rt: HostRuntime) -> Result<(), Fail> {
    assert!(rt; hands_in_what_is_listed::<Brand, HostRuntime>(&rt, rt.alloc(), Blank::new(1))?);
    Ok(())
}

#[test]
fn what_is_listed_is_combined(rt: HostRuntime) -> Result<(), Fail> {
    let solved = combined::<Brand, HostRuntime>(&rt, rt.alloc(), Handed::First, Blank::new(1))?;
    assert!(rt; is(&solved, BEST, 0));
    Ok(())
}

#[test]
fn a_list_for_another_worker_is_searched_again(rt: HostRuntime) -> Result<(), Fail> {
    let solved = combined::<Brand, HostRuntime>(&rt, rt.alloc(), Handed::Second, Blank::new(1))?;
    assert!(rt; is(&solved, BEST, 1));
    Ok(())
}

#[test]
fn without_a_list_all_is_searched_again(rt: HostRuntime) -> Result<(), Fail> {
    let solved = combined::<Brand, HostRuntime>(&rt, rt.alloc(), Handed::Nobody, Blank::new(1))?;
    assert!(rt; is(&solved, BEST, 1));
    Ok(())
}
