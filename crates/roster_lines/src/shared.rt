//! The lines of all persons, by several threads.

ghost use Rattle.std.specs.Prelude.{◌<◌, All, IfErr, IfOk};
ghost use Rattle.roster_lines_table.specs.Person.{IsTableOf};
ghost use Rattle.roster_lines.specs.Made.{AreMadeFor, AreMadeOf};
ghost use Rattle.roster_lines.specs.TableFaults.{IsTableFaultOf};

use crate::extend::{LinesFault, lines_of};
use crate::table::{TableFault, add};
use roster_lines_table::{Lines, Table};
use roster_problem::Problem;
use std::alloc::{AllocError, Global};
use std::sync::atomic::{AtomicUsize, Ordering};
use std::thread::{Threads, map_indices};

/// What was made of the lines of the person at the place.
type Made = (usize, Result<Lines, LinesFault>);

/// The lines of all persons, made by so many threads at most: the table of `table_of`, for every number
/// of them. Each thread makes the lines of the next person until nobody is left. The faults are looked at in
/// book order once all have ended, so the first person whose lines weren't made decides between `TooMany`
/// and `Memory`, whatever thread made whose lines.
pub fn all_lines<R: Threads + Sync>(
    rt: &R,
    alloc: Global,
    problem: &Problem,
    workers: usize,
) -> Result<Table, TableFault>
    requires { 0 < workers }
    ensures table { IfOk result (IsTableOf problem.now) }
    ensures fault { IfErr result (IsTableFaultOf problem.now) }
{
    let next = AtomicUsize::new(0);
    let turns = |_: usize| -> Result<Vec<Made>, AllocError>
        ensures { IfOk result (λ all. AreMadeFor problem.entry.now all.items) }
    { made_in_turn(alloc, problem, &next) };
    let threads = workers.min(problem.persons().len());
    let lists = map_indices(rt, alloc, threads, &turns)?;
    let slots = placed(alloc, problem, lists)?;
    gathered(alloc, problem, slots)
}

/// What is made of the lines of those persons whom nobody else has taken, one after another.
fn made_in_turn(
    alloc: Global,
    problem: &Problem,
    next: &AtomicUsize,
) -> Result<Vec<Made>, AllocError>
    ensures { IfOk result (λ all. AreMadeFor problem.now all.items) }
{
    let persons = problem.persons().len();
    let mut all = Vec::with_capacity(alloc, persons)?;
    for _ in 0..persons {
        let k = next.fetch_add(1, Ordering::SeqCst);
        if k >= persons {
            break;
        }
        all.push((k, lines_of(alloc, problem, k)))?;
    }
    Ok(all)
}

/// A slot for each person, with what was made of the person's lines.
fn placed(
    alloc: Global,
    problem: &Problem,
    lists: Vec<Result<Vec<Made>, AllocError>>,
) -> Result<Vec<Result<Lines, LinesFault>>, AllocError>
    requires { All (λ list. IfOk list (λ all. AreMadeFor problem.now all.items)) lists.items }
    ensures { IfOk result (λ slots. AreMadeOf problem.now slots.items) }
{
    let mut lists = lists;
    let mut slots = empty_slots(alloc, problem)?;
    while let Some(list) = lists.pop() {
        put(problem, list?, &mut slots);
    }
    Ok(slots)
}

/// A slot for each person, with no lines.
fn empty_slots(
    alloc: Global,
    problem: &Problem,
) -> Result<Vec<Result<Lines, LinesFault>>, AllocError>
    ensures { IfOk result (λ slots. AreMadeOf problem.now slots.items) }
{
    let mut slots = Vec::new(alloc);
    for _ in 0..problem.persons().len() {
        slots.push(Err(LinesFault::Memory))?;
    }
    Ok(slots)
}

/// Puts what was made of the lines of persons into their slots.
fn put(problem: &Problem, list: Vec<Made>, slots: &mut Vec<Result<Lines, LinesFault>>)
    requires list { AreMadeFor problem.now list.items }
    requires slots { AreMadeOf problem.now slots.old.items }
    ensures { AreMadeOf problem.now slots.new.items }
{
    let mut list = list;
    while let Some((k, made)) = list.pop() {
        slots[k] = made;
    }
}

/// The table of the lines in the slots, or the fault of the first slot that has one.
fn gathered(
    alloc: Global,
    problem: &Problem,
    slots: Vec<Result<Lines, LinesFault>>,
) -> Result<Table, TableFault>
    requires { AreMadeOf problem.now slots.items }
    ensures table { IfOk result (IsTableOf problem.now) }
    ensures fault { IfErr result (IsTableFaultOf problem.now) }
{
    let mut table = Table::empty(alloc);
    for made in slots {
        add(&mut table, alloc, problem, made)?;
    }
    Ok(table)
}
