//! Prices, nodes and their bounds.

ghost use Rattle.std.specs.Prelude.{◌≡◌};
ghost use Rattle.roster_lines_table.specs.Person.{IsTableOf};
ghost use Rattle.roster_bounds.specs.Chosen.{priced_table};

use crate::books::{ALL_ALIKE, ONE_OF_TWO};
use roster_bounds::{Node, Prices, Tables, choose_tables};
use roster_cost::Key;
use roster_lines::table_of;
use roster_lines_table::Table;
use roster_problem::Problem;
use roster_test_books::problem_of;
use std::alloc::Global;
use std::test::Fail;

#[test]
fn prices_within_their_limit(rt: HostRuntime) -> Result<(), Fail> {
    let most = [1_000_000_000, 0].to_vec(rt.alloc())?;
    let prices = Prices::new(most).ok().ok_or("refused")?;
    assert!(rt; prices.len() == 2 && !prices.is_empty());
    assert!(rt; prices.at(0) == 1_000_000_000);
    Ok(())
}

/// Whether these prices are refused, and handed back.
fn are_refused(alloc: Global, prices: [i64; 2]) -> Result<bool, Fail> {
    let back = Prices::new(prices.to_vec(alloc)?).err().ok_or("accepted")?;
    Ok(back.as_slice() == prices.as_slice())
}

#[test]
fn prices_beyond_their_limit(rt: HostRuntime) -> Result<(), Fail> {
    assert!(rt; are_refused(rt.alloc(), [1_000_000_001, 0])?);
    assert!(rt; are_refused(rt.alloc(), [0, -1_000_000_001])?);
    Ok(())
}

/// Tables in which both pairings have this price.
fn priced<'a>(
    alloc: Global,
    problem: &'a Problem,
    table: &'a Table,
    price: i64,
) -> Result<Tables<'a>, Fail>
    requires { IsTableOf problem.now table.now }
{
    let prices = Prices::new([price, price].to_vec(alloc)?)
        .ok()
        .ok_or("refused")?;
    if prices.len() != problem.pairings().len() {
        return Err("another book")?;
    }
    let tables = Tables::build(alloc, problem, table, prices)
        .ok()
        .ok_or("memory")?;
    Ok(tables)
}

/// The bound at the root if both pairings have this price.
fn bound_over(alloc: Global, problem: &Problem, price: i64) -> Result<i64, Fail> {
    let table = table_of(alloc, problem)?;
    let tables = priced(alloc, problem, &table, price)?;
    Ok(Node::root(alloc, &tables).bound())
}

/// The same in the book of one person.
fn bound_at(alloc: Global, price: i64) -> Result<i64, Fail> {
    let problem = problem_of(alloc, ONE_OF_TWO)?;
    bound_over(alloc, &problem, price)
}

#[test]
fn bounds_at_prices_alike(rt: HostRuntime) -> Result<(), Fail> {
    assert!(rt; bound_at(rt.alloc(), 0)? == 0);
    assert!(rt; bound_at(rt.alloc(), 50)? == 50);
    assert!(rt; bound_at(rt.alloc(), 100)? == 100);
    assert!(rt; bound_at(rt.alloc(), 200)? == 0);
    Ok(())
}

/// What tables with the prices of the greatest bound show of one person and two pairings.
#[derive(Clone, Copy)]
struct NodeSeen {
    prices: (i64, i64),
    // Of the node of the person's line 1 the bound, and the least places of the pairings.
    bound: i64,
    places: (u16, u16),
    // Whether that node may be skipped for the roster that was named.
    skipped: bool,
}

/// What these tables show if a roster with these places and this cost is named.
fn node_under(
    alloc: Global,
    problem: &Problem,
    table: &Table,
    tables: &Tables<'_>,
    places: [u16; 2],
    cost: i64,
) -> Result<NodeSeen, Fail>
    requires table { IsTableOf problem.now table.now }
    requires tables { tables.now ≡ priced_table problem.now table.now tables.now.prices }
{
    let prices = tables.prices();
    if problem.persons().len() != 1 || problem.pairings().len() != 2 || table.width(0) != 3 {
        return Err("another book")?;
    }
    if prices.len() != 2 {
        return Err("another book")?;
    }
    let root = Node::root(alloc, tables);
    let node = root.then(1)?.ok_or("it meets nothing")?;
    Ok(NodeSeen {
        prices: (prices.at(0), prices.at(1)),
        bound: node.bound(),
        places: (node.least_place(0), node.least_place(1)),
        skipped: node.may_skip(&Key {
            cost,
            places: &places,
        }),
    })
}

/// The same in this problem.
fn node_over(
    alloc: Global,
    problem: &Problem,
    places: [u16; 2],
    cost: i64,
) -> Result<NodeSeen, Fail> {
    let table = table_of(alloc, problem)?;
    let tables = choose_tables(alloc, problem, &table)?;
    node_under(alloc, problem, &table, &tables, places, cost)
}

/// The same in the book of one person.
fn node_for(alloc: Global, places: [u16; 2], cost: i64) -> Result<NodeSeen, Fail> {
    let problem = problem_of(alloc, ONE_OF_TWO)?;
    node_over(alloc, &problem, places, cost)
}

#[test]
fn prices_of_the_greatest_bound(rt: HostRuntime) -> Result<(), Fail> {
    assert!(rt; node_for(rt.alloc(), [0, 1], 100)?.prices == (100, 100));
    Ok(())
}

#[test]
fn a_node_of_one_line(rt: HostRuntime) -> Result<(), Fail> {
    let seen = node_for(rt.alloc(), [0, 1], 100)?;
    assert!(rt; seen.bound == 100 && seen.places == (0, 1));
    Ok(())
}

#[test]
fn nodes_that_may_be_skipped(rt: HostRuntime) -> Result<(), Fail> {
    assert!(rt; node_for(rt.alloc(), [0, 1], 99)?.skipped);
    assert!(rt; node_for(rt.alloc(), [0, 1], 100)?.skipped);
    assert!(rt; !node_for(rt.alloc(), [0, 1], 101)?.skipped);
    assert!(rt; !node_for(rt.alloc(), [1, 0], 100)?.skipped);
    Ok(())
}

/// Whether this line of the second person meets line 1 of the first.
fn meets_under(
    alloc: Global,
    problem: &Problem,
    table: &Table,
    tables: &Tables<'_>,
    line: usize,
) -> Result<bool, Fail>
    requires table { IsTableOf problem.now table.now }
    requires tables { tables.now ≡ priced_table problem.now table.now tables.now.prices }
{
    if problem.persons().len() != 2 || table.width(0) != 2 || line >= table.width(1) {
        return Err("another book")?;
    }
    let root = Node::root(alloc, tables);
    let node = root.then(1)?.ok_or("it meets nothing")?;
    Ok(node.then(line)?.is_none())
}

/// The same in this problem.
fn meets_over(alloc: Global, problem: &Problem, line: usize) -> Result<bool, Fail> {
    let table = table_of(alloc, problem)?;
    let tables = choose_tables(alloc, problem, &table)?;
    meets_under(alloc, problem, &table, &tables, line)
}

/// The same in the book of two persons.
fn meets(alloc: Global, line: usize) -> Result<bool, Fail> {
    let problem = problem_of(alloc, ALL_ALIKE)?;
    meets_over(alloc, &problem, line)
}

#[test]
fn no_node_of_lines_that_meet(rt: HostRuntime) -> Result<(), Fail> {
    assert!(rt; meets(rt.alloc(), 1)?);
    assert!(rt; !meets(rt.alloc(), 0)?);
    Ok(())
}
