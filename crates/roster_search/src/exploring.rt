//! Open nodes, the last of which is visited first.

ghost use Rattle.std.specs.Prelude.{◌≡◌, ◌<◌, ◌≤◌, ◌++◌, ◌∷◌, [], All, IfOk, IfSome, MatchOption, None, length};
ghost use Rattle.roster_model.specs.Settled.{IsWithinCost};
ghost use Rattle.roster_search_regions.specs.Regions.{IsIn, IsRegion};
ghost use Rattle.roster_search.specs.Open.{limit_of, weight_of, ArePartsOf, IsExplored, IsInSome, IsOver};

use crate::stop::Stop;
use crate::visiting::{OpenNode, Visited, visit};
use roster_problem::Problem;
use roster_search_least::{Budget, roster_in};
use roster_search_regions::{DualPrices, Region};
use roster_search_relaxation::Relaxation;
use roster_values::Roster;
use std::alloc::{AllocError, Global};

/// A node takes as long as so many lines, besides its own.
const LINES_A_NODE: usize = 64;

/// What comes of open nodes.
#[derive(Drop)]
pub struct Explored {
    /// The cheapest roster that was found, if one was that costs little enough.
    pub best: Option<Roster>,
    /// What is left to search: each roster that costs less, and little enough, is in one of these nodes.
    pub left: Vec<OpenNode>,
}

/// The open nodes to begin with: the whole region, with these prices.
pub fn first_nodes(
    alloc: Global,
    whole: &Region,
    prices: &DualPrices,
) -> Result<Vec<OpenNode>, AllocError>
    ensures { IfOk result (λ nodes. nodes.items ≡ [] ++ whole.now ∷ []) }
{
    let mut nodes = Vec::new(alloc);
    nodes.push(OpenNode::new(whole.copy(alloc)?, prices.copy(alloc)?))?;
    Ok(nodes)
}

/// What a roster may cost that costs less than the best one so far, and at most so much; or none, if the
/// search is over: the best one costs no more than is enough, or nothing is left.
pub fn limit(budget: Budget, best: &Option<Roster>, left: &[OpenNode]) -> Option<i64>
    ensures limit { IfSome result (λ limit. limit ≡ limit_of budget.most best.now) }
    ensures left { IfSome result (λ _. 0 < length left.now) }
    ensures over { result ≡ None → IsOver budget.enough best.now left.now }
{
    if left.is_empty() {
        return None;
    }
    match best {
        Some(roster) if roster.cost <= budget.enough => None,
        Some(roster) => Some(roster.cost - 1),
        None => Some(budget.most),
    }
}

/// Explores the open nodes, the last one first, for a roster that costs at most so much: until one is found
/// that costs no more than is enough, nothing is left, or the stop ends it. Each roster that is found lowers
/// what others may cost, and so does one of the whole region that the stop shows. Any relaxation will do for
/// it; one of a region that has them all makes it short.
pub fn explore<S: Stop>(
    alloc: Global,
    problem: &Problem,
    whole: &Region,
    nodes: Vec<OpenNode>,
    budget: Budget,
    relaxation: &mut Relaxation,
    stop: &mut S,
) -> Result<Explored, AllocError>
    requires { ArePartsOf problem.now whole.now nodes.items }
    ensures explored { IfOk result (λ explored. IsExplored problem.now (IsIn problem.now whole.now)
        (IsInSome problem.now nodes.items) budget.most explored.best explored.left.items) }
    ensures goes_on { S.goes_on stop.old stop.new }
{
    let mut left = nodes;
    let mut best = None;
    while let Some(most) = limit(budget, &best, &left) {
        if !stop.node(lines_of_last(problem, &left), left.len() - 1) {
            break;
        }
        if let Some(roster) = next(alloc, problem, whole, &mut left, most, relaxation, stop)? {
            best = Some(roster);
        }
    }
    Ok(Explored { best, left })
}

/// How long a visit of the last open node takes, in lines to look at.
fn lines_of_last(problem: &Problem, nodes: &[OpenNode]) -> usize
    requires { All (IsRegion problem.now) nodes.now }
{
    match nodes.last() {
        Some(node) => node.lines(problem).saturating_add(LINES_A_NODE),
        None => 0,
    }
}

/// A roster of the whole region that costs at most so much: one that the stop shows, or else what is found in
/// the last of the open nodes. There is less left to search, or less may be paid.
fn next<S: Stop>(
    alloc: Global,
    problem: &Problem,
    whole: &Region,
    nodes: &mut Vec<OpenNode>,
    most: i64,
    relaxation: &mut Relaxation,
    stop: &mut S,
) -> Result<Option<Roster>, AllocError>
    requires nodes { ArePartsOf problem.now whole.now nodes.old.items }
    requires some { 0 < length nodes.old.items }
    ensures explored { IfOk result (λ found. IsExplored problem.now (IsIn problem.now whole.now)
        (IsInSome problem.now nodes.old.items) most found nodes.new.items) }
    ensures lighter { IfOk result (λ found. MatchOption found
        (weight_of nodes.new.items < weight_of nodes.old.items)
        (λ _. weight_of nodes.new.items ≤ weight_of nodes.old.items)) }
    ensures goes_on { S.goes_on stop.old stop.new }
{
    if let Some(shown) = shown_in(alloc, problem, whole, most, stop)? {
        return Ok(Some(shown));
    }
    match visit_last(alloc, problem, nodes, most, relaxation)? {
        Some(found) => {
            stop.found(&found);
            Ok(Some(found))
        }
        None => Ok(None),
    }
}

/// What the stop shows, if it is a roster of the whole region that costs at most so much.
fn shown_in<S: Stop>(
    alloc: Global,
    problem: &Problem,
    whole: &Region,
    most: i64,
    stop: &mut S,
) -> Result<Option<Roster>, AllocError>
    requires { IsRegion problem.now whole.now }
    ensures found { IfOk result (λ shown. IfSome shown
        (IsWithinCost problem.now (IsIn problem.now whole.now) most)) }
    ensures goes_on { S.goes_on stop.old stop.new }
{
    let Some(shown) = stop.shown() else {
        return Ok(None);
    };
    if shown.cost > most {
        return Ok(None);
    }
    let places = shown.places.as_slice().to_vec(alloc)?;
    let Some(roster) = roster_in(alloc, problem, whole, places)? else {
        return Ok(None);
    };
    if roster.cost > most {
        return Ok(None);
    }
    Ok(Some(roster))
}

/// Visits the last of the open nodes, and puts what is left of it in its place. It answers a roster that was
/// found there. There is less left to search, or less may be paid.
fn visit_last(
    alloc: Global,
    problem: &Problem,
    nodes: &mut Vec<OpenNode>,
    most: i64,
    relaxation: &mut Relaxation,
) -> Result<Option<Roster>, AllocError>
    requires nodes { All (IsRegion problem.now) nodes.old.items }
    requires some { 0 < length nodes.old.items }
    ensures explored { IfOk result (λ found. IsExplored problem.now (IsInSome problem.now nodes.old.items)
        (IsInSome problem.now nodes.old.items) most found nodes.new.items) }
    ensures lighter { IfOk result (λ found. MatchOption found
        (weight_of nodes.new.items < weight_of nodes.old.items)
        (λ _. weight_of nodes.new.items ≤ weight_of nodes.old.items)) }
{
    let Some(node) = nodes.pop() else {
        return Ok(None);
    };
    match visit(alloc, problem, node, most, relaxation)? {
        Visited::Nothing => Ok(None),
        Visited::Found(roster, left) => {
            nodes.push(left)?;
            Ok(Some(roster))
        }
        Visited::Parted(having, others) => {
            nodes.push(others)?;
            nodes.push(having)?;
            Ok(None)
        }
    }
}
