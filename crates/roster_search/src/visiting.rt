//! Open nodes of a search: parts of a region that are still to be searched.

ghost use Rattle.std.specs.Prelude.{◌≡◌, ◌<◌, IfOk};
ghost use Rattle.roster_model.specs.Settled.{IsFoundWithin};
ghost use Rattle.roster_search_regions.specs.Regions.{size_of, IsDecided, IsIn, IsNarrowed, IsRegion};
ghost use Rattle.roster_search.specs.Branches.{IsBranch, IsOnFirst};
ghost use Rattle.roster_search.specs.Open.{IsVisited};

use crate::parting::{first_side, keep_other_side, next_branch};
use crate::refining::{Refined, refine};
use crate::room::room;
use roster_cost::roster_cost;
use roster_problem::Problem;
use roster_search_fixing::cost_at_most;
use roster_search_regions::{DualPrices, Region};
use roster_search_relaxation::{Relaxation, Side};
use roster_values::{Places, Roster};
use std::alloc::{AllocError, Global};
use std::marker::Model;

/// A region that is still to be searched. Any prices will do for it; good ones make it short. Contracts see
/// only the region.
#[derive(Drop)]
pub struct OpenNode {
    region: Region,
    prices: DualPrices,
    // The side of a branch that it is, if it wasn't visited yet.
    side: Option<Side>,
}

impl Model for OpenNode {
    ghost use Rattle.roster_search_regions.specs.Regions as regions;

    ghost Value = { regions.Region };

    ghost view = { λ n. n.region };
}

impl OpenNode {
    /// The region, with these prices to begin with.
    pub fn new(region: Region, prices: DualPrices) -> OpenNode
        ensures { result ≡ region }
    {
        OpenNode {
            region,
            prices,
            side: None,
        }
    }

    /// A side of a branch.
    fn of_side(region: Region, prices: DualPrices, side: Side) -> OpenNode
        ensures { result ≡ region }
    {
        OpenNode {
            region,
            prices,
            side: Some(side),
        }
    }

    /// How many lines are left in the region.
    pub(crate) fn lines(&self, problem: &Problem) -> usize
        requires { IsRegion problem.now self.now }
    {
        let mut lines: usize = 0;
        for k in 0..problem.persons().len() {
            lines = lines.wrapping_add(self.region.width(k));
        }
        lines
    }
}

/// What comes of an open node.
#[derive(Drop)]
pub(crate) enum Visited {
    /// No roster costs so little.
    Nothing,
    /// A roster that costs little enough, and the node again: what costs less is in it.
    Found(Roster, OpenNode),
    /// The rosters on one side of a branch, and the others.
    Parted(OpenNode, OpenNode),
}

/// Visits a node: makes its region as small as prices make it, and then parts it, if all isn't decided.
pub(crate) fn visit(
    alloc: Global,
    problem: &Problem,
    node: OpenNode,
    most: i64,
    relaxation: &mut Relaxation,
) -> Result<Visited, AllocError>
    requires { IsRegion problem.now node }
    ensures { IfOk result (IsVisited problem.now node most) }
{
    let most = cost_at_most(problem, &node.region, most);
    visit_at(alloc, problem, node, most, relaxation)
}

/// `visit`, for a cost that a roster may have.
fn visit_at(
    alloc: Global,
    problem: &Problem,
    node: OpenNode,
    most: i64,
    relaxation: &mut Relaxation,
) -> Result<Visited, AllocError>
    requires { IsRegion problem.now node }
    ensures { IfOk result (IsVisited problem.now node most) }
{
    let OpenNode {
        mut region,
        mut prices,
        side,
    } = node;
    let refined = refine(alloc, problem, &mut region, &mut prices, relaxation, most)?;
    learn(relaxation, side, &refined, room(&region, most));
    match refined {
        Refined::Nothing => Ok(Visited::Nothing),
        Refined::Found(roster) => {
            let node = OpenNode::new(region, prices);
            Ok(Visited::Found(roster, node))
        }
        Refined::Part => Ok(part(alloc, problem, region, prices, relaxation, most)?),
    }
}

/// Takes note of what a branch brought on this side, if it is one: as much as may be paid if nothing is left of it.
fn learn(relaxation: &mut Relaxation, side: Option<Side>, refined: &Refined, room: i64) {
    let Some(side) = side else {
        return;
    };
    let bound = match refined {
        Refined::Nothing => room,
        Refined::Found(_) | Refined::Part => relaxation.bound(),
    };
    relaxation.learn(side, bound);
}

/// Parts a region, or answers its only roster if all is decided.
fn part(
    alloc: Global,
    problem: &Problem,
    region: Region,
    prices: DualPrices,
    relaxation: &Relaxation,
    most: i64,
) -> Result<Visited, AllocError>
    requires { IsRegion problem.now region }
    ensures { IfOk result (IsVisited problem.now region most) }
{
    let mut region = region;
    let Some(branch) = next_branch(alloc, problem, &region, &prices, relaxation)? else {
        let node = OpenNode::new(region, prices);
        return Ok(match only(alloc, problem, &node.region, most)? {
            Some(roster) => Visited::Found(roster, node),
            None => Visited::Nothing,
        });
    };
    let side = Side {
        branch,
        is_first: true,
        bound: relaxation.bound(),
    };
    let first = first_node(alloc, problem, &region, &prices, side)?;
    keep_other_side(alloc, problem, &mut region, branch)?;
    let other = Side {
        is_first: false,
        ..side
    };
    Ok(Visited::Parted(first, OpenNode::of_side(region, prices, other)))
}

/// The rosters of the region on the first side of a branch.
fn first_node(
    alloc: Global,
    problem: &Problem,
    region: &Region,
    prices: &DualPrices,
    side: Side,
) -> Result<OpenNode, AllocError>
    requires region { IsRegion problem.now region.now }
    requires branch { IsBranch problem.now region.now side.branch }
    ensures narrowed { IfOk result (IsNarrowed problem.now (IsOnFirst problem.now side.branch) region.now) }
    ensures fewer { IfOk result (λ node. size_of node < size_of region.now) }
{
    let first = first_side(alloc, problem, region, side.branch)?;
    Ok(OpenNode::of_side(first, prices.copy(alloc)?, side))
}

/// The only roster of a region in which all is decided, if there is one and it costs at most so much.
fn only(
    alloc: Global,
    problem: &Problem,
    region: &Region,
    most: i64,
) -> Result<Option<Roster>, AllocError>
    requires region { IsRegion problem.now region.now }
    requires decided { IsDecided region.now }
    ensures { IfOk result (IsFoundWithin problem.now (IsIn problem.now region.now) most) }
{
    let Some(places) = roster_search_fixing::only(alloc, problem, region)? else {
        return Ok(None);
    };
    let cost = roster_cost(problem, &places);
    if cost > most {
        return Ok(None);
    }
    let places = Places::new(places);
    Ok(Some(Roster { places, cost }))
}
