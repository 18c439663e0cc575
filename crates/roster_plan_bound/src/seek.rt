//! The least that a path of a person brings, by a search over legal sets in order of time.
//!
//! A search goes on from a path to each pairing that may stand behind it, unless what the tables say of it is
//! no less than what is known already.

ghost use Rattle.std.specs.Prelude.{◌≡◌, ◌<◌, ◌≤ℤ◌, ℕ, ℤ, true, false, length, FitsSigned, IfOk, Some};
ghost use Rattle.std.specs.Int.{w64};
ghost use Rattle.roster_model.specs.Rules.{is_among, IsLegal};
ghost use Rattle.roster_plan_bound.specs.Prospects.{IsLeastPath};
ghost use Rattle.roster_plan_bound.specs.Seeks.{IsClassWith, IsEndWith, IsLeastBelow, IsLeastFrom, IsNeedWith};
ghost use Rattle.roster_plan_bound.specs.Seeks.{IsNextSpot, IsOnward, IsSpot};

use crate::columns::Columns;
use crate::prospect::{Due, Prospect};
use crate::timeline::Timeline;
use crate::tuning::{JUDGED_AT, MOST_LISTED};
use roster_legal::{Judge, part_of_legal_is_legal};
use roster_model::limits::MOST_PAIRINGS;
use roster_values::Set;
use std::alloc::AllocError;

/// What is known of a path at its end.
#[derive(Clone, Copy)]
pub(crate) struct End {
    /// Since the instant of this class no recurrent rest lies before it.
    pub(crate) class: usize,
    /// What the path's pairings bring.
    pub(crate) value: i64,
    /// Their minutes of flight.
    pub(crate) flight: u64,
    /// What they take of the sum that is watched, in minutes.
    pub(crate) load: u64,
    /// How many pairs of days off still have to come from the last pairing on, if there is one.
    pub(crate) need: usize,
}

/// Where a search has come to: a path.
#[derive(Clone, Copy)]
pub(crate) struct Spot {
    /// The path's pairings.
    pub(crate) set: Set,
    /// The last one of them, if there is one.
    last: Option<usize>,
    /// Its end.
    pub(crate) end: End,
    /// The pairings that may stand behind.
    pub(crate) may: Set,
    /// How many of them, at most.
    pub(crate) room: usize,
}

/// What a search may still do, and what it found.
#[derive(Drop)]
pub(crate) struct Listing {
    /// From how many paths the search may still go on.
    pub(crate) left: u32,
    /// The paths that brought no more than the least that was known, as many as there is room for.
    pub(crate) found: Columns,
}

/// Lowers `least` to the least that a path brings, in parts of a cost unit: the empty one brings 0. Or says
/// false if there is too much to look at. Lists paths that lower it. Fails if memory for the list, or for
/// a duty list, runs out.
pub(crate) fn seek_all(
    prospect: &Prospect<'_>,
    judge: &mut Judge<'_>,
    least: &mut i64,
    listing: &mut Listing,
) -> Result<bool, AllocError>
    requires { judge.old ≡ prospect.now.problem }
    ensures judge { judge.new ≡ prospect.now.problem }
    ensures lower { least.new ≤ℤ least.old }
    ensures word { FitsSigned w64 least.old → FitsSigned w64 least.new }
    ensures least { IfOk result (λ all. all ≡ true → IsLeastPath prospect.now.problem prospect.now.person
        prospect.now.timeline prospect.now.units least.new) }
{
    let root = start_of(prospect);
    seek(prospect, judge, &root, least, listing)
}

/// The spot with which each path begins: no pairing so far.
pub(crate) fn start_of(prospect: &Prospect<'_>) -> Spot
    ensures spot { IsSpot prospect.now result }
    ensures all { (least : ℤ) → IsLeastFrom prospect.now result least → IsLeastPath prospect.now.problem
        prospect.now.person prospect.now.timeline prospect.now.units least }
{
    part_of_legal_is_legal();
    prospect.problem().is_sound();
    Spot {
        set: Set::empty(),
        last: None,
        end: End {
            class: 0,
            value: 0,
            flight: 0,
            load: 0,
            need: 0,
        },
        may: prospect.timeline().alone,
        room: MOST_PAIRINGS,
    }
}

/// Lowers `least` to the least that a path brings which begins with the spot, or says false, as `seek_all`.
fn seek(
    prospect: &Prospect<'_>,
    judge: &mut Judge<'_>,
    spot: &Spot,
    least: &mut i64,
    listing: &mut Listing,
) -> Result<bool, AllocError>
    requires judge { judge.old ≡ prospect.now.problem }
    requires spot { IsSpot prospect.now spot.now }
    ensures judge { judge.new ≡ prospect.now.problem }
    ensures lower { least.new ≤ℤ least.old }
    ensures word { FitsSigned w64 least.old → FitsSigned w64 least.new }
    ensures least { IfOk result (λ all. all ≡ true → IsLeastFrom prospect.now spot.now least.new) }
{
    lower(prospect, spot, least);
    keep(prospect, spot, *least, listing)?;
    if spot.room == 0 {
        return Ok(false);
    }
    if listing.left == 0 {
        return Ok(false);
    }
    listing.left -= 1;
    let mut from = 0;
    while let Some(q) = spot.may.first_from(from) {
        if let Some(next) = onward(prospect, judge, spot, q, *least)? {
            if !seek(prospect, judge, &next, least, listing)? {
                return Ok(false);
            }
        }
        from = q + 1;
    }
    Ok(true)
}

/// Lowers `least` to what the path itself brings.
fn lower(prospect: &Prospect<'_>, spot: &Spot, least: &mut i64)
    requires { IsSpot prospect.now spot.now }
    ensures lower { least.new ≤ℤ least.old }
    ensures word { FitsSigned w64 least.old → FitsSigned w64 least.new }
    ensures least { IsLeastBelow prospect.now spot.now 0 least.new }
{
    prospect.problem().is_sound();
    let gain = spot.end.value + prospect.term(spot.end.flight);
    if gain < *least {
        *least = gain;
    }
}

/// Lists the path if it brings no more than the least that is known, and there is room.
fn keep(
    prospect: &Prospect<'_>,
    spot: &Spot,
    least: i64,
    listing: &mut Listing,
) -> Result<(), AllocError>
    requires { IsSpot prospect.now spot.now }
{
    let gain = spot.end.value.wrapping_add(prospect.term(spot.end.flight));
    if gain > least || listing.found.len() >= MOST_LISTED {
        return Ok(());
    }
    listing.found.push_gain(&spot.set, gain, prospect.prices())
}

/// The spot with pairing `q` behind, if a path that begins so may be legal, and bring less than `least`.
fn onward(
    prospect: &Prospect<'_>,
    judge: &mut Judge<'_>,
    spot: &Spot,
    q: usize,
    least: i64,
) -> Result<Option<Spot>, AllocError>
    requires judge { judge.old ≡ prospect.now.problem }
    requires spot { IsSpot prospect.now spot.now }
    requires room { 0 < spot.now.room }
    requires may { is_among spot.now.may q ≡ true }
    requires place { q < MOST_PAIRINGS }
    ensures judge { judge.new ≡ prospect.now.problem }
    ensures next { IfOk result (IsOnward prospect.now spot.now q least) }
{
    part_of_legal_is_legal();
    prospect.problem().is_sound();
    let end = end_with(prospect, spot, q);
    if end.class < prospect.timeline().lows[q] {
        return Ok(None);
    }
    let due = Due {
        class: end.class,
        need: end.need,
    };
    if prospect.ahead(end.value, end.flight, end.load, q, due, least) >= least {
        return Ok(None);
    }
    let next = spot_with(prospect, spot, q, end);
    if !may_be_legal(prospect, judge, &next, least)? {
        return Ok(None);
    }
    Ok(Some(next))
}

/// Whether the path may be legal. To judge one takes long, so only those are judged that bring less than
/// `least`, and of the others those of so many pairings.
fn may_be_legal(
    prospect: &Prospect<'_>,
    judge: &mut Judge<'_>,
    spot: &Spot,
    least: i64,
) -> Result<bool, AllocError>
    requires judge { judge.old ≡ prospect.now.problem }
    requires spot { IsSpot prospect.now spot.now }
    ensures judge { judge.new ≡ prospect.now.problem }
    ensures no { IfOk result (λ may. may ≡ false
        → ¬ IsLegal prospect.now.problem prospect.now.person spot.now.set) }
{
    let gain = spot.end.value.wrapping_add(prospect.term(spot.end.flight));
    if gain >= least && spot.room % JUDGED_AT != 0 {
        return Ok(true);
    }
    is_legal(prospect, judge, spot)
}

/// Whether the path is legal.
pub(crate) fn is_legal(
    prospect: &Prospect<'_>,
    judge: &mut Judge<'_>,
    spot: &Spot,
) -> Result<bool, AllocError>
    requires judge { judge.old ≡ prospect.now.problem }
    requires spot { IsSpot prospect.now spot.now }
    ensures judge { judge.new ≡ prospect.now.problem }
    ensures no { IfOk result (λ is_legal. is_legal ≡ false
        → ¬ IsLegal prospect.now.problem prospect.now.person spot.now.set) }
{
    judge.is_legal(prospect.person(), &spot.set)
}

/// The end of the path with pairing `q` behind.
pub(crate) fn end_with(prospect: &Prospect<'_>, spot: &Spot, q: usize) -> End
    requires spot { IsSpot prospect.now spot.now }
    requires may { is_among spot.now.may q ≡ true }
    ensures { IsEndWith prospect.now spot.now q result }
{
    let timeline = prospect.timeline();
    End {
        class: class_with(timeline, spot, q),
        value: spot.end.value + prospect.units()[q],
        flight: spot.end.flight + timeline.flights[q],
        load: spot.end.load + timeline.loads[q],
        need: need_with(timeline, spot, q),
    }
}

/// The spot with pairing `q` behind, at which its path ends.
pub(crate) fn spot_with(prospect: &Prospect<'_>, spot: &Spot, q: usize, end: End) -> Spot
    requires spot { IsSpot prospect.now spot.now }
    requires room { 0 < spot.now.room }
    requires may { is_among spot.now.may q ≡ true }
    requires place { q < MOST_PAIRINGS }
    requires end { IsEndWith prospect.now spot.now q end }
    ensures { IsNextSpot prospect.now spot.now q result }
{
    let timeline = prospect.timeline();
    let mut set = spot.set;
    set.put(q);
    Spot {
        set,
        last: Some(q),
        end,
        may: spot.may.and(&timeline.later[q]),
        room: spot.room - 1,
    }
}

/// The class of pairing `q` behind the spot.
fn class_with(timeline: &Timeline, spot: &Spot, q: usize) -> usize
    requires last { (p : ℕ) → spot.now.last ≡ Some p → p < length timeline.now.unrested.items }
    requires place { q < length timeline.now.classes.items }
    ensures { IsClassWith timeline.now spot.now q result }
{
    if let Some(last) = spot.last {
        if timeline.unrested[last].has(q) {
            return spot.end.class;
        }
    }
    timeline.classes[q]
}

/// How many pairs of days off still have to come from pairing `q` behind the spot on.
fn need_with(timeline: &Timeline, spot: &Spot, q: usize) -> usize
    requires last { (p : ℕ) → spot.now.last ≡ Some p → p < length timeline.now.offs.items }
    requires place { q < length timeline.now.offs.items }
    ensures { IsNeedWith timeline.now spot.now q result }
{
    match spot.last {
        Some(last) => timeline.need_behind(last, q, spot.end.need),
        None => timeline.need_first(q),
    }
}
