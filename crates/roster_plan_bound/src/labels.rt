//! Legal sets of a person that bring little, found by labels in order of time. Nothing rests on them.
//!
//! A label is a set of which each two pairings are legal together, with what is known at its end. Of the
//! labels that end with a pairing only those stay that promise least, and each of them has another flight, a
//! later class or more days off: of sets that differ little, one tells prices enough. Only the cheapest ones
//! are judged in the end, or each of them if that came too late at the look before.

ghost use Rattle.std.specs.Prelude.{◌≡◌, ◌<◌, All, IfOk, IfSome, true};
ghost use Rattle.roster_model.specs.Rules.{is_among};
ghost use Rattle.roster_plan_bound.specs.Seeks.{IsEndWith, IsSpot};

use crate::columns::Columns;
use crate::parts::MOST_PLAN_PRICE;
use crate::prospect::{Due, Prospect};
use crate::seek::{End, Spot, end_with, is_legal, spot_with, start_of};
use crate::tuning::{FEWEST_LABELS, LISTED_A_COLUMN, MANY_BROKEN, MOST_LABELS, MOST_LABELS_AT_ONE};
use roster_legal::Judge;
use roster_model::limits::MOST_PAIRINGS;
use std::alloc::{AllocError, Global};
use std::collections::BinaryHeap;

/// What labels know of a person at some prices.
#[derive(Clone, Copy)]
pub(crate) struct Labelled {
    /// What the cheapest set brings that is known, in parts of a cost unit.
    pub(crate) least: i64,
    /// How far above it a set may be to be listed.
    pub(crate) reach: i64,
    /// Whether each label is judged: cheap ones often broke a rule that labels don't know of.
    pub(crate) is_strict: bool,
    /// How many labels bring so little that they may be listed.
    pub(crate) many: usize,
    /// Without tables: what a minute of flight is worth, by which labels are told apart.
    pub(crate) worth: Option<i64>,
    /// How many sets are wanted, at most.
    pub(crate) most: usize,
}

impl Labelled {
    /// What a set may bring at most to be listed.
    pub(crate) fn limit(&self) -> i64 {
        self.least.saturating_add(self.reach)
    }

    /// What a label may promise at most to be kept: anything, if there are no tables.
    fn promise_limit(&self) -> i64 {
        match self.worth {
            Some(_) => i64::MAX,
            None => self.limit(),
        }
    }
}

/// A label, by how much less than nothing it promises to bring.
#[derive(Clone, Copy, PartialEq, Eq, PartialOrd, Ord)]
struct Promise {
    saved: i64,
    label: usize,
}

/// Makes labels, pairing by pairing in order of time. The sets of those that bring least, as far as they are
/// legal.
pub(crate) fn label_all(
    alloc: Global,
    prospect: &Prospect<'_>,
    judge: &mut Judge<'_>,
    labelled: &mut Labelled,
) -> Result<Columns, AllocError>
    requires { judge.old ≡ prospect.now.problem }
    ensures { judge.new ≡ prospect.now.problem }
{
    let order = &prospect.timeline().order;
    let most = most_at_one(order.len());
    let mut labels = Vec::new(alloc);
    labels.push(start_of(prospect))?;
    for rank in 0..order.len() {
        let q = order[rank];
        if is_barred(prospect, q) {
            continue;
        }
        let near = promises(alloc, prospect, &labels, q, labelled)?;
        add_labels(prospect, judge, near, q, most, &mut labels, labelled)?;
    }
    cheapest(alloc, prospect, judge, &labels, labelled)
}

/// Whether the price of pairing `q` is such that nobody is to have it.
pub(crate) fn is_barred(prospect: &Prospect<'_>, q: usize) -> bool {
    match prospect.prices().get(q) {
        Some(price) => *price <= -(MOST_PLAN_PRICE as i64),
        None => true,
    }
}

/// How many labels may end with one of so many pairings.
fn most_at_one(pairings: usize) -> usize {
    (MOST_LABELS / pairings.max(1)).clamp(FEWEST_LABELS, MOST_LABELS_AT_ONE)
}

/// The labels that may go on with pairing `q` and promise little.
fn promises(
    alloc: Global,
    prospect: &Prospect<'_>,
    labels: &[Spot],
    q: usize,
    labelled: &Labelled,
) -> Result<BinaryHeap<Promise>, AllocError>
    requires { All (IsSpot prospect.now) labels.now }
{
    let limit = labelled.promise_limit();
    let mut near = Vec::new(alloc);
    for label in 0..labels.len() {
        if let Some((_, least)) = promised(prospect, &labels[label], q, labelled.worth, limit) {
            if least <= limit {
                near.push(Promise {
                    saved: least.wrapping_neg(),
                    label,
                })?;
            }
        }
    }
    Ok(BinaryHeap::from(near))
}

/// The end of a label with pairing `q` behind, and what it promises at least, or, with a worth of a minute of
/// flight, what it brings so far; none if that isn't legal. No more tables are asked once one says more than
/// the limit.
fn promised(
    prospect: &Prospect<'_>,
    spot: &Spot,
    q: usize,
    worth: Option<i64>,
    limit: i64,
) -> Option<(End, i64)>
    requires { IsSpot prospect.now spot.now }
    ensures room { IfSome result (λ found. 0 < spot.now.room) }
    ensures may { IfSome result (λ found. is_among spot.now.may q ≡ true) }
    ensures place { IfSome result (λ found. q < MOST_PAIRINGS) }
    ensures end { IfSome result (λ found. IsEndWith prospect.now spot.now q found.0) }
{
    if spot.room == 0 || q >= MOST_PAIRINGS || !spot.may.has(q) {
        return None;
    }
    let end = end_with(prospect, spot, q);
    match prospect.timeline().lows.get(q) {
        Some(low) if end.class >= *low && prospect.spares(end.flight, end.load) => {
            let least = match worth {
                Some(worth) => end
                    .value
                    .wrapping_add(worth.wrapping_mul(end.flight as i64)),
                None => {
                    let due = Due {
                        class: end.class,
                        need: end.need,
                    };
                    let enough = limit.saturating_add(1);
                    prospect.ahead(end.value, end.flight, end.load, q, due, enough)
                }
            };
            Some((end, least))
        }
        _ => None,
    }
}

/// Adds the labels that end with pairing `q` and promise least, no more than so many.
fn add_labels(
    prospect: &Prospect<'_>,
    judge: &mut Judge<'_>,
    near: BinaryHeap<Promise>,
    q: usize,
    most: usize,
    labels: &mut Vec<Spot>,
    labelled: &mut Labelled,
) -> Result<(), AllocError>
    requires judge { judge.old ≡ prospect.now.problem }
    requires labels { All (IsSpot prospect.now) labels.old.items }
    ensures judge { judge.new ≡ prospect.now.problem }
    ensures labels { All (IsSpot prospect.now) labels.new.items }
{
    let first = labels.len();
    let mut near = near;
    for _ in 0..near.len() {
        let Some(promise) = near.pop() else {
            break;
        };
        if labels.len().wrapping_sub(first) >= most {
            break;
        }
        if let Some(next) = next_label(
            prospect,
            judge,
            labels,
            first,
            promise.label,
            q,
            labelled,
        )? {
            labelled.least = labelled.least.min(gain_at(prospect, &next));
            labels.push(next)?;
        }
    }
    Ok(())
}

/// The label that goes on with pairing `q`; none if that isn't legal, or none of the labels from the first
/// one on leaves it a chance.
fn next_label(
    prospect: &Prospect<'_>,
    judge: &mut Judge<'_>,
    labels: &[Spot],
    first: usize,
    label: usize,
    q: usize,
    labelled: &Labelled,
) -> Result<Option<Spot>, AllocError>
    requires judge { judge.old ≡ prospect.now.problem }
    requires labels { All (IsSpot prospect.now) labels.now }
    ensures judge { judge.new ≡ prospect.now.problem }
    ensures next { IfOk result (λ found. IfSome found (IsSpot prospect.now)) }
{
    let Some(spot) = labels.get(label) else {
        return Ok(None);
    };
    let Some((end, _)) = promised(prospect, spot, q, labelled.worth, i64::MIN) else {
        return Ok(None);
    };
    if is_covered(labels, first, &end) {
        return Ok(None);
    }
    let next = spot_with(prospect, spot, q, end);
    if labelled.is_strict && !is_legal(prospect, judge, &next)? {
        return Ok(None);
    }
    Ok(Some(next))
}

/// Whether a label from the first one on is as good at its end.
fn is_covered(labels: &[Spot], first: usize, end: &End) -> bool {
    for label in first..labels.len() {
        if is_as_good(&labels[label].end, end) {
            return true;
        }
    }
    false
}

/// Whether an end of the same flight brings no more, and leaves no less for what may stand behind.
fn is_as_good(known: &End, end: &End) -> bool {
    known.flight == end.flight
        && known.value <= end.value
        && known.load <= end.load
        && known.class >= end.class
        && known.need <= end.need
}

/// What the set of a label brings.
fn gain_at(prospect: &Prospect<'_>, spot: &Spot) -> i64
    requires { IsSpot prospect.now spot.now }
{
    spot.end.value.wrapping_add(prospect.term(spot.end.flight))
}

/// The sets of the labels that bring least, as far as they are legal, no more than so many.
fn cheapest(
    alloc: Global,
    prospect: &Prospect<'_>,
    judge: &mut Judge<'_>,
    labels: &[Spot],
    labelled: &mut Labelled,
) -> Result<Columns, AllocError>
    requires judge { judge.old ≡ prospect.now.problem }
    requires labels { All (IsSpot prospect.now) labels.now }
    ensures judge { judge.new ≡ prospect.now.problem }
{
    let mut cheap = within(alloc, prospect, labels, labelled.limit())?;
    labelled.many = cheap.len();
    let mut found = Columns::new(alloc);
    let mut broken: usize = 0;
    for _ in 0..cheap
        .len()
        .min(labelled.most.saturating_mul(LISTED_A_COLUMN))
    {
        let Some(promise) = cheap.pop() else {
            break;
        };
        if found.len() >= labelled.most || promise.label >= labels.len() {
            break;
        }
        let spot = &labels[promise.label];
        if is_legal(prospect, judge, spot)? {
            found.push_gain(&spot.set, promise.saved.wrapping_neg(), prospect.prices())?;
        } else {
            broken = broken.wrapping_add(1);
        }
    }
    labelled.least = found.least_value(prospect.prices());
    labelled.is_strict = broken > found.len() / MANY_BROKEN;
    Ok(found)
}

/// The labels whose sets bring no more than so much.
fn within(
    alloc: Global,
    prospect: &Prospect<'_>,
    labels: &[Spot],
    limit: i64,
) -> Result<BinaryHeap<Promise>, AllocError>
    requires { All (IsSpot prospect.now) labels.now }
{
    let mut cheap = Vec::new(alloc);
    for label in 0..labels.len() {
        let gain = gain_at(prospect, &labels[label]);
        if gain <= limit {
            cheap.push(Promise {
                saved: gain.wrapping_neg(),
                label,
            })?;
        }
    }
    Ok(BinaryHeap::from(cheap))
}
