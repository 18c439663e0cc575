//! What legal sets bring at least.
//!
//! Labels find sets that bring little, and the least of them is a claim. Tables that know of recurrent rests
//! and days off lead a search for a set that brings less. If it comes to its end, there is none.

ghost use Rattle.std.specs.Prelude.{◌≡◌, ◌<◌, ◌≤ℤ◌, ◌⊎◌, IfOk, IfSome, MatchOption, length};
ghost use Rattle.roster_plan_bound.specs.Reduced.{ArePrices, IsLeastOf};
ghost use Rattle.roster_plan_bound.specs.Timelines.{IsTimeline};

use crate::columns::{Columns, Hints};
use crate::labels::{Labelled, is_barred, label_all};
use crate::parts::MOST_LEAST;
use crate::prospect::Prospect;
use crate::seek::{Listing, seek_all};
use crate::timeline::Timeline;
use crate::tuning::{
    FEWEST_LISTED, FEWEST_WORTH_STEPS, FINER_TOLLS, FINER_WORTHS, LEAST_REACH, MANY_BARRED,
    MANY_LISTED, MOST_CLAIMS, MOST_KEPT, MOST_KNOWN, MOST_REACH, MOST_WORTH_STEPS,
};
use roster_legal::Judge;
use roster_problem::Problem;
use std::alloc::{AllocError, Global};

/// No line of person `k`, whose timeline it is, has a lower reduced cost at the prices. What the cheapest
/// column costs is the claim that a search is to show, which goes on from so many sets at most; the columns
/// get what it finds. Nothing is known without a timeline, or if the fixed flight is too far from the target.
pub(crate) fn least_set(
    alloc: Global,
    problem: &Problem,
    k: usize,
    timeline: &Option<Timeline>,
    prices: &[i64],
    visits: u32,
    columns: &mut Columns,
) -> Result<Option<i64>, AllocError>
    requires person { k < length problem.now.persons }
    requires timeline { IfSome timeline.now (IsTimeline problem.now k) }
    requires prices { ArePrices problem.now prices.now }
    ensures { IfOk result (λ found. IfSome found (IsLeastOf problem.now prices.now k)) }
{
    let Some(timeline) = timeline else {
        return Ok(None);
    };
    let Some(mut prospect) = Prospect::new(alloc, problem, k, timeline, prices)? else {
        return Ok(None);
    };
    add_tables(alloc, &mut prospect, columns)?;
    refine_tables(alloc, &mut prospect, columns)?;
    let tabled = prospect.least();
    if visits == 0 {
        return Ok(Some(tabled));
    }
    let least = least_shown(alloc, &prospect, tabled, visits, columns)?;
    Ok(Some(least))
}

/// Makes tables at what a minute of flight was worth to the best one before, and at a step less and more:
/// what it is usually worth at first. The steps are half as long from then on if that is the best one again,
/// and else twice as long, within limits.
fn add_tables(
    alloc: Global,
    prospect: &mut Prospect<'_>,
    columns: &mut Columns,
) -> Result<(), AllocError>
    ensures { prospect.new ≡ prospect.old }
{
    let usual = prospect.usual_worth();
    let longest = if prospect.is_scarce() {
        usual
    } else {
        usual / FEWEST_WORTH_STEPS
    };
    let Hints {
        worth,
        step,
        toll,
        ..
    } = columns.hints;
    let step = if step > 0 { step } else { usual };
    prospect.add(alloc, worth, toll)?;
    prospect.add(alloc, worth.wrapping_sub(step), toll)?;
    prospect.add(alloc, worth.wrapping_add(step), toll)?;
    columns.hints.worth = prospect.best().0;
    columns.hints.step = if columns.hints.worth == worth {
        step / 2
    } else {
        step.wrapping_mul(2).min(longest)
    }
    .max(usual / MOST_WORTH_STEPS)
    .max(1);
    add_tolls(alloc, prospect, columns)
}

/// Makes tables nearer to the best one, on either side, by worth and by toll.
fn refine_tables(
    alloc: Global,
    prospect: &mut Prospect<'_>,
    columns: &mut Columns,
) -> Result<(), AllocError>
    ensures { prospect.new ≡ prospect.old }
{
    prospect.refine(alloc, FINER_WORTHS)?;
    if !columns.hints.is_tolled {
        return Ok(());
    }
    let step = columns.hints.toll_step.wrapping_mul(2);
    prospect.refine_toll(alloc, FINER_TOLLS, step)?;
    columns.hints.toll = prospect.best().1;
    Ok(())
}

/// Makes tables at a step less and more than the toll of the best one before, if tolls count. The steps are
/// half as long from then on if that is the best one again, and else twice as long, within limits.
fn add_tolls(
    alloc: Global,
    prospect: &mut Prospect<'_>,
    columns: &mut Columns,
) -> Result<(), AllocError>
    ensures { prospect.new ≡ prospect.old }
{
    let Hints {
        is_tolled,
        toll,
        toll_step,
        ..
    } = columns.hints;
    if !is_tolled {
        return Ok(());
    }
    let usual = prospect.usual_toll().max(1);
    let step = if toll_step > 0 { toll_step } else { usual };
    prospect.refine_toll(alloc, 1, step)?;
    columns.hints.toll = prospect.best().1;
    columns.hints.toll_step = if columns.hints.toll == toll {
        step / 2
    } else {
        step.wrapping_mul(2).min(usual)
    }
    .max(usual / MOST_WORTH_STEPS)
    .max(1);
    Ok(())
}

/// The columns get lines of person `k`, whose timeline it is, that cost little at the prices. What the
/// cheapest one brings, or nothing without a timeline, or if the fixed flight is too far from the target:
/// then columns stay.
pub(crate) fn renew_sets(
    alloc: Global,
    problem: &Problem,
    k: usize,
    timeline: &Option<Timeline>,
    prices: &[i64],
    columns: &mut Columns,
) -> Result<i64, AllocError>
    requires person { k < length problem.now.persons }
    requires timeline { IfSome timeline.now (IsTimeline problem.now k) }
    requires prices { ArePrices problem.now prices.now }
{
    let Some(timeline) = timeline else {
        return Ok(0);
    };
    let Some(mut prospect) = Prospect::new(alloc, problem, k, timeline, prices)? else {
        return Ok(0);
    };
    let is_small = is_mostly_barred(&prospect);
    if !is_small {
        add_tables(alloc, &mut prospect, columns)?;
    }
    let mut judge = Judge::new(alloc, prospect.problem());
    let mut labelled = labelled_of(columns, prices, is_small);
    let found = label_all(alloc, &prospect, &mut judge, &mut labelled)?;
    renew(alloc, found, labelled, prices, columns)?;
    Ok(columns.least_value(prices))
}

/// What labels begin with: if few pairings may be had, no tables tell what may stand behind.
fn labelled_of(columns: &Columns, prices: &[i64], is_small: bool) -> Labelled {
    Labelled {
        least: columns.least_value(prices),
        reach: columns.hints.reach.max(LEAST_REACH),
        is_strict: columns.hints.is_strict,
        many: 0,
        worth: if is_small {
            Some(columns.hints.worth)
        } else {
            None
        },
        most: columns.hints.wanted,
    }
}

/// Whether prices let the person have but few of all pairings.
fn is_mostly_barred(prospect: &Prospect<'_>) -> bool {
    let order = &prospect.timeline().order;
    let free = order.iter().filter(|q| !is_barred(prospect, **q)).count();
    free.saturating_mul(MANY_BARRED) <= order.len()
}

/// What searches show that no line of the person is below, if it is more than `known`: what the cheapest
/// column costs, or something between. The columns get what the first search finds.
fn least_shown(
    alloc: Global,
    prospect: &Prospect<'_>,
    known: i64,
    visits: u32,
    columns: &mut Columns,
) -> Result<i64, AllocError>
    requires { IsLeastOf prospect.now.problem prospect.now.prices prospect.now.person known }
    ensures { IfOk result (IsLeastOf prospect.now.problem prospect.now.prices prospect.now.person) }
{
    let mut judge = Judge::new(alloc, prospect.problem());
    let mut listing = listing_of(alloc, visits);
    let claim = columns.least_value(prospect.prices());
    let found = shown(prospect, &mut judge, claim, &mut listing)?;
    columns.join(&listing.found)?;
    columns.hints.is_tolled |= found.is_none() && prospect.is_laden();
    match found {
        Some(_) => Ok(better(known, found)),
        None => least_claimed(
            alloc,
            prospect,
            known,
            columns.least_value(prospect.prices()),
            visits,
        ),
    }
}

/// What is claimed between `known` and what some line costs, if a search shows it: half of the way, or half
/// of that.
fn least_claimed(
    alloc: Global,
    prospect: &Prospect<'_>,
    known: i64,
    line: i64,
    visits: u32,
) -> Result<i64, AllocError>
    requires { IsLeastOf prospect.now.problem prospect.now.prices prospect.now.person known }
    ensures { IfOk result (IsLeastOf prospect.now.problem prospect.now.prices prospect.now.person) }
{
    let mut judge = Judge::new(alloc, prospect.problem());
    let mut open = line.wrapping_sub(known);
    for _ in 0..MOST_CLAIMS {
        open /= 2;
        if open <= 0 {
            break;
        }
        let mut listing = listing_of(alloc, visits);
        let found = shown(prospect, &mut judge, known.wrapping_add(open), &mut listing)?;
        if found.is_some() {
            return Ok(better(known, found));
        }
    }
    Ok(known)
}

/// Nothing is found so far.
fn listing_of(alloc: Global, visits: u32) -> Listing {
    Listing {
        left: visits,
        found: Columns::new(alloc),
    }
}

/// What no line has a lower reduced cost than: the claim, or what the cheapest line costs, if that is less.
/// Nothing if there is too much to look at.
fn shown(
    prospect: &Prospect<'_>,
    judge: &mut Judge<'_>,
    claim: i64,
    listing: &mut Listing,
) -> Result<Option<i64>, AllocError>
    requires judge { judge.old ≡ prospect.now.problem }
    ensures judge { judge.new ≡ prospect.now.problem }
    ensures least { IfOk result (λ found. IfSome found
        (IsLeastOf prospect.now.problem prospect.now.prices prospect.now.person)) }
{
    let mut least = claim;
    if !seek_all(prospect, judge, &mut least, listing)? {
        return Ok(None);
    }
    if least.unsigned_abs() > MOST_LEAST {
        return Ok(None);
    }
    prospect.is_least(least);
    Ok(Some(least))
}

/// The greater one of the two, if there is a second one.
fn better(least: i64, found: Option<i64>) -> i64
    ensures one { MatchOption found (result ≡ least) (λ other. (result ≡ least) ⊎ (result ≡ other)) }
    ensures greater { IfSome found (λ other. (least ≤ℤ result) × (other ≤ℤ result)) }
{
    match found {
        Some(other) if other > least => other,
        _ => least,
    }
}

/// The columns become the sets that were found, and those known before: the cheapest ones, if they are many.
fn renew(
    alloc: Global,
    found: Columns,
    labelled: Labelled,
    prices: &[i64],
    columns: &mut Columns,
) -> Result<(), AllocError> {
    let mut known = found;
    known.hints = Hints {
        reach: next_reach(labelled.reach, labelled.many, columns.hints.dear),
        is_strict: labelled.is_strict,
        ..columns.hints
    };
    known.join(columns)?;
    *columns = if known.len() > MOST_KNOWN {
        known.cheapest(alloc, prices, MOST_KEPT)?
    } else {
        known
    };
    Ok(())
}

/// How far the next labels reach after so many sets were found, in a month so dear.
fn next_reach(reach: i64, many: usize, dear: i64) -> i64 {
    if many > MANY_LISTED {
        return (reach.wrapping_mul(7) / 10).max(LEAST_REACH);
    }
    if many < FEWEST_LISTED {
        return (reach.wrapping_mul(13) / 10).min(MOST_REACH.wrapping_mul(dear));
    }
    reach
}
