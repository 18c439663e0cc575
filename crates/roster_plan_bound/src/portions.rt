//! What the columns of some persons cover at some prices, shared among threads. Nothing rests on it.

ghost use Rattle.std.specs.Prelude.{◌<◌};

use crate::columns::Columns;
use crate::lists::amount_at;
use crate::team::Team;
use crate::tuning::COLUMNS_FOR_A_THREAD;
use crate::way::Way;
use std::alloc::{AllocError, Global};
use std::thread::{Threads, for_each_mut};

/// The columns of a person that cost little enough to have a share in the next steps.
#[derive(Drop)]
pub(crate) struct Near {
    pub(crate) columns: Result<Columns, AllocError>,
}

/// The columns of some persons at some prices.
#[derive(Drop)]
pub(crate) struct Portion {
    // The values of one person's columns.
    values: Vec<i64>,
    // For each pairing the shares of the columns that have it.
    covers: Vec<i64>,
    // What the persons cost.
    cost: Result<i64, AllocError>,
}

/// As many portions as there are columns for, each for a thread of its own.
pub(crate) fn portions_of(
    alloc: Global,
    threads: usize,
    near: &[Near],
    pairings: usize,
) -> Result<Vec<Portion>, AllocError> {
    let mut columns: usize = 0;
    for one in near {
        if let Ok(known) = &one.columns {
            columns = columns.saturating_add(known.len());
        }
    }
    let mut portions = Vec::new(alloc);
    for _ in 0..threads.min(columns / COLUMNS_FOR_A_THREAD).max(1) {
        portions.push(Portion::new(alloc, pairings)?)?;
    }
    Ok(portions)
}

/// Each portion covers with the columns of its persons.
pub(crate) fn cover_all<R: Threads + Sync>(
    team: &Team<'_, R>,
    near: &[Near],
    way: &Way,
    portions: &mut [Portion],
)
    requires { 0 < team.now.threads }
{
    let count = portions.len().max(1);
    let cover = |nth: usize, portion: &mut Portion|
        requires { 0 < count }
    {
        portion.cost = portion.cover(near, way, nth, count);
    };
    for_each_mut(team.rt, portions, team.threads, &cover);
}

impl Portion {
    /// One of no columns.
    fn new(alloc: Global, pairings: usize) -> Result<Portion, AllocError> {
        let covers = vec![in alloc; 0; pairings]?;
        Ok(Portion {
            values: Vec::new(alloc),
            covers,
            cost: Ok(0),
        })
    }

    /// Covers with the columns of one person of each so many, from the `nth` on. What they cost.
    fn cover(
        &mut self,
        near: &[Near],
        way: &Way,
        nth: usize,
        count: usize,
    ) -> Result<i64, AllocError>
        requires { 0 < count }
    {
        for i in 0..self.covers.len() {
            self.covers[i] = 0;
        }
        let mut sum: i64 = 0;
        for (k, one) in near.iter().enumerate() {
            if k % count == nth {
                sum = sum.wrapping_add(self.cover_with(one, way)?);
            }
        }
        Ok(sum)
    }

    /// Covers with the columns of one person. What they cost.
    fn cover_with(&mut self, one: &Near, way: &Way) -> Result<i64, AllocError> {
        match &one.columns {
            Ok(columns) => columns.cover(
                &mut self.values,
                &way.prices,
                way.softness,
                &mut self.covers,
            ),
            Err(_) => Err(AllocError),
        }
    }
}

/// Adds the covers of all portions to these. What all persons cost.
pub(crate) fn added(portions: &[Portion], covers: &mut [i64]) -> Result<i64, AllocError> {
    let mut sum: i64 = 0;
    for portion in portions {
        sum = sum.wrapping_add(portion.cost?);
        add_up(covers, &portion.covers);
    }
    Ok(sum)
}

/// Adds the covers of a portion to these.
pub(crate) fn add_up(covers: &mut [i64], more: &[i64]) {
    for p in 0..covers.len() {
        covers[p] = covers[p].wrapping_add(amount_at(more, p));
    }
}
