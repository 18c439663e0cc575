//! A run of changes: those are made that save something, and some that don't, the fewer the longer it goes
//! on.

ghost use Rattle.std.specs.Prelude.{◌≡◌, IfOk};
ghost use Rattle.roster_model.specs.Rosters.{IsLegalRoster};

use crate::changes::Change;
use crate::draft::RosterDraft;
use crate::search::Search;
use roster_problem::Problem;
use std::alloc::{AllocError, Global};

/// How many changes are looked at to learn what changes cost.
const SAMPLES: u32 = 500;

/// A run is so cold at most.
const MOST_COLD: u32 = 16;

/// The chances of a run.
#[derive(Clone, Copy)]
pub struct Chances {
    /// Where its random numbers begin.
    pub seed: u64,
    /// How cold it begins: each one more halves what a change may cost more at first. A cold run stays near
    /// its start.
    pub cold: u32,
}

/// The places of a legal roster, found from the given ones by so many tries of changes, with the chances of a
/// seed, in bases that are sought. `sought` says of each base, by its number, whether it is; one past the
/// list is.
pub fn improved_by_changes(
    alloc: Global,
    problem: &Problem,
    start: &[u16],
    sought: &[bool],
    tries: u32,
    chances: Chances,
) -> Result<Vec<u16>, AllocError>
    requires { IsLegalRoster problem.now start.now }
    ensures { IfOk result (λ found. IsLegalRoster problem.now found.items) }
{
    let mut draft = RosterDraft::new(alloc, problem, start)?;
    improve(alloc, problem, start, sought, tries, chances, &mut draft)?;
    draft.best(alloc)
}

/// Makes a run that begins with the given places.
fn improve(
    alloc: Global,
    problem: &Problem,
    start: &[u16],
    sought: &[bool],
    tries: u32,
    chances: Chances,
    draft: &mut RosterDraft<'_>,
) -> Result<(), AllocError>
    ensures { draft.new ≡ draft.old }
{
    let mut search = Search::new(alloc, problem, start, sought, chances.seed)?;
    run(draft, &mut search, tries, chances.cold)
}

/// Makes the run of so many tries.
fn run(
    draft: &mut RosterDraft<'_>,
    search: &mut Search<'_>,
    tries: u32,
    cold: u32,
) -> Result<(), AllocError>
    ensures { draft.new ≡ draft.old }
{
    fill(draft, search)?;
    let warmth = usual_extra(search)? >> (2 + cold.min(MOST_COLD));
    for i in 0..tries {
        search.change()?;
        let extra = search.extra();
        if extra <= allowed(search, warmth, i, tries) {
            try_changes(draft, search, extra)?;
        }
    }
    Ok(())
}

/// Places open pairings one after another, each with whom it costs least.
fn fill(draft: &mut RosterDraft<'_>, search: &mut Search<'_>) -> Result<(), AllocError>
    ensures { draft.new ≡ draft.old }
{
    for p in 0..search.tables.pairings() {
        if search.open().has(p) {
            search.fill(p)?;
            let extra = search.extra();
            try_changes(draft, search, extra)?;
        }
    }
    Ok(())
}

/// Makes the changes if they are legal. Else all is as before.
fn try_changes(
    draft: &mut RosterDraft<'_>,
    search: &mut Search<'_>,
    extra: i64,
) -> Result<(), AllocError>
    ensures { draft.new ≡ draft.old }
{
    if search.changes.as_slice().is_empty() {
        return Ok(());
    }
    if !assign_all(draft, search.changes.as_slice())? {
        draft.go_back();
        return Ok(());
    }
    draft.settle();
    if search.take(extra) {
        draft.note();
    }
    Ok(())
}

/// Makes the changes one after another, as far as they are legal. Whether all are.
fn assign_all(draft: &mut RosterDraft<'_>, changes: &[Change]) -> Result<bool, AllocError>
    ensures { draft.new ≡ draft.old }
{
    for change in changes {
        if !draft.assign(change.person, &change.set)? {
            return Ok(false);
        }
    }
    Ok(true)
}

/// What a change costs or saves on average.
fn usual_extra(search: &mut Search<'_>) -> Result<i64, AllocError> {
    let mut sum: i64 = 0;
    for _ in 0..SAMPLES {
        search.change()?;
        sum = sum.wrapping_add(search.extra().wrapping_abs());
    }
    Ok(sum / i64::from(SAMPLES))
}

/// What a change may cost more: less and less, and sometimes more than at other times.
fn allowed(search: &mut Search<'_>, warmth: i64, i: u32, tries: u32) -> i64 {
    let left = i64::from(tries.wrapping_sub(i));
    let part = left.wrapping_mul(1024) / i64::from(tries).max(1);
    let cooled = warmth.wrapping_mul(part.wrapping_mul(part).wrapping_mul(part) >> 10) >> 20;
    cooled.wrapping_mul(search.random.waiting()) >> 16
}
