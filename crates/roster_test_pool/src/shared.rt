//! A pool behind its lock.

ghost use Rattle.std.specs.Prelude.{◌≡◌};

use crate::given::{
    WIDTHS, back_refusal, finish_refusal, no_pairings, piece, refusal, split_refusal,
};
use roster_subtreepool::{Closed, Event, Pool, PoolFault, PoolState, Share};
use roster_subtreepool_spans::{Done, Piece};
use roster_values::Roster;
use std::alloc::{AllocError, Global};
use std::marker::Brand;
use std::process::Abort;
use std::sync::ledger::{Blank, Ledger};
use std::sync::{Arc, Wait};
use std::test::Fail;
use std::thread::{Threads, join};

/// Whether a span was given. It is forgone, so the hand stays full.
fn has_given(given: Result<Option<Piece>, PoolFault>) -> Result<bool, PoolFault> {
    match given {
        Ok(Some(piece)) => {
            piece.forgo();
            Ok(true)
        }
        Ok(None) => Ok(false),
        Err(fault) => Err(fault),
    }
}

/// Worker 0 takes the root and gives it back, and worker 1 takes it.
fn changes_hands<L: Ledger, R: Wait + Abort>(rt: &R, alloc: Global, pool: &Pool<L>) {
    assert!(rt; has_given(pool.wait_take(rt, 0)) == Ok(true));
    let root = piece(alloc, 0, 36);
    assert!(rt; back_refusal(pool.back(rt, 0, root)).is_none());
    assert!(rt; has_given(pool.wait_take(rt, 1)) == Ok(true));
}

/// Worker 1 finishes it, and nothing is left.
fn ends<L: Ledger, R: Wait + Abort>(
    rt: &R,
    alloc: Global,
    pool: &Pool<L>,
    share: &mut Share<L>,
    best: Arc<Roster>,
) {
    let done = Done {
        piece: piece(alloc, 0, 36),
        best,
    };
    assert!(rt; finish_refusal(pool.finish(rt, 1, done, share)).is_none());
    assert!(rt; has_given(pool.wait_take(rt, 0)) == Ok(false));
    assert!(rt; has_given(pool.wait_take(rt, 2)) == Err(PoolFault::NotYours));
}

/// What is finished is the root, by worker 1.
fn is_finished_by_1(rt: &impl Abort, closed: &Closed) {
    assert!(rt; closed.count() == 1);
    assert!(rt; closed.widths() == WIDTHS.as_slice());
    for (worker, span) in closed.finished() {
        assert!(rt; (*worker, span.lo, span.hi) == (1, 0, 36));
    }
}

/// One thread as two workers: the span comes back, the other finishes it, and nothing is left.
fn takes_turns<L: Ledger, R: Wait + Abort>(
    rt: &R,
    alloc: Global,
    blank: Blank,
) -> Result<(), AllocError>
    requires name { blank.name ≡ L.name }
    requires parts { blank.parts ≡ L.parts }
    requires one_each { blank.parts ≡ 2 }
{
    let best = no_pairings(alloc)?;
    let (state, mut shares) = match PoolState::<L>::start(alloc, &WIDTHS, 2, blank) {
        Ok(started) => started,
        Err((_, refused)) => return Err(refused),
    };
    let pool = Pool::new(state);
    changes_hands(rt, alloc, &pool);
    ends(rt, alloc, &pool, &mut shares[1], best);
    let state = pool.into_state();
    assert!(rt;
        state.history()
            == [
                Event::Take(0, 0),
                Event::Back(0),
                Event::Take(1, 0),
                Event::Finish(1)
            ]
            .as_slice()
    );
    match state.close(shares) {
        Ok(closed) => is_finished_by_1(rt, &closed),
        Err(_) => assert!(rt; false, "not closed at rest"),
    }
    Ok(())
}

/// Worker 0 takes the root, splits it as far as it goes, and forgoes it.
fn splits<L: Ledger, R: Wait + Abort>(rt: &R, alloc: Global, pool: &Pool<L>) {
    assert!(rt; has_given(pool.wait_take(rt, 0)) == Ok(true));
    assert!(rt; pool.short(rt));
    for &(hi, middle) in &[(36, 18), (18, 9), (9, 4), (4, 2), (2, 1)] {
        let part = piece(alloc, 0, hi);
        assert!(rt; split_refusal(pool.halve(rt, 0, part)) == (None, 0, middle));
    }
    let line = piece(alloc, 0, 1);
    assert!(rt; split_refusal(pool.descend(rt, 0, line)) == (None, 0, 36));
    assert!(rt; !pool.short(rt));
}

/// One worker splits its span, and the pool isn't closed.
fn is_split<L: Ledger, R: Wait + Abort>(
    rt: &R,
    alloc: Global,
    blank: Blank,
) -> Result<(), AllocError>
    requires name { blank.name ≡ L.name }
    requires parts { blank.parts ≡ L.parts }
    requires one_each { blank.parts ≡ 1 }
{
    let (state, shares) = match PoolState::<L>::start(alloc, &WIDTHS, 1, blank) {
        Ok(started) => started,
        Err((_, refused)) => return Err(refused),
    };
    let pool = Pool::new(state);
    splits(rt, alloc, &pool);
    let state = pool.into_state();
    assert!(rt;
        state.history()
            == [
                Event::Take(0, 0),
                Event::Halve(0),
                Event::Halve(0),
                Event::Halve(0),
                Event::Halve(0),
                Event::Halve(0),
                Event::Descend(0),
            ]
            .as_slice()
    );
    assert!(rt; state.close(shares).is_err());
    Ok(())
}

/// A pool that was stopped gives nothing any more, though spans are pending.
fn stops<L: Ledger, R: Wait + Abort>(rt: &R, alloc: Global, blank: Blank) -> Result<(), AllocError>
    requires name { blank.name ≡ L.name }
    requires parts { blank.parts ≡ L.parts }
    requires one_each { blank.parts ≡ 1 }
{
    let (state, shares) = match PoolState::<L>::start(alloc, &WIDTHS, 1, blank) {
        Ok(started) => started,
        Err((_, refused)) => return Err(refused),
    };
    let pool = Pool::new(state);
    pool.stop(rt);
    assert!(rt; has_given(pool.wait_take(rt, 0)) == Ok(false));
    let state = pool.into_state();
    assert!(rt; state.pending() == 1);
    assert!(rt; state.close(shares).is_err());
    Ok(())
}

/// A worker that takes what is pending, splits it if nothing else is, and finishes what it has left;
/// until nothing is pending and nobody has a span. False if the pool refused something; then it is stopped,
/// so that no other worker waits for a span that never comes back.
fn work<L: Ledger, R: Wait>(
    rt: &R,
    pool: &Pool<L>,
    worker: usize,
    share: &mut Share<L>,
    best: &Arc<Roster>,
) -> bool {
    for _ in rt.forever() {
        let piece = match pool.wait_take(rt, worker) {
            Ok(Some(piece)) => piece,
            Ok(None) => return true,
            Err(_) => {
                pool.stop(rt);
                return false;
            }
        };
        let piece = if pool.short(rt) {
            split(pool.halve(rt, worker, piece))
        } else {
            piece
        };
        match Arc::try_clone(best) {
            Ok(best) => {
                let done = Done { piece, best };
                if finish_refusal(pool.finish(rt, worker, done, share)).is_some() {
                    pool.stop(rt);
                    return false;
                }
            }
            Err(_) => {
                piece.forgo();
                pool.stop(rt);
                return false;
            }
        }
    }
    unreachable!()
}

/// The piece, whether it was split or not.
fn split(split: Result<Piece, (PoolFault, Piece)>) -> Piece {
    match split {
        Ok(piece) => piece,
        Err((_, piece)) => piece,
    }
}

/// Two threads share the pool until all is finished, and give their shares back.
fn work_together<L: Ledger + Send + Sync, R: Threads + Wait + Abort + Sync>(
    rt: &R,
    pool: &Pool<L>,
    first: Share<L>,
    second: Share<L>,
    best: &Arc<Roster>,
) -> (Share<L>, Share<L>) {
    let (mine, theirs) = join(
        rt,
        || -> (Share<L>, bool) { work_as(rt, pool, 0, first, best) },
        || -> (Share<L>, bool) { work_as(rt, pool, 1, second, best) },
    );
    assert!(rt; mine.1 && theirs.1);
    (mine.0, theirs.0)
}

/// What is finished are all lines of the root, in several spans.
fn has_all_lines(rt: &impl Abort, closed: &Closed) {
    let mut lines = 0;
    for (_, span) in closed.finished() {
        if span.lo < span.hi && lines < 36 {
            lines += (span.hi - span.lo).min(36);
        }
    }
    assert!(rt; lines == 36);
    assert!(rt; closed.count() > 1);
}

/// What two threads finish is all.
fn shares_out<L: Ledger + Send + Sync, R: Threads + Wait + Abort + Sync>(
    rt: &R,
    alloc: Global,
    blank: Blank,
) -> Result<(), AllocError>
    requires name { blank.name ≡ L.name }
    requires parts { blank.parts ≡ L.parts }
    requires one_each { blank.parts ≡ 2 }
{
    let best = no_pairings(alloc)?;
    let (state, mut shares) = match PoolState::<L>::start(alloc, &WIDTHS, 2, blank) {
        Ok(started) => started,
        Err((_, refused)) => return Err(refused),
    };
    let second = shares.remove(1);
    let first = shares.remove(0);
    let pool = Pool::new(state);
    let (first, second) = work_together(rt, &pool, first, second, &best);
    shares.push(first)?;
    shares.push(second)?;
    match pool.into_state().close(shares) {
        Ok(closed) => has_all_lines(rt, &closed),
        Err(_) => assert!(rt; false, "not closed at rest"),
    }
    Ok(())
}

/// A worker with a share of its own, which it gives back.
fn work_as<L: Ledger, R: Wait>(
    rt: &R,
    pool: &Pool<L>,
    worker: usize,
    share: Share<L>,
    best: &Arc<Roster>,
) -> (Share<L>, bool) {
    let mut share = share;
    let good = work(rt, pool, worker, &mut share, best);
    (share, good)
}

#[test]
fn two_threads_share_it_out(rt: HostRuntime) -> Result<(), Fail> {
    shares_out::<Brand, HostRuntime>(&rt, rt.alloc(), Blank::new(2))?;
    Ok(())
}

#[test]
fn takes_turns_in_one_thread(rt: HostRuntime) -> Result<(), Fail> {
    takes_turns::<Brand, HostRuntime>(&rt, rt.alloc(), Blank::new(2))?;
    Ok(())
}

#[test]
fn splits_as_far_as_it_goes(rt: HostRuntime) -> Result<(), Fail> {
    is_split::<Brand, HostRuntime>(&rt, rt.alloc(), Blank::new(1))?;
    Ok(())
}

#[test]
fn stops_with_spans_left(rt: HostRuntime) -> Result<(), Fail> {
    stops::<Brand, HostRuntime>(&rt, rt.alloc(), Blank::new(1))?;
    Ok(())
}
