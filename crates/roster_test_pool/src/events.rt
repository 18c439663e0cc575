//! A pool's events and refusals, one after another.

ghost use Rattle.std.specs.Prelude.{◌≡◌};

use crate::given::{
    WIDTHS, back_refusal, finish_refusal, no_pairings, piece, refusal, split_refusal,
};
use roster_subtreepool::{
    Event, PoolFault, PoolState, Share, counts_what_lies_in, each_list_in_one_span,
};
use roster_subtreepool_spans::Done;
use roster_values::Roster;
use std::alloc::{AllocError, Global};
use std::marker::Brand;
use std::process::Abort;
use std::sync::Arc;
use std::sync::ledger::{Blank, Ledger};
use std::test::Fail;

/// With 64 workers: who may take.
fn takes<L: Ledger>(rt: &impl Abort, alloc: Global, state: &mut PoolState<L>) {
    assert!(rt; state.workers() == 64);
    assert!(rt; refusal(state.take(64, 0)) == Some(PoolFault::NotYours));
    assert!(rt; refusal(state.take(0, 0)).is_none());
    assert!(rt; refusal(state.take(0, 0)) == Some(PoolFault::NotYours));
    assert!(rt; refusal(state.take(1, 0)) == Some(PoolFault::Nothing));
    let root = piece(alloc, 0, 36);
    assert!(rt; split_refusal(state.descend(0, root)) == (Some(PoolFault::CannotSplit), 0, 36));
}

/// A pool isn't closed while a worker has a span.
fn stays_open<L: Ledger>(rt: &impl Abort, alloc: Global, blank: Blank) -> Result<(), AllocError>
    requires name { blank.name ≡ L.name }
    requires parts { blank.parts ≡ L.parts }
    requires one_each { blank.parts ≡ 64 }
{
    let (mut state, shares) = match PoolState::<L>::start(alloc, &WIDTHS, 64, blank) {
        Ok(started) => started,
        Err((_, refused)) => return Err(refused),
    };
    takes(rt, alloc, &mut state);
    let refused = state.close(shares).err();
    assert!(rt; has_taken_once(&refused));
    Ok(())
}

/// Whether a pool and its 64 shares came back, after one event.
fn has_taken_once<L: Ledger>(refused: &Option<(PoolState<L>, Vec<Share<L>>)>) -> bool {
    match refused {
        Some((state, shares)) => {
            shares.len() == 64 && state.history() == [Event::Take(0, 0)].as_slice()
        }
        None => false,
    }
}

/// Each call with what isn't the worker's.
fn refuses<L: Ledger>(
    rt: &impl Abort,
    alloc: Global,
    state: &mut PoolState<L>,
    share: &mut Share<L>,
    best: Arc<Roster>,
) {
    assert!(rt; refusal(state.take(0, 0)).is_none());
    let whole = piece(alloc, 0, 36);
    assert!(rt; split_refusal(state.halve(0, whole)) == (None, 0, 18));
    let whole = piece(alloc, 0, 36);
    assert!(rt; split_refusal(state.halve(0, whole)) == (Some(PoolFault::NotYours), 0, 36));
    let whole = piece(alloc, 0, 36);
    assert!(rt; back_refusal(state.back(0, whole)) == Some(PoolFault::NotYours));
    let done = Done {
        piece: piece(alloc, 0, 36),
        best,
    };
    assert!(rt; finish_refusal(state.finish(0, done, share)) == Some(PoolFault::NotYours));
    let half = piece(alloc, 0, 18);
    assert!(rt; back_refusal(state.back(1, half)) == Some(PoolFault::NotYours));
    assert!(rt; state.pending() == 1);
}

/// Each call with what is the worker's.
fn goes_on<L: Ledger>(
    rt: &impl Abort,
    alloc: Global,
    state: &mut PoolState<L>,
    share: &mut Share<L>,
    best: Arc<Roster>,
) {
    let done = Done {
        piece: piece(alloc, 0, 18),
        best,
    };
    assert!(rt; finish_refusal(state.finish(0, done, share)).is_none());
    assert!(rt; refusal(state.take(1, 0)).is_none());
    let rest = piece(alloc, 18, 36);
    assert!(rt; back_refusal(state.back(1, rest)).is_none());
    assert!(rt; !state.at_rest());
}

/// What isn't the worker's, then what is, and the end.
fn refuses_and_goes_on<L: Ledger>(
    rt: &impl Abort,
    alloc: Global,
    blank: Blank,
) -> Result<(), AllocError>
    requires name { blank.name ≡ L.name }
    requires parts { blank.parts ≡ L.parts }
    requires one_each { blank.parts ≡ 2 }
{
    let refused = no_pairings(alloc)?;
    let taken = no_pairings(alloc)?;
    let (mut state, mut shares) = match PoolState::<L>::start(alloc, &WIDTHS, 2, blank) {
        Ok(started) => started,
        Err((_, refused)) => return Err(refused),
    };
    refuses(rt, alloc, &mut state, &mut shares[0], refused);
    goes_on(rt, alloc, &mut state, &mut shares[0], taken);
    assert!(rt;
        state.history()
            == [
                Event::Take(0, 0),
                Event::Halve(0),
                Event::Finish(0),
                Event::Take(1, 0),
                Event::Back(1)
            ]
            .as_slice()
    );
    Ok(())
}

#[test]
fn tells_who_may_take(rt: HostRuntime) -> Result<(), Fail> {
    stays_open::<Brand>(&rt, rt.alloc(), Blank::new(64))?;
    Ok(())
}

#[test]
fn tells_whose_a_piece_is(rt: HostRuntime) -> Result<(), Fail> {
    each_list_in_one_span();
    counts_what_lies_in();
    refuses_and_goes_on::<Brand>(&rt, rt.alloc(), Blank::new(2))?;
    Ok(())
}
