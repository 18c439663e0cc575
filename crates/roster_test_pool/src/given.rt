//! Six persons with 36 lines each, and what is done with their spans.

use roster_subtreepool::{PoolFault, Settled};
use roster_subtreepool_spans::{Done, Path, Piece, Span};
use roster_values::{Places, Roster};
use std::alloc::{AllocError, Global};
use std::sync::Arc;

/// How many lines each person has.
pub const WIDTHS: [usize; 6] = [36, 36, 36, 36, 36, 36];

/// A piece with no path. Whoever can make one can make any, so a pool looks at what is in the hand.
pub fn piece(alloc: Global, lo: usize, hi: usize) -> Piece {
    Piece::of(Span {
        path: Path::new(Vec::new(alloc)),
        lo,
        hi,
    })
}

/// A roster of no pairings.
pub fn no_pairings(alloc: Global) -> Result<Arc<Roster>, AllocError> {
    let places = Places::new(Vec::new(alloc));
    Ok(Arc::new(alloc, Roster { places, cost: 0 })?)
}

/// Why a piece was refused. One that was given is forgone, so its hand stays full.
pub fn refusal(given: Result<Piece, PoolFault>) -> Option<PoolFault> {
    match given {
        Ok(piece) => {
            piece.forgo();
            None
        }
        Err(fault) => Some(fault),
    }
}

/// The same of a piece that comes back, with its range.
pub fn split_refusal(
    split: Result<Piece, (PoolFault, Piece)>,
) -> (Option<PoolFault>, usize, usize) {
    let (fault, piece) = match split {
        Ok(piece) => (None, piece),
        Err((fault, piece)) => (Some(fault), piece),
    };
    let range = (fault, piece.span().lo, piece.span().hi);
    piece.forgo();
    range
}

/// Why a piece wasn't taken back, if it wasn't; it is forgone.
pub fn back_refusal(given: Result<(), (PoolFault, Piece)>) -> Option<PoolFault> {
    match given {
        Ok(()) => None,
        Err((fault, piece)) => {
            piece.forgo();
            Some(fault)
        }
    }
}

/// Why a piece isn't finished, if it isn't; it is forgone.
pub fn finish_refusal(finished: Result<Settled, (PoolFault, Done)>) -> Option<PoolFault> {
    match finished {
        Ok(_) => None,
        Err((fault, Done { piece, best: _ })) => {
            piece.forgo();
            Some(fault)
        }
    }
}
