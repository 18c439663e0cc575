//! What a pool refuses.

use std::alloc::AllocError;
use thiserror::Error;

/// Why a pool refuses a call. Of several faults the first in this order is told.
#[derive(Debug, Clone, Copy, PartialEq, Eq, Error)]
pub enum PoolFault {
    /// There is no such worker; it takes, but has a span already; or the piece isn't the one that it has.
    #[error("the piece isn't the worker's")]
    NotYours,
    /// The piece can't be halved: its range has less than two lines. Or it can't go down: its range isn't
    /// one line, or no person comes after the next one.
    #[error("the piece can't be split")]
    CannotSplit,
    /// Nothing is pending at the place.
    #[error("nothing is pending there")]
    Nothing,
    /// Memory ran out.
    #[error("out of memory")]
    Memory,
}

impl From<AllocError> for PoolFault {
    ghost use Rattle.std.specs.Prelude.{◌≡◌};
    ghost use Rattle.roster_subtreepool.specs.declared.fault.PoolFault.TheVariants.{Memory};

    ghost from_gives = { λ _ e. e ≡ Memory };

    fn from(_: AllocError) -> PoolFault {
        PoolFault::Memory
    }
}
