//! Why no book was read.

use std::alloc::AllocError;
use thiserror::Error;

/// Why no book was read.
#[derive(Debug, Drop, Error)]
pub enum BookFault {
    /// What is wrong with the record at this row, by the number of its code.
    #[error("record {row}: fault {code}")]
    At {
        /// The number of the record, from 1.
        row: usize,
        /// What is wrong with it, from 1 to 14: 15 is told by a run.
        code: u8,
    },
    /// The reader failed.
    #[error("the book could not be read")]
    Device,
    /// Memory ran out.
    #[error("out of memory")]
    Memory,
}

impl From<AllocError> for BookFault {
    ghost use Rattle.std.specs.Prelude.{◌≡◌};
    ghost use Rattle.roster_book.specs.declared.fault.BookFault.TheVariants.{Memory};

    ghost from_gives = { λ _ fault. fault ≡ Memory };

    fn from(_error: AllocError) -> BookFault {
        BookFault::Memory
    }
}
