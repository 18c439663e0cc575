//! Why no book is made.

use std::alloc::AllocError;

/// Why no book is made.
#[derive(Drop)]
pub enum Unmade {
    /// It would have a fault, of which this is the first.
    At {
        /// The text of the book.
        text: Vec<u8>,
        /// The row of the record.
        row: usize,
        /// The code.
        code: u8,
    },
    /// It wouldn't ask for what is meant, or a number is no machine's.
    Unlike,
    /// Memory ran out.
    Memory,
}

impl From<AllocError> for Unmade {
    ghost use Rattle.std.specs.Prelude.{◌≡◌};
    ghost use Rattle.roster_desk_made.specs.declared.unmade.Unmade.TheVariants.{Memory};

    ghost from_gives = { λ _ e. e ≡ Memory };

    fn from(_error: AllocError) -> Unmade {
        Unmade::Memory
    }
}
