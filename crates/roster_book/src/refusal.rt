//! Why a record isn't taken.

ghost use Rattle.std.specs.Prelude.{◌≡◌};
ghost use Rattle.roster_book.specs.View.{ToldAt};

use crate::code::Code;
use crate::fault::BookFault;
use std::alloc::{AllocError, AllocFailed};

/// Why a record isn't taken.
#[derive(Drop)]
pub(crate) enum Refusal {
    /// It has a fault.
    Fault(Code),
    /// It has none, and memory has run out.
    Memory,
}

impl Refusal {
    /// The fault of a book whose record at this row is refused.
    pub(crate) fn at(self, row: usize) -> BookFault
        ensures { ToldAt row self result }
    {
        match self {
            Refusal::Fault(code) => BookFault::At {
                row,
                code: code.number(),
            },
            Refusal::Memory => BookFault::Memory,
        }
    }
}

impl From<Code> for Refusal {
    ghost use Rattle.std.specs.Prelude.{◌≡◌};
    ghost use Rattle.roster_book.specs.declared.refusal.Refusal.TheVariants.{Fault};

    ghost from_gives = { λ code e. e ≡ Fault code };

    fn from(code: Code) -> Refusal {
        Refusal::Fault(code)
    }
}

impl From<AllocError> for Refusal {
    ghost use Rattle.std.specs.Prelude.{◌≡◌};
    ghost use Rattle.roster_book.specs.declared.refusal.Refusal.TheVariants.{Memory};

    ghost from_gives = { λ _ e. e ≡ Memory };

    fn from(_error: AllocError) -> Refusal {
        Refusal::Memory
    }
}

impl<T: Drop> From<AllocFailed<T>> for Refusal {
    ghost use Rattle.std.specs.Prelude.{◌≡◌};
    ghost use Rattle.roster_book.specs.declared.refusal.Refusal.TheVariants.{Memory};

    ghost from_gives = { λ _ e. e ≡ Memory };

    fn from(_error: AllocFailed<T>) -> Refusal {
        Refusal::Memory
    }
}
