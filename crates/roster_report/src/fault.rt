//! Why a text was not written.

ghost use Rattle.std.specs.Prelude.{◌≡◌};
ghost use Rattle.roster_report.specs.declared.fault.TextFault.TheVariants.{Memory};

use std::alloc::AllocError;
use thiserror::Error;

/// Why a text was not written whole.
#[derive(Debug, Drop, Error)]
pub enum TextFault {
    /// Memory ran out; nothing was written.
    #[error("out of memory")]
    Memory,
    /// The writer failed.
    #[error("the writer failed")]
    Device,
}

impl From<AllocError> for TextFault {
    ghost from_gives = { λ _ e. e ≡ Memory };

    fn from(_e: AllocError) -> TextFault {
        TextFault::Memory
    }
}
