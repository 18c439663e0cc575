//! Why no book was made, as it is told.

ghost use Rattle.std.specs.Prelude.{IfOk};
ghost use Rattle.roster_model.specs.Answer.{records_of};
ghost use Rattle.roster_desk_fault.specs.Told.{IsFaultyBook};
ghost use Rattle.roster_desk_made.specs.Made.{TellsFault};
ghost use Rattle.roster_desk_answers.specs.Pages.{IsFaultless, IsUnmade};

use crate::untold::Untold;
use roster_desk_fault::fault_text;
use roster_desk_made::Unmade;
use std::alloc::{AllocError, Global};

/// The faults of the text, and what is said of them.
fn faults_of(alloc: Global, text: &[u8], said: &str) -> Result<Vec<u8>, AllocError>
    requires { ¬ IsFaultless text.now }
    ensures { IfOk result (λ faults. IsFaultyBook (records_of text.now) faults.items) }
{
    let mut faults = fault_text(alloc, text)?;
    faults.extend_from_slice(said.as_bytes())?;
    Ok(faults)
}

/// Why no book was made. Behind its faults stands what is said of them.
pub(crate) fn unmade<'a>(alloc: Global, why: Unmade, said: &str) -> Untold<'a>
    requires { TellsFault why }
    ensures { IsUnmade result }
{
    match why {
        Unmade::At { text, .. } => match faults_of(alloc, &text, said) {
            Ok(faults) => Untold::Faulty(faults),
            Err(_) => Untold::Memory,
        },
        Unmade::Unlike => Untold::Unlike,
        Unmade::Memory => Untold::Memory,
    }
}
