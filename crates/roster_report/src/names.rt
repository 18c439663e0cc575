//! The names of the pairings of one number.

ghost use Rattle.std.specs.Prelude.{◌≡◌, ◌++◌, length, OnOk};
ghost use Rattle.roster_model.specs.Places.{set_of};
ghost use Rattle.roster_model.specs.Texts.{names_of};
ghost use Rattle.roster_report.specs.Words.{further};

use crate::words::push_word;
use roster_problem::Problem;
use std::alloc::AllocError;

/// Appends the names of the pairings that have the number, in book order, or a dash.
pub(crate) fn push_names(
    out: &mut Vec<u8>,
    problem: &Problem,
    places: &[u16],
    number: usize,
) -> Result<(), AllocError>
    requires { length places.now ≡ length problem.now.pairings }
    ensures { OnOk result (out.new.items ≡ out.old.items
        ++ further (names_of problem.now (set_of number places.now))) }
{
    let mut none = true;
    for (p, place) in places.iter().enumerate() {
        if usize::from(*place) == number {
            none = false;
            push_word(out, problem.pairing(p).id.as_bytes())?;
        }
    }
    if none { push_word(out, b"-") } else { Ok(()) }
}
