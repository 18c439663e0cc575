//! What lies in the window of a base.

ghost use Rattle.std.specs.Prelude.{◌≡◌, ◌≤◌, length};
ghost use Rattle.roster_model.specs.Window as window;

use roster_instants::{BaseDays, Minute};

/// The instant at which the local day begins; after the last day, the end of the window.
fn midnight(days: &BaseDays, day: usize) -> Minute
    requires { day ≤ length days.now.eight }
    ensures { result ≡ window.midnight days.now day }
{
    days.mid(day)
}

/// Whether the time from one instant to another lies in the window.
pub(crate) fn is_in_window(days: &BaseDays, from: Minute, to: Minute) -> bool
    ensures { result ≡ window.is_in_window days.now from to }
{
    midnight(days, 0) <= from && to <= midnight(days, days.days())
}
