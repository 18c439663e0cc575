//! The best roster that a search has met.

ghost use Rattle.std.specs.Prelude.{◌≡◌, IfOk, Some, not};
ghost use Rattle.roster_model.specs.Rosters.{IsLegalRoster, key_le};
ghost use Rattle.roster_model.specs.Settled.{Anywhere, IsHeld, Settles};

use roster_cost::{Key, order_of_keys, roster_cost};
use roster_problem::{Problem, open_number};
use roster_values::{Places, Roster};
use std::alloc::{AllocError, Global};

/// The roster that leaves all open.
pub(crate) fn all_open(alloc: Global, problem: &Problem) -> Result<Roster, AllocError>
    ensures { IfOk result (IsHeld problem.now) }
{
    let places = vec![in alloc; open_number(problem); problem.pairings().len()]?;
    let cost = roster_cost(problem, &places);
    Ok(Roster {
        places: Places::new(places),
        cost,
    })
}

/// Takes the legal roster if its key is before that of the best one.
pub(crate) fn take_earlier(best: &mut Roster, problem: &Problem, places: &[u16])
    requires legal { IsLegalRoster problem.now places.now }
    requires held { IsHeld problem.now best.old }
    ensures { Settles problem.now (λ others. others ≡ places.now) Anywhere (Some best.old) best.new }
{
    let cost = roster_cost(problem, places);
    if comes_after(best, cost, places) {
        best.cost = cost;
        best.places.copy_from_slice(places);
    }
}

/// Whether its key is after that of the roster with this cost and these places.
fn comes_after(roster: &Roster, cost: i64, places: &[u16]) -> bool
    ensures { result ≡ not (key_le roster.now (record { cost = cost; places = places.now })) }
{
    order_of_keys();
    Key { cost, places } < Key::of(roster)
}
