//! Who shows rosters to a search.

use roster_values::Roster;
use std::sync::Arc;

/// Shows the rosters of others to a search, now and then. A search trusts what it is shown in nothing: not
/// that the roster is legal, of the same problem, of its cost or new.
pub trait Sight {
    /// A roster, or nothing at the moment.
    fn look(&mut self) -> Option<Arc<Roster>>;
}
