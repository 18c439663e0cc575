//! Who is told of the nodes of a search, and may end it.

use roster_values::Roster;
use std::sync::Arc;

/// Is told of each node of a search before the node is visited, and may end the search there, or show it a
/// roster that others have found. It may count the nodes or their lines, and look elsewhere now and then;
/// nothing that a search answers rests on it.
pub trait Stop {
    /// What becomes of it by being told and nothing else.
    ghost goes_on: { Self → Self → Type 0 };

    /// One more node, which has about so many lines to look at. So many others are open beside it. False if
    /// the search ends before it is visited.
    fn node(&mut self, lines: usize, others: usize) -> bool
        ensures { goes_on self.old self.new };

    /// A roster that others have found, or nothing at the moment. It is trusted in nothing.
    fn shown(&mut self) -> Option<Arc<Roster>>
        ensures { goes_on self.old self.new };

    /// A roster was found that costs less than those before.
    fn found(&mut self, roster: &Roster)
        ensures { goes_on self.old self.new };

    ghost stays: { (now : Self) → goes_on now now };

    ghost follows: { (old mid new : Self) → goes_on old mid → goes_on mid new → goes_on old new };
}

/// Never ends a search, shows nothing and counts nothing; it is a `Finder` of one thread too.
#[derive(Drop)]
pub struct Never;

impl Stop for Never {
    ghost goes_on = { λ old new. Unit };

    fn node(&mut self, _lines: usize, _others: usize) -> bool {
        true
    }

    fn shown(&mut self) -> Option<Arc<Roster>> {
        None
    }

    fn found(&mut self, _roster: &Roster) {}

    ghost stays = { λ now. tt };

    ghost follows = { λ old mid new first then. tt };
}
