//! The locked roster, how it is raised, and its look as a search's sight.

ghost use Rattle.std.specs.Prelude.{◌≡◌};
ghost use Rattle.std.specs.Arc.{arc_value};
ghost use Rattle.roster_incumbent.specs.Kept.{less_of};

use crate::sight::Sight;
use roster_cost::comes_before;
use roster_values::Roster;
use std::alloc::AllocError;
use std::sync::{Arc, Mutex, Wait};

/// The roster of least key among those that it was made from and raised to: the first of them if the
/// keys are equal. Who holds it holds a lock, for one look or one raise at a time. The rosters are trusted
/// in nothing: they needn't be legal, of their cost, or of one problem.
#[derive(Drop)]
pub struct Incumbent {
    best: Mutex<Arc<Roster>>,
}

impl Incumbent {
    /// An incumbent that begins with this roster. It takes no memory.
    pub fn new(best: Arc<Roster>) -> Incumbent {
        Incumbent {
            best: Mutex::new(best),
        }
    }

    /// The roster at this moment. There is none only if it can't be shared once more. It may wait for the
    /// lock.
    pub fn look(&self, rt: &impl Wait) -> Option<Arc<Roster>> {
        Arc::try_clone(&*self.best.lock(rt)).ok()
    }

    /// Keeps the earlier of its roster and this one, by `keep_less`. It takes no memory, and may wait for the
    /// lock.
    pub fn raise(&self, rt: &impl Wait, roster: Arc<Roster>) {
        keep_less(&mut self.best.lock(rt), roster);
    }
}

/// Keeps the earlier of two rosters by their keys: the old one if the keys are equal. It takes no memory.
pub fn keep_less(best: &mut Arc<Roster>, roster: Arc<Roster>)
    ensures { arc_value best.new ≡ less_of (arc_value best.old) (arc_value roster) }
{
    if comes_before(&roster, best) {
        *best = roster;
    }
}

/// Looks at an incumbent for a search.
#[derive(Drop)]
pub struct Looker<'a, R> {
    rt: &'a R,
    incumbent: &'a Incumbent,
}

impl<'a, R> Looker<'a, R> {
    /// A sight that shows this incumbent. It may wait for the lock at each look.
    pub fn new(rt: &'a R, incumbent: &'a Incumbent) -> Looker<'a, R> {
        Looker { rt, incumbent }
    }
}

impl<'a, R: Wait> Sight for Looker<'a, R> {
    fn look(&mut self) -> Option<Arc<Roster>> {
        self.incumbent.look(self.rt)
    }
}
