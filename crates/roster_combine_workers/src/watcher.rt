//! Looks of a worker's search, at a gate.

use roster_incumbent::{Gate, Incumbent, Point, Sight};
use roster_values::Roster;
use std::sync::{Arc, Wait};

/// Looks at the incumbent for a worker's search, and passes the gate before each look.
#[derive(Drop)]
pub(crate) struct Watcher<'a, R, G> {
    pub(crate) rt: &'a R,
    pub(crate) incumbent: &'a Incumbent,
    pub(crate) gate: &'a G,
    pub(crate) worker: usize,
}

impl<'a, R: Wait, G: Gate> Sight for Watcher<'a, R, G> {
    fn look(&mut self) -> Option<Arc<Roster>> {
        self.gate.pass(self.worker, Point::Look);
        self.incumbent.look(self.rt)
    }
}
