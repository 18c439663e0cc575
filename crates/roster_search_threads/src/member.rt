//! One of the threads that search a region together.

use crate::idle::Idle;
use roster_incumbent::Incumbent;
use roster_search::Stop;
use roster_values::Roster;
use std::alloc::Global;
use std::sync::{Arc, Wait};

/// A thread hands nothing over before it has looked at so many lines: they take some milliseconds, and to
/// start a thread takes some fifty microseconds.
const FEWEST_LINES: usize = 1 << 15;

/// So often what is handed over may be halved again, half by half. Each time a thread waits for the half that
/// it handed over, so there is an end to it.
pub(crate) const MOST_TIMES: usize = 256;

/// After so many halves in a row it looks at twice as many lines first, so that not even the halves of a long
/// search come to an end.
const TIMES_A_DOUBLING: usize = 16;

/// One of the threads that search a region together. It sees at each node what the cheapest roster costs that
/// any of them has found, and stops if one of those that have nothing to do is to have half of its nodes.
#[derive(Drop)]
pub(crate) struct Member<'a, R> {
    rt: &'a R,
    alloc: Global,
    best: &'a Incumbent,
    idle: &'a Idle,
    may_hand_over: bool,
    // At how many lines it looks first.
    patience: usize,
    // At how many lines it has looked.
    lines: usize,
}

impl<'a, R: Wait> Member<'a, R> {
    /// A thread that has looked at nothing, and whose nodes may be halved so often.
    pub(crate) fn new(
        rt: &'a R,
        alloc: Global,
        best: &'a Incumbent,
        idle: &'a Idle,
        times: usize,
    ) -> Member<'a, R> {
        Member {
            rt,
            alloc,
            best,
            idle,
            may_hand_over: times > 0,
            patience: patience(times),
            lines: 0,
        }
    }
}

impl<'a, R: Wait> Stop for Member<'a, R> {
    ghost goes_on = { λ old new. Unit };

    fn node(&mut self, lines: usize, others: usize) -> bool {
        let has_half = others > 0 && self.lines >= self.patience && self.may_hand_over;
        if has_half && self.idle.take() {
            return false;
        }
        self.lines = self.lines.saturating_add(lines);
        true
    }

    fn shown(&mut self) -> Option<Arc<Roster>> {
        self.best.look(self.rt)
    }

    /// Without memory the others don't see it. It is handed in all the same.
    fn found(&mut self, roster: &Roster) {
        let Ok(roster) = roster.copy(self.alloc) else {
            return;
        };
        if let Ok(roster) = Arc::new(self.alloc, roster) {
            self.best.raise(self.rt, roster);
        }
    }

    ghost stays = { λ now. tt };

    ghost follows = { λ old mid new first then. tt };
}

/// At how many lines a thread looks first whose nodes may be halved so often.
fn patience(times: usize) -> usize {
    let halved = MOST_TIMES.saturating_sub(times);
    FEWEST_LINES << (halved / TIMES_A_DOUBLING)
}
