//! Threads that have nothing to do.

use std::sync::atomic::{AtomicBool, AtomicUsize, Ordering};

/// How many threads have nothing to do. No answer rests on it.
#[derive(Drop)]
pub(crate) struct Idle {
    threads: AtomicUsize,
}

impl Idle {
    /// Each has something to do.
    pub(crate) fn nobody() -> Idle {
        Idle {
            threads: AtomicUsize::new(0),
        }
    }

    /// One thread more has nothing to do.
    pub(crate) fn add(&self) {
        self.threads.fetch_add(1, Ordering::SeqCst);
    }

    /// Takes one of them, which then has something to do. False if there is none at the moment.
    pub(crate) fn take(&self) -> bool {
        let all = self.threads.swap(0, Ordering::SeqCst);
        if all == 0 {
            return false;
        }
        self.threads.fetch_add(all - 1, Ordering::SeqCst);
        true
    }
}

/// Two halves of some work. The thread of the half that ends first then has nothing to do; the other one goes
/// on when both have ended.
#[derive(Drop)]
pub(crate) struct Halves {
    one_has_ended: AtomicBool,
}

impl Halves {
    /// Both are still to be done.
    pub(crate) fn both() -> Halves {
        Halves {
            one_has_ended: AtomicBool::new(false),
        }
    }

    /// There is only one, whose thread goes on.
    pub(crate) fn one() -> Halves {
        Halves {
            one_has_ended: AtomicBool::new(true),
        }
    }

    /// A half has ended.
    pub(crate) fn end(&self, idle: &Idle) {
        if !self.one_has_ended.swap(true, Ordering::SeqCst) {
            idle.add();
        }
    }
}
