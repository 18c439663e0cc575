//! Workers that meet.

use crate::books::{TWO_BASES, is};
use crate::threads::solved;
use roster_combine::{Gate, Point};
use roster_test_books::{BEST, TWO_DAYS};
use std::alloc::Global;
use std::process::Abort;
use std::sync::Wait;
use std::sync::atomic::{AtomicBool, AtomicUsize, Ordering};
use std::test::Fail;
use std::thread::Threads;

/// How often a worker looks for the other one: some tenths of a second.
const LOOKS: u64 = 200_000_000;

/// A gate where each of two workers, when it first comes to a point, looks for the other there.
#[derive(Drop)]
struct Meeting {
    point: Point,
    first: AtomicBool,
    second: AtomicBool,
    alone: AtomicBool,
}

impl Meeting {
    /// Nobody has come to the point.
    fn at(point: Point) -> Meeting {
        Meeting {
            point,
            first: AtomicBool::new(false),
            second: AtomicBool::new(false),
            alone: AtomicBool::new(false),
        }
    }

    /// Whether both came, and neither looked for the other in vain.
    fn took_place(&self) -> bool {
        self.first.load(Ordering::SeqCst)
            && self.second.load(Ordering::SeqCst)
            && !self.alone.load(Ordering::SeqCst)
    }
}

/// Whether the other one comes while it is looked for.
fn comes(other: &AtomicBool) -> bool {
    for _ in 0..LOOKS {
        if other.load(Ordering::SeqCst) {
            return true;
        }
    }
    false
}

impl Gate for Meeting {
    fn pass(&self, worker: usize, point: Point) {
        if point != self.point {
            return;
        }
        let (mine, other) = if worker == 0 {
            (&self.first, &self.second)
        } else {
            (&self.second, &self.first)
        };
        if !mine.swap(true, Ordering::SeqCst) && !comes(other) {
            self.alone.store(true, Ordering::SeqCst);
        }
    }
}

/// Whether two workers meet at the point, and find the best roster of the book, which has these places.
fn meet<R: Threads + Wait + Sync>(
    rt: &R,
    alloc: Global,
    book: &[u8],
    best: &[u16],
    point: Point,
) -> Result<bool, Fail> {
    let meeting = Meeting::at(point);
    let solved = solved(rt, alloc, book, 2, &meeting)?;
    Ok(is(&solved, best, 0) && meeting.took_place())
}

/// One after the other, each would look in vain. Here, who looks is in the search of a base, of which no two
/// threads take the same.
#[test]
fn two_workers_search_two_bases_at_one_time(rt: HostRuntime) -> Result<(), Fail> {
    assert!(rt; meet(&rt, rt.alloc(), TWO_BASES, &[0, 1], Point::Base)?);
    Ok(())
}

#[test]
fn two_workers_have_parts_at_one_time(rt: HostRuntime) -> Result<(), Fail> {
    assert!(rt; meet(&rt, rt.alloc(), TWO_DAYS, BEST, Point::Ready)?);
    Ok(())
}

#[test]
fn two_workers_search_at_one_time(rt: HostRuntime) -> Result<(), Fail> {
    assert!(rt; meet(&rt, rt.alloc(), TWO_DAYS, BEST, Point::Look)?);
    Ok(())
}

/// A gate that counts the parts that are begun, and those that are finished.
#[derive(Drop)]
struct Counting {
    bases: AtomicUsize,
    ready: AtomicUsize,
    looks: AtomicUsize,
    finished: AtomicUsize,
}

impl Gate for Counting {
    fn pass(&self, _worker: usize, point: Point) {
        let count = match point {
            Point::Base => &self.bases,
            Point::Ready => &self.ready,
            Point::Look => &self.looks,
            Point::Finished => &self.finished,
        };
        count.fetch_add(1, Ordering::SeqCst);
    }
}

/// A base was searched; several parts were begun, workers looked in them, and all of them are finished.
fn are_finished(rt: &impl Abort, counting: &Counting) {
    assert!(rt; counting.bases.load(Ordering::SeqCst) > 0);
    let ready = counting.ready.load(Ordering::SeqCst);
    // Who comes first splits the root. The others may come when all is done.
    assert!(rt; ready >= 2);
    assert!(rt; counting.looks.load(Ordering::SeqCst) > 0);
    assert!(rt; counting.finished.load(Ordering::SeqCst) == ready);
}

#[test]
fn each_part_begun_is_finished(rt: HostRuntime) -> Result<(), Fail> {
    let counting = Counting {
        bases: AtomicUsize::new(0),
        ready: AtomicUsize::new(0),
        looks: AtomicUsize::new(0),
        finished: AtomicUsize::new(0),
    };
    assert!(rt; is(&solved(&rt, rt.alloc(), TWO_DAYS, 3, &counting)?, BEST, 0));
    are_finished(&rt, &counting);
    Ok(())
}
