//! Which change is tried next.

use crate::search::Search;
use crate::sets::{only, without};
use crate::tables::Tables;
use roster_values::Set;
use std::alloc::AllocError;

/// The minutes of a day.
const DAY: i64 = 24 * 60;

/// So often two persons give each other what hinders what they get; more would be most of what they
/// have.
const MOST_EXCHANGES: usize = 8;

impl<'a> Search<'a> {
    /// Makes the next changes: none, if nothing comes to mind.
    pub(crate) fn change(&mut self) -> Result<(), AllocError> {
        self.changes.clear();
        let p = self.next_pairing();
        let Some(holder) = self.holder(p) else {
            let nobody = self.tables.persons();
            let k = self.taker(p, nobody);
            return self.give(p, k);
        };
        match self.random.below(8) {
            0 => self.leave(p, holder),
            1 | 2 => {
                let k = self.taker(p, holder);
                self.leave(p, holder)?;
                self.give(p, k)
            }
            _ => {
                let k = self.taker(p, holder);
                self.exchange(p, holder, k)
            }
        }
    }

    /// Places an open pairing with whom it costs least.
    pub(crate) fn fill(&mut self, p: usize) -> Result<(), AllocError> {
        self.changes.clear();
        self.place(p)
    }

    /// A random pairing, more often than not an open one, if there is one.
    fn next_pairing(&mut self) -> usize {
        let p = self.some_pairing();
        if self.random.below(2) == 0 {
            return p;
        }
        match self.open().first_from(p) {
            Some(q) => q,
            None => self.open().first_from(0).unwrap_or(p),
        }
    }

    /// A random person who can fly the pairing and hasn't got it; past all, if there is none.
    fn taker(&mut self, p: usize, holder: usize) -> usize {
        let count = self.tables.persons();
        let first = self.random.below(count);
        for step in 0..count {
            let k = first.wrapping_add(step) % count;
            if k != holder && self.tables.able(k).has(p) {
                return k;
            }
        }
        count
    }

    /// Person `k` loses the pairing.
    fn leave(&mut self, p: usize, k: usize) -> Result<(), AllocError> {
        let rest = without(&self.set(k), &only(p));
        self.changes.put(k, rest)
    }

    /// Person `k` gets the pairing, and what they can't fly with it goes to others, if somebody takes it.
    fn give(&mut self, p: usize, k: usize) -> Result<(), AllocError> {
        if k >= self.tables.persons() {
            return Ok(());
        }
        let had = self.set(k);
        let loose = had.and(&self.tables.rivals(p));
        self.changes.put(k, without(&had, &loose).or(&only(p)))?;
        let mut from = 0;
        while let Some(q) = loose.first_from(from) {
            self.place(q)?;
            from = q + 1;
        }
        Ok(())
    }

    /// Gives the pairing, which nobody has, to whom it costs least and less than to leave it open.
    fn place(&mut self, p: usize) -> Result<(), AllocError> {
        let rivals = self.tables.rivals(p);
        let mut least = self.tables.penalty(p);
        let mut best = None;
        for k in 0..self.tables.persons() {
            let had = self.set(k);
            if !self.tables.able(k).has(p) || had.meets(&rivals) {
                continue;
            }
            let extra = self.tables.more(k, self.flight(k), p);
            if extra < least {
                least = extra;
                best = Some((k, had.or(&only(p))));
            }
        }
        if let Some((k, with)) = best {
            self.changes.put(k, with)?;
        }
        Ok(())
    }

    /// Two persons exchange a pairing, or what begins in some days from it on, and what that hinders.
    fn exchange(&mut self, p: usize, holder: usize, k: usize) -> Result<(), AllocError> {
        if k >= self.tables.persons() {
            return Ok(());
        }
        let (first, second) = (self.set(holder), self.set(k));
        let days = self.days();
        let (from_first, from_second) = exchanged(&self.tables, &first, &second, p, days);
        if !can_fly(&self.tables, k, &from_first) || !can_fly(&self.tables, holder, &from_second) {
            return Ok(());
        }
        self.changes
            .put(holder, without(&first, &from_first).or(&from_second))?;
        self.changes
            .put(k, without(&second, &from_second).or(&from_first))
    }

    /// How many days two persons exchange; 0 for a single pairing.
    fn days(&mut self) -> i64 {
        match self.random.below(4) {
            0 | 1 => 0,
            2 => self.random.below(8) as i64,
            _ => 100,
        }
    }
}

/// What two persons give each other of their sets: the pairing, or what begins in so many days from it on, and
/// what that hinders.
fn exchanged(tables: &Tables<'_>, first: &Set, second: &Set, p: usize, days: i64) -> (Set, Set) {
    if days > 0 {
        let begin = tables.begin(p);
        let last = begin.wrapping_add(days.wrapping_mul(DAY));
        let from_first = tables.between(first, begin, last);
        let from_second = tables.between(second, begin, last);
        return with_hindered(tables, first, second, &from_first, &from_second);
    }
    with_hindered(tables, first, second, &only(p), &Set::empty())
}

/// These, and what of each set can't be flown with what comes from the other.
fn with_hindered(
    tables: &Tables<'_>,
    first: &Set,
    second: &Set,
    from_first: &Set,
    from_second: &Set,
) -> (Set, Set) {
    let mut from_first = *from_first;
    let mut from_second = *from_second;
    for _ in 0..MOST_EXCHANGES {
        let (first_before, second_before) = (from_first, from_second);
        from_second = from_second.or(&tables.meeting(second, &from_first));
        from_first = from_first.or(&tables.meeting(first, &from_second));
        if without(&from_first, &first_before).is_empty()
            && without(&from_second, &second_before).is_empty()
        {
            break;
        }
    }
    (from_first, from_second)
}

/// Whether person `k` can fly each pairing of the set alone.
fn can_fly(tables: &Tables<'_>, k: usize, set: &Set) -> bool {
    without(set, &tables.able(k)).is_empty()
}
