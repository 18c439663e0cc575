//! The incumbent, and what it shows.

use crate::spans::{found_in_two_days, is, shared};
use roster_branchtree::Sight;
use roster_incumbent::{Incumbent, Looker};
use roster_test_books::BEST;
use std::test::Fail;

#[test]
fn the_earliest_roster_is_shown(rt: HostRuntime) -> Result<(), Fail> {
    let incumbent = Incumbent::new(shared(rt.alloc(), &[1, 1], 200)?);
    incumbent.raise(&rt, shared(rt.alloc(), &[1, 0], 100)?);
    incumbent.raise(&rt, shared(rt.alloc(), &[0, 1], 100)?);
    incumbent.raise(&rt, shared(rt.alloc(), &[1, 0], 100)?);
    let shown = incumbent.look(&rt).ok_or("a roster")?;
    assert!(rt; is(&shown, &[0, 1], 100));
    Ok(())
}

/// No place and no cost is too bad for an incumbent, so a search has to look at both.
#[test]
fn a_sight_shows_what_was_raised_meanwhile(rt: HostRuntime) -> Result<(), Fail> {
    let incumbent = Incumbent::new(shared(rt.alloc(), BEST, 0)?);
    let mut sight = Looker::new(&rt, &incumbent);
    incumbent.raise(&rt, shared(rt.alloc(), BEST, i64::MIN)?);
    let shown = sight.look().ok_or("a roster")?;
    assert!(rt; is(&shown, BEST, i64::MIN));
    let best = found_in_two_days(rt.alloc(), &mut sight)?;
    assert!(rt; is(&best, BEST, 0));
    Ok(())
}
