//! The rules of duties, leave and rest.

use crate::books::is_told;
use roster_legal_reasons::{DutyInLeave, LongBlock, Reason, SharedDuties, ShortRest};
use std::test::Fail;

// P1 is of another base than A.
const OTHER_BASE: &[u8] = b"period,2024-03
base,BAS,UTC0
base,OSL,UTC0
crew,A,OSL,0,0,0
pairing,P0,OSL,100
pairing,P1,BAS,100
duty,Q0,P,P0,OSL,2024-03-02T06:00Z,2024-03-02T14:00Z
duty,Q1,P,P1,BAS,2024-03-04T06:00Z,2024-03-04T14:00Z
";

#[test]
fn a_pairing_of_another_base(rt: HostRuntime) -> Result<(), Fail> {
    is_told(&rt, rt.alloc(), OTHER_BASE, &[0, 0], Some(Reason::Base(1)))
}

// Q1 and Q2 share 90 minutes, and Q2 and Q3 share 30.
const OVERLAP: &[u8] = b"period,2024-03
base,BAS,UTC0
crew,A,BAS,0,0,0
pairing,P1,BAS,100
pairing,P2,BAS,100
pairing,P3,BAS,100
duty,Q1,P,P1,BAS,2024-03-04T06:00Z,2024-03-04T14:00Z
duty,Q2,P,P2,BAS,2024-03-04T12:30Z,2024-03-04T18:00Z
duty,Q3,P,P3,BAS,2024-03-04T17:30Z,2024-03-04T20:00Z
";

#[test]
fn the_first_two_duties_that_overlap(rt: HostRuntime) -> Result<(), Fail> {
    let both = SharedDuties {
        first: 0,
        second: 1,
        minutes: 90,
    };
    is_told(
        &rt,
        rt.alloc(),
        OVERLAP,
        &[0, 0, 0],
        Some(Reason::Overlap(both)),
    )
}

// The first leave is B's. A's begins a minute before the release of Q1.
const LEAVE: &[u8] = b"period,2024-03
base,BAS,UTC0
crew,A,BAS,0,0,0
crew,B,BAS,0,0,0
pairing,P1,BAS,100
duty,Q0,P,P1,BAS,2024-03-02T06:00Z,2024-03-02T14:00Z
duty,Q1,P,P1,BAS,2024-03-04T06:00Z,2024-03-04T14:00Z
leave,B,2024-03-02T00:00Z,2024-03-05T00:00Z
leave,A,2024-03-04T13:59Z,2024-03-05T00:00Z
";

#[test]
fn a_duty_in_a_leave(rt: HostRuntime) -> Result<(), Fail> {
    let told = DutyInLeave {
        duty: 1,
        leave: 1,
        minutes: 1,
    };
    is_told(&rt, rt.alloc(), LEAVE, &[0], Some(Reason::Leave(told)))
}

// After 13 hours of duty 13 hours of rest are needed, and there is a minute less.
const LONG_DUTY: &[u8] = b"period,2024-03
base,BAS,UTC0
crew,A,BAS,0,0,0
pairing,P1,BAS,100
duty,Q1,P,P1,BAS,2024-03-04T06:00Z,2024-03-04T19:00Z
pairing,P2,BAS,100
duty,Q2,P,P2,BAS,2024-03-05T07:59Z,2024-03-05T12:00Z
";

#[test]
fn a_rest_a_minute_shorter_than_the_duty(rt: HostRuntime) -> Result<(), Fail> {
    let short = ShortRest {
        before: 0,
        rest: 779,
        needed: 780,
    };
    is_told(
        &rt,
        rt.alloc(),
        LONG_DUTY,
        &[0, 0],
        Some(Reason::Rest(short)),
    )
}

#[test]
fn one_pairing_is_legal(rt: HostRuntime) -> Result<(), Fail> {
    is_told(&rt, rt.alloc(), LONG_DUTY, &[0, 1], None)
}

#[test]
fn no_pairing_is_legal(rt: HostRuntime) -> Result<(), Fail> {
    is_told(&rt, rt.alloc(), LONG_DUTY, &[1, 1], None)
}

// Q2 has twelve hours of rest before it, at home. Before Q3, away from base, ten hours are needed, and
// there is a minute less.
const AWAY: &[u8] = b"period,2024-03
base,BAS,UTC0
crew,A,BAS,0,0,0
pairing,P1,BAS,100
duty,Q1,P,P1,BAS,2024-03-04T06:00Z,2024-03-04T14:00Z
duty,Q2,P,P1,BAS,2024-03-05T02:00Z,2024-03-05T10:00Z
duty,Q3,P,P1,LHR,2024-03-05T19:59Z,2024-03-05T23:00Z
";

#[test]
fn a_rest_away_from_base(rt: HostRuntime) -> Result<(), Fail> {
    let short = ShortRest {
        before: 1,
        rest: 599,
        needed: 600,
    };
    is_told(&rt, rt.alloc(), AWAY, &[0], Some(Reason::Rest(short)))
}

// Between F0 and F1 lies a recurrent rest. The gap from F2 to F3 holds one night only, and no later one is
// as long; from the report of F1 to the release of Q1 lie seven days and a minute.
const RECOVERY: &[u8] = b"period,2024-03
base,BAS,UTC0
crew,A,BAS,0,0,0
duty,F0,C,A,BAS,2024-03-01T06:00Z,2024-03-01T10:00Z
duty,F1,C,A,BAS,2024-03-04T06:00Z,2024-03-04T16:00Z
duty,F2,C,A,BAS,2024-03-05T02:00Z,2024-03-05T06:00Z
duty,F3,C,A,BAS,2024-03-06T18:00Z,2024-03-06T20:00Z
duty,F4,C,A,BAS,2024-03-08T05:00Z,2024-03-08T07:00Z
duty,F5,C,A,BAS,2024-03-09T18:00Z,2024-03-09T20:00Z
pairing,P1,BAS,100
duty,Q1,P,P1,BAS,2024-03-11T02:00Z,2024-03-11T06:01Z
";

#[test]
fn a_block_a_minute_too_long(rt: HostRuntime) -> Result<(), Fail> {
    let block = LongBlock {
        first: 1,
        last: 6,
        minutes: 10_081,
    };
    is_told(
        &rt,
        rt.alloc(),
        RECOVERY,
        &[0],
        Some(Reason::Recovery(block)),
    )
}

/// Both duties beside a rest are told of, and all of a block, but no duty beyond; a pairing is no duty.
#[test]
fn the_duties_that_a_reason_tells_of(rt: HostRuntime) -> Result<(), Fail> {
    let rest = Reason::Rest(ShortRest {
        before: 1,
        rest: 0,
        needed: 1,
    });
    assert!(rt; !rest.touches(0));
    assert!(rt; rest.touches(1));
    assert!(rt; rest.touches(2));
    assert!(rt; !rest.touches(3));
    let block = Reason::Recovery(LongBlock {
        first: 1,
        last: 3,
        minutes: 1,
    });
    assert!(rt; !block.touches(0));
    assert!(rt; block.touches(2));
    assert!(rt; !block.touches(4));
    assert!(rt; !Reason::Base(1).touches(1));
    Ok(())
}
