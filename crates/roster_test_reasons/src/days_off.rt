//! Days off in a row. Day 35 of the window is 1 March.

use crate::books::{is_locked, is_told};
use roster_legal_reasons::{FewDaysOff, Reason};
use std::test::Fail;

// A has duty on 5 March and each second day after it, and P1 is on the 3rd: only the 1st and the 2nd are two
// days off in a row.
const ONE_PAIR: &[u8] = b"period,2024-03
base,BAS,UTC0
crew,A,BAS,0,0,0
duty,F1,C,A,BAS,2024-03-05T10:00Z,2024-03-05T12:00Z
duty,F2,C,A,BAS,2024-03-07T10:00Z,2024-03-07T12:00Z
duty,F3,C,A,BAS,2024-03-09T10:00Z,2024-03-09T12:00Z
duty,F4,C,A,BAS,2024-03-11T10:00Z,2024-03-11T12:00Z
duty,F5,C,A,BAS,2024-03-13T10:00Z,2024-03-13T12:00Z
duty,F6,C,A,BAS,2024-03-15T10:00Z,2024-03-15T12:00Z
duty,F7,C,A,BAS,2024-03-17T10:00Z,2024-03-17T12:00Z
duty,F8,C,A,BAS,2024-03-19T10:00Z,2024-03-19T12:00Z
duty,F9,C,A,BAS,2024-03-21T10:00Z,2024-03-21T12:00Z
duty,F10,C,A,BAS,2024-03-23T10:00Z,2024-03-23T12:00Z
duty,F11,C,A,BAS,2024-03-25T10:00Z,2024-03-25T12:00Z
duty,F12,C,A,BAS,2024-03-27T10:00Z,2024-03-27T12:00Z
duty,F13,C,A,BAS,2024-03-29T10:00Z,2024-03-29T12:00Z
duty,F14,C,A,BAS,2024-03-31T10:00Z,2024-03-31T12:00Z
pairing,P1,BAS,100
duty,Q1,P,P1,BAS,2024-03-03T10:00Z,2024-03-03T12:00Z
";

#[test]
fn one_pair_is_left(rt: HostRuntime) -> Result<(), Fail> {
    let wanted = Some(Reason::DaysOff(FewDaysOff::OnePair(35)));
    is_told(&rt, rt.alloc(), ONE_PAIR, &[0], wanted)
}

#[test]
fn no_pairing_locks_nobody(rt: HostRuntime) -> Result<(), Fail> {
    is_locked(&rt, rt.alloc(), ONE_PAIR, None)
}

// From the 2nd to the 4th are three days off in a row, and all others stand alone.
const THREE_DAYS: &[u8] = b"period,2024-03
base,BAS,UTC0
crew,A,BAS,0,0,0
duty,F1,C,A,BAS,2024-03-01T10:00Z,2024-03-01T12:00Z
duty,F2,C,A,BAS,2024-03-05T10:00Z,2024-03-05T12:00Z
duty,F3,C,A,BAS,2024-03-07T10:00Z,2024-03-07T12:00Z
duty,F4,C,A,BAS,2024-03-09T10:00Z,2024-03-09T12:00Z
duty,F5,C,A,BAS,2024-03-11T10:00Z,2024-03-11T12:00Z
duty,F6,C,A,BAS,2024-03-13T10:00Z,2024-03-13T12:00Z
duty,F7,C,A,BAS,2024-03-15T10:00Z,2024-03-15T12:00Z
duty,F8,C,A,BAS,2024-03-17T10:00Z,2024-03-17T12:00Z
duty,F9,C,A,BAS,2024-03-19T10:00Z,2024-03-19T12:00Z
duty,F10,C,A,BAS,2024-03-21T10:00Z,2024-03-21T12:00Z
duty,F11,C,A,BAS,2024-03-23T10:00Z,2024-03-23T12:00Z
duty,F12,C,A,BAS,2024-03-25T10:00Z,2024-03-25T12:00Z
duty,F13,C,A,BAS,2024-03-27T10:00Z,2024-03-27T12:00Z
duty,F14,C,A,BAS,2024-03-29T10:00Z,2024-03-29T12:00Z
duty,F15,C,A,BAS,2024-03-31T10:00Z,2024-03-31T12:00Z
";

#[test]
fn three_days_in_a_row(rt: HostRuntime) -> Result<(), Fail> {
    let wanted = Some(Reason::DaysOff(FewDaysOff::ThreeDays(36)));
    is_locked(&rt, rt.alloc(), THREE_DAYS, wanted)
}

// Each day off stands alone.
const NO_PAIR: &[u8] = b"period,2024-03
base,BAS,UTC0
crew,A,BAS,0,0,0
duty,F1,C,A,BAS,2024-03-01T10:00Z,2024-03-01T12:00Z
duty,F2,C,A,BAS,2024-03-03T10:00Z,2024-03-03T12:00Z
duty,F3,C,A,BAS,2024-03-05T10:00Z,2024-03-05T12:00Z
duty,F4,C,A,BAS,2024-03-07T10:00Z,2024-03-07T12:00Z
duty,F5,C,A,BAS,2024-03-09T10:00Z,2024-03-09T12:00Z
duty,F6,C,A,BAS,2024-03-11T10:00Z,2024-03-11T12:00Z
duty,F7,C,A,BAS,2024-03-13T10:00Z,2024-03-13T12:00Z
duty,F8,C,A,BAS,2024-03-15T10:00Z,2024-03-15T12:00Z
duty,F9,C,A,BAS,2024-03-17T10:00Z,2024-03-17T12:00Z
duty,F10,C,A,BAS,2024-03-19T10:00Z,2024-03-19T12:00Z
duty,F11,C,A,BAS,2024-03-21T10:00Z,2024-03-21T12:00Z
duty,F12,C,A,BAS,2024-03-23T10:00Z,2024-03-23T12:00Z
duty,F13,C,A,BAS,2024-03-25T10:00Z,2024-03-25T12:00Z
duty,F14,C,A,BAS,2024-03-27T10:00Z,2024-03-27T12:00Z
duty,F15,C,A,BAS,2024-03-29T10:00Z,2024-03-29T12:00Z
duty,F16,C,A,BAS,2024-03-31T10:00Z,2024-03-31T12:00Z
";

#[test]
fn no_pair_at_all(rt: HostRuntime) -> Result<(), Fail> {
    let wanted = Some(Reason::DaysOff(FewDaysOff::NoPair));
    is_locked(&rt, rt.alloc(), NO_PAIR, wanted)
}
