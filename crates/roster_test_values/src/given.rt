//! What several tests are given: names, instants, the days of a month, duties, and their lists.

use roster_instants::{BaseDays, Minute, Period, read_minute};
use roster_problem::{Duty, DutyList, Holder};
use roster_values::Name;
use std::process::Abort;

/// The name of a text.
pub fn name(rt: &impl Abort, text: &str) -> Name {
    Name::new(text.as_bytes()).expect(rt, text)
}

/// The instant of a text.
pub fn minute(rt: &impl Abort, text: &str) -> Minute {
    read_minute(text.as_bytes()).expect(rt, text)
}

/// March 2024 at UTC: day 0 is 26 January, day 35 is 1 March, and day 79 is 14 April.
pub fn march<R: Abort + AllocGlobal>(rt: &R) -> BaseDays {
    let period = Period::read(b"2024-03").expect(rt, "a month");
    BaseDays::build(rt.alloc(), "UTC0", period).expect(rt, "days")
}

/// A duty of a pairing that reports at the station, without sectors.
pub fn duty<R: Abort + AllocGlobal>(rt: &R, station: &str, report: &str, release: &str) -> Duty {
    let report = minute(rt, report);
    let release = minute(rt, release);
    assert!(rt; report < release);
    Duty {
        id: name(rt, "D1"),
        holder: Holder::Pairing(0),
        station: name(rt, station),
        report,
        release,
        sectors: Vec::new(rt.alloc()),
        row: 7,
    }
}

/// Such duties, by station, report and release.
pub fn duties<R: Abort + AllocGlobal>(rt: &R, rows: &[(&str, &str, &str)]) -> Vec<Duty> {
    let mut duties = Vec::new(rt.alloc());
    for (station, report, release) in rows {
        duties
            .push(duty(rt, station, report, release))
            .expect(rt, "memory");
    }
    duties
}

/// The list of the duties at the positions.
pub fn list_of<'a, R: Abort + AllocGlobal>(
    rt: &R,
    duties: &'a [Duty],
    positions: &[u16],
) -> DutyList<'a> {
    let positions = Vec::from_slice(rt.alloc(), positions).expect(rt, "memory");
    assert!(rt; positions.iter().all(|p| usize::from(*p) < duties.len()));
    assert!(rt; positions.len() <= 10);
    DutyList::new(duties, positions)
}
