//! The records of pairings and fixed duties.

use crate::asked::Asked;
use crate::draft::Draft;
use crate::spans::{Span, second_text, window_of};
use crate::taken::{Taken, duties_of};
use roster_desk_fault::Kind;
use roster_desk_folder::{Activity, Duty, Pairing, Sector, Tables};
use roster_desk_times::instant_text;
use std::alloc::{AllocError, Global};

/// The name of one of so many copies: with its number, if there is more than one.
pub(crate) fn copy_name(
    alloc: Global,
    name: &[u8],
    copies: i64,
    n: i64,
) -> Result<Vec<u8>, AllocError> {
    let mut out = Vec::from_slice(alloc, name)?;
    if copies > 1 {
        let number = format!(in alloc; "-{n}")?;
        out.extend_from_slice(number.as_bytes())?;
    }
    Ok(out)
}

/// The name of a duty: its own, or else a number that counts all duties.
fn duty_name(alloc: Global, duty: &Duty, i: usize) -> Result<Vec<u8>, AllocError> {
    if !duty.name.is_empty() {
        return Vec::from_slice(alloc, duty.name.as_slice());
    }
    let number = i.saturating_add(1);
    let name = format!(in alloc; "D{number}")?;
    Vec::from_slice(alloc, name.as_bytes())
}

/// Those of the sectors that are of the duty at the place.
fn sectors_of(sectors: &[Sector], i: usize) -> &[Sector] {
    let from = sectors.partition_point(|sector| sector.duty < i);
    let to = sectors.partition_point(|sector| sector.duty <= i);
    sectors.get(from..to).unwrap_or(&[])
}

/// The records of those of the sectors that are of the duty at the place, which has the name.
fn push_sectors(
    draft: &mut Draft,
    sectors: &[Sector],
    i: usize,
    name: &[u8],
) -> Result<(), AllocError> {
    for sector in sectors_of(sectors, i) {
        let off = instant_text(draft.alloc, sector.off)?;
        let on = instant_text(draft.alloc, sector.on)?;
        let letter = if sector.operates {
            b"O".as_slice()
        } else {
            b"P".as_slice()
        };
        draft.push(
            Kind::Sector,
            sector.place,
            &[b"sector", name, letter, off.as_bytes(), on.as_bytes()],
        )?;
    }
    Ok(())
}

/// The record of a duty of the pairing that has the name.
fn push_duty<'a>(
    draft: &mut Draft,
    duty: &Duty,
    name: &'a [u8],
    pairing: &'a [u8],
) -> Result<(), AllocError> {
    let report = instant_text(draft.alloc, duty.report)?;
    let release = instant_text(draft.alloc, duty.release)?;
    draft.push(
        Kind::Duty,
        duty.place,
        &[
            b"duty",
            name,
            b"P",
            pairing,
            duty.station.as_slice(),
            report.as_bytes(),
            release.as_bytes(),
        ],
    )
}

/// The records of one copy of a pairing, whose first duty has the place.
fn push_copy(
    draft: &mut Draft,
    tables: &Tables,
    pairing: &Pairing,
    duties: &[Duty],
    first: usize,
    n: i64,
) -> Result<(), AllocError> {
    let alloc = draft.alloc;
    let copies = pairing.count;
    let name = copy_name(alloc, pairing.name.as_slice(), copies, n)?;
    let penalty = pairing.penalty.to_string(alloc)?;
    draft.push(
        Kind::Pairing,
        pairing.place,
        &[
            b"pairing",
            name.as_slice(),
            pairing.base.as_slice(),
            penalty.as_bytes(),
        ],
    )?;
    for (j, duty) in duties.iter().enumerate() {
        let i = first.saturating_add(j);
        let own = duty_name(alloc, duty, i)?;
        let own = copy_name(alloc, own.as_slice(), copies, n)?;
        push_duty(draft, duty, own.as_slice(), name.as_slice())?;
        push_sectors(draft, tables.sectors.as_slice(), i, own.as_slice())?;
    }
    Ok(())
}

/// The records of the pairings, their duties and sectors.
pub(crate) fn push_pairings(
    draft: &mut Draft,
    tables: &Tables,
    taken: &Taken,
) -> Result<(), AllocError> {
    for (p, pairing) in tables.pairings.iter().enumerate() {
        if taken.has_pairing(p) {
            let first = tables.duties.partition_point(|duty| duty.pairing < p);
            let duties = duties_of(tables, p);
            for n in 0..pairing.count {
                push_copy(draft, tables, pairing, duties, first, n.saturating_add(1))?;
            }
        }
    }
    Ok(())
}

/// Whether the activity lies in the window of the month, at the base of the person of the book.
fn is_in_window(asked: &Asked<'_>, tables: &Tables, activity: &Activity) -> bool {
    let Some(person) = tables.persons.get(activity.person) else {
        return false;
    };
    let Some(zone) = tables.stations.zone(person.base.as_slice()) else {
        return false;
    };
    let span = Span {
        from: activity.from.as_second(),
        to: activity.to.as_second(),
    };
    window_of(zone, asked.first()).is_some_and(|window| window.holds(span))
}

/// The records of the activity at the place, as a fixed duty, and of its sectors.
fn push_activity(
    draft: &mut Draft,
    tables: &Tables,
    activity: &Activity,
    i: usize,
) -> Result<(), AllocError> {
    let Some(person) = tables.persons.get(activity.person) else {
        return Ok(());
    };
    let mut name = Vec::from_slice(draft.alloc, activity.code.as_slice())?;
    let number = i.saturating_add(1);
    let number = format!(in draft.alloc; "-{number}")?;
    name.extend_from_slice(number.as_bytes())?;
    let from = second_text(draft.alloc, activity.from.as_second())?;
    let to = second_text(draft.alloc, activity.to.as_second())?;
    draft.push(
        Kind::Duty,
        activity.place,
        &[
            b"duty",
            name.as_slice(),
            b"C",
            person.name.as_slice(),
            activity.station.as_slice(),
            from.as_bytes(),
            to.as_bytes(),
        ],
    )?;
    push_sectors(draft, tables.flights.as_slice(), i, name.as_slice())
}

/// The records of activities that lie in the window.
pub(crate) fn push_activities(
    draft: &mut Draft,
    asked: &Asked<'_>,
    tables: &Tables,
    taken: &Taken,
) -> Result<(), AllocError> {
    for (i, activity) in tables.activities.iter().enumerate() {
        if taken.has_person(activity.person) && is_in_window(asked, tables, activity) {
            push_activity(draft, tables, activity, i)?;
        }
    }
    Ok(())
}
