//! The records of bases and persons.

use crate::asked::Asked;
use crate::draft::Draft;
use crate::taken::Taken;
use jiff::civil::Date;
use roster_desk_fault::Kind;
use roster_desk_folder::{Flown, Tables};
use std::alloc::AllocError;

/// The months before that count in `ELEVEN`.
const ELEVEN: i32 = 11;

/// The minutes of flight that a person has carried into the month.
#[derive(Clone, Copy)]
struct Carried {
    // Of the calendar year.
    year: u32,
    // Of the eleven months before.
    eleven: u32,
}

/// The records of the bases that are asked for.
pub(crate) fn push_bases(
    draft: &mut Draft,
    asked: &Asked<'_>,
    tables: &Tables,
) -> Result<(), AllocError> {
    for base in &tables.stations.bases {
        if asked.has_base(base.name.as_slice()) {
            draft.push(
                Kind::Base,
                base.place,
                &[b"base", base.name.as_slice(), base.rule.as_slice()],
            )?;
        }
    }
    Ok(())
}

/// The number of a month, counted from the year 0.
fn month_number(date: Date) -> i32 {
    i32::from(date.year())
        .saturating_mul(12)
        .saturating_add(i32::from(date.month()))
}

/// How many months the first one is before the second.
fn months_before(month: Date, first: Date) -> i32 {
    month_number(first).saturating_sub(month_number(month))
}

/// What was carried, with one more month.
fn with_month(carried: Carried, flown: &Flown, first: Date) -> Carried {
    let before = months_before(flown.month, first);
    let year = if before > 0 && flown.month.year() == first.year() {
        flown.minutes
    } else {
        0
    };
    let eleven = if (1..=ELEVEN).contains(&before) {
        flown.minutes
    } else {
        0
    };
    Carried {
        year: carried.year.saturating_add(year),
        eleven: carried.eleven.saturating_add(eleven),
    }
}

/// What the person at the place has carried into the month that begins with the date.
fn carried_of(tables: &Tables, k: usize, first: Date) -> Carried {
    let mut carried = Carried { year: 0, eleven: 0 };
    for flown in &tables.flown {
        if flown.person == k {
            carried = with_month(carried, flown, first);
        }
    }
    carried
}

/// The records of the persons.
pub(crate) fn push_crew(
    draft: &mut Draft,
    asked: &Asked<'_>,
    tables: &Tables,
    taken: &Taken,
) -> Result<(), AllocError> {
    let alloc = draft.alloc;
    for (k, person) in tables.persons.iter().enumerate() {
        if taken.has_person(k) {
            let carried = carried_of(tables, k, asked.first());
            let target = person.target.to_string(alloc)?;
            let year = carried.year.to_string(alloc)?;
            let eleven = carried.eleven.to_string(alloc)?;
            draft.push(
                Kind::Crew,
                person.place,
                &[
                    b"crew",
                    person.name.as_slice(),
                    person.base.as_slice(),
                    target.as_bytes(),
                    year.as_bytes(),
                    eleven.as_bytes(),
                ],
            )?;
        }
    }
    Ok(())
}
