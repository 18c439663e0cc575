//! The records of wishes.

use crate::draft::Draft;
use crate::pairings::copy_name;
use crate::spans::{Span, day_of};
use crate::taken::{Taken, duties_of};
use roster_desk_fault::Kind;
use roster_desk_folder::{Pairing, Person, Tables, Wanted, Wish};
use roster_desk_sheets::Place;
use std::alloc::{AllocError, Global};

/// What it costs that a person flies a pairing.
#[derive(Clone, Copy)]
struct Cost {
    // The places of both.
    person: usize,
    pairing: usize,
    units: i64,
    place: Place,
}

/// From the first report of the pairing at the place to its last release.
fn span_of(tables: &Tables, p: usize) -> Option<Span> {
    let duties = duties_of(tables, p);
    Some(Span {
        from: duties.first()?.report.as_second(),
        to: duties.last()?.release.as_second(),
    })
}

/// Whether the wish is about the pairing at the place.
fn is_about(tables: &Tables, wish: &Wish, person: &Person, p: usize, pairing: &Pairing) -> bool {
    match wish.wanted {
        Wanted::Pairing(wanted) => tables
            .pairings
            .get(wanted)
            .is_some_and(|other| other.name == pairing.name),
        Wanted::On(date) => {
            let zone = tables.stations.zone(person.base.as_slice());
            let day = zone.and_then(|zone| day_of(zone, date));
            match (day, span_of(tables, p)) {
                (Some(day), Some(span)) => {
                    person.base == pairing.base && !day.within(span).is_empty()
                }
                _ => false,
            }
        }
    }
}

/// Puts what a wish costs behind the others.
fn push_wish(
    costs: &mut Vec<Cost>,
    tables: &Tables,
    taken: &Taken,
    wish: &Wish,
) -> Result<(), AllocError> {
    let Some(person) = tables.persons.get(wish.person) else {
        return Ok(());
    };
    for (p, pairing) in tables.pairings.iter().enumerate() {
        if taken.has_pairing(p) && is_about(tables, wish, person, p, pairing) {
            costs.push(Cost {
                person: wish.person,
                pairing: p,
                units: wish.units,
                place: wish.place,
            })?;
        }
    }
    Ok(())
}

/// What all wishes cost, person by person, pairing by pairing.
fn costs_of(alloc: Global, tables: &Tables, taken: &Taken) -> Result<Vec<Cost>, AllocError> {
    let mut costs = Vec::new(alloc);
    for wish in &tables.wishes {
        if taken.has_person(wish.person) {
            push_wish(&mut costs, tables, taken, wish)?;
        }
    }
    costs.sort_by_key(|cost| (cost.person, cost.pairing))?;
    Ok(costs)
}

/// Both as one, if they are of one person and one pairing.
fn added(one: Cost, other: Cost) -> Option<Cost> {
    if one.person != other.person || one.pairing != other.pairing {
        return None;
    }
    let units = one.units.saturating_add(other.units);
    Some(Cost { units, ..one })
}

/// The records of a cost, one for each copy of the pairing.
fn push_cost(draft: &mut Draft, tables: &Tables, cost: Cost) -> Result<(), AllocError> {
    let (Some(person), Some(pairing)) = (
        tables.persons.get(cost.person),
        tables.pairings.get(cost.pairing),
    ) else {
        return Ok(());
    };
    let units = cost.units.to_string(draft.alloc)?;
    for n in 0..pairing.count {
        let name = copy_name(
            draft.alloc,
            pairing.name.as_slice(),
            pairing.count,
            n.saturating_add(1),
        )?;
        draft.push(
            Kind::Cost,
            cost.place,
            &[
                b"cost",
                person.name.as_slice(),
                name.as_slice(),
                units.as_bytes(),
            ],
        )?;
    }
    Ok(())
}

/// The records of the wishes: those of one person for one pairing are added.
pub(crate) fn push_costs(
    draft: &mut Draft,
    tables: &Tables,
    taken: &Taken,
) -> Result<(), AllocError> {
    let costs = costs_of(draft.alloc, tables, taken)?;
    let mut open: Option<Cost> = None;
    for cost in &costs {
        open = match open {
            None => Some(*cost),
            Some(before) => match added(before, *cost) {
                Some(both) => Some(both),
                None => {
                    push_cost(draft, tables, before)?;
                    Some(*cost)
                }
            },
        };
    }
    match open {
        Some(last) => push_cost(draft, tables, last),
        None => Ok(()),
    }
}
