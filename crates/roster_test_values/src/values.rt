//! Names, rules, sets, duty lists and places.

use crate::given::{duties, duty, list_of, minute, name};
use roster_model::limits::{MOST_PAIRINGS, MOST_PERSONS};
use roster_problem::{Cost, Costs, Duty, DutyList, Sector};
use roster_values::{Name, Places, Rule, Set};
use std::process::Abort;
use std::test::Fail;

#[test]
fn identifiers_are_told(rt: HostRuntime) {
    for &text in &["A", "a-1_", "0123456789abcdef"] {
        assert!(rt; name(&rt, text).as_bytes() == text.as_bytes(), "{text}");
    }
    for &text in &["", "-A", "_A", "A B", "A.", "0123456789abcdefg", "Å"] {
        assert!(rt; Name::new(text.as_bytes()).is_none(), "{text}");
    }
}

#[test]
fn rules_have_words(rt: HostRuntime) {
    let words = &[
        "BASE",
        "OVERLAP",
        "LEAVE",
        "REST",
        "RECOVERY",
        "DUTY7",
        "DUTY14",
        "DUTY28",
        "FLIGHT28",
        "FLIGHTYEAR",
        "FLIGHT12",
        "DAYS2",
    ];
    for (rule, &word) in Rule::ALL.iter().zip(words) {
        assert!(rt; rule.word() == word);
        for other in &Rule::ALL {
            assert!(rt; (rule == other) == (other.word() == word));
        }
    }
}

/// The last place that a set may have.
const LAST: usize = MOST_PAIRINGS - 1;

/// The set of these places.
fn set_of(places: &[usize]) -> Set {
    let mut set = Set::empty();
    for place in places {
        if *place < MOST_PAIRINGS {
            set.put(*place);
        }
    }
    set
}

#[test]
fn a_set_has_what_was_put_into_it(rt: HostRuntime) {
    let set = set_of(&[200, 3, 64, 63, LAST, 3]);
    for &(place, is_in) in &[
        (3, true),
        (63, true),
        (64, true),
        (200, true),
        (LAST, true),
        (0, false),
        (2, false),
        (62, false),
        (65, false),
        (LAST - 1, false),
        (LAST + 1, false),
        (usize::MAX, false),
    ] {
        assert!(rt; set.has(place) == is_in, "{place}");
    }
    assert!(rt; !set.is_empty());
    assert!(rt; Set::empty().is_empty());
    assert!(rt; !Set::empty().has(0));
}

#[test]
fn sets_are_equal_where_they_have_the_same_pairings(rt: HostRuntime) {
    let set = set_of(&[3, 64, 200, LAST]);
    assert!(rt; set == set_of(&[200, LAST, 3, 64]));
    assert!(rt; set != set_of(&[3, 64, LAST]));
    assert!(rt; set != set_of(&[3, 64, 200]));
    assert!(rt; set != Set::empty());
}

#[test]
fn a_set_is_gone_over_in_ascending_order(rt: HostRuntime) {
    let set = set_of(&[200, 3, 64, 63, LAST]);
    for &(from, first) in &[
        (0, Some(3)),
        (3, Some(3)),
        (4, Some(63)),
        (64, Some(64)),
        (65, Some(200)),
        (201, Some(LAST)),
        (LAST + 1, None),
        (usize::MAX, None),
    ] {
        assert!(rt; set.first_from(from) == first, "{from}");
    }
    assert!(rt; Set::empty().first_from(0).is_none());
}

#[test]
fn sets_meet_where_they_share_a_pairing(rt: HostRuntime) {
    let set = set_of(&[3, 64, 200, LAST]);
    assert!(rt; set.meets(&set_of(&[200])));
    assert!(rt; set.meets(&set_of(&[5, 64, 65])));
    assert!(rt; set.meets(&set_of(&[4, LAST])));
    assert!(rt; !set.meets(&set_of(&[4, 65, 128, 201, LAST - 1])));
    assert!(rt; !set.meets(&Set::empty()));
}

#[test]
fn two_sets_have_some_pairings_in_common(rt: HostRuntime) {
    let set = set_of(&[3, 64, 200, LAST]);
    assert!(rt; set.and(&set_of(&[5, 64, 65, LAST])) == set_of(&[64, LAST]));
    assert!(rt; set.and(&set_of(&[4, 65, 128, 201, LAST - 1])).is_empty());
}

#[test]
fn a_set_is_read_off_the_list_of_places(rt: HostRuntime) {
    let places = [1u16, 0, 2, 1, 3, 1];
    assert!(rt; Set::of_places(&places, 1) == set_of(&[0, 3, 5]));
    assert!(rt; Set::of_places(&places, 3) == set_of(&[4]));
    assert!(rt; Set::of_places(&places, 4).is_empty());
}

/// The list has the duties at AMS and at CPH.
fn has_two_duties(rt: &impl Abort, list: &DutyList<'_>) {
    assert!(rt; list.len() == 2);
    assert!(rt; !list.is_empty());
    assert!(rt; list.duty(0).station.as_bytes() == b"AMS".as_slice());
    assert!(rt; list.duty(1).station.as_bytes() == b"CPH".as_slice());
}

#[test]
fn a_duty_list_has_the_duties_at_its_positions(rt: HostRuntime) {
    let duties = duties(
        &rt,
        &[
            ("AMS", "2024-03-04T06:00Z", "2024-03-04T14:00Z"),
            ("BER", "2024-03-05T06:00Z", "2024-03-05T14:00Z"),
            ("CPH", "2024-03-06T06:00Z", "2024-03-06T14:00Z"),
        ],
    );
    has_two_duties(&rt, &list_of(&rt, &duties, &[0, 2]));
    let no_duty = DutyList::new(&duties, Vec::new(rt.alloc()));
    assert!(rt; no_duty.is_empty());
}

/// Gives a duty of 4 March from 06:00 to 14:00 the sectors that it takes.
fn takes_sectors(rt: &impl Abort, duty: &mut Duty) -> Result<(), Fail> {
    for &(operates, off, on, is_taken) in &[
        (false, "2024-03-04T05:59Z", "2024-03-04T07:00Z", false),
        (false, "2024-03-04T06:00Z", "2024-03-04T06:00Z", false),
        (false, "2024-03-04T06:00Z", "2024-03-04T08:00Z", true),
        (true, "2024-03-04T07:59Z", "2024-03-04T09:00Z", false),
        (true, "2024-03-04T08:00Z", "2024-03-04T14:01Z", false),
        (true, "2024-03-04T08:00Z", "2024-03-04T14:00Z", true),
    ] {
        let (off, on) = (minute(rt, off), minute(rt, on));
        let sector = Sector { operates, off, on };
        assert!(rt; duty.is_in_sequence(sector) == is_taken);
        if is_taken {
            duty.push_sector(sector)?;
        }
    }
    assert!(rt; duty.sectors.len() == 2);
    assert!(rt; duty.sectors[1].on == duty.release);
    Ok(())
}

#[test]
fn a_duty_has_sectors_that_follow_each_other(rt: HostRuntime) -> Result<(), Fail> {
    let mut duty = duty(&rt, "AMS", "2024-03-04T06:00Z", "2024-03-04T14:00Z");
    takes_sectors(&rt, &mut duty)
}

#[test]
fn places_are_given_back(rt: HostRuntime) -> Result<(), Fail> {
    let mut places = Places::new([2u16, 0].to_vec(rt.alloc())?);
    assert!(rt; places.as_slice() == [2u16, 0].as_slice());
    places.copy_from_slice(&[1, 2]);
    assert!(rt; places.into_vec().as_slice() == [1u16, 2].as_slice());
    Ok(())
}

#[test]
fn costs_are_found_by_person_and_pairing(rt: HostRuntime) -> Result<(), Fail> {
    let mut costs = Costs::new(rt.alloc());
    let given = &[
        (3, 7, -5),
        (MOST_PERSONS - 1, LAST, 9),
        (0, 0, 0),
        (7, 3, 1),
    ];
    for &(person, pairing, units) in given {
        assert!(rt; person < MOST_PERSONS && pairing < MOST_PAIRINGS);
        assert!(rt; costs.given(person, pairing).is_none());
        costs.push(Cost {
            person,
            pairing,
            units,
        })?;
    }
    assert!(rt; costs.len() == 4);
    for &(person, pairing, units) in given {
        assert!(rt; costs.given(person, pairing) == Some(units));
    }
    // Not the next row's first place.
    for &(person, pairing) in &[(3, 8), (0, 3), (2, 7 + MOST_PAIRINGS), (MOST_PERSONS, 0)] {
        assert!(rt; costs.given(person, pairing).is_none());
    }
    Ok(())
}
