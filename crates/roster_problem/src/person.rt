//! Persons.

use roster_values::Name;
use std::marker::Model;

/// A crew member.
#[derive(Drop)]
pub struct Person {
    /// Their own among the persons.
    pub id: Name,
    /// The place of the home base.
    pub base: usize,
    /// Minutes of flight that are wanted in the month, from 0 to `MOST_MINUTES`.
    pub target: u32,
    /// Minutes of flight in the calendar year before the month, from 0 to `MOST_MINUTES`.
    pub year: u32,
    /// Minutes of flight in the eleven calendar months before the month, from 0 to `MOST_MINUTES`.
    pub eleven: u32,
    /// The row of the record.
    pub row: usize,
}

impl Model for Person {
    ghost use Rattle.roster_model.specs.records.Crew.{Person as Entry};

    ghost Value = { Entry };

    ghost view = { λ p. record {
      id = p.id;
      base = p.base;
      target = p.target;
      year = p.year;
      eleven = p.eleven;
      row = p.row;
    } };
}
