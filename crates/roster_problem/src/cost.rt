//! Costs.

use std::marker::Model;

/// What it costs that a person flies a pairing.
#[derive(Drop)]
pub struct Cost {
    /// The place of the person.
    pub person: usize,
    /// The place of the pairing.
    pub pairing: usize,
    /// The cost units, from -`MOST_UNITS` to `MOST_UNITS`: less than 0 if it saves.
    pub units: i32,
}

impl Model for Cost {
    ghost use Rattle.roster_model.specs.records.Cost.{Cost as Entry};

    ghost Value = { Entry };

    ghost view = { λ c. record { person = c.person; pairing = c.pairing; units = c.units } };
}
