//! Bases.

use roster_instants::BaseDays;
use roster_values::Name;
use std::marker::Model;

/// The home of persons, and where pairings begin.
#[derive(Drop)]
pub struct Base {
    /// Its own among the bases.
    pub id: Name,
    /// The days of the window as the base's clocks show them.
    pub days: BaseDays,
}

impl Model for Base {
    ghost use Rattle.roster_model.specs.records.Base.{Base as Entry};

    ghost Value = { Entry };

    ghost view = { λ b. record { id = b.id; days = b.days } };
}
